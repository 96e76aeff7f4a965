use thiserror::Error;

/// A call of a file or a sink failed. Its count of faults says whether that was a fault.
#[derive(Debug, Drop)]
pub struct Failed;

/// Why no bytes came. Each message is the variant's name.
#[derive(Debug, Drop, Error)]
pub enum ReadError {
    /// Memory ran out.
    #[error("Memory")]
    Memory,
    /// The file could not be opened or read.
    #[error("ReadFault")]
    ReadFault,
    /// The file has more bytes than were asked for.
    #[error("TooLong")]
    TooLong,
}
