use crate::certificate::PlaceBits;
use crate::lists::{Bits, Numbers};

/// Which of a certificate's two texts.
#[derive(Clone, Copy)]
pub(crate) enum Version {
    /// With a line for each place.
    First,
    /// With a line for each run of places.
    Second,
}

/// Places of one procedure that follow one another and have the same bits.
#[derive(Drop)]
pub(crate) struct Run {
    /// The procedure's number.
    pub proc: u32,
    /// The first place.
    pub first: u32,
    /// The last place, which is not before the first.
    pub last: u32,
    pub bits: Bits,
}

/// What one line of a certificate's text says.
#[derive(Drop)]
pub(crate) enum Line {
    Header(Version),
    Phi(Bits),
    /// A group's number, and the procedure through which it is entered.
    Instance(u32, u32),
    Iface(Bits),
    Sites(Numbers),
    Place(PlaceBits),
    Places(Run),
    /// The number of instances.
    End(u64),
}
