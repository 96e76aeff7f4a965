/// A procedure that is called, and its group.
#[derive(Clone, Copy, Debug, PartialEq, Eq)]
pub struct Callee {
    /// The procedure's number.
    pub proc: u32,
    /// The group's number.
    pub group: u32,
}
