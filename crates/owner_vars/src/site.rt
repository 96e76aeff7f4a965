/// A call from a member of a group to a procedure with a body outside the group.
#[derive(Clone, Copy, Debug, PartialEq, Eq)]
pub struct Site {
    /// The member that calls.
    pub proc: u32,
    /// The place at which the call begins.
    pub place: u32,
    /// The procedure that is called.
    pub callee: u32,
}
