use c_types::LimitKind;

/// Why a source is refused. A place is a byte offset from 0.
#[derive(Clone, Copy, Debug, PartialEq, Eq)]
pub enum Refusal {
    /// The file has more than 4,194,304 bytes.
    TooLong,
    /// No token begins at this place.
    Lex(u32),
    /// The tokens spell no tree: the place of the first that cannot be taken, or the end of the last.
    Parse(u32),
    /// A rule of types is broken: the place of the node to which the first broken rule belongs, and
    /// the rule's number.
    BadType { at: u32, rule: u32 },
    /// There is no body of `int main` without parameters.
    NoMain,
    /// There are more of a kind than may be: how many there are.
    Limit { kind: LimitKind, count: u64 },
}
