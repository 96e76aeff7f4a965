/// A literal whose opposite was found before it: the group or the root, and its place among what was found there.
#[derive(Clone, Copy, Debug, PartialEq, Eq)]
pub struct Contradiction {
    pub group: u32,
    pub place: u32,
}
