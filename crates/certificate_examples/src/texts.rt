// Certificates as texts, of which some lines are replaced.

/// A pointer that is handed to a procedure and back.
pub const HANDED: &str =
    "int *id(int *p) { return p; } int main(void) { int *a; a = malloc(sizeof(int)); a = id(a); free(a); return 0; }";

pub const HANDED_TEXT: &str = "clouseau certificate 1
phi
instance 0 0
iface 11
sites
place 0 0 10
place 0 1 10
place 0 2 01
instance 1 1
iface
sites 0
place 1 0 00
place 1 1 00
place 1 2 00
place 1 3 01
place 1 4 10
place 1 5 10
place 1 6 00
place 1 7 00
place 1 8 00
end 2
";

/// A pointer that is made and freed.
pub const FREED: &str =
    "int main(void) {\n  int *p;\n  p = malloc(sizeof(int));\n  free(p);\n  return 0;\n}";

pub const FREED_TEXT: &str = "clouseau certificate 1
phi
instance 0 0
iface
sites
place 0 0 0
place 0 1 0
place 0 2 0
place 0 3 1
place 0 4 0
place 0 5 0
place 0 6 0
end 1
";

/// Of the node that refers to itself: its field owns, and is open until it is stored into.
pub const KEPT_TEXT: &str = "clouseau certificate 1
phi 1
instance 0 0
iface
sites
place 0 0 00
place 0 1 00
place 0 2 00
place 0 3 11
place 0 4 00
place 0 5 11
place 0 6 00
place 0 7 00
place 0 8 00
end 1
";

/// An alteration of a text: the first line that is replaced, from 1, how many are, and what stands there instead. And what is said of
/// what comes of it: `good`, or the line and the reason of the first fault.
pub struct Altered(pub usize, pub usize, pub &'static str, pub &'static str);
