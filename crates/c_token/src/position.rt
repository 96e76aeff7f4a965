ghost use Rattle.std.specs.Prelude.{◌≡◌, ◌≤◌, ◌<◌, ◌+◌, ◌^◌, length, take, drop};

/// Where the lexer stands.
#[derive(Clone, Copy)]
pub(crate) struct Position {
    /// The place, in bytes from 0.
    pub at: u32,
    /// Its line and its column, both from 1, the column counted in bytes.
    pub line: u32,
    pub col: u32,
    /// Whether nothing but blanks stands before it on its line.
    pub first: bool,
}

impl Position {
    ghost use Rattle.c_token.specs.Parts.{pass};

    /// Goes past the first `n` bytes, and gives those that are left.
    pub(crate) fn pass<'a>(&mut self, bytes: &'a [u8], n: usize) -> &'a [u8]
        requires fits { n ≤ length bytes.now }
        requires at { self.old.at + n < 2 ^ 32 }
        requires line { self.old.line + n < 2 ^ 32 }
        requires col { self.old.col + n < 2 ^ 32 }
        ensures passed { self.new ≡ pass self.old (take n bytes.now) }
        ensures left { result.now ≡ drop n bytes.now }
    {
        let (passed, left) = bytes.split_at(n);
        for b in passed {
            self.at += 1;
            if *b == b'\n' {
                self.line += 1;
                self.col = 1;
                self.first = true;
            } else {
                self.col += 1;
            }
        }
        left
    }
}
