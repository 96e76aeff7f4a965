ghost use Rattle.std.specs.Prelude.{◌≡◌};
ghost use Rattle.c_token.specs.Reading.{line_at, col_at};

/// The line and the column, both from 1, of the byte at an offset from 0. A line ends with its line
/// feed, and a column is a byte.
#[tactic(auto, using(crate::proofs::Places::line_from, crate::proofs::Places::col_from))]
pub fn line_and_column(source: &[u8], at: u32) -> (usize, usize)
    ensures line { result.0 ≡ line_at source.now at }
    ensures column { result.1 ≡ col_at source.now at }
{
    let passed = &source[..source.len().min(at as usize)];
    let mut line = 1;
    let mut column = 1;
    for byte in passed {
        if *byte == b'\n' {
            line += 1;
            column = 1;
        } else {
            column += 1;
        }
    }
    (line, column)
}
