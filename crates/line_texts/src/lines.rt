ghost use Rattle.std.specs.Prelude.{◌≡◌, MatchOption};
ghost use Rattle.line_texts.specs.Lines.{line_feeds, IsCut};

/// The line at the front without its line feed, and what follows that. None where no line feed is there.
pub fn next_line(text: &[u8]) -> Option<(&[u8], &[u8])>
    ensures { MatchOption result (line_feeds text.now ≡ 0) (λ found. IsCut text.now found.0.now found.1.now) }
{
    for (end, byte) in text.iter().enumerate() {
        if *byte == b'\n' {
            return Some((text.split_at(end).0, text.split_at(end + 1).1));
        }
    }
    None
}
