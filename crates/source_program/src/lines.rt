ghost use Rattle.std.specs.Prelude.{◌≡◌, ◌++◌, IfOk, OnOk, codes, decimal};
ghost use Rattle.source_program.specs.Texts.{line_on, line_at_place, limit_word, refusal_line};

use crate::place::line_and_column;
use crate::refusal::Refusal;
use c_tree::Memory;
use c_types::LimitKind;
use itoa::Buffer;
use std::alloc::Global;

/// The line that says why a source of that name is refused.
pub fn refusal_line(
    alloc: Global,
    refusal: Refusal,
    source: &[u8],
    name: &str,
) -> Result<Vec<u8>, Memory>
    ensures { IfOk result (λ line. line.items ≡ refusal_line source.now name.now refusal) }
{
    match refusal {
        Refusal::TooLong => line_on(alloc, b"too long: ", name),
        Refusal::Lex(at) => line_at_place(alloc, source, at, b"no token"),
        Refusal::Parse(at) => line_at_place(alloc, source, at, b"not in the grammar"),
        Refusal::BadType { at, rule } => {
            let mut said = Vec::from_slice(alloc, b"type rule ")?;
            push_number(rule as u64, &mut said)?;
            line_at_place(alloc, source, at, said.as_slice())
        }
        Refusal::NoMain => Ok(Vec::from_slice(alloc, b"no int main(void)\n")?),
        Refusal::Limit { kind, count } => limit_line(alloc, kind, count),
    }
}

/// A line that names the file.
pub fn line_on(alloc: Global, front: &[u8], name: &str) -> Result<Vec<u8>, Memory>
    ensures { IfOk result (λ line. line.items ≡ line_on front.now name.now) }
{
    let mut line = Vec::from_slice(alloc, front)?;
    line.extend_from_slice(name.as_bytes())?;
    line.extend_from_slice(b"\n")?;
    Ok(line)
}

/// A line on the byte at a place of the source.
fn line_at_place(alloc: Global, source: &[u8], at: u32, said: &[u8]) -> Result<Vec<u8>, Memory>
    ensures { IfOk result (λ line. line.items ≡ line_at_place source.now at said.now) }
{
    let (number, column) = line_and_column(source, at);
    let mut line = Vec::new(alloc);
    push_number(number as u64, &mut line)?;
    line.extend_from_slice(b":")?;
    push_number(column as u64, &mut line)?;
    line.extend_from_slice(b": ")?;
    line.extend_from_slice(said)?;
    line.extend_from_slice(b"\n")?;
    Ok(line)
}

fn limit_line(alloc: Global, kind: LimitKind, count: u64) -> Result<Vec<u8>, Memory>
    ensures { IfOk result (λ line. line.items ≡ codes "limit " ++ limit_word kind ++ codes " " ++ decimal count ++ codes "\n") }
{
    let word: &[u8] = match kind {
        LimitKind::Structs => b"structs",
        LimitKind::Fields => b"fields",
        LimitKind::Procs => b"procs",
        LimitKind::Params => b"params",
        LimitKind::Unknowns => b"unknowns",
    };
    let mut line = Vec::from_slice(alloc, b"limit ")?;
    line.extend_from_slice(word)?;
    line.extend_from_slice(b" ")?;
    push_number(count, &mut line)?;
    line.extend_from_slice(b"\n")?;
    Ok(line)
}

fn push_number(number: u64, text: &mut Vec<u8>) -> Result<(), Memory>
    ensures { OnOk result (text.new.items ≡ text.old.items ++ decimal number) }
{
    let mut digits = Buffer::new();
    text.extend_from_slice(digits.format(number).as_bytes())?;
    Ok(())
}
