ghost use Rattle.std.specs.Prelude.{◌≡◌, ◌≤◌, ◌↔◌, ◌⊎◌, length};
ghost use Rattle.own_cert.specs.declared.lines.Version.TheVariants.{First};
ghost use Rattle.own_cert.specs.Text.{lines_of, runs_of};
ghost use Rattle.own_cert.specs.Holders.{BeginsSecond, IsHolder, HoldsFirst};

use crate::certificate::{Certificate, PlaceBits};
use crate::runs::more_of_run;
use conflict_proof::after_word;

/// 2 where the first line, with its line feed, is that of a certificate's second text, and else 1. It takes no memory.
pub fn version(text: &[u8]) -> u8
    ensures second { result ≡ 2 ↔ BeginsSecond text.now }
    ensures other { (result ≡ 1) ⊎ (result ≡ 2) }
{
    match after_word(text, b"clouseau certificate 2\n") {
        Some(_) => 2,
        None => 1,
    }
}

/// The line of a certificate's second text that holds what a line of its first text says. Lines are numbered from
/// 1. It takes no memory.
pub fn line_in_2(c: &Certificate, line: u64) -> u64
    requires some { 1 ≤ line }
    requires within { line ≤ length (lines_of First c.now) }
    ensures holder { IsHolder c.now line result }

    // What the lines of the second text stand for is the first text.
    ensures all { HoldsFirst c.now }
{
    if line <= 2 {
        return line;
    }
    let mut at = 2;
    let mut left = line - 2;
    for instance in &c.instances.items {
        let rows = instance.places.items.as_slice();
        if left <= 3 {
            return at + left;
        }
        let place = left - 3;
        if place <= rows.len() as u64 {
            return at + 3 + count_runs(rows.split_at(place as usize).0) as u64;
        }
        at += 3 + count_runs(rows) as u64;
        left = place - rows.len() as u64;
    }
    at + left
}

/// How many runs rows have.
fn count_runs(rows: &[PlaceBits]) -> usize
    ensures { result ≡ length (runs_of rows.now) }
{
    let mut rest = rows;
    let mut n = 0;
    while let Some((first, more)) = rest.split_first() {
        rest = more.split_at(more_of_run(first, more)).1;
        n += 1;
    }
    n
}
