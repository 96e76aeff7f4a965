ghost use Rattle.std.specs.Prelude.{◌≡◌, ◌<◌, ◌^◌, ◌++◌, ◌∷◌, [], map, codes, decimal, IfOk, OnOk, None};
ghost use Rattle.std.specs.List.{All};
ghost use Rattle.line_texts.specs.Lines.{with_line_feeds};
ghost use Rattle.own_cert.specs.declared.certificate.Certificate.{Certificate};
ghost use Rattle.own_cert.specs.declared.lines.Version.TheVariants as version;
ghost use Rattle.own_cert.specs.Text.{certificate_text, header_text, bits_text, instance_lines, place_lines, line_text, runs_of};
ghost use Rattle.own_cert.specs.Runs.{Apart};
ghost use Rattle.own_cert.specs.LineForms.{words_text};
ghost use Rattle.own_cert.specs.Values.{IsRow, IsInstance, IsCertificate};

use crate::certificate::{Certificate, Instance, PlaceBits};
use crate::lines::Version;
use crate::runs::{more_of_run, printed_version};
use c_tree::Memory;
use conflict_proof::put_numbers;
use itoa::Buffer;
use std::alloc::Global;

/// The text of a certificate: the second one, where its places are at most 16,777,216 and their bits at most
/// 268,435,456, and else the first one.
pub fn print(alloc: Global, value: &Certificate) -> Result<Vec<u8>, Memory>
    ensures text { IfOk result (λ text. text.items ≡ certificate_text value.now) }
    ensures whole { OnOk result (IsCertificate value.now) }

    // Each run of places is as long as it can be.
    ensures longest { OnOk result (All (λ i. Apart None (runs_of i.places)) value.now.instances) }

    // No other certificate has this text.
    ensures alone { OnOk result ((other : Certificate) → IsCertificate other → IsCertificate value.now → certificate_text other ≡ certificate_text value.now → other ≡ value.now) }
{
    let version = printed_version(value);
    let mut out = Vec::new(alloc);
    put_header(&mut out, version)?;
    put_line(&mut out, b"phi", &[], &value.phi.items)?;
    for instance in &value.instances.items {
        put_instance(&mut out, version, instance)?;
    }
    put_end(&mut out, value.instances.items.len())?;
    Ok(out)
}

/// Adds the first line.
fn put_header(out: &mut Vec<u8>, version: Version) -> Result<(), Memory>
    ensures { OnOk result (out.new.items ≡ out.old.items ++ (header_text version ++ codes "\n")) }
{
    match version {
        Version::First => out.extend_from_slice(b"clouseau certificate 1\n")?,
        Version::Second => out.extend_from_slice(b"clouseau certificate 2\n")?,
    }
    Ok(())
}

/// Adds the last line.
fn put_end(out: &mut Vec<u8>, count: usize) -> Result<(), Memory>
    ensures { OnOk result (out.new.items ≡ out.old.items ++ (codes "end " ++ (decimal count ++ codes "\n"))) }
{
    let mut buffer = Buffer::new();
    out.extend_from_slice(b"end ")?;
    out.extend_from_slice(buffer.format(count).as_bytes())?;
    out.push(b'\n')?;
    Ok(())
}

/// Adds an instance's lines.
fn put_instance(out: &mut Vec<u8>, version: Version, i: &Instance) -> Result<(), Memory>
    ensures is { OnOk result (IsInstance i.now) }
    ensures text { OnOk result (out.new.items ≡ out.old.items ++ with_line_feeds (map line_text (instance_lines version i.now))) }
{
    put_line(out, b"instance", &[i.group, i.entry], &[])?;
    put_line(out, b"iface", &[], &i.iface.items)?;
    put_line(out, b"sites", &i.sites.items, &[])?;
    match version {
        Version::First => put_places(out, &i.places.items),
        Version::Second => put_runs(out, &i.places.items),
    }
}

/// Adds a line for each place.
fn put_places(out: &mut Vec<u8>, rows: &[PlaceBits]) -> Result<(), Memory>
    ensures is { OnOk result (All IsRow rows.now) }
    ensures text { OnOk result (out.new.items ≡ out.old.items ++ with_line_feeds (map line_text (place_lines version.First rows.now))) }
{
    for row in rows {
        put_line(out, b"place", &[row.proc, row.place], &row.bits.items)?;
    }
    Ok(())
}

/// Adds a line for each run of places.
fn put_runs(out: &mut Vec<u8>, rows: &[PlaceBits]) -> Result<(), Memory>
    ensures is { OnOk result (All IsRow rows.now) }
    ensures text { OnOk result (out.new.items ≡ out.old.items ++ with_line_feeds (map line_text (place_lines version.Second rows.now))) }
{
    let mut rest = rows;
    while let Some((first, more)) = rest.split_first() {
        let count = more_of_run(first, more);
        let last = &rest[count];
        put_line(
            out,
            b"places",
            &[first.proc, first.place, last.place],
            &first.bits.items,
        )?;
        rest = more.split_at(count).1;
    }
    Ok(())
}

/// Adds a line: a word, numbers and bits.
fn put_line(out: &mut Vec<u8>, word: &[u8], numbers: &[u32], bits: &[bool]) -> Result<(), Memory>
    ensures small { All (λ n. n < 2 ^ 32) numbers.now }
    ensures text { OnOk result (out.new.items ≡ out.old.items ++ words_text word.now numbers.now bits.now) }
{
    out.extend_from_slice(word)?;
    put_numbers(out, numbers)?;
    put_bits(out, bits)?;
    out.push(b'\n')?;
    Ok(())
}

/// Adds bits after a space, and nothing where there are none.
fn put_bits(out: &mut Vec<u8>, bits: &[bool]) -> Result<(), Memory>
    ensures { OnOk result (out.new.items ≡ out.old.items ++ bits_text bits.now) }
{
    if bits.is_empty() {
        return Ok(());
    }
    out.push(b' ')?;
    for bit in bits {
        out.push(if *bit { b'1' } else { b'0' })?;
    }
    Ok(())
}
