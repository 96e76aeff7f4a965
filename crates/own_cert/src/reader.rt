ghost use Rattle.std.specs.Prelude.{◌≡◌, IfOk, IfErr, MatchOption};
ghost use Rattle.own_cert.specs.declared.certificate.Certificate.{Certificate};
ghost use Rattle.own_cert.specs.Values.{IsCertificate, IsTextOf};
ghost use Rattle.own_cert.specs.Reading.{Leads, Wrong};
ghost use Rattle.own_cert.specs.Fault.{Refuses};

use crate::certificate::Certificate;
use crate::draft::{State, next};
use crate::line_reader::line;
use c_tree::Memory;
use conflict_proof::{TextError, form_at};
use line_texts::next_line;
use std::alloc::Global;

/// The certificate whose text the bytes are, in either version; there is no other one. Where they are no
/// certificate's text it is Invalid with reason Form, at the first line, from 1, that can't be continued to such a
/// text. What follows the last line feed counts as a line that can't be continued, also where nothing follows it.
pub fn read(alloc: Global, text: &[u8]) -> Result<Certificate, TextError>
    ensures found { IfOk result (λ c. IsCertificate c × IsTextOf c text.now) }
    ensures only { IfOk result (λ c. (e : Certificate) → IsCertificate e → IsTextOf e text.now → e ≡ c) }
    ensures refused { IfErr result (Refuses text.now) }
{
    let mut state = State::Start;
    let mut number = 1u64;
    let mut rest = text;
    while let Some((bytes, after)) = next_line(rest) {
        match step(alloc, state, bytes) {
            Ok(Some(more)) => state = more,
            Ok(None) => return Err(form_at(number)),
            Err(_) => return Err(TextError::Memory),
        }
        number += 1;
        rest = after;
    }
    match state {
        State::Done(certificate) => {
            if !rest.is_empty() {
                return Err(form_at(number));
            }
            Ok(certificate)
        }
        _ => Err(form_at(number)),
    }
}

/// Where reading stands after a line.
fn step(alloc: Global, state: State, bytes: &[u8]) -> Result<Option<State>, Memory>
    ensures { IfOk result (λ o. MatchOption o (Wrong state bytes.now) (Leads state bytes.now)) }
{
    match line(alloc, bytes)? {
        Some(line) => next(alloc, state, line),
        None => Ok(None),
    }
}
