//! A certificate as far as its text is read.

ghost use Rattle.std.specs.Prelude.{◌≡◌, ◌≤◌, IfOk};
ghost use Rattle.own_cert.specs.Values.{IsLine};
ghost use Rattle.own_cert.specs.Drafts.{next, between, in_places, after_place, after_run, empty_draft};

use crate::certificate::{Certificate, Instance, PlaceBits};
use crate::lines::{Line, Run, Version};
use crate::lists::{Bits, Instances, Rows};
use crate::runs::{Room, after_last, push_run, room_after};
use c_tree::Memory;
use std::alloc::Global;

/// The part of a certificate that is whole.
#[derive(Drop)]
pub(crate) struct Draft {
    pub version: Version,
    pub phi: Bits,
    pub instances: Instances,
    /// What the second text may still hold.
    pub room: Room,
}

/// Where reading stands.
#[derive(Drop)]
pub(crate) enum State {
    /// Before the header.
    Start,
    /// Before phi.
    Headed(Version),
    /// Before the first instance.
    Whole(Draft),
    /// In an instance whose group and entry are read.
    Entered(Draft, u32, u32),
    /// In an instance whose interface is read too.
    Faced(Draft, u32, u32, Bits),
    /// In the places of an instance.
    Placed(Draft, Instance),
    /// After the end.
    Done(Certificate),
}

/// Where reading stands after one line more. None where no text goes on so.
pub(crate) fn next(alloc: Global, state: State, line: Line) -> Result<Option<State>, Memory>
    requires { IsLine line }
    ensures { IfOk result (λ o. o ≡ next state line) }
{
    match state {
        State::Start => match line {
            Line::Header(version) => Ok(Some(State::Headed(version))),
            _ => Ok(None),
        },
        State::Headed(version) => match line {
            Line::Phi(phi) => Ok(Some(State::Whole(empty(alloc, version, phi)))),
            _ => Ok(None),
        },
        State::Whole(draft) => Ok(between(draft, line)),
        State::Entered(draft, group, entry) => match line {
            Line::Iface(iface) => Ok(Some(State::Faced(draft, group, entry, iface))),
            _ => Ok(None),
        },
        State::Faced(draft, group, entry, iface) => match line {
            Line::Sites(sites) => {
                let places = Rows {
                    items: Vec::new(alloc),
                };
                let instance = Instance {
                    group,
                    entry,
                    iface,
                    sites,
                    places,
                };
                Ok(Some(State::Placed(draft, instance)))
            }
            _ => Ok(None),
        },
        State::Placed(draft, instance) => in_places(alloc, draft, instance, line),
        State::Done(_) => Ok(None),
    }
}

/// A certificate without instances.
fn empty(alloc: Global, version: Version, phi: Bits) -> Draft
    ensures { result ≡ empty_draft version phi }
{
    Draft {
        version,
        phi,
        instances: Instances {
            items: Vec::new(alloc),
        },
        room: Room {
            places: 1 << 24,
            bits: 1 << 28,
        },
    }
}

/// After whole instances: an instance or the end.
fn between(draft: Draft, line: Line) -> Option<State>
    ensures { result ≡ between draft line }
{
    match line {
        Line::Instance(group, entry) => Some(State::Entered(draft, group, entry)),
        Line::End(count) => {
            if count != draft.instances.items.len() as u64 {
                return None;
            }
            Some(State::Done(Certificate {
                phi: draft.phi,
                instances: draft.instances,
            }))
        }
        _ => None,
    }
}

/// In an instance's places: one or a run of them, or what follows the instance.
fn in_places(
    alloc: Global,
    draft: Draft,
    instance: Instance,
    line: Line,
) -> Result<Option<State>, Memory>
    requires { IsLine line }
    ensures { IfOk result (λ o. o ≡ in_places draft instance line) }
{
    match line {
        Line::Place(row) => after_place(draft, instance, row),
        Line::Places(run) => after_run(alloc, draft, instance, run),
        other => {
            let mut whole = draft;
            whole.instances.items.push(instance)?;
            Ok(between(whole, other))
        }
    }
}

/// An instance's next place. The second text has no line for it.
fn after_place(draft: Draft, instance: Instance, row: PlaceBits) -> Result<Option<State>, Memory>
    ensures { IfOk result (λ o. o ≡ after_place draft.version draft instance row) }
{
    match draft.version {
        Version::First => {
            let mut longer = instance;
            longer.places.items.push(row)?;
            Ok(Some(State::Placed(draft, longer)))
        }
        Version::Second => Ok(None),
    }
}

/// An instance's next run of places, where it doesn't go on with the last one. The first text has no line for it.
fn after_run(
    alloc: Global,
    draft: Draft,
    instance: Instance,
    run: Run,
) -> Result<Option<State>, Memory>
    requires { run.first ≤ run.last }
    ensures { IfOk result (λ o. o ≡ after_run draft.version draft instance run) }
{
    if let Version::First = draft.version {
        return Ok(None);
    }
    if after_last(&instance.places.items, &run) {
        return Ok(None);
    }
    let Some(room) = room_after(draft.room, &run) else {
        return Ok(None);
    };
    let mut left = draft;
    left.room = room;
    let mut longer = instance;
    push_run(alloc, &mut longer.places, run)?;
    Ok(Some(State::Placed(left, longer)))
}
