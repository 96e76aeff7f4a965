ghost use Rattle.std.specs.Prelude.{◌≡◌, ℕ, ◌<◌, ◌≤◌, ◌++◌, ◌∷◌, [], length, IfOk, OnOk};
ghost use Rattle.std.specs.List.{Contains};
ghost use Rattle.std.specs.List.Sorted.{IsStrictlySortedBy};
ghost use Rattle.verdict_meaning.specs.Systems.{root, callee, callees, count};
ghost use Rattle.plain_answers.specs.declared.wants.Want.{Want};
ghost use Rattle.plain_answers.specs.Orders.{want_order};
ghost use Rattle.plain_answers.specs.Wants.{asked, wants_in, IsAdded, AreAsked};

use c_tree::Memory;
use call_search::{Shapes, asked_face};
use own_cert::Bits;
use std::alloc::Global;
use std::cmp::Ordering;
use std::marker::Model;

/// What a site asks for: a procedure with an interface.
#[derive(Drop)]
pub(crate) struct Want {
    pub proc: u32,
    pub face: Bits,
}

/// What is asked of one group.
#[derive(Drop)]
pub(crate) struct Wants {
    pub items: Vec<Want>,
}

impl Model for Wants {
    ghost use Rattle.std.specs.Prelude.{List};
    ghost use Rattle.plain_answers.specs.declared.wants.Want.{Want};

    ghost Value = { List Want };

    ghost view = { λ w. w.items.items };
}

/// The interface that is asked for.
pub(crate) fn face_of(want: &Want) -> &[bool]
    ensures { result.now ≡ want.now.face }
{
    want.face.items.as_slice()
}

impl Ord for Want {
    ghost use Rattle.std.proofs.Common.{rules};
    ghost use Rattle.plain_answers.specs.Orders.{want_order, want_order_total};

    ghost cmp = { want_order };

    ghost total = { want_order_total };

    ghost matches_partial_cmp = { Prim.search rules };

    ghost matches_eq = { Prim.search rules };

    fn cmp(&self, other: &Want) -> Ordering {
        self.proc
            .cmp(&other.proc)
            .then(face_of(self).cmp(&face_of(other)))
    }
}

impl PartialOrd for Want {
    ghost use Rattle.std.specs.Cmp.{partial_order_from_total};
    ghost use Rattle.std.specs.Ordering.{as_partial_cmp};
    ghost use Rattle.plain_answers.specs.Orders.{want_order, want_order_total};

    ghost partial_cmp = { as_partial_cmp want_order };

    ghost laws = { partial_order_from_total want_order_total };

    fn partial_cmp(&self, other: &Want) -> Option<Ordering> {
        Some(self.cmp(other))
    }
}

impl PartialEq for Want {
    ghost use Rattle.std.specs.Cmp.{eq_by_cmp_equiv, partial_equiv_from_equiv};
    ghost use Rattle.std.specs.Ordering.{eq_by_cmp};
    ghost use Rattle.plain_answers.specs.Orders.{want_order, want_order_total};

    ghost eq = { eq_by_cmp want_order };

    ghost laws = { partial_equiv_from_equiv (eq_by_cmp_equiv want_order_total) };

    fn eq(&self, other: &Want) -> bool {
        self.cmp(other).is_eq()
    }
}

impl Eq for Want {
    ghost use Rattle.std.specs.Cmp.{eq_by_cmp_equiv};
    ghost use Rattle.plain_answers.specs.Orders.{want_order_total};

    ghost laws = { eq_by_cmp_equiv want_order_total };
}

/// What is asked for in order, each once.
pub(crate) fn in_order(wants: Vec<Want>) -> Vec<Want>
    ensures sorted { IsStrictlySortedBy want_order result.items }
    ensures kept { (q : Want) → Contains wants.items q → Contains result.items q }
    ensures from { (q : Want) → Contains result.items q → Contains wants.items q }
{
    let mut wants = wants;
    wants.sort_unstable();
    wants.dedup();
    wants
}

/// Adds what is asked of a group.
fn add(wanted: &mut Vec<Wants>, group: u32, want: Want) -> Result<(), Memory>
    requires { group < length wanted.old.items }
    ensures { OnOk result (IsAdded group want wanted.old.items wanted.new.items) }
{
    wanted[group as usize].items.push(want)?;
    Ok(())
}

/// Adds what a site of a group, or of the root, asks for by its bits.
fn ask<G: Shapes>(
    alloc: Global,
    groups: &G,
    wanted: &mut Vec<Wants>,
    bits: &[bool],
    group: u32,
    site: u32,
) -> Result<(), Memory>
    requires table { length wanted.old.items ≡ group }
    requires group { group ≤ root (G.system groups.now) }
    requires site { site < length (callees (G.system groups.now) group) }
    requires size { length bits.now ≡ count (G.system groups.now) group }
    ensures { OnOk result (IsAdded (callee (G.system groups.now) group site).group (asked (G.system groups.now) group bits.now site) wanted.old.items wanted.new.items) }
{
    let callee = groups.callee(group, site);
    let items = asked_face(groups, bits, group, site).to_vec(alloc)?;
    let want = Want {
        proc: callee.proc,
        face: Bits { items },
    };
    add(wanted, callee.group, want)
}

/// Adds what the sites of a group, or of the root, ask for by its bits.
pub(crate) fn ask_all<G: Shapes>(
    alloc: Global,
    groups: &G,
    wanted: &mut Vec<Wants>,
    bits: &[bool],
    group: u32,
) -> Result<(), Memory>
    requires table { length wanted.old.items ≡ group }
    requires group { group ≤ root (G.system groups.now) }
    requires size { length bits.now ≡ count (G.system groups.now) group }
    ensures { OnOk result (AreAsked (G.system groups.now) group bits.now wanted.old.items wanted.new.items (length (callees (G.system groups.now) group))) }
{
    for site in 0..groups.sites(group) {
        ask(alloc, groups, wanted, bits, group, site)?;
    }
    Ok(())
}

/// Nothing asked for yet, of so many groups.
pub(crate) fn unasked(alloc: Global, groups: u32) -> Result<Vec<Wants>, Memory>
    ensures count { IfOk result (λ w. length w.items ≡ groups) }
    ensures none { IfOk result (λ w. (h : ℕ) → wants_in w.items h ≡ []) }
{
    let mut wanted = Vec::new(alloc);
    for _group in 0..groups {
        let none = Wants {
            items: Vec::new(alloc),
        };
        wanted.push(none)?;
    }
    Ok(wanted)
}
