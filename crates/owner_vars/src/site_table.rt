ghost use Rattle.std.specs.Prelude.{◌≡◌, ◌<◌, Some, length, map, slice_get, IfOk};
ghost use Rattle.owner_vars.specs.Sites.{site_among};
ghost use Rattle.owner_vars.specs.Unknowns.{Site as Plain};

use crate::index::Index;
use crate::site::Site;
use c_tree::Memory;
use std::alloc::Global;
use std::marker::Model;

/// How many sites of a group stand before each place of a member, and before what follows the member.
#[derive(Drop)]
pub(crate) struct SiteRow {
    pub before: Vec<usize>,
}

impl Model for SiteRow {
    ghost use Rattle.std.specs.Prelude.{List, ℕ};

    ghost Value = { List ℕ };

    ghost view = { λ r. r.before.items };
}

/// The sites of a call group: its calls of procedures with bodies outside it, numbered from 0, for each member by place.
///
/// Contracts see it as the list of the sites. No public call takes memory, and each takes constant time.
#[derive(Drop)]
pub struct Sites {
    pub(crate) members: Index,
    // for each member
    pub(crate) rows: Vec<SiteRow>,
    pub(crate) items: Vec<Site>,
}

impl Model for Sites {
    ghost use Rattle.std.specs.Prelude.{List};
    ghost use Rattle.owner_vars.specs.Unknowns.{Site};
    ghost use Rattle.owner_vars.specs.Tables.{AreSites};

    ghost Value = { List Site };

    ghost view = { λ s. s.items.items };

    ghost invariant = { λ s. AreSites s.members s.rows.items s.items.items };
}

impl Sites {
    /// How many sites there are.
    pub fn count(&self) -> u32
        ensures { result ≡ length self.now }
    {
        self.items.len() as u32
    }

    /// The site of a number.
    pub fn site(&self, number: u32) -> Site
        requires { number < length self.now }
        ensures { slice_get self.now number ≡ Some result }
    {
        self.items[number as usize]
    }

    /// The number of the site at a place of a procedure; none where the procedure is no member or has no such place, or
    /// no call out of the group begins there.
    pub fn at(&self, proc: u32, place: u32) -> Option<u32>
        ensures { result ≡ site_among self.now proc place }
    {
        if !self.members.has(proc) {
            return None;
        }
        let row = &self.rows[self.members.at(proc)];
        let before = row.before.as_slice();
        if before.len() <= place as usize + 1 {
            return None;
        }
        let first = before[place as usize];
        if first < before[place as usize + 1] {
            Some(first as u32)
        } else {
            None
        }
    }

    /// Whom each site calls.
    pub(crate) fn callees(&self, alloc: Global) -> Result<Vec<u32>, Memory>
        ensures { IfOk result (λ cs. cs.items ≡ map (λ (s : Plain). s.callee) self.now) }
    {
        callees(alloc, &self.items)
    }
}

/// Whom each of these sites calls.
fn callees(alloc: Global, sites: &[Site]) -> Result<Vec<u32>, Memory>
    ensures { IfOk result (λ cs. cs.items ≡ map (λ (s : Plain). s.callee) sites.now) }
{
    let mut callees = Vec::new(alloc);
    for site in sites {
        callees.push(site.callee)?;
    }
    Ok(callees)
}
