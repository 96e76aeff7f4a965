ghost use Rattle.std.specs.Prelude.{◌≡◌, ℕ, ◌+◌, ◌-◌, ◌^◌, ◌<◌, ◌≤◌, List, [], ◌∷◌, ◌++◌, length, take, IfOk, IfNone, IfSome, IsNone, ◌↔◌};

use c_tree::Memory;
use std::alloc::Global;
use std::marker::Model;
use zo_core::Lit;

/// The reference to a clause in a region: its number among the live clauses that have literals, from 1, or 0 for
/// a clause without literals.
#[derive(Clone, Copy, Debug, PartialEq, Eq)]
pub struct Ref {
    number: u32,
}

impl Model for Ref {
    ghost Value = { ℕ };

    ghost view = { λ r. r.number };

    ghost inverse = { λ n. record { number = n } };
}

/// A point in time to which a region can go back.
#[derive(Clone, Copy, Debug, PartialEq, Eq)]
pub struct Mark {
    count: u32,
}

impl Model for Mark {
    ghost Value = { ℕ };

    ghost view = { λ m. m.count };

    ghost inverse = { λ n. record { count = n } };
}

/// Where a clause lies: its first word, and how many it has.
#[derive(Clone, Copy)]
struct Place {
    start: u32,
    len: u32,
}

/// Memory for clauses, reserved once, a word for each literal.
#[derive(Drop)]
pub struct Region {
    lits: Vec<Lit>,
    places: Vec<Place>,
    size: usize,
}

impl Model for Region {
    ghost use Rattle.std.specs.Vec.{vec_len, vec_capacity};
    ghost use Rattle.lit_region.specs.Contents.{Contents, contents_code};

    ghost Value = { Contents };

    ghost coded = { contents_code };

    ghost use Rattle.lit_region.specs.Places.{clauses_in, AreParts};

    ghost view = { λ r. record { size = r.size; clauses = clauses_in r.lits.items r.places.items } };

    ghost invariant = { λ r. AreParts r.lits.items (vec_len r.lits) (vec_capacity r.lits)
        r.places.items (vec_len r.places) (vec_capacity r.places) r.size };
}

impl Region {
    ghost use Rattle.lit_region.specs.Contents.{Contents, IsLive, word_count, clause_at, clauses_at, ReadSame, AreInOrder, chosen, renumbered};

    /// An empty region of this many words. More than 4,294,967,295 words are answered as want of memory.
    pub fn reserve(alloc: Global, words: usize) -> Result<Region, Memory>
        ensures { IfOk result (λ r. r ≡ record { size = words; clauses = [] }) }
    {
        if words > u32::MAX as usize {
            return Err(Memory);
        }
        let lits = Vec::with_capacity(alloc, words)?;
        let places = Vec::with_capacity(alloc, words)?;
        Ok(Region {
            lits,
            places,
            size: words,
        })
    }

    /// How many words are free: those that no live clause takes.
    pub fn free_words(&self) -> usize
        ensures free { result ≡ self.now.size - word_count self.now.clauses }
        ensures within { word_count self.now.clauses ≤ self.now.size }
    {
        self.size - self.lits.len()
    }

    /// Puts a clause after the others. None, and no change, where its literals are more than the free words.
    pub fn put(&mut self, lits: &[Lit]) -> Option<Ref>
        ensures full { IsNone result ↔ (self.old.size - word_count self.old.clauses < length lits.now) }
        ensures none { IfNone result (self.new ≡ self.old) }
        ensures size { self.new.size ≡ self.old.size }
        ensures empty { lits.now ≡ [] → (result ≡ Some 0) × (self.new ≡ self.old) }
        ensures same { ReadSame (length self.old.clauses) self.old self.new }
        ensures put { IfSome result (λ at. 0 < length lits.now
            → (at ≡ length self.old.clauses + 1) × (self.new.clauses ≡ self.old.clauses ++ lits.now ∷ [])) }
    {
        if self.free_words() < lits.len() {
            return None;
        }
        if lits.is_empty() {
            return Some(Ref { number: 0 });
        }
        let start = self.lits.len() as u32;
        self.lits.extend_from_slice(lits).unwrap();
        let place = Place {
            start,
            len: lits.len() as u32,
        };
        self.places.push(place).unwrap();
        Some(Ref {
            number: self.places.len() as u32,
        })
    }

    /// The literals of a clause.
    pub fn get(&self, at: Ref) -> &[Lit]
        requires { IsLive self.now at }
        ensures { result.now ≡ clause_at self.now.clauses at }
    {
        if at.number == 0 {
            return &self.lits[..0];
        }
        let place = self.places[at.number as usize - 1];
        let start = place.start as usize;
        &self.lits[start..start + place.len as usize]
    }

    /// The mark to which `release` goes back.
    pub fn mark(&self) -> Mark
        ensures { result ≡ length self.now.clauses }
    {
        Mark {
            count: self.places.len() as u32,
        }
    }

    /// Gives up the clauses that were put since a mark: their references are dead and their words free. There
    /// must have been no `compact` and no release to an earlier mark since.
    pub fn release(&mut self, to: Mark)
        requires { to ≤ length self.old.clauses }
        ensures size { self.new.size ≡ self.old.size }
        ensures clauses { self.new.clauses ≡ take to self.old.clauses }
        ensures same { ReadSame to self.old self.new }
    {
        let count = to.count as usize;
        if count < self.places.len() {
            let start = self.places[count].start as usize;
            self.lits.truncate(start);
            self.places.truncate(count);
        }
    }

    /// Keeps the clauses of these references alone, and frees the words of all others. The references must be live
    /// and in the order in which they were put, none twice. Each is changed so that it reads the same literals, and
    /// they are the live references from then on.
    pub fn compact(&mut self, live: &mut [Ref])
        requires { AreInOrder 0 (length self.old.clauses) live.old }
        ensures size { self.new.size ≡ self.old.size }
        ensures clauses { self.new.clauses ≡ chosen self.old.clauses live.old }
        ensures live { live.new ≡ renumbered 0 live.old }
        ensures in_order { AreInOrder 0 (length self.new.clauses) live.new }
        ensures same { clauses_at self.new.clauses live.new ≡ clauses_at self.old.clauses live.old }
    {
        let mut used = 0;
        let mut kept = 0;
        for at in 0..live.len() {
            let reference = live[at];
            let number = reference.number as usize;
            if number == 0 {
                continue;
            }
            let place = self.places[number - 1];
            let start = place.start as usize;
            let len = place.len as usize;
            self.lits.copy_within(start..start + len, used);
            self.places[kept] = Place {
                start: used as u32,
                len: place.len,
            };
            used += len;
            kept += 1;
            live[at] = Ref {
                number: kept as u32,
            };
        }
        self.lits.truncate(used);
        self.places.truncate(kept);
    }
}
