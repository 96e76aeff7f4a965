ghost use Rattle.std.specs.Prelude.{◌≡◌, ℕ, ◌*◌, ◌<◌, ◌&&◌, true, false, cond, length, replicate, nat_eq, sum, IfOk};
ghost use Rattle.path_facts.specs.Bits.{bit_in};

use c_tree::Memory;
use std::alloc::Global;
use std::marker::Model;

pub(crate) const WORD_BITS: usize = 64;

/// A row of bits, which contracts see as its words.
#[derive(Drop)]
pub(crate) struct Row {
    words: Vec<u64>,
}

impl Model for Row {
    ghost use Rattle.std.specs.Prelude.{List, ℕ};

    ghost Value = { List ℕ };

    ghost view = { λ r. r.words.items };
}

impl Row {
    /// A row of this many words, each the same.
    pub fn filled(alloc: Global, words: usize, word: u64) -> Result<Row, Memory>
        ensures { IfOk result (λ r. r ≡ replicate words word) }
    {
        let words = vec![in alloc; word; words]?;
        Ok(Row { words })
    }

    /// Whether a bit is set.
    pub fn has(&self, bit: usize) -> bool
        requires { bit < 64 * length self.now }
        ensures { result ≡ bit_in self.now bit }
    {
        let word = self.words[bit / WORD_BITS];
        word >> (bit % WORD_BITS) & 1 == 1
    }

    /// Sets or clears a bit.
    pub fn put(&mut self, bit: usize, value: bool)
        requires { bit < 64 * length self.old }
        ensures len { length self.new ≡ length self.old }
        ensures bits { (j : ℕ) → bit_in self.new j ≡ cond (nat_eq j bit) value (bit_in self.old j) }
    {
        let at = bit / WORD_BITS;
        let mask = 1u64 << (bit % WORD_BITS);
        if value {
            self.words[at] |= mask;
        } else {
            self.words[at] &= !mask;
        }
    }

    /// Takes over another row of as many words.
    pub fn copy_from(&mut self, other: &Row)
        requires { length self.old ≡ length other.now }
        ensures { self.new ≡ other.now }
    {
        self.words.copy_from_slice(&other.words);
    }

    /// Keeps the bits that another row has too, and says whether a bit is gone.
    pub fn meet(&mut self, other: &Row) -> bool
        requires { length self.old ≡ length other.now }
        ensures len { length self.new ≡ length self.old }
        ensures bits { (j : ℕ) → bit_in self.new j ≡ (bit_in self.old j && bit_in other.now j) }
        ensures same { result ≡ false → self.new ≡ self.old }
        ensures falls { result ≡ true → sum self.new < sum self.old }
    {
        let mut changed = false;
        'words: for i in 0..self.words.len() {
            let old = self.words[i];
            let new = old & other.words[i];
            if new != old {
                self.words[i] = new;
                changed = true;
            }
        }
        changed
    }
}
