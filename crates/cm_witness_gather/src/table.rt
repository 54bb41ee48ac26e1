//! Keys that are found by their bytes.
ghost use Rattle.std.specs.Prelude.{◌≡◌, ◌<◌, ◌++◌, ℕ, List, [], ◌∷◌, length, None, true, false, IfOk, OnOk, OnErr};
ghost use Rattle.cm_witness_gather.specs.Candidates.{mixed, word_of};
ghost use Rattle.cm_witness_gather.specs.Pairs.{first_line};
ghost use Rattle.cm_witness_gather.specs.Tables.{Takes};

use crate::candidates::{FACTOR, MAX_WORDS};
use std::alloc::{AllocError, Global};
use std::marker::Model;

/// Where the bytes of a key begin among those of all and how many they are, with its line.
#[derive(Clone, Copy)]
struct Spot {
    from: usize,
    len: u32,
    line: u32,
}

/// Keys with their lines, each in a slot of its own. Clauses see the keys by their numbers, and the slots.
#[derive(Drop)]
pub(crate) struct Table {
    slots: Vec<u32>,
    spots: Vec<Spot>,
    bytes: Vec<u8>,
}

impl Model for Table {
    ghost use Rattle.std.specs.Prelude.{map, All};
    ghost use Rattle.cm_witness_gather.specs.Tables.{IsTable, StandsIn, Tabled, spotted_in};

    ghost Value = { Tabled };

    ghost view = { λ t. record { keys = map (spotted_in t.bytes.items) t.spots.items; slots = t.slots.items } };

    ghost invariant = { λ t. All (StandsIn t.bytes.items) t.spots.items × IsTable (map (spotted_in t.bytes.items) t.spots.items) t.slots.items };
}

/// Mixes bytes into a number with irregular upper bits.
#[inline(always)]
fn mix_bytes(key: &[u8]) -> u64
    ensures { result ≡ mixed key.now }
{
    let mut number = 0u64;
    for b in key {
        number = number.wrapping_add(*b as u64).wrapping_mul(FACTOR);
    }
    number
}

impl Table {
    /// No keys, with room for `keys` keys. Further ones find fewer free slots.
    pub(crate) fn new(alloc: Global, keys: usize) -> Result<Table, AllocError>
        ensures none { IfOk result (λ made. made.keys ≡ []) }
    {
        let slots = keys.min(MAX_WORDS / 4) * 2 + 1;
        Ok(Table {
            slots: vec![in alloc; 0u32; slots]?,
            spots: Vec::new(alloc),
            bytes: Vec::new(alloc),
        })
    }

    /// The slot of a key.
    #[inline(always)]
    pub(crate) fn slot(&self, key: &[u8]) -> usize
        ensures slot { result ≡ word_of (length self.now.slots) key.now }
        ensures within { result < length self.now.slots }
    {
        let slots = self.slots.len() as u64;
        ((mix_bytes(key) >> 32) * slots >> 32) as usize
    }

    /// Whether a key may be added: no key has its slot, and its numbers fit in a spot.
    #[inline(always)]
    pub(crate) fn takes(&self, slot: usize, key: &[u8]) -> bool
        requires slot { slot ≡ word_of (length self.now.slots) key.now }
        requires within { slot < length self.now.slots }
        ensures takes { result ≡ true → Takes self.now key.now }
        ensures full { result ≡ false → Takes self.now key.now → ⊥ }
    {
        self.slots[slot] == 0
            && self.spots.len() < u32::MAX as usize
            && key.len() <= u32::MAX as usize
    }

    /// The line of a key, if it is there.
    #[inline(always)]
    pub(crate) fn line_of(&self, slot: usize, key: &[u8]) -> Option<u32>
        requires slot { slot ≡ word_of (length self.now.slots) key.now }
        requires within { slot < length self.now.slots }
        ensures { result ≡ first_line self.now.keys key.now }
    {
        let number = self.slots[slot];
        if number == 0 {
            return None;
        }
        let spot = self.spots[number as usize - 1];
        if &self.bytes[spot.from..spot.from + spot.len as usize] == key {
            Some(spot.line)
        } else {
            None
        }
    }

    /// Adds a key with its line.
    pub(crate) fn add(&mut self, slot: usize, line: u32, key: &[u8]) -> Result<(), AllocError>
        requires slot { slot ≡ word_of (length self.old.slots) key.now }
        requires within { slot < length self.old.slots }
        requires takes { Takes self.old key.now }
        ensures none { OnOk result (first_line self.old.keys key.now ≡ None) }
        ensures added { OnOk result (self.new.keys ≡ self.old.keys ++ (line, key.now) ∷ []) }
        ensures fewer { OnOk result ((other : List ℕ) → Takes self.new other → Takes self.old other) }
        ensures unchanged { OnErr result (self.new ≡ self.old) }
    {
        self.spots.reserve(1)?;
        let from = self.bytes.len();
        self.bytes.extend_from_slice(key)?;
        self.spots.push_reserved(Spot {
            from,
            len: key.len() as u32,
            line,
        });
        self.slots[slot] = self.spots.len() as u32;
        Ok(())
    }
}
