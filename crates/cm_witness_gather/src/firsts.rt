//! Which of some keys are equal.
ghost use Rattle.std.specs.Prelude.{◌≡◌, ℕ, List, [], ◌∷◌, ◌++◌, length, IfOk, OnOk, OnErr};
ghost use Rattle.cm_witness_gather.specs.Pairs.{first_line, pairs};
ghost use Rattle.cm_witness_gather.specs.Noted.{AreNoted, with_lines};

use crate::certificate::Pair;
use crate::table::Table;
use std::alloc::{AllocError, Global};
use std::collections::BTreeMap;
use std::marker::Model;

/// The keys noted so far, each with the first line that has it. Clauses see the lines with their keys. Most keys are in a table,
/// where a lookup takes a few accesses. Those that the table doesn't take are in order, so that a lookup compares few of them,
/// whatever they are.
#[derive(Drop)]
pub(crate) struct Firsts {
    table: Table,
    rest: BTreeMap<Vec<u8>, u32>,
}

impl Model for Firsts {
    ghost use Rattle.std.specs.Prelude.{◌≡◌, ◌++◌, None, ℕ, List};
    ghost use Rattle.cm_witness_gather.specs.Noted.{noted_in};
    ghost use Rattle.cm_witness_gather.specs.Pairs.{first_line};
    ghost use Rattle.cm_witness_gather.specs.Tables.{Takes};

    ghost Value = { List (ℕ × List ℕ) };

    ghost view = { λ f. f.table.keys ++ noted_in f.rest.entries };

    ghost invariant = { λ f. (key : List ℕ) → Takes f.table key → first_line (noted_in f.rest.entries) key ≡ None };
}

impl Firsts {
    /// No keys, with room in the table for `keys` keys.
    pub(crate) fn new(alloc: Global, keys: usize) -> Result<Firsts, AllocError>
        ensures none { IfOk result (λ made. made ≡ []) }
    {
        Ok(Firsts {
            table: Table::new(alloc, keys)?,
            rest: BTreeMap::new(alloc),
        })
    }

    /// Notes a key with its line, and returns the first line of an equal key noted before. The key is copied only if there is none.
    pub(crate) fn note(
        &mut self,
        alloc: Global,
        line: u32,
        key: &[u8],
    ) -> Result<Option<u32>, AllocError>
        ensures first { IfOk result (λ first. first ≡ first_line self.old key.now) }
        ensures noted { OnOk result ((other : List ℕ) → first_line self.new other ≡ first_line (self.old ++ (line, key.now) ∷ []) other) }
        ensures unchanged { OnErr result (self.new ≡ self.old) }
    {
        let slot = self.table.slot(key);
        if self.table.takes(slot, key) {
            self.table.add(slot, line, key)?;
            return Ok(None);
        }
        if let Some(first) = self.table.line_of(slot, key) {
            return Ok(Some(first));
        }
        if let Some(first) = self.rest.get(key) {
            return Ok(Some(*first));
        }
        self.rest.insert(Vec::from_slice(alloc, key)?, line)?;
        Ok(None)
    }
}

/// Keys noted so far with their lines, and the equal ones among them. Of equal keys one is kept.
#[derive(Drop)]
pub struct EqualKeys {
    pub(crate) firsts: Firsts,
    pub(crate) pairs: Vec<Pair>,
}

impl EqualKeys {
    /// No keys, with a table for `keys` keys. Fails if memory runs out.
    pub fn new(alloc: Global, keys: usize) -> Result<EqualKeys, AllocError>
        ensures none { IfOk result (λ made. AreNoted [] made.firsts made.pairs.items) }
    {
        Ok(EqualKeys {
            firsts: Firsts::new(alloc, keys)?,
            pairs: Vec::new(alloc),
        })
    }

    /// Notes a key with its line, and adds a pair if an equal key was noted before. Fails if memory runs out.
    pub fn note(&mut self, alloc: Global, line: u32, key: &[u8]) -> Result<(), AllocError>
        ensures { (earlier : List (ℕ × List ℕ)) → AreNoted earlier self.old.firsts self.old.pairs.items → OnOk result (AreNoted (earlier ++ (line, key.now) ∷ []) self.new.firsts self.new.pairs.items) }
    {
        if let Some(first) = self.firsts.note(alloc, line, key)? {
            self.pairs.push(Pair { first, again: line })?;
        }
        Ok(())
    }

    /// The equal ones among the keys that were noted, as the first line that has the key and a later one, in the order of the later
    /// ones.
    pub fn into_pairs(self) -> Vec<Pair>
        ensures { (earlier : List (ℕ × List ℕ)) → AreNoted earlier self.firsts self.pairs.items → result.items ≡ pairs earlier }
    {
        self.pairs
    }
}

/// The equal ones among keys with their lines, as the first line that has the key and a later one, in the order of the later ones.
pub fn equal_pairs(alloc: Global, lines: &[u32], keys: &[Vec<u8>]) -> Result<Vec<Pair>, AllocError>
    requires long { length lines.now ≡ length keys.now }
    ensures pairs { IfOk result (λ found. found.items ≡ pairs (with_lines lines.now keys.now)) }
{
    let mut equal = EqualKeys::new(alloc, keys.len())?;
    for (i, key) in keys.iter().enumerate() {
        equal.note(alloc, lines[i], key)?;
    }
    Ok(equal.pairs)
}
