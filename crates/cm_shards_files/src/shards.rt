//! The functions of all shards, and the numbers of keys.
ghost use Rattle.std.specs.Prelude.{◌≡◌, ◌<◌, ◌≤◌, ◌*◌, [], ℕ, List, All, IfOk, IfSome, OnOk, length, map, slice_index};
ghost use Rattle.std.specs.List.{sum_by};
ghost use Rattle.cm_func.specs.Functions.{place_by, span_by};
ghost use Rattle.cm_route.specs.Routes.{shard_of};
ghost use Rattle.cm_route.specs.declared.route.TheConstants.{MAX_SHARDS};
ghost use Rattle.cm_shards_files.specs.FunctionFiles.{keys_by};
ghost use Rattle.cm_shards_files.specs.Shards.{IsSharded, function_at, key_total, number_by, number_in, offset_of, place_in, total_of};
ghost use Rattle.cm_spec.specs.declared.limits.TheConstants.{MAX_VERTICES};

use crate::file::keys_of;
use crate::taken::{MOST_KEYS, ShardKeys};
use arrayvec::ArrayVec;
use cm_algo_scheme::{Answers, Place};
use cm_func::Func;
use cm_route::Route;
use std::alloc::{AllocError, Global};
use std::marker::Model;

/// The functions of shards, from 1 to `MAX_SHARDS`: the number of a key is that of its shard's function, after the numbers of all
/// shards before it. Clauses see the route of keys into shards, and the functions in the order of the shards.
#[derive(Drop)]
pub struct Shards {
    route: Route,
    functions: Vec<Func>,
    offsets: Vec<u64>,
    total: u64,
    keys: u64,
}

impl Model for Shards {
    ghost use Rattle.std.specs.Prelude.{◌≡◌, ◌<◌, ◌≤◌, ◌*◌, ℕ, length, slice_index};
    ghost use Rattle.cm_shards_files.specs.Shards.{IsSharded, Sharded, key_total, offset_of, total_of};
    ghost use Rattle.cm_spec.specs.declared.limits.TheConstants.{MAX_VERTICES};

    ghost Value = { Sharded };

    ghost view = { λ s. record { route = s.route; functions = s.functions.items } };

    ghost invariant = { λ s. record {
      sharded : IsSharded (record { route = s.route; functions = s.functions.items });
      many : length s.offsets.items ≡ length s.functions.items;
      offsets : (k : ℕ) → k < length s.functions.items → slice_index s.offsets.items k ≡ offset_of s.functions.items k;
      total : s.total ≡ total_of (record { route = s.route; functions = s.functions.items });
      keys : s.keys ≡ key_total (record { route = s.route; functions = s.functions.items });
      few : s.total ≤ length s.functions.items * MAX_VERTICES;
    } };
}

/// The shard of each key, four keys at a time.
fn route_all(route: &Route, keys: &ShardKeys, shards: &mut ArrayVec<u32, MOST_KEYS>)
    ensures are { shards.new.items ≡ map (shard_of route.now) keys.now }
{
    let fours = keys.len() / 4;
    shards.clear();
    for i in 0..fours {
        let first = 4 * i;
        let four = route.places_of_four(
            keys.key(first),
            keys.key(first + 1),
            keys.key(first + 2),
            keys.key(first + 3),
        );
        let found = [four[0][0], four[1][0], four[2][0], four[3][0]];
        if shards.try_extend_from_slice(&found).is_err() {
            unreachable!();
        }
    }
    for i in 4 * fours..keys.len() {
        shards.push(route.shard(keys.key(i)));
    }
}

/// Appends the sum of the spans before each function, and returns the sum of all.
fn sum_spans(functions: &[Func], offsets: &mut Vec<u64>) -> Result<u64, AllocError>
    requires few { length functions.now ≤ MAX_SHARDS }
    requires none { offsets.old.items ≡ [] }
    ensures sum { IfOk result (λ sum. sum ≡ sum_by span_by functions.now) }
    ensures bound { IfOk result (λ sum. sum ≤ length functions.now * MAX_VERTICES) }
    ensures many { OnOk result (length offsets.new.items ≡ length functions.now) }
    ensures offsets { OnOk result ((k : ℕ) → k < length functions.now → slice_index offsets.new.items k ≡ offset_of functions.now k) }
{
    let mut sum = 0u64;
    for function in functions {
        offsets.push(sum)?;
        sum += function.span() as u64;
    }
    Ok(sum)
}

/// The sum of the numbers of keys.
fn sum_keys(functions: &[Func]) -> u64
    requires few { length functions.now ≤ MAX_SHARDS }
    ensures sum { result ≡ sum_by keys_by functions.now }
{
    let mut sum = 0u64;
    for function in functions {
        sum += keys_of(function) as u64;
    }
    sum
}

impl Shards {
    /// The functions of shards, by a route into as many.
    pub(crate) fn new(
        alloc: Global,
        route: Route,
        functions: Vec<Func>,
    ) -> Result<Shards, AllocError>
        requires sharded { IsSharded (record { route = route; functions = functions.items }) }
        ensures parts { IfOk result (λ s. s ≡ record { route = route; functions = functions.items }) }
    {
        let mut offsets = Vec::with_capacity(alloc, functions.len())?;
        let total = sum_spans(functions.as_slice(), &mut offsets)?;
        let keys = sum_keys(functions.as_slice());
        Ok(Shards {
            route,
            functions,
            offsets,
            total,
            keys,
        })
    }

    /// The route of keys into shards.
    pub fn route(&self) -> &Route
        ensures route { result.now ≡ self.now.route }
    {
        &self.route
    }

    /// How many shards there are, from 1 to `MAX_SHARDS`.
    pub fn shards(&self) -> u32
        ensures shards { result ≡ self.now.route.shards }
        ensures sharded { IsSharded self.now }
    {
        self.route.shards()
    }

    /// The sum of the spans of all shards: each number is below it.
    pub fn total(&self) -> u64
        ensures total { result ≡ total_of self.now }
        ensures few { result ≤ MAX_SHARDS * MAX_VERTICES }
    {
        self.total
    }

    /// How many keys the functions of all shards were built over.
    pub fn keys(&self) -> u64
        ensures keys { result ≡ key_total self.now }
    {
        self.keys
    }

    /// The number of each key of shard k of this place, which is one of the shard's function.
    fn number_at(&self, k: u32, place: &Place) -> Option<u64>
        requires inside { k < length self.now.functions }
        requires place { (key : List ℕ) × (place.now ≡ place_by (function_at self.now.functions k) key) }
        ensures number { (key : List ℕ) → place.now ≡ place_by (function_at self.now.functions k) key → result ≡ number_by self.now.functions k key }
        ensures below { IfSome result (λ n. n < total_of self.now) }
    {
        match self.functions[k as usize].answer_at(place) {
            Some(answer) => Some(self.offsets[k as usize] + answer as u64),
            None => None,
        }
    }

    /// The number of a key. None only for keys that the function of its shard was not built over.
    pub fn number(&self, key: &[u8]) -> Option<u64>
        ensures number { result ≡ number_in self.now key.now }
        ensures below { IfSome result (λ n. n < total_of self.now) }
    {
        prove!(self.shards() > 0);
        let k = self.route().shard(key);
        self.number_at(k, &self.place_of(k, key))
    }

    /// Where the function of shard k looks up a key.
    fn place_of(&self, k: u32, key: &[u8]) -> Place
        requires inside { k < length self.now.functions }
        ensures place { result ≡ place_by (function_at self.now.functions k) key.now }
    {
        self.functions[k as usize].place(key)
    }

    /// Where the function of its shard looks up each key.
    fn place_all(&self, keys: &ShardKeys, shards: &[u32], places: &mut ArrayVec<Place, MOST_KEYS>)
        requires shards { shards.now ≡ map (shard_of self.now.route) keys.now }
        ensures are { places.new.items ≡ map (place_in self.now) keys.now }
    {
        prove!(self.shards() > 0);
        places.clear();
        for i in 0..keys.len() {
            places.push(self.place_of(shards[i], keys.key(i)));
        }
    }

    /// The number of each key, in their order. All shards come first, and then all places, so that the cache misses of the cells overlap.
    pub fn numbers(&self, keys: &ShardKeys, numbers: &mut ArrayVec<Option<u64>, MOST_KEYS>)
        ensures are { numbers.new.items ≡ map (number_in self.now) keys.now }
        ensures below { All (λ a. IfSome a (λ n. n < total_of self.now)) numbers.new.items }
    {
        let mut shards = ArrayVec::<u32, MOST_KEYS>::new();
        route_all(self.route(), keys, &mut shards);
        let mut places = ArrayVec::<Place, MOST_KEYS>::new();
        self.place_all(keys, shards.as_slice(), &mut places);
        prove!(self.shards() > 0);
        numbers.clear();
        for i in 0..keys.len() {
            numbers.push(self.number_at(shards[i], &places[i]));
        }
    }
}
