//! The shard that a key is in, if keys are split into shards.
ghost use Rattle.std.specs.Prelude.{◌≡◌, ◌<◌, ◌≤◌, ◌∷◌, [], ℕ, List, Some};
ghost use Rattle.cm_route.specs.Routes.{shard_of};
ghost use Rattle.cm_spec.specs.Lookup2 as lookup2;
ghost use Rattle.cm_spec.specs.declared.limits.TheConstants.{MAX_VERTICES};

use cm_algo_scheme::{Answers, Divisor, Place};
use cm_lookup2::{words, words_of_four};
use std::marker::Model;

/// The seed of the route of keys that are split into files.
pub const ROUTE_SEED: u32 = 1_397_244_242;

/// How many files keys are split into at most.
pub const MAX_SHARDS: u32 = 4_096;

/// A route of keys into shards, as a function from keys to numbers: the shard of a key, counted from 0, is the third hash value of
/// lookup2 (Jenkins 1997) under a seed, modulo the number of shards. Clauses see the seed and the number of shards.
#[derive(Drop)]
pub struct Route {
    seed: u32,
    shards: Divisor,
}

impl Model for Route {
    ghost use Rattle.std.specs.Prelude.{◌≤◌};
    ghost use Rattle.cm_route.specs.Routes as routes;
    ghost use Rattle.cm_spec.specs.declared.limits.TheConstants.{MAX_VERTICES};

    ghost Value = { routes.Route };

    ghost view = { λ r. record { seed = r.seed; shards = r.shards } };

    ghost invariant = { λ r. r.shards ≤ MAX_VERTICES };
}

impl Route {
    /// The route under a seed into this many shards, from 1 to `MAX_VERTICES` of `cm_spec`.
    pub fn new(seed: u32, shards: u32) -> Route
        requires some { 1 ≤ shards }
        requires few { shards ≤ MAX_VERTICES }
        ensures route { result ≡ record { seed = seed; shards = shards } }
    {
        Route {
            seed,
            shards: Divisor::new(shards),
        }
    }

    /// How many shards there are.
    pub fn shards(&self) -> u32
        ensures shards { result ≡ self.now.shards }
        ensures some { 1 ≤ result }
        ensures few { result ≤ MAX_VERTICES }
    {
        self.shards.value()
    }

    /// The shard of a key, counted from 0.
    pub fn shard(&self, key: &[u8]) -> u32
        ensures shard { result ≡ shard_of self.now key.now }
        ensures below { result < self.now.shards }
    {
        self.shards.rem(words(key, self.seed)[2])
    }

    /// The shard of a key of these hash values, as a place.
    fn place_in(&self, words: [u32; 3]) -> Place
        ensures place { (key : List ℕ) → words ≡ lookup2.words key self.now.seed → result ≡ shard_of self.now key ∷ 0 ∷ 0 ∷ 0 ∷ [] }
    {
        [self.shards.rem(words[2]), 0, 0, 0]
    }
}

/// Every key has a shard.
impl Answers for Route {
    ghost span_of = { λ r. r.shards };

    ghost place_of = { λ r key. shard_of r key ∷ 0 ∷ 0 ∷ 0 ∷ [] };

    ghost answer_of = { λ r key. Some (shard_of r key) };

    fn span(&self) -> u32 {
        self.shards()
    }

    fn place(&self, key: &[u8]) -> Place {
        self.place_in(words(key, self.seed))
    }

    fn places_of_four(&self, p: &[u8], q: &[u8], r: &[u8], t: &[u8]) -> [Place; 4] {
        let hashed = words_of_four(p, q, r, t, [self.seed, self.seed, self.seed, self.seed]);
        [
            self.place_in(hashed.at(0)),
            self.place_in(hashed.at(1)),
            self.place_in(hashed.at(2)),
            self.place_in(hashed.at(3)),
        ]
    }

    fn answer_at(&self, place: &Place) -> Option<u32> {
        prove!(self.shards() > 0);
        Some(place[0])
    }
}
