//! A manifest.
ghost use Rattle.std.specs.Prelude.{◌≡◌, ◌≤◌};
ghost use Rattle.cm_route.specs.declared.route.TheConstants.{MAX_SHARDS};
ghost use Rattle.cm_shards_manifest.specs.Manifests.{IsManifest, key_total, total};

use crate::Shard;
use cm_algo_names::Algorithm;
use std::marker::Model;

/// What functions there are over shards of keys: their algorithm, the seed of the route that splits keys into shards, and the shards in
/// order. Clauses see it as a record of these.
#[derive(Drop)]
pub struct Manifest {
    algorithm: Algorithm,
    seed: u32,
    shards: Vec<Shard>,
}

impl Model for Manifest {
    ghost use Rattle.cm_shards_manifest.specs.Manifests.{IsManifest, Manifest};

    ghost Value = { Manifest };

    ghost view = { λ m. record { algorithm = m.algorithm; seed = m.seed; shards = m.shards.items } };

    ghost invariant = { λ m. IsManifest (record { algorithm = m.algorithm; seed = m.seed; shards = m.shards.items }) };
}

impl Manifest {
    /// The manifest of these shards, whose offsets are the sums of the spans before them.
    pub fn new(algorithm: Algorithm, seed: u32, shards: Vec<Shard>) -> Manifest
        requires valid { IsManifest (record { algorithm = algorithm; seed = seed; shards = shards.items }) }
        ensures parts { result ≡ record { algorithm = algorithm; seed = seed; shards = shards.items } }
    {
        Manifest {
            algorithm,
            seed,
            shards,
        }
    }

    /// The algorithm of all functions.
    pub fn algorithm(&self) -> Algorithm
        ensures algorithm { result ≡ self.now.algorithm }
    {
        self.algorithm
    }

    /// The seed of the route that splits keys into shards.
    pub fn seed(&self) -> u32
        ensures seed { result ≡ self.now.seed }
    {
        self.seed
    }

    /// The shards, in order: from 1 to `MAX_SHARDS`.
    pub fn shards(&self) -> &[Shard]
        ensures shards { result.now ≡ self.now.shards }
        ensures valid { IsManifest self.now }
    {
        &self.shards
    }

    /// The sum of the spans: each number of a key is below it.
    pub fn total(&self) -> u64
        ensures total { result ≡ total self.now }
    {
        let mut sum = 0;
        for shard in &self.shards {
            sum += shard.span as u64;
        }
        sum
    }

    /// How many keys the shards have together.
    pub fn key_total(&self) -> u64
        ensures keys { result ≡ key_total self.now }
    {
        let mut sum = 0;
        for shard in &self.shards {
            sum += shard.keys as u64;
        }
        sum
    }
}
