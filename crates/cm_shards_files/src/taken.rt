//! Keys that are looked up together.
ghost use Rattle.std.specs.Prelude.{◌≡◌, ◌<◌, ◌≤◌, ◌++◌, ◌↔◌, [], ◌∷◌, ℕ, List, true, false, length, slice_index_or};
ghost use Rattle.cm_shards_files.specs.Shards.{HasRoom};

use arrayvec::ArrayVec;
use cm_io::MAX_KEY_LEN;
use std::marker::Model;

/// How many keys are looked up together at most.
pub const MOST_KEYS: usize = 32;

/// How many bytes they have at most. A key is added only if half of that is free, so each has room.
const ROOM: usize = 2 * MAX_KEY_LEN;

/// Where the bytes of a key stand.
#[derive(Clone, Copy, Default)]
pub(crate) struct Spot {
    from: usize,
    until: usize,
}

/// Copies of keys that are looked up together, 32 at most, in room of its own for twice `MAX_KEY_LEN` bytes. Clauses see the keys.
#[derive(Drop)]
pub struct ShardKeys {
    bytes: ArrayVec<u8, ROOM>,
    spots: ArrayVec<Spot, MOST_KEYS>,
}

impl Model for ShardKeys {
    ghost use Rattle.std.specs.Prelude.{◌≡◌, List, ℕ, map, All};
    ghost use Rattle.std.specs.List.{concat};
    ghost use Rattle.cm_shards_files.specs.Taken.{StandsIn, key_in};

    ghost Value = { List (List ℕ) };

    ghost view = { λ t. map (key_in t.bytes.items) t.spots.items };

    ghost invariant = { λ t. All (StandsIn t.bytes.items) t.spots.items × (concat (map (key_in t.bytes.items) t.spots.items) ≡ t.bytes.items) };
}

impl ShardKeys {
    /// No keys.
    pub fn new() -> ShardKeys
        ensures none { result ≡ [] }
    {
        ShardKeys {
            bytes: ArrayVec::new(),
            spots: ArrayVec::new(),
        }
    }

    /// Removes the keys.
    pub fn clear(&mut self)
        ensures none { self.new ≡ [] }
    {
        self.bytes.clear();
        self.spots.clear();
    }

    /// Whether one more key of any length has room. If it has none, there are keys.
    pub fn has_room(&self) -> bool
        ensures room { (result ≡ true) ↔ HasRoom self.now }
        ensures some { result ≡ false → 0 < length self.now }
    {
        !self.spots.is_full() && self.bytes.len() <= MAX_KEY_LEN
    }

    /// Adds a copy of a key.
    pub fn add(&mut self, key: &[u8])
        requires room { HasRoom self.old }
        requires short { length key.now ≤ MAX_KEY_LEN }
        ensures keys { self.new ≡ self.old ++ key.now ∷ [] }
    {
        let from = self.bytes.len();
        if self.bytes.try_extend_from_slice(key).is_err() {
            unreachable!();
        }
        self.spots.push(Spot {
            from,
            until: self.bytes.len(),
        });
    }

    /// The bytes of key i, counted from 0.
    pub fn key(&self, i: usize) -> &[u8]
        requires there { i < length self.now }
        ensures key { (d : List ℕ) → result.now ≡ slice_index_or self.now i d }
    {
        let spot = &self.spots[i];
        &self.bytes[spot.from..spot.until]
    }

    /// How many keys there are: `MOST_KEYS` at most.
    pub fn len(&self) -> usize
        ensures len { result ≡ length self.now }
        ensures few { result ≤ MOST_KEYS }
    {
        self.spots.len()
    }
}
