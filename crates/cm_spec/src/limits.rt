//! The limits of keys, graphs and buckets. Each number stands here alone, and contracts, definitions and code cite its name.
ghost use Rattle.std.specs.Prelude.{◌≡◌, ◌^◌};
ghost use Rattle.cm_spec.specs.Bdz.{bdz_size};

/// The most keys of a pass, and of a function.
pub const MAX_KEYS: u32 = 67_108_864;

/// The most edges of a graph.
pub const MAX_EDGES: u32 = 67_108_864;

/// The most vertices of a graph.
pub const MAX_VERTICES: u32 = 671_088_645;

/// The most keys of a bucket.
pub const MAX_BUCKET: u32 = 1_023;

/// The least ratio of vertices to keys, in millionths.
pub const MIN_RATIO: u32 = 1_000_000;

/// The greatest ratio of vertices to keys, in millionths.
pub const MAX_RATIO: u32 = 10_000_000;

/// The least number of keys that a bucket has on average.
pub const MIN_WIDTH: u16 = 64;

/// The greatest number of keys that a bucket has on average.
pub const MAX_WIDTH: u16 = 700;

/// A number below `MAX_EDGES` has 26 bits, and a graph by BDZ with as many edges and the greatest ratio has `MAX_VERTICES` vertices.
pub fn of_graphs()
    ensures edges { MAX_EDGES ≡ 2 ^ 26 }
    ensures vertices { bdz_size MAX_EDGES 10000000 ≡ MAX_VERTICES }
{}

/// How many keys a function and a bucket have at most, and the ranges of the ratio and of the width.
pub fn of_keys()
    ensures keys { MAX_KEYS ≡ 67108864 }
    ensures bucket { MAX_BUCKET ≡ 1023 }
    ensures ratio { (MIN_RATIO ≡ 1000000) × (MAX_RATIO ≡ 10000000) }
    ensures width { (MIN_WIDTH ≡ 64) × (MAX_WIDTH ≡ 700) }
{}
