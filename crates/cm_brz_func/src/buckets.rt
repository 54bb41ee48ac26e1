//! Which bucket a key lies in.
ghost use Rattle.std.specs.Prelude.{◌≡◌, ◌<◌};
ghost use Rattle.cm_brz_func.specs.Functions.{bucket_by, flipped};

use cm_algo_scheme::Divisor;

/// The seed under which keys are hashed to find their buckets: that of the split with all bits flipped.
#[inline(always)]
pub fn flip(split: u32) -> u32
    ensures flipped { result ≡ flipped split }
{
    split ^ u32::MAX
}

/// The bucket of a key, from 0, by its hash values under that seed.
#[inline(always)]
pub fn bucket_of_hashed(hashed: [u32; 3], buckets: &Divisor) -> u32
    ensures bucket { result ≡ bucket_by hashed buckets.now }
    ensures below { result < buckets.now }
{
    buckets.rem(hashed[2])
}
