//! A bucket in the bytes of a dump.
ghost use Rattle.std.specs.Prelude.{◌≡◌, ◌<◌, ◌≤◌, ◌^◌, ℕ, IfNone, IfSome, List, length};
ghost use Rattle.cm_brz_func.specs.Functions.{answer_in, bucket_cells, no_bucket};
ghost use Rattle.cm_brz_func.specs.Places.{ends_in};
ghost use Rattle.cm_dump.specs.Forms.{form_of};
ghost use Rattle.cm_dump_brz.specs.Indexed.{bucket_in, bucket_of_image, bucket_or_none};
ghost use Rattle.cm_rank.specs.Ranks.{rank_of};
ghost use Rattle.cm_spec.specs.Image.{packed_len};
ghost use Rattle.cm_spec.specs.Lookup2.{words};
ghost use Rattle.cm_spec.specs.Rule.{IsRatio};
ghost use Rattle.cm_spec.specs.declared.limits.TheConstants.{MAX_BUCKET};

use crate::items::{seed_at, size_at};
use cm_algo_scheme::Divisor;
use cm_bdz::{chosen_among, place_in};
use cm_bits::{Cells, Crumbs, LentCrumbs, Lookup};
use cm_dump::{Version, cells_of, front_len};
use cm_dump_items::lent_item;
use cm_rank::Counted;
use std::marker::Model;

/// How many cells are counted without a branch that depends on their number: of a bucket of 128 keys, four fifths of its vertices.
const NEAR: u32 = 128;

/// A bucket whose cells are in lent bytes, of any values. Clauses see the bucket.
#[derive(Drop)]
pub(crate) struct LentBucket<'a> {
    image: &'a [u8],
    n: u32,
    seed: u32,
    size: u16,
}

impl<'a> Model for LentBucket<'a> {
    ghost use Rattle.cm_brz_func.specs.Functions.{Bucket};
    ghost use Rattle.cm_dump_brz.specs.Indexed.{FitsImage, bucket_of_image};

    ghost Value = { Bucket };

    ghost view = { λ b. bucket_of_image b.size b.seed b.n b.image.now };

    ghost invariant = { λ b. FitsImage b.size b.n b.image.now };
}

impl<'a> LentBucket<'a> {
    /// The bucket of these parts: as many cells as a bucket of `size` keys has with the ratio, and their image.
    pub(crate) fn new(size: u16, seed: u32, ratio: u32, image: &'a [u8]) -> LentBucket<'a>
        requires few { size ≤ MAX_BUCKET }
        requires ratio { IsRatio ratio }
        requires whole { length image.now ≡ packed_len 4 (bucket_cells size ratio) }
        ensures bucket { result ≡ bucket_of_image size seed (bucket_cells size ratio) image.now }
    {
        LentBucket {
            image,
            n: cells_of(size, ratio),
            seed,
            size,
        }
    }

    /// How many keys it has.
    pub(crate) fn size(&self) -> u16
        ensures size { result ≡ self.now.size }
    {
        self.size
    }

    /// The seed of the hash of its keys.
    pub(crate) fn seed(&self) -> u32
        ensures seed { result ≡ self.now.seed }
    {
        self.seed
    }

    /// How many bytes the image of its cells has.
    pub(crate) fn image_len(&self) -> u64
        ensures len { result ≡ packed_len 4 (length self.now.cells) }
    {
        self.image.len() as u64
    }

    /// The cells of its vertices.
    fn cells(&self) -> LentCrumbs<'a>
        ensures cells { ⟦<LentCrumbs<'a> as Lookup>⟧.cells result ≡ self.now.cells }
    {
        LentCrumbs::new(self.n, self.image)
    }

    /// The three vertices of a key of these hash values under the bucket's seed, which are 0 in an empty bucket.
    pub(crate) fn ends(&self, hashed: [u32; 3]) -> [u32; 3]
        ensures ends { (key : List ℕ) → hashed ≡ words key self.now.seed → result ≡ ends_in self.now key }
    {
        if self.size == 0 {
            return [0, 0, 0];
        }
        let place = place_in(hashed, &Divisor::new(self.n / 3));
        [place[0], place[1], place[2]]
    }

    /// How many of its cells before vertex `v` are not 3.
    fn rank(&self, v: u32) -> u32
        requires inside { v < length self.now.cells }
        ensures rank { result ≡ rank_of 3 self.now.cells v }
    {
        let cells = self.cells();
        if v <= NEAR {
            cells.count_near(3, 0, v)
        } else {
            cells.count_near(3, 0, NEAR) + cells.count_busy(3, NEAR, v)
        }
    }

    /// The bucket's answer to each key of these vertices.
    pub(crate) fn answer(&self, ends: [u32; 3]) -> Option<u32>
        requires ends { (key : List ℕ) × (ends ≡ ends_in self.now key) }
        ensures answer { (key : List ℕ) → ends ≡ ends_in self.now key → result ≡ answer_in self.now key }
    {
        if self.size == 0 {
            return None;
        }
        let cells = self.cells();
        let v = chosen_among(&cells, &[ends[0], ends[1], ends[2], 0]);
        if cells.get(v) == 3 {
            None
        } else {
            Some(self.rank(v))
        }
    }
}

/// The bucket at this offset of a dump, or none if it does not lie in it.
pub(crate) fn bucket_at<'a>(
    dump: &'a [u8],
    at: u64,
    version: Version,
    ratio: u32,
) -> Option<LentBucket<'a>>
    requires at { at < 2 ^ 32 }
    requires ratio { IsRatio ratio }
    ensures bucket { IfSome result (λ b. b ≡ bucket_or_none (bucket_in (form_of version) dump.now ratio at)) }
    ensures none { IfNone result (bucket_or_none (bucket_in (form_of version) dump.now ratio at) ≡ no_bucket) }
{
    if at > dump.len() as u64 {
        return None;
    }
    let size = match size_at(dump, at, version) {
        Ok(size) => size,
        Err(_) => return None,
    };
    let seed = match seed_at(dump, at, version, size) {
        Ok(seed) => seed,
        Err(_) => return None,
    };
    let len = Crumbs::image_len(cells_of(size, ratio), 4);
    match lent_item(dump, at + front_len(version), len) {
        Ok(image) => Some(LentBucket::new(size, seed, ratio, image)),
        Err(_) => None,
    }
}
