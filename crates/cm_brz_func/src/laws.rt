//! Laws of functions by BRZ.
ghost use Rattle.std.specs.Prelude.{◌≡◌, ◌<◌, ℕ, List, length};
ghost use Rattle.cm_bdz.specs.Numbering.{AnswersApart};
ghost use Rattle.cm_brz_func.specs.Functions.{Brz, brz_answer, keys_in};
ghost use Rattle.cm_brz_func.specs.Splitting.{AreApartByBucket};

/// If in each bucket the keys get different numbers below the bucket's number of keys, then all keys get different numbers, below the
/// number of keys.
pub fn answers_apart()
    ensures brz { (keys : List (ℕ × List ℕ)) (f : Brz) → 0 < length f.buckets → keys_in f.buckets ≡ length keys → AreApartByBucket keys f → AnswersApart keys (brz_answer f) (length keys) }
{}
