//! What a scheme is.
ghost use Rattle.std.specs.Prelude.{◌≡◌, ℕ, Bool, false, List};
ghost use Rattle.cm_algo_names.specs.declared.algorithm.Algorithm.{Algorithm};
ghost use Rattle.cm_algo_scheme.specs.Kinds.{HasEnds};
ghost use Rattle.cm_spec.specs.Rule.{Rule, IsRule, IsCount, IsRatio, IsSize};

use crate::divisor::Divisor;
use cm_algo_names::Algorithm;
use cm_bits::Cells;

/// An algorithm: from the hash values of a key to an edge with `K` ends, and from the number of a key to what its cells add up to.
pub trait Scheme<const K: usize> {
    /// Where the cells are kept.
    type Table: Cells + Drop;

    /// All that the methods compute.
    ghost rule: { Self → Rule };

    /// The divisor for a number of vertices: ends are remainders by it.
    ghost divisor_of: { Self → ℕ → ℕ };

    /// The algorithm by its name.
    ghost algorithm_of: { Self → Algorithm };

    ghost KEEPS_TAGS: { Bool };

    /// Whether a build keeps the tag of each key, 4 bytes a key. If it keeps none, every tag is 0.
    const KEEPS_TAGS: bool;

    /// The algorithm whose functions are built.
    fn algorithm(&self) -> Algorithm
        ensures algorithm { result ≡ algorithm_of self.now };

    /// The number of vertices for `m` keys and the ratio `c` in millionths.
    fn size(&self, m: u32, c: u32) -> u32
        requires many { IsCount m }
        requires ratio { IsRatio c }
        ensures size { result ≡ (rule self.now).size m c };

    /// The divisor for `n` vertices: ends are remainders by it. It is computed once for many keys.
    fn divisor(&self, n: u32) -> Divisor
        requires size { IsSize (rule self.now) n }
        ensures divisor { result ≡ divisor_of self.now n };

    /// The ends of a key over `n` vertices, from its three hash values, with the divisor of these vertices.
    fn edge(&self, words: [u32; 3], n: u32, divisor: &Divisor) -> [u32; K]
        requires size { IsSize (rule self.now) n }
        requires divisor { divisor.now ≡ divisor_of self.now n }
        ensures edge { result ≡ (rule self.now).edge words n };

    /// What is kept of a key's hash values until the cells are set; 0 if nothing is kept.
    fn tag(&self, words: [u32; 3]) -> u32
        ensures tag { result ≡ (rule self.now).tag words };

    /// The modulus of sums of cells.
    fn modulus(&self, m: u32) -> u32
        requires many { IsCount m }
        ensures modulus { result ≡ (rule self.now).modulus m };

    /// The bound: all cells are below it.
    fn bound(&self, m: u32) -> u32
        requires many { IsCount m }
        ensures bound { result ≡ (rule self.now).bound m };

    /// The value of an untouched cell.
    fn idle(&self) -> u32
        ensures idle { result ≡ (rule self.now).idle };

    /// What the cells of a key's ends add up to, by its number, its pivot's position and its tag.
    fn target(&self, number: u32, position: u32, tag: u32) -> u32
        ensures target { result ≡ (rule self.now).target number position tag };

    // The rule keeps its laws, and the table serves its bound.
    ghost laws: { (s : Self) → IsRule K (rule s) };

    // Edges have as many ends as those of the algorithm.
    ghost ends: { (s : Self) → HasEnds K (algorithm_of s) };

    ghost bound_fits: { (s : Self) (m : ℕ) → IsCount m → Self.Table.fits ((rule s).bound m) };

    // A tag that isn't kept is 0.
    ghost untagged: { (s : Self) (words : List ℕ) → KEEPS_TAGS ≡ false → (rule s).tag words ≡ 0 };
}
