//! The algorithms and their names.
ghost use Rattle.std.specs.Prelude.{◌≡◌, IfSome, Some};
ghost use Rattle.cm_algo_names.specs.Names.{name_of};

/// An algorithm that builds a function from keys to numbers.
#[derive(Clone, Copy, Debug, PartialEq, Eq)]
pub enum Algorithm {
    /// A minimal perfect hash that keeps the order of the keys, over graphs with two ends an edge: Czech, Havas, Majewski,
    /// "An optimal algorithm for generating minimal perfect hash functions", 1992.
    Chm,
    /// A minimal perfect hash over hypergraphs with three ends an edge, with sampled ranks: Botelho, Pagh, Ziviani, "Simple
    /// and space-efficient minimal perfect hash functions", 2007.
    Bdz,
    /// The perfect hash of BDZ without ranks: its numbers go beyond the number of keys.
    BdzPh,
    /// A minimal perfect hash for keys that don't fit in memory, which splits them into buckets: Botelho, Pagh, Ziviani,
    /// "Perfect hashing for data management applications", 2007.
    Brz,
}

impl Algorithm {
    /// The name: `chm`, `bdz`, `bdz_ph` or `brz`.
    pub fn name(self) -> &'static str
        ensures name { result.now ≡ name_of self }
    {
        match self {
            Algorithm::Chm => "chm",
            Algorithm::Bdz => "bdz",
            Algorithm::BdzPh => "bdz_ph",
            Algorithm::Brz => "brz",
        }
    }

    /// The algorithm that has this name, or none for another text.
    pub fn from_name(name: &str) -> Option<Algorithm>
        ensures known { IfSome result (λ algorithm. name.now ≡ name_of algorithm) }
        ensures found { (algorithm : Algorithm) → name.now ≡ name_of algorithm → result ≡ Some algorithm }
    {
        match name {
            "chm" => Some(Algorithm::Chm),
            "bdz" => Some(Algorithm::Bdz),
            "bdz_ph" => Some(Algorithm::BdzPh),
            "brz" => Some(Algorithm::Brz),
            _ => None,
        }
    }
}
