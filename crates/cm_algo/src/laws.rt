//! A law of the residual graphs of keys.
ghost use Rattle.std.specs.Prelude.{◌≡◌, ◌≢◌, ℕ, ◌<◌, List, length, Contains};
ghost use Rattle.cm_spec.specs.Built.{graph_of, key_at};
ghost use Rattle.cm_spec.specs.Rounds.{rest_of};
ghost use Rattle.cm_spec.specs.Rule.{Rule};

/// The edges of equal keys lie in the 2-core under every seed.
pub fn equal_keys_are_left()
    ensures { (r : Rule) (keys : List (ℕ × List ℕ)) (c seed i j : ℕ) → i ≢ j → i < length keys → j < length keys → key_at keys i ≡ key_at keys j → Contains (rest_of (graph_of r keys c seed)) i }
{}
