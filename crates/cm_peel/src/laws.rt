//! Laws of peeling.
ghost use Rattle.std.specs.Prelude.{◌≡◌, ℕ, List, []};
ghost use Rattle.cm_spec.specs.Rounds.{rest_of};
ghost use Rattle.cm_spec.specs.Core.{IsCore, HasEmptyCore};

/// The residual graph of peeling is the 2-core.
pub fn rest_is_core()
    ensures { (edges : List (List ℕ)) → IsCore edges (rest_of edges) }
{}

/// The residual graph is empty exactly if the 2-core is.
pub fn empty_rest()
    ensures core { (edges : List (List ℕ)) → rest_of edges ≡ [] → HasEmptyCore edges }
    ensures rest { (edges : List (List ℕ)) → HasEmptyCore edges → rest_of edges ≡ [] }
{}
