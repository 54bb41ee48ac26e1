//! Laws of what a query writes, and worked examples.
ghost use Rattle.std.specs.Prelude.{◌≡◌, ◌+◌, ◌↔◌, ℕ, List, [], take, Option, codes};
ghost use Rattle.cm_io.specs.Writing.{then_bytes};
ghost use Rattle.cm_query.specs.Examples.{zero, known_a, two_empty, a_between};
ghost use Rattle.cm_query_batch.specs.Stops.{TextAfter};
ghost use Rattle.cm_query.specs.Tallies.{tally_of};
ghost use Rattle.cm_query.specs.Texts.{notes_of, text_of};
ghost use Rattle.cm_query_batch.specs.declared.fault.QueryFault.{QueryFault};

/// There is a note exactly if the tally has a key that is repeated or unknown.
pub fn noted_exactly()
    ensures { (f : List ℕ → Option ℕ) (keys : List (ℕ × List ℕ)) → (notes_of f keys ≡ []) ↔ ((tally_of f keys).repeated + (tally_of f keys).unknown ≡ 0) }
{}

/// After a failure out has a prefix of the text of all keys.
pub fn front_of_text()
    ensures { (end : ℕ) (f : List ℕ → Option ℕ) (keys : List (ℕ × List ℕ)) (given : ℕ) (old new : Option (List ℕ)) (fault : QueryFault)
        → TextAfter (text_of end f) keys given old new fault → (n : ℕ) × (new ≡ then_bytes old (take n (text_of end f keys))) }
{}

/// Two empty keys under a function that answers every key with 0; and `a` at lines 1 and 12 beside two unknown keys.
pub fn worked_rows()
    ensures zero_text { text_of 10 zero two_empty ≡ codes " -> 0\n -> 0\n" }
    ensures zero_notes { notes_of zero two_empty ≡ codes "cmph: line 2: value 0 is repeated\n" }
    ensures zero_tally { tally_of zero two_empty ≡ record { lines = 2; repeated = 1; unknown = 0 } }
    ensures known_text { text_of 10 known_a a_between ≡ codes "a -> 7\na -> 7\n" }
    ensures known_notes { notes_of known_a a_between ≡ codes "cmph: line 3: key is unknown\ncmph: line 12: value 7 is repeated\ncmph: line 13: key is unknown\n" }
    ensures known_tally { tally_of known_a a_between ≡ record { lines = 4; repeated = 1; unknown = 2 } }
{}
