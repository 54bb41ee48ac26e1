//! Worked examples of commands. Each function has an empty body, and its clauses are checked by the prover.
#![tactic(auto, unfolding(crate::specs::Command::with_argument, clap::proofs::OnLiterals::clap_on_literals))]

ghost use Rattle.std.specs.Prelude.{◌≡◌, ◌∷◌, [], Some, None, false, true, codes};
ghost use Rattle.clap.specs.Words.{fault_of, first_of, is_simple, is_simple_and_free, matches_of};
ghost use Rattle.cm_words_arguments.specs.Examples.{two_files};
ghost use Rattle.cm_words_arguments.specs.Options.{is_set};
ghost use Rattle.cm_words_arguments.specs.Refusals.{is_refused};

/// A command with a flag and two files, of which the first is required: clap states what it finds, and what it refuses.
pub fn files()
    ensures matches { is_simple two_files ≡ true }
    ensures faults { is_simple_and_free two_files ≡ true }
    ensures missing { is_refused (fault_of two_files (codes "p" ∷ codes "-f" ∷ [])) ≡ true }
    ensures enough { is_refused (fault_of two_files (codes "p" ∷ codes "a" ∷ codes "-f" ∷ [])) ≡ false }
    ensures more { is_refused (fault_of two_files (codes "p" ∷ codes "a" ∷ codes "b" ∷ codes "c" ∷ [])) ≡ true }
    ensures first { first_of (codes "one") (matches_of two_files (codes "p" ∷ codes "a" ∷ [])) ≡ Some (codes "a") }
    ensures second { first_of (codes "two") (matches_of two_files (codes "p" ∷ codes "a" ∷ codes "b" ∷ [])) ≡ Some (codes "b") }
    ensures one { first_of (codes "two") (matches_of two_files (codes "p" ∷ codes "a" ∷ [])) ≡ None }
    ensures flag { is_set (codes "flag") (matches_of two_files (codes "p" ∷ codes "a" ∷ codes "-f" ∷ [])) ≡ true }
{}
