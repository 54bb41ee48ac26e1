//! Worked examples and laws of the generated keys. Each function has an empty body, and its clauses are checked by the prover.
#![tactic(auto, unfolding(crate::specs::Texts::made_text))]

ghost use Rattle.std.specs.Prelude.{◌≡◌, ◌≤◌, ◌*◌, ℕ, None, codes, length};
ghost use Rattle.cm_keys.specs.Lines.{lines_of};
ghost use Rattle.cm_keys_made.specs.Texts.{made_key, made_text};
ghost use Rattle.cm_keys_made.specs.Numbered.{AreMade};

use cm_io::{MAX_KEY_LEN, MAX_KEYS};
use cm_keys::LINE_END;

/// The first keys, and their text.
pub fn first_keys()
    ensures zero { made_key 0 ≡ codes "key-0000000000" }
    ensures one { made_key 1 ≡ codes "key-2654435761" }
    ensures two { made_key 2 ≡ codes "key-1013904226" }
    ensures last { made_key 16777215 ≡ codes "key-0315131471" }
    ensures text { made_text 3 ≡ codes "key-0000000000\nkey-2654435761\nkey-1013904226\n" }
{}

/// How many bytes the keys have with their ends.
pub fn text_length()
    ensures { (n : ℕ) → length (made_text n) ≡ 15 * n }
{}

/// The lines of the text are the keys, without a fault.
pub fn lines()
    ensures { (n : ℕ) → n ≤ MAX_KEYS → AreMade n (lines_of MAX_KEYS MAX_KEY_LEN LINE_END None (made_text n)) }
{}
