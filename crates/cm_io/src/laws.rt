//! Numbers that the formats and messages rest on. Each function has an empty body, and its clause is checked by the prover.
ghost use Rattle.std.specs.Prelude.{◌≡◌};

use crate::MAX_KEY_LEN;

/// A key has at most 65,535 bytes, so that its length is a `u16`.
pub fn max_key_len()
    ensures { MAX_KEY_LEN ≡ 65535 }
{}
