//! Laws of keys, functions and dumps: calls that do nothing, whose clauses a caller cites in its proof.

/// What the keys of a text are: its lines, numbered from 1 without a gap.
pub use cm_keys::{numbering, splitting};

/// What a built function answers to its own keys.
pub use cm_lib_numbers::keys_have_numbers;

/// How many bytes the dump of a function has that is built by a plan, and that a buffer of as many is large enough.
pub use cm_lib_lent::dumps_fit;

/// That the dump of a function spells it.
pub use cm_dump::laws::dumps_spell;
