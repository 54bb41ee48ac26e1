//! Passes over keys of which the number is known.
ghost use Rattle.std.specs.Prelude.{◌≡◌, ◌≢◌, ℕ, List, OnOk, IfErr, IsTrue, None, Err};
ghost use Rattle.std.specs.Option.{ForSome};
ghost use Rattle.cm_io.specs.PassFaults.{FailsPass, HasOtherCount, HasPassCause, HasPassFailure};
ghost use Rattle.cm_io.specs.Passes.{Ends};
ghost use Rattle.cm_io.specs.declared.pass_fault.PassFault.TheVariants as pass_fault;

use crate::key_pass::{KeyBuf, KeyFault, KeyPass};
use std::alloc::AllocError;

/// Why what was to be done with the keys of a pass, whose number is known, wasn't done.
#[derive(Clone, Copy, Debug, PartialEq, Eq)]
pub enum PassFault {
    /// Out of memory.
    Memory,
    /// The pass over the keys failed.
    Key(KeyFault),
    /// There were to be `first` keys, and there are `now`: fewer, or one more, where the pass stopped.
    Changed { first: u32, now: u32 },
}

impl From<KeyFault> for PassFault {
    ghost from_gives = { λ f e. e ≡ pass_fault.Key f };

    fn from(fault: KeyFault) -> Self {
        PassFault::Key(fault)
    }
}

impl From<AllocError> for PassFault {
    ghost from_gives = { λ _ e. e ≡ pass_fault.Memory };

    fn from(_: AllocError) -> Self {
        PassFault::Memory
    }
}

/// Checks that a pass that has yielded its `m` keys has no other. Fails as `Changed` if it has. The buffer is scratch space.
pub fn expect_end<P: KeyPass>(keys: &mut P, key: &mut KeyBuf, m: u32) -> Result<(), PassFault>
    requires usable { IsTrue (P.usable keys.old) }
    requires at { P.place keys.old ≡ m }
    ensures told { P.told keys.new ≡ P.told keys.old }
    ensures cause { HasPassCause (P.faults keys.old) (P.faults keys.new) result }
    ensures failed { IfErr result (HasPassFailure (P.failure keys.new)) }
    ensures given { OnOk result (P.place keys.new ≡ m) }
    ensures at_end { OnOk result (P.at_end keys.new) }
    ensures gave { (passed : List (ℕ × List ℕ)) → P.gave keys.old passed → OnOk result (P.gave keys.new passed) }
    ensures end { OnOk result (ForSome (P.told keys.old) (λ told. Ends told (P.place keys.old) None)) }
    ensures memory { result ≢ Err pass_fault.Memory }
    ensures changed { IfErr result (HasOtherCount m (P.place keys.new)) }
    ensures fault { IfErr result (λ fault. ForSome (P.told keys.old) (λ told. FailsPass told m fault)) }
{
    if keys.next(key)? {
        return Err(PassFault::Changed {
            first: m,
            now: m + 1,
        });
    }
    Ok(())
}
