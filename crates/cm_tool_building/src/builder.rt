//! What makes something of keys.
ghost use Rattle.std.specs.Prelude.{◌≡◌, Ok, IfOk, IfErr, IsTrue};
ghost use Rattle.std.specs.Option.{ForSome};
ghost use Rattle.cm_io.specs.States.{IsSent};
ghost use Rattle.cm_tool_building.specs.Makes.{IsAllowedFault, HasMakeCause, RefusesBy};
ghost use Rattle.cm_tool_building.specs.Meanings.{Meaning};
ghost use Rattle.cm_tool_stops.specs.Ends.{Says};

use crate::{Fault, Saved};
use cm_io::{Disk, KeyPass, Sink};
use std::alloc::Global;

/// What makes something of keys.
pub trait Builder {
    /// What is made, and saved.
    type Made: Saved;

    /// What is printed of keys of which nothing can be made.
    type Report: Saved;

    /// What it makes of keys.
    ghost meaning: { Self → Meaning Self.Made };

    /// Makes something of the keys of a pass at its start. The disk is there for a spill, which is handed back at the end.
    fn make<P: KeyPass, D: Disk>(
        &self,
        alloc: Global,
        keys: &mut P,
        disk: &mut D,
    ) -> Result<Self::Made, Fault<Self::Report>>
        requires ready { (meaning self.now).ready }
        requires usable { IsTrue (P.usable keys.old) }
        requires start { P.place keys.old ≡ 0 }
        ensures files { (D.state disk.new).files ≡ (D.state disk.old).files }
        ensures read_faults { (D.state disk.new).read_faults ≡ (D.state disk.old).read_faults }
        ensures cause { HasMakeCause (P.faults keys.old) (P.faults keys.new) (D.state disk.old).write_faults (D.state disk.new).write_faults result }
        ensures made { IfOk result (λ made. ForSome (D.state disk.old).files (λ _. ForSome (P.told keys.old) (λ told. (meaning self.now).verdict told ≡ Ok made))) }
        ensures makes { IfOk result (λ made. ForSome (D.state disk.old).files (λ _. ForSome (P.told keys.old) (λ told.
            (meaning self.now).makes told made (D.state disk.old).spilled (D.state disk.new).spilled))) }
        ensures refused { IfErr result (λ fault. ForSome (D.state disk.old).files (λ _. ForSome (P.told keys.old) (λ told.
            RefusesBy Self.Report.bytes (meaning self.now) told fault))) }
        ensures form { IfErr result (IsAllowedFault (meaning self.now).may_stop) }
        ensures unspilled { ((meaning self.now).uses_spill → ⊥) → (D.state disk.new).spilled ≡ (D.state disk.old).spilled };

    /// Says what it made, or nothing. If err fails, it gets a prefix of that.
    fn say<E: Sink>(&self, made: &Self::Made, err: &mut E)
        ensures says { Says (E.state err.old) (E.state err.new) ((meaning self.now).said made.now) }
        ensures sent { (E.state err.old).waits ≡ 0 → IsSent (E.state err.old) (E.state err.new) };
}
