//! What a file holds that is asked for keys.
ghost use Rattle.std.specs.Prelude.{◌≡◌, ◌⊎◌, ℕ, List, Err, IsTrue, false};
ghost use Rattle.std.specs.Option.{ForSome};
ghost use Rattle.cm_io.specs.Noting.{Noted};
ghost use Rattle.cm_io.specs.States.{IsSent};
ghost use Rattle.cm_keys.specs.declared.keys.TheConstants.{LINE_END};
ghost use Rattle.cm_query_batch.specs.Stops.{HasQueryCause};
ghost use Rattle.cm_query_batch.specs.declared.fault.QueryFault.{QueryFault};
ghost use Rattle.cm_tool_asking.specs.Leaves.{EndsPass, wrote};
ghost use Rattle.cm_tool_asking.specs.Loads.{HasLoadCause, IsSpelled};
ghost use Rattle.cm_tool_asking.specs.Meanings.{Meaning};

use crate::Unloaded;
use cm_io::{KeyPass, Notes, Sink, Source};
use cm_query_batch::QueryFault;
use cm_tool_stops::Explained;
use std::alloc::Global;

/// What a file holds that is asked for keys.
pub trait Asked: Sized + Drop {
    /// What can be wrong with the bytes of a file.
    type Fault: Explained;

    /// What the bytes of a file spell, and what that writes of keys.
    ghost meaning: { Meaning Self Self.Fault };

    /// Loads what all bytes of a source spell that stands at its start. Returns `Read` exactly if the source fails.
    fn load<S: Source>(alloc: Global, source: &mut S) -> Result<Self, Unloaded<Self::Fault>>
        requires start { ForSome (S.told source.old) (λ _. S.place source.old ≡ 0) }
        ensures cause { HasLoadCause (S.faults source.old) (S.faults source.new) result }
        ensures spelled { ForSome (S.told source.old) (λ bytes. IsSpelled meaning.spelling bytes result) };

    /// Writes the text of each key of a pass at its start to out, and notes to err. A line on out ends with the byte `end`. Memory is
    /// allocated before the first key. Returns whether nothing is amiss with the keys.
    fn answer<P: KeyPass, O: Sink, E: Sink>(
        &self,
        alloc: Global,
        keys: &mut P,
        end: u8,
        out: &mut O,
        err: &mut E,
        notes: &mut Notes,
    ) -> Result<bool, QueryFault>
        requires usable { IsTrue (P.usable keys.old) }
        requires start { P.place keys.old ≡ 0 }
        requires end { (end ≡ LINE_END) ⊎ (end ≡ 0) }
        ensures cause { HasQueryCause (P.faults keys.old) (P.faults keys.new) (O.state out.old).faults (O.state out.new).faults result }
        ensures memory { result ≡ Err QueryFault.Memory → (O.state out.new).written ≡ (O.state out.old).written }
        ensures sent { (O.state out.old).waits ≡ 0 → IsSent (O.state out.old) (O.state out.new) }
        ensures notes_sent { (notes.old ≡ false → (E.state err.old).waits ≡ 0) → notes.new ≡ false → (E.state err.new).waits ≡ 0 }
        ensures says { (text : List ℕ) × Noted notes.old notes.new (E.state err.old) (E.state err.new) text }
        ensures ends { ForSome (P.told keys.old) (λ told. (text : List ℕ) × Noted notes.old notes.new (E.state err.old) (E.state err.new) text
            × EndsPass (meaning.replies self.now end) told (wrote (O.state out.old).written (O.state out.new).written text) result) };
}
