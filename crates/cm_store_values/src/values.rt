//! The keys of a pass that have a value in a store.
ghost use Rattle.std.specs.Prelude.{◌≡◌, ◌≢◌, ℕ, List, Err, IsTrue, false};
ghost use Rattle.std.specs.Option.{ForSome};
ghost use Rattle.cm_io.specs.Noting.{Noted};
ghost use Rattle.cm_io.specs.States.{IsSent};
ghost use Rattle.cm_query_batch.specs.Stops.{HasQueryCause, is_usable_after};
ghost use Rattle.cm_query_batch.specs.declared.fault.QueryFault.TheVariants as query_fault;
ghost use Rattle.cm_store_values.specs.Written.{store_replies};
ghost use Rattle.cm_tool_asking.specs.Leaves.{EndsPass, wrote};

use crate::lines::{note_key, write_line};
use cm_io::{Failed, KeyBuf, KeyPass, Notes, Sink};
use cm_query_batch::{Batch, QueryFault};
use cm_store::Store;

/// Looks up each key of a pass at its start in a store. The line of a key with a value goes to out: the key, a tab, the value, and then the
/// byte `end`. A note of a key without one goes to err, with its line. Returns whether all keys have a value. Fails exactly if the pass or
/// out does, and allocates no memory. Buffered keys are taken and looked up several at a time, after all lines of earlier keys were
/// written. Out is flushed before a key is read that is not buffered, so no line is left in its buffer at the end or if a read fails.
pub fn write_values<P: KeyPass, O: Sink, E: Sink>(
    store: &Store,
    keys: &mut P,
    end: u8,
    out: &mut O,
    err: &mut E,
    notes: &mut Notes,
) -> Result<bool, QueryFault>
    requires usable { IsTrue (P.usable keys.old) }
    requires start { P.place keys.old ≡ 0 }

    // Whether or not the keys are known.
    ensures told { P.told keys.new ≡ P.told keys.old }
    ensures usable { P.usable keys.new ≡ is_usable_after result }
    ensures cause { HasQueryCause (P.faults keys.old) (P.faults keys.new) (O.state out.old).faults (O.state out.new).faults result }
    ensures memory { result ≢ Err query_fault.Memory }
    ensures says { (text : List ℕ) × Noted notes.old notes.new (E.state err.old) (E.state err.new) text }

    // The buffer of out is empty, unless out failed, and that of err, unless a note failed.
    ensures sent { (O.state out.old).waits ≡ 0 → IsSent (O.state out.old) (O.state out.new) }
    ensures notes_sent { (notes.old ≡ false → (E.state err.old).waits ≡ 0) → notes.new ≡ false → (E.state err.new).waits ≡ 0 }

    // Over known keys.
    ensures ends { ForSome (P.told keys.old) (λ told. (text : List ℕ) × Noted notes.old notes.new (E.state err.old) (E.state err.new) text
        × EndsPass (store_replies store.now end) told (wrote (O.state out.old).written (O.state out.new).written text) result) }
{
    let mut complete = true;
    let mut room = KeyBuf::new();
    let mut batch = Batch::new();
    'keys: loop {
        match batch.refill(store.index(), keys, &mut room) {
            Ok(true) => {}
            Ok(false) => return Ok(complete),
            Err(fault) => return Err(QueryFault::Key(fault)),
        }
        let key = batch.key();
        let value = store.look_at(batch.answer(), key);
        let sends = batch.reads_next(keys);
        match write_line(out, key, value, end, sends) {
            Ok(()) => {}
            Err(Failed) => return Err(QueryFault::Write),
        }
        note_key(err, notes, batch.line(), value);
        complete &= value.is_some();
        batch.pass();
    }
}
