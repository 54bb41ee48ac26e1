//! The keys of a pass that hold in a filter.
ghost use Rattle.std.specs.Prelude.{◌≡◌, ◌≢◌, [], Err, IsTrue};
ghost use Rattle.std.specs.Option.{ForSome};
ghost use Rattle.cm_filter_members.specs.Written.{filter_replies};
ghost use Rattle.cm_io.specs.States.{IsSent};
ghost use Rattle.cm_query_batch.specs.Stops.{HasQueryCause, is_usable_after};
ghost use Rattle.cm_query_batch.specs.declared.fault.QueryFault.TheVariants as query_fault;
ghost use Rattle.cm_tool_asking.specs.Leaves.{EndsPass, wrote};

use crate::lines::write_line;
use cm_filter::Filter;
use cm_io::{Failed, KeyBuf, KeyPass, Sink};
use cm_query_batch::{Batch, QueryFault};

/// Writes the line of each key of a pass at its start that holds in a filter, which is the key and then the byte `end`, and nothing of
/// the other keys. Returns whether all keys hold. Fails exactly if the pass or out does, and allocates no memory. Buffered keys are taken
/// and looked up several at a time, after all lines of earlier keys were written. Out is flushed before a key is read that is not buffered,
/// so no line is left in its buffer at the end or if a read fails.
pub fn write_members<P: KeyPass, O: Sink>(
    filter: &Filter,
    keys: &mut P,
    end: u8,
    out: &mut O,
) -> Result<bool, QueryFault>
    requires usable { IsTrue (P.usable keys.old) }
    requires start { P.place keys.old ≡ 0 }

    // Whether or not the keys are known.
    ensures told { P.told keys.new ≡ P.told keys.old }
    ensures usable { P.usable keys.new ≡ is_usable_after result }
    ensures cause { HasQueryCause (P.faults keys.old) (P.faults keys.new) (O.state out.old).faults (O.state out.new).faults result }
    ensures memory { result ≢ Err query_fault.Memory }

    // The buffer of out is empty, unless out failed.
    ensures sent { (O.state out.old).waits ≡ 0 → IsSent (O.state out.old) (O.state out.new) }

    // Over known keys.
    ensures ends { ForSome (P.told keys.old) (λ told. EndsPass (filter_replies filter.now end) told (wrote (O.state out.old).written (O.state out.new).written []) result) }
{
    let mut complete = true;
    let mut key = KeyBuf::new();
    let mut batch = Batch::new();
    'keys: loop {
        match batch.refill(filter, keys, &mut key) {
            Ok(true) => {}
            Ok(false) => return Ok(complete),
            Err(fault) => return Err(QueryFault::Key(fault)),
        }
        let holds = batch.answer().is_some();
        let sends = batch.reads_next(keys);
        match write_line(out, batch.key(), holds, end, sends) {
            Ok(()) => {}
            Err(Failed) => return Err(QueryFault::Write),
        }
        complete &= holds;
        batch.pass();
    }
}
