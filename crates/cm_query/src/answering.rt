//! The answers of a function to the keys of a pass.
ghost use Rattle.std.specs.Prelude.{◌≡◌, ◌⊎◌, ◌≤◌, ◌+◌, ℕ, List, Err, IsTrue, IfOk, IfErr, OnOk, None, false};
ghost use Rattle.std.specs.Option.{ForSome};
ghost use Rattle.cm_io.specs.States.{IsSent};
ghost use Rattle.cm_io.specs.Noting.{Noted};
ghost use Rattle.cm_io.specs.Writing.{then_bytes};
ghost use Rattle.cm_query_batch.specs.Stops.{HasQueryCause, HasQueryFailure, IsReached, is_usable_after, StopsAt, TextAfter, noted_keys};
ghost use Rattle.cm_query.specs.Tallies.{tally_of};
ghost use Rattle.cm_query.specs.Texts.{text_of, notes_of};

use crate::marks::Marks;
use crate::tally::Tally;
use crate::writing::{note_key, write_line};
use cm_algo_scheme::Answers;
use cm_io::{Failed, KeyBuf, KeyPass, Notes, Sink};
use cm_query_batch::{Batch, QueryFault};
use itoa::Buffer;
use std::alloc::Global;

/// An answer as a number of 64 bits.
fn widened(answer: Option<u32>) -> Option<u64>
    ensures same { result ≡ answer }
{
    answer.map(|number| u64::from(number))
}

/// Looks up each key of a pass that stands at its start. If it has an answer, its line goes to out; if it has none, or one that an earlier
/// key has, a note goes to err. A line on out ends with the byte `end`, which is a line feed or 0, and a note with a line feed. One bit
/// for each number of the span is allocated first, and no other memory. Buffered keys are taken several at a time, after all lines of
/// earlier keys were written. Out is flushed before a key is read that is not buffered, so no line is left in its buffer at the end or if
/// a read fails.
pub fn query<A: Answers, P: KeyPass, O: Sink, E: Sink>(
    alloc: Global,
    function: &A,
    keys: &mut P,
    end: u8,
    out: &mut O,
    err: &mut E,
    notes: &mut Notes,
) -> Result<Tally, QueryFault>
    requires usable { IsTrue (P.usable keys.old) }
    requires start { P.place keys.old ≡ 0 }
    requires end { (end ≡ 10) ⊎ (end ≡ 0) }

    // Whether or not the keys are known.
    ensures told { P.told keys.new ≡ P.told keys.old }
    ensures usable { P.usable keys.new ≡ is_usable_after result }
    ensures cause { HasQueryCause (P.faults keys.old) (P.faults keys.new) (O.state out.old).faults (O.state out.new).faults result }
    ensures failed { IfErr result (HasQueryFailure (P.failure keys.new)) }
    ensures lines { IfOk result (λ tally. tally.lines ≡ P.place keys.new) }
    ensures within { IfOk result (λ tally. tally.repeated + tally.unknown ≤ tally.lines) }
    ensures appends { (text : List ℕ) × ((O.state out.new).written ≡ then_bytes (O.state out.old).written text) }
    ensures says { (text : List ℕ) × Noted notes.old notes.new (E.state err.old) (E.state err.new) text }

    // If memory runs out, nothing has changed.
    ensures memory { result ≡ Err QueryFault.Memory → (keys.new ≡ keys.old) × (out.new ≡ out.old) × (err.new ≡ err.old) × (notes.new ≡ notes.old) }

    // The buffer of out is empty, unless out failed, and that of err, unless a note failed.
    ensures sent { (O.state out.old).waits ≡ 0 → IsSent (O.state out.old) (O.state out.new) }
    ensures notes_sent { (notes.old ≡ false → (E.state err.old).waits ≡ 0) → notes.new ≡ false → (E.state err.new).waits ≡ 0 }

    // The end of known keys.
    ensures end { OnOk result (ForSome (P.told keys.old) (λ told. told.fault ≡ None)) }
    ensures tally { IfOk result (λ tally. ForSome (P.told keys.old) (λ told. tally ≡ tally_of (A.answer_of function.now) told.keys)) }
    ensures text { OnOk result (ForSome (P.told keys.old) (λ told. (O.state out.new).written ≡ then_bytes (O.state out.old).written (text_of end (A.answer_of function.now) told.keys))) }
    ensures notes { OnOk result (ForSome (P.told keys.old) (λ told.
        Noted notes.old notes.new (E.state err.old) (E.state err.new) (notes_of (A.answer_of function.now) told.keys))) }

    // A failure over known keys. After `Write` the pass may have yielded more keys than were reached.
    ensures stops { IfErr result (λ fault. ForSome (P.told keys.old) (λ told. StopsAt told (P.place keys.new) fault)) }
    ensures after { IfErr result (λ fault. ForSome (P.told keys.old) (λ told. (reached : ℕ) × IsReached (P.place keys.new) reached fault
        × TextAfter (text_of end (A.answer_of function.now)) told.keys reached (O.state out.old).written (O.state out.new).written fault
        × Noted notes.old notes.new (E.state err.old) (E.state err.new) (notes_of (A.answer_of function.now) (noted_keys told.keys reached fault)))) }
{
    let Ok(mut marks) = Marks::new(alloc, function.span()) else {
        return Err(QueryFault::Memory);
    };
    let mut tally = Tally {
        lines: 0,
        repeated: 0,
        unknown: 0,
    };
    let mut key = KeyBuf::new();
    let mut batch = Batch::new();
    let mut buffer = Buffer::new();
    'keys: loop {
        match batch.refill(function, keys, &mut key) {
            Ok(true) => {}
            Ok(false) => return Ok(tally),
            Err(fault) => return Err(QueryFault::Key(fault)),
        }
        let answer = batch.answer();
        let sends = batch.reads_next(keys);
        match write_line(out, batch.key(), widened(answer), end, sends, &mut buffer) {
            Ok(()) => {}
            Err(Failed) => return Err(QueryFault::Write),
        }
        let repeated = marks.mark_first(batch.answers());
        note_key(err, notes, batch.line(), answer, repeated);
        tally.count(answer, repeated);
        batch.pass();
    }
}
