//! What is said on err.
ghost use Rattle.std.specs.Prelude.{◌≡◌, false, map};
ghost use Rattle.cm_io.specs.States.{IsSent};
ghost use Rattle.cm_io.specs.Noting.{Noted};
ghost use Rattle.cm_io.specs.Writing.{joined};
ghost use Rattle.cm_tool_stops.specs.Ends.{Says, status_of, message_of, query_status_of, query_message_of, upgrade_status_of, upgrade_message_of, usage_status_of};
ghost use Rattle.cm_tool_stops.specs.Messages.{cannot_read, cannot_write, cannot_write_out, keys_changed, line_too_long, out_of_memory, records_too_large, seed_failure_message, spill_damaged, too_many_keys, usage_message};
ghost use Rattle.cm_tool_stops.specs.Named.{named};

use crate::dumps::explain_dump;
use crate::explained::Explained;
use crate::names::Names;
use crate::stop::{QueryStop, Stop, UpgradeStop};
use cm_io::{Notes, Sink};
use cm_spec::{MAX_BUCKET, MAX_KEYS};
use cm_witness_gather::SeedFailure;
use cm_words_arguments::UsageFault;
use itoa::Buffer;

/// What was read from the spill at an offset in bytes, and the number that was expected there.
#[derive(Clone, Copy)]
struct Damage {
    offset: u64,
    expected: u64,
    found: u64,
}

/// Says one message. If err fails, it gets a prefix of it.
pub fn say<E: Sink>(err: &mut E, pieces: &[&[u8]])
    ensures says { Says (E.state err.old) (E.state err.new) (joined (map (λ piece. piece.now) pieces.now)) }
    ensures sent { IsSent (E.state err.old) (E.state err.new) }
{
    let mut notes = Notes::new();
    notes.note_pieces(err, pieces);
}

/// Says why arguments ask for no job, and returns the status. The hint follows the message for arguments that `clap` refuses.
pub fn report_usage<E: Sink>(program: &str, hint: &str, fault: UsageFault, err: &mut E) -> u8
    ensures status { result ≡ usage_status_of fault }
    ensures says { Says (E.state err.old) (E.state err.new) (usage_message program.now hint.now fault) }
    ensures sent { IsSent (E.state err.old) (E.state err.new) }
{
    explain_usage(program.as_bytes(), hint.as_bytes(), fault, err);
    usage_status(fault)
}

/// Says that memory ran out before the arguments were read, and returns the status of that.
pub fn report_no_memory<E: Sink>(program: &str, err: &mut E) -> u8
    ensures status { result ≡ 6 }
    ensures says { Says (E.state err.old) (E.state err.new) (out_of_memory program.now) }
    ensures sent { IsSent (E.state err.old) (E.state err.new) }
{
    report_usage(program, "", UsageFault::Memory, err)
}

/// Says why arguments ask for no job.
fn explain_usage<E: Sink>(program: &[u8], hint: &[u8], fault: UsageFault, err: &mut E)
    ensures says { Says (E.state err.old) (E.state err.new) (usage_message program.now hint.now fault) }
    ensures sent { IsSent (E.state err.old) (E.state err.new) }
{
    match fault {
        UsageFault::Memory => say(err, &[program, b": out of memory\n"]),
        UsageFault::Words => say(err, &[program, b": bad arguments", hint, b"\n"]),
        UsageFault::BadValue { letter } => say(
            err,
            &[program, b": bad value of -", &[letter], b"\n"],
        ),
        UsageFault::NoFile => say(err, &[program, b": no keys file\n"]),
    }
}

/// The status of arguments that ask for no job.
fn usage_status(fault: UsageFault) -> u8
    ensures status { result ≡ usage_status_of fault }
{
    match fault {
        UsageFault::Memory => 6,
        UsageFault::Words | UsageFault::BadValue { letter: _ } | UsageFault::NoFile => 2,
    }
}

/// Says why a build stopped, by what it names and by the directory of its spill, and returns its status.
pub fn report<E: Sink>(stop: Stop, names: &Names<'_>, dir: &str, err: &mut E) -> u8
    ensures status { result ≡ status_of stop }
    ensures says { Says (E.state err.old) (E.state err.new) (message_of (named names.now) dir.now stop) }
    ensures sent { IsSent (E.state err.old) (E.state err.new) }
{
    let mut notes = Notes::new();
    explain(stop, names, dir.as_bytes(), err, &mut notes);
    status(stop)
}

/// Notes why a build stopped.
fn explain<E: Sink>(stop: Stop, names: &Names<'_>, dir: &[u8], err: &mut E, notes: &mut Notes)
    ensures noted { Noted notes.old notes.new (E.state err.old) (E.state err.new) (message_of (named names.now) dir.now stop) }
    ensures sent { notes.new ≡ false → (E.state err.new).waits ≡ 0 }
{
    let program = names.program.as_bytes();
    let keys = names.keys.as_bytes();
    let function = names.function.as_bytes();
    match stop {
        Stop::Refused(failure) => note_seed_failure(program, failure, err, notes),
        Stop::Read => note_unread(program, keys, err, notes),
        Stop::Write => note_unwritten(program, function, err, notes),
        Stop::WriteOut => note_out_fault(program, err, notes),
        Stop::Memory => note_want_of_memory(program, err, notes),
        Stop::Changed { first, now } => note_change(program, keys, first, now, err, notes),
        Stop::Spill => notes.note_pieces(
            err,
            &[program, b": ", dir, b": cannot use the spill file\n"],
        ),
        Stop::SpillDamaged {
            offset,
            expected,
            found,
        } => {
            let damage = Damage {
                offset,
                expected,
                found,
            };
            note_damage(program, dir, damage, err, notes);
        }
        Stop::NoKeys => notes.note_pieces(err, &[program, b": ", keys, b": no keys\n"]),
        Stop::TooLong { line } => note_long_line(program, keys, line, err, notes),
        Stop::TooMany => note_many_keys(program, keys, err, notes),
        Stop::TooLarge { line } => note_large_records(program, keys, line, err, notes),
    }
}

/// The status of a build that stopped.
fn status(stop: Stop) -> u8
    ensures status { result ≡ status_of stop }
{
    match stop {
        Stop::Refused(_) => 1,
        Stop::Read => 4,
        Stop::Write | Stop::WriteOut | Stop::Spill => 5,
        Stop::Memory => 6,
        Stop::Changed { first: _, now: _ }
        | Stop::SpillDamaged {
            offset: _,
            expected: _,
            found: _,
        } => 7,
        Stop::NoKeys | Stop::TooLong { line: _ } | Stop::TooMany | Stop::TooLarge { line: _ } => 8,
    }
}

/// Notes why a query stopped, and returns its status.
pub fn report_query<F: Explained, E: Sink>(
    stop: &QueryStop<F>,
    names: &Names<'_>,
    err: &mut E,
    notes: &mut Notes,
) -> u8
    ensures status { result ≡ query_status_of stop.now }
    ensures noted { Noted notes.old notes.new (E.state err.old) (E.state err.new) (query_message_of F.message (named names.now) stop.now) }
    ensures sent { notes.new ≡ false → (E.state err.new).waits ≡ 0 }
{
    explain_query(stop, names, err, notes);
    query_status(stop)
}

/// Notes why a query stopped.
fn explain_query<F: Explained, E: Sink>(
    stop: &QueryStop<F>,
    names: &Names<'_>,
    err: &mut E,
    notes: &mut Notes,
)
    ensures noted { Noted notes.old notes.new (E.state err.old) (E.state err.new) (query_message_of F.message (named names.now) stop.now) }
    ensures sent { notes.new ≡ false → (E.state err.new).waits ≡ 0 }
{
    let program = names.program.as_bytes();
    let keys = names.keys.as_bytes();
    match stop {
        QueryStop::Memory => note_want_of_memory(program, err, notes),
        QueryStop::NoFunction => note_unread(program, names.function.as_bytes(), err, notes),
        QueryStop::BadFile { fault } => fault.explain(names, err, notes),
        QueryStop::Read => note_unread(program, keys, err, notes),
        QueryStop::Write => note_out_fault(program, err, notes),
        QueryStop::TooLong { line } => note_long_line(program, keys, *line, err, notes),
        QueryStop::TooMany => note_many_keys(program, keys, err, notes),
    }
}

/// The status of a query that stopped.
fn query_status<F>(stop: &QueryStop<F>) -> u8
    ensures status { result ≡ query_status_of stop.now }
{
    match stop {
        QueryStop::BadFile { fault: _ } => 3,
        QueryStop::NoFunction | QueryStop::Read => 4,
        QueryStop::Write => 5,
        QueryStop::Memory => 6,
        QueryStop::TooLong { line: _ } | QueryStop::TooMany => 8,
    }
}

/// Says why an upgrade of a function file stopped, and returns its status.
pub fn report_upgrade<E: Sink>(stop: UpgradeStop, names: &Names<'_>, err: &mut E) -> u8
    ensures status { result ≡ upgrade_status_of stop }
    ensures says { Says (E.state err.old) (E.state err.new) (upgrade_message_of (named names.now) stop) }
    ensures sent { IsSent (E.state err.old) (E.state err.new) }
{
    let mut notes = Notes::new();
    explain_upgrade(stop, names, err, &mut notes);
    upgrade_status(stop)
}

/// Notes why an upgrade stopped.
fn explain_upgrade<E: Sink>(stop: UpgradeStop, names: &Names<'_>, err: &mut E, notes: &mut Notes)
    ensures noted { Noted notes.old notes.new (E.state err.old) (E.state err.new) (upgrade_message_of (named names.now) stop) }
    ensures sent { notes.new ≡ false → (E.state err.new).waits ≡ 0 }
{
    let program = names.program.as_bytes();
    let function = names.function.as_bytes();
    match stop {
        UpgradeStop::Memory => note_want_of_memory(program, err, notes),
        UpgradeStop::Read => note_unread(program, function, err, notes),
        UpgradeStop::BadDump { fault } => explain_dump(program, function, fault, err, notes),
        UpgradeStop::Write => note_unwritten(program, function, err, notes),
    }
}

/// The status of an upgrade that stopped.
fn upgrade_status(stop: UpgradeStop) -> u8
    ensures status { result ≡ upgrade_status_of stop }
{
    match stop {
        UpgradeStop::BadDump { fault: _ } => 3,
        UpgradeStop::Read => 4,
        UpgradeStop::Write => 5,
        UpgradeStop::Memory => 6,
    }
}

/// Notes why there is no function of the keys.
fn note_seed_failure<E: Sink>(program: &[u8], failure: SeedFailure, err: &mut E, notes: &mut Notes)
    ensures noted { Noted notes.old notes.new (E.state err.old) (E.state err.new) (seed_failure_message program.now failure) }
    ensures sent { notes.new ≡ false → (E.state err.new).waits ≡ 0 }
{
    match failure {
        SeedFailure::NoSeed => {
            notes.note_pieces(
                err,
                &[program, b": no seed of the list gives an empty core\n"],
            );
        }
        SeedFailure::NoSeedFor { bucket } => {
            let mut buffer = Buffer::new();
            let text = buffer.format(bucket).as_bytes();
            notes.note_pieces(
                err,
                &[
                    program,
                    b": bucket ",
                    text,
                    b" has no seed with an empty core\n",
                ],
            );
        }
        SeedFailure::NoSplit => {
            let mut buffer = Buffer::new();
            let text = buffer.format(MAX_BUCKET).as_bytes();
            notes.note_pieces(
                err,
                &[
                    program,
                    b": every split has a bucket with more than ",
                    text,
                    b" keys\n",
                ],
            );
        }
    }
}

/// Notes that memory ran out.
fn note_want_of_memory<E: Sink>(program: &[u8], err: &mut E, notes: &mut Notes)
    ensures noted { Noted notes.old notes.new (E.state err.old) (E.state err.new) (out_of_memory program.now) }
    ensures sent { notes.new ≡ false → (E.state err.new).waits ≡ 0 }
{
    notes.note_pieces(err, &[program, b": out of memory\n"]);
}

/// Notes that out can't be written.
fn note_out_fault<E: Sink>(program: &[u8], err: &mut E, notes: &mut Notes)
    ensures noted { Noted notes.old notes.new (E.state err.old) (E.state err.new) (cannot_write_out program.now) }
    ensures sent { notes.new ≡ false → (E.state err.new).waits ≡ 0 }
{
    notes.note_pieces(err, &[program, b": cannot write standard output\n"]);
}

/// Notes that a file can't be opened, read or rewound.
fn note_unread<E: Sink>(program: &[u8], file: &[u8], err: &mut E, notes: &mut Notes)
    ensures noted { Noted notes.old notes.new (E.state err.old) (E.state err.new) (cannot_read program.now file.now) }
    ensures sent { notes.new ≡ false → (E.state err.new).waits ≡ 0 }
{
    notes.note_pieces(err, &[program, b": ", file, b": cannot read\n"]);
}

/// Notes that a file can't be created, written or closed.
fn note_unwritten<E: Sink>(program: &[u8], file: &[u8], err: &mut E, notes: &mut Notes)
    ensures noted { Noted notes.old notes.new (E.state err.old) (E.state err.new) (cannot_write program.now file.now) }
    ensures sent { notes.new ≡ false → (E.state err.new).waits ≡ 0 }
{
    notes.note_pieces(err, &[program, b": ", file, b": cannot write\n"]);
}

/// Notes that the keys changed.
fn note_change<E: Sink>(
    program: &[u8],
    file: &[u8],
    first: u32,
    again: u32,
    err: &mut E,
    notes: &mut Notes,
)
    ensures noted { Noted notes.old notes.new (E.state err.old) (E.state err.new) (keys_changed program.now file.now first again) }
    ensures sent { notes.new ≡ false → (E.state err.new).waits ≡ 0 }
{
    let mut first_buffer = Buffer::new();
    let first_text = first_buffer.format(first).as_bytes();
    let mut again_buffer = Buffer::new();
    let again_text = again_buffer.format(again).as_bytes();
    notes.note_pieces(
        err,
        &[
            program,
            b": ",
            file,
            b": keys changed: ",
            first_text,
            b", then ",
            again_text,
            b"\n",
        ],
    );
}

/// Notes that another number than the expected one was read from the spill in a directory.
fn note_damage<E: Sink>(program: &[u8], dir: &[u8], damage: Damage, err: &mut E, notes: &mut Notes)
    ensures noted { Noted notes.old notes.new (E.state err.old) (E.state err.new) (spill_damaged program.now dir.now damage.offset damage.expected damage.found) }
    ensures sent { notes.new ≡ false → (E.state err.new).waits ≡ 0 }
{
    let mut offset_buffer = Buffer::new();
    let offset_text = offset_buffer.format(damage.offset).as_bytes();
    let mut expected_buffer = Buffer::new();
    let expected_text = expected_buffer.format(damage.expected).as_bytes();
    let mut found_buffer = Buffer::new();
    let found_text = found_buffer.format(damage.found).as_bytes();
    notes.note_pieces(
        err,
        &[
            program,
            b": ",
            dir,
            b": spill damaged at ",
            offset_text,
            b": expected ",
            expected_text,
            b", found ",
            found_text,
            b"\n",
        ],
    );
}

/// Notes that a line is too long.
fn note_long_line<E: Sink>(program: &[u8], file: &[u8], line: u32, err: &mut E, notes: &mut Notes)
    ensures noted { Noted notes.old notes.new (E.state err.old) (E.state err.new) (line_too_long program.now file.now line) }
    ensures sent { notes.new ≡ false → (E.state err.new).waits ≡ 0 }
{
    let mut buffer = Buffer::new();
    let text = buffer.format(line).as_bytes();
    notes.note_pieces(
        err,
        &[program, b": ", file, b": line ", text, b" is too long\n"],
    );
}

/// Notes that there are too many keys.
fn note_many_keys<E: Sink>(program: &[u8], file: &[u8], err: &mut E, notes: &mut Notes)
    ensures noted { Noted notes.old notes.new (E.state err.old) (E.state err.new) (too_many_keys program.now file.now) }
    ensures sent { notes.new ≡ false → (E.state err.new).waits ≡ 0 }
{
    let mut buffer = Buffer::new();
    let text = buffer.format(MAX_KEYS).as_bytes();
    notes.note_pieces(
        err,
        &[program, b": ", file, b": more than ", text, b" keys\n"],
    );
}

/// Notes that the records up to a line take too many bytes.
fn note_large_records<E: Sink>(
    program: &[u8],
    file: &[u8],
    line: u32,
    err: &mut E,
    notes: &mut Notes,
)
    ensures noted { Noted notes.old notes.new (E.state err.old) (E.state err.new) (records_too_large program.now file.now line) }
    ensures sent { notes.new ≡ false → (E.state err.new).waits ≡ 0 }
{
    let mut buffer = Buffer::new();
    let text = buffer.format(line).as_bytes();
    notes.note_pieces(
        err,
        &[
            program,
            b": ",
            file,
            b": records are too large at line ",
            text,
            b"\n",
        ],
    );
}
