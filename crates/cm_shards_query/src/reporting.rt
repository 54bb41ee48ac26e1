//! Why a query or a test stopped, said on err.
ghost use Rattle.std.specs.Prelude.{◌≡◌, [], ◌∷◌, codes, false};
ghost use Rattle.cm_io.specs.Noting.{Noted};
ghost use Rattle.cm_io.specs.Writing.{joined};
ghost use Rattle.cm_shards_query.specs.Leaves.{stop_message, stop_status};
ghost use Rattle.cm_shards_query.specs.Texts.{bad_manifest, load_message, load_status, manifest_place, manifest_words};
ghost use Rattle.cm_shards_words.specs.Program.{program};
ghost use Rattle.cm_tool_stops.specs.Messages.{cannot_write_out};

use crate::stop::AskStop;
use cm_io::{Notes, Sink};
use cm_shards_files::ShardsFault;
use cm_shards_manifest::ManifestFault;
use cm_shards_words::{
    AskJob, PROGRAM, note_bad_dump, note_file, note_long_line, note_many_lines, note_no_memory,
    note_unread,
};
use itoa::Buffer;

/// Notes why a query or a test stopped, and returns its status.
pub(crate) fn report_stop<E: Sink>(
    stop: &AskStop,
    job: &AskJob,
    err: &mut E,
    notes: &mut Notes,
) -> u8
    ensures status { result ≡ stop_status stop.now }
    ensures noted { Noted notes.old notes.new (E.state err.old) (E.state err.new) (stop_message job.now stop.now) }
    ensures sent { notes.new ≡ false → (E.state err.new).waits ≡ 0 }
{
    explain_stop(stop, job, err, notes);
    match stop {
        AskStop::Load(fault) => status_of_load(fault),
        AskStop::Read => 4,
        AskStop::Write => 5,
        AskStop::Memory => 6,
        AskStop::TooLong { line: _ } | AskStop::TooMany => 8,
    }
}

/// The status of functions that were not loaded.
fn status_of_load(fault: &ShardsFault) -> u8
    ensures status { result ≡ load_status fault.now }
{
    match fault {
        ShardsFault::Memory => 6,
        ShardsFault::NoManifest | ShardsFault::NoFunction { path: _ } => 4,
        ShardsFault::BadManifest { fault: _ } => 3,
        ShardsFault::BadFunction { path: _, fault: _ } => 3,
        ShardsFault::Another { path: _ } => 3,
    }
}

/// Notes why a query or a test stopped.
fn explain_stop<E: Sink>(stop: &AskStop, job: &AskJob, err: &mut E, notes: &mut Notes)
    ensures noted { Noted notes.old notes.new (E.state err.old) (E.state err.new) (stop_message job.now stop.now) }
    ensures sent { notes.new ≡ false → (E.state err.new).waits ≡ 0 }
{
    let keys = job.keys.as_str();
    match stop {
        AskStop::Memory => note_no_memory(err, notes),
        AskStop::Load(fault) => explain_load(fault, job.manifest.as_str(), err, notes),
        AskStop::Read => note_unread(keys, err, notes),
        AskStop::Write => note_out_fault(err, notes),
        AskStop::TooLong { line } => note_long_line(keys, *line, err, notes),
        AskStop::TooMany => note_many_lines(keys, err, notes),
    }
}

/// Notes why the functions of the manifest of a path were not loaded.
fn explain_load<E: Sink>(fault: &ShardsFault, manifest: &str, err: &mut E, notes: &mut Notes)
    ensures noted { Noted notes.old notes.new (E.state err.old) (E.state err.new) (load_message manifest.now fault.now) }
    ensures sent { notes.new ≡ false → (E.state err.new).waits ≡ 0 }
{
    match fault {
        ShardsFault::Memory => note_no_memory(err, notes),
        ShardsFault::NoManifest => note_unread(manifest, err, notes),
        ShardsFault::BadManifest { fault } => explain_manifest(manifest, *fault, err, notes),
        ShardsFault::NoFunction { path } => note_unread(path.as_str(), err, notes),
        ShardsFault::BadFunction { path, fault } => {
            note_bad_dump(path.as_str(), *fault, err, notes);
        }
        ShardsFault::Another { path } => {
            let what = b": not the function of the manifest\n";
            note_file(path.as_str(), what, err, notes);
        }
    }
}

/// Notes that out can't be written.
fn note_out_fault<E: Sink>(err: &mut E, notes: &mut Notes)
    ensures noted { Noted notes.old notes.new (E.state err.old) (E.state err.new) (cannot_write_out program) }
    ensures sent { notes.new ≡ false → (E.state err.new).waits ≡ 0 }
{
    notes.note_pieces(
        err,
        &[PROGRAM.as_bytes(), b": cannot write standard output\n"],
    );
}

/// Notes what is wrong with the bytes of a manifest.
fn explain_manifest<E: Sink>(file: &str, fault: ManifestFault, err: &mut E, notes: &mut Notes)
    ensures noted { Noted notes.old notes.new (E.state err.old) (E.state err.new) (bad_manifest file.now fault) }
    ensures sent { notes.new ≡ false → (E.state err.new).waits ≡ 0 }
{
    let words = words_of(fault);
    match place_of(fault) {
        Some(at) => {
            let mut buffer = Buffer::new();
            let digits = buffer.format(at).as_bytes();
            note_manifest(file, words, digits, err, notes);
        }
        None => note_manifest(file, words, b"", err, notes),
    }
}

/// Notes what is wrong with a manifest, and at which byte.
fn note_manifest<E: Sink>(file: &str, words: &[u8], place: &[u8], err: &mut E, notes: &mut Notes)
    ensures noted { Noted notes.old notes.new (E.state err.old) (E.state err.new)
        (joined (program ∷ codes ": " ∷ file.now ∷ codes ": bad manifest: " ∷ words.now ∷ place.now ∷ codes "\n" ∷ [])) }
    ensures sent { notes.new ≡ false → (E.state err.new).waits ≡ 0 }
{
    notes.note_pieces(
        err,
        &[
            PROGRAM.as_bytes(),
            b": ",
            file.as_bytes(),
            b": bad manifest: ",
            words,
            place,
            b"\n",
        ],
    );
}

/// What is wrong with bytes that are no manifest.
fn words_of(fault: ManifestFault) -> &'static [u8]
    ensures words { result.now ≡ manifest_words fault }
{
    match fault {
        ManifestFault::Truncated { at: _ } => b"truncated at ",
        ManifestFault::BadMagic => b"bad magic",
        ManifestFault::BadField { at: _ } => b"bad field at ",
        ManifestFault::BadDigest { at: _ } => b"bad digest at ",
        ManifestFault::Trailing => b"trailing bytes",
    }
}

/// At which byte it is wrong, if one is named.
fn place_of(fault: ManifestFault) -> Option<u64>
    ensures place { result ≡ manifest_place fault }
{
    match fault {
        ManifestFault::Truncated { at }
        | ManifestFault::BadField { at }
        | ManifestFault::BadDigest { at } => Some(at),
        ManifestFault::BadMagic | ManifestFault::Trailing => None,
    }
}
