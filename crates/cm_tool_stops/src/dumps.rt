//! What is said of bytes that are no dump.
ghost use Rattle.std.specs.Prelude.{◌≡◌, [], ◌∷◌, codes, false};
ghost use Rattle.cm_io.specs.Noting.{Noted};
ghost use Rattle.cm_io.specs.Writing.{joined};
ghost use Rattle.cm_tool_stops.specs.Messages.{bad_dump, fault_place, fault_words};

use cm_dump_items::LoadFault;
use cm_io::{Notes, Sink};
use itoa::Buffer;

/// Notes why the function file is no dump.
pub(crate) fn explain_dump<E: Sink>(
    program: &[u8],
    file: &[u8],
    fault: LoadFault,
    err: &mut E,
    notes: &mut Notes,
)
    ensures noted { Noted notes.old notes.new (E.state err.old) (E.state err.new) (bad_dump program.now file.now fault) }
    ensures sent { notes.new ≡ false → (E.state err.new).waits ≡ 0 }
{
    let words = words_of(fault);
    match place_of(fault) {
        Some(at) => {
            let mut buffer = Buffer::new();
            let digits = buffer.format(at).as_bytes();
            note_dump(program, file, words, digits, err, notes);
        }
        None => note_dump(program, file, words, b"", err, notes),
    }
}

/// Notes what is wrong with the function file, and at which byte.
fn note_dump<E: Sink>(
    program: &[u8],
    file: &[u8],
    words: &[u8],
    place: &[u8],
    err: &mut E,
    notes: &mut Notes,
)
    ensures noted { Noted notes.old notes.new (E.state err.old) (E.state err.new)
        (joined (program.now ∷ codes ": " ∷ file.now ∷ codes ": bad dump: " ∷ words.now ∷ place.now ∷ codes "\n" ∷ [])) }
    ensures sent { notes.new ≡ false → (E.state err.new).waits ≡ 0 }
{
    notes.note_pieces(
        err,
        &[program, b": ", file, b": bad dump: ", words, place, b"\n"],
    );
}

/// What is wrong with bytes that are no dump.
fn words_of(fault: LoadFault) -> &'static [u8]
    ensures words { result.now ≡ fault_words fault }
{
    match fault {
        LoadFault::Memory => b"out of memory",
        LoadFault::Read => b"cannot read",
        LoadFault::Truncated { at: _ } => b"truncated at ",
        LoadFault::BadMagic => b"bad magic",
        LoadFault::BadAlgorithm => b"bad algorithm",
        LoadFault::BadField { at: _ } => b"bad field at ",
        LoadFault::BadPadding { at: _ } => b"bad padding at ",
        LoadFault::BadCell { at: _ } => b"bad cell at ",
        LoadFault::BadCount { at: _ } => b"bad count at ",
        LoadFault::BadRank { at: _ } => b"bad rank at ",
        LoadFault::Trailing => b"trailing bytes",
    }
}

/// At which byte it is wrong, if one is named.
fn place_of(fault: LoadFault) -> Option<u64>
    ensures place { result ≡ fault_place fault }
{
    match fault {
        LoadFault::Truncated { at }
        | LoadFault::BadField { at }
        | LoadFault::BadPadding { at }
        | LoadFault::BadCell { at }
        | LoadFault::BadCount { at }
        | LoadFault::BadRank { at } => Some(at),
        LoadFault::Memory
        | LoadFault::Read
        | LoadFault::BadMagic
        | LoadFault::BadAlgorithm
        | LoadFault::Trailing => None,
    }
}
