//! What the jobs of shards note on err. Each note begins with the name of the program.
ghost use Rattle.std.specs.Prelude.{◌≡◌, codes, false};
ghost use Rattle.cm_io.specs.Noting.{Noted};
ghost use Rattle.cm_shards_words.specs.Messages.{file_message, line_message, too_many_lines, would_overwrite};
ghost use Rattle.cm_shards_words.specs.Program.{program};
ghost use Rattle.cm_io.specs.States.{IsSent};
ghost use Rattle.cm_tool_stops.specs.Ends.{Says};
ghost use Rattle.cm_tool_stops.specs.Messages.{bad_dump, cannot_read, cannot_write, line_too_long, out_of_memory};

use crate::program::PROGRAM;
use cm_dump_items::LoadFault;
use cm_io::{Notes, Sink};
use cm_tool_stops::{Explained, Names};
use itoa::Buffer;

/// Notes that memory ran out.
pub fn note_no_memory<E: Sink>(err: &mut E, notes: &mut Notes)
    ensures noted { Noted notes.old notes.new (E.state err.old) (E.state err.new) (out_of_memory program) }
    ensures sent { notes.new ≡ false → (E.state err.new).waits ≡ 0 }
{
    notes.note_pieces(err, &[PROGRAM.as_bytes(), b": out of memory\n"]);
}

/// Notes of a file what is said after its path.
pub fn note_file<E: Sink>(file: &str, what: &[u8], err: &mut E, notes: &mut Notes)
    ensures noted { Noted notes.old notes.new (E.state err.old) (E.state err.new) (file_message file.now what.now) }
    ensures sent { notes.new ≡ false → (E.state err.new).waits ≡ 0 }
{
    notes.note_pieces(err, &[PROGRAM.as_bytes(), b": ", file.as_bytes(), what]);
}

/// Notes of a line of a file, counted from 1, what is said before and after its number.
pub fn note_line<'a, E: Sink>(
    file: &'a str,
    before: &'a [u8],
    line: u64,
    after: &'a [u8],
    err: &mut E,
    notes: &mut Notes,
)
    ensures noted { Noted notes.old notes.new (E.state err.old) (E.state err.new) (line_message file.now before.now line after.now) }
    ensures sent { notes.new ≡ false → (E.state err.new).waits ≡ 0 }
{
    let program = PROGRAM.as_bytes();
    let file = file.as_bytes();
    let mut buffer = Buffer::new();
    let digits = buffer.format(line).as_bytes();
    notes.note_pieces(err, &[program, b": ", file, before, digits, after]);
}

/// Notes that a file can't be opened or read.
pub fn note_unread<E: Sink>(file: &str, err: &mut E, notes: &mut Notes)
    ensures noted { Noted notes.old notes.new (E.state err.old) (E.state err.new) (cannot_read program file.now) }
    ensures sent { notes.new ≡ false → (E.state err.new).waits ≡ 0 }
{
    note_file(file, b": cannot read\n", err, notes);
}

/// Notes that a file can't be created, written or synced.
pub fn note_unwritten<E: Sink>(file: &str, err: &mut E, notes: &mut Notes)
    ensures noted { Noted notes.old notes.new (E.state err.old) (E.state err.new) (cannot_write program file.now) }
    ensures sent { notes.new ≡ false → (E.state err.new).waits ≡ 0 }
{
    note_file(file, b": cannot write\n", err, notes);
}

/// Says that a job would overwrite a file that it reads, and returns the status of that.
pub fn report_overwriting<E: Sink>(file: &str, err: &mut E) -> u8
    ensures status { result ≡ 5 }
    ensures says { Says (E.state err.old) (E.state err.new) (would_overwrite file.now) }
    ensures sent { IsSent (E.state err.old) (E.state err.new) }
{
    let mut notes = Notes::new();
    note_file(file, b": would be overwritten\n", err, &mut notes);
    5
}

/// Notes that a line of a file, counted from 1, is too long.
pub fn note_long_line<E: Sink>(file: &str, line: u64, err: &mut E, notes: &mut Notes)
    ensures noted { Noted notes.old notes.new (E.state err.old) (E.state err.new) (line_too_long program file.now line) }
    ensures sent { notes.new ≡ false → (E.state err.new).waits ≡ 0 }
{
    note_line(file, b": line ", line, b" is too long\n", err, notes);
}

/// Notes that a file has more lines than are read.
pub fn note_many_lines<E: Sink>(file: &str, err: &mut E, notes: &mut Notes)
    ensures noted { Noted notes.old notes.new (E.state err.old) (E.state err.new) (too_many_lines file.now) }
    ensures sent { notes.new ≡ false → (E.state err.new).waits ≡ 0 }
{
    note_file(file, b": too many lines\n", err, notes);
}

/// Notes what is wrong with the bytes of a function file.
pub fn note_bad_dump<E: Sink>(file: &str, fault: LoadFault, err: &mut E, notes: &mut Notes)
    ensures noted { Noted notes.old notes.new (E.state err.old) (E.state err.new) (bad_dump program file.now fault) }
    ensures sent { notes.new ≡ false → (E.state err.new).waits ≡ 0 }
{
    let names = Names {
        program: PROGRAM,
        keys: "",
        function: file,
    };
    fault.explain(&names, err, notes);
}
