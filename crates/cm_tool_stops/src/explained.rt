//! Messages of what is wrong with a file.
ghost use Rattle.std.specs.Prelude.{◌≡◌, ℕ, List, false};
ghost use Rattle.cm_io.specs.Noting.{Noted};
ghost use Rattle.cm_tool_stops.specs.Named.{Named, named};

use crate::dumps::explain_dump;
use crate::names::Names;
use cm_dump_items::LoadFault;
use cm_io::{Notes, Sink};

/// What is wrong with the bytes of a file, and the message of that.
pub trait Explained: Drop {
    /// The message, by what it names.
    ghost message: { Self → Named → List ℕ };

    /// Notes the message.
    fn explain<E: Sink>(&self, names: &Names<'_>, err: &mut E, notes: &mut Notes)
        ensures noted { Noted notes.old notes.new (E.state err.old) (E.state err.new) (message self.now (named names.now)) }
        ensures sent { notes.new ≡ false → (E.state err.new).waits ≡ 0 };
}

impl Explained for LoadFault {
    ghost use Rattle.cm_tool_stops.specs.Messages.{bad_dump};

    ghost message = { λ fault names. bad_dump names.program names.function fault };

    fn explain<E: Sink>(&self, names: &Names<'_>, err: &mut E, notes: &mut Notes) {
        let program = names.program.as_bytes();
        let function = names.function.as_bytes();
        explain_dump(program, function, *self, err, notes);
    }
}
