//! What a function file holds.
ghost use Rattle.cm_dump.specs.Dumps.{dump_of};

use cm_dump::{Func, save};
use cm_io::{Failed, Sink};
use cm_tool_building::Saved;

/// A function, as its file holds it.
#[derive(Drop)]
pub struct FuncFile {
    /// The function.
    pub func: Func,
}

impl Saved for FuncFile {
    ghost bytes = { λ file. dump_of file.func };

    fn save<O: Sink>(&self, out: &mut O) -> Result<(), Failed> {
        save(&self.func, out)
    }
}
