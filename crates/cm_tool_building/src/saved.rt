//! What a file can hold.
ghost use Rattle.std.specs.Prelude.{ℕ, List};
ghost use Rattle.cm_io.specs.Causes.{HasCause};
ghost use Rattle.cm_io.specs.Writing.{Writes};

use cm_io::{Failed, Sink};

/// What can be written, and saved as a file.
pub trait Saved: Drop {
    /// Its bytes.
    ghost bytes: { Self → List ℕ };

    /// Writes its bytes. Fails exactly if the sink does, which has then taken a prefix of them.
    fn save<O: Sink>(&self, out: &mut O) -> Result<(), Failed>
        ensures bytes { Writes (O.state out.old).written (O.state out.new).written (bytes self.now) result }
        ensures cause { HasCause (O.state out.old).faults (O.state out.new).faults result };
}
