//! What a source is.
ghost use Rattle.std.specs.Prelude.{◌≡◌, ◌≤◌, ℕ, List, Option, length, IfOk, OnOk};
ghost use Rattle.std.specs.Option.{ForSome};
ghost use Rattle.cm_io.specs.Causes.{HasCause};
ghost use Rattle.cm_io.specs.Reading.{Gives};

use crate::Failed;

/// Bytes that are read in order, and again from their start.
pub trait Source {
    /// All of its bytes, if they are known.
    ghost told: { Self → Option (List ℕ) };

    /// How many of them were read.
    ghost place: { Self → ℕ };

    /// How often it has failed.
    ghost faults: { Self → ℕ };

    /// Reads the next bytes into the start of the buffer, and returns how many. Into a buffer that isn't empty, 0 is the end. Fails
    /// exactly if the count of faults rises.
    fn read(&mut self, buf: &mut [u8]) -> Result<usize, Failed>
        ensures bound { IfOk result (λ n. n ≤ length buf.old) }
        ensures told { told self.new ≡ told self.old }
        ensures gives { IfOk result (λ n. ForSome (told self.old) (λ bytes.
            Gives bytes (place self.old) (place self.new) (length buf.old) n buf.new)) }
        ensures cause { HasCause (faults self.old) (faults self.new) result };

    /// Goes back to the start. Fails exactly if the count of faults rises.
    fn rewind(&mut self) -> Result<(), Failed>
        ensures told { told self.new ≡ told self.old }
        ensures start { OnOk result (place self.new ≡ 0) }
        ensures cause { HasCause (faults self.old) (faults self.new) result };
}
