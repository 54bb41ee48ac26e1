//! What a spill is.
ghost use Rattle.std.specs.Prelude.{◌≡◌, ◌≤◌, ℕ, List, Option, length, IfOk};
ghost use Rattle.std.specs.Option.{ForSome};
ghost use Rattle.cm_io.specs.Causes.{HasCause};
ghost use Rattle.cm_io.specs.Reading.{GivesAt};
ghost use Rattle.cm_io.specs.Writing.{Writes};

use crate::Failed;

/// Bytes that are appended, and read again from any place.
pub trait Spill {
    /// All that was appended, if it is known.
    ghost told: { Self → Option (List ℕ) };

    /// How often it has failed.
    ghost faults: { Self → ℕ };

    /// Appends the piece. Fails exactly if the count of faults rises, and then appends a prefix of the piece.
    fn append(&mut self, piece: &[u8]) -> Result<(), Failed>
        ensures bytes { Writes (told self.old) (told self.new) piece.now result }
        ensures cause { HasCause (faults self.old) (faults self.new) result };

    /// Reads the bytes from an offset on into the start of the buffer, and returns how many. Into a buffer that isn't empty, 0 is the
    /// end. Fails exactly if the count of faults rises. The bytes stay as they are.
    fn read_at(&mut self, offset: u64, buf: &mut [u8]) -> Result<usize, Failed>
        ensures bound { IfOk result (λ n. n ≤ length buf.old) }
        ensures told { told self.new ≡ told self.old }
        ensures gives { IfOk result (λ n. ForSome (told self.old) (λ bytes. GivesAt bytes offset (length buf.old) n buf.new)) }
        ensures cause { HasCause (faults self.old) (faults self.new) result };
}
