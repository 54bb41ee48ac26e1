//! What a disk is that can append to a file, and say whether two paths lead to the same one.
ghost use Rattle.std.specs.Prelude.{◌≡◌};
ghost use Rattle.cm_io.specs.Causes.{HasDiskCause};
ghost use Rattle.cm_io.specs.Files.{IsThere};
ghost use Rattle.cm_io_append.specs.Extending.{Extends};

use cm_io::{Disk, DiskFault};

/// A disk that can append to a file, and say whether two paths lead to the same one. A writer may be let go: the file that `create` made
/// for it stays as it is, and isn't synced.
pub trait AppendDisk: Disk<Writer: Drop> {
    /// Appends a piece to the file of a path, which is there. `last` says that nothing more comes: the file is synced then. Returns
    /// `Failed` exactly if the count of write faults rises, and a prefix of the piece was appended then. If memory runs out, nothing was.
    fn append(&mut self, path: &str, piece: &[u8], last: bool) -> Result<(), DiskFault>
        requires there { IsThere path.now (Self.state self.old).files }
        ensures files { Extends path.now piece.now (Self.state self.old).files (Self.state self.new).files result }
        ensures spilled { (Self.state self.new).spilled ≡ (Self.state self.old).spilled }
        ensures read_faults { (Self.state self.new).read_faults ≡ (Self.state self.old).read_faults }
        ensures cause { HasDiskCause (Self.state self.old).write_faults (Self.state self.new).write_faults result };

    /// Fails if both paths lead to the same file, as links let them: a file made at `made` would take the place of the one that is read at
    /// `read`. Returns `Failed` exactly if the count of write faults rises. No file is changed. Links that change after the call aren't
    /// seen.
    fn check_distinct(&mut self, read: &str, made: &str) -> Result<(), DiskFault>
        ensures files { (Self.state self.new).files ≡ (Self.state self.old).files }
        ensures spilled { (Self.state self.new).spilled ≡ (Self.state self.old).spilled }
        ensures read_faults { (Self.state self.new).read_faults ≡ (Self.state self.old).read_faults }
        ensures cause { HasDiskCause (Self.state self.old).write_faults (Self.state self.new).write_faults result };
}
