//! What a disk is.
ghost use Rattle.std.specs.Prelude.{◌≡◌, [], Some, IfOk};
ghost use Rattle.std.specs.Option.{ForSome};
ghost use Rattle.cm_io.specs.Causes.{HasDiskCause, Collects, HasCloseCause};
ghost use Rattle.cm_io.specs.Files.{IsThere, Opens, Creates, Closes};
ghost use Rattle.cm_io.specs.States.{DiskState};

use crate::{DiskFault, Failed, Sink, Source, Spill};

/// Files by their paths.
pub trait Disk {
    /// A file that is read.
    type Reader: Source;

    /// A file that is written.
    type Writer: Sink;

    /// A temporary file, which is none of the files.
    type Spill: Spill;

    /// The files, the spill that was last handed back, and how often reading and writing have failed.
    ghost state: { Self → DiskState };

    /// A reader over the file of a path, at its start. Returns `Failed` exactly if the count of read faults rises, and never returns a
    /// reader if the path isn't among known files.
    fn open(&mut self, path: &str) -> Result<Self::Reader, DiskFault>
        ensures files { (state self.new).files ≡ (state self.old).files }
        ensures spilled { (state self.new).spilled ≡ (state self.old).spilled }
        ensures write_faults { (state self.new).write_faults ≡ (state self.old).write_faults }
        ensures cause { HasDiskCause (state self.old).read_faults (state self.new).read_faults result }
        ensures fresh { IfOk result (λ reader. Self.Reader.faults reader ≡ 0) }
        ensures start { IfOk result (λ reader. ForSome (Self.Reader.told reader) (λ _. Self.Reader.place reader ≡ 0)) }
        ensures reader { IfOk result (λ reader. ForSome (state self.old).files (λ files.
            Opens files path.now (Self.Reader.told reader) (Self.Reader.place reader))) };

    /// Takes a reader back. The count of read faults rises exactly if the reader has failed.
    fn shut(&mut self, reader: Self::Reader)
        ensures files { (state self.new).files ≡ (state self.old).files }
        ensures spilled { (state self.new).spilled ≡ (state self.old).spilled }
        ensures write_faults { (state self.new).write_faults ≡ (state self.old).write_faults }
        ensures cause { Collects (Self.Reader.faults reader) (state self.old).read_faults (state self.new).read_faults };

    /// Makes the path hold no bytes, and returns a writer for it. Returns `Failed` exactly if the count of write faults rises.
    fn create(&mut self, path: &str) -> Result<Self::Writer, DiskFault>
        ensures files { Creates path.now (state self.old).files (state self.new).files result }
        ensures spilled { (state self.new).spilled ≡ (state self.old).spilled }
        ensures read_faults { (state self.new).read_faults ≡ (state self.old).read_faults }
        ensures cause { HasDiskCause (state self.old).write_faults (state self.new).write_faults result }
        ensures fresh { IfOk result (λ writer. (Self.Writer.state writer).faults ≡ 0) }
        ensures empty { IfOk result (λ writer. ForSome (Self.Writer.state writer).written (λ bytes. bytes ≡ [])) }
        ensures writer { IfOk result (λ writer. ForSome (state self.old).files (λ _. (Self.Writer.state writer).written ≡ Some [])) };

    /// Takes a writer back, and makes the path hold what it wrote, or a prefix of that if it fails. The count of write faults rises
    /// exactly if it fails or the writer has failed.
    fn close(&mut self, path: &str, writer: Self::Writer) -> Result<(), Failed>
        requires there { IsThere path.now (state self.old).files }
        ensures files { Closes path.now (Self.Writer.state writer).written (state self.old).files (state self.new).files result }
        ensures spilled { (state self.new).spilled ≡ (state self.old).spilled }
        ensures read_faults { (state self.new).read_faults ≡ (state self.old).read_faults }
        ensures cause { HasCloseCause (Self.Writer.state writer).faults (state self.old).write_faults (state self.new).write_faults
            result };

    /// An empty spill in a directory. Returns `Failed` exactly if the count of write faults rises.
    fn spill(&mut self, dir: &str) -> Result<Self::Spill, DiskFault>
        ensures files { (state self.new).files ≡ (state self.old).files }
        ensures spilled { (state self.new).spilled ≡ (state self.old).spilled }
        ensures read_faults { (state self.new).read_faults ≡ (state self.old).read_faults }
        ensures cause { HasDiskCause (state self.old).write_faults (state self.new).write_faults result }
        ensures fresh { IfOk result (λ spill. Self.Spill.faults spill ≡ 0) }
        ensures empty { IfOk result (λ spill. ForSome (Self.Spill.told spill) (λ bytes. bytes ≡ [])) }
        ensures told { IfOk result (λ spill. ForSome (state self.old).files (λ _. Self.Spill.told spill ≡ Some [])) };

    /// Takes a spill back. The count of write faults rises exactly if the spill has failed.
    fn give_back(&mut self, spill: Self::Spill)
        ensures files { (state self.new).files ≡ (state self.old).files }
        ensures spilled { ForSome (state self.old).files (λ _. (state self.new).spilled ≡ Self.Spill.told spill) }
        ensures read_faults { (state self.new).read_faults ≡ (state self.old).read_faults }
        ensures cause { Collects (Self.Spill.faults spill) (state self.old).write_faults (state self.new).write_faults };
}
