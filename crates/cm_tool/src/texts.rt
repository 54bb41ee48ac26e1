//! The help and the version.
ghost use Rattle.cm_io.specs.Causes.{HasCause};
ghost use Rattle.cm_io.specs.Writing.{Writes};
ghost use Rattle.cm_tool.specs.Texts.{help_text, version_text};

use cm_io::{Failed, Sink, write_pieces};

/// Prints how the program is used. Fails exactly if out does, which has then taken a prefix of the text. Allocates no memory.
pub fn print_help<O: Sink>(out: &mut O) -> Result<(), Failed>
    ensures text { Writes (O.state out.old).written (O.state out.new).written help_text result }
    ensures cause { HasCause (O.state out.old).faults (O.state out.new).faults result }
{
    write_pieces(
        out,
        &[
            b"usage: cmph [-v] [-h] [-V] [-z] [-k nkeys] [-f hash] [-g [-c c] [-s seed] [-r seeds]] [-a algorithm] [-M MB] [-b b] [-d dir] [-m file.mph] keysfile\n",
            b"       cmph -T nkeys [-s seed] [-r seeds] [-M MB] [-d dir]\n",
            b"       cmph -u [-m file.mph] [keysfile]\n",
            b"algorithms: chm bdz bdz_ph brz\n",
            b"hash functions: jenkins\n",
        ],
    )
}

/// Prints the version. Fails exactly if out does, which has then taken a prefix of the text. Allocates no memory.
pub fn print_version<O: Sink>(out: &mut O) -> Result<(), Failed>
    ensures text { Writes (O.state out.old).written (O.state out.new).written version_text result }
    ensures cause { HasCause (O.state out.old).faults (O.state out.new).faults result }
{
    write_pieces(out, &[b"cmph 2\n"])
}
