//! The file of a filter, written.
ghost use Rattle.cm_io.specs.Causes.{HasCause};
ghost use Rattle.cm_io.specs.Writing.{Writes};
ghost use Rattle.cm_filter_file.specs.FilterFiles.{filter_bytes, header_bytes};

use crate::header::MAGIC;
use cm_dump_images::save_image;
use cm_filter::Filter;
use cm_io::{Failed, Sink, write_pieces};

/// Writes the header of a filter file.
#[tactic(auto, unfolding(crate::specs::FilterFiles::header_bytes))]
fn save_header<O: Sink>(filter: &Filter, out: &mut O) -> Result<(), Failed>
    ensures bytes { Writes (O.state out.old).written (O.state out.new).written (header_bytes filter.now) result }
    ensures cause { HasCause (O.state out.old).faults (O.state out.new).faults result }
{
    write_pieces(
        out,
        &[
            &MAGIC,
            &[filter.w(), 0, 0, 0],
            &filter.keys().to_le_bytes(),
            &filter.c().to_le_bytes(),
            &filter.seed().to_le_bytes(),
        ],
    )
}

/// Writes the file of a filter. Fails exactly if the sink does, which has then taken a prefix of the file. Allocates no memory.
#[tactic(auto, unfolding(crate::specs::FilterFiles::filter_bytes, cm_spec::specs::Dump::fields_image))]
pub fn save_filter<O: Sink>(filter: &Filter, out: &mut O) -> Result<(), Failed>
    ensures bytes { Writes (O.state out.old).written (O.state out.new).written (filter_bytes filter.now) result }
    ensures cause { HasCause (O.state out.old).faults (O.state out.new).faults result }
{
    save_header(filter, out)?;
    save_image(filter.cells(), out)
}
