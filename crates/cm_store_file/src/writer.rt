//! The file of a store, written.
ghost use Rattle.std.specs.Prelude.{length};
ghost use Rattle.cm_io.specs.Causes.{HasCause};
ghost use Rattle.cm_io.specs.Writing.{Writes};
ghost use Rattle.cm_store_file.specs.Headers.{header_bytes};
ghost use Rattle.cm_store_file.specs.StoreFiles.{index_bytes, store_bytes};

use crate::header::MAGIC;
use cm_dump::{bdz_len, save_bdz};
use cm_dump_images::save_image;
use cm_io::{Failed, Sink, write_pieces};
use cm_store::Store;

/// Writes the header of a store file.
#[tactic(auto, unfolding(crate::specs::Headers::header_bytes))]
fn save_header<O: Sink>(store: &Store, out: &mut O) -> Result<(), Failed>
    ensures bytes { Writes (O.state out.old).written (O.state out.new).written (header_bytes (length (index_bytes store.now.index)) (length store.now.bytes)) result }
    ensures cause { HasCause (O.state out.old).faults (O.state out.new).faults result }
{
    let index = bdz_len(store.index()) as u32;
    let records = store.bytes().len() as u32;
    write_pieces(out, &[&MAGIC, &index.to_le_bytes(), &records.to_le_bytes()])
}

/// Writes the file of a store. Fails exactly if the sink does, which has then taken a prefix of the file. Allocates no memory.
pub fn save_store<O: Sink>(store: &Store, out: &mut O) -> Result<(), Failed>
    ensures bytes { Writes (O.state out.old).written (O.state out.new).written (store_bytes store.now) result }
    ensures cause { HasCause (O.state out.old).faults (O.state out.new).faults result }
{
    save_header(store, out)?;
    save_bdz(store.index(), out)?;
    save_image(store.places(), out)?;
    out.write(store.bytes())
}
