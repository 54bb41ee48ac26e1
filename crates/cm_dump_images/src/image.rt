//! The image of a table, written in pieces.
ghost use Rattle.std.specs.Prelude.{◌≡◌, ◌<◌, ◌≤◌, ◌+◌, ◌-◌, map, length};
ghost use Rattle.std.specs.List.{range_with_len};
ghost use Rattle.cm_spec.specs.Lists.{list_of};
ghost use Rattle.cm_io.specs.Causes.{HasCause};
ghost use Rattle.cm_io.specs.Writing.{Writes};

use arrayvec::ArrayVec;
use cm_bits::Cells;
use cm_io::{Failed, Sink};

/// How many bytes are gathered before they are written.
const PIECE: u64 = 4096;

/// Gathers the bytes of a table's image from `from` up to `until`.
fn gather<C: Cells>(table: &C, from: u64, until: u64, piece: &mut ArrayVec<u8, 4096>)
    requires order { from ≤ until }
    requires room { until ≤ from + 4096 }
    requires inside { until ≤ C.image_size (length (C.cells table.now)) (C.bound_of table.now) }
    ensures piece { piece.new.items ≡ map (C.image_byte (C.bound_of table.now) (C.cells table.now)) (range_with_len from (until - from)) }
{
    piece.clear();
    for i in from..until {
        piece.push(table.byte(i));
    }
}

/// Writes the image of a table. Fails exactly if the sink does, which has then taken a prefix of the image.
pub fn save_image<C: Cells, O: Sink>(table: &C, out: &mut O) -> Result<(), Failed>
    ensures bytes { Writes (O.state out.old).written (O.state out.new).written (list_of (C.image_byte (C.bound_of table.now) (C.cells table.now)) (C.image_size (length (C.cells table.now)) (C.bound_of table.now))) result }
    ensures cause { HasCause (O.state out.old).faults (O.state out.new).faults result }
{
    let len = C::image_len(table.len(), table.bound());
    let mut piece = ArrayVec::<u8, 4096>::new();
    let mut at = 0;
    'pieces: while at < len {
        let until = at + PIECE.min(len - at);
        gather(table, at, until, &mut piece);
        out.write(piece.as_slice())?;
        at = until;
    }
    Ok(())
}
