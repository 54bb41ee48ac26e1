//! The dump of a function, written in version 2.
ghost use Rattle.std.specs.Prelude.{◌≡◌, ◌<◌, ◌^◌, length};
ghost use Rattle.cm_io.specs.Causes.{HasCause};
ghost use Rattle.cm_io.specs.Writing.{Writes};
ghost use Rattle.cm_dump.specs.Dumps.{bdz_ph_dump, brz_dump, chm_dump, dump_of, header};
ghost use Rattle.cm_dump.specs.Forms.{version_2};
ghost use Rattle.cm_func.specs.declared.function.Func.TheVariants as func;

use crate::buckets::{buckets_len, save_buckets};
use crate::front::MAGIC_TWO;
use crate::header::HEADER_LEN;
use crate::ranks::save_ranks;
use cm_bdz::{Bdz, BdzPh};
use cm_bits::{Cells, Crumbs, Fields, Trits};
use cm_brz_func::Brz;
use cm_chm::Chm;
use cm_dump_images::save_image;
use cm_func::Func;
use cm_io::{Failed, Sink, write_pieces};

/// Writes the header of a dump of version 2: the algorithm's number, its parameter `b`, the number of keys, the ratio in millionths and the
/// seed.
#[tactic(auto, unfolding(crate::specs::Dumps::header))]
fn save_header<O: Sink>(
    algorithm: u8,
    b: u16,
    keys: u32,
    ratio: u32,
    seed: u32,
    out: &mut O,
) -> Result<(), Failed>
    ensures bytes { Writes (O.state out.old).written (O.state out.new).written (header version_2 algorithm b keys ratio seed) result }
    ensures cause { HasCause (O.state out.old).faults (O.state out.new).faults result }
{
    write_pieces(
        out,
        &[
            &MAGIC_TWO,
            &[algorithm, 0],
            &b.to_le_bytes(),
            &keys.to_le_bytes(),
            &ratio.to_le_bytes(),
            &seed.to_le_bytes(),
        ],
    )
}

/// Writes the dump of a CHM function.
#[tactic(auto, unfolding(crate::specs::Dumps::chm_dump, cm_spec::specs::Dump::fields_image))]
fn save_chm<O: Sink>(chm: &Chm, out: &mut O) -> Result<(), Failed>
    ensures bytes { Writes (O.state out.old).written (O.state out.new).written (chm_dump version_2 chm.now) result }
    ensures cause { HasCause (O.state out.old).faults (O.state out.new).faults result }
{
    save_header(1, 0, chm.keys(), chm.c(), chm.seed(), out)?;
    save_image(chm.cells(), out)
}

/// Writes the dump of a BDZ function in version 2, as `save` does. Fails exactly if the sink does, which has then taken a prefix of the dump.
/// Allocates no memory.
#[tactic(auto, unfolding(crate::specs::Dumps::bdz_dump, crate::specs::Dumps::packed_image))]
pub fn save_bdz<O: Sink>(bdz: &Bdz, out: &mut O) -> Result<(), Failed>
    ensures bytes { Writes (O.state out.old).written (O.state out.new).written (dump_of (func.Bdz bdz.now)) result }
    ensures cause { HasCause (O.state out.old).faults (O.state out.new).faults result }
{
    save_header(2, bdz.b() as u16, bdz.keys(), bdz.c(), bdz.seed(), out)?;
    save_image(bdz.cells(), out)?;
    save_ranks(bdz.ranks(), out)
}

/// Writes the dump of a BDZ_PH function.
#[tactic(auto, unfolding(crate::specs::Dumps::bdz_ph_dump, crate::specs::Dumps::packed_image))]
fn save_bdz_ph<O: Sink>(bdz_ph: &BdzPh, out: &mut O) -> Result<(), Failed>
    ensures bytes { Writes (O.state out.old).written (O.state out.new).written (bdz_ph_dump version_2 bdz_ph.now) result }
    ensures cause { HasCause (O.state out.old).faults (O.state out.new).faults result }
{
    save_header(3, 0, bdz_ph.keys(), bdz_ph.c(), bdz_ph.seed(), out)?;
    save_image(bdz_ph.cells(), out)
}

/// Writes the dump of a BRZ function.
#[tactic(auto, unfolding(crate::specs::Dumps::brz_dump))]
fn save_brz<O: Sink>(brz: &Brz, out: &mut O) -> Result<(), Failed>
    ensures bytes { Writes (O.state out.old).written (O.state out.new).written (brz_dump version_2 brz.now) result }
    ensures cause { HasCause (O.state out.old).faults (O.state out.new).faults result }
{
    save_header(4, brz.b(), brz.keys(), brz.c(), brz.split(), out)?;
    save_buckets(brz, out)
}

/// Writes the dump of a function in version 2. Fails exactly if the sink does, which has then taken a prefix of the dump. Allocates no memory.
pub fn save<O: Sink>(function: &Func, out: &mut O) -> Result<(), Failed>
    ensures bytes { Writes (O.state out.old).written (O.state out.new).written (dump_of function.now) result }
    ensures cause { HasCause (O.state out.old).faults (O.state out.new).faults result }
{
    match function {
        Func::Chm(chm) => save_chm(chm, out),
        Func::Bdz(bdz) => save_bdz(bdz, out),
        Func::BdzPh(bdz_ph) => save_bdz_ph(bdz_ph, out),
        Func::Brz(brz) => save_brz(brz, out),
    }
}

/// How many bytes the dump of a CHM function has.
#[tactic(auto, using(crate::proofs::DumpLemmas::chm_written_len))]
fn chm_len(chm: &Chm) -> u64
    ensures { result ≡ length (chm_dump version_2 chm.now) }
{
    let cells = chm.cells();
    HEADER_LEN + Fields::image_len(cells.len(), cells.bound())
}

/// How many bytes the dump of a BDZ function has in version 2: fewer than 2^32. Allocates no memory.
#[tactic(auto, using(crate::proofs::DumpLemmas::bdz_written_len))]
pub fn bdz_len(bdz: &Bdz) -> u64
    ensures length { result ≡ length (dump_of (func.Bdz bdz.now)) }
    ensures few { result < 2 ^ 32 }
{
    // A rank is kept of every eighth cell at most.
    prove!(bdz.b() >= 3);
    HEADER_LEN + Crumbs::image_len(bdz.cells().len(), 4) + 4 * bdz.ranks().entries() as u64
}

/// How many bytes the dump of a BDZ_PH function has.
#[tactic(auto, using(crate::proofs::DumpLemmas::bdz_ph_written_len))]
fn bdz_ph_len(bdz_ph: &BdzPh) -> u64
    ensures { result ≡ length (bdz_ph_dump version_2 bdz_ph.now) }
{
    HEADER_LEN + Trits::image_len(bdz_ph.cells().len(), 3)
}

/// How many bytes the dump of a BRZ function has.
#[tactic(auto, using(crate::proofs::DumpLemmas::brz_written_len))]
fn brz_len(brz: &Brz) -> u64
    ensures { result ≡ length (brz_dump version_2 brz.now) }
{
    HEADER_LEN + buckets_len(brz)
}

/// How many bytes the dump of a function has in version 2. Allocates no memory.
pub fn saved_len(function: &Func) -> u64
    ensures { result ≡ length (dump_of function.now) }
{
    match function {
        Func::Chm(chm) => chm_len(chm),
        Func::Bdz(bdz) => bdz_len(bdz),
        Func::BdzPh(bdz_ph) => bdz_ph_len(bdz_ph),
        Func::Brz(brz) => brz_len(brz),
    }
}
