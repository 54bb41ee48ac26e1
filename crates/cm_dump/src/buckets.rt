//! The buckets of a BRZ function, as they are written in version 2.
ghost use Rattle.std.specs.Prelude.{◌≡◌, ◌<◌, ◌^◌, length, slice_index_or};
ghost use Rattle.cm_brz_func.specs.Functions.{no_bucket};
ghost use Rattle.cm_io.specs.Causes.{HasCause};
ghost use Rattle.cm_io.specs.Writing.{Writes};
ghost use Rattle.cm_dump.specs.Dumps.{bucket_image, buckets_image};
ghost use Rattle.cm_dump.specs.Forms.{version_2};

use crate::versions::{Version, front_len};
use cm_brz_func::Brz;
use cm_io::{Failed, Sink, write_pieces};

/// Writes bucket `j`.
#[tactic(auto, unfolding(crate::specs::Dumps::bucket_image, crate::specs::Dumps::packed_image))]
fn save_bucket<O: Sink>(brz: &Brz, j: u32, out: &mut O) -> Result<(), Failed>
    requires inside { j < length brz.now.buckets }
    ensures bytes { Writes (O.state out.old).written (O.state out.new).written (bucket_image version_2 (slice_index_or brz.now.buckets j no_bucket)) result }
    ensures cause { HasCause (O.state out.old).faults (O.state out.new).faults result }
{
    write_pieces(
        out,
        &[
            &brz.size_of(j).to_le_bytes(),
            &brz.seed_of(j).to_le_bytes(),
            brz.image_of(j),
        ],
    )
}

/// Writes the buckets. Fails exactly if the sink does, which has then taken a prefix of them.
#[tactic(auto, unfolding(crate::specs::Dumps::buckets_image))]
pub(crate) fn save_buckets<O: Sink>(brz: &Brz, out: &mut O) -> Result<(), Failed>
    ensures bytes { Writes (O.state out.old).written (O.state out.new).written (buckets_image version_2 brz.now.buckets) result }
    ensures cause { HasCause (O.state out.old).faults (O.state out.new).faults result }
{
    for j in 0..brz.buckets() {
        save_bucket(brz, j, out)?;
    }
    Ok(())
}

/// How many bytes the buckets have.
#[tactic(auto, unfolding(crate::specs::Dumps::buckets_image))]
pub(crate) fn buckets_len(brz: &Brz) -> u64
    ensures len { result ≡ length (buckets_image version_2 brz.now.buckets) }
    ensures few { result < 2 ^ 61 }
{
    let mut len = 0;
    for j in 0..brz.buckets() {
        len += front_len(Version::Two) + brz.image_of(j).len() as u64;
    }
    len
}
