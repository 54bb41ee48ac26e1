//! The function that the bytes of a dump are.
ghost use Rattle.std.specs.Prelude.{◌≡◌, ◌+◌, ◌≤◌, ℕ, List, IfErr, IfOk, Ok, OnOk, length};
ghost use Rattle.cm_brz_func.specs.Functions.{IsBrz, brz_answer};
ghost use Rattle.cm_dump.specs.Forms.{form_of};
ghost use Rattle.cm_dump.specs.Spelling.{body_at, spelling_of};
ghost use Rattle.cm_dump.specs.Headings.{heading_at};
ghost use Rattle.cm_dump_lent.specs.Opened.{IsOpenFault, LacksIndex, func_by, lent_answer};
ghost use Rattle.cm_func.specs.Functions.{IsFunction, answer_by};

use crate::bodies::{open_bdz, open_bdz_ph, open_chm};
use crate::{Lent, OpenFault};
use cm_dump::{Algorithm, HEADER_LEN, heading_of};
use cm_dump_brz::open_brz;

/// Opens the function whose dump of version 1 or 2 these bytes are, in these bytes. A function by BRZ needs a number of the index for each of
/// its buckets, and the others need none. Returns `Dump` with the first fault of the bytes in the version that their magic names, exactly as
/// loading them would, and `Room` exactly if the header is right and names BRZ, and there are more buckets than places in the index.
/// Each byte is read once or twice. Takes no memory. A caller that changes the bytes or the index afterwards gets for each key any number below
/// the span, or none; nothing outside them is read.
#[tactic(auto, unfolding(cm_dump::specs::Spelling::spelling_by))]
pub fn open<'a>(dump: &'a [u8], index: &'a mut [u64]) -> Result<Lent<'a>, OpenFault>
    ensures spelling { IfOk result (λ f. spelling_of dump.now ≡ Ok (func_by f)) }
    ensures valid { IfOk result (λ f. IsFunction (func_by f)) }
    ensures answers { IfOk result (λ f. (key : List ℕ) → lent_answer f key ≡ answer_by (func_by f) key) }
    ensures room { OnOk result (LacksIndex dump.now (length index.old) → ⊥) }
    ensures fault { IfErr result (IsOpenFault dump.now (length index.old)) }
{
    let front = dump.len().min(HEADER_LEN as usize);
    let heading = match heading_of(&dump[..front]) {
        Ok(heading) => heading,
        Err(fault) => return Err(OpenFault::Dump(fault)),
    };
    let header = heading.header;
    match header.algorithm {
        Algorithm::Chm => match open_chm(dump, header) {
            Ok(chm) => Ok(Lent::Chm(chm)),
            Err(fault) => Err(OpenFault::Dump(fault)),
        },
        Algorithm::Bdz => match open_bdz(dump, header) {
            Ok(bdz) => Ok(Lent::Bdz(bdz)),
            Err(fault) => Err(OpenFault::Dump(fault)),
        },
        Algorithm::BdzPh => match open_bdz_ph(dump, header) {
            Ok(bdz_ph) => Ok(Lent::BdzPh(bdz_ph)),
            Err(fault) => Err(OpenFault::Dump(fault)),
        },
        Algorithm::Brz => match open_brz(dump, heading.version, header, index) {
            Ok(brz) => Ok(Lent::Brz(brz)),
            Err(fault) => Err(fault),
        },
    }
}
