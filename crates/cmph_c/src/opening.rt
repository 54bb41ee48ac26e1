//! A function is opened in the bytes of its file.
ghost use Rattle.std.specs.Prelude.{◌≡◌, ◌≢◌, length};
ghost use Rattle.cmph_c.specs.Opening.{IsOpenKind, IsOpened, IsRefused, open_code, open_place};

use crate::codes::{NO_ROOM, OK, Place, at_only, code_of};
use crate::function::{Function, put};
use cm_dump_lent::{OpenFault, open};

/// The code of a refusal, and its offset or the room that is needed.
fn refusal_of(fault: OpenFault) -> (u32, u64)
    requires kind { IsOpenKind fault }
    ensures code { result.0 ≡ open_code fault }
    ensures place { result.1 ≡ open_place fault }
{
    match fault {
        OpenFault::Dump(fault) => code_of(fault),
        OpenFault::Room { needed } => (NO_ROOM, needed as u64),
    }
}

/// Opens the function in the bytes of its file, of version 1 or 2. Returns `OK` exactly if the bytes are a function, and the index has a place for
/// each of its buckets, if it is one by BRZ; `out` then holds it. Else returns the code of their first fault, with its offset in `place.at`, or
/// `NO_ROOM` with the number of places that the index needs, before the bytes after the header are read. Each byte is read once or twice, and
/// no memory is taken. The caller keeps the bytes and the index as long as `out` is used. If the bytes are refused, the index may have changed.
#[unsafe(no_mangle)]
pub extern "C" fn cmph_c_open<'a>(
    dump: &'a [u8],
    index: &'a mut [u64],
    out: &mut Function<'a>,
    place: &mut Place,
) -> u32
    ensures opened { result ≡ OK → IsOpened dump.now (length index.old) out.new }
    ensures refused { result ≢ OK → IsRefused dump.now (length index.old) result place.new }
    ensures kept { result ≢ OK → out.new ≡ out.old }
    ensures unplaced { result ≡ OK → place.new ≡ place.old }
{
    match open(dump, index) {
        Ok(lent) => {
            put(&lent, out);
            OK
        }
        Err(fault) => {
            let (code, at) = refusal_of(fault);
            *place = at_only(at);
            code
        }
    }
}
