//! The shards of keys.
ghost use Rattle.std.specs.Prelude.{◌≡◌, ◌≢◌};
ghost use Rattle.cmph_c.specs.Routing.{AreRouted, IsUnrouted};

use crate::codes::{BAD_SHARDS, NO_ROOM, OK, Place, at_only, ends_code_of};
use cm_keys_lent::LentKeys;
use cm_lib_lent::{Route, answers_into};
use cm_spec::MAX_VERTICES;

/// Which of some shards each of many keys is in: the third hash value of lookup2 (Jenkins 1997) under a seed, modulo the number of shards,
/// which is from 1 to 671,088,645. The keys stand one after another in `keys`, each up to its end. Shard `i` is that of key `i`; those past the
/// last key's stay as they were. Returns `OK`, or `BAD_SHARDS`, `BAD_END` with the first key whose end is wrong, `TOO_MANY_KEYS`, or `NO_ROOM` with
/// the number of keys, and then no shard is put.
#[unsafe(no_mangle)]
pub extern "C" fn cmph_c_route(
    keys: &[u8],
    ends: &[u64],
    seed: u32,
    shards: u32,
    out: &mut [u32],
    place: &mut Place,
) -> u32
    ensures routed { result ≡ OK → AreRouted keys.now ends.now seed shards out.old out.new }
    ensures refused { result ≢ OK → IsUnrouted keys.now ends.now shards out.old result place.new }
    ensures kept { result ≢ OK → out.new ≡ out.old }
    ensures unplaced { result ≡ OK → place.new ≡ place.old }
{
    if shards == 0 || shards > MAX_VERTICES {
        *place = at_only(0);
        return BAD_SHARDS;
    }
    let pass = match LentKeys::new(keys, ends) {
        Ok(pass) => pass,
        Err(fault) => {
            let (code, at) = ends_code_of(fault);
            *place = at_only(at);
            return code;
        }
    };
    if out.len() < pass.count() {
        *place = at_only(pass.count() as u64);
        return NO_ROOM;
    }
    answers_into(&Route::new(seed, shards), &pass, out);
    OK
}
