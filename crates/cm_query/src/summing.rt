//! The sum of the answers of a function to the keys of a pass.
ghost use Rattle.std.specs.Prelude.{◌≡◌, IfOk, IfErr, IsTrue, Some};
ghost use Rattle.std.specs.Option.{ForSome};
ghost use Rattle.cm_io.specs.Passes.{HasKeyCause};
ghost use Rattle.cm_query_batch.specs.Stops.{StopsAt};
ghost use Rattle.cm_query.specs.Sums.{answer_sum};
ghost use Rattle.cm_query_batch.specs.declared.fault.QueryFault.TheVariants.{Key};

use cm_algo_scheme::Answers;
use cm_io::{KeyBuf, KeyFault, KeyPass, MAX_KEYS};
use cm_query_batch::Batch;

/// The sum of the answers of a function to the keys of a pass that stands at its start. A key without an answer counts 0. Buffered keys
/// are taken and looked up several at a time. Fails exactly if the pass does, and allocates no memory.
pub fn sum_answers<A: Answers, P: KeyPass>(function: &A, keys: &mut P) -> Result<u64, KeyFault>
    requires usable { IsTrue (P.usable keys.old) }
    requires start { P.place keys.old ≡ 0 }
    ensures told { P.told keys.new ≡ P.told keys.old }
    ensures cause { HasKeyCause (P.faults keys.old) (P.faults keys.new) result }
    ensures failed { IfErr result (λ fault. P.failure keys.new ≡ Some fault) }
    ensures sum { IfOk result (λ sum. ForSome (P.told keys.old) (λ told. sum ≡ answer_sum (A.answer_of function.now) told.keys)) }
    ensures fault { IfErr result (λ fault. ForSome (P.told keys.old) (λ told. StopsAt told (P.place keys.new) (Key fault))) }
{
    let mut key = KeyBuf::new();
    let mut batch = Batch::new();
    let mut sum = 0u64;
    for turn in 0..MAX_KEYS + 1 {
        match batch.refill(function, keys, &mut key) {
            Ok(true) => {}
            Ok(false) => return Ok(sum),
            Err(fault) => return Err(fault),
        }
        sum += u64::from(batch.answer().unwrap_or(0));
        batch.pass();
    }
    // A pass yields no more keys than `MAX_KEYS`.
    unreachable!()
}
