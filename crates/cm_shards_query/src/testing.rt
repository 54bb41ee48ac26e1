//! The numbers of lines, tested.
ghost use Rattle.std.specs.Prelude.{◌≡◌, ◌≤◌, ◌*◌, ℕ, Some, IsTrue, false, length};
ghost use Rattle.std.specs.Option.{ForSome};
ghost use Rattle.cm_keys.specs.Streams.{told_by};
ghost use Rattle.cm_shards_files.specs.Shards.{total_of};
ghost use Rattle.cm_shards_query.specs.Leaves.{EndsTest, HasLinesCause};
ghost use Rattle.cm_shards_query.specs.Marks.{is_marked};
ghost use Rattle.cm_shards_query.specs.Verdicts as verdicts;
ghost use Rattle.cm_shards_query.specs.Written.{numbers_of};

use crate::batch::Batch;
use crate::marks::Marks;
use crate::querying::stop_of_line;
use crate::stop::LinesStop;
use crate::verdict::Verdict;
use cm_io::{KeyBuf, Source};
use cm_keys::Lines;
use cm_shards_files::Shards;

/// What is wrong with a line of this number or none, which an earlier line has or not.
fn fault_by(line: u64, number: Option<u64>, repeated: bool) -> Option<Verdict>
    ensures fault { result ≡ verdicts.fault_by line number repeated }
{
    match number {
        None => Some(Verdict::Unknown { line }),
        Some(value) => {
            if repeated {
                return Some(Verdict::Repeated { line, value });
            }
            None
        }
    }
}

/// The verdict on lines of which none is at fault.
fn count_verdict(lines: u64, keys: u64) -> Verdict
    ensures verdict { result ≡ verdicts.count_verdict lines keys }
{
    if lines == keys {
        Verdict::Holds
    } else {
        Verdict::Count { lines, keys }
    }
}

/// Tests the lines of a source, of which none was yielded, up to the first at fault. There is a mark for each number, and none is marked.
/// Fails exactly if the lines do, and allocates no memory. Buffered lines are taken and looked up several at a time.
pub(crate) fn test_numbers<S: Source>(
    shards: &Shards,
    marks: &mut Marks,
    lines: &mut Lines<S>,
) -> Result<Verdict, LinesStop>
    requires usable { IsTrue lines.old.usable }
    requires start { lines.old.count ≡ 0 }
    requires room { total_of shards.now ≤ 64 * length marks.old }
    requires none { (v : ℕ) → is_marked marks.old (Some v) ≡ false }
    ensures cause { HasLinesCause lines.old.faults lines.new.faults 0 0 result }
    ensures ends { ForSome (told_by lines.old) (λ told. EndsTest (numbers_of shards.now) told result) }
{
    let mut room = KeyBuf::new();
    let mut batch = Batch::new();
    'lines: loop {
        match batch.refill(shards, lines, &mut room) {
            Ok(true) => {}
            Ok(false) => return Ok(count_verdict(lines.count(), shards.keys())),
            Err(fault) => return Err(stop_of_line(fault, lines.count())),
        }
        let number = batch.number();
        let repeated = marks.mark(number);
        match fault_by(batch.line(), number, repeated) {
            Some(verdict) => return Ok(verdict),
            None => {}
        }
        batch.pass();
    }
}
