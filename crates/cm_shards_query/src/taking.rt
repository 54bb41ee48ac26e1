//! Lines that are taken together.
ghost use Rattle.std.specs.Prelude.{◌≡◌, ◌<◌, ◌≤◌, ◌+◌, ◌++◌, ℕ, List, [], ◌∷◌, length, drop, true, false, Ok, Err, OnOk, OnErr, IsTrue};
ghost use Rattle.std.specs.Option.{ForSome};
ghost use Rattle.cm_keys.specs.Streams.{HasLineCause, IsBuffered, told_by};
ghost use Rattle.cm_keys.specs.declared.lines.LineFault.TheVariants as line_fault;
ghost use Rattle.cm_keys.specs.declared.lines.TheConstants.{MAX_LINES};
ghost use Rattle.cm_shards_files.specs.Shards.{HasRoom};
ghost use Rattle.cm_shards_files.specs.declared.taken.TheConstants.{MOST_KEYS};
ghost use Rattle.cm_shards_query.specs.Taking.{FillsLines, HasTaken};

use cm_io::{KeyBuf, Source};
use cm_keys::{LineFault, Lines};
use cm_shards_files::ShardKeys;

/// Takes the next line, if it is buffered. If it isn't, nothing changes. Runs for each line, so it is inlined into each caller.
#[inline(always)]
fn take_next<S: Source>(keys: &mut ShardKeys, lines: &mut Lines<S>) -> bool
    requires usable { IsTrue lines.old.usable }
    requires room { HasRoom keys.old }
    ensures told { told_by lines.new ≡ told_by lines.old }
    ensures cause { lines.new.faults ≡ lines.old.faults }
    ensures usable { lines.new.usable ≡ true }
    ensures longer { result ≡ true → length keys.new ≡ length keys.old + 1 }
    ensures takes { result ≡ true → (before : ℕ) → HasTaken before keys.old lines.old → HasTaken before keys.new lines.new }
    ensures unchanged { result ≡ false → (keys.new ≡ keys.old) × (lines.new ≡ lines.old) }
    ensures buffered { (key : List ℕ) → IsBuffered lines.old key → result ≡ true }
{
    let key = match lines.peek() {
        Some(key) => key,
        None => return false,
    };
    let len = key.len();
    keys.add(key);
    lines.pass(len);
    true
}

/// Takes the first line: the next if it is buffered, or else the one that is read. Returns false if there is none, and fails if the lines
/// do. It does neither if a line is buffered.
pub(crate) fn take_first<S: Source>(
    keys: &mut ShardKeys,
    lines: &mut Lines<S>,
    key: &mut KeyBuf,
) -> Result<bool, LineFault>
    requires usable { IsTrue lines.old.usable }
    requires none { keys.old ≡ [] }
    ensures told { told_by lines.new ≡ told_by lines.old }
    ensures cause { HasLineCause lines.old.faults lines.new.faults result }
    ensures usable { OnOk result (lines.new.usable ≡ true) }
    ensures fills { FillsLines lines.old lines.new keys.new result }
    ensures long { result ≡ Err line_fault.TooLong → lines.new.count < MAX_LINES }
    ensures buffered { (key : List ℕ) → IsBuffered lines.old key → result ≡ Ok true }
{
    if take_next(keys, lines) {
        return Ok(true);
    }
    match lines.next(key) {
        Ok(true) => {
            keys.add(key);
            Ok(true)
        }
        Ok(false) => Ok(false),
        Err(fault) => Err(fault),
    }
}

/// Takes further lines that are buffered, as long as there is room.
pub(crate) fn gather<S: Source>(keys: &mut ShardKeys, lines: &mut Lines<S>)
    requires usable { IsTrue lines.old.usable }
    ensures told { told_by lines.new ≡ told_by lines.old }
    ensures cause { lines.new.faults ≡ lines.old.faults }
    ensures usable { lines.new.usable ≡ true }
    ensures some { length keys.old ≤ length keys.new }
    ensures takes { (before : ℕ) → HasTaken before keys.old lines.old → HasTaken before keys.new lines.new }
{
    'more: while keys.has_room() {
        if !take_next(keys, lines) {
            return;
        }
    }
}
