//! What a pass over the keys shows of a 2-core.
ghost use Rattle.std.specs.Prelude.{◌≡◌, ◌<◌, ◌≤◌, ◌+◌, ℕ, List, [], length, All, is_some, Some, None, Ok, Err, true, if◌then◌else◌, IfOk, IfErr, OnOk, IsTrue};
ghost use Rattle.std.specs.List.Sorted.{IsStrictlyIncreasing};
ghost use Rattle.std.specs.Option.{ForSome};
ghost use Rattle.cm_io.specs.Passes.{HasKeyCause, GivesKey};
ghost use Rattle.cm_witness_gather.specs.Candidates.{FindsEqual, is_twice};
ghost use Rattle.cm_witness_gather.specs.Cores.{EqualKeysMeet, core_edge as core_edge_of, core_edges, keys_at};
ghost use Rattle.cm_io.specs.PassFaults.{FailsPass, HasOtherCount, HasPassCause, HasPassFailure, ReadsKeys};
ghost use Rattle.cm_witness_gather.specs.Gathers.{IsGathered, IsOf, ends_of, has_buckets, has_third};
ghost use Rattle.cm_witness_gather.specs.Noted.{AreNoted, TakesKey};
ghost use Rattle.cm_witness_gather.specs.Pairs.{pairs};

use crate::candidates::Candidates;
use crate::certificate::{Certificate, CoreEdge, GatherFault, InBucket};
use crate::firsts::EqualKeys;
use cm_algo_names::Algorithm;
use cm_graph_edges::Edges;
use cm_io::{KeyBuf, KeyFault, KeyPass, PassFault, expect_end};
use std::alloc::Global;

/// Passes the next key, and returns false at the end. A buffered key isn't copied. The buffer is scratch space.
#[inline(always)]
fn pass_next<P: KeyPass>(keys: &mut P, key: &mut KeyBuf) -> Result<bool, KeyFault>
    requires usable { IsTrue (P.usable keys.old) }
    ensures told { P.told keys.new ≡ P.told keys.old }
    ensures gives { ForSome (P.told keys.old) (λ told. (next : List ℕ) × GivesKey told (P.place keys.old) (P.place keys.new) (P.last keys.new) next result) }
    ensures cause { HasKeyCause (P.faults keys.old) (P.faults keys.new) result }
    ensures failed { IfErr result (λ fault. P.failure keys.new ≡ Some fault) }
    ensures counts { IfOk result (λ more. P.place keys.new ≡ P.place keys.old + (if more then 1 else 0)) }
    ensures usable { OnOk result (P.usable keys.new ≡ true) }
{
    let len = match keys.peek() {
        Some((_, next)) => next.len(),
        None => return keys.next(key),
    };
    keys.pass(len);
    Ok(true)
}

/// Passes the keys from place `from` up to `until`, of `m` in all. Fails as `Changed` if there are fewer. The buffer is scratch space.
fn pass_keys<P: KeyPass>(
    keys: &mut P,
    key: &mut KeyBuf,
    from: u32,
    until: u32,
    m: u32,
) -> Result<(), PassFault>
    requires usable { IsTrue (P.usable keys.old) }
    requires at { P.place keys.old ≡ from }
    requires within { (from ≤ until) × (until ≤ m) }
    ensures told { P.told keys.new ≡ P.told keys.old }
    ensures cause { HasPassCause (P.faults keys.old) (P.faults keys.new) result }
    ensures failed { IfErr result (HasPassFailure (P.failure keys.new)) }
    ensures usable { OnOk result (P.usable keys.new ≡ true) }
    ensures at { OnOk result (P.place keys.new ≡ until) }
    ensures changed { IfErr result (HasOtherCount m (P.place keys.new)) }
    ensures fault { IfErr result (λ fault. ForSome (P.told keys.old) (λ told. FailsPass told m fault)) }
{
    for count in from..until {
        if !pass_next(keys, key)? {
            return Err(PassFault::Changed {
                first: m,
                now: count,
            });
        }
    }
    Ok(())
}

/// Puts the next key into the buffer and returns its line. It is the key at place `e` of `m` in all. Fails as `Changed` if there is none.
pub fn read_key<P: KeyPass>(
    keys: &mut P,
    key: &mut KeyBuf,
    e: u32,
    m: u32,
) -> Result<u32, PassFault>
    requires usable { IsTrue (P.usable keys.old) }
    requires at { P.place keys.old ≡ e }
    requires within { e < m }
    ensures told { P.told keys.new ≡ P.told keys.old }
    ensures cause { HasPassCause (P.faults keys.old) (P.faults keys.new) result }
    ensures failed { IfErr result (HasPassFailure (P.failure keys.new)) }
    ensures usable { OnOk result (P.usable keys.new ≡ true) }
    ensures at { OnOk result (P.place keys.new ≡ e + 1) }
    ensures line { IfOk result (λ line. (P.last keys.new ≡ line) × (P.last keys.old < line)) }
    ensures gives { IfOk result (λ line. ForSome (P.told keys.old) (λ told. GivesKey told (P.place keys.old) (P.place keys.new) line key.new.items (Ok true))) }
    ensures changed { IfErr result (HasOtherCount m (P.place keys.new)) }
    ensures fault { IfErr result (λ fault. ForSome (P.told keys.old) (λ told. FailsPass told m fault)) }
{
    if !keys.next(key)? {
        return Err(PassFault::Changed { first: m, now: e });
    }
    Ok(keys.line())
}

/// Passes the next key, the one at place `e` of `m` in all, and returns its line. The buffer is scratch space.
fn pass_key<P: KeyPass>(keys: &mut P, key: &mut KeyBuf, e: u32, m: u32) -> Result<u32, PassFault>
    requires usable { IsTrue (P.usable keys.old) }
    requires at { P.place keys.old ≡ e }
    requires within { e < m }
    ensures told { P.told keys.new ≡ P.told keys.old }
    ensures cause { HasPassCause (P.faults keys.old) (P.faults keys.new) result }
    ensures failed { IfErr result (HasPassFailure (P.failure keys.new)) }
    ensures usable { OnOk result (P.usable keys.new ≡ true) }
    ensures at { OnOk result (P.place keys.new ≡ e + 1) }
    ensures gives { IfOk result (λ line. ForSome (P.told keys.old) (λ told. (next : List ℕ) × GivesKey told (P.place keys.old) (P.place keys.new) line next (Ok true))) }
    ensures changed { IfErr result (HasOtherCount m (P.place keys.new)) }
    ensures fault { IfErr result (λ fault. ForSome (P.told keys.old) (λ told. FailsPass told m fault)) }
{
    if !pass_next(keys, key)? {
        return Err(PassFault::Changed { first: m, now: e });
    }
    Ok(keys.line())
}

/// Passes the next key, the one at place `e` of `m` in all, and returns its line. A candidate is noted. The buffer is scratch space.
fn take_key<P: KeyPass>(
    alloc: Global,
    keys: &mut P,
    key: &mut KeyBuf,
    e: u32,
    m: u32,
    candidate: bool,
    equal: &mut EqualKeys,
) -> Result<u32, PassFault>
    requires usable { IsTrue (P.usable keys.old) }
    requires at { P.place keys.old ≡ e }
    requires within { e < m }
    ensures told { P.told keys.new ≡ P.told keys.old }
    ensures cause { HasPassCause (P.faults keys.old) (P.faults keys.new) result }
    ensures failed { IfErr result (HasPassFailure (P.failure keys.new)) }
    ensures usable { OnOk result (P.usable keys.new ≡ true) }
    ensures at { OnOk result (P.place keys.new ≡ e + 1) }
    ensures gives { IfOk result (λ line. ForSome (P.told keys.old) (λ told. TakesKey told.keys e line candidate equal.old.firsts equal.old.pairs.items equal.new.firsts equal.new.pairs.items)) }
    ensures changed { IfErr result (HasOtherCount m (P.place keys.new)) }
    ensures fault { IfErr result (λ fault. ForSome (P.told keys.old) (λ told. FailsPass told m fault)) }
{
    if !candidate {
        return pass_key(keys, key, e, m);
    }
    let line = read_key(keys, key, e, m)?;
    equal.note(alloc, line, key)?;
    Ok(line)
}

/// The edge of a key that stands in this line.
pub fn core_edge<const K: usize>(line: u32, ends: [u32; K]) -> CoreEdge
    requires width { (2 ≤ K) × (K ≤ 3) }
    ensures edge { (key : List ℕ) → result ≡ core_edge_of (line, key) ends.entry }
    ensures third { (algorithm : Algorithm) → K ≡ ends_of algorithm → is_some result.third ≡ has_third algorithm }
{
    CoreEdge {
        line,
        first: ends[0],
        second: ends[1],
        third: ends.get(2).copied(),
    }
}

/// Passes the keys from place `from` up to the last, which are to be `m` in all. Fails as `Changed` if there are fewer, or more. The
/// buffer is scratch space.
fn pass_to_end<P: KeyPass>(
    keys: &mut P,
    key: &mut KeyBuf,
    from: u32,
    m: u32,
) -> Result<(), PassFault>
    requires usable { IsTrue (P.usable keys.old) }
    requires at { P.place keys.old ≡ from }
    requires within { from ≤ m }
    ensures told { P.told keys.new ≡ P.told keys.old }
    ensures cause { HasPassCause (P.faults keys.old) (P.faults keys.new) result }
    ensures failed { IfErr result (HasPassFailure (P.failure keys.new)) }
    ensures given { OnOk result (P.place keys.new ≡ m) }
    ensures end { OnOk result (ForSome (P.told keys.old) (λ told. (length told.keys ≡ m) × (told.fault ≡ None))) }
    ensures changed { IfErr result (HasOtherCount m (P.place keys.new)) }
    ensures fault { IfErr result (λ fault. ForSome (P.told keys.old) (λ told. FailsPass told m fault)) }
{
    pass_keys(keys, key, from, m, m)?;
    expect_end(keys, key, m)?;
    Ok(())
}

/// The edges at the places `rest`, each with the line of its key, from one pass over all keys: one for each edge. The keys of candidates
/// are noted. Fails as `Changed` if there are fewer keys than edges, or more. The buffer is scratch space.
fn gather_edges<P: KeyPass, const K: usize>(
    alloc: Global,
    keys: &mut P,
    key: &mut KeyBuf,
    edges: &Edges<K>,
    rest: &[u32],
    candidates: &Candidates,
    equal: &mut EqualKeys,
) -> Result<Vec<CoreEdge>, PassFault>
    requires width { (2 ≤ K) × (K ≤ 3) }
    requires rising { IsStrictlyIncreasing rest.now }
    requires inside { All (λ e. e < length edges.now.edges) rest.now }
    requires equal_keys { ForSome (P.told keys.old) (λ told. EqualKeysMeet told.keys edges.now.edges) }
    requires finds { FindsEqual (is_twice candidates.now) edges.now.edges rest.now }
    requires none { AreNoted [] equal.old.firsts equal.old.pairs.items }
    ensures told { P.told keys.new ≡ P.told keys.old }
    ensures cause { HasPassCause (P.faults keys.old) (P.faults keys.new) result }
    ensures failed { IfErr result (HasPassFailure (P.failure keys.new)) }
    ensures count { IfOk result (λ core. length core.items ≡ length rest.now) }
    ensures third { (algorithm : Algorithm) → K ≡ ends_of algorithm → IfOk result (λ core. All (λ e. is_some e.third ≡ has_third algorithm) core.items) }
    ensures given { OnOk result (P.place keys.new ≡ length edges.now.edges) }
    ensures end { OnOk result (ForSome (P.told keys.old) (λ told. (length told.keys ≡ length edges.now.edges) × (told.fault ≡ None))) }
    ensures edges { IfOk result (λ core. ForSome (P.told keys.old) (λ told. core.items ≡ core_edges told.keys edges.now.edges rest.now)) }
    ensures equal { OnOk result (ForSome (P.told keys.old) (λ told. equal.new.pairs.items ≡ pairs (keys_at told.keys rest.now))) }
    ensures changed { IfErr result (HasOtherCount (length edges.now.edges) (P.place keys.new)) }
    ensures fault { IfErr result (λ fault. ForSome (P.told keys.old) (λ told. FailsPass told (length edges.now.edges) fault)) }
{
    let m = edges.len();
    let mut core = Vec::with_capacity(alloc, rest.len())?;
    keys.rewind()?;
    let mut given = 0;
    for e in rest {
        pass_keys(keys, key, given, *e, m)?;
        let ends = edges.ends(*e);
        let candidate = candidates.twice(ends);
        let line = take_key(alloc, keys, key, *e, m, candidate, equal)?;
        core.push_reserved(core_edge(line, ends));
        given = *e + 1;
    }
    pass_to_end(keys, key, given, m)?;
    Ok(core)
}

/// The certificate of the edges at the places `rest`, which are those of a 2-core, from one pass over all keys: one for each edge. Of
/// the keys at these places it keeps those that may equal another one there, equal ones once: those whose edge has the ends of another,
/// and few others. To find them, it takes 4 bytes an edge of the core; to find equal ones, 8 bytes for each of these keys, and 16 for
/// each that is kept. Fails as `Changed` if there are fewer keys than edges, or more.
pub fn gather<P: KeyPass, const K: usize>(
    alloc: Global,
    keys: &mut P,
    edges: &Edges<K>,
    rest: &[u32],
    algorithm: Algorithm,
    seed: u32,
    place: Option<InBucket>,
) -> Result<Certificate, GatherFault>
    requires ends { K ≡ ends_of algorithm }
    requires place { is_some place ≡ has_buckets algorithm }
    requires rising { IsStrictlyIncreasing rest.now }
    requires inside { All (λ e. e < length edges.now.edges) rest.now }
    requires equal_keys { ForSome (P.told keys.old) (λ told. EqualKeysMeet told.keys edges.now.edges) }
    ensures reads { ReadsKeys P.KeyPass keys.old keys.new (length edges.now.edges) result }
    ensures form { IfOk result (IsOf algorithm seed place rest.now) }
    ensures gathered { IfOk result (λ made. ForSome (P.told keys.old) (λ told. IsGathered told edges.now.edges rest.now made)) }
{
    let mut key = KeyBuf::new();
    gather_with(alloc, keys, &mut key, edges, rest, algorithm, seed, place)
}

/// `gather` with a buffer for its keys, which many calls may share: making one clears its 64 KiB.
pub fn gather_with<P: KeyPass, const K: usize>(
    alloc: Global,
    keys: &mut P,
    key: &mut KeyBuf,
    edges: &Edges<K>,
    rest: &[u32],
    algorithm: Algorithm,
    seed: u32,
    place: Option<InBucket>,
) -> Result<Certificate, GatherFault>
    requires ends { K ≡ ends_of algorithm }
    requires place { is_some place ≡ has_buckets algorithm }
    requires rising { IsStrictlyIncreasing rest.now }
    requires inside { All (λ e. e < length edges.now.edges) rest.now }
    requires equal_keys { ForSome (P.told keys.old) (λ told. EqualKeysMeet told.keys edges.now.edges) }
    ensures reads { ReadsKeys P.KeyPass keys.old keys.new (length edges.now.edges) result }
    ensures form { IfOk result (IsOf algorithm seed place rest.now) }
    ensures gathered { IfOk result (λ made. ForSome (P.told keys.old) (λ told. IsGathered told edges.now.edges rest.now made)) }
{
    let candidates = Candidates::among(alloc, edges, rest)?;
    let mut equal = EqualKeys::new(alloc, candidates.count(edges, rest))?;
    let core = gather_edges(alloc, keys, key, edges, rest, &candidates, &mut equal)?;
    Ok(Certificate {
        algorithm,
        seed,
        place,
        edges: core,
        equal: equal.pairs,
    })
}
