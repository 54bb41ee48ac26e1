//! Passes over keys.
ghost use Rattle.std.specs.Prelude.{◌≡◌, ◌≢◌, ℕ, ◌+◌, ◌*◌, ◌<◌, ◌≤◌, [], ◌∷◌, List, length, map, vec_len, vec_capacity, IfOk, IfErr, IfSome, IfNone, IsTrue, OnOk, ◌++◌, None, Some, Ok, Err, true, false, ◌⊎◌};
ghost use Rattle.std.specs.Option.{ForSome};
ghost use Rattle.cm_io.specs.Passes.{HasKeyCause, GivesFour};
ghost use Rattle.cm_spec.specs.Built.{edge_of, tag_of};
ghost use Rattle.cm_spec.specs.Lookup2.{words as words_of};
ghost use Rattle.cm_spec.specs.Rule.{IsSize};
ghost use Rattle.cm_io.specs.PassFaults.{FailsPass, HasOtherCount, HasPassCause, HasPassFailure};
ghost use Rattle.cm_io.specs.declared.pass_fault.PassFault.TheVariants as pass_fault;
ghost use Rattle.cm_io.specs.Passes.{IsToldFault};
ghost use Rattle.cm_spec.specs.declared.limits.TheConstants.{MAX_KEYS};
ghost use Rattle.cm_algo_seeds.specs.Hashed.{GivesWords};

use cm_algo_scheme::{Divisor, Scheme};
use cm_graph_edges::Edges;
use cm_io::{KeyBuf, KeyFault, KeyPass, MAX_KEYS, PassFault, expect_end};
use cm_lookup2::words;

/// How many keys there are, from 0 to `MAX_KEYS`: the keys are passed once from the start. The buffer is scratch space. Fails exactly
/// as the pass does.
pub fn count_all<P: KeyPass>(keys: &mut P, key: &mut KeyBuf) -> Result<u32, KeyFault>
    ensures told { P.told keys.new ≡ P.told keys.old }
    ensures cause { HasKeyCause (P.faults keys.old) (P.faults keys.new) result }
    ensures failed { IfErr result (λ fault. P.failure keys.new ≡ Some fault) }
    ensures few { IfOk result (λ n. n ≤ MAX_KEYS) }
    ensures given { IfOk result (λ n. P.place keys.new ≡ n) }
    ensures at_end { OnOk result (P.at_end keys.new) }
    ensures gave { IfOk result (λ n. (passed : List (ℕ × List ℕ)) × P.gave keys.new passed × (length passed ≡ n)) }
    ensures all { IfOk result (λ n. ForSome (P.told keys.old) (λ told. (length told.keys ≡ n) × (told.fault ≡ None))) }
    ensures fault { IfErr result (λ e. ForSome (P.told keys.old) (λ told. IsToldFault told e)) }
{
    keys.rewind()?;
    let mut count = 0;
    // Each turn except the last passes at least one key.
    for turn in 0..MAX_KEYS + 1 {
        count += keys.skip();
        if !keys.next(key)? {
            return Ok(count);
        }
        count += 1;
    }
    unreachable!()
}

/// The hash values of the next key under a seed, or none at the end. The buffer is scratch space.
#[inline(never)]
fn read_words<P: KeyPass>(
    keys: &mut P,
    key: &mut KeyBuf,
    seed: u32,
) -> Result<Option<[u32; 3]>, KeyFault>
    requires usable { IsTrue (P.usable keys.old) }
    ensures told { P.told keys.new ≡ P.told keys.old }
    ensures gives { ForSome (P.told keys.old) (λ told. GivesWords told (P.place keys.old) (P.place keys.new) seed result) }
    ensures cause { HasKeyCause (P.faults keys.old) (P.faults keys.new) result }
    ensures failed { IfErr result (λ fault. P.failure keys.new ≡ Some fault) }
    ensures counts { IfOk result (λ o. IfSome o (λ _. P.place keys.new ≡ P.place keys.old + 1)) }
    ensures ended { IfOk result (λ o. IfNone o (P.place keys.new ≡ P.place keys.old)) }
    ensures usable { OnOk result (P.usable keys.new ≡ true) }
{
    match keys.next(key) {
        Ok(true) => Ok(Some(words(key.as_slice(), seed))),
        Ok(false) => Ok(None),
        Err(fault) => Err(fault),
    }
}

/// Adds the edge of a key by its hash values, and its tag if tags are kept. There is room for both.
#[inline(always)]
fn add_key<S: Scheme<K>, const K: usize>(
    scheme: &S,
    divisor: &Divisor,
    hashed: [u32; 3],
    edges: &mut Edges<K>,
    tags: &mut Vec<u32>,
)
    requires room { length edges.old.edges < edges.old.room }
    requires tag_room { S.KEEPS_TAGS ≡ true → vec_len tags.old < vec_capacity tags.old }
    requires size { IsSize (S.rule scheme.now) edges.old.vertices }
    requires divisor { divisor.now ≡ S.divisor_of scheme.now edges.old.vertices }
    ensures edges { edges.new ≡ record edges.old { edges = edges.old.edges ++ (S.rule scheme.now).edge hashed edges.old.vertices ∷ [] } }
    ensures tags { S.KEEPS_TAGS ≡ true → tags.new.items ≡ tags.old.items ++ (S.rule scheme.now).tag hashed ∷ [] }
    ensures untagged { S.KEEPS_TAGS ≡ false → tags.new.items ≡ tags.old.items }
    ensures tag_count { S.KEEPS_TAGS ≡ true → vec_len tags.new ≡ vec_len tags.old + 1 }
    ensures capacity { vec_capacity tags.new ≡ vec_capacity tags.old }
{
    edges.push_reserved(scheme.edge(hashed, edges.vertices(), divisor));
    if S::KEEPS_TAGS {
        tags.push_reserved(scheme.tag(hashed));
    }
}

/// Adds the edges of keys by their hash values, in order, and their tags if tags are kept. There is room for all.
#[inline(always)]
fn add_keys<S: Scheme<K>, const K: usize>(
    scheme: &S,
    divisor: &Divisor,
    all: &[[u32; 3]],
    edges: &mut Edges<K>,
    tags: &mut Vec<u32>,
)
    requires room { length edges.old.edges + length all.now ≤ edges.old.room }
    requires tag_room { S.KEEPS_TAGS ≡ true → vec_len tags.old + length all.now ≤ vec_capacity tags.old }
    requires size { IsSize (S.rule scheme.now) edges.old.vertices }
    requires divisor { divisor.now ≡ S.divisor_of scheme.now edges.old.vertices }
    ensures edges { edges.new ≡ record edges.old { edges = edges.old.edges ++ map (λ hashed. (S.rule scheme.now).edge hashed edges.old.vertices) all.now } }
    ensures tags { S.KEEPS_TAGS ≡ true → tags.new.items ≡ tags.old.items ++ map (S.rule scheme.now).tag all.now }
    ensures untagged { S.KEEPS_TAGS ≡ false → tags.new.items ≡ tags.old.items }
    ensures tag_count { S.KEEPS_TAGS ≡ true → vec_len tags.new ≡ vec_len tags.old + length all.now }
    ensures capacity { vec_capacity tags.new ≡ vec_capacity tags.old }
{
    for hashed in all {
        add_key(scheme, divisor, *hashed, edges, tags);
    }
}

/// Passes the next four keys, if they are buffered and at least four are left, and returns their hash values under a seed.
#[inline(always)]
fn four_at_hand<P: KeyPass>(keys: &mut P, left: u32, seed: u32) -> Option<[[u32; 3]; 4]>
    requires usable { IsTrue (P.usable keys.old) }
    ensures told { P.told keys.new ≡ P.told keys.old }
    ensures gives { IfSome result (λ four. ForSome (P.told keys.old) (λ told. GivesFour told (P.place keys.old) seed four)) }
    ensures four { IfSome result (λ four. (length four ≡ 4) × (4 ≤ left)) }
    ensures cause { P.faults keys.new ≡ P.faults keys.old }
    ensures counts { IfSome result (λ _. P.place keys.new ≡ P.place keys.old + 4) }
    ensures usable { P.usable keys.new ≡ true }
    ensures unchanged { IfNone result (keys.new ≡ keys.old) }
    ensures none { IfNone result ((left < 4) ⊎ P.lacks_four keys.old) }
{
    if left < 4 {
        return None;
    }
    keys.hash_four(seed)
}

/// The hash values of the next key under a seed, with its length, if it is buffered. Those that the pass keeps are not computed
/// again.
#[inline(always)]
fn words_at_hand<P: KeyPass>(keys: &P, seed: u32) -> Option<([u32; 3], usize)>
    requires usable { IsTrue (P.usable keys.now) }
    ensures words { IfSome result (λ h. (key : List ℕ) × P.stands keys.now key × (length key ≡ h.1) × (h.0 ≡ words_of key seed)) }
{
    let key = match keys.peek() {
        Some((_, key)) => key,
        None => return None,
    };
    let hashed = match keys.hashed(seed) {
        Some(hashed) => hashed,
        None => words(key, seed),
    };
    Some((hashed, key.len()))
}

/// Hashes the next key in place, if it is buffered, and adds its edge under a seed, and its tag if tags are kept. If it isn't, nothing
/// changes. There is room for both.
#[inline(always)]
fn add_at_hand<S: Scheme<K>, P: KeyPass, const K: usize>(
    scheme: &S,
    divisor: &Divisor,
    keys: &mut P,
    seed: u32,
    edges: &mut Edges<K>,
    tags: &mut Vec<u32>,
) -> bool
    requires usable { IsTrue (P.usable keys.old) }
    requires room { length edges.old.edges < edges.old.room }
    requires tag_room { S.KEEPS_TAGS ≡ true → vec_len tags.old < vec_capacity tags.old }
    requires size { IsSize (S.rule scheme.now) edges.old.vertices }
    requires divisor { divisor.now ≡ S.divisor_of scheme.now edges.old.vertices }
    ensures told { P.told keys.new ≡ P.told keys.old }
    ensures cause { P.faults keys.new ≡ P.faults keys.old }
    ensures usable { P.usable keys.new ≡ true }
    ensures unchanged { result ≡ false → (keys.new ≡ keys.old) × (edges.new ≡ edges.old) × (tags.new ≡ tags.old) }
    ensures counts { result ≡ true → P.place keys.new ≡ P.place keys.old + 1 }
    ensures untagged { S.KEEPS_TAGS ≡ false → tags.new.items ≡ tags.old.items }
    ensures tag_count { result ≡ true → S.KEEPS_TAGS ≡ true → vec_len tags.new ≡ vec_len tags.old + 1 }
    ensures capacity { vec_capacity tags.new ≡ vec_capacity tags.old }
    ensures adds { result ≡ true → (hashed : List ℕ)
        × (edges.new ≡ record edges.old { edges = edges.old.edges ++ (S.rule scheme.now).edge hashed edges.old.vertices ∷ [] })
        × (S.KEEPS_TAGS ≡ true → tags.new.items ≡ tags.old.items ++ (S.rule scheme.now).tag hashed ∷ [])
        × ForSome (P.told keys.old) (λ told. GivesWords told (P.place keys.old) (P.place keys.new) seed (Ok (Some hashed))) }
{
    let (hashed, len) = match words_at_hand(keys, seed) {
        Some(next) => next,
        None => return false,
    };
    keys.pass(len);
    add_key(scheme, divisor, hashed, edges, tags);
    true
}

/// The edges of the keys, which are to be `m`, and their tags if tags are kept. There is room for all of them, so no memory is taken.
/// The buffer is scratch space.
pub(crate) fn hash_all<S: Scheme<K>, P: KeyPass, const K: usize>(
    scheme: &S,
    keys: &mut P,
    key: &mut KeyBuf,
    m: u32,
    seed: u32,
    edges: &mut Edges<K>,
    tags: &mut Vec<u32>,
) -> Result<(), PassFault>
    requires few { m ≤ MAX_KEYS }
    requires room { m ≤ edges.old.room }
    requires tag_room { S.KEEPS_TAGS ≡ true → m ≤ vec_capacity tags.old }
    requires size { IsSize (S.rule scheme.now) edges.old.vertices }
    requires none { (edges.old.edges ≡ []) × (tags.old.items ≡ []) }
    ensures told { P.told keys.new ≡ P.told keys.old }
    ensures cause { HasPassCause (P.faults keys.old) (P.faults keys.new) result }
    ensures failed { IfErr result (HasPassFailure (P.failure keys.new)) }
    ensures given { OnOk result (P.place keys.new ≡ m) }
    ensures at_end { OnOk result (P.at_end keys.new) }
    ensures vertices { edges.new.vertices ≡ edges.old.vertices }
    ensures long { OnOk result (length edges.new.edges ≡ m) }
    ensures tags_long { OnOk result (S.KEEPS_TAGS ≡ true → length tags.new.items ≡ m) }
    ensures edges { OnOk result (ForSome (P.told keys.old) (λ told. edges.new.edges ≡ map (edge_of (S.rule scheme.now) edges.old.vertices seed) told.keys)) }
    ensures tags { OnOk result (S.KEEPS_TAGS ≡ true → ForSome (P.told keys.old) (λ told. tags.new.items ≡ map (tag_of (S.rule scheme.now) seed) told.keys)) }
    ensures untagged { S.KEEPS_TAGS ≡ false → tags.new.items ≡ [] }
    ensures memory { result ≢ Err pass_fault.Memory }
    ensures changed { IfErr result (HasOtherCount m (P.place keys.new)) }
    ensures fault { IfErr result (λ e. ForSome (P.told keys.old) (λ told. FailsPass told m e)) }
{
    keys.rewind()?;
    let divisor = scheme.divisor(edges.vertices());
    let mut count = 0;
    'more: while count < m {
        if let Some(four) = four_at_hand(keys, m - count, seed) {
            add_keys(scheme, &divisor, &four, edges, tags);
            count += 4;
            continue;
        }
        if add_at_hand(scheme, &divisor, keys, seed, edges, tags) {
            count += 1;
            continue;
        }
        match read_words(keys, key, seed) {
            Ok(Some(hashed)) => add_key(scheme, &divisor, hashed, edges, tags),
            Ok(None) => {
                return Err(PassFault::Changed {
                    first: m,
                    now: count,
                });
            }
            Err(fault) => return Err(PassFault::Key(fault)),
        }
        count += 1;
    }
    expect_end(keys, key, m)?;
    Ok(())
}
