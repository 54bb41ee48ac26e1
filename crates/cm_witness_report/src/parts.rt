//! What each line of a report says.
ghost use Rattle.std.specs.Prelude.{◌≡◌, ◌++◌, codes};
ghost use Rattle.cm_algo_names.specs.Names.{name_of};
ghost use Rattle.cm_witness_report.specs.Fields.{Finds};
ghost use Rattle.cm_witness_report.specs.Parts.{bucket_head_at, edge_at, head_at, is_count as is_count_of, next_edge as next_edge_at, next_pair as next_pair_at, overfull_head_at, pair_at, plain_head_at, third_at};

use crate::fields::{ends, field};
use cm_spec::MAX_EDGES;
use cm_witness_gather::{Algorithm, CoreEdge, InBucket, Pair};

/// What the first line of a report says.
#[derive(Clone, Copy, Debug, PartialEq, Eq)]
pub enum Head {
    /// A 2-core with this number of edges.
    Core {
        algorithm: Algorithm,
        place: Option<InBucket>,
        seed: u32,
        count: u32,
    },
    /// An overfull bucket with this number of keys.
    Overfull {
        seed: u32,
        bucket: u32,
        count: u32,
    },
}

/// Whether there may be so many edges.
fn is_count(count: u32) -> bool
    ensures { result ≡ is_count_of count }
{
    0 < count && count <= MAX_EDGES
}

/// The first line of a report of an algorithm without buckets, which begins with this part.
#[tactic(auto, unfolding(crate::specs::Fields::field_at, crate::specs::Parts::plain_head_at))]
fn plain_head(algorithm: Algorithm, part: &[u8], text: &[u8]) -> Option<Head>
    requires part { part.now ≡ codes "core " ++ (name_of algorithm ++ codes " seed ") }
    ensures { result ≡ plain_head_at algorithm text.now }
{
    let (seed, text) = field(part, text)?;
    let (count, text) = field(b" edges ", text)?;
    if !ends(text) || !is_count(count) {
        return None;
    }
    Some(Head::Core {
        algorithm,
        place: None,
        seed,
        count,
    })
}

/// The first line of a report on a bucket.
#[tactic(auto, unfolding(crate::specs::Parts::bucket_head_at))]
fn bucket_head(text: &[u8]) -> Option<Head>
    ensures { result ≡ bucket_head_at text.now }
{
    let (split, text) = field(b"core brz split ", text)?;
    let (bucket, text) = field(b" bucket ", text)?;
    let (seed, text) = field(b" seed ", text)?;
    let (count, text) = field(b" edges ", text)?;
    if !ends(text) || !is_count(count) {
        return None;
    }
    Some(Head::Core {
        algorithm: Algorithm::Brz,
        place: Some(InBucket { split, bucket }),
        seed,
        count,
    })
}

/// The first line of a report on an overfull bucket.
#[tactic(auto, unfolding(crate::specs::Parts::overfull_head_at))]
fn overfull_head(text: &[u8]) -> Option<Head>
    ensures { result ≡ overfull_head_at text.now }
{
    let (seed, text) = field(b"overfull brz seed ", text)?;
    let (bucket, text) = field(b" bucket ", text)?;
    let (count, text) = field(b" keys ", text)?;
    if !ends(text) {
        return None;
    }
    Some(Head::Overfull {
        seed,
        bucket,
        count,
    })
}

/// The first line of a report.
pub(crate) fn first_line(text: &[u8]) -> Option<Head>
    ensures { result ≡ head_at text.now }
{
    if let Some(head) = plain_head(Algorithm::Chm, b"core chm seed ", text) {
        return Some(head);
    }
    if let Some(head) = plain_head(Algorithm::Bdz, b"core bdz seed ", text) {
        return Some(head);
    }
    if let Some(head) = plain_head(Algorithm::BdzPh, b"core bdz_ph seed ", text) {
        return Some(head);
    }
    if let Some(head) = bucket_head(text) {
        return Some(head);
    }
    overfull_head(text)
}

/// The third end of an edge, if it has one, and what follows it.
#[tactic(auto, unfolding(crate::specs::Parts::third_at))]
fn third_end(third: bool, text: &[u8]) -> Option<(Option<u32>, &[u8])>
    ensures { Finds (λ x. (x.0, x.1.now)) result (third_at third text.now) }
{
    if !third {
        return Some((None, text));
    }
    let (end, text) = field(b" ", text)?;
    Some((Some(end), text))
}

/// The line of an edge.
#[tactic(auto, unfolding(crate::specs::Parts::edge_at))]
fn edge_of(third: bool, text: &[u8]) -> Option<CoreEdge>
    ensures { result ≡ edge_at third text.now }
{
    let (line, text) = field(b"edge ", text)?;
    let (first, text) = field(b" ", text)?;
    let (second, text) = field(b" ", text)?;
    let (third, text) = third_end(third, text)?;
    if !ends(text) {
        return None;
    }
    Some(CoreEdge {
        line,
        first,
        second,
        third,
    })
}

/// The line of two equal keys.
#[tactic(auto, unfolding(crate::specs::Parts::pair_at))]
fn pair_of(text: &[u8]) -> Option<Pair>
    ensures { result ≡ pair_at text.now }
{
    let (first, text) = field(b"equal ", text)?;
    let (again, text) = field(b" ", text)?;
    if !ends(text) || first == 0 || again <= first {
        return None;
    }
    Some(Pair { first, again })
}

/// The line of the next edge, after one of the line `last`; its line leaves room for the lines of the edges that are left.
#[tactic(auto, unfolding(crate::specs::Parts::next_edge))]
pub(crate) fn next_edge(third: bool, last: u32, left: u32, text: &[u8]) -> Option<CoreEdge>
    ensures { result ≡ next_edge_at third last left text.now }
{
    let edge = edge_of(third, text)?;
    if edge.line <= last || edge.line > u32::MAX - left {
        return None;
    }
    Some(edge)
}

/// The line of the next pair, after one with the later line `last`.
#[tactic(auto, unfolding(crate::specs::Parts::next_pair))]
pub(crate) fn next_pair(last: u32, text: &[u8]) -> Option<Pair>
    ensures { result ≡ next_pair_at last text.now }
{
    let pair = pair_of(text)?;
    if pair.again <= last {
        return None;
    }
    Some(pair)
}
