//! The ranks of a function by BDZ, four bytes each, written and read in pieces.
ghost use Rattle.std.specs.Prelude.{◌≡◌, ◌≢◌, ◌+◌, ◌-◌, ◌*◌, ◌<◌, ◌≤◌, ◌^◌, Option, Err, MatchOption, OnOk, drop, length, slice_index, take};
ghost use Rattle.std.specs.Int.{to_le_bytes, w32};
ghost use Rattle.std.specs.Option.{ForSome};
ghost use Rattle.cm_dump_items.specs.Reading.{Answers, HasLoadCause, IsAt};
ghost use Rattle.cm_dump_items.specs.declared.fault.LoadFault.{LoadFault};
ghost use Rattle.cm_io.specs.Causes.{HasCause};
ghost use Rattle.cm_io.specs.Writing.{Writes};
ghost use Rattle.cm_dump.specs.Dumps.{ranks_image};
ghost use Rattle.cm_dump.specs.Parts.{AreRanks};
ghost use Rattle.cm_dump.specs.Spelling.{ranks_at};
ghost use Rattle.cm_rank.specs.Ranks.{rank_bytes};

use crate::LoadFault;
use arrayvec::ArrayVec;
use cm_dump_items::fill;
use cm_io::{Failed, Sink, Source};
use cm_rank::RankTable;

/// How many ranks are gathered before they are written: 4,096 bytes of them.
const PIECE: u32 = 1024;

/// How many ranks are read at a time: 16,384 bytes of them.
const CHUNK: u32 = 4096;

/// Gathers the ranks from number `from` up to number `until`.
#[tactic(auto, unfolding(crate::specs::Dumps::ranks_image))]
fn gather_ranks(ranks: &RankTable, from: u32, until: u32, piece: &mut ArrayVec<u8, 4096>)
    requires order { from ≤ until }
    requires room { until ≤ from + 1024 }
    requires inside { until ≤ length ranks.now.ranks }
    ensures piece { piece.new.items ≡ ranks_image (take (until - from) (drop from ranks.now.ranks)) }
{
    piece.clear();
    for i in from..until {
        // There is room for it.
        let _ = piece.try_extend_from_slice(&ranks.entry(i).to_le_bytes());
    }
}

/// Writes the ranks. Fails exactly if the sink does, which has then taken a prefix of them.
#[tactic(auto, unfolding(crate::specs::Dumps::ranks_image))]
pub(crate) fn save_ranks<O: Sink>(ranks: &RankTable, out: &mut O) -> Result<(), Failed>
    ensures bytes { Writes (O.state out.old).written (O.state out.new).written (ranks_image ranks.now.ranks) result }
    ensures cause { HasCause (O.state out.old).faults (O.state out.new).faults result }
{
    let entries = ranks.entries();
    let mut piece = ArrayVec::<u8, 4096>::new();
    let mut done = 0;
    'pieces: while done < entries {
        let until = done + PIECE.min(entries - done);
        gather_ranks(ranks, done, until, &mut piece);
        out.write(piece.as_slice())?;
        done = until;
    }
    Ok(())
}

/// The first of the `count` ranks in these bytes that differs from that of the table, counted from 0 here and from `from` on there.
fn first_wrong(part: &[u8], ranks: &RankTable, from: u32, count: u32) -> Option<u32>
    requires room { 4 * count ≤ length part.now }
    requires inside { from + count ≤ length ranks.now.ranks }
    requires some { length ranks.now.ranks < 2 ^ 32 }
    ensures first { MatchOption result (AreRanks part.now (drop from ranks.now.ranks) count) (λ i. (i < count) × AreRanks part.now (drop from ranks.now.ranks) i × (rank_bytes part.now i ≢ to_le_bytes w32 (slice_index (drop from ranks.now.ranks) i))) }
{
    for i in 0..count {
        let at = 4 * i as usize;
        let rank = ranks.entry(from + i).to_le_bytes();
        if part[at..at + 4] != rank[..] {
            return Some(i);
        }
    }
    None
}

/// Reads as many ranks as the buffer has room for, which are to be those of the table from number `from` on.
fn read_piece<S: Source>(
    source: &mut S,
    at: u64,
    ranks: &RankTable,
    from: u32,
    count: u32,
    part: &mut [u8],
) -> Result<(), LoadFault>
    requires room { at + 65536 < 2 ^ 62 }
    requires long { length part.old ≡ 4 * count }
    requires few { count ≤ 16384 }
    requires inside { from + count ≤ length ranks.now.ranks }
    requires some { length ranks.now.ranks < 2 ^ 32 }
    requires at { IsAt (S.told source.old) (S.place source.old) at }
    ensures told { S.told source.new ≡ S.told source.old }
    ensures at { OnOk result (IsAt (S.told source.new) (S.place source.new) (at + 4 * count)) }
    ensures exact { ForSome (S.told source.old) (λ bytes. Answers (λ x. x) result (ranks_at bytes at (take count (drop from ranks.now.ranks)))) }
    ensures cause { HasLoadCause (S.faults source.old) (S.faults source.new) result }
    ensures memory { result ≢ Err LoadFault.Memory }
{
    let got = match fill(source, at, part) {
        Ok(got) => got,
        Err(Failed) => return Err(LoadFault::Read),
    };
    match first_wrong(part, ranks, from, (got / 4) as u32) {
        Some(i) => Err(LoadFault::BadRank {
            at: at + 4 * i as u64,
        }),
        None => if got < part.len() {
            Err(LoadFault::Truncated {
                at: at + got as u64,
            })
        } else {
            Ok(())
        },
    }
}

/// Reads the ranks at this offset, which are to be those of the table.
pub(crate) fn read_ranks<S: Source>(
    source: &mut S,
    at: u64,
    ranks: &RankTable,
) -> Result<(), LoadFault>
    requires room { at < 2 ^ 60 }
    requires at { IsAt (S.told source.old) (S.place source.old) at }
    ensures told { S.told source.new ≡ S.told source.old }
    ensures at { OnOk result (IsAt (S.told source.new) (S.place source.new) (at + 4 * length ranks.now.ranks)) }
    ensures exact { ForSome (S.told source.old) (λ bytes. Answers (λ x. x) result (ranks_at bytes at ranks.now.ranks)) }
    ensures cause { HasLoadCause (S.faults source.old) (S.faults source.new) result }
    ensures memory { result ≢ Err LoadFault.Memory }
{
    let entries = ranks.entries();
    let mut buf = [0u8; 16_384];
    let mut done = 0;
    while done < entries {
        let count = (entries - done).min(CHUNK);
        let part = &mut buf[..4 * count as usize];
        match read_piece(source, at + 4 * done as u64, ranks, done, count, part) {
            Err(fault) => return Err(fault),
            Ok(()) => {}
        }
        done += count;
    }
    Ok(())
}
