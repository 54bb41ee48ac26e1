//! A source with a buffer.
ghost use Rattle.std.specs.Prelude.{◌≡◌, ◌<◌, ◌≤◌, ◌++◌, ◌+◌, ℕ, List, [], ◌∷◌, true, false, Ok, IfOk, IfSome, IfNone, OnOk, length, slice_index, drop};
ghost use Rattle.std.specs.Int.{bit_at};
ghost use Rattle.std.specs.Option.{ForSome, option_map};
ghost use Rattle.cm_io.specs.Causes.{HasCause};
ghost use Rattle.memchr.specs.Find.{IsFirstByte, is_byte};
ghost use Rattle.cm_keys.specs.Buffering.{ready_in, left_bytes, BeginsWith, HasFewer, HasNoEnd, MarksEnds, TakesLines, TakesPart, ReadsLine, line_rule};
ghost use Rattle.cm_keys.specs.declared.buffered.TheConstants.{ROOM};

use cm_io::{Failed, KeyBuf, MAX_KEY_LEN, Source};
use memchr::{memchr, memchr_iter, memrchr};
use std::simd::prelude::*;

/// The size of the buffer in bytes.
pub const ROOM: usize = 65_536;

/// What a key took of the buffered bytes.
pub enum Part {
    /// All up to the end of its line.
    Whole,
    /// All of them.
    More,
    /// Not all of its line: the key would be too long.
    Long,
}

/// What was read.
pub enum Line {
    /// A line that isn't longer than the longest key.
    Key,
    /// The end, with no byte of a further line.
    End,
    /// More bytes than the longest key has, of a line whose end wasn't found yet.
    TooLong,
}

/// A source whose bytes are read into a buffer.
pub struct Buffered<S: Source> {
    pub source: S,
    /// The bytes from `start` to `until` are buffered.
    pub buf: [u8; ROOM],
    pub start: usize,
    pub until: usize,
    /// The source has come to its end.
    pub ended: bool,
    ghost in_order: { start ≤ until },
    ghost in_buf: { until ≤ ROOM },
    ghost size: { length buf ≡ ROOM },
    ghost none_waits: { ended ≡ true → start ≡ until },
    ghost none_left: { ended ≡ true → ForSome (S.told source) (λ bytes. drop (S.place source) bytes ≡ []) },
}

impl<S: Source> Buffered<S> {
    pub fn new(source: S) -> Buffered<S>
        ensures source { result.source ≡ source }
        ensures ready { ready_in result.buf result.start result.until ≡ [] }
        ensures ended { result.ended ≡ false }
    {
        Buffered {
            source,
            buf: [0; ROOM],
            start: 0,
            until: 0,
            ended: false,
        }
    }

    pub fn into_source(self) -> S
        ensures source { result ≡ self.source }
    {
        let Buffered {
            source,
            buf: _,
            start: _,
            until: _,
            ended: _,
        } = self;
        source
    }

    pub fn rewind(&mut self) -> Result<(), Failed>
        ensures told { S.told self.new.source ≡ S.told self.old.source }
        ensures start { OnOk result (S.place self.new.source ≡ 0) }
        ensures ready { ready_in self.new.buf self.new.start self.new.until ≡ [] }
        ensures ended { self.new.ended ≡ false }
        ensures cause { HasCause (S.faults self.old.source) (S.faults self.new.source) result }
    {
        self.start = 0;
        self.until = 0;
        self.ended = false;
        self.source.rewind()
    }

    /// Whether a byte is left. If so, one is buffered.
    pub fn has_more(&mut self) -> Result<bool, Failed>
        ensures told { S.told self.new.source ≡ S.told self.old.source }
        ensures left { OnOk result (left_bytes (S.told self.new.source) (S.place self.new.source)
            (ready_in self.new.buf self.new.start self.new.until)
            ≡ left_bytes (S.told self.old.source) (S.place self.old.source)
            (ready_in self.old.buf self.old.start self.old.until)) }
        ensures more { IfOk result (λ more. more ≡ true → self.new.start < self.new.until) }
        ensures none { IfOk result (λ more. more ≡ false → (ready_in self.new.buf self.new.start self.new.until ≡ [])
            × ForSome (S.told self.new.source) (λ bytes. drop (S.place self.new.source) bytes ≡ [])) }
        ensures ended { IfOk result (λ more. more ≡ false → self.new.ended ≡ true) }
        ensures stays { self.old.ended ≡ true → result ≡ Ok false }
        ensures cause { HasCause (S.faults self.old.source) (S.faults self.new.source) result }
    {
        if self.start < self.until {
            return Ok(true);
        }
        if self.ended {
            return Ok(false);
        }
        self.start = 0;
        self.until = 0;
        let n = self.source.read(&mut self.buf)?;
        self.until = n;
        self.ended = n == 0;
        Ok(n > 0)
    }

    /// Appends the buffered bytes of a line to its key.
    fn take_part(&mut self, end: u8, key: &mut KeyBuf) -> Part
        requires waits { self.old.start < self.old.until }
        ensures source { self.new.source ≡ self.old.source }
        ensures takes { TakesPart (line_rule MAX_KEY_LEN end) (ready_in self.old.buf self.old.start self.old.until) (ready_in self.new.buf self.new.start self.new.until) key.old.items key.new.items result }
    {
        let ready = &self.buf[self.start..self.until];
        match memchr(end, ready) {
            Some(n) => {
                if !put(key, &ready[..n]) {
                    return Part::Long;
                }
                self.start += n + 1;
                Part::Whole
            }
            None => {
                if !put(key, ready) {
                    return Part::Long;
                }
                self.start = self.until;
                Part::More
            }
        }
    }

    /// Reads a line into the key, without its end.
    pub fn read_line(&mut self, end: u8, key: &mut KeyBuf) -> Result<Line, Failed>
        ensures told { S.told self.new.source ≡ S.told self.old.source }
        ensures line { ReadsLine (line_rule MAX_KEY_LEN end) (left_bytes (S.told self.old.source) (S.place self.old.source)
            (ready_in self.old.buf self.old.start self.old.until)) (left_bytes (S.told self.new.source) (S.place self.new.source)
            (ready_in self.new.buf self.new.start self.new.until)) key.new.items result }
        ensures ended { IfOk result (λ line. line ≡ Line.End → self.new.ended ≡ true) }
        ensures stays { self.old.ended ≡ true → result ≡ Ok Line.End }
        ensures cause { HasCause (S.faults self.old.source) (S.faults self.new.source) result }
    {
        key.clear();
        // Each part except the last has at least one byte.
        for _ in 0..MAX_KEY_LEN + 1 {
            if !self.has_more()? {
                if key.is_empty() {
                    return Ok(Line::End);
                }
                return Ok(Line::Key);
            }
            match self.take_part(end, key) {
                Part::Whole => return Ok(Line::Key),
                Part::Long => return Ok(Line::TooLong),
                Part::More => {}
            }
        }
        unreachable!()
    }

    /// The next line, without its end, if the whole line is in the buffer with its end.
    pub fn peek_line(&self, end: u8) -> Option<&[u8]>
        ensures line { IfSome result (λ line. (left : List ℕ)
            × TakesPart (line_rule MAX_KEY_LEN end) (ready_in self.now.buf self.now.start self.now.until) left [] line.now Part.Whole) }
        ensures none { IfNone result (HasNoEnd end (ready_in self.now.buf self.now.start self.now.until)) }
    {
        match first_line(end, &self.buf[self.start..self.until], 0) {
            Some((line, _, _)) => Some(line),
            None => None,
        }
    }

    /// The next four lines, without their ends, if all of them are in the buffer with their ends.
    #[inline(always)]
    pub fn peek_four(&self, end: u8) -> Option<(&[u8], &[u8], &[u8], &[u8])>
        ensures lines { IfSome result (λ four. BeginsWith (line_rule MAX_KEY_LEN end) (ready_in self.now.buf self.now.start self.now.until) (four.0.now ∷ four.1.now ∷ four.2.now ∷ four.3.now ∷ [])) }
        ensures none { IfNone result (HasFewer (line_rule MAX_KEY_LEN end) 4 (ready_in self.now.buf self.now.start self.now.until)) }
    {
        let ready = &self.buf[self.start..self.until];
        let marks = mark_ends(end, ready);
        let (p, ready, marks) = match first_line(end, ready, marks) {
            Some(split) => split,
            None => return None,
        };
        let (q, ready, marks) = match first_line(end, ready, marks) {
            Some(split) => split,
            None => return None,
        };
        let (r, ready, marks) = match first_line(end, ready, marks) {
            Some(split) => split,
            None => return None,
        };
        match first_line(end, ready, marks) {
            Some((t, _, _)) => Some((p, q, r, t)),
            None => None,
        }
    }

    /// Passes a line of `len` bytes, with its end. The whole line is in the buffer.
    pub fn pass_line(&mut self, len: usize)
        requires waits { len < length (ready_in self.old.buf self.old.start self.old.until) }
        ensures source { self.new.source ≡ self.old.source }
        ensures ended { self.new.ended ≡ self.old.ended }
        ensures ready { ready_in self.new.buf self.new.start self.new.until ≡ drop (len + 1) (ready_in self.old.buf self.old.start self.old.until) }
    {
        self.start += len + 1;
    }

    /// Passes all whole lines in the buffer, with their ends, and returns how many.
    pub fn skip_lines(&mut self, end: u8) -> u32
        ensures source { self.new.source ≡ self.old.source }
        ensures ended { self.new.ended ≡ self.old.ended }
        ensures lines { TakesLines (line_rule MAX_KEY_LEN end) (ready_in self.old.buf self.old.start self.old.until) (ready_in self.new.buf self.new.start self.new.until) result }
        ensures all { HasNoEnd end (ready_in self.new.buf self.new.start self.new.until) }
        ensures few { result ≤ ROOM }
        ensures unchanged { result ≡ 0 → self.new ≡ self.old }
    {
        let ready = &self.buf[self.start..self.until];
        let last = match memrchr(end, ready) {
            Some(last) => last,
            None => return 0,
        };
        let count = memchr_iter(end, ready).count();
        self.start += last + 1;
        count as u32
    }
}

/// The first place of a byte. The search of an iterator begins with the next few bytes, where a line mostly ends.
#[inline(never)]
fn near_end(end: u8, bytes: &[u8]) -> Option<usize>
    ensures { IsFirstByte (is_byte end) bytes.now result }
{
    memchr_iter(end, bytes).next()
}

/// Which of the first 64 bytes end a line, a bit for each. None is set if there are fewer bytes.
#[inline(always)]
fn mark_ends(end: u8, bytes: &[u8]) -> u64
    ensures marks { MarksEnds end bytes.now result }
    ensures all { 64 ≤ length bytes.now → (i : ℕ) → i < 64 → slice_index bytes.now i ≡ end → bit_at result i ≡ 1 }
{
    if bytes.len() < 64 {
        return 0;
    }
    u8x64::from_slice(bytes)
        .simd_eq(u8x64::splat(end))
        .to_bitmask()
}

/// The place of the first end of a line, and the marks of the bytes after it. If there are marks, no byte is read.
#[inline(always)]
fn first_end(end: u8, bytes: &[u8], marks: u64) -> Option<(usize, u64)>
    requires marks { MarksEnds end bytes.now marks }
    ensures first { IsFirstByte (is_byte end) bytes.now (option_map (λ found. found.0) result) }
    ensures marks { IfSome result (λ found. MarksEnds end (drop (found.0 + 1) bytes.now) found.1) }
{
    if marks != 0 {
        let n = marks.trailing_zeros();
        // In two steps, since n may be 63.
        return Some((n as usize, (marks >> n) >> 1));
    }
    match near_end(end, bytes) {
        Some(n) => Some((n, 0)),
        None => None,
    }
}

/// The first line, without its end, the bytes after its end, and their marks, if the bytes have an end.
#[inline(always)]
fn first_line(end: u8, bytes: &[u8], marks: u64) -> Option<(&[u8], &[u8], u64)>
    requires few { length bytes.now ≤ ROOM }
    requires marks { MarksEnds end bytes.now marks }
    ensures line { IfSome result (λ split. TakesPart (line_rule MAX_KEY_LEN end) bytes.now split.1.now [] split.0.now Part.Whole) }
    ensures marks { IfSome result (λ split. MarksEnds end split.1.now split.2) }
    ensures none { IfNone result (HasNoEnd end bytes.now) }
{
    match first_end(end, bytes, marks) {
        Some((n, marks)) => Some((&bytes[..n], &bytes[n + 1..], marks)),
        None => None,
    }
}

/// Appends to a key, if there is room.
fn put(key: &mut KeyBuf, part: &[u8]) -> bool
    ensures fits { result ≡ true → key.new.items ≡ key.old.items ++ part.now }
    ensures room { result ≡ true → length key.new.items ≤ MAX_KEY_LEN }
    ensures full { result ≡ false → MAX_KEY_LEN < length key.old.items + length part.now }
{
    key.try_extend_from_slice(part).is_ok()
}
