//! A source that is read by lines.
ghost use Rattle.std.specs.Prelude.{◌≡◌, ◌<◌, ◌≤◌, ◌-◌, [], true, false, IfOk, OnOk, length, drop};
ghost use Rattle.cm_io.specs.Causes.{HasCause};
ghost use Rattle.cm_witness_report.specs.Lines.{front_line};
ghost use Rattle.cm_witness_report.specs.declared.window.TheConstants.{ROOM};
ghost use Rattle.cm_witness_report.specs.Windows.{HasEnded, left_bytes, waiting};

use cm_io::{Failed, Source};
use memchr::memchr;

/// The size of the buffer in bytes.
const ROOM: usize = 16_384;

/// More bytes than any line of a report has.
pub const LONG_LINE: usize = 128;

/// The bytes that were read from a source and not used yet: those of the buffer from `from` up to `until`.
#[derive(Drop)]
pub(crate) struct Window {
    pub buf: [u8; ROOM],
    pub from: usize,
    pub until: usize,
    /// The source has come to its end.
    pub ended: bool,
    ghost in_order: { from ≤ until },
    ghost in_buf: { until ≤ ROOM },
    ghost size: { length buf ≡ ROOM },
}

impl Window {
    /// No bytes, of a source that nothing was read from yet.
    pub(crate) fn new() -> Window
        ensures none { waiting result.buf result.from result.until ≡ [] }
        ensures ended { result.ended ≡ false }
    {
        Window {
            buf: [0; ROOM],
            from: 0,
            until: 0,
            ended: false,
        }
    }

    /// Moves the bytes to the start of the buffer.
    fn shift(&mut self)
        ensures start { self.new.from ≡ 0 }
        ensures until { self.new.until ≡ self.old.until - self.old.from }
        ensures waiting { waiting self.new.buf self.new.from self.new.until ≡ waiting self.old.buf self.old.from self.old.until }
        ensures ended { self.new.ended ≡ self.old.ended }
    {
        self.buf.copy_within(self.from..self.until, 0);
        self.until -= self.from;
        self.from = 0;
    }

    /// Reads once, into the buffer after the bytes. Fails exactly if the source does.
    fn read_more<S: Source>(&mut self, source: &mut S) -> Result<(), Failed>
        requires room { self.old.until < ROOM }
        ensures told { S.told source.new ≡ S.told source.old }
        ensures start { self.new.from ≡ self.old.from }
        ensures left { OnOk result (left_bytes (S.told source.new) (S.place source.new) (waiting self.new.buf self.new.from self.new.until)
            ≡ left_bytes (S.told source.old) (S.place source.old) (waiting self.old.buf self.old.from self.old.until)) }
        ensures ended { OnOk result (HasEnded self.new.ended (S.told source.new) (S.place source.new)) }
        ensures more { OnOk result (self.new.ended ≡ false → self.old.until < self.new.until) }
        ensures cause { HasCause (S.faults source.old) (S.faults source.new) result }
    {
        let n = source.read(&mut self.buf[self.until..])?;
        self.ended = n == 0;
        self.until += n;
        Ok(())
    }

    /// Reads until there are as many bytes as a long line has, or the source has come to its end. Fails exactly if the source does.
    pub(crate) fn fill<S: Source>(&mut self, source: &mut S) -> Result<(), Failed>
        requires ended { HasEnded self.old.ended (S.told source.old) (S.place source.old) }
        ensures told { S.told source.new ≡ S.told source.old }
        ensures left { OnOk result (left_bytes (S.told source.new) (S.place source.new) (waiting self.new.buf self.new.from self.new.until)
            ≡ left_bytes (S.told source.old) (S.place source.old) (waiting self.old.buf self.old.from self.old.until)) }
        ensures ended { OnOk result (HasEnded self.new.ended (S.told source.new) (S.place source.new)) }
        ensures enough { OnOk result (self.new.ended ≡ false → LONG_LINE ≤ length (waiting self.new.buf self.new.from self.new.until)) }
        ensures cause { HasCause (S.faults source.old) (S.faults source.new) result }
    {
        if self.ended || self.until - self.from >= LONG_LINE {
            return Ok(());
        }
        self.shift();
        while self.until < LONG_LINE {
            self.read_more(source)?;
            if self.ended {
                return Ok(());
            }
        }
        Ok(())
    }

    /// Whether the source has no byte left. If it has, one of its bytes is there. Fails exactly if the source does.
    pub(crate) fn has_ended<S: Source>(&mut self, source: &mut S) -> Result<bool, Failed>
        requires ended { HasEnded self.old.ended (S.told source.old) (S.place source.old) }
        ensures told { S.told source.new ≡ S.told source.old }
        ensures left { OnOk result (left_bytes (S.told source.new) (S.place source.new) (waiting self.new.buf self.new.from self.new.until)
            ≡ left_bytes (S.told source.old) (S.place source.old) (waiting self.old.buf self.old.from self.old.until)) }
        ensures ended { OnOk result (HasEnded self.new.ended (S.told source.new) (S.place source.new)) }
        ensures none { IfOk result (λ is_end. is_end ≡ true → (waiting self.new.buf self.new.from self.new.until ≡ []) × (self.new.ended ≡ true)) }
        ensures some { IfOk result (λ is_end. is_end ≡ false → 0 < length (waiting self.new.buf self.new.from self.new.until)) }
        ensures cause { HasCause (S.faults source.old) (S.faults source.new) result }
    {
        self.fill(source)?;
        Ok(self.from == self.until)
    }

    /// The first line of the bytes, with its end; all of them if no line ends.
    pub(crate) fn line(&self) -> &[u8]
        ensures line { result.now ≡ front_line (waiting self.now.buf self.now.from self.now.until) }
        ensures inside { length result.now ≤ length (waiting self.now.buf self.now.from self.now.until) }
    {
        let bytes = &self.buf[self.from..self.until];
        match memchr(b'\n', bytes) {
            Some(n) => &bytes[..n + 1],
            None => bytes,
        }
    }

    /// Uses the first `n` bytes.
    pub(crate) fn skip(&mut self, n: usize)
        requires inside { n ≤ length (waiting self.old.buf self.old.from self.old.until) }
        ensures rest { waiting self.new.buf self.new.from self.new.until ≡ drop n (waiting self.old.buf self.old.from self.old.until) }
        ensures ended { self.new.ended ≡ self.old.ended }
    {
        self.from += n;
    }
}
