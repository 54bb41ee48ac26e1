//! Keys that stand one after another in bytes, each up to its end.
ghost use Rattle.std.specs.Prelude.{◌≡◌, ◌<◌, ◌≤◌, IfNone, IfSome, length};
ghost use Rattle.cm_keys_lent.specs.Ends.{AreEnds, BadEnd, IsEnd, key_in};
ghost use Rattle.cm_io.specs.declared.key_pass.TheConstants.{MAX_KEY_LEN};

use cm_io::MAX_KEY_LEN;

/// Why ends are not those of keys.
#[derive(Clone, Copy, Debug, PartialEq, Eq)]
pub enum EndsFault {
    /// There are more than `MAX_KEYS`.
    TooMany,
    /// The first end, counted from 0, that is before the one before it or past the bytes, or whose key has more than `MAX_KEY_LEN` bytes.
    BadEnd { key: u32 },
}

/// The bytes of key `i`, counted from 0: those from the end of the key before it on, up to its own.
#[inline]
pub(crate) fn key_at<'a>(bytes: &'a [u8], ends: &[u64], i: usize) -> &'a [u8]
    requires inside { i < length ends.now }
    requires end { IsEnd bytes.now ends.now i }
    ensures key { result.now ≡ key_in bytes.now ends.now i }
    ensures short { length result.now ≤ MAX_KEY_LEN }
{
    let from = if i == 0 { 0 } else { ends[i - 1] };
    &bytes[from as usize..ends[i] as usize]
}

/// The first end that is wrong.
pub(crate) fn bad_end(bytes: &[u8], ends: &[u64]) -> Option<usize>
    ensures bad { IfSome result (BadEnd bytes.now ends.now) }
    ensures none { IfNone result (AreEnds bytes.now ends.now) }
{
    let len = bytes.len() as u64;
    let mut from = 0;
    'ends: for i in 0..ends.len() {
        let end = ends[i];
        if end < from || len < end || end - from > MAX_KEY_LEN as u64 {
            return Some(i);
        }
        from = end;
    }
    None
}
