//! The lines of the generated keys, and their text from any place on.
ghost use Rattle.std.specs.Prelude.{◌≡◌, ◌≤◌, ◌<◌, ◌+◌, ◌-◌, ◌*◌, ◌/◌, ◌%◌, ◌++◌, ℕ, length, min, take, drop};
ghost use Rattle.cm_keys_made.specs.Texts.{made_line, made_text, made_value, pair, ten_digits};

use cm_io::MAX_KEYS;

/// How many bytes a line has, with its end.
pub(crate) const LINE_LEN: usize = 15;

/// What the number of a key is multiplied by. It is odd, so that keys differ.
const FACTOR: u64 = 2_654_435_761;

/// Keys write numbers below this.
const MODULUS: u64 = 4_294_967_296;

/// The number that this key writes.
fn value_of(key: u32) -> u32
    ensures { result ≡ made_value key }
{
    (FACTOR * key as u64 % MODULUS) as u32
}

/// The two digits of each number below 100, one after another: faster than divisions by 10.
static PAIRS: [u8; 200] =
    *b"00010203040506070809101112131415161718192021222324252627282930313233343536373839404142434445464748495051525354555657585960616263646566676869707172737475767778798081828384858687888990919293949596979899";

/// Writes the two digits of a number below 100 to this place of the buffer.
#[inline(always)]
fn write_pair(buf: &mut [u8], at: usize, n: u32)
    requires digits { n < 100 }
    requires room { at + 2 ≤ length buf.old }
    ensures written { take (at + 2) buf.new ≡ take at buf.old ++ pair n }
    ensures after { drop (at + 2) buf.new ≡ drop (at + 2) buf.old }
{
    let from = 2 * n as usize;
    let (tens, ones) = (PAIRS[from], PAIRS[from + 1]);
    buf[at] = tens;
    buf[at + 1] = ones;
}

/// Writes ten digits of a number, with leading zeros, to this place of the buffer.
#[inline(always)]
fn write_digits(buf: &mut [u8], at: usize, value: u32)
    requires { at + 10 ≤ length buf.old }
    ensures written { take (at + 10) buf.new ≡ take at buf.old ++ ten_digits value }
    ensures after { drop (at + 10) buf.new ≡ drop (at + 10) buf.old }
{
    let high = value / 100_000_000;
    let middle = value / 10_000 % 10_000;
    let low = value % 10_000;
    write_pair(buf, at, high);
    write_pair(buf, at + 2, middle / 100);
    write_pair(buf, at + 4, middle % 100);
    write_pair(buf, at + 6, low / 100);
    write_pair(buf, at + 8, low % 100);
}

/// Writes the line of a key to the start of the buffer. It is written in place, since a copy of a line takes as long as its digits.
#[inline(always)]
fn write_whole(buf: &mut [u8], key: u32)
    requires { LINE_LEN ≤ length buf.old }
    ensures { buf.new ≡ made_line key ++ drop LINE_LEN buf.old }
{
    buf[..4].copy_from_slice(b"key-");
    write_digits(buf, 4, value_of(key));
    buf[14] = b'\n';
}

/// Writes the line of a key, from this byte of it on, to the start of the buffer, as far as there is room, and returns how many
/// bytes it wrote.
#[inline(always)]
fn write_line(buf: &mut [u8], key: u32, skip: usize) -> usize
    requires { skip < LINE_LEN }
    ensures count { result ≡ min (LINE_LEN - skip) (length buf.old) }
    ensures bytes { buf.new ≡ take result (drop skip (made_line key)) ++ drop result buf.old }
{
    if skip == 0 && buf.len() >= LINE_LEN {
        write_whole(buf, key);
        return LINE_LEN;
    }
    let mut line = [0; LINE_LEN];
    write_whole(&mut line, key);
    let len = buf.len().min(LINE_LEN - skip);
    buf[..len].copy_from_slice(&line[skip..skip + len]);
    len
}

/// Fills the buffer with the bytes of the text from a place on.
pub(crate) fn fill(buf: &mut [u8], place: usize)
    requires { place + length buf.old ≤ LINE_LEN * MAX_KEYS }
    ensures { (keys : ℕ) → place + length buf.old ≤ LINE_LEN * keys →
        buf.new ≡ take (length buf.old) (drop place (made_text keys)) }
{
    let mut done = 0;
    while done < buf.len() {
        let at = place + done;
        done += write_line(&mut buf[done..], (at / LINE_LEN) as u32, at % LINE_LEN);
    }
}
