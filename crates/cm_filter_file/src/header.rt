//! The header of a filter file.
ghost use Rattle.std.specs.Prelude.{◌≡◌, ◌≢◌, ◌≤◌, Err, IfErr, IfOk, OnOk};
ghost use Rattle.std.specs.Option.{ForSome};
ghost use Rattle.cm_dump_items.specs.Reading.{Answers, HasLoadCause, IsAt, zeros_at};
ghost use Rattle.cm_dump_items.specs.declared.fault.LoadFault.{LoadFault};
ghost use Rattle.cm_filter.specs.Filters.{IsFingerprint};
ghost use Rattle.cm_spec.specs.Rule.{IsRatio};
ghost use Rattle.cm_spec.specs.declared.limits.TheConstants.{MAX_KEYS};
ghost use Rattle.cm_filter_file.specs.FilterFiles.{header_at, magic_at};
ghost use Rattle.cm_filter_file.specs.Loads.{IsReadFault};
ghost use Rattle.cm_filter_file.specs.declared.header.TheConstants.{HEADER_LEN};

use cm_dump_items::{LoadFault, byte, item, number};
use cm_filter::{MAX_FINGERPRINT, MIN_FINGERPRINT};
use cm_io::{MAX_KEYS, Source};
use cm_spec::{MAX_RATIO, MIN_RATIO};

/// How many bytes stand before the image of the cells.
pub const HEADER_LEN: u64 = 24;

/// What every filter file begins with.
pub(crate) const MAGIC: [u8; 8] = *b"CMPHFLT1";

/// What the header of a filter says.
#[derive(Clone, Copy, Drop)]
pub struct Header {
    /// How many bits a fingerprint has, from `MIN_FINGERPRINT` to `MAX_FINGERPRINT`.
    pub w: u8,
    /// How many keys the filter was built over, from 1 to `MAX_KEYS`.
    pub keys: u32,
    /// The ratio of vertices to keys, in millionths.
    pub ratio: u32,
    /// The seed of its hash.
    pub seed: u32,
}

/// Checks that the first bytes are the magic. Returns `BadMagic` if they are not.
#[tactic(auto, unfolding(crate::specs::FilterFiles::magic_at))]
fn read_magic<S: Source>(source: &mut S) -> Result<(), LoadFault>
    requires at { IsAt (S.told source.old) (S.place source.old) 0 }
    ensures told { S.told source.new ≡ S.told source.old }
    ensures at { OnOk result (IsAt (S.told source.new) (S.place source.new) 8) }
    ensures exact { ForSome (S.told source.old) (λ bytes. Answers (λ x. x) result (magic_at bytes)) }
    ensures cause { HasLoadCause (S.faults source.old) (S.faults source.new) result }
    ensures memory { result ≢ Err LoadFault.Memory }
    ensures kind { IfErr result IsReadFault }
{
    let mut buf = [0; 8];
    item(source, 0, &mut buf)?;
    if buf == MAGIC {
        Ok(())
    } else {
        Err(LoadFault::BadMagic)
    }
}

/// Checks that the three bytes after the bits of a fingerprint are zero. Returns `BadField` at the first that is not.
#[tactic(auto, unfolding(cm_dump_items::specs::Reading::zeros_at))]
fn read_zeros<S: Source>(source: &mut S) -> Result<(), LoadFault>
    requires at { IsAt (S.told source.old) (S.place source.old) 9 }
    ensures told { S.told source.new ≡ S.told source.old }
    ensures at { OnOk result (IsAt (S.told source.new) (S.place source.new) 12) }
    ensures exact { ForSome (S.told source.old) (λ bytes. Answers (λ x. x) result (zeros_at bytes 9 3)) }
    ensures cause { HasLoadCause (S.faults source.old) (S.faults source.new) result }
    ensures memory { result ≢ Err LoadFault.Memory }
    ensures kind { IfErr result IsReadFault }
{
    byte(source, 9, 0, 0)?;
    byte(source, 10, 0, 0)?;
    byte(source, 11, 0, 0)?;
    Ok(())
}

/// The header of a filter file, which is at its start.
#[tactic(auto, unfolding(crate::specs::FilterFiles::header_at))]
pub(crate) fn read_header<S: Source>(source: &mut S) -> Result<Header, LoadFault>
    requires at { IsAt (S.told source.old) (S.place source.old) 0 }
    ensures told { S.told source.new ≡ S.told source.old }
    ensures at { OnOk result (IsAt (S.told source.new) (S.place source.new) HEADER_LEN) }
    ensures width { IfOk result (λ h. IsFingerprint h.w) }
    ensures keys { IfOk result (λ h. (1 ≤ h.keys) × (h.keys ≤ MAX_KEYS)) }
    ensures ratio { IfOk result (λ h. IsRatio h.ratio) }
    ensures exact { ForSome (S.told source.old) (λ bytes. Answers (λ h. h) result (header_at bytes)) }
    ensures cause { HasLoadCause (S.faults source.old) (S.faults source.new) result }
    ensures memory { result ≢ Err LoadFault.Memory }
    ensures kind { IfErr result IsReadFault }
{
    read_magic(source)?;
    let w = byte(source, 8, MIN_FINGERPRINT, MAX_FINGERPRINT)?;
    read_zeros(source)?;
    let keys = number(source, 12, 1, MAX_KEYS)?;
    let ratio = number(source, 16, MIN_RATIO, MAX_RATIO)?;
    let seed = number(source, 20, 0, u32::MAX)?;
    Ok(Header {
        w,
        keys,
        ratio,
        seed,
    })
}
