//! The header of a store file.
ghost use Rattle.std.specs.Prelude.{◌≡◌, ◌≢◌, ◌≤◌, Err, IfOk, OnOk};
ghost use Rattle.std.specs.Option.{ForSome};
ghost use Rattle.cm_dump_items.specs.Reading.{Answers, HasLoadCause, IsAt};
ghost use Rattle.cm_dump_items.specs.declared.fault.LoadFault.{LoadFault};
ghost use Rattle.cm_store_file.specs.Headers.{header_at, magic_at};
ghost use Rattle.cm_store_file.specs.declared.header.TheConstants.{HEADER_LEN};
ghost use Rattle.cm_store_records.specs.declared.limits.TheConstants.{MAX_RECORD_BYTES};

use cm_dump_items::{LoadFault, item, number};
use cm_io::Source;
use cm_store_records::MAX_RECORD_BYTES;

/// How many bytes stand before the index.
pub const HEADER_LEN: u64 = 16;

/// What every store file begins with.
pub(crate) const MAGIC: [u8; 8] = *b"CMPHREC1";

/// What the header of a store file says.
#[derive(Clone, Copy, Drop)]
pub struct Header {
    /// How many bytes the index has.
    pub index: u32,
    /// How many bytes the records have, from 1 to `MAX_RECORD_BYTES`.
    pub records: u32,
}

/// Checks that the first bytes are the magic. Returns `BadMagic` if they are not.
#[tactic(auto, unfolding(crate::specs::Headers::magic_at))]
fn read_magic<S: Source>(source: &mut S) -> Result<(), LoadFault>
    requires at { IsAt (S.told source.old) (S.place source.old) 0 }
    ensures told { S.told source.new ≡ S.told source.old }
    ensures at { OnOk result (IsAt (S.told source.new) (S.place source.new) 8) }
    ensures exact { ForSome (S.told source.old) (λ bytes. Answers (λ x. x) result (magic_at bytes)) }
    ensures cause { HasLoadCause (S.faults source.old) (S.faults source.new) result }
    ensures memory { result ≢ Err LoadFault.Memory }
{
    let mut buf = [0; 8];
    item(source, 0, &mut buf)?;
    if buf == MAGIC {
        Ok(())
    } else {
        Err(LoadFault::BadMagic)
    }
}

/// The header of a store file, which is at its start.
#[tactic(auto, unfolding(crate::specs::Headers::header_at))]
pub(crate) fn read_header<S: Source>(source: &mut S) -> Result<Header, LoadFault>
    requires at { IsAt (S.told source.old) (S.place source.old) 0 }
    ensures told { S.told source.new ≡ S.told source.old }
    ensures at { OnOk result (IsAt (S.told source.new) (S.place source.new) HEADER_LEN) }
    ensures records { IfOk result (λ h. (1 ≤ h.records) × (h.records ≤ MAX_RECORD_BYTES)) }
    ensures exact { ForSome (S.told source.old) (λ bytes. Answers (λ h. h) result (header_at bytes)) }
    ensures cause { HasLoadCause (S.faults source.old) (S.faults source.new) result }
    ensures memory { result ≢ Err LoadFault.Memory }
{
    read_magic(source)?;
    let index = number(source, 8, 0, u32::MAX)?;
    let records = number(source, 12, 1, MAX_RECORD_BYTES as u32)?;
    Ok(Header { index, records })
}
