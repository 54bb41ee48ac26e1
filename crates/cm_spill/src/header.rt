//! The header of a record, which precedes its key.
ghost use Rattle.std.specs.Prelude.{◌≡◌, ◌≤◌, ◌++◌, length};
ghost use Rattle.byteorder.specs.Endian.{little_bytes};
ghost use Rattle.cm_spill.specs.Reading.{IsHeaderAt};

use byteorder::{ByteOrder, LittleEndian};

/// How many bytes a header has.
pub(crate) const HEADER: usize = 10;

/// The header of a record: its bucket, its line and the length of its key.
#[derive(Clone, Copy)]
pub(crate) struct Header {
    pub(crate) bucket: u32,
    pub(crate) line: u32,
    pub(crate) len: u16,
}

/// The header at the start of these bytes.
pub(crate) fn read_header(bytes: &[u8]) -> Header
    requires long { HEADER ≤ length bytes.now }
    ensures header { IsHeaderAt bytes.now result }
{
    Header {
        bucket: LittleEndian::read_u32(bytes),
        line: LittleEndian::read_u32(&bytes[4..]),
        len: LittleEndian::read_u16(&bytes[8..]),
    }
}

/// The bytes of a header.
pub(crate) fn header_bytes(header: Header) -> [u8; HEADER]
    ensures bytes { result ≡ little_bytes 4 header.bucket ++ little_bytes 4 header.line ++ little_bytes 2 header.len }
{
    let mut bytes = [0; HEADER];
    LittleEndian::write_u32(&mut bytes, header.bucket);
    LittleEndian::write_u32(&mut bytes[4..], header.line);
    LittleEndian::write_u16(&mut bytes[8..], header.len);
    bytes
}
