/// Why bytes are no image of a table.
#[derive(Clone, Copy, Debug, PartialEq, Eq)]
pub enum ImageFault {
    /// Out of memory.
    Memory,
    /// The lowest cell at fault, from 0.
    BadCell { cell: u32 },
    /// No cell is at fault, but the padding in this byte, from 0, is not zero.
    BadPadding { byte: u64 },
}
