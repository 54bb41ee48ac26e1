// Cells as they are, four bytes each.
ghost use Rattle.std.specs.Prelude.{◌≡◌, ◌+◌, ◌*◌, ◌^◌, ◌<◌, ◌≤◌, length};
ghost use Rattle.cm_bits.specs.Bound.{AllBelow};
ghost use Rattle.cm_bits.specs.Fault.{plain_fault, plain_cell};
ghost use Rattle.cm_bits.specs.PlainLaws.{same_plain, plain_byte_lt, plain_fault-image};
ghost use Rattle.cm_spec.specs.Image.{plain_byte};
ghost use Rattle.cm_bits.specs.declared.TheConstants.{MAX_CELLS};

use crate::{Cells, ImageFault};
use std::alloc::{AllocError, Global};

/// A table that keeps each number as a `u32`.
#[derive(Drop)]
pub struct Plain {
    items: Vec<u32>,
    bound: u32,
    ghost in_room: { length items.items ≤ MAX_CELLS },
    ghost positive: { 0 < bound },
    ghost small: { bound < 2 ^ 32 },
    ghost in_bound: { AllBelow bound items.items },
}

impl Cells for Plain {
    ghost bound_of = { λ t. t.bound };

    ghost cells = { λ t. t.items.items };

    ghost fits = { λ b. (0 < b) × (b < 2 ^ 32) };

    ghost image_size = { λ n b. 4 * n };

    ghost image_byte = { λ b xs q. plain_byte xs q };

    ghost cell_place = { λ b i. 4 * i };

    ghost image_fault = { λ n b bs. plain_fault n b bs };

    ghost in_bound = { λ t. t.in_bound };

    ghost in_room = { λ t. t.in_room };

    ghost bound_fits = { λ t. (t.positive, t.small) };

    ghost cell_inside = { λ b n i f l. plain_byte_lt n i l };

    ghost same_from_image = { λ b xs ys f n h l e. same_plain b xs ys f.1 n h l e };

    ghost image_is_sound = { λ b xs f l. plain_fault-image b xs f.1 l };

    fn zeroed(alloc: Global, n: u32, bound: u32) -> Result<Plain, AllocError> {
        let items = vec![in alloc; 0u32; n as usize]?;
        Ok(Plain { items, bound })
    }

    fn len(&self) -> u32 {
        self.items.len() as u32
    }

    fn bound(&self) -> u32 {
        self.bound
    }

    fn get(&self, i: u32) -> u32 {
        self.items[i as usize]
    }

    fn set(&mut self, i: u32, value: u32) {
        self.items[i as usize] = value;
    }

    fn image_len(n: u32, bound: u32) -> u64 {
        4 * n as u64
    }

    fn cell_byte(bound: u32, i: u32) -> u64 {
        4 * i as u64
    }

    fn byte(&self, i: u64) -> u8 {
        let cell = self.items[(i / 4) as usize];
        let k = (i % 4) as u32;
        ((cell >> (8 * k)) % 256) as u8
    }

    fn from_image(alloc: Global, n: u32, bound: u32, bytes: &[u8]) -> Result<Plain, ImageFault> {
        let Ok(mut items) = Vec::with_capacity(alloc, n as usize) else {
            return Err(ImageFault::Memory);
        };
        for i in 0..n {
            let cell = cell_at(bytes, i);
            if cell >= bound {
                return Err(ImageFault::BadCell { cell: i });
            }
            if items.push(cell).is_err() {
                return Err(ImageFault::Memory);
            }
        }
        Ok(Plain { items, bound })
    }
}

// Cell i of plain bytes.
#[tactic(auto, unfolding(cm_spec::specs::Image::digits_sum))]
fn cell_at(bytes: &[u8], i: u32) -> u32
    requires { 4 * i + 4 ≤ length bytes.now }
    ensures { result ≡ plain_cell bytes.now i }
{
    let at = 4 * i as usize;
    u32::from_le_bytes([bytes[at], bytes[at + 1], bytes[at + 2], bytes[at + 3]])
}
