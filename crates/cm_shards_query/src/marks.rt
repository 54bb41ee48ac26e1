//! Marks of numbers.
ghost use Rattle.std.specs.Prelude.{◌≡◌, ◌*◌, ◌<◌, ◌≤◌, ◌^◌, ◌||◌, ℕ, Some, IfOk, false, length};
ghost use Rattle.std.specs.Option.{ForSome};
ghost use Rattle.cm_query.specs.Repeats.{is_number};
ghost use Rattle.cm_shards_query.specs.Marks.{is_marked};

use std::alloc::{AllocError, Global};
use std::marker::Model;

/// One bit for each number. Clauses see the words of 64 bits.
#[derive(Drop)]
pub(crate) struct Marks {
    words: Vec<u64>,
}

impl Model for Marks {
    ghost use Rattle.std.specs.Prelude.{ℕ, List};

    ghost Value = { List ℕ };

    ghost view = { λ m. m.words.items };
}

impl Marks {
    /// A bit for each number below `total`, none of them marked. Fails only if memory runs out.
    pub(crate) fn new(alloc: Global, total: u64) -> Result<Marks, AllocError>
        requires few { total < 2 ^ 63 }
        ensures room { IfOk result (λ m. total ≤ 64 * length m) }
        ensures none { IfOk result (λ m. (v : ℕ) → is_marked m (Some v) ≡ false) }
    {
        let words = vec![in alloc; 0u64; (total / 64 + 1) as usize]?;
        Ok(Marks { words })
    }

    /// Marks a number, and returns whether it was marked before. None is not marked.
    pub(crate) fn mark(&mut self, number: Option<u64>) -> bool
        requires inside { ForSome number (λ v. v < 64 * length self.old) }
        ensures repeated { result ≡ is_marked self.old number }
        ensures marked { (w : ℕ) → is_marked self.new (Some w) ≡ (is_marked self.old (Some w) || is_number w number) }
        ensures room { length self.new ≡ length self.old }
    {
        match number {
            None => false,
            Some(number) => self.mark_number(number),
        }
    }

    /// Marks a number, and returns whether it was marked before.
    fn mark_number(&mut self, number: u64) -> bool
        requires inside { number < 64 * length self.old }
        ensures repeated { result ≡ is_marked self.old (Some number) }
        ensures marked { (w : ℕ) → is_marked self.new (Some w) ≡ (is_marked self.old (Some w) || is_number w (Some number)) }
        ensures room { length self.new ≡ length self.old }
    {
        let place = (number / 64) as usize;
        let bit = (number % 64) as u32;
        let word = self.words[place];
        self.words[place] = word | (1 << bit);
        (word >> bit) & 1 == 1
    }
}
