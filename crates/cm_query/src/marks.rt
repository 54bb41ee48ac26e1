//! Marks of answers, of several keys at once.
ghost use Rattle.std.specs.Prelude.{◌≡◌, ◌<◌, ◌≤◌, ◌+◌, ◌++◌, ◌∷◌, ℕ, List, [], Option, IfOk, IfSome, All, length, map, replicate, drop};
ghost use Rattle.std.specs.Option.{ForSome};
ghost use Rattle.cm_query.specs.Marks.{AreMarks, is_marked, marked};
ghost use Rattle.cm_query.specs.Repeats.{is_repeated};
ghost use Rattle.cm_bits.specs.declared.TheConstants.{MAX_CELLS};
ghost use Rattle.cm_query_batch.specs.declared.taken.TheConstants.{MOST_KEYS};

use arrayvec::ArrayVec;
use cm_bits::{Bits, Cells};
use cm_query_batch::MOST_KEYS;
use std::alloc::{AllocError, Global};
use std::marker::Model;

/// Marks an answer, and returns whether it was marked before.
fn mark(cells: &mut Bits, answer: Option<u32>) -> bool
    requires inside { IfSome answer (λ v. v < length (⟦<Bits as Cells>⟧.cells cells.old)) }
    ensures repeated { result ≡ is_marked (⟦<Bits as Cells>⟧.cells cells.old) answer }
    ensures marked { ⟦<Bits as Cells>⟧.cells cells.new ≡ marked (⟦<Bits as Cells>⟧.cells cells.old) answer }
{
    match answer {
        None => false,
        Some(number) => {
            let repeated = cells.get(number) == 1;
            cells.set(number, 1);
            repeated
        }
    }
}

/// Marks of answers: one bit for each number. The answers of all keys that wait are marked at once, so that the cache misses of their bits
/// overlap. Clauses see the bits, and of the keys that wait whether an earlier key has the answer.
#[derive(Drop)]
pub(crate) struct Marks {
    cells: Bits,
    repeated: ArrayVec<bool, MOST_KEYS>,
    next: usize,
}

impl Model for Marks {
    ghost use Rattle.std.specs.Prelude.{◌≤◌, length, drop};
    ghost use Rattle.cm_query.specs.Marks.{Marked};

    ghost Value = { Marked };

    ghost view = { λ m. record { cells = ⟦<Bits as Cells>⟧.cells m.cells; repeated = drop m.next m.repeated.items } };

    ghost invariant = { λ m. m.next ≤ length m.repeated.items };
}

impl Marks {
    /// A bit for each number of a span, none of them marked. Fails only if memory runs out.
    pub(crate) fn new(alloc: Global, span: u32) -> Result<Marks, AllocError>
        requires few { span ≤ MAX_CELLS }
        ensures none { IfOk result (λ m. m.cells ≡ replicate span 0) }
        ensures empty { IfOk result (λ m. m.repeated ≡ []) }
    {
        let cells = Bits::zeroed(alloc, span, 2)?;
        Ok(Marks {
            cells,
            repeated: ArrayVec::new(),
            next: 0,
        })
    }

    /// Marks the answer of the first key that waits, given the answers of all that wait, and returns whether an earlier key has it.
    pub(crate) fn mark_first(&mut self, answers: &[Option<u32>]) -> bool
        requires some { 0 < length answers.now }
        requires few { length answers.now ≤ MOST_KEYS }
        requires inside { All (λ a. IfSome a (λ v. v < length self.old.cells)) answers.now }
        ensures size { length self.new.cells ≡ length self.old.cells }
        ensures marks { (f : List ℕ → Option ℕ) (reached : List (ℕ × List ℕ)) (k : ℕ × List ℕ) (later : List (ℕ × List ℕ)) → answers.now ≡ map (λ k. f k.1) (k ∷ later)
            → AreMarks f reached (k ∷ later) self.old → (result ≡ is_repeated f reached (f k.1)) × AreMarks f (reached ++ k ∷ []) later self.new }
    {
        if self.next == self.repeated.len() {
            self.mark_all(answers);
        }
        self.take_first()
    }

    /// Whether an earlier key has the first answer that was marked and waits, which waits no more.
    fn take_first(&mut self) -> bool
        requires some { 0 < length self.old.repeated }
        ensures first { self.old.repeated ≡ result ∷ self.new.repeated }
        ensures cells { self.new.cells ≡ self.old.cells }
    {
        let repeated = self.repeated[self.next];
        self.next += 1;
        repeated
    }

    /// Marks the answers of all keys that wait, of which none was marked.
    fn mark_all(&mut self, answers: &[Option<u32>])
        requires none { self.old.repeated ≡ [] }
        requires few { length answers.now ≤ MOST_KEYS }
        requires inside { All (λ a. IfSome a (λ v. v < length self.old.cells)) answers.now }
        ensures size { length self.new.cells ≡ length self.old.cells }
        ensures all { length self.new.repeated ≡ length answers.now }
        ensures marks { (f : List ℕ → Option ℕ) (reached waiting : List (ℕ × List ℕ)) → answers.now ≡ map (λ k. f k.1) waiting
            → AreMarks f reached [] self.old → AreMarks f reached waiting self.new }
    {
        self.repeated.clear();
        self.next = 0;
        for i in 0..answers.len() {
            let repeated = mark(&mut self.cells, answers[i]);
            self.repeated.push(repeated);
        }
    }
}
