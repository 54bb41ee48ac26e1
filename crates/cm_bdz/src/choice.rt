//! The vertex that cells choose for a key.
ghost use Rattle.std.specs.Prelude.{◌≡◌, ℕ, ◌<◌, ◌≤◌, List, length};
ghost use Rattle.cm_algo_scheme.specs.declared.answers.TheConstants.{MOST_PLACES};
ghost use Rattle.cm_bdz.specs.Choices.{AreBdzPlaces, AreChosen};
ghost use Rattle.cm_bdz.specs.Functions.{IsThirds, chosen_end, chosen_of};
ghost use Rattle.cm_bdz.specs.Places.{bdz_place};
ghost use Rattle.cm_spec.specs.Bdz.{bdz_edge};
ghost use Rattle.cm_spec.specs.Lookup2 as lookup2;

use crate::scheme::place_in;
use cm_algo_scheme::{Divisor, MOST_PLACES, Place};
use cm_bits::Lookup;
use cm_lookup2::words;

/// Where a key is looked up. The number of cells is three times a number above 0.
fn place_of<C: Lookup>(cells: &C, key: &[u8], seed: u32) -> Place
    requires size { IsThirds (length (C.cells cells.now)) }
    ensures place { result ≡ bdz_place (lookup2.words key.now seed) (length (C.cells cells.now)) }
{
    place_in(words(key, seed), &Divisor::new(cells.len() / 3))
}

/// Of the three ends of a place, the one whose position is the sum of their cells, modulo 3. The number of cells is three times a
/// number above 0, and cells are below 4 or less.
pub fn chosen_among<C: Lookup>(cells: &C, place: &Place) -> u32
    requires size { IsThirds (length (C.cells cells.now)) }
    requires bound { C.bound_of cells.now ≤ 4 }
    requires place { (words : List ℕ) × (place.now ≡ bdz_place words (length (C.cells cells.now))) }
    ensures chosen { (words : List ℕ) → place.now ≡ bdz_place words (length (C.cells cells.now)) → result ≡ chosen_end (C.cells cells.now) (bdz_edge words (length (C.cells cells.now))) }
    ensures inside { result < length (C.cells cells.now) }
{
    let sum = cells.get(place[0]) + cells.get(place[1]) + cells.get(place[2]);
    place[(sum % 3) as usize]
}

/// The vertices of some places, as `chosen_among` gives them, each where its place stands. The numbers behind them are any.
pub(crate) fn chosen_by_all<C: Lookup>(
    cells: &C,
    places: &[Place],
    vertices: &mut [u32; MOST_PLACES],
)
    requires few { length places.now ≤ MOST_PLACES }
    requires size { IsThirds (length (C.cells cells.now)) }
    requires bound { C.bound_of cells.now ≤ 4 }
    requires places { AreBdzPlaces (length (C.cells cells.now)) places.now }
    ensures chosen { AreChosen (C.cells cells.now) places.now (length places.now) vertices.new }
{
    for i in 0..places.len() {
        vertices[i] = chosen_among(cells, &places[i]);
    }
}

/// The vertex of a key. The number of cells is three times a number above 0, and cells are below 4 or less.
pub fn chosen<C: Lookup>(cells: &C, key: &[u8], seed: u32) -> u32
    requires size { IsThirds (length (C.cells cells.now)) }
    requires bound { C.bound_of cells.now ≤ 4 }
    ensures chosen { result ≡ chosen_of (C.cells cells.now) key.now seed }
    ensures inside { result < length (C.cells cells.now) }
{
    chosen_among(cells, &place_of(cells, key, seed))
}
