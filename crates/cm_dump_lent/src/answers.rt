//! What a function in the bytes of its dump answers.
ghost use Rattle.cm_dump_lent.specs.Opened.{func_by, lent_answer, lent_place};
ghost use Rattle.cm_func.specs.Functions.{span_by};

use crate::Lent;
use cm_algo_scheme::{Answers, Place};

/// A key gets what the function of the dump answers. If the bytes have changed since the function was opened, it gets any number below
/// the span, or none.
impl<'a> Answers for Lent<'a> {
    ghost span_of = { λ f. span_by (func_by f) };

    ghost place_of = { λ f key. lent_place f key };

    ghost answer_of = { λ f key. lent_answer f key };

    fn span(&self) -> u32 {
        match self {
            Lent::Chm(chm) => chm.span(),
            Lent::Bdz(bdz) => bdz.span(),
            Lent::BdzPh(bdz_ph) => bdz_ph.span(),
            Lent::Brz(brz) => brz.span(),
        }
    }

    fn place(&self, key: &[u8]) -> Place {
        match self {
            Lent::Chm(chm) => chm.place(key),
            Lent::Bdz(bdz) => bdz.place(key),
            Lent::BdzPh(bdz_ph) => bdz_ph.place(key),
            Lent::Brz(brz) => brz.place(key),
        }
    }

    fn places_of_four(&self, p: &[u8], q: &[u8], r: &[u8], t: &[u8]) -> [Place; 4] {
        match self {
            Lent::Chm(chm) => chm.places_of_four(p, q, r, t),
            Lent::Bdz(bdz) => bdz.places_of_four(p, q, r, t),
            Lent::BdzPh(bdz_ph) => bdz_ph.places_of_four(p, q, r, t),
            Lent::Brz(brz) => brz.places_of_four(p, q, r, t),
        }
    }

    fn answer_at(&self, place: &Place) -> Option<u32> {
        match self {
            Lent::Chm(chm) => chm.answer_at(place),
            Lent::Bdz(bdz) => bdz.answer_at(place),
            Lent::BdzPh(bdz_ph) => bdz_ph.answer_at(place),
            Lent::Brz(brz) => brz.answer_at(place),
        }
    }

    fn answer_all(&self, places: &[Place], answers: &mut [Option<u32>]) {
        match self {
            Lent::Chm(chm) => chm.answer_all(places, answers),
            Lent::Bdz(bdz) => bdz.answer_all(places, answers),
            Lent::BdzPh(bdz_ph) => bdz_ph.answer_all(places, answers),
            Lent::Brz(brz) => brz.answer_all(places, answers),
        }
    }
}
