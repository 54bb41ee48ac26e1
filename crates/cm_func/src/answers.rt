//! What a function of any algorithm answers.
ghost use Rattle.cm_func.specs.Functions.{answer_by, place_by, span_by};

use crate::Func;
use cm_algo_scheme::{Answers, Place};

/// A key gets what the function of its algorithm answers.
impl Answers for Func {
    ghost span_of = { λ f. span_by f };

    ghost place_of = { λ f key. place_by f key };

    ghost answer_of = { λ f key. answer_by f key };

    fn span(&self) -> u32 {
        match self {
            Func::Chm(chm) => chm.span(),
            Func::Bdz(bdz) => bdz.span(),
            Func::BdzPh(bdz_ph) => bdz_ph.span(),
            Func::Brz(brz) => brz.span(),
        }
    }

    fn place(&self, key: &[u8]) -> Place {
        match self {
            Func::Chm(chm) => chm.place(key),
            Func::Bdz(bdz) => bdz.place(key),
            Func::BdzPh(bdz_ph) => bdz_ph.place(key),
            Func::Brz(brz) => brz.place(key),
        }
    }

    fn places_of_four(&self, p: &[u8], q: &[u8], r: &[u8], t: &[u8]) -> [Place; 4] {
        match self {
            Func::Chm(chm) => chm.places_of_four(p, q, r, t),
            Func::Bdz(bdz) => bdz.places_of_four(p, q, r, t),
            Func::BdzPh(bdz_ph) => bdz_ph.places_of_four(p, q, r, t),
            Func::Brz(brz) => brz.places_of_four(p, q, r, t),
        }
    }

    fn answer_at(&self, place: &Place) -> Option<u32> {
        match self {
            Func::Chm(chm) => chm.answer_at(place),
            Func::Bdz(bdz) => bdz.answer_at(place),
            Func::BdzPh(bdz_ph) => bdz_ph.answer_at(place),
            Func::Brz(brz) => brz.answer_at(place),
        }
    }

    fn answer_all(&self, places: &[Place], answers: &mut [Option<u32>]) {
        match self {
            Func::Chm(chm) => chm.answer_all(places, answers),
            Func::Bdz(bdz) => bdz.answer_all(places, answers),
            Func::BdzPh(bdz_ph) => bdz_ph.answer_all(places, answers),
            Func::Brz(brz) => brz.answer_all(places, answers),
        }
    }
}
