// A verdict as C reads it.
ghost use Rattle.std.specs.Prelude.{◌≡◌, false};
ghost use Rattle.scope.specs.Answer.{verdict_of};
ghost use Rattle.scope.specs.Cases.Verdict.{Refused};
ghost use Rattle.numbers.specs.NumbersAnswer.{answer_of};

use scope::{Refusal, Verdict};

// What a solver that hands over numbers is answered, as C reads it: the verdict's number and place; for an accepted
// claim which parts are there, the loads l/n and W/m as they stand, and the open rows. What is not there is 0,
// and so are l and n of a field on a mesh that lists a soil by direction: its load is not told (document 02, N14).
#[repr(C)]
#[derive(Clone, Copy, Default)]
pub struct NumbersAnswer {
    pub number: u32,
    pub place: u32,
    pub field: u32,
    pub multipliers: u32,
    pub l: i64,
    pub n: i64,
    pub w: i64,
    pub m: i64,
    pub open_rows: u64,
}

impl From<Refusal> for NumbersAnswer {
    ghost from_gives = { λ e r. r ≡ answer_of false (Refused e.number e.place) };

    // The refusal's number and place, and 0 for all else.
    fn from(refusal: Refusal) -> NumbersAnswer {
        NumbersAnswer {
            number: refusal.number,
            place: refusal.place.number(),
            ..NumbersAnswer::default()
        }
    }
}

// The verdict's number and values on a claim with a field or without, and 0 for what is not there.
pub fn answer_of(field: bool, v: Verdict) -> NumbersAnswer
    ensures { result ≡ answer_of field (verdict_of v) }
{
    match v {
        Ok(accepted) => {
            let lower = accepted.lower.unwrap_or_default();
            let upper = accepted.upper.unwrap_or_default();
            NumbersAnswer {
                number: 0,
                place: 0,
                field: u32::from(field),
                multipliers: u32::from(accepted.upper.is_some()),
                l: lower.num,
                n: lower.den,
                w: upper.num,
                m: upper.den,
                open_rows: accepted.open_rows.unwrap_or_default(),
            }
        }
        Err(refusal) => NumbersAnswer::from(refusal),
    }
}
