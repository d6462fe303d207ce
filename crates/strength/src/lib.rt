// The next strength to try (document 02, N13): source 001's hyperbola through two trials, in binary64.
// Certified brackets do not read it.

#![tactic(auto)]

ghost use Rattle.std.specs.Prelude.{◌≡◌};
ghost use lib.Ieee.Positive.{positive};
ghost use Rattle.strength.specs.Next.{
  error_number,
  hyperbola,
  next_answer,
  next_strength,
  term,
  usable,
};

// "Each trial is a pair of binary64 numbers, K and load factor L."
#[derive(Clone, Copy)]
pub struct Trial {
    pub k: f64,
    pub l: f64,
}

// Why there is no strength to try, by the number that is returned for it.
#[derive(Clone, Copy)]
pub enum StrengthError {
    NoStrength = 49,
}

impl StrengthError {
    // The number that is returned for it, with place 0.
    pub fn number(self) -> u32
        ensures { result ≡ error_number self }
    {
        self as u32
    }
}

// "finite and above 0"
fn finite_above_zero(x: f64) -> bool
    ensures { result ≡ positive x }
{
    0.0 < x && x < f64::INFINITY
}

impl Trial {
    fn is_usable(self) -> bool
        ensures { result ≡ usable self }
    {
        finite_above_zero(self.k) && finite_above_zero(self.l)
    }

    // "from left to right (1-L2)·L1·K1", of this trial, 1, and the other, 2.
    fn term(self, other: Trial) -> f64
        ensures { result ≡ term self other }
    {
        (1.0 - other.l) * self.l * self.k
    }
}

// Eq. 23: "then (1-L1)·L2·K2, their difference, then divided by (L1-L2), each operation rounded once".
fn hyperbola_strength(first: Trial, second: Trial) -> f64
    ensures { result ≡ hyperbola first second }
{
    (first.term(second) - second.term(first)) / (first.l - second.l)
}

// "Refused .. when an input isn't finite and above 0, when L1 = L2, or when the result isn't finite and above 0."
pub fn next_strength(first: Trial, second: Trial) -> Result<f64, StrengthError>
    ensures { result ≡ next_strength first second }
{
    if !first.is_usable() || !second.is_usable() {
        return Err(StrengthError::NoStrength);
    }
    if first.l == second.l {
        return Err(StrengthError::NoStrength);
    }
    let strength = hyperbola_strength(first, second);
    if !finite_above_zero(strength) {
        return Err(StrengthError::NoStrength);
    }
    Ok(strength)
}

// What C is given: 0, 0 and the strength, or 49, 0 and 0.
#[repr(C)]
#[derive(Clone, Copy)]
pub struct NextAnswer {
    pub number: u32,
    pub place: u32,
    pub strength: f64,
}

impl From<Result<f64, StrengthError>> for NextAnswer {
    ghost from_gives = { λ next r. r ≡ next_answer next };

    fn from(next: Result<f64, StrengthError>) -> NextAnswer {
        match next {
            Ok(strength) => NextAnswer {
                number: 0,
                place: 0,
                strength,
            },
            Err(error) => NextAnswer {
                number: error.number(),
                place: 0,
                strength: 0.0,
            },
        }
    }
}
