// A load's size in units of its last decimal, rounded once. In 64 bits alone: a division of 128 would be a routine of
// the compiler's, for which the archive would ask whoever links it.
ghost use Rattle.std.specs.Prelude.{◌≡◌, ◌+◌, ◌*◌, ◌/◌, ◌%◌, ◌^◌, ◌<◌, ◌≤◌, pos};
ghost use Rattle.report.specs.Spelled.{round_to};

use crate::decimals::Decimals;

// whole·10^d + part units of 10^-d
#[derive(Clone, Copy)]
pub struct Units {
    pub whole: u64,
    pub part: u64,
}

// The next digit of a quotient and what it leaves. Ten times the rest may not fit: it is added ten times, less den
// whenever den is reached.
fn next_digit(rest: u64, den: u64) -> (u64, u64)
    requires below { rest < den }
    requires small { den < 2 ^ 63 }
    ensures digit { result.0 ≡ 10 * rest / den }
    ensures left { result.1 ≡ 10 * rest % den }
{
    let mut digit: u64 = 0;
    let mut sum: u64 = 0;
    for _ in 0..10u32 {
        sum += rest;
        if den <= sum {
            sum -= den;
            digit += 1;
        }
    }
    (digit, sum)
}

// rest / den in units, and what is left: one digit after another.
fn by_digits(rest: u64, den: u64, d: Decimals) -> (u64, u64)
    requires below { rest < den }
    requires small { den < 2 ^ 63 }
    ensures units { result.0 ≡ rest * 10 ^ d.count / den }
    ensures left { result.1 ≡ rest * 10 ^ d.count % den }
{
    let mut units: u64 = 0;
    let mut left = rest;
    for _ in 0..d.count {
        let (digit, next) = next_digit(left, den);
        units = 10 * units + digit;
        left = next;
    }
    (units, left)
}

// The same. For speed it is done at once where the units fit, as they do for every denominator up to 10^12.
fn divided(rest: u64, den: u64, d: Decimals) -> (u64, u64)
    requires below { rest < den }
    requires small { den < 2 ^ 63 }
    ensures units { result.0 ≡ rest * 10 ^ d.count / den }
    ensures left { result.1 ≡ rest * 10 ^ d.count % den }
{
    match rest.checked_mul(d.power) {
        Some(units) => (units / den, units % den),
        None => by_digits(rest, den, d),
    }
}

// m / den, up or down to a whole number of units.
pub fn rounded(m: u64, den: u64, up: bool, d: Decimals) -> Units
    requires few { m ≤ 2 ^ 63 }
    requires some { 0 < den }
    requires small { den < 2 ^ 63 }
    ensures value { pos (result.whole * 10 ^ d.count + result.part) ≡ round_to up (pos (m * 10 ^ d.count)) den }
    ensures whole { result.whole ≤ 2 ^ 63 }
    ensures part { result.part < 10 ^ d.count }
{
    let whole = m / den;
    let (part, left) = divided(m % den, den, d);
    if !up || left == 0 {
        return Units { whole, part };
    }
    if part + 1 < d.power {
        return Units {
            whole,
            part: part + 1,
        };
    }
    Units {
        whole: whole + 1,
        part: 0,
    }
}
