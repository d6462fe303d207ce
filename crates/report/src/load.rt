// A load in a column: decimals, whole part and minus, written from the end.
ghost use Rattle.std.specs.Prelude.{◌≡◌, ◌++◌, ◌+◌, ◌*◌, ◌^◌, ◌≤◌, ◌<◌, pos, ◌*ℤ◌, length, replicate};
ghost use Rattle.integer.specs.Decimal.{right_justified};
ghost use Rattle.scope.specs.Answer.{load_of};
ghost use Rattle.report.specs.Text.{fixed};
ghost use Rattle.report.specs.Report.{column_bytes, load_text};
ghost use Rattle.report.specs.Spelled.{decimals_text, signed, round_to};

use crate::column::{Column, WIDTH, none_column};
use crate::decimals::Decimals;
use crate::division::{Units, rounded};
use itoa::write_digits;
use scope::Load;

// The point and d decimals at the end of a blank column; answered is the place of the point, or the end where d is 0.
fn put_decimals(column: &mut Column, part: u64, d: Decimals) -> usize
    requires blank { column.old ≡ replicate column_bytes 32 }
    requires part_fits { part < 10 ^ d.count }
    ensures place { result + length (decimals_text d.count part) ≡ column_bytes }
    ensures text { column.new ≡ replicate result 32 ++ decimals_text d.count part }
{
    if d.count == 0 {
        return WIDTH;
    }
    // A one before the part keeps its zeros, and the point takes the one's place.
    let point = write_digits(d.power + part, column, WIDTH);
    column[point] = b'.';
    point
}

// Units with a minus or without, which a zero never has; no point where d is 0.
fn fixed_column(minus: bool, u: Units, d: Decimals) -> Column
    requires whole { u.whole ≤ 2 ^ 63 }
    requires part { u.part < 10 ^ d.count }
    ensures { result ≡ right_justified column_bytes (fixed d.count (signed minus (u.whole * 10 ^ d.count + u.part))) }
{
    let mut column = [b' '; WIDTH];
    let point = put_decimals(&mut column, u.part, d);
    let from = write_digits(u.whole, &mut column, point);
    if minus && 0 < u.whole + u.part {
        column[from - 1] = b'-';
    }
    column
}

// num / den, rounded once: below 0 the size goes the other way.
fn exact_column(num: i64, den: u64, up: bool, d: Decimals) -> Column
    requires some { 0 < den }
    requires small { den < 2 ^ 63 }
    ensures { result ≡ right_justified column_bytes (fixed d.count (round_to up (num *ℤ pos (10 ^ d.count)) den)) }
{
    let m = num.unsigned_abs();
    if num < 0 {
        fixed_column(true, rounded(m, den, !up, d), d)
    } else {
        fixed_column(false, rounded(m, den, up, d), d)
    }
}

// A load rounded once, or none where there is none.
pub fn load_column(load: Option<Load>, up: bool, d: Decimals) -> Column
    ensures { result ≡ right_justified column_bytes (load_text (round_to up) d.count (load_of load)) }
{
    match load {
        Some(Load { num, den }) if 0 < den => exact_column(num, den as u64, up, d),
        _ => none_column(),
    }
}
