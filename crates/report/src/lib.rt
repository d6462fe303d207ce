// A verdict into the report line of 113 bytes.

#![tactic(auto)]

mod column;
mod decimals;
mod division;
mod load;

ghost use Rattle.std.specs.Prelude.{◌≡◌, [], ◌∷◌, ◌++◌, ◌≤◌, length, drop, flat_map};
ghost use Rattle.scope.specs.Answer.{verdict_of};
ghost use Rattle.report.specs.Report.{report_bytes, report_line};
ghost use Rattle.report.specs.Buffer.{error_number, Reports};

use column::{Column, WIDTH, none_column, number_column, open_column};
use decimals::Decimals;
use load::load_column;
use scope::Verdict;

// Why no line is written, by the number that is returned for it: no report has so many decimals, which comes first, or
// the buffer has no room for it.
#[derive(Clone, Copy)]
pub enum ReportError {
    OtherDecimals = 43,
    ShortBuffer = 41,
}

impl ReportError {
    // The number that is returned for it, with place 0.
    pub fn number(self) -> u32
        ensures { result ≡ error_number self }
    {
        self as u32
    }
}

const COLUMNS: usize = 4;

// Where the columns end.
const END: usize = COLUMNS * WIDTH;

// "The report is 113 bytes": four columns and byte 10.
pub const LINE: usize = END + 1;

// "The desk program and N3's runs go on with six"
pub const USUAL_DECIMALS: i64 = 6;

// The columns that make the line, with byte 10 behind them: "Accepted .. reports: 0; the open rows ..; l/n; W/m";
// "Refused: number, place, none, none".
fn line_columns(v: Verdict, d: Decimals) -> [Column; COLUMNS]
    ensures { flat_map (λ c. c) result ++ (10 ∷ []) ≡ report_line d.count (verdict_of v) }
{
    match v {
        Ok(a) => [
            number_column(0),
            open_column(a.open_rows),
            load_column(a.lower, false, d),
            load_column(a.upper, true, d),
        ],
        Err(refusal) => [
            number_column(u64::from(refusal.number)),
            number_column(u64::from(refusal.place.number())),
            none_column(),
            none_column(),
        ],
    }
}

// Four columns and byte 10, at the front of the buffer.
fn put_line(buffer: &mut [u8], columns: &[Column; COLUMNS])
    requires room { report_bytes ≤ length buffer.old }
    ensures { buffer.new ≡ flat_map (λ c. c) columns.now ++ (10 ∷ drop report_bytes buffer.old) }
{
    buffer[0..END].copy_from_slice(columns.as_flattened());
    buffer[END] = b'\n';
}

// The report of a verdict, with so many decimals, at the front of the buffer that is lent.
pub fn write_report(v: Verdict, buffer: &mut [u8], decimals: i64) -> Result<(), ReportError>
    ensures { Reports decimals (verdict_of v) buffer.old buffer.new result }
{
    let d = Decimals::try_from(decimals)?;
    if buffer.len() < LINE {
        return Err(ReportError::ShortBuffer);
    }
    put_line(buffer, &line_columns(v, d));
    Ok(())
}
