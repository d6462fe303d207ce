// How many decimals a report has.
ghost use Rattle.std.specs.Prelude.{◌≡◌, ◌^◌, ◌≤◌};
ghost use Rattle.report.specs.Report.{most_decimals};

use crate::ReportError;

// "a number of decimals from 0 to 7"
const MOST_DECIMALS: usize = 7;

// A number of decimals that a report has, and how many units of the last of them make one.
#[derive(Clone, Copy)]
pub struct Decimals {
    pub count: usize,
    pub power: u64,
    pub ghost few: { count ≤ most_decimals },
    pub ghost of_ten: { power ≡ 10 ^ count },
}

impl TryFrom<i64> for Decimals {
    ghost use Rattle.std.specs.Prelude.{false, pos, MatchResult};
    ghost use Rattle.report.specs.Report.{is_decimals};
    ghost use Rattle.report.specs.declared.ReportError.TheVariants.{OtherDecimals};

    type Error = ReportError;

    ghost try_from_gives = { λ z r. MatchResult r (λ d. pos d.count ≡ z)
        (λ e. (e ≡ OtherDecimals) × (is_decimals z ≡ false)) };

    fn try_from(decimals: i64) -> Result<Decimals, ReportError> {
        match usize::try_from(decimals) {
            Ok(count) if count <= MOST_DECIMALS => Ok(Decimals {
                count,
                power: 10u64.pow(count as u32),
            }),
            _ => Err(ReportError::OtherDecimals),
        }
    }
}
