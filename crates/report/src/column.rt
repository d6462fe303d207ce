// Texts at the end of a column of 28.
ghost use Rattle.std.specs.Prelude.{◌≡◌};
ghost use Rattle.integer.specs.Decimal.{digits, right_justified};
ghost use Rattle.scope.specs.Answer.{open_rows_of};
ghost use Rattle.report.specs.Text.{none_text};
ghost use Rattle.report.specs.Report.{column_bytes, open_text};

use itoa::write_digits;

// "four columns of 28"
pub const WIDTH: usize = 28;

pub type Column = [u8; WIDTH];

// "the four letters none"
pub fn none_column() -> Column
    ensures { result ≡ right_justified column_bytes none_text }
{
    *b"                        none"
}

// A number.
pub fn number_column(k: u64) -> Column
    ensures { result ≡ right_justified column_bytes (digits k) }
{
    let mut column = [b' '; WIDTH];
    write_digits(k, &mut column, WIDTH);
    column
}

// The open rows, or none where there is no count.
pub fn open_column(open_rows: Option<u64>) -> Column
    ensures { result ≡ right_justified column_bytes (open_text (open_rows_of open_rows)) }
{
    open_rows.map_or(none_column(), number_column)
}
