// A row lent by its terms: its left side at a field, and the row times its multiplier added to the column sums.
ghost use Rattle.std.specs.Prelude.{◌≤◌, ◌+◌, ◌+ℤ◌, ◌*ℤ◌, map, length};
ghost use Rattle.integer.specs.Bounds.{Within, AllWithin, Is};
ghost use Rattle.scope.specs.Columns.{at};
ghost use Rattle.scope.specs.Bounds.{most_entries, equality_right, equality_left, equality_column, most_column};
ghost use Rattle.scope.specs.Claim.{most_stress, most_load, most_multiplier};
ghost use Rattle.scope.specs.Sums.{weighted_sum, unit};
ghost use Rattle.equality.specs.EqualityContracts.{entry_of, ColumnsBelow, SumsAre};

use crate::row::{Term, add_at};

// The left side, at the field x with l, of a row with these terms and this coefficient of l.
#[inline(always)]
pub fn left_side(terms: &[Term], live: i64, x: &[i64], l: i64) -> i64
    requires few { length terms.now ≤ most_entries }
    requires columns_there { ColumnsBelow (length x.now) (map entry_of terms.now) }
    requires live_fits { Within equality_right live }
    requires field_fits { AllWithin most_stress x.now }
    requires load_fits { Within most_load l }
    ensures { Is result
        (weighted_sum (at x.now) (map entry_of terms.now) +ℤ live *ℤ l) equality_left }
{
    let mut sum = 0;
    for term in terms {
        sum += term.coefficient * x[term.column];
    }
    sum + live * l
}

// Adds a row with these terms, times y, to the column sums.
#[inline(always)]
pub fn add_terms(sums: &mut [i64], terms: &[Term], y: i64)
    requires few { length terms.now ≤ most_entries }
    requires columns_there { ColumnsBelow (length sums.old) (map entry_of terms.now) }
    requires sums_fit { AllWithin most_column sums.old }
    requires multiplier_fits { Within most_multiplier y }
    ensures { SumsAre (most_column + equality_column) sums.new
        (λ j. at sums.old j +ℤ y *ℤ weighted_sum (unit j) (map entry_of terms.now)) }
{
    for term in terms {
        add_at(sums, term.column, y * term.coefficient);
    }
}
