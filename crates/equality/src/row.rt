// An equality row as numbers: whether it holds at a field, and the row times its multiplier added to the columns.
ghost use Rattle.std.specs.Prelude.{◌≡◌, ◌<◌, ◌+◌, ◌+ℤ◌, ◌*ℤ◌, neg_ℤ, length, set};
ghost use Rattle.integer.specs.Bounds.{Within, AllWithin};
ghost use Rattle.scope.specs.Columns.{at};
ghost use Rattle.scope.specs.Bounds.{most_coefficient, equality_right, equality_left, equality_column, most_column, most_addend};
ghost use Rattle.scope.specs.Claim.{most_stress, most_load, most_scale, most_multiplier};
ghost use Rattle.scope.specs.Sums.{weighted_sum, unit, row_holds};

use crate::row_sums::{add_terms, left_side};

// A coefficient, and the column of the stress that it stands at.
#[derive(Clone, Copy)]
pub struct Term {
    pub column: usize,
    pub coefficient: i64,
    pub ghost coefficient_fits: { Within most_coefficient coefficient },
}

impl Term {
    pub(crate) fn new(column: usize, coefficient: i64) -> Term
        requires { Within most_coefficient coefficient }
        ensures column { result.column ≡ column }
        ensures coefficient { result.coefficient ≡ coefficient }
    {
        Term {
            column,
            coefficient,
        }
    }

    // The same with the other sign.
    pub(crate) fn opposite(self) -> Term
        ensures column { result.column ≡ self.column }
        ensures coefficient { result.coefficient ≡ neg_ℤ self.coefficient }
    {
        Term {
            column: self.column,
            coefficient: -self.coefficient,
        }
    }
}

// The terms of a row, by its kind: of a balance at the four corners of an element, of a traction at a node, and of the
// agreement of two nodes across a jump.
#[derive(Clone, Copy)]
pub enum Terms {
    Balance([Term; 8]),
    Traction([Term; 3]),
    Agreement([Term; 6]),
}

// The terms, the coefficient of l on the left, the right side at n = 1, and whether the row asks anything.
#[derive(Clone, Copy)]
pub struct EqualityRow {
    pub terms: Terms,
    pub live: i64,
    pub right: i64,
    pub asked: bool,
    pub ghost live_fits: { Within equality_right live },
    pub ghost right_fits: { Within equality_right right },
}

impl EqualityRow {
    ghost use Rattle.std.specs.Prelude.{◌≤◌};
    ghost use Rattle.scope.specs.Bounds.{most_entries};
    ghost use Rattle.equality.specs.EqualityContracts.{
      terms_of,
      entries_of,
      row_of,
      ColumnsBelow,
      SumsAre,
    };

    // The terms that it has.
    #[inline(always)]
    pub(crate) fn terms(&self) -> &[Term]
        ensures terms { result.now ≡ terms_of self.now.terms }
        ensures few { length result.now ≤ most_entries }
    {
        match &self.terms {
            Terms::Balance(terms) => terms,
            Terms::Traction(terms) => terms,
            Terms::Agreement(terms) => terms,
        }
    }

    // Whether it holds at the field x with l and n, or asks nothing.
    #[inline(always)]
    pub fn holds(&self, x: &[i64], l: i64, n: i64) -> bool
        requires columns_there { ColumnsBelow (length x.now) (entries_of self.now) }
        requires field_fits { AllWithin most_stress x.now }
        requires load_fits { Within most_load l }
        requires scale_fits { Within most_scale n }
        ensures { result ≡ row_holds (at x.now) l n (row_of self.now) }
    {
        !self.asked || left_side(self.terms(), self.live, x, l) == self.right * n
    }

    // Adds it, times y, to the column sums.
    #[inline(always)]
    pub fn add_to(&self, sums: &mut [i64], y: i64)
        requires columns_there { ColumnsBelow (length sums.old) (entries_of self.now) }
        requires sums_fit { AllWithin most_column sums.old }
        requires multiplier_fits { Within most_multiplier y }
        ensures { SumsAre (most_column + equality_column) sums.new
            (λ j. at sums.old j
            +ℤ y *ℤ weighted_sum (unit j) (entries_of self.now)) }
    {
        add_terms(sums, self.terms(), y);
    }
}

// Adds c to the sum of column j.
pub fn add_at(sums: &mut [i64], j: usize, c: i64)
    requires column_there { j < length sums.old }
    requires sums_fit { AllWithin most_addend sums.old }
    requires addend_fits { Within most_addend c }
    ensures { sums.new ≡ set sums.old j (at sums.old j +ℤ c) }
{
    sums[j] += c;
}
