// The check of a field against the rows: 21 and 22.
ghost use Rattle.std.specs.Prelude.{◌≡◌, ◌+◌, ◌*◌, ◌<◌, ◌≤◌};
ghost use Rattle.scope.specs.Answer.{outcome_of};
ghost use Rattle.scope.specs.Columns.{at};
ghost use Rattle.scope.specs.Mesh.{most_pairs, most_sides, equality_count};
ghost use Rattle.scope.specs.Rows.{equality_rows, strength_rows};
ghost use Rattle.scope.specs.Sums.{row_holds};
ghost use Rattle.scope.specs.Phases.{check_phase, check_phases};
ghost use Rattle.scope.specs.Refusals.{strengths_phase, field_phases};
ghost use Rattle.scope.specs.Tests.{row_at};
ghost use Rattle.verdict.specs.FieldContracts.{FieldFits};

use crate::equality_checks::equalities_check;
use criterion::fields::Field;
use equality::equality_rows::equality_row;
use mesh::Mesh;
use scope::{Outcome, Place, Reason, demand};

// Equality row k holds at the field x with l and n, or asks nothing.
pub fn equality_holds(m: &Mesh, x: &[i64], l: i64, n: i64, k: usize) -> bool
    requires there { k < equality_count m.now.numbers.now }
    requires field_fits { FieldFits m.now.numbers.now x.now l n }
    ensures { result ≡ row_holds (at x.now) l n (row_at (equality_rows m.now.numbers.now) k) }
{
    equality_row(m, k).holds(x, l, n)
}

// "Its number is (node-1)·sides + k", by pairs of a node and a soil (document 02, N2); a and k are counted from 0.
fn strength_number(a: usize, sides: usize, k: usize) -> u32
    requires pair_there { a < most_pairs }
    requires few_sides { sides ≤ most_sides }
    requires side_there { k ≤ most_sides }
    ensures { result ≡ a * sides + k + 1 }
{
    (a * sides + k + 1) as u32
}

// 22: the lowest strength row that fails, which is one of the lowest pair that has one. For speed a loop with nothing
// else in it asks of each pair whether one fails, and the search only which.
fn strengths_check(field: &Field) -> Outcome
    ensures { outcome_of result
        ≡ check_phase
        (strengths_phase (strength_rows field.now.mesh.mesh.numbers.now) (at field.now.stresses.now)
        field.now.l field.now.n) }
{
    let sides = field.mesh.mesh.sizes.sides;
    for a in 0..field.mesh.pairs.len() {
        if field.pair_holds(a) {
            continue;
        }
        if let Some(k) = field.first_row(a) {
            let row = strength_number(a, sides, k);
            return Err(Reason::Strength.at(Place::Row(row)));
        }
    }
    Ok(())
}

// 21, then 22: a field against the rows.
pub fn field_check(field: &Field) -> Outcome
    ensures { let m = field.now.mesh.mesh.numbers.now in
        outcome_of result
        ≡ check_phases
        (field_phases (equality_rows m) (strength_rows m) (at field.now.stresses.now) field.now.l field.now.n) }
{
    equalities_check(field)?;
    strengths_check(field)
}
