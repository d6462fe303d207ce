// The check of a field against the equality rows: 21. For speed the rows of an element, and those of an edge, are asked
// together, from what they all read of the mesh; the search for the lowest that fails begins where these end.
ghost use Rattle.std.specs.Prelude.{◌≡◌, true, ◌+◌, ◌*◌, ◌<◌, ◌≤◌};
ghost use Rattle.scope.specs.Answer.{outcome_of};
ghost use Rattle.scope.specs.Checks.{all_below};
ghost use Rattle.scope.specs.Columns.{at};
ghost use Rattle.scope.specs.Mesh.{nodes, elements, edges, equality_count};
ghost use Rattle.scope.specs.Phases.{check_phase};
ghost use Rattle.scope.specs.Refusals.{equalities_phase};
ghost use Rattle.scope.specs.Rows.{equality_rows};
ghost use Rattle.scope.specs.Sums.{row_holds};
ghost use Rattle.equality.specs.EqualityContracts.{ColumnsBelow, entries_of, row_of};
ghost use Rattle.verdict.specs.FieldContracts.{passes, pass_from};

use crate::field_checks::equality_holds;
use criterion::fields::Field;
use equality::axes::Axis;
use equality::elements::Element;
use equality::row::EqualityRow;
use equality::sides::Side;
use mesh::limits::{EDGE_ROWS, ELEMENT_ROWS};
use scope::{Outcome, Place, Reason, demand};

// A row holds at the field, or asks nothing.
#[inline(always)]
fn row_passes(field: &Field, row: &EqualityRow) -> bool
    requires { ColumnsBelow (3 * nodes field.now.mesh.mesh.numbers.now) (entries_of row.now) }
    ensures { result
        ≡ row_holds (at field.now.stresses.now) field.now.l field.now.n (row_of row.now) }
{
    row.holds(field.stresses, field.l, field.n)
}

// So does equality row k.
fn equality_passes(field: &Field, k: usize) -> bool
    requires { k < equality_count field.now.mesh.mesh.numbers.now }
    ensures { result ≡ passes field.now k }
{
    equality_holds(&field.mesh.mesh, field.stresses, field.l, field.n, k)
}

// So do both rows of element e.
fn element_passes(field: &Field, e: usize) -> bool
    requires { e < elements field.now.mesh.mesh.numbers.now }
    ensures { result ≡ pass_from field.now (e * 2) 2 }
{
    let element = Element::of(&field.mesh.mesh, e);
    row_passes(field, &element.row(Axis::X)) && row_passes(field, &element.row(Axis::Y))
}

// How many rows pass before those of an element that has one that fails.
fn balances_passed(field: &Field) -> usize
    ensures few { result ≤ elements field.now.mesh.mesh.numbers.now * 2 }
    ensures passed { all_below (passes field.now) result ≡ true }
{
    let elements = field.mesh.mesh.sizes.elements;
    for e in 0..elements {
        if !element_passes(field, e) {
            return e * ELEMENT_ROWS;
        }
    }
    elements * ELEMENT_ROWS
}

// So do the four rows of edge g.
fn side_passes(field: &Field, g: usize) -> bool
    requires { g < edges field.now.mesh.mesh.numbers.now }
    ensures { result ≡ pass_from field.now (elements field.now.mesh.mesh.numbers.now * 2 + g * 4) 4 }
{
    let side = Side::of(&field.mesh.mesh, g);
    for i in 0..EDGE_ROWS {
        if !row_passes(field, &side.row(i)) {
            return false;
        }
    }
    true
}

// How many rows pass before those of an edge that has one that fails, where the rows of all elements do.
fn sides_passed(field: &Field) -> usize
    requires { all_below (passes field.now) (elements field.now.mesh.mesh.numbers.now * 2) ≡ true }
    ensures few { result
        ≤ elements field.now.mesh.mesh.numbers.now * 2 + edges field.now.mesh.mesh.numbers.now * 4 }
    ensures passed { all_below (passes field.now) result ≡ true }
{
    let first = field.mesh.mesh.sizes.elements * ELEMENT_ROWS;
    let edges = field.mesh.mesh.sizes.edges;
    for g in 0..edges {
        if !side_passes(field, g) {
            return first + g * EDGE_ROWS;
        }
    }
    first + edges * EDGE_ROWS
}

// How many rows pass before those of an element or an edge that has one that fails.
fn rows_passed(field: &Field) -> usize
    ensures few { result ≤ equality_count field.now.mesh.mesh.numbers.now }
    ensures passed { all_below (passes field.now) result ≡ true }
{
    let passed = balances_passed(field);
    if passed < field.mesh.mesh.sizes.elements * ELEMENT_ROWS {
        return passed;
    }
    sides_passed(field)
}

// 21: the lowest equality row that fails.
pub(crate) fn equalities_check(field: &Field) -> Outcome
    ensures { outcome_of result
        ≡ check_phase
        (equalities_phase (equality_rows field.now.mesh.mesh.numbers.now) (at field.now.stresses.now)
        field.now.l field.now.n) }
{
    for k in rows_passed(field)..field.mesh.mesh.equality_count() {
        let passes = equality_passes(field, k);
        demand(passes, Reason::Equality.at(Place::Row(k as u32 + 1)))?;
    }
    Ok(())
}
