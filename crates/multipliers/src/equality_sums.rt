// The sums over the equality rows, each times its multiplier. For speed the rows of an element, and those of an edge,
// are made from what they all read of the mesh, and none of them where all their multipliers are 0.
ghost use Rattle.std.specs.Prelude.{◌≡◌, true, ℕ, pos, ◌+◌, ◌*◌, ◌<◌, ◌≤◌, ◌+ℤ◌, ◌*ℤ◌, length};
ghost use Rattle.integer.specs.Bounds.{Within};
ghost use Rattle.scope.specs.Bounds.{equality_sums};
ghost use Rattle.scope.specs.Claim.{most_multiplier};
ghost use Rattle.scope.specs.Columns.{at};
ghost use Rattle.scope.specs.Mesh.{nodes, elements, edges, equality_count};
ghost use Rattle.scope.specs.Rows.{equality_rows};
ghost use Rattle.scope.specs.Tests.{row_at};
ghost use Rattle.equality.specs.EqualityContracts.{Filled};
ghost use Rattle.multipliers.specs.MultiplierContracts.{NoSums, Summed};

use crate::sums::Sums;
use crate::weighted_rows::WeightedRows;
use equality::axes::Axis;
use equality::elements::Element;
use equality::equality_rows::equality_row;
use equality::row::EqualityRow;
use equality::sides::Side;
use mesh::limits::{EDGE_ROWS, ELEMENT_ROWS};

// Adds the right side of a row and its coefficient of l, times the multiplier y, to W and m.
fn add_sums(sums: Sums, row: &EqualityRow, y: i64) -> Sums
    requires limit_fits { Within equality_sums sums.w }
    requires live_fits { Within equality_sums sums.m }
    requires multiplier_fits { Within most_multiplier y }
    ensures limit { result.w ≡ sums.w +ℤ y *ℤ row.now.right }
    ensures live { result.m ≡ sums.m +ℤ y *ℤ row.now.live }
{
    Sums {
        w: sums.w + y * row.right,
        m: sums.m + y * row.live,
    }
}

// Adds equality row k, which is lent, times its multiplier, to the column sums and to W and m.
#[inline(always)]
fn add_row(
    rows: &WeightedRows,
    k: usize,
    row: &EqualityRow,
    columns: &mut [i64],
    sums: Sums,
) -> Sums
    requires there { k < equality_count rows.now.mesh.mesh.numbers.now }
    requires filled { let m = rows.now.mesh.mesh.numbers.now in
        Filled row.now (row_at (equality_rows m) k) (3 * nodes m) }
    requires before { Summed rows.now.mesh.mesh.numbers.now rows.now.multipliers.now k columns.old sums }
    ensures { Summed rows.now.mesh.mesh.numbers.now rows.now.multipliers.now (k + 1) columns.new result }
{
    let y = rows.multipliers[k];
    if y == 0 {
        return sums;
    }
    row.add_to(columns, y);
    add_sums(sums, row, y)
}

// The multipliers of n rows from row k on are all 0.
fn none_weighted(rows: &WeightedRows, k: usize, n: usize) -> bool
    requires { k + n ≤ length rows.now.multipliers.now }
    ensures { result ≡ true → (i : ℕ) → i < n → at rows.now.multipliers.now (k + i) ≡ pos 0 }
{
    for i in 0..n {
        if rows.multipliers[k + i] != 0 {
            return false;
        }
    }
    true
}

// Adds the rows of element e.
fn add_element(rows: &WeightedRows, e: usize, columns: &mut [i64], sums: Sums) -> Sums
    requires there { e < elements rows.now.mesh.mesh.numbers.now }
    requires before { Summed rows.now.mesh.mesh.numbers.now rows.now.multipliers.now (e * 2) columns.old sums }
    ensures { Summed rows.now.mesh.mesh.numbers.now rows.now.multipliers.now ((e + 1) * 2) columns.new result }
{
    let first = e * ELEMENT_ROWS;
    if none_weighted(rows, first, ELEMENT_ROWS) {
        return sums;
    }
    let element = Element::of(&rows.mesh.mesh, e);
    let with_x = add_row(rows, first, &element.row(Axis::X), columns, sums);
    add_row(rows, first + 1, &element.row(Axis::Y), columns, with_x)
}

// The rows of all elements, to column sums that are 0 yet.
fn balance_sums(rows: &WeightedRows, columns: &mut [i64]) -> Sums
    requires { NoSums columns.old }
    ensures { let m = rows.now.mesh.mesh.numbers.now in
        Summed m rows.now.multipliers.now (elements m * 2) columns.new result }
{
    let mut sums = Sums::default();
    for e in 0..rows.mesh.mesh.sizes.elements {
        sums = add_element(rows, e, columns, sums);
    }
    sums
}

// Adds the rows of edge g.
fn add_edge(rows: &WeightedRows, g: usize, columns: &mut [i64], sums: Sums) -> Sums
    requires there { g < edges rows.now.mesh.mesh.numbers.now }
    requires before { let m = rows.now.mesh.mesh.numbers.now in
        Summed m rows.now.multipliers.now (elements m * 2 + g * 4) columns.old sums }
    ensures { let m = rows.now.mesh.mesh.numbers.now in
        Summed m rows.now.multipliers.now (elements m * 2 + (g + 1) * 4) columns.new result }
{
    let first = rows.mesh.mesh.sizes.elements * ELEMENT_ROWS + g * EDGE_ROWS;
    if none_weighted(rows, first, EDGE_ROWS) {
        return sums;
    }
    let side = Side::of(&rows.mesh.mesh, g);
    let mut with_rows = sums;
    for i in 0..EDGE_ROWS {
        with_rows = add_row(rows, first + i, &side.row(i), columns, with_rows);
    }
    with_rows
}

// The rows of all edges, to the sums over those of the elements.
fn edge_sums(rows: &WeightedRows, columns: &mut [i64], balances: Sums) -> Sums
    requires { let m = rows.now.mesh.mesh.numbers.now in
        Summed m rows.now.multipliers.now (elements m * 2) columns.old balances }
    ensures { let m = rows.now.mesh.mesh.numbers.now in
        Summed m rows.now.multipliers.now (elements m * 2 + edges m * 4) columns.new result }
{
    let mut sums = balances;
    for g in 0..rows.mesh.mesh.sizes.edges {
        sums = add_edge(rows, g, columns, sums);
    }
    sums
}

// Adds equality row k.
fn add_equality(rows: &WeightedRows, k: usize, columns: &mut [i64], sums: Sums) -> Sums
    requires there { k < equality_count rows.now.mesh.mesh.numbers.now }
    requires before { Summed rows.now.mesh.mesh.numbers.now rows.now.multipliers.now k columns.old sums }
    ensures { Summed rows.now.mesh.mesh.numbers.now rows.now.multipliers.now (k + 1) columns.new result }
{
    if none_weighted(rows, k, 1) {
        return sums;
    }
    add_row(rows, k, &equality_row(&rows.mesh.mesh, k), columns, sums)
}

// The rows of all jumps, to the sums over those before them.
fn jump_sums(rows: &WeightedRows, columns: &mut [i64], before: Sums) -> Sums
    requires { let m = rows.now.mesh.mesh.numbers.now in
        Summed m rows.now.multipliers.now (elements m * 2 + edges m * 4) columns.old before }
    ensures { let m = rows.now.mesh.mesh.numbers.now in
        Summed m rows.now.multipliers.now (equality_count m) columns.new result }
{
    let mut sums = before;
    let sizes = rows.mesh.mesh.sizes;
    let first = sizes.elements * ELEMENT_ROWS + sizes.edges * EDGE_ROWS;
    for k in first..rows.mesh.mesh.equality_count() {
        sums = add_equality(rows, k, columns, sums);
    }
    sums
}

// All equality rows, each times its multiplier: to column sums that are 0 yet.
pub(crate) fn equality_sums(rows: &WeightedRows, columns: &mut [i64]) -> Sums
    requires { NoSums columns.old }
    ensures { Summed rows.now.mesh.mesh.numbers.now rows.now.multipliers.now
        (equality_count rows.now.mesh.mesh.numbers.now) columns.new result }
{
    let balances = balance_sums(rows, columns);
    let with_edges = edge_sums(rows, columns, balances);
    jump_sums(rows, columns, with_edges)
}
