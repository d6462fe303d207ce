// Equality rows as numbers: two for each element, four for each edge, four for each jump.
ghost use Rattle.std.specs.Prelude.{◌≡◌, ◌+◌, ◌*◌, ◌<◌};
ghost use Rattle.scope.specs.Mesh.{nodes, elements, edges, jumps, equality_count};
ghost use Rattle.scope.specs.Rows.{equality_rows, agree_row};
ghost use Rattle.scope.specs.Tests.{row_at};
ghost use Rattle.equality.specs.EqualityContracts.{row_of, Filled, is_asked, entries_at};

use crate::axes::axis_of;
use crate::elements::Element;
use crate::expressions::{Expression, expression_at};
use crate::geometry::Step;
use crate::parts::{end_of, part_of};
use crate::row::{EqualityRow, Terms};
use crate::sides::Side;
use mesh::Mesh;
use mesh::limits::{EDGE_ROWS, ELEMENT_ROWS, JUMP_ROWS};

// ---- jumps

// The row of an expression at a node, minus the same at the one that faces it.
fn agreement_row(e: Expression, facing: Expression) -> EqualityRow
    ensures { row_of result ≡ agree_row (entries_at e) (entries_at facing) }
{
    EqualityRow {
        terms: Terms::Agreement([
            e.a,
            e.b,
            e.c,
            facing.a.opposite(),
            facing.b.opposite(),
            facing.c.opposite(),
        ]),
        live: 0,
        right: 0,
        asked: true,
    }
}

// Row i of the four of jump j: normal and shear at from, then at to.
fn jump_row(m: &Mesh, j: usize, i: usize) -> EqualityRow
    requires there { j < jumps m.now.numbers.now }
    requires one_of_four { i < 4 }
    ensures { Filled result
        (row_at (equality_rows m.now.numbers.now)
        (elements m.now.numbers.now * 2 + edges m.now.numbers.now * 4 + (j * 4 + i)))
        (3 * nodes m.now.numbers.now) }
{
    let jump = m.jump(j);
    let step = Step::between(m, jump.from, jump.to);
    let part = part_of(i);
    let v = end_of(i, jump.from, jump.to);
    let facing = end_of(i, jump.facing_from, jump.facing_to);
    agreement_row(
        expression_at(part, step, v),
        expression_at(part, step, facing),
    )
}

// ---- all

// Equality row k: two for each element, then four for each edge, then four for each jump.
pub fn equality_row(m: &Mesh, k: usize) -> EqualityRow
    requires { k < equality_count m.now.numbers.now }
    ensures { Filled result (row_at (equality_rows m.now.numbers.now) k)
        (3 * nodes m.now.numbers.now) }
{
    let first = m.sizes.elements * ELEMENT_ROWS;
    if k < first {
        return Element::of(m, k / ELEMENT_ROWS).row(axis_of(k));
    }
    let after = first + m.sizes.edges * EDGE_ROWS;
    if k < after {
        return Side::of(m, (k - first) / EDGE_ROWS).row((k - first) % EDGE_ROWS);
    }
    jump_row(m, (k - after) / JUMP_ROWS, (k - after) % JUMP_ROWS)
}

// Whether equality row k asks anything. For speed only what its edge fixes is read, and no row is made.
pub fn row_asked(m: &Mesh, k: usize) -> bool
    requires { k < equality_count m.now.numbers.now }
    ensures { result ≡ is_asked (row_at (equality_rows m.now.numbers.now) k) }
{
    let first = m.sizes.elements * ELEMENT_ROWS;
    if k < first {
        return true;
    }
    let after = first + m.sizes.edges * EDGE_ROWS;
    if k < after {
        let i = k - first;
        return part_of(i).is_fixed(m.edge(i / EDGE_ROWS).fixed);
    }
    true
}
