// The rows of an edge, from what all four read of the mesh.
ghost use Rattle.std.specs.Prelude.{◌≡◌, ◌+◌, ◌*◌, ◌<◌};
ghost use Rattle.std.proofs.Props.{props};
ghost use Rattle.integer.specs.Bounds.{Within};
ghost use Rattle.scope.specs.Mesh.{nodes, elements, edges};
ghost use Rattle.scope.specs.Bounds.{most_square};
ghost use Rattle.scope.specs.Rows.{equality_rows, step_x, step_y};
ghost use Rattle.scope.specs.Tests.{row_at};
ghost use Rattle.mesh.specs.EntryContracts.{EdgeOf};
ghost use Rattle.equality.specs.EqualityContracts.{row_of, entries_at, traction_row, StepIs};

use crate::expressions::{Expression, expression_at};
use crate::geometry::Step;
use crate::parts::{end_of, part_of};
use crate::row::{EqualityRow, Terms};
use crate::tractions::Traction;
use mesh::Mesh;
use mesh::entries::Edge;

// The row of an expression on a side with this square of its step.
fn traction_row(e: Expression, square: i64, t: Traction) -> EqualityRow
    requires { Within most_square square }
    ensures { row_of result ≡ traction_row (entries_at e) square t }
{
    EqualityRow {
        terms: Terms::Traction([e.a, e.b, e.c]),
        live: -(square * t.live),
        right: square * t.dead,
        asked: t.fixed,
    }
}

// An edge of a mesh, with its step.
#[derive(Clone, Copy)]
pub struct Side<'a, 'm> {
    pub mesh: &'a Mesh<'m>,
    pub number: usize,
    pub edge: Edge,
    pub step: Step,
    pub ghost there: { number < edges mesh.now.numbers.now },
    pub ghost edge_is: { EdgeOf edge mesh.now.numbers.now number } by { Prim.hlevel props },
    pub ghost step_is: { StepIs step (step_x mesh.now.numbers.now number) (step_y mesh.now.numbers.now number) } by { Prim.hlevel props },
}

impl<'a, 'm> Side<'a, 'm> {
    ghost use Rattle.equality.specs.EqualityContracts.{Filled};

    // Edge g of a mesh.
    #[inline(always)]
    pub fn of(mesh: &'a Mesh<'m>, g: usize) -> Side<'a, 'm>
        requires { g < edges mesh.now.numbers.now }
        ensures mesh { result.mesh.now ≡ mesh.now }
        ensures number { result.number ≡ g }
    {
        let edge = mesh.edge(g);
        Side {
            mesh,
            number: g,
            edge,
            step: Step::between(mesh, edge.from, edge.to),
        }
    }

    // Row i of its four: normal and shear at from, then at to.
    #[inline(always)]
    pub fn row(&self, i: usize) -> EqualityRow
        requires { i < 4 }
        ensures { let m = self.now.mesh.now.numbers.now in
            Filled result (row_at (equality_rows m) (elements m * 2 + (self.now.number * 4 + i))) (3 * nodes m) }
    {
        let part = part_of(i);
        let v = end_of(i, self.edge.from, self.edge.to);
        traction_row(
            expression_at(part, self.step, v),
            self.step.square(),
            Traction::of(self.edge, part),
        )
    }
}
