// The balance rows of an element, from what both read of the mesh.
ghost use Rattle.std.specs.Prelude.{◌≡◌, ◌+◌, ◌*◌, ◌<◌, map};
ghost use Rattle.std.proofs.Props.{props};
ghost use Rattle.scope.specs.Mesh.{nodes, elements, element_soil};
ghost use Rattle.scope.specs.Rows.{equality_rows};
ghost use Rattle.scope.specs.Tests.{row_at};
ghost use Rattle.mesh.specs.EntryContracts.{SoilOf};
ghost use Rattle.equality.specs.EqualityContracts.{CornersAre, SpanIs};

use crate::axes::Axis;
use crate::geometry::{Corners, Span};
use crate::row::{EqualityRow, Term, Terms};
use mesh::Mesh;
use mesh::entries::Soil;

// An element of a mesh, with its corners, its span and its soil.
#[derive(Clone, Copy)]
pub struct Element<'a, 'm> {
    pub mesh: &'a Mesh<'m>,
    pub number: usize,
    pub corners: Corners,
    pub span: Span,
    pub soil: Soil,
    pub ghost there: { number < elements mesh.now.numbers.now },
    pub ghost corners_are: { CornersAre corners mesh.now.numbers.now number } by { Prim.hlevel props },
    pub ghost span_is: { SpanIs span mesh.now.numbers.now number } by { Prim.hlevel props },
    pub ghost soil_is: { SoilOf soil mesh.now.numbers.now (element_soil mesh.now.numbers.now number) } by { Prim.hlevel props },
}

impl<'a, 'm> Element<'a, 'm> {
    ghost use Rattle.equality.specs.EqualityContracts.{entry_of, Filled, number, balance_entries};

    // Element e of a mesh.
    #[inline(always)]
    pub fn of(mesh: &'a Mesh<'m>, e: usize) -> Element<'a, 'm>
        requires { e < elements mesh.now.numbers.now }
        ensures mesh { result.mesh.now ≡ mesh.now }
        ensures number { result.number ≡ e }
    {
        let v = Corners::of(mesh, e);
        Element {
            mesh,
            number: e,
            corners: v,
            span: Span {
                rise: mesh.rise(v.b, v.d),
                rise_next: mesh.rise(v.c, v.a),
                run: mesh.run(v.d, v.b),
                run_next: mesh.run(v.a, v.c),
            },
            soil: mesh.soil(mesh.element_soil(e)),
        }
    }

    // The terms of its balance along an axis, which reads its span so: at each corner of sx or of sy, and of t.
    #[inline(always)]
    fn terms(&self, g: Span, axis: Axis) -> [Term; 8]
        ensures { map entry_of result ≡ balance_entries self.now.mesh.now.numbers.now self.now.number g axis }
    {
        let v = self.corners;
        let normal = axis.number();
        [
            Term::new(3 * v.a + normal, g.rise),
            Term::new(3 * v.a + 2, g.run),
            Term::new(3 * v.b + normal, g.rise_next),
            Term::new(3 * v.b + 2, g.run_next),
            Term::new(3 * v.c + normal, -g.rise),
            Term::new(3 * v.c + 2, -g.run),
            Term::new(3 * v.d + normal, -g.rise_next),
            Term::new(3 * v.d + 2, -g.run_next),
        ]
    }

    // Its balance along an axis.
    #[inline(always)]
    pub fn row(&self, axis: Axis) -> EqualityRow
        ensures { let m = self.now.mesh.now.numbers.now in
            Filled result (row_at (equality_rows m) (self.now.number * 2 + number axis)) (3 * nodes m) }
    {
        let area = self.span.twice_area();
        EqualityRow {
            terms: Terms::Balance(self.terms(self.span.along(axis), axis)),
            live: area * axis.of(self.soil.live),
            right: -(area * axis.of(self.soil.dead)),
            asked: true,
        }
    }
}
