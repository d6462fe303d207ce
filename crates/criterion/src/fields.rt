// A claim's field: the stresses of the nodes and the load, and the strength rows of a pair there.
ghost use Rattle.std.specs.Prelude.{◌≡◌, true, ◌*◌, ◌<◌, ◌≤◌, length, IfSome, IfNone};
ghost use Rattle.integer.specs.Bounds.{Within, AllWithin};
ghost use Rattle.scope.specs.Claim.{most_scale, most_load, most_stress};
ghost use Rattle.scope.specs.Columns.{at};
ghost use Rattle.scope.specs.Mesh.{nodes, sides, by_direction};
ghost use Rattle.scope.specs.Rows.{pair_count, pair_at};
ghost use Rattle.lines.specs.SearchContracts.{first_failing};
ghost use Rattle.criterion.specs.StrengthContracts.{PairState, pair_row_holds, pair_holds};
ghost use Rattle.criterion.specs.PlaneContracts.{StressesAre, PlaneState};

use crate::pair_planes::{first_plane, node_stresses, pair_kind, pair_planes};
use crate::polygons::Polygon;
use crate::strength_numbers::PairNumbers;
use crate::strength_rows::{first_side, pair_numbers, sides_hold, soil_numbers};
use bedded::plane_rows::StressedPlanes;
use bedded::planes::Stresses;
use mesh::entries::SoilKind;
use mesh::pairs::PairedMesh;

// The stresses by column, three for each node, over n, and the load factor l/n. What follows the stresses in the claim
// is lent with them.
#[derive(Clone, Copy)]
pub struct Field<'m, 'p> {
    pub mesh: PairedMesh<'m>,
    pub polygon: &'p Polygon,
    pub stresses: &'m [i64],
    pub l: i64,
    pub n: i64,
    pub ghost its_polygon: { length polygon.now.steps.items ≡ sides mesh.mesh.numbers.now },
    pub ghost there: { 3 * nodes mesh.mesh.numbers.now ≤ length stresses.now },
    pub ghost stresses_fit: { AllWithin most_stress stresses.now },
    pub ghost l_fits: { Within most_load l },
    pub ghost n_fits: { Within most_scale n },
}

impl<'m, 'p> Field<'m, 'p> {
    // The numbers of pair a: of its soil, and of its node's stresses.
    pub fn pair_numbers(&self, a: usize) -> PairNumbers
        requires { a < pair_count self.now.mesh.mesh.numbers.now }
        ensures { PairState result self.now.mesh.mesh.numbers.now (at self.now.stresses.now) self.now.n a }
    {
        let pair = self.mesh.pairs[a];
        let soil = soil_numbers(&self.mesh.mesh, usize::from(pair.soil), self.polygon.radius);
        pair_numbers(soil, self.stresses, usize::from(pair.node), self.n)
    }

    // The stresses of the node of pair a.
    fn stresses_at(&self, a: usize) -> Stresses
        requires { a < pair_count self.now.mesh.mesh.numbers.now }
        ensures { StressesAre result (at self.now.stresses.now)
            (pair_at self.now.mesh.mesh.numbers.now a).at self.now.n }
    {
        let pair = self.mesh.pairs[a];
        node_stresses(self.stresses, usize::from(pair.node), self.n)
    }

    // The planes of pair a, whose soil is by direction, at those stresses.
    pub fn planes_at(&self, a: usize) -> StressedPlanes<'static>
        requires there { a < pair_count self.now.mesh.mesh.numbers.now }
        requires bedded { by_direction self.now.mesh.mesh.numbers.now
            (pair_at self.now.mesh.mesh.numbers.now a).soil ≡ true }
        ensures { PlaneState result self.now.mesh.mesh.numbers.now (at self.now.stresses.now) self.now.n a }
    {
        pair_planes(&self.mesh, a).stressed(&self.stresses_at(a))
    }

    // Each strength row of pair a, whose soil is by direction, holds. For speed it stands apart.
    #[inline(never)]
    fn pair_planes_hold(&self, a: usize) -> bool
        requires there { a < pair_count self.now.mesh.mesh.numbers.now }
        requires bedded { by_direction self.now.mesh.mesh.numbers.now
            (pair_at self.now.mesh.mesh.numbers.now a).soil ≡ true }
        ensures { result
            ≡ pair_holds self.now.mesh.mesh.numbers.now (at self.now.stresses.now) self.now.l self.now.n a }
    {
        self.planes_at(a).hold()
    }

    // 22 at pair a: each of its strength rows holds.
    pub fn pair_holds(&self, a: usize) -> bool
        requires { a < pair_count self.now.mesh.mesh.numbers.now }
        ensures { result
            ≡ pair_holds self.now.mesh.mesh.numbers.now (at self.now.stresses.now) self.now.l self.now.n a }
    {
        match pair_kind(&self.mesh, a) {
            SoilKind::AsBefore => sides_hold(self.polygon.sides(), &self.pair_numbers(a)),
            SoilKind::ByDirection => self.pair_planes_hold(a),
        }
    }

    // The first of the strength rows of pair a that fails. For speed it stands apart.
    #[inline(never)]
    pub fn first_row(&self, a: usize) -> Option<usize>
        requires { a < pair_count self.now.mesh.mesh.numbers.now }
        ensures found { IfSome result (λ k. k
            ≡ first_failing
            (pair_row_holds self.now.mesh.mesh.numbers.now (at self.now.stresses.now) self.now.l self.now.n a)
            (sides self.now.mesh.mesh.numbers.now)) }
        ensures none { IfNone result
            (pair_holds self.now.mesh.mesh.numbers.now (at self.now.stresses.now) self.now.l self.now.n a ≡ true) }
    {
        match pair_kind(&self.mesh, a) {
            SoilKind::AsBefore => first_side(self.polygon.sides(), &self.pair_numbers(a)),
            SoilKind::ByDirection => first_plane(&self.planes_at(a)),
        }
    }
}
