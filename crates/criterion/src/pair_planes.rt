// The strength rows of a pair whose soil is by direction (document 02, N14).
ghost use Rattle.std.specs.Prelude.{◌≡◌, true, ◌+◌, ◌*◌, ◌<◌, length, pos, IfSome, IfNone};
ghost use Rattle.std.specs.Int.Signed.{le_z};
ghost use Rattle.integer.specs.Bounds.{Within, AllWithin};
ghost use Rattle.scope.specs.Claim.{most_scale, most_stress};
ghost use Rattle.scope.specs.Checks.{all_below};
ghost use Rattle.scope.specs.Columns.{at};
ghost use Rattle.scope.specs.Mesh.{by_direction};
ghost use Rattle.scope.specs.Rows.{pair_count, pair_at};
ghost use Rattle.mesh.specs.EntryContracts.{is_by_direction};
ghost use Rattle.lines.specs.SearchContracts.{first_failing};
ghost use Rattle.bedded.specs.PlaneContracts.{slack_at};
ghost use Rattle.criterion.specs.PlaneContracts.{PlanesAre, StressesAre};

use crate::polygons::circle_of;
use bedded::beds::bed_of;
use bedded::plane_rows::{Planes, StressedPlanes};
use bedded::planes::Stresses;
use mesh::entries::SoilKind;
use mesh::pairs::PairedMesh;

// The kind of the soil of pair a.
pub fn pair_kind(mesh: &PairedMesh, a: usize) -> SoilKind
    requires { a < pair_count mesh.now.mesh.numbers.now }
    ensures { is_by_direction result
        ≡ by_direction mesh.now.mesh.numbers.now (pair_at mesh.now.mesh.numbers.now a).soil }
{
    mesh.mesh.soil_kind(usize::from(mesh.pairs[a].soil))
}

// The planes of pair a, whose soil is by direction.
pub fn pair_planes(mesh: &PairedMesh, a: usize) -> Planes<'static>
    requires there { a < pair_count mesh.now.mesh.numbers.now }
    requires bedded { by_direction mesh.now.mesh.numbers.now (pair_at mesh.now.mesh.numbers.now a).soil ≡ true }
    ensures { PlanesAre result mesh.now.mesh.numbers.now a }
{
    let (radius, corners) = circle_of(mesh.mesh.sizes.sides);
    let soil = usize::from(mesh.pairs[a].soil);
    Planes {
        bed: bed_of(&mesh.mesh, soil, radius),
        corners,
    }
}

// What its rows are held against at node v of a field.
pub(crate) fn node_stresses(x: &[i64], v: usize, n: i64) -> Stresses
    requires node_there { 3 * v + 2 < length x.now }
    requires stresses_fit { AllWithin most_stress x.now }
    requires scale_fits { Within most_scale n }
    ensures { StressesAre result (at x.now) v n }
{
    Stresses {
        sx: x[3 * v],
        sy: x[3 * v + 1],
        t: x[3 * v + 2],
        n,
    }
}

// The first row that fails.
pub(crate) fn first_plane(planes: &StressedPlanes) -> Option<usize>
    ensures found { IfSome result (λ k. k
        ≡ first_failing (λ k. le_z (pos 0) (slack_at planes.now.numbers planes.now.corners.now k))
        (length planes.now.corners.now)) }
    ensures none { IfNone result (all_below
        (λ k. le_z (pos 0) (slack_at planes.now.numbers planes.now.corners.now k))
        (length planes.now.corners.now) ≡ true) }
{
    (0..planes.corners.len()).find(|&k| !planes.row_holds(k))
}
