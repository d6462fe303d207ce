// The sums over the strength rows of a pair whose soil is by direction (document 02, N14), each times its multiplier.
ghost use Rattle.std.specs.Prelude.{◌≡◌, true, ◌<◌, ◌≤◌, ◌/◌, length};
ghost use Rattle.integer.specs.Bounds.{Within, AllWithin};
ghost use Rattle.scope.specs.Bounds.{most_plane_radius};
ghost use Rattle.scope.specs.Mesh.{most_sides, most_strength, by_direction};
ghost use Rattle.scope.specs.Rows.{pair_count, pair_at};
ghost use Rattle.bedded.specs.PlaneContracts.{Normals};
ghost use Rattle.multipliers.specs.MultiplierContracts.{PairPart};
ghost use Rattle.multipliers.specs.PlaneSumContracts.{PlaneSumsFit, PlaneAdded, PlaneSumsAre, BedSumsAre};

use crate::sums::{PairSums, PlaneSums};
use crate::weighted_rows::WeightedRows;
use bedded::planes::Bed;
use criterion::pair_planes::pair_planes;

// Adds the two rows of the plane with the normal (a, b)/r, with their multipliers.
fn add_plane(sums: PlaneSums, a: i64, b: i64, plus: i64, minus: i64) -> PlaneSums
    requires a_fits { Within most_plane_radius a }
    requires b_fits { Within most_plane_radius b }
    requires plus_fits { Within most_strength plus }
    requires minus_fits { Within most_strength minus }
    requires sums_fit { PlaneSumsFit sums }
    ensures { PlaneAdded a b plus minus sums result }
{
    if plus == 0 && minus == 0 {
        return sums;
    }
    let both = plus + minus;
    let apart = plus - minus;
    let aa = a * a;
    let ab = a * b;
    let bb = b * b;
    PlaneSums {
        whole: sums.whole + both,
        aa: sums.aa + both * aa,
        ab: sums.ab + both * ab,
        bb: sums.bb + both * bb,
        shear_ab: sums.shear_ab + apart * ab,
        shear_squares: sums.shear_squares + apart * (aa - bb),
    }
}

// All planes of a pair, the corners of the half turn, with the multipliers y of their rows. For speed they are summed
// first, and multiplied by the numbers of the soil once.
fn plane_sums(corners: &[(i64, i64)], y: &[i64]) -> PlaneSums
    requires normals { Normals corners.now }
    requires as_many { length corners.now ≡ length y.now }
    requires few { length y.now ≤ most_sides }
    requires multipliers_fit { AllWithin most_strength y.now }
    ensures { PlaneSumsAre result corners.now y.now (length y.now / 2) }
{
    let mut sums = PlaneSums::default();
    for j in 0..y.len() / 2 {
        let (a, b) = corners[j];
        sums = add_plane(sums, a, b, y[2 * j], y[2 * j + 1]);
    }
    sums
}

// What a pair's strength rows add up to, from the sums over the planes and the numbers of the soil.
fn bed_sums(bed: &Bed, sums: PlaneSums) -> PairSums
    requires { PlaneSumsFit sums }
    ensures { BedSumsAre result bed.now sums }
{
    PairSums {
        sx: bed.p * sums.aa - bed.q * sums.shear_ab,
        sy: bed.p * sums.bb + bed.q * sums.shear_ab,
        t: bed.p * (2 * sums.ab) + bed.q * sums.shear_squares,
        right: bed.q * (bed.radius * bed.radius * bed.along * sums.whole + bed.excess * sums.aa),
    }
}

// What the strength rows of pair a, whose soil is by direction, add up to. For speed it stands apart.
#[inline(never)]
pub(crate) fn planes_part(rows: &WeightedRows, a: usize) -> PairSums
    requires there { a < pair_count rows.now.mesh.mesh.numbers.now }
    requires bedded { by_direction rows.now.mesh.mesh.numbers.now
        (pair_at rows.now.mesh.mesh.numbers.now a).soil ≡ true }
    ensures { PairPart result rows.now.mesh.mesh.numbers.now rows.now.multipliers.now a }
{
    let planes = pair_planes(&rows.mesh, a);
    let sums = plane_sums(planes.corners, rows.of_pair(a));
    bed_sums(&planes.bed, sums)
}
