// The rows of a soil by direction, two for each plane of the first half turn, and whether they hold at a node. No row
// is made: the slacks of a plane's two rows are computed where they are asked, from its normal.
ghost use Rattle.std.specs.Prelude.{◌≡◌, ◌<◌, ◌/◌, ◌*◌, ◌+◌, ◌&&◌, ◌+ℤ◌, ◌-ℤ◌, length, pos};
ghost use Rattle.std.specs.Int.Signed.{le_z};
ghost use Rattle.std.proofs.Props.{props};
ghost use Rattle.integer.specs.Bounds.{Is, Within};
ghost use Rattle.scope.specs.Bounds.{most_plane_radius, plane_slack};
ghost use Rattle.scope.specs.Checks.{all_below};
ghost use Rattle.bedded.specs.PlaneContracts.{
  NumbersAre,
  Normals,
  reserve_of,
  shear_of,
  slack_at,
};

use crate::planes::{Bed, PlaneNumbers, Slacks, Stresses};

// A soil at the stresses of a node.
fn plane_numbers(bed: &Bed, stresses: &Stresses) -> PlaneNumbers
    ensures { NumbersAre result bed.now stresses.now }
{
    let scaled = bed.q * stresses.n;
    PlaneNumbers {
        base: scaled * (bed.radius * bed.radius * bed.along),
        aa: scaled * bed.excess - bed.p * stresses.sx,
        bb: -(bed.p * stresses.sy),
        ab: -(2 * bed.p * stresses.t),
        shear_ab: bed.q * (stresses.sy - stresses.sx),
        shear_squares: bed.q * stresses.t,
    }
}

// The slacks of the plane with the normal (a, b)/r.
fn plane_slacks(numbers: &PlaneNumbers, a: i64, b: i64) -> Slacks
    requires a_fits { Within most_plane_radius a }
    requires b_fits { Within most_plane_radius b }
    ensures plus { Is result.plus (reserve_of numbers.now a b -ℤ shear_of numbers.now a b) plane_slack }
    ensures minus { Is result.minus (reserve_of numbers.now a b +ℤ shear_of numbers.now a b) plane_slack }
{
    let aa = a * a;
    let ab = a * b;
    let bb = b * b;
    let reserve = numbers.base + numbers.aa * aa + numbers.bb * bb + numbers.ab * ab;
    let shear = numbers.shear_ab * ab + numbers.shear_squares * (aa - bb);
    Slacks {
        plus: reserve - shear,
        minus: reserve + shear,
    }
}

// The planes of a pair: the numbers of its soil, and the corners that are the planes' normals.
#[derive(Clone, Copy)]
pub struct Planes<'c> {
    pub bed: Bed,
    pub corners: &'c [(i64, i64)],
    pub ghost normals: { Normals corners.now } by { Prim.hlevel props },
}

impl<'c> Planes<'c> {
    // The same at the stresses of its node.
    pub fn stressed(&self, stresses: &Stresses) -> StressedPlanes<'c>
        ensures numbers { NumbersAre result.numbers self.now.bed stresses.now }
        ensures corners { result.corners.now ≡ self.now.corners.now }
    {
        StressedPlanes {
            numbers: plane_numbers(&self.bed, stresses),
            corners: self.corners,
        }
    }
}

// The planes of a pair at the stresses of its node.
#[derive(Clone, Copy)]
pub struct StressedPlanes<'c> {
    pub numbers: PlaneNumbers,
    pub corners: &'c [(i64, i64)],
    pub ghost normals: { Normals corners.now } by { Prim.hlevel props },
}

impl<'c> StressedPlanes<'c> {
    // The slacks of rows 2j and 2j + 1, counted from 0: their plane's normal is corner j.
    pub fn corner_slacks(&self, j: usize) -> Slacks
        requires { j < length self.now.corners.now }
        ensures plus { Is result.plus (slack_at self.now.numbers self.now.corners.now (2 * j)) plane_slack }
        ensures minus { Is result.minus (slack_at self.now.numbers self.now.corners.now (2 * j + 1)) plane_slack }
    {
        let (a, b) = self.corners[j];
        plane_slacks(&self.numbers, a, b)
    }

    // The slack of row k.
    fn slack(&self, k: usize) -> i64
        requires { k / 2 < length self.now.corners.now }
        ensures { Is result (slack_at self.now.numbers self.now.corners.now k) plane_slack }
    {
        let slacks = self.corner_slacks(k / 2);
        if k % 2 == 0 {
            slacks.plus
        } else {
            slacks.minus
        }
    }

    // Row k holds: its slack is not below 0.
    pub fn row_holds(&self, k: usize) -> bool
        requires { k / 2 < length self.now.corners.now }
        ensures { result ≡ le_z (pos 0) (slack_at self.now.numbers self.now.corners.now k) }
    {
        0 <= self.slack(k)
    }

    // Both rows of corner j hold.
    fn corner_holds(&self, j: usize) -> bool
        requires { j < length self.now.corners.now }
        ensures { result
            ≡ le_z (pos 0) (slack_at self.now.numbers self.now.corners.now (2 * j))
            && le_z (pos 0) (slack_at self.now.numbers self.now.corners.now (2 * j + 1)) }
    {
        let slacks = self.corner_slacks(j);
        0 <= slacks.plus && 0 <= slacks.minus
    }

    // Each row holds: as many as there are corners, two for each "at the first half turn of corners".
    pub fn hold(&self) -> bool
        ensures { result
            ≡ all_below (λ k. le_z (pos 0) (slack_at self.now.numbers self.now.corners.now k))
            (length self.now.corners.now / 2 * 2) }
    {
        (0..self.corners.len() / 2).all(|j| self.corner_holds(j))
    }
}
