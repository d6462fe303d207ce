// The strength rows of a pair of a node and a soil: what they read of the soil, of the node's stresses and of the
// multipliers, and the sides one by one.
ghost use Rattle.std.specs.Prelude.{◌≡◌, true, ◌+◌, ◌*◌, ◌<◌, length, pos, IfSome, IfNone};
ghost use Rattle.std.specs.List.{list_all};
ghost use Rattle.std.specs.Int.Signed.{le_z};
ghost use Rattle.integer.specs.Bounds.{Is, Within, AllWithin};
ghost use Rattle.scope.specs.Mesh.{soils};
ghost use Rattle.scope.specs.Bounds.{most_radius, most_slack};
ghost use Rattle.scope.specs.Claim.{most_scale, most_stress};
ghost use Rattle.lines.specs.SearchContracts.{first_failing};
ghost use Rattle.criterion.specs.StrengthContracts.{SoilIs, PairIs, step_at, side_slack};

use crate::steps::Step;
use crate::strength_numbers::{PairNumbers, SoilNumbers};
use mesh::Mesh;

// What they read of soil k: r·h, p and 2qC.
pub fn soil_numbers(mesh: &Mesh, k: usize, radius: i64) -> SoilNumbers
    requires there { k < soils mesh.now.numbers.now }
    requires radius_fits { Within most_radius radius }
    ensures { SoilIs result mesh.now.numbers.now k radius }
{
    let soil = mesh.soil(k);
    SoilNumbers {
        lever: radius * soil.h,
        friction: soil.p,
        right: 2 * soil.q * soil.cohesion,
    }
}

// What they read of a pair, of node v of a field and of its soil: r·h, sx - sy, 2t and 2qCn - p(sx + sy).
pub fn pair_numbers(soil: SoilNumbers, x: &[i64], v: usize, n: i64) -> PairNumbers
    requires node_there { 3 * v + 2 < length x.now }
    requires stresses_fit { AllWithin most_stress x.now }
    requires scale_fits { Within most_scale n }
    ensures { PairIs result soil x.now v n }
{
    let sx = x[3 * v];
    let sy = x[3 * v + 1];
    let t = x[3 * v + 2];
    PairNumbers {
        lever: soil.lever,
        spread: sx - sy,
        twist: 2 * t,
        reserve: soil.right * n - soil.friction * (sx + sy),
    }
}

// The right side of a side's strength row less its left side, from the numbers of the pair.
pub fn side_slack(step: &Step, pair: &PairNumbers) -> i64
    ensures { Is result (side_slack pair.now step.now) most_slack }
{
    step.cross() * pair.reserve - pair.lever * (step.rise() * pair.spread - step.run() * pair.twist)
}

// The strength row of a side holds: its right side is not below its left.
pub fn side_holds(step: &Step, pair: &PairNumbers) -> bool
    ensures { result ≡ le_z (pos 0) (side_slack pair.now step.now) }
{
    0 <= side_slack(step, pair)
}

// The first side whose strength row fails.
pub(crate) fn first_side(steps: &[Step], pair: &PairNumbers) -> Option<usize>
    ensures found { IfSome result (λ k. k
        ≡ first_failing (λ k. le_z (pos 0) (side_slack pair.now (step_at steps.now k))) (length steps.now)) }
    ensures none { IfNone result
        (list_all (λ step. le_z (pos 0) (side_slack pair.now step)) steps.now ≡ true) }
{
    steps.iter().position(|step| !side_holds(step, pair))
}

// Each strength row of a pair holds. For speed this has nothing else in it; which row fails is for the search to say.
pub(crate) fn sides_hold(steps: &[Step], pair: &PairNumbers) -> bool
    ensures { result ≡ list_all (λ step. le_z (pos 0) (side_slack pair.now step)) steps.now }
{
    steps.iter().all(|step| side_holds(step, pair))
}
