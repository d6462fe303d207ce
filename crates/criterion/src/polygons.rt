// The four polygons: their corners as constant tables, and what a strength row reads of each side.
ghost use Rattle.std.specs.Prelude.{◌≡◌, ◌<◌, length};
ghost use Rattle.std.proofs.Props.{props};
ghost use Rattle.integer.specs.Bounds.{Within};
ghost use Rattle.scope.specs.Bounds.{most_radius, most_cross};
ghost use Rattle.scope.specs.Polygon.{polygon_of};
ghost use Rattle.criterion.specs.StrengthContracts.{
  Listed,
  Corners,
  pairs_of,
  StepIs,
  StepsFrom,
  SidesAre,
};

use crate::steps::Step;
use arrayvec::ArrayVec;
use mesh::limits::MOST_SIDES;

// "counterclockwise from (r, 0)".
const TWELVE: [(i64, i64); 12] = [
    (5, 0),
    (4, 3),
    (3, 4),
    (0, 5),
    (-3, 4),
    (-4, 3),
    (-5, 0),
    (-4, -3),
    (-3, -4),
    (0, -5),
    (3, -4),
    (4, -3),
];

const TWENTY: [(i64, i64); 20] = [
    (25, 0),
    (24, 7),
    (20, 15),
    (15, 20),
    (7, 24),
    (0, 25),
    (-7, 24),
    (-15, 20),
    (-20, 15),
    (-24, 7),
    (-25, 0),
    (-24, -7),
    (-20, -15),
    (-15, -20),
    (-7, -24),
    (0, -25),
    (7, -24),
    (15, -20),
    (20, -15),
    (24, -7),
];

const THIRTY_SIX: [(i64, i64); 36] = [
    (65, 0),
    (63, 16),
    (60, 25),
    (56, 33),
    (52, 39),
    (39, 52),
    (33, 56),
    (25, 60),
    (16, 63),
    (0, 65),
    (-16, 63),
    (-25, 60),
    (-33, 56),
    (-39, 52),
    (-52, 39),
    (-56, 33),
    (-60, 25),
    (-63, 16),
    (-65, 0),
    (-63, -16),
    (-60, -25),
    (-56, -33),
    (-52, -39),
    (-39, -52),
    (-33, -56),
    (-25, -60),
    (-16, -63),
    (0, -65),
    (16, -63),
    (25, -60),
    (33, -56),
    (39, -52),
    (52, -39),
    (56, -33),
    (60, -25),
    (63, -16),
];

// "all whole-number points on the circle of radius 1105, in the same turning order" (document 02, N9).
const ONE_HUNDRED_EIGHT: [(i64, i64); 108] = [
    (1105, 0),
    (1104, 47),
    (1100, 105),
    (1092, 169),
    (1073, 264),
    (1071, 272),
    (1020, 425),
    (1001, 468),
    (975, 520),
    (952, 561),
    (943, 576),
    (884, 663),
    (855, 700),
    (817, 744),
    (744, 817),
    (700, 855),
    (663, 884),
    (576, 943),
    (561, 952),
    (520, 975),
    (468, 1001),
    (425, 1020),
    (272, 1071),
    (264, 1073),
    (169, 1092),
    (105, 1100),
    (47, 1104),
    (0, 1105),
    (-47, 1104),
    (-105, 1100),
    (-169, 1092),
    (-264, 1073),
    (-272, 1071),
    (-425, 1020),
    (-468, 1001),
    (-520, 975),
    (-561, 952),
    (-576, 943),
    (-663, 884),
    (-700, 855),
    (-744, 817),
    (-817, 744),
    (-855, 700),
    (-884, 663),
    (-943, 576),
    (-952, 561),
    (-975, 520),
    (-1001, 468),
    (-1020, 425),
    (-1071, 272),
    (-1073, 264),
    (-1092, 169),
    (-1100, 105),
    (-1104, 47),
    (-1105, 0),
    (-1104, -47),
    (-1100, -105),
    (-1092, -169),
    (-1073, -264),
    (-1071, -272),
    (-1020, -425),
    (-1001, -468),
    (-975, -520),
    (-952, -561),
    (-943, -576),
    (-884, -663),
    (-855, -700),
    (-817, -744),
    (-744, -817),
    (-700, -855),
    (-663, -884),
    (-576, -943),
    (-561, -952),
    (-520, -975),
    (-468, -1001),
    (-425, -1020),
    (-272, -1071),
    (-264, -1073),
    (-169, -1092),
    (-105, -1100),
    (-47, -1104),
    (0, -1105),
    (47, -1104),
    (105, -1100),
    (169, -1092),
    (264, -1073),
    (272, -1071),
    (425, -1020),
    (468, -1001),
    (520, -975),
    (561, -952),
    (576, -943),
    (663, -884),
    (700, -855),
    (744, -817),
    (817, -744),
    (855, -700),
    (884, -663),
    (943, -576),
    (952, -561),
    (975, -520),
    (1001, -468),
    (1020, -425),
    (1071, -272),
    (1073, -264),
    (1092, -169),
    (1100, -105),
    (1104, -47),
];

// A number of a side in 32 bits, which hold each of them.
fn narrow(number: i64) -> i32
    requires { Within most_cross number }
    ensures { result ≡ number }
{
    number as i32
}

// "Side k runs from corner (a, b) to the next, (c, d)": after the last corner comes the first.
fn step_of(corners: &[(i64, i64)], k: usize) -> Step
    requires corners { Corners corners.now }
    requires there { k < length corners.now }
    ensures { StepIs result corners.now k }
{
    let (a, b) = corners[k];
    let (c, d) = corners[(k + 1) % corners.len()];
    Step {
        run: narrow(c - a),
        rise: narrow(d - b),
        cross: narrow(a * d - b * c),
    }
}

// The sides of a polygon.
pub type Steps = ArrayVec<Step, MOST_SIDES>;

// All sides of the polygon with these corners.
fn steps_from(corners: &[(i64, i64)]) -> Steps
    requires { Corners corners.now }
    ensures { StepsFrom result.items corners.now }
{
    let mut steps = Steps::new();
    for k in 0..corners.len() {
        steps.push(step_of(corners, k));
    }
    steps
}

// The radius of the circle around the polygon of a mesh with this many sides, and its corners.
pub(crate) fn circle_of(sides: usize) -> (i64, &'static [(i64, i64)])
    requires { Listed sides }
    ensures radius { result.0 ≡ (polygon_of sides).radius }
    ensures corners { result.1.now ≡ pairs_of (polygon_of sides).corners }
{
    match sides {
        12 => (5, &TWELVE),
        20 => (25, &TWENTY),
        36 => (65, &THIRTY_SIX),
        _ => (1105, &ONE_HUNDRED_EIGHT),
    }
}

// A polygon inside a circle: its sides counterclockwise, and the radius.
#[derive(Drop)]
pub struct Polygon {
    pub steps: Steps,
    pub radius: i64,
    pub ghost radius_fits: { Within most_radius radius },
    pub ghost circle: { radius ≡ (polygon_of (length steps.items)).radius },
    pub ghost drawn: { SidesAre (polygon_of (length steps.items)) steps.items } by { Prim.hlevel props },
}

impl Polygon {
    // The polygon of a mesh with this many sides.
    pub fn of(sides: usize) -> Polygon
        requires { Listed sides }
        ensures { length result.steps.items ≡ sides }
    {
        let (radius, corners) = circle_of(sides);
        Polygon {
            steps: steps_from(corners),
            radius,
        }
    }

    // Its sides.
    pub fn sides(&self) -> &[Step]
        ensures { result.now ≡ self.now.steps.items }
    {
        &self.steps
    }
}
