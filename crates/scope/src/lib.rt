// What is answered (document 01, 'Verdict and report'): the types that every crate speaks of, and the number and the
// place of a refusal.

#![tactic(auto)]

ghost use Rattle.std.specs.Prelude.{◌≡◌};
ghost use Rattle.scope.specs.Answer.{outcome_of, place_number, reason_number};
ghost use Rattle.scope.specs.Checks.{demand};

// "A place is a line, a row, a column, a node or an element", each counted from 1; "counted in quarters, a sixth kind
// of place" (document 02, N8), a height, counted from 0.
#[derive(Clone, Copy)]
pub enum Place {
    Line(u32),
    Row(u32),
    Column(u32),
    Node(u32),
    Element(u32),
    Height(u32),
}

impl Place {
    // The number that is printed and returned for a place.
    pub fn number(self) -> u32
        ensures { result ≡ place_number self }
    {
        match self {
            Place::Line(k)
            | Place::Row(k)
            | Place::Column(k)
            | Place::Node(k)
            | Place::Element(k)
            | Place::Height(k) => k,
        }
    }
}

// What a mesh, a table or a claim is refused for, with its number in the table "What is returned".
#[derive(Clone, Copy)]
pub enum Reason {
    MeshForm = 1,
    MeshLimit = 2,
    RightAngle = 3,
    Name = 4,
    LeftTurn = 5,
    OwnSide = 6,
    NoElement = 7,
    Edge = 8,
    ClaimForm = 11,
    ClaimLimit = 12,
    Parts = 13,
    Equality = 21,
    Strength = 22,
    Unfixed = 31,
    Column = 32,
    Live = 33,
    Pairs = 42,
    Joint = 44,
    Gap = 45,
    Layer = 46,
    Overlap = 47,
}

impl Reason {
    // The refusal for it at a place.
    pub fn at(self, place: Place) -> Refusal
        ensures { result ≡ record { number = reason_number self; place = place } }
    {
        Refusal {
            number: self as u32,
            place,
        }
    }
}

// What is refused: the number that is returned, and where.
#[derive(Clone, Copy)]
pub struct Refusal {
    pub number: u32,
    pub place: Place,
}

// What one check, or a row of checks in order, says.
pub type Outcome = Result<(), Refusal>;

// A test that is asked: where it does not hold, the refusal.
pub fn demand(holds: bool, refusal: Refusal) -> Outcome
    ensures { outcome_of result ≡ demand holds refusal.number refusal.place }
{
    if holds { Ok(()) } else { Err(refusal) }
}

// A load as an exact fraction.
#[derive(Clone, Copy, Default)]
pub struct Load {
    pub num: i64,
    pub den: i64,
}

// What an accepted claim says: how many strength rows are open, where it has both parts, the lower load l/n, where it
// has a field, and the upper load W/m, where it has multipliers.
#[derive(Clone, Copy)]
pub struct Accepted {
    pub open_rows: Option<u64>,
    pub lower: Option<Load>,
    pub upper: Option<Load>,
}

// What is said of a mesh and a claim.
pub type Verdict = Result<Accepted, Refusal>;
