// The parts of a traction, the normal and the shear.
ghost use Rattle.std.specs.Prelude.{◌≡◌, ◌||◌, pos};
ghost use Rattle.integer.specs.Tests.{eq_z};
ghost use Rattle.equality.specs.EqualityContracts.{part_of, end_of, code};

// What a row of an edge or a jump is about.
#[derive(Clone, Copy)]
pub(crate) enum Part {
    Normal,
    Shear,
}

// Row i of the four of an edge or a jump is of its normal or of its shear, in turn.
pub(crate) fn part_of(i: usize) -> Part
    ensures { result ≡ part_of i }
{
    if i % 2 == 0 {
        Part::Normal
    } else {
        Part::Shear
    }
}

// The row is at the first or at the second of two nodes: the four are normal and shear at the one, then at the other.
pub(crate) fn end_of(i: usize, from: usize, to: usize) -> usize
    ensures { result ≡ end_of i from to }
{
    if i < 2 { from } else { to }
}

// Whether an edge that fixes its normal (1), its shear (2) or both (3) fixes its normal (1) or its shear (2).
pub fn fixes(what: i64, fixed: i64) -> bool
    ensures { result ≡ (eq_z fixed what || eq_z fixed (pos 3)) }
{
    fixed == what || fixed == 3
}

impl Part {
    // Whether an edge with this number of what it fixes fixes this part.
    pub(crate) fn is_fixed(self, fixed: i64) -> bool
        ensures { result ≡ (eq_z fixed (pos (code self)) || eq_z fixed (pos 3)) }
    {
        let alone = match self {
            Part::Normal => 1,
            Part::Shear => 2,
        };
        fixes(alone, fixed)
    }
}
