// The axes, x and y: an element is in balance along each.
ghost use Rattle.std.specs.Prelude.{◌≡◌, ◌<◌};
ghost use Rattle.integer.specs.Bounds.{Is};
ghost use Rattle.equality.specs.EqualityContracts.{axis_of, number, along};

use mesh::entries::Force;

// Along what a row of an element says that it is in balance.
#[derive(Clone, Copy)]
pub enum Axis {
    X,
    Y,
}

// Row i of the two of an element is its balance along x or along y, in turn.
pub fn axis_of(i: usize) -> Axis
    ensures { result ≡ axis_of i }
{
    if i % 2 == 0 { Axis::X } else { Axis::Y }
}

impl Axis {
    // Its number among the two; the column of the normal stress along it among a node's three.
    pub fn number(self) -> usize
        ensures number { result ≡ number self }
        ensures of_two { result < 2 }
    {
        self as usize
    }

    // The part of a force along it.
    pub fn of(self, force: Force) -> i64
        ensures { Is result (along self force.x force.y) 10000 }
    {
        match self {
            Axis::X => force.x,
            Axis::Y => force.y,
        }
    }
}
