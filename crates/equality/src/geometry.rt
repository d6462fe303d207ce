// What the equality rows read of a mesh's shape: an element's corners and its span, and the step of an edge or a jump.
ghost use Rattle.std.specs.Prelude.{◌≡◌, ◌<◌, ◌+ℤ◌, ◌-ℤ◌, ◌*ℤ◌};
ghost use Rattle.integer.specs.Bounds.{Within, Is};
ghost use Rattle.scope.specs.Bounds.{most_area, most_square};
ghost use Rattle.scope.specs.Mesh.{most_coordinate};
ghost use Rattle.scope.specs.Mesh.{nodes, elements, x, y};

use crate::axes::Axis;
use mesh::Mesh;

// The nodes at the corners of an element, in order.
#[derive(Clone, Copy)]
pub struct Corners {
    pub a: usize,
    pub b: usize,
    pub c: usize,
    pub d: usize,
}

impl Corners {
    ghost use Rattle.equality.specs.EqualityContracts.{CornersAre};

    pub fn of(m: &Mesh, e: usize) -> Corners
        requires { e < elements m.now.numbers.now }
        ensures { CornersAre result m.now.numbers.now e }
    {
        Corners {
            a: m.corner(e, 0),
            b: m.corner(e, 1),
            c: m.corner(e, 2),
            d: m.corner(e, 3),
        }
    }
}

// What the balance rows of an element read of its shape: across corners 0 and 1, the rise and the run from one
// neighbour to the other. Across corners 2 and 3 they are the opposite.
#[derive(Clone, Copy)]
pub struct Span {
    pub rise: i64,
    pub rise_next: i64,
    pub run: i64,
    pub run_next: i64,
    pub ghost rise_fits: { Within most_coordinate rise },
    pub ghost rise_next_fits: { Within most_coordinate rise_next },
    pub ghost run_fits: { Within most_coordinate run },
    pub ghost run_next_fits: { Within most_coordinate run_next },
}

impl Span {
    ghost use Rattle.equality.specs.EqualityContracts.{along};

    // Twice the area of the element.
    pub fn twice_area(self) -> i64
        ensures { Is result (self.rise *ℤ self.run_next -ℤ self.rise_next *ℤ self.run) most_area }
    {
        self.rise * self.run_next - self.rise_next * self.run
    }

    // As the balance along x reads it; for the balance along y rise and run change places.
    pub fn along(self, axis: Axis) -> Span
        ensures rise { result.rise ≡ along axis self.rise self.run }
        ensures rise_next { result.rise_next ≡ along axis self.rise_next self.run_next }
        ensures run { result.run ≡ along axis self.run self.rise }
        ensures run_next { result.run_next ≡ along axis self.run_next self.rise_next }
    {
        match axis {
            Axis::X => self,
            Axis::Y => Span {
                rise: self.run,
                rise_next: self.run_next,
                run: self.rise,
                run_next: self.rise_next,
            },
        }
    }
}

// The step (u, w) of an edge or a jump, from its from-node to its to-node.
#[derive(Clone, Copy)]
pub struct Step {
    pub u: i64,
    pub w: i64,
    pub ghost u_fits: { Within most_coordinate u },
    pub ghost w_fits: { Within most_coordinate w },
}

impl Step {
    ghost use Rattle.equality.specs.EqualityContracts.{StepIs};

    pub fn between(m: &Mesh, from: usize, to: usize) -> Step
        requires from_there { from < nodes m.now.numbers.now }
        requires to_there { to < nodes m.now.numbers.now }
        ensures { StepIs result (x m.now.numbers.now to -ℤ x m.now.numbers.now from)
            (y m.now.numbers.now to -ℤ y m.now.numbers.now from) }
    {
        Step {
            u: m.run(to, from),
            w: m.rise(to, from),
        }
    }

    // u² + w².
    pub fn square(self) -> i64
        ensures { Is result (self.u *ℤ self.u +ℤ self.w *ℤ self.w) most_square }
    {
        self.u * self.u + self.w * self.w
    }
}
