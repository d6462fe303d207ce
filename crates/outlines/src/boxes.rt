// Boxes around the elements, which for speed 47 asks before their sides (document 02, N10).
ghost use Rattle.std.specs.Prelude.{◌≡◌, ◌||◌, ◌<◌, ◌≤◌, ◌≤ℤ◌};
ghost use Rattle.plane.specs.Points.{Corner};
ghost use Rattle.plane.specs.Boxes.{InBox, Around};
ghost use Rattle.scope.specs.Mesh.{elements};
ghost use Rattle.scope.specs.Outline.{outline};
ghost use Rattle.outlines.specs.OutlineContracts.{box_of, ends_before, boxes_apart, BoxedTo};

use arrayvec::ArrayVec;
use mesh::Mesh;

// An upright box.
#[derive(Clone, Copy, Default)]
pub struct ElementBox {
    pub left: i64,
    pub right: i64,
    pub bottom: i64,
    pub top: i64,
}

// The box of an element, and how far right and up it and the elements before it reach.
#[derive(Clone, Copy, Default)]
pub struct Boxed {
    pub own: ElementBox,
    pub right: i64,
    pub top: i64,
}

// The boxes of a mesh's elements, in their order, in a room for N.
pub type Boxes<const N: usize> = ArrayVec<Boxed, N>;

// The lower of two numbers, and the higher.
fn lower(a: i64, b: i64) -> i64
    ensures first { result ≤ℤ a }
    ensures second { result ≤ℤ b }
{
    if b < a { b } else { a }
}

fn higher(a: i64, b: i64) -> i64
    ensures first { a ≤ℤ result }
    ensures second { b ≤ℤ result }
{
    if a < b { b } else { a }
}

// What reaches so far right and so far up ends below a box, or left of it.
fn ends_before(right: i64, top: i64, other: &ElementBox) -> bool
    ensures { result ≡ ends_before right top other.now }
{
    top <= other.bottom || right <= other.left
}

impl ElementBox {
    // A box around this one and a point.
    fn with_point(self, x: i64, y: i64) -> ElementBox
        ensures wider { (c : Corner) → InBox (box_of self) c → InBox (box_of result) c }
        ensures point { InBox (box_of result) (record { x = x; y = y }) }
    {
        ElementBox {
            left: lower(self.left, x),
            right: higher(self.right, x),
            bottom: lower(self.bottom, y),
            top: higher(self.top, y),
        }
    }

    // No inner point in common with another: one of the two ends before the other begins, upward or from left to right.
    pub fn apart_from(&self, other: &ElementBox) -> bool
        ensures { result ≡ boxes_apart self.now other.now }
    {
        ends_before(self.right, self.top, other) || ends_before(other.right, other.top, self)
    }
}

impl Boxed {
    // This element and all before it end below a box, or left of it.
    pub fn all_before(&self, other: &ElementBox) -> bool
        ensures { result ≡ ends_before self.now.right self.now.top other.now }
    {
        ends_before(self.right, self.top, other)
    }
}

// A box around element e.
fn box_around(m: &Mesh, e: usize) -> ElementBox
    requires { e < elements m.now.numbers.now }
    ensures { Around (box_of result) (outline m.now.numbers.now e) }
{
    let first = m.corner(e, 0);
    let (x, y) = (m.x(first), m.y(first));
    let mut own = ElementBox {
        left: x,
        right: x,
        bottom: y,
        top: y,
    };
    for j in 1..4 {
        let v = m.corner(e, j);
        own = own.with_point(m.x(v), m.y(v));
    }
    own
}

// The boxes of all elements.
pub fn boxes_around<const N: usize>(m: &Mesh) -> Boxes<N>
    requires { elements m.now.numbers.now ≤ N }
    ensures { BoxedTo m.now.numbers.now (elements m.now.numbers.now) result.items }
{
    let mut boxes: Boxes<N> = ArrayVec::new();
    let mut right = 0;
    let mut top = 0;
    for e in 0..m.sizes.elements {
        let own = box_around(m, e);
        right = higher(right, own.right);
        top = higher(top, own.top);
        boxes.push(Boxed { own, right, top });
    }
    boxes
}
