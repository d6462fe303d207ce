// 6: no element has a directed side that a lower one has.
// Sides are looked up in a table that is filled first and then only read: the byte at [a][b] is NONE where a to b is no
// element's side, and else the number, from 0, of the lowest element that has it.
ghost use Rattle.std.specs.Prelude.{◌≡◌, ◌+◌, ◌<◌, length};
ghost use Rattle.std.proofs.Props.{props};
ghost use Rattle.scope.specs.Answer.{outcome_of};
ghost use Rattle.scope.specs.Mesh.{most_nodes, elements, corner_count};
ghost use Rattle.scope.specs.Phases.{check_phase};
ghost use Rattle.scope.specs.Refusals.{own_sides_phase};
ghost use Rattle.scope.specs.Tests.{own_side_at, own_sides};
ghost use Rattle.shape.specs.ShapeContracts.{keep_first, SideTable};

use mesh::Mesh;
use mesh::limits::MOST_NODES;
use outlines::corners::{corner_around, corner_count};
use scope::{Outcome, Place, Reason, demand};

// The row of a node: a byte for each node that a side may go to from it.
pub type SideRow = [u8; MOST_NODES];

// The byte of a side that has none yet.
pub const NONE: u8 = 255;

// Gives a byte to the side a to b, where it has none yet.
#[tactic(auto, unfolding(crate::specs::ShapeContracts::put))]
fn keep_first(sides: &mut [SideRow], a: usize, b: usize, byte: u8)
    requires row { a < length sides.old }
    requires column { b < most_nodes }
    ensures { sides.new ≡ keep_first sides.old a b byte }
{
    if sides[a][b] == NONE {
        sides[a][b] = byte;
    }
}

// Gives the number of element e to its sides.
fn mark_sides(m: &Mesh, e: usize, sides: &mut [SideRow])
    requires there { e < elements m.now.numbers.now }
    requires lower { SideTable m.now.numbers.now e sides.old }
    ensures { SideTable m.now.numbers.now (e + 1) sides.new }
{
    for i in 0..corner_count(m, e) {
        let a = corner_around(m, e, i);
        let b = corner_around(m, e, i + 1);
        keep_first(sides, a, b, e as u8);
    }
}

// Fills a table of sides.
pub fn side_table(m: &Mesh, sides: &mut [SideRow])
    requires { SideTable m.now.numbers.now 0 sides.old }
    ensures { SideTable m.now.numbers.now (elements m.now.numbers.now) sides.new }
{
    for e in 0..m.sizes.elements {
        mark_sides(m, e, sides);
    }
}

// A mesh with the filled table of its elements' sides.
#[derive(Clone, Copy)]
pub struct ElementSides<'a> {
    pub mesh: Mesh<'a>,
    pub rows: &'a [SideRow],
    pub ghost filled: { SideTable mesh.numbers.now (elements mesh.numbers.now) rows.now } by { Prim.hlevel props },
}

impl<'a> ElementSides<'a> {
    // Whether side i of element e has its own number, so that no lower element has it.
    fn own_side(&self, e: usize, i: usize) -> bool
        requires there { e < elements self.now.mesh.numbers.now }
        requires at_side { i < corner_count self.now.mesh.numbers.now e }
        ensures { result ≡ own_side_at self.now.mesh.numbers.now e i }
    {
        let a = corner_around(&self.mesh, e, i);
        let b = corner_around(&self.mesh, e, i + 1);
        self.rows[a][b] == e as u8
    }

    fn own_sides(&self, e: usize) -> bool
        requires { e < elements self.now.mesh.numbers.now }
        ensures { result ≡ own_sides self.now.mesh.numbers.now e }
    {
        (0..corner_count(&self.mesh, e)).all(|i| self.own_side(e, i))
    }
}

pub fn sides_check(sides: &ElementSides) -> Outcome
    ensures { outcome_of result ≡ check_phase (own_sides_phase sides.now.mesh.numbers.now) }
{
    for e in 0..sides.mesh.sizes.elements {
        let place = Place::Element(e as u32 + 1);
        demand(sides.own_sides(e), Reason::OwnSide.at(place))?;
    }
    Ok(())
}
