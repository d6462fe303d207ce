// 8: each edge is an outer side, once.
// Each edge takes its side in the table of sides: the byte is then FIRST_EDGE and the number of the lowest edge that
// has it.
ghost use Rattle.std.specs.Prelude.{◌≡◌, ◌+◌, ◌<◌, length};
ghost use Rattle.std.proofs.Props.{props};
ghost use Rattle.scope.specs.Answer.{outcome_of};
ghost use Rattle.scope.specs.Mesh.{most_nodes, most_edges, most_jumps, elements, edges};
ghost use Rattle.scope.specs.Phases.{check_phase};
ghost use Rattle.scope.specs.Refusals.{edges_phase};
ghost use Rattle.scope.specs.Tests.{outer_edge};
ghost use Rattle.shape.specs.ShapeContracts.{put, is_untaken, SideTable, EdgeTable};

use crate::sides::{NONE, SideRow};
use mesh::Mesh;
use mesh::entries::Edge;
use mesh::limits::MOST_ELEMENTS;
use mesh::sizes::Sizes;
use scope::{Outcome, Place, Reason, demand};

// The byte of a side that edge 0 has taken: lower ones are numbers of elements.
pub const FIRST_EDGE: u8 = MOST_ELEMENTS as u8;

// Gives a byte to the side a to b, where it is an element's that no edge and no jump has taken.
#[tactic(auto, unfolding(crate::specs::ShapeContracts::put))]
pub fn take_side(sides: &mut [SideRow], a: usize, b: usize, byte: u8)
    requires row { a < length sides.old }
    requires column { b < most_nodes }
    ensures { sides.new ≡ put is_untaken sides.old a b byte }
{
    if sides[a][b] < FIRST_EDGE {
        sides[a][b] = byte;
    }
}

// Each edge takes its side, where it is one and no earlier edge has it.
pub fn take_sides(m: &Mesh, sides: &mut [SideRow])
    requires { SideTable m.now.numbers.now (elements m.now.numbers.now) sides.old }
    ensures { EdgeTable m.now.numbers.now (edges m.now.numbers.now) sides.new }
{
    for g in 0..m.sizes.edges {
        let edge = m.edge(g);
        take_side(sides, edge.from, edge.to, FIRST_EDGE + g as u8);
    }
}

// A mesh with the table in which its edges have taken their sides.
#[derive(Clone, Copy)]
pub struct EdgeSides<'a> {
    pub mesh: Mesh<'a>,
    pub rows: &'a [SideRow],
    pub ghost taken: { EdgeTable mesh.numbers.now (edges mesh.numbers.now) rows.now } by { Prim.hlevel props },
}

impl<'a> EdgeSides<'a> {
    // Whether edge g has taken its side, and the reverse is none.
    fn outer_edge(&self, g: usize) -> bool
        requires { g < edges self.now.mesh.numbers.now }
        ensures { result ≡ outer_edge self.now.mesh.numbers.now g }
    {
        let Edge { from, to, .. } = self.mesh.edge(g);
        self.rows[from][to] == FIRST_EDGE + g as u8 && self.rows[to][from] == NONE
    }
}

// Line k after those of the header, the soils, the nodes and the elements, counted from 1: there the edges stand, and
// then the jumps.
pub fn line_after_elements(s: Sizes, k: usize) -> u32
    requires { k < most_edges + most_jumps }
    ensures { result ≡ s.soils + s.nodes + s.elements + k + 2 }
{
    (s.soils + s.nodes + s.elements + k + 2) as u32
}

pub fn edges_check(sides: &EdgeSides) -> Outcome
    ensures { outcome_of result ≡ check_phase (edges_phase sides.now.mesh.numbers.now) }
{
    for g in 0..sides.mesh.sizes.edges {
        let place = Place::Line(line_after_elements(sides.mesh.sizes, g));
        demand(sides.outer_edge(g), Reason::Edge.at(place))?;
    }
    Ok(())
}
