// The counts of a mesh's header, and where the groups of its lines begin.
ghost use Rattle.std.specs.Prelude.{◌≡◌, List, ◌+◌, ◌<◌, ◌≤◌, ℤ};
ghost use Rattle.scope.specs.Filled.{soil_place};
ghost use Rattle.scope.specs.Mesh.{
  most_nodes,
  most_elements,
  most_soils,
  most_edges,
  most_sides,
  most_jumps,
  most_equality_rows,
  equality_count,
};

use crate::limits::{
    EDGE_COLUMNS, EDGE_ROWS, ELEMENT_COLUMNS, ELEMENT_ROWS, JUMP_ROWS, MESH_HEADER, NODE_COLUMNS,
    SOIL_COLUMNS,
};
use crate::reading::count_at;

// The counts of the header: so small that no place of a number leaves 64 bits.
#[derive(Clone, Copy)]
pub struct Sizes {
    pub nodes: usize,
    pub elements: usize,
    pub soils: usize,
    pub edges: usize,
    pub sides: usize,
    pub jumps: usize,
    pub ghost few_nodes: { nodes ≤ most_nodes },
    pub ghost few_elements: { elements ≤ most_elements },
    pub ghost few_soils: { soils ≤ most_soils },
    pub ghost few_edges: { edges ≤ most_edges },
    pub ghost some_side: { 0 < sides },
    pub ghost few_sides: { sides ≤ most_sides },
    pub ghost few_jumps: { jumps ≤ most_jumps },
}

impl Sizes {
    ghost use Rattle.mesh.specs.MeshContracts.{
      Sized,
      SizesAre,
      HeaderThere,
      nodes_from,
      elements_from,
      edges_from,
      jumps_from,
    };

    // The counts of a mesh's header: requires what a passed check of the header shows.
    pub fn of_header(m: &[i64]) -> Sizes
        requires { HeaderThere m.now }
        ensures { SizesAre m.now result }
    {
        Sizes {
            nodes: count_at(m, 0),
            elements: count_at(m, 1),
            soils: count_at(m, 2),
            edges: count_at(m, 3),
            sides: count_at(m, 4),
            jumps: count_at(m, 5),
        }
    }

    // How many equality rows a mesh has: two for each element, then four for each edge, then four for each jump.
    pub fn equality_count(self) -> usize
        ensures rows { (m : List ℤ) → Sized m self → result ≡ equality_count m }
        ensures few { result ≤ most_equality_rows }
    {
        self.elements * ELEMENT_ROWS + self.edges * EDGE_ROWS + self.jumps * JUMP_ROWS
    }

    // The place of the first number of the nodes, of the elements, of the edges and of the jumps. For speed it is
    // worked out where it is asked, so that fewer numbers are handed around.
    pub(crate) fn nodes_from(self) -> usize
        ensures { result ≡ nodes_from self }
    {
        MESH_HEADER + self.soils * SOIL_COLUMNS
    }

    pub(crate) fn elements_from(self) -> usize
        ensures { result ≡ elements_from self }
    {
        self.nodes_from() + self.nodes * NODE_COLUMNS
    }

    pub(crate) fn edges_from(self) -> usize
        ensures { result ≡ edges_from self }
    {
        self.elements_from() + self.elements * ELEMENT_COLUMNS
    }

    pub(crate) fn jumps_from(self) -> usize
        ensures { result ≡ jumps_from self }
    {
        self.edges_from() + self.edges * EDGE_COLUMNS
    }

    // Where the soil of element e stands among the numbers of a mesh with these sizes.
    pub fn soil_place(self, e: usize) -> usize
        requires { e < most_elements }
        ensures { (m : List ℤ) → SizesAre m self → result ≡ soil_place m e }
    {
        self.elements_from() + e * ELEMENT_COLUMNS + 4
    }
}
