// A mesh's numbers by what they are: the limits of its counts, its counts, and what its lines say.

#![tactic(auto)]

pub mod entries;
pub mod limits;
pub mod pairs;
pub mod reading;
pub mod sizes;

ghost use Rattle.std.specs.Prelude.{◌≡◌, ◌+◌, ◌*◌, ◌-◌, ◌<◌, ◌≤◌, pos, ◌-ℤ◌, ◌≤ℤ◌, length};
ghost use Rattle.integer.specs.Bounds.{Is};
ghost use Rattle.scope.specs.Columns.{at};
ghost use Rattle.scope.specs.Layout.{count};
ghost use Rattle.scope.specs.Mesh.{
  most_equality_rows,
  nodes,
  elements,
  soils,
  edges,
  jumps,
  x,
  y,
  corner,
  element_soil,
  equality_count,
  by_direction,
};
ghost use Rattle.scope.specs.NumberRanges.{MeshFacts};
ghost use Rattle.mesh.specs.MeshContracts.{Sized, NodeAt};
ghost use Rattle.mesh.specs.EntryContracts.{SoilOf, EdgeOf, JumpOf, is_by_direction};
ghost use Rattle.mesh.specs.SizedOnce.{sized_once};

use crate::entries::{Edge, Force, Jump, Soil, SoilKind};
use crate::limits::{
    EDGE_COLUMNS, ELEMENT_COLUMNS, JUMP_COLUMNS, MESH_HEADER, NODE_COLUMNS, SOIL_COLUMNS,
};
use crate::reading::{count_at, number_at};
use crate::sizes::Sizes;

// A mesh whose lines have passed: its numbers, and its counts.
#[derive(Clone, Copy)]
pub struct Mesh<'a> {
    pub numbers: &'a [i64],
    pub sizes: Sizes,
    pub ghost sized: { Sized numbers.now sizes } by { sized_once numbers.now sizes },
}

impl<'a> Mesh<'a> {
    // Requires what a passed check of its lines shows.
    pub fn new(numbers: &'a [i64]) -> Mesh<'a>
        requires { MeshFacts numbers.now }
        ensures { result.numbers.now ≡ numbers.now }
    {
        Mesh {
            numbers,
            sizes: Sizes::of_header(numbers),
        }
    }

    // How many equality rows it has.
    pub fn equality_count(&self) -> usize
        ensures rows { result ≡ equality_count self.now.numbers.now }
        ensures few { result ≤ most_equality_rows }
    {
        self.sizes.equality_count()
    }

    // Column c of line i of a group with this width, whose first number has the place `from`.
    fn entry(&self, from: usize, i: usize, width: usize, c: usize) -> i64
        requires { from + i * width + c < length self.now.numbers.now }
        ensures { result ≡ at self.now.numbers.now (from + i * width + c) }
    {
        number_at(self.numbers, from + i * width + c)
    }

    // The same, where it is the number of a thing: things are counted from 1 there, and from 0 here.
    fn thing(&self, from: usize, i: usize, width: usize, c: usize) -> usize
        requires there { from + i * width + c < length self.now.numbers.now }
        requires counted { pos 1 ≤ℤ at self.now.numbers.now (from + i * width + c) }
        ensures { result ≡ count (at self.now.numbers.now (from + i * width + c)) - 1 }
    {
        count_at(self.numbers, from + i * width + c) - 1
    }

    // The coordinates of node v.
    pub fn x(&self, v: usize) -> i64
        requires { v < nodes self.now.numbers.now }
        ensures { Is result (x self.now.numbers.now v) 1000 }
    {
        self.entry(self.sizes.nodes_from(), v, NODE_COLUMNS, 0)
    }

    pub fn y(&self, v: usize) -> i64
        requires { v < nodes self.now.numbers.now }
        ensures { Is result (y self.now.numbers.now v) 1000 }
    {
        self.entry(self.sizes.nodes_from(), v, NODE_COLUMNS, 1)
    }

    // The difference of two nodes' coordinates: x of a minus x of b, and y of a minus y of b.
    pub fn run(&self, a: usize, b: usize) -> i64
        requires a_there { a < nodes self.now.numbers.now }
        requires b_there { b < nodes self.now.numbers.now }
        ensures { Is result (x self.now.numbers.now a -ℤ x self.now.numbers.now b) 1000 }
    {
        self.x(a) - self.x(b)
    }

    pub fn rise(&self, a: usize, b: usize) -> i64
        requires a_there { a < nodes self.now.numbers.now }
        requires b_there { b < nodes self.now.numbers.now }
        ensures { Is result (y self.now.numbers.now a -ℤ y self.now.numbers.now b) 1000 }
    {
        self.y(a) - self.y(b)
    }

    // The node at corner i of element e, which is there, and the element's soil.
    pub fn corner(&self, e: usize, i: usize) -> usize
        requires there { e < elements self.now.numbers.now }
        requires at_corner { i < 4 }
        ensures { NodeAt result self.now.numbers.now (corner self.now.numbers.now e i) }
    {
        self.thing(self.sizes.elements_from(), e, ELEMENT_COLUMNS, i)
    }

    pub fn element_soil(&self, e: usize) -> usize
        requires { e < elements self.now.numbers.now }
        ensures { result ≡ element_soil self.now.numbers.now e }
    {
        self.thing(self.sizes.elements_from(), e, ELEMENT_COLUMNS, 4)
    }

    // The kind of soil k, which stands before its last column.
    pub fn soil_kind(&self, k: usize) -> SoilKind
        requires { k < soils self.now.numbers.now }
        ensures { is_by_direction result ≡ by_direction self.now.numbers.now k }
    {
        let kind = self.entry(MESH_HEADER, k, SOIL_COLUMNS, 8);
        if kind == 1 {
            SoilKind::ByDirection
        } else {
            SoilKind::AsBefore
        }
    }

    // Soil k: columns p, q, h, cohesion, dead force x and y, live force x and y, kind, cv.
    pub fn soil(&self, k: usize) -> Soil
        requires { k < soils self.now.numbers.now }
        ensures { SoilOf result self.now.numbers.now k }
    {
        Soil {
            p: self.entry(MESH_HEADER, k, SOIL_COLUMNS, 0),
            q: self.entry(MESH_HEADER, k, SOIL_COLUMNS, 1),
            h: self.entry(MESH_HEADER, k, SOIL_COLUMNS, 2),
            cohesion: self.entry(MESH_HEADER, k, SOIL_COLUMNS, 3),
            dead: Force {
                x: self.entry(MESH_HEADER, k, SOIL_COLUMNS, 4),
                y: self.entry(MESH_HEADER, k, SOIL_COLUMNS, 5),
            },
            live: Force {
                x: self.entry(MESH_HEADER, k, SOIL_COLUMNS, 6),
                y: self.entry(MESH_HEADER, k, SOIL_COLUMNS, 7),
            },
            across: self.entry(MESH_HEADER, k, SOIL_COLUMNS, 9),
        }
    }

    // Edge g: columns from, to, what is fixed, dead normal, dead shear, live normal, live shear.
    pub fn edge(&self, g: usize) -> Edge
        requires { g < edges self.now.numbers.now }
        ensures { EdgeOf result self.now.numbers.now g }
    {
        let first = self.sizes.edges_from();
        Edge {
            from: self.thing(first, g, EDGE_COLUMNS, 0),
            to: self.thing(first, g, EDGE_COLUMNS, 1),
            fixed: self.entry(first, g, EDGE_COLUMNS, 2),
            dead_normal: self.entry(first, g, EDGE_COLUMNS, 3),
            dead_shear: self.entry(first, g, EDGE_COLUMNS, 4),
            live_normal: self.entry(first, g, EDGE_COLUMNS, 5),
            live_shear: self.entry(first, g, EDGE_COLUMNS, 6),
        }
    }

    // Jump j: columns from, to, the node that faces from, the node that faces to.
    pub fn jump(&self, j: usize) -> Jump
        requires { j < jumps self.now.numbers.now }
        ensures { JumpOf result self.now.numbers.now j }
    {
        let first = self.sizes.jumps_from();
        Jump {
            from: self.thing(first, j, JUMP_COLUMNS, 0),
            to: self.thing(first, j, JUMP_COLUMNS, 1),
            facing_from: self.thing(first, j, JUMP_COLUMNS, 2),
            facing_to: self.thing(first, j, JUMP_COLUMNS, 3),
        }
    }
}
