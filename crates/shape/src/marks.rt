// The soils around each node, as marks: node v is marked with a soil where an element has the corner v and the soil.
// For speed they are made in one pass over the elements; 7 asks them, and then the pairs.
ghost use Rattle.std.specs.Prelude.{◌+◌, ◌<◌};
ghost use Rattle.std.proofs.Props.{props};
ghost use Rattle.scope.specs.Mesh.{elements};
ghost use Rattle.shape.specs.ShapeContracts.{MarkTable};

use mesh::Mesh;
use mesh::limits::{MOST_NODES, MOST_SOILS};

pub type Marks = [[bool; MOST_SOILS]; MOST_NODES];

// Marks the corners of element e with its soil.
fn mark_corners(m: &Mesh, e: usize, marks: &mut Marks)
    requires there { e < elements m.now.numbers.now }
    requires lower { MarkTable m.now.numbers.now e marks.old }
    ensures { MarkTable m.now.numbers.now (e + 1) marks.new }
{
    let soil = m.element_soil(e);
    for i in 0..4 {
        let v = m.corner(e, i);
        marks[v][soil] = true;
    }
}

// The marks of all elements.
pub fn mark_table(m: &Mesh) -> Marks
    ensures { MarkTable m.now.numbers.now (elements m.now.numbers.now) result }
{
    let mut marks = [[false; MOST_SOILS]; MOST_NODES];
    for e in 0..m.sizes.elements {
        mark_corners(m, e, &mut marks);
    }
    marks
}

// A mesh with the marks of all its elements. They are lent, since a move would copy them.
#[derive(Clone, Copy)]
pub struct MarkedMesh<'m, 't> {
    pub mesh: Mesh<'m>,
    pub marks: &'t Marks,
    pub ghost marked: { MarkTable mesh.numbers.now (elements mesh.numbers.now) marks.now } by { Prim.hlevel props },
}
