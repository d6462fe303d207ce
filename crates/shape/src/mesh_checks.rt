// The shape of a mesh whose lines have passed: refusals 5 to 8, 47, 44 and 42 in their order, and the pairs of a mesh
// that passes.
ghost use Rattle.std.specs.Prelude.{◌≡◌, [], ◌∷◌, IfOk};
ghost use Rattle.scope.specs.Answer.{outcome_of};
ghost use Rattle.scope.specs.Mesh.{elements};
ghost use Rattle.scope.specs.Phases.{check_phases};
ghost use Rattle.scope.specs.Refusals.{edges_phase, joints_phase, shape_phases};
ghost use Rattle.mesh.specs.PairContracts.{PairsAre};
ghost use Rattle.shape.specs.ShapeContracts.{SideTable, side_phases};

use crate::edges::{EdgeSides, edges_check, take_sides};
use crate::joints::joints_check;
use crate::marks::{MarkedMesh, mark_table};
use crate::nodes::nodes_check;
use crate::pairs::pairs_check;
use crate::sides::{ElementSides, NONE, SideRow, side_table, sides_check};
use mesh::Mesh;
use mesh::limits::MOST_NODES;
use mesh::pairs::Pairs;
use outlines::overlaps::overlaps_check;
use outlines::turns::{TurnedMesh, turns_check};
use scope::{Outcome, Refusal};

// So many nodes has a small mesh at most.
const SMALL_NODES: usize = 16;

// Refusals 8 and 44, by a table of the elements' sides: the edges take theirs, and then the jumps.
fn edges_and_joints(m: &Mesh, sides: &mut [SideRow]) -> Outcome
    requires { SideTable m.now.numbers.now (elements m.now.numbers.now) sides.old }
    ensures { outcome_of result
        ≡ check_phases (edges_phase m.now.numbers.now ∷ joints_phase m.now.numbers.now ∷ []) }
{
    take_sides(m, sides);
    edges_check(&EdgeSides {
        mesh: *m,
        rows: sides,
    })?;
    joints_check(m, sides)
}

// Refusals 6 to 8, 47 before 8, and 44, by a table in which no byte is given yet. The mesh comes twice: 47 asks that
// its elements turn left, and 7 asks the marks.
fn checks_by_table(turned: &TurnedMesh, marked: &MarkedMesh, sides: &mut [SideRow]) -> Outcome
    requires same { turned.now.mesh.numbers.now ≡ marked.now.mesh.numbers.now }
    requires none_given { SideTable marked.now.mesh.numbers.now 0 sides.old }
    ensures { outcome_of result ≡ check_phases (side_phases marked.now.mesh.numbers.now) }
{
    side_table(&marked.mesh, sides);
    sides_check(&ElementSides {
        mesh: marked.mesh,
        rows: sides,
    })?;
    nodes_check(marked)?;
    overlaps_check(turned)?;
    edges_and_joints(&marked.mesh, sides)
}

// The same. For speed a small mesh has a small table: the bytes that need no filling were 6 % of the time
// of the worked sheet.
fn sides_to_joints(turned: &TurnedMesh, marked: &MarkedMesh) -> Outcome
    requires { turned.now.mesh.numbers.now ≡ marked.now.mesh.numbers.now }
    ensures { outcome_of result ≡ check_phases (side_phases marked.now.mesh.numbers.now) }
{
    if marked.mesh.sizes.nodes <= SMALL_NODES {
        checks_by_table(turned, marked, &mut [[NONE; MOST_NODES]; SMALL_NODES])
    } else {
        checks_by_table(turned, marked, &mut [[NONE; MOST_NODES]; MOST_NODES])
    }
}

// Refusals 5 to 8, 47, 44 and 42, in their order, and the pairs.
pub fn mesh_shape(m: &Mesh) -> Result<Pairs, Refusal>
    ensures outcome { outcome_of result ≡ check_phases (shape_phases m.now.numbers.now) }
    ensures pairs { IfOk result (λ p. PairsAre m.now.numbers.now p.items) }
{
    let turned = turns_check(m)?;
    let marks = mark_table(m);
    let marked = MarkedMesh {
        mesh: turned.mesh,
        marks: &marks,
    };
    sides_to_joints(&turned, &marked)?;
    pairs_check(&marked)
}
