// 44: each jump goes from an outer side to one that faces it, and no edge and no earlier jump uses either.
// Each jump uses its two sides in the table that the edges have taken theirs in: the bytes are then USED.
ghost use Rattle.std.specs.Prelude.{◌≡◌, ◌&&◌, ◌+◌, ◌<◌, length};
ghost use Rattle.scope.specs.Answer.{outcome_of};
ghost use Rattle.scope.specs.Mesh.{most_nodes, nodes, edges, jumps};
ghost use Rattle.scope.specs.Phases.{check_phase};
ghost use Rattle.scope.specs.Refusals.{joints_phase};
ghost use Rattle.scope.specs.Tests.{same_point, is_joint};
ghost use Rattle.lines.specs.SearchContracts.{first_failing};
ghost use Rattle.shape.specs.ShapeContracts.{is_none, is_untaken, byte_at, EdgeTable, JumpTable};

use crate::edges::{FIRST_EDGE, line_after_elements, take_side};
use crate::sides::{NONE, SideRow};
use mesh::Mesh;
use scope::{Outcome, Place, Reason, demand};

// The byte of a side that a jump uses: no element's, no edge's, and not NONE.
const USED: u8 = 254;

// Whether a to b is an outer side that no edge and no jump has used so far.
fn free_side(sides: &[SideRow], a: usize, b: usize) -> bool
    requires a_row { a < length sides.now }
    requires b_row { b < length sides.now }
    requires a_column { a < most_nodes }
    requires b_column { b < most_nodes }
    ensures { result ≡ is_untaken (byte_at sides.now a b) && is_none (byte_at sides.now b a) }
{
    sides[a][b] < FIRST_EDGE && sides[b][a] == NONE
}

// Whether two nodes have the same coordinates.
fn same_point(m: &Mesh, a: usize, b: usize) -> bool
    requires a_there { a < nodes m.now.numbers.now }
    requires b_there { b < nodes m.now.numbers.now }
    ensures { result ≡ same_point m.now.numbers.now a b }
{
    m.run(a, b) == 0 && m.rise(a, b) == 0
}

// Whether jump j is a joint, where the jumps before it have used their sides.
fn is_joint(m: &Mesh, j: usize, sides: &[SideRow]) -> bool
    requires there { j < jumps m.now.numbers.now }
    requires used { JumpTable m.now.numbers.now j sides.now }
    ensures { result ≡ is_joint m.now.numbers.now j }
{
    let jump = m.jump(j);
    free_side(sides, jump.from, jump.to)
        && free_side(sides, jump.facing_to, jump.facing_from)
        && same_point(m, jump.from, jump.facing_from)
        && same_point(m, jump.to, jump.facing_to)
}

// Jump j uses its two sides: from to to, and facing to back to facing from.
fn use_sides(m: &Mesh, j: usize, sides: &mut [SideRow])
    requires there { j < jumps m.now.numbers.now }
    requires used { JumpTable m.now.numbers.now j sides.old }
    ensures { JumpTable m.now.numbers.now (j + 1) sides.new }
{
    let jump = m.jump(j);
    take_side(sides, jump.from, jump.to, USED);
    take_side(sides, jump.facing_to, jump.facing_from, USED);
}

// 44, by a table in which the edges have taken their sides: the jumps before the first that fails use theirs.
pub fn joints_check(m: &Mesh, sides: &mut [SideRow]) -> Outcome
    requires { EdgeTable m.now.numbers.now (edges m.now.numbers.now) sides.old }
    ensures outcome { outcome_of result ≡ check_phase (joints_phase m.now.numbers.now) }
    ensures used { let m = m.now.numbers.now in
        JumpTable m (first_failing (is_joint m) (jumps m)) sides.new }
{
    for j in 0..m.sizes.jumps {
        let place = Place::Line(line_after_elements(m.sizes, m.sizes.edges + j));
        demand(is_joint(m, j, sides), Reason::Joint.at(place))?;
        use_sides(m, j, sides);
    }
    Ok(())
}
