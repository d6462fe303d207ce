// 5: each element turns left at all its corners.
ghost use Rattle.std.specs.Prelude.{◌≡◌, ◌<◌, pos, ◌-ℤ◌, ◌*ℤ◌, IfOk};
ghost use Rattle.std.proofs.Props.{props};
ghost use Rattle.std.specs.Int.Signed.{lt_z};
ghost use Rattle.integer.specs.Bounds.{Within, Is};
ghost use Rattle.scope.specs.Answer.{outcome_of};
ghost use Rattle.scope.specs.Bounds.{most_area};
ghost use Rattle.scope.specs.Mesh.{most_coordinate};
ghost use Rattle.scope.specs.Mesh.{nodes, elements, corner_count};
ghost use Rattle.scope.specs.Phases.{check_phase};
ghost use Rattle.scope.specs.Refusals.{turns_phase};
ghost use Rattle.scope.specs.Tests.{turn, left_turn_at, left_turns};
ghost use Rattle.outlines.specs.OutlineContracts.{Turned};

use crate::corners::{corner_around, corner_count};
use mesh::Mesh;
use scope::{Place, Reason, Refusal, demand};

// The cross product of two steps.
fn cross(ux: i64, uy: i64, vx: i64, vy: i64) -> i64
    requires ux_small { Within most_coordinate ux }
    requires uy_small { Within most_coordinate uy }
    requires vx_small { Within most_coordinate vx }
    requires vy_small { Within most_coordinate vy }
    ensures { Is result (ux *ℤ vy -ℤ vx *ℤ uy) most_area }
{
    ux * vy - vx * uy
}

// Whether the nodes a, b, c turn left at b.
pub(crate) fn turns_left(m: &Mesh, a: usize, b: usize, c: usize) -> bool
    requires a_there { a < nodes m.now.numbers.now }
    requires b_there { b < nodes m.now.numbers.now }
    requires c_there { c < nodes m.now.numbers.now }
    ensures { result ≡ lt_z (pos 0) (turn m.now.numbers.now a b c) }
{
    let ux = m.run(b, a);
    let uy = m.rise(b, a);
    let vx = m.run(c, a);
    let vy = m.rise(c, a);
    0 < cross(ux, uy, vx, vy)
}

fn left_turn_at(m: &Mesh, e: usize, i: usize) -> bool
    requires there { e < elements m.now.numbers.now }
    requires at_corner { i < corner_count m.now.numbers.now e }
    ensures { result ≡ left_turn_at m.now.numbers.now e i }
{
    let a = corner_around(m, e, i + (corner_count(m, e) - 1));
    let b = corner_around(m, e, i);
    let c = corner_around(m, e, i + 1);
    turns_left(m, a, b, c)
}

fn left_turns(m: &Mesh, e: usize) -> bool
    requires { e < elements m.now.numbers.now }
    ensures { result ≡ left_turns m.now.numbers.now e }
{
    (0..corner_count(m, e)).all(|i| left_turn_at(m, e, i))
}

// A mesh whose elements turn left at all their corners, so that each is convex.
#[derive(Clone, Copy)]
pub struct TurnedMesh<'a> {
    pub mesh: Mesh<'a>,
    pub ghost turned: { Turned mesh.numbers.now } by { Prim.hlevel props },
}

pub fn turns_check<'a>(m: &Mesh<'a>) -> Result<TurnedMesh<'a>, Refusal>
    ensures outcome { outcome_of result ≡ check_phase (turns_phase m.now.numbers.now) }
    ensures same { IfOk result (λ t. t.mesh ≡ m.now) }
{
    for e in 0..m.sizes.elements {
        let place = Place::Element(e as u32 + 1);
        demand(left_turns(m, e), Reason::LeftTurn.at(place))?;
    }
    Ok(TurnedMesh { mesh: *m })
}
