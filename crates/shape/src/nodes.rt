// 7: each node is in an element, that is, it is marked with a soil.
ghost use Rattle.std.specs.Prelude.{◌≡◌, ◌<◌};
ghost use Rattle.scope.specs.Answer.{outcome_of};
ghost use Rattle.scope.specs.Mesh.{nodes};
ghost use Rattle.scope.specs.Phases.{check_phase};
ghost use Rattle.scope.specs.Refusals.{nodes_phase};
ghost use Rattle.scope.specs.Tests.{in_element};

use crate::marks::MarkedMesh;
use scope::{Outcome, Place, Reason, demand};

// Whether node v is marked with a soil.
fn some_soil(marked: &MarkedMesh, v: usize) -> bool
    requires { v < nodes marked.now.mesh.numbers.now }
    ensures { result ≡ in_element marked.now.mesh.numbers.now v }
{
    let soils = marked.marks[v];
    soils.contains(&true)
}

pub fn nodes_check(marked: &MarkedMesh) -> Outcome
    ensures { outcome_of result ≡ check_phase (nodes_phase marked.now.mesh.numbers.now) }
{
    for v in 0..marked.mesh.sizes.nodes {
        let place = Place::Node(v as u32 + 1);
        demand(some_soil(marked, v), Reason::NoElement.at(place))?;
    }
    Ok(())
}
