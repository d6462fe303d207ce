// 42 (document 02, N2): the pairs of a node and a soil around it are at most 100, or 40 with 108 sides (N9).
// They are collected from the marks, nodes ascending and at a node soils ascending.
ghost use Rattle.std.specs.Prelude.{◌≡◌, ◌++◌, [], ◌∷◌, map, ◌+◌, ◌<◌, ◌≤◌, leb, ltb, length, OnOk, IfOk};
ghost use Rattle.arrayvec.specs.ArrayVec.{array_vec_len};
ghost use Rattle.scope.specs.Answer.{outcome_of};
ghost use Rattle.scope.specs.Checks.{demand};
ghost use Rattle.scope.specs.Mesh.{most_nodes, most_soils, most_pairs, pairs_with, nodes};
ghost use Rattle.scope.specs.Phases.{check_phase};
ghost use Rattle.scope.specs.Refusals.{pairs_phase};
ghost use Rattle.scope.specs.Rows.{node_pairs};
ghost use Rattle.mesh.specs.PairContracts.{pair_of, PairsAre};

use crate::marks::MarkedMesh;
use mesh::limits::{MOST_PAIRS, MOST_SIDES, PAIRS_FOR_108};
use mesh::pairs::{Pair, Pairs};
use scope::{Outcome, Place, Reason, Refusal, demand};

// The most pairs of a mesh with so many sides.
#[tactic(auto, unfolding(scope::specs::Mesh::pairs_with))]
fn most_pairs(sides: usize) -> usize
    ensures with_sides { result ≡ pairs_with sides }
    ensures few { result ≤ most_pairs }
{
    if sides == MOST_SIDES {
        PAIRS_FOR_108
    } else {
        MOST_PAIRS
    }
}

// Adds node v with a soil, where there are not yet as many pairs as there can be.
fn add_pair(pairs: &mut Pairs, v: usize, soil: usize, most: usize) -> Outcome
    requires node_there { v < most_nodes }
    requires soil_there { soil < most_soils }
    requires room { most ≤ most_pairs }
    ensures outcome { outcome_of result ≡ demand (ltb (array_vec_len pairs.old) most) 42 (Place.Node (v + 1)) }
    ensures added { OnOk result (pairs.new.items ≡ pairs.old.items ++ record { node = v; soil = soil } ∷ []) }
{
    let place = Place::Node(v as u32 + 1);
    demand(pairs.len() < most, Reason::Pairs.at(place))?;
    pairs.push(Pair {
        node: v as u8,
        soil: soil as u8,
    });
    Ok(())
}

// Adds the pairs of node v.
fn add_pairs(pairs: &mut Pairs, marked: &MarkedMesh, v: usize, most: usize) -> Outcome
    requires there { v < nodes marked.now.mesh.numbers.now }
    requires room { most ≤ most_pairs }
    requires fit { array_vec_len pairs.old ≤ most }
    ensures outcome { outcome_of result
        ≡ demand (leb (array_vec_len pairs.old + length (node_pairs marked.now.mesh.numbers.now v)) most) 42
        (Place.Node (v + 1)) }
    ensures added { OnOk result
        (map pair_of pairs.new.items
        ≡ map pair_of pairs.old.items ++ node_pairs marked.now.mesh.numbers.now v) }
{
    for soil in 0..marked.mesh.sizes.soils {
        if marked.marks[v][soil] {
            add_pair(pairs, v, soil, most)?;
        }
    }
    Ok(())
}

pub fn pairs_check(marked: &MarkedMesh) -> Result<Pairs, Refusal>
    ensures outcome { outcome_of result ≡ check_phase (pairs_phase marked.now.mesh.numbers.now) }
    ensures pairs { IfOk result (λ p. PairsAre marked.now.mesh.numbers.now p.items) }
{
    let most = most_pairs(marked.mesh.sizes.sides);
    let mut pairs = Pairs::new();
    for v in 0..marked.mesh.sizes.nodes {
        add_pairs(&mut pairs, marked, v, most)?;
    }
    Ok(pairs)
}
