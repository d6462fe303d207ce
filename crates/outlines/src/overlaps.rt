// 47 (document 02, N10): no two elements share a point inside both. Boxes first, then the lines along their sides.
ghost use Rattle.std.specs.Prelude.{◌≡◌, ◌<◌, ◌≤◌};
ghost use Rattle.scope.specs.Answer.{outcome_of};
ghost use Rattle.scope.specs.Mesh.{nodes, elements, most_elements};
ghost use Rattle.scope.specs.Phases.{check_phase};
ghost use Rattle.scope.specs.Refusals.{apart_phase};
ghost use Rattle.scope.specs.Tests.{none_left, parted_by, apart_from, lies_apart};
ghost use Rattle.outlines.specs.OutlineContracts.{Turned, BoxedTo};

use crate::boxes::{Boxed, Boxes, boxes_around};
use crate::corners::{corner_around, corner_count};
use crate::turns::{TurnedMesh, turns_left};
use mesh::Mesh;
use mesh::limits::MOST_ELEMENTS;
use scope::{Outcome, Place, Reason, demand};

// Whether no corner of element d is strictly left of the line from node a to node b.
fn none_left(m: &Mesh, a: usize, b: usize, d: usize) -> bool
    requires a_there { a < nodes m.now.numbers.now }
    requires b_there { b < nodes m.now.numbers.now }
    requires there { d < elements m.now.numbers.now }
    ensures { result ≡ none_left m.now.numbers.now a b d }
{
    (0..corner_count(m, d)).all(|j| !turns_left(m, a, b, corner_around(m, d, j)))
}

// Whether the line along a side of element e has all of element d on it or to its right.
fn parted_by(m: &Mesh, e: usize, d: usize) -> bool
    requires there { e < elements m.now.numbers.now }
    requires other_there { d < elements m.now.numbers.now }
    ensures { result ≡ parted_by m.now.numbers.now e d }
{
    (0..corner_count(m, e)).any(|i| none_left(
        m,
        corner_around(m, e, i),
        corner_around(m, e, i + 1),
        d,
    ))
}

// A mesh whose elements turn left, with the boxes of them all.
#[derive(Clone, Copy)]
struct BoxedMesh<'m, 'b> {
    mesh: Mesh<'m>,
    boxes: &'b [Boxed],
    ghost turned: { Turned mesh.numbers.now },
    ghost boxed: { BoxedTo mesh.numbers.now (elements mesh.numbers.now) boxes.now },
}

impl BoxedMesh<'_, '_> {
    // Whether a line along a side of one of two elements has the other on its right. Where boxes are apart one does.
    fn apart_from(&self, d: usize, e: usize) -> bool
        requires lower_there { d < elements self.now.mesh.numbers.now }
        requires there { e < elements self.now.mesh.numbers.now }
        ensures { result ≡ apart_from self.now.mesh.numbers.now d e }
    {
        if self.boxes[d].own.apart_from(&self.boxes[e].own) {
            return true;
        }
        parted_by(&self.mesh, e, d) || parted_by(&self.mesh, d, e)
    }

    // Whether element e is apart from each element below it. For speed from the nearest down: of elements that are
    // numbered row by row all from some number down end below it.
    fn lies_apart(&self, e: usize) -> bool
        requires { e < elements self.now.mesh.numbers.now }
        ensures { result ≡ lies_apart self.now.mesh.numbers.now e }
    {
        for d in (0..e).rev() {
            if self.boxes[d].all_before(&self.boxes[e].own) {
                return true;
            }
            if !self.apart_from(d, e) {
                return false;
            }
        }
        true
    }
}

// Of few elements the boxes have a small room: a room is cleared before it is used, and clearing the large one was a
// tenth of the time of the worked sheet.
const FEW_ELEMENTS: usize = 16;

// No element shares an inner point with one below it, by boxes in a room for N.
fn all_apart<const N: usize>(m: &TurnedMesh) -> Outcome
    requires few { N ≤ most_elements }
    requires room { elements m.now.mesh.numbers.now ≤ N }
    ensures { outcome_of result ≡ check_phase (apart_phase m.now.mesh.numbers.now) }
{
    let boxes: Boxes<N> = boxes_around(&m.mesh);
    let boxed = BoxedMesh {
        mesh: m.mesh,
        boxes: &boxes,
    };
    for e in 0..m.mesh.sizes.elements {
        let place = Place::Element(e as u32 + 1);
        demand(boxed.lies_apart(e), Reason::Overlap.at(place))?;
    }
    Ok(())
}

pub fn overlaps_check(m: &TurnedMesh) -> Outcome
    ensures { outcome_of result ≡ check_phase (apart_phase m.now.mesh.numbers.now) }
{
    if m.mesh.sizes.elements <= FEW_ELEMENTS {
        all_apart::<FEW_ELEMENTS>(m)
    } else {
        all_apart::<MOST_ELEMENTS>(m)
    }
}
