// The normal and the shear expression of a side or a jump, in the stresses of a node.
ghost use Rattle.std.specs.Prelude.{◌≡◌, ◌<◌};
ghost use Rattle.scope.specs.Mesh.{most_nodes};
ghost use Rattle.equality.specs.EqualityContracts.{entries_at, part_entries};

use crate::geometry::Step;
use crate::parts::Part;
use crate::row::Term;

// An expression in the stresses of a node.
#[derive(Clone, Copy)]
pub struct Expression {
    pub a: Term,
    pub b: Term,
    pub c: Term,
}

// The normal or the shear expression at node v of a side with this step: "w²·sx - 2uw·t + u²·sy", or
// "uw·(sx-sy) + (w²-u²)·t".
pub(crate) fn expression_at(part: Part, step: Step, v: usize) -> Expression
    requires a_node { v < most_nodes }
    ensures { entries_at result ≡ part_entries part step.u step.w v }
{
    let Step { u, w } = step;
    match part {
        Part::Normal => Expression {
            a: Term::new(3 * v, w * w),
            b: Term::new(3 * v + 2, -(2 * u * w)),
            c: Term::new(3 * v + 1, u * u),
        },
        Part::Shear => Expression {
            a: Term::new(3 * v, u * w),
            b: Term::new(3 * v + 1, -(u * w)),
            c: Term::new(3 * v + 2, w * w - u * u),
        },
    }
}
