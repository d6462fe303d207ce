// What an edge says of a part of its traction.
ghost use Rattle.integer.specs.Bounds.{Within};
ghost use Rattle.scope.specs.Mesh.{most_traction};

use crate::parts::Part;
use mesh::entries::Edge;

// Whether the edge fixes it, and its dead and its live share.
#[derive(Clone, Copy)]
pub struct Traction {
    pub fixed: bool,
    pub dead: i64,
    pub live: i64,
    pub ghost dead_fits: { Within most_traction dead },
    pub ghost live_fits: { Within most_traction live },
}

impl Traction {
    ghost use Rattle.equality.specs.EqualityContracts.{TractionIs};

    pub fn of(edge: Edge, part: Part) -> Traction
        ensures { TractionIs result part edge }
    {
        let fixed = part.is_fixed(edge.fixed);
        match part {
            Part::Normal => Traction {
                fixed,
                dead: edge.dead_normal,
                live: edge.live_normal,
            },
            Part::Shear => Traction {
                fixed,
                dead: edge.dead_shear,
                live: edge.live_shear,
            },
        }
    }
}
