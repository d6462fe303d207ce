// What the rows of a soil by direction read of it.
ghost use Rattle.std.specs.Prelude.{◌<◌};
ghost use Rattle.integer.specs.Bounds.{Within};
ghost use Rattle.scope.specs.Mesh.{soils};
ghost use Rattle.scope.specs.Bounds.{most_plane_radius};
ghost use Rattle.bedded.specs.PlaneContracts.{BedIs};

use crate::planes::Bed;
use mesh::Mesh;

// r, p, q, ch and cv - ch of soil k, with the radius of the mesh's polygon.
pub fn bed_of(mesh: &Mesh, k: usize, radius: i64) -> Bed
    requires there { k < soils mesh.now.numbers.now }
    requires radius_fits { Within most_plane_radius radius }
    ensures { BedIs result mesh.now.numbers.now k radius }
{
    let soil = mesh.soil(k);
    Bed {
        radius,
        p: soil.p,
        q: soil.q,
        along: soil.cohesion,
        excess: soil.across - soil.cohesion,
    }
}
