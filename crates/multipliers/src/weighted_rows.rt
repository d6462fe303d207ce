// The rows of a mesh, each with its multiplier.
ghost use Rattle.std.specs.Prelude.{◌≡◌, length};
ghost use Rattle.std.proofs.Props.{props};
ghost use Rattle.scope.specs.Mesh.{sides};
ghost use Rattle.multipliers.specs.MultiplierContracts.{Multipliers};

use criterion::claims::JudgedClaim;
use criterion::polygons::Polygon;
use mesh::pairs::PairedMesh;

// The multipliers are those of the equality rows, and then for each pair one for each side of the mesh's polygon.
#[derive(Clone, Copy)]
pub struct WeightedRows<'m, 'p> {
    pub mesh: PairedMesh<'m>,
    pub polygon: &'p Polygon,
    pub multipliers: &'m [i64],
    pub ghost its_polygon: { length polygon.now.steps.items ≡ sides mesh.mesh.numbers.now },
    pub ghost of_each_row: { Multipliers mesh.mesh.numbers.now multipliers.now } by { Prim.hlevel props },
}

impl<'m, 'p> WeightedRows<'m, 'p> {
    ghost use Rattle.std.specs.Prelude.{false, ◌<◌, take, drop, IfSome, IfNone};
    ghost use Rattle.scope.specs.Columns.{has_multipliers};
    ghost use Rattle.scope.specs.Rows.{pair_count};
    ghost use Rattle.multipliers.specs.MultiplierContracts.{pair_first};
    ghost use Rattle.multipliers.specs.RowContracts.{RowsOf};

    // The rows of a claim's mesh with its multipliers, where it has them.
    pub fn of(claim: &JudgedClaim<'m, 'p>) -> Option<WeightedRows<'m, 'p>>
        ensures found { IfSome result (λ r. RowsOf r claim.now.mesh.mesh.numbers.now claim.now.numbers.now) }
        ensures none { IfNone result (has_multipliers claim.now.numbers.now ≡ false) }
    {
        if !claim.has_multipliers() {
            return None;
        }
        Some(WeightedRows {
            mesh: claim.mesh,
            polygon: claim.polygon,
            multipliers: claim.multipliers(),
        })
    }

    // The multipliers of pair a, one for each side: they follow those of the equality rows and of the pairs before it.
    pub fn of_pair(&self, a: usize) -> &'m [i64]
        requires { a < pair_count self.now.mesh.mesh.numbers.now }
        ensures { result.now
            ≡ take (sides self.now.mesh.mesh.numbers.now)
            (drop (pair_first self.now.mesh.mesh.numbers.now a) self.now.multipliers.now) }
    {
        let sides = self.mesh.mesh.sizes.sides;
        let first = self.mesh.mesh.equality_count() + a * sides;
        &self.multipliers[first..first + sides]
    }
}
