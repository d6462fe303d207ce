// A claim whose lines have passed, on a mesh with its pairs: its parts by what they are.
ghost use Rattle.std.specs.Prelude.{
  ◌≡◌,
  false,
  ℕ,
  ◌+◌,
  ◌*◌,
  ◌<◌,
  ◌≤◌,
  length,
  IfSome,
  IfNone,
};
ghost use Rattle.integer.specs.Bounds.{Within, AllWithin};
ghost use Rattle.scope.specs.Claim.{most_multiplier};
ghost use Rattle.scope.specs.Columns.{at, has_field, has_multipliers};
ghost use Rattle.scope.specs.Claim.{if_there, multiplier};
ghost use Rattle.scope.specs.Mesh.{strength_multiplier, most_nodes, sides, equality_count};
ghost use Rattle.scope.specs.Rows.{pair_count};
ghost use Rattle.scope.specs.NumberRanges.{ClaimFacts};
ghost use Rattle.criterion.specs.FieldContracts.{FieldOf};

use crate::fields::Field;
use crate::polygons::Polygon;
use lines::layout::{CLAIM_HEADER, STRESS_COLUMNS, has_part, if_there};
use mesh::pairs::PairedMesh;

// The places of the header's numbers.
const FIELD: usize = 0;

const MULTIPLIERS: usize = 1;

const SCALE: usize = 2;

const LOAD: usize = 3;

// Where a claim's multipliers begin, on a mesh with so many nodes: after the header and the field's stresses.
pub fn multipliers_from(c: &[i64], nodes: usize) -> usize
    requires { nodes ≤ most_nodes }
    ensures { result ≡ 4 + if_there (has_field c.now) nodes * 3 }
{
    CLAIM_HEADER + if_there(has_part(c, FIELD), nodes) * STRESS_COLUMNS
}

// The mesh, the claim's numbers, and the mesh's polygon. Its sides are made once for a claim, and lent to each part.
#[derive(Clone, Copy)]
pub struct JudgedClaim<'m, 'p> {
    pub mesh: PairedMesh<'m>,
    pub numbers: &'m [i64],
    pub polygon: &'p Polygon,
    pub ghost facts: { ∥ ClaimFacts mesh.mesh.numbers.now numbers.now ∥₁ },
    pub ghost its_polygon: { length polygon.now.steps.items ≡ sides mesh.mesh.numbers.now },
}

impl<'m, 'p> JudgedClaim<'m, 'p> {
    // Whether it has a field, and whether it has multipliers.
    pub fn has_field(&self) -> bool
        ensures { result ≡ has_field self.now.numbers.now }
    {
        has_part(self.numbers, FIELD)
    }

    pub fn has_multipliers(&self) -> bool
        ensures { result ≡ has_multipliers self.now.numbers.now }
    {
        has_part(self.numbers, MULTIPLIERS)
    }

    // The field, where it has one: its stresses stand after the header.
    pub fn field(&self) -> Option<Field<'m, 'p>>
        ensures found { IfSome result (λ f. FieldOf f self.now.mesh.mesh.numbers.now self.now.numbers.now) }
        ensures none { IfNone result (has_field self.now.numbers.now ≡ false) }
    {
        if !self.has_field() {
            return None;
        }
        Some(Field {
            mesh: self.mesh,
            polygon: self.polygon,
            stresses: &self.numbers[CLAIM_HEADER..],
            l: self.numbers[LOAD],
            n: self.numbers[SCALE],
        })
    }

    // The multipliers, by row: they stand after the field's stresses.
    pub fn multipliers(&self) -> &'m [i64]
        ensures by_row { at result.now ≡ multiplier self.now.mesh.mesh.numbers.now self.now.numbers.now }
        ensures there { length result.now
            ≡ if_there (has_multipliers self.now.numbers.now)
            (equality_count self.now.mesh.mesh.numbers.now
            + pair_count self.now.mesh.mesh.numbers.now * sides self.now.mesh.mesh.numbers.now) }
        ensures in_range { AllWithin most_multiplier result.now }
        ensures strengths_in_range { (k : ℕ)
            → k < pair_count self.now.mesh.mesh.numbers.now * sides self.now.mesh.mesh.numbers.now
            → Within (strength_multiplier (sides self.now.mesh.mesh.numbers.now))
            (at result.now (equality_count self.now.mesh.mesh.numbers.now + k)) }
    {
        &self.numbers[multipliers_from(self.numbers, self.mesh.mesh.sizes.nodes)..]
    }
}
