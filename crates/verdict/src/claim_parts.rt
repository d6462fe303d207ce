// The parts of a claim whose lines have passed: what is accepted, and with which loads.
ghost use Rattle.std.specs.Prelude.{◌≡◌};
ghost use Rattle.scope.specs.Answer.{outcome_of, load_of, verdict_of};
ghost use Rattle.scope.specs.Cases.Verdict.{Accepted as IsAccepted};
ghost use Rattle.scope.specs.Mesh.{some_by_direction};
ghost use Rattle.scope.specs.NumberRanges.{ClaimFacts};
ghost use Rattle.scope.specs.Phases.{check_phases};
ghost use Rattle.scope.specs.Refusals.{field_part, part_phases};
ghost use Rattle.scope.specs.Verdict.{open_count, lower_load, upper_load, answer};

use crate::field_checks::field_check;
use criterion::claims::JudgedClaim;
use criterion::polygons::Polygon;
use mesh::Mesh;
use mesh::entries::SoilKind;
use mesh::pairs::PairedMesh;
use multipliers::multiplier_checks::claim_limit;
use multipliers::open_rows::open_rows;
use scope::{Accepted, Load, Outcome, Verdict};

// Whether a mesh lists a soil by direction, used or not (document 02, N14).
fn lists_direction(mesh: &Mesh) -> bool
    ensures { result ≡ some_by_direction mesh.now.numbers.now }
{
    for k in 0..mesh.sizes.soils {
        if let SoilKind::ByDirection = mesh.soil_kind(k) {
            return true;
        }
    }
    false
}

// The load l/n of a claim with a field, where no soil is by direction; else none.
fn lower_load(claim: &JudgedClaim) -> Option<Load>
    ensures { load_of result ≡ lower_load claim.now.mesh.mesh.numbers.now claim.now.numbers.now }
{
    let field = claim.field()?;
    if lists_direction(&claim.mesh.mesh) {
        return None;
    }
    Some(Load {
        num: field.l,
        den: field.n,
    })
}

// 21 and 22, where the claim has a field.
fn claim_field(claim: &JudgedClaim) -> Outcome
    ensures { outcome_of result
        ≡ check_phases (field_part claim.now.mesh.mesh.numbers.now claim.now.numbers.now) }
{
    match claim.field() {
        Some(field) => field_check(&field),
        None => Ok(()),
    }
}

// The verdict by the parts of a claim.
fn claim_verdict(claim: &JudgedClaim) -> Verdict
    ensures { let m = claim.now.mesh.mesh.numbers.now in
        let c = claim.now.numbers.now in
        verdict_of result
        ≡ answer (check_phases (part_phases m c)) (IsAccepted (open_count m c) (lower_load m c) (upper_load m c)) }
{
    claim_field(claim)?;
    let upper = claim_limit(claim)?;
    Ok(Accepted {
        open_rows: open_rows(claim),
        lower: lower_load(claim),
        upper,
    })
}

// The verdict by the parts, from numbers whose lines have passed.
pub fn parts_verdict(mesh: &PairedMesh, numbers: &[i64]) -> Verdict
    requires { ClaimFacts mesh.now.mesh.numbers.now numbers.now }
    ensures { let m = mesh.now.mesh.numbers.now in
        let c = numbers.now in
        verdict_of result
        ≡ answer (check_phases (part_phases m c)) (IsAccepted (open_count m c) (lower_load m c) (upper_load m c)) }
{
    let polygon = Polygon::of(mesh.mesh.sizes.sides);
    claim_verdict(&JudgedClaim {
        mesh: *mesh,
        numbers,
        polygon: &polygon,
    })
}
