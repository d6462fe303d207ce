// The check of a claim's multipliers against the rows and the columns: 31, 32 and 33, and the limit W/m.
ghost use Rattle.std.specs.Prelude.{◌≡◌, [], ◌∷◌, ◌*◌, ◌<◌, ◌≤◌, length, IfOk};
ghost use Rattle.integer.specs.Bounds.{AllWithin};
ghost use Rattle.scope.specs.Answer.{outcome_of, load_of};
ghost use Rattle.scope.specs.Bounds.{most_column};
ghost use Rattle.scope.specs.Claim.{most_multiplier};
ghost use Rattle.scope.specs.Columns.{at};
ghost use Rattle.scope.specs.Mesh.{most_nodes, nodes, equality_count};
ghost use Rattle.scope.specs.Phases.{check_phase, check_phases};
ghost use Rattle.scope.specs.Refusals.{unfixed_phase, columns_phase, live_phase, multiplier_part};
ghost use Rattle.scope.specs.Rows.{equality_rows, rows_of};
ghost use Rattle.scope.specs.Sums.{zero_if_unfixed, live_sum, limit_sum};
ghost use Rattle.scope.specs.Tests.{row_at};
ghost use Rattle.scope.specs.Verdict.{multipliers_check, upper_load};
ghost use Rattle.multipliers.specs.MultiplierContracts.{WholeSumsFit};

use crate::multiplier_sums::row_sums;
use crate::sums::Sums;
use crate::weighted_rows::WeightedRows;
use criterion::claims::JudgedClaim;
use equality::equality_rows::row_asked;
use mesh::Mesh;
use mesh::limits::MOST_NODES;
use scope::{Load, Outcome, Place, Reason, Refusal, demand};

// Three columns for each of the most nodes.
const COLUMNS: usize = 3 * MOST_NODES;

// The multiplier of equality row k is 0, or the row asks something.
#[tactic(auto, using(crate::proofs::LimitLaws::zero_read, crate::proofs::LimitLaws::asked_read))]
pub fn zero_if_unfixed(m: &Mesh, y: &[i64], k: usize) -> bool
    requires row_there { k < equality_count m.now.numbers.now }
    requires multiplier_there { k < length y.now }
    requires multipliers_fit { AllWithin most_multiplier y.now }
    ensures { result ≡ zero_if_unfixed (at y.now k) (row_at (equality_rows m.now.numbers.now) k) }
{
    y[k] == 0 || row_asked(m, k)
}

// 31: the lowest unfixed row with a multiplier that is not 0.
fn unfixed_check(rows: &WeightedRows) -> Outcome
    ensures { outcome_of result
        ≡ check_phase
        (unfixed_phase (equality_rows rows.now.mesh.mesh.numbers.now) (at rows.now.multipliers.now)) }
{
    for k in 0..rows.mesh.mesh.equality_count() {
        let passes = zero_if_unfixed(&rows.mesh.mesh, rows.multipliers, k);
        demand(passes, Reason::Unfixed.at(Place::Row(k as u32 + 1)))?;
    }
    Ok(())
}

// 32: the lowest column whose sum is not 0.
fn columns_check(columns: &[i64]) -> Outcome
    requires few { length columns.now ≤ 3 * most_nodes }
    requires columns_fit { AllWithin most_column columns.now }
    ensures { outcome_of result
        ≡ check_phase (columns_phase (at columns.now) (length columns.now)) }
{
    match columns.iter().position(|sum| *sum != 0) {
        Some(j) => Err(Reason::Column.at(Place::Column(j as u32 + 1))),
        None => Ok(()),
    }
}

// 32, then 33, and the limit, from the sums of the columns, W and m.
fn sums_limit(columns: &[i64], sums: Sums) -> Result<Load, Refusal>
    requires few { length columns.now ≤ 3 * most_nodes }
    requires sums_fit { WholeSumsFit columns.now sums }
    ensures outcome { outcome_of result
        ≡ check_phases
        (columns_phase (at columns.now) (length columns.now) ∷ live_phase sums.m ∷ []) }
    ensures load { IfOk result (λ r. r ≡ record { num = sums.w; den = sums.m }) }
{
    columns_check(columns)?;
    demand(0 < sums.m, Reason::Live.at(Place::Column(0)))?;
    Ok(Load {
        num: sums.w,
        den: sums.m,
    })
}

// 31, 32 and 33 of multipliers, and their limit.
fn multipliers_limit(rows: &WeightedRows) -> Result<Load, Refusal>
    ensures outcome { outcome_of result
        ≡ multipliers_check (equality_rows rows.now.mesh.mesh.numbers.now)
        (rows_of rows.now.mesh.mesh.numbers.now) (3 * nodes rows.now.mesh.mesh.numbers.now)
        (at rows.now.multipliers.now) }
    ensures load { IfOk result
        (λ r. r
        ≡ record {
          num = limit_sum (at rows.now.multipliers.now) (rows_of rows.now.mesh.mesh.numbers.now);
          den = live_sum (at rows.now.multipliers.now) (rows_of rows.now.mesh.mesh.numbers.now);
        }) }
{
    unfixed_check(rows)?;
    let mut columns = [0; COLUMNS];
    let sums = row_sums(rows, &mut columns);
    sums_limit(&columns[..3 * rows.mesh.mesh.sizes.nodes], sums)
}

// The limit of a claim whose lines have passed, where it has multipliers.
pub fn claim_limit(claim: &JudgedClaim) -> Result<Option<Load>, Refusal>
    ensures outcome { outcome_of result
        ≡ check_phases (multiplier_part claim.now.mesh.mesh.numbers.now claim.now.numbers.now) }
    ensures load { IfOk result
        (λ r. load_of r ≡ upper_load claim.now.mesh.mesh.numbers.now claim.now.numbers.now) }
{
    let Some(rows) = WeightedRows::of(claim) else {
        return Ok(None);
    };
    let limit = multipliers_limit(&rows)?;
    Ok(Some(limit))
}
