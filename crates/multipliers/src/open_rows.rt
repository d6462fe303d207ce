// The open rows: strength rows "with multiplier above 0 and left side below right".
ghost use Rattle.std.specs.Prelude.{◌≡◌, true, ◌&&◌, ◌+◌, ◌*◌, ◌/◌, ◌<◌, ◌≤◌, cond, pos, length, count_by, zip};
ghost use Rattle.std.specs.Int.Signed.{lt_z};
ghost use Rattle.integer.specs.Bounds.{AllWithin};
ghost use Rattle.scope.specs.Answer.{open_rows_of};
ghost use Rattle.scope.specs.Columns.{at};
ghost use Rattle.scope.specs.Mesh.{most_sides, most_strength, sides, by_direction};
ghost use Rattle.scope.specs.Rows.{pair_count, pair_at, rows_of};
ghost use Rattle.scope.specs.Sums.{open_rows};
ghost use Rattle.scope.specs.Verdict.{open_count};
ghost use Rattle.multipliers.specs.MultiplierContracts.{count_below, pair_first};
ghost use Rattle.multipliers.specs.OpenContracts.{side_open, plane_open, open_test};

use crate::weighted_rows::WeightedRows;
use bedded::plane_rows::StressedPlanes;
use criterion::claims::JudgedClaim;
use criterion::fields::Field;
use criterion::pair_planes::pair_kind;
use criterion::steps::Step;
use criterion::strength_numbers::PairNumbers;
use criterion::strength_rows::side_slack;
use mesh::entries::SoilKind;

// A side with the multiplier w is open.
fn side_open(side: &Step, pair: &PairNumbers, w: i64) -> bool
    ensures { result ≡ side_open pair.now side.now w }
{
    0 < w && 0 < side_slack(side, pair)
}

// How many sides of a pair are open, with their multipliers y.
fn pair_open(sides: &[Step], pair: &PairNumbers, y: &[i64]) -> u64
    ensures { result ≡ count_by (λ p. side_open pair.now p.0 p.1) (zip sides.now y.now) }
{
    sides
        .iter()
        .zip(y)
        .filter(|&(side, w)| side_open(side, pair, *w))
        .count() as u64
}

// A row of a plane with the multiplier w is open, by its slack.
fn row_open(w: i64, slack: i64) -> bool
    ensures { result ≡ (lt_z (pos 0) w && lt_z (pos 0) slack) }
{
    0 < w && 0 < slack
}

// How many of the two rows of plane j are open, with their multipliers.
fn plane_open(planes: &StressedPlanes, j: usize, plus: i64, minus: i64) -> u64
    requires { j < length planes.now.corners.now }
    ensures { result
        ≡ cond (plane_open planes.now (2 * j) plus) 1 0 + cond (plane_open planes.now (2 * j + 1) minus) 1 0 }
{
    if plus <= 0 && minus <= 0 {
        return 0;
    }
    let slacks = planes.corner_slacks(j);
    u64::from(row_open(plus, slacks.plus)) + u64::from(row_open(minus, slacks.minus))
}

// How many rows of a pair's planes are open, with their multipliers y.
fn planes_open(planes: &StressedPlanes, y: &[i64]) -> u64
    requires as_many { length planes.now.corners.now ≡ length y.now }
    requires few { length y.now ≤ most_sides }
    requires multipliers_fit { AllWithin most_strength y.now }
    ensures { result ≡ count_below (λ k. plane_open planes.now k (at y.now k)) (2 * (length y.now / 2)) }
{
    let mut count = 0;
    for j in 0..y.len() / 2 {
        count += plane_open(planes, j, y[2 * j], y[2 * j + 1]);
    }
    count
}

// How many strength rows of pair a are open, by the kind of its soil.
fn open_in_pair(field: &Field, rows: &WeightedRows, a: usize) -> u64
    requires same_mesh { field.now.mesh.mesh.numbers.now ≡ rows.now.mesh.mesh.numbers.now }
    requires there { a < pair_count rows.now.mesh.mesh.numbers.now }
    ensures { let m = rows.now.mesh.mesh.numbers.now in
        result
        ≡ count_below
        (λ i. open_test m (at field.now.stresses.now) field.now.l field.now.n rows.now.multipliers.now
        (pair_first m a + i))
        (sides m) }
{
    match pair_kind(&rows.mesh, a) {
        SoilKind::AsBefore => pair_open(
            rows.polygon.sides(),
            &field.pair_numbers(a),
            rows.of_pair(a),
        ),
        SoilKind::ByDirection => open_by_planes(field, rows, a),
    }
}

// The same, where its soil is by direction. For speed it stands apart.
#[inline(never)]
fn open_by_planes(field: &Field, rows: &WeightedRows, a: usize) -> u64
    requires same_mesh { field.now.mesh.mesh.numbers.now ≡ rows.now.mesh.mesh.numbers.now }
    requires there { a < pair_count rows.now.mesh.mesh.numbers.now }
    requires bedded { by_direction rows.now.mesh.mesh.numbers.now
        (pair_at rows.now.mesh.mesh.numbers.now a).soil ≡ true }
    ensures { let m = rows.now.mesh.mesh.numbers.now in
        result
        ≡ count_below
        (λ i. open_test m (at field.now.stresses.now) field.now.l field.now.n rows.now.multipliers.now
        (pair_first m a + i))
        (sides m) }
{
    planes_open(&field.planes_at(a), rows.of_pair(a))
}

// The open rows of a field and of multipliers on the same mesh.
fn open_count(field: &Field, rows: &WeightedRows) -> u64
    requires { field.now.mesh.mesh.numbers.now ≡ rows.now.mesh.mesh.numbers.now }
    ensures { result
        ≡ open_rows (at field.now.stresses.now) field.now.l field.now.n (at rows.now.multipliers.now)
        (rows_of rows.now.mesh.mesh.numbers.now) }
{
    let mut count = 0;
    for a in 0..rows.mesh.pairs.len() {
        count += open_in_pair(field, rows, a);
    }
    count
}

// The open rows of a claim: "open rows need both parts".
pub fn open_rows(claim: &JudgedClaim) -> Option<u64>
    ensures { open_rows_of result
        ≡ open_count claim.now.mesh.mesh.numbers.now claim.now.numbers.now }
{
    let field = claim.field()?;
    let rows = WeightedRows::of(claim)?;
    Some(open_count(&field, &rows))
}
