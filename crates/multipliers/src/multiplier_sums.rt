// The sums over all rows, each times its multiplier: the columns, W and m.
ghost use Rattle.std.specs.Prelude.{◌≡◌, false, ◌+◌, ◌*◌, ◌<◌, ◌≤◌, length};
ghost use Rattle.integer.specs.Bounds.{AllWithin};
ghost use Rattle.scope.specs.Mesh.{most_sides, by_direction, equality_count};
ghost use Rattle.scope.specs.Rows.{pair_count, pair_at};
ghost use Rattle.scope.specs.Bounds.{pair_column, most_column};
ghost use Rattle.equality.specs.EqualityContracts.{SumsAre};
ghost use Rattle.multipliers.specs.MultiplierContracts.{
  NoSums,
  Summed,
  PairsSummed,
  SideWeighted,
  SideMultipliers,
  SideSumsFit,
  SideAdded,
  SideSumsAre,
  PairSumsAre,
  PairPart,
  three_added,
};

use crate::equality_sums::equality_sums;
use crate::plane_sums::planes_part;
use crate::sums::{PairSums, SideSums, Sums};
use crate::weighted_rows::WeightedRows;
use criterion::pair_planes::pair_kind;
use criterion::steps::Step;
use criterion::strength_numbers::SoilNumbers;
use criterion::strength_rows::soil_numbers;
use equality::row::add_at;
use mesh::entries::SoilKind;

// Adds a side, times its multiplier w.
fn add_side(sums: SideSums, side: &Step, w: i64) -> SideSums
    requires weighted { SideWeighted side.now w }
    requires sums_fit { SideSumsFit sums }
    ensures { SideAdded side.now w sums result }
{
    if w == 0 {
        return sums;
    }
    SideSums {
        run: sums.run + w * side.run(),
        rise: sums.rise + w * side.rise(),
        cross: sums.cross + w * side.cross(),
    }
}

// All sides of a pair, each times its multiplier in y. For speed they are summed first, and multiplied by r·h and p
// once.
fn side_sums(sides: &[Step], y: &[i64]) -> SideSums
    requires as_many { length sides.now ≡ length y.now }
    requires few { length y.now ≤ most_sides }
    requires multipliers { SideMultipliers sides.now y.now }
    ensures { SideSumsAre result sides.now y.now (length y.now) }
{
    let mut sums = SideSums::default();
    for (side, w) in sides.iter().zip(y) {
        sums = add_side(sums, side, *w);
    }
    sums
}

// What a pair's strength rows add up to, from the sums over the sides and the numbers of the soil.
fn pair_sums(sums: SideSums, soil: SoilNumbers) -> PairSums
    requires { SideSumsFit sums }
    ensures { PairSumsAre result sums soil }
{
    let rise = soil.lever * sums.rise;
    let push = soil.friction * sums.cross;
    PairSums {
        sx: push + rise,
        sy: push - rise,
        t: -(2 * soil.lever * sums.run),
        right: soil.right * sums.cross,
    }
}

// What the strength rows of pair a add up to, by the kind of its soil.
fn pair_part(rows: &WeightedRows, a: usize) -> PairSums
    requires { a < pair_count rows.now.mesh.mesh.numbers.now }
    ensures { PairPart result rows.now.mesh.mesh.numbers.now rows.now.multipliers.now a }
{
    match pair_kind(&rows.mesh, a) {
        SoilKind::AsBefore => sides_part(rows, a),
        SoilKind::ByDirection => planes_part(rows, a),
    }
}

// The same, where its rows go side by side.
fn sides_part(rows: &WeightedRows, a: usize) -> PairSums
    requires there { a < pair_count rows.now.mesh.mesh.numbers.now }
    requires by_sides { by_direction rows.now.mesh.mesh.numbers.now
        (pair_at rows.now.mesh.mesh.numbers.now a).soil ≡ false }
    ensures { PairPart result rows.now.mesh.mesh.numbers.now rows.now.multipliers.now a }
{
    let over_sides = side_sums(rows.polygon.sides(), rows.of_pair(a));
    let soil = usize::from(rows.mesh.pairs[a].soil);
    let numbers = soil_numbers(&rows.mesh.mesh, soil, rows.polygon.radius);
    pair_sums(over_sides, numbers)
}

// Adds a pair's sums to the three columns of its node, from `column` on.
fn add_columns(columns: &mut [i64], column: usize, part: PairSums)
    requires there { column + 2 < length columns.old }
    requires columns_fit { AllWithin most_column columns.old }
    ensures { SumsAre (most_column + 3 * pair_column) columns.new
        (three_added columns.old column part) }
{
    add_at(columns, column, part.sx);
    add_at(columns, column + 1, part.sy);
    add_at(columns, column + 2, part.t);
}

// Adds the strength rows of pair a, each times its multiplier.
fn add_pair(rows: &WeightedRows, a: usize, columns: &mut [i64], sums: Sums) -> Sums
    requires there { a < pair_count rows.now.mesh.mesh.numbers.now }
    requires before { PairsSummed rows.now.mesh.mesh.numbers.now rows.now.multipliers.now a
        columns.old sums }
    ensures { PairsSummed rows.now.mesh.mesh.numbers.now rows.now.multipliers.now (a + 1)
        columns.new result }
{
    let part = pair_part(rows, a);
    let v = usize::from(rows.mesh.pairs[a].node);
    add_columns(columns, 3 * v, part);
    Sums {
        w: sums.w + part.right,
        ..sums
    }
}

// All strength rows, each times its multiplier: to the sums over the equality rows.
fn strength_sums(rows: &WeightedRows, columns: &mut [i64], equalities: Sums) -> Sums
    requires { Summed rows.now.mesh.mesh.numbers.now rows.now.multipliers.now
        (equality_count rows.now.mesh.mesh.numbers.now) columns.old equalities }
    ensures { PairsSummed rows.now.mesh.mesh.numbers.now rows.now.multipliers.now
        (pair_count rows.now.mesh.mesh.numbers.now) columns.new result }
{
    let mut sums = equalities;
    for a in 0..rows.mesh.pairs.len() {
        sums = add_pair(rows, a, columns, sums);
    }
    sums
}

// All rows, each times its multiplier: to column sums that are 0 yet.
pub fn row_sums(rows: &WeightedRows, columns: &mut [i64]) -> Sums
    requires { NoSums columns.old }
    ensures { PairsSummed rows.now.mesh.mesh.numbers.now rows.now.multipliers.now
        (pair_count rows.now.mesh.mesh.numbers.now) columns.new result }
{
    let equalities = equality_sums(rows, columns);
    strength_sums(rows, columns, equalities)
}
