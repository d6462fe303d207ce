// The checks of the lines of a mesh, of a table and of a claim: refusals 1 to 4, and 11 to 13. They take any numbers,
// and any count of them.
ghost use Rattle.std.specs.Prelude.{◌≡◌, true, cond, ◌&&◌, List, [], ◌∷◌, map, min, ◌+◌, ◌/◌, ◌<◌, ◌≤◌, length, take, ℤ, pos};
ghost use Rattle.std.specs.Prelude.{IfSome, IfNone};
ghost use Rattle.std.specs.Int.Signed.{le_z};
ghost use Rattle.integer.specs.Tests.{eq_z};
ghost use Rattle.scope.specs.Answer.{outcome_of};
ghost use Rattle.scope.specs.Checks.{all_below};
ghost use Rattle.scope.specs.Columns.{at, between, within, is_one_of, all_within, parts, rule_test};
ghost use Rattle.scope.specs.Layout.{width};
ghost use Rattle.scope.specs.Verdict.{line_check, line_at, lines_check};
ghost use Rattle.scope.specs.Mesh.{most_sides, listed_sides, nodes_for_108, most_jumps};
ghost use Rattle.scope.specs.Mesh.{mesh_header_columns, mesh_header, mesh_layout, layout_with, soils};
ghost use Rattle.scope.specs.Layers.{most_layers, layer_columns};
ghost use Rattle.scope.specs.Phases.{check_phases};
ghost use Rattle.scope.specs.Table.{table_line_phases};
ghost use Rattle.scope.specs.Claim.{claim_header_columns, claim_header, claim_layout};
ghost use Rattle.mesh.specs.ClaimContracts.{Counted};
ghost use Rattle.lines.specs.Table.{even_lines, ruled_lines, meant, Good, Table};
ghost use Rattle.lines.specs.SearchContracts.{first_failing};
ghost use Rattle.lines.specs.LineContracts.{
  group_check,
  groups_check,
  file_numbers,
  most_line,
  FewColumns,
};

use crate::layout::{
    CLAIM_FILE, CLAIM_HEADER, CLAIM_LEAST, CLAIM_MOST, COUNTS, FIRST_LAYER, FileNumbers, Group,
    Groups, JUMPS_AT, JUMPS_MOST, Kind, MESH_FILE, MESH_LEAST, MESH_MOST, NODES_MOST, Rule,
    SIDES_MOST, claim_groups, has_part, mesh_groups,
};
use crate::line_tests::{is_within, limits_hold, line_at, refused};
use mesh::limits::{LAYER_COLUMNS, MESH_HEADER, MOST_LAYERS};
use mesh::pairs::ClaimSizes;
use mesh::sizes::Sizes;
use scope::{Outcome, Place, Reason, demand};

// A file's first line is its header.
const HEADER_LINE: Place = Place::Line(1);

// Each number of a list is from lo to hi.
fn all_within(s: &[i64], lo: i64, hi: i64) -> bool
    ensures { result ≡ all_below (λ k. within (between lo hi) (at s.now k)) (length s.now) }
{
    s.iter().all(|z| is_within(*z, lo, hi))
}

// The first of so many numbers of a list that is not from lo to hi, if one is not.
// For speed a loop with nothing else in it asks whether one is outside, and the search only which.
pub fn first_outside(s: &[i64], lo: i64, hi: i64, count: usize) -> Option<usize>
    requires { count ≤ length s.now }
    ensures found { IfSome result (λ k. k ≡ first_failing (λ i. within (between lo hi) (at s.now i)) count) }
    ensures in_count { IfSome result (λ k. k < count) }
    ensures none { IfNone result (first_failing (λ i. within (between lo hi) (at s.now i)) count ≡ count) }
{
    let s = &s[..count];
    if all_within(s, lo, hi) {
        return None;
    }
    s.iter().position(|z| !is_within(*z, lo, hi))
}

// The lines that stand at the front of a list, where every column has the limits lo and hi: the numbers of the whole
// lines are looked at in one go.
fn even_check(
    s: &[i64],
    count: usize,
    columns: usize,
    lo: i64,
    hi: i64,
    file: FileNumbers,
    line: usize,
) -> Outcome
    requires few { FewColumns count columns line }
    ensures { outcome_of result
        ≡ group_check (file_numbers file) (even_lines count columns (between lo hi)) s.now line }
{
    let whole = (s.len() / columns).min(count);
    let end = whole * columns;
    if let Some(k) = first_outside(s, lo, hi, end) {
        return refused(file.limit, line + k / columns);
    }
    if whole < count {
        return refused(file.form, line + whole);
    }
    Ok(())
}

// The lines of a group with rules of their own, at the front of a list.
fn ruled_check(
    rule: Rule,
    s: &[i64],
    count: usize,
    columns: usize,
    sizes: Sizes,
    file: FileNumbers,
    line: usize,
) -> Outcome
    requires few { FewColumns count columns line }
    requires wide { columns ≡ width (ruled_lines rule sizes 0) }
    ensures { outcome_of result ≡ group_check (file_numbers file) (ruled_lines rule sizes count) s.now line }
{
    for k in 0..count {
        line_at(rule, s, columns, sizes, file, line, k)?;
    }
    Ok(())
}

// The number of sides is one of those that a polygon has.
fn is_sides(z: i64) -> bool
    ensures { result ≡ is_one_of listed_sides z }
{
    [12, 20, 36, SIDES_MOST].contains(&z)
}

// What stands after the counts in the header of a mesh: the number of sides, and then the number of jumps.
fn sides_and_jumps(sides: i64, jumps: i64) -> bool
    ensures { result ≡ is_one_of listed_sides sides && within (between (pos 0) (pos most_jumps)) jumps }
{
    is_sides(sides) && is_within(jumps, 0, JUMPS_MOST)
}

// With the most sides the nodes are few (document 02, N9).
fn nodes_fit(nodes: i64, sides: i64) -> bool
    ensures { result ≡ cond (eq_z sides (pos most_sides)) (le_z nodes (pos nodes_for_108)) true }
{
    sides != SIDES_MOST || nodes <= NODES_MOST
}

// Each number of a mesh's header is within its own limits.
fn header_within(m: &[i64]) -> bool
    requires { mesh_header_columns ≤ length m.now }
    ensures { result ≡ all_within mesh_header.limits (take mesh_header_columns m.now) }
{
    limits_hold(&m[..COUNTS], &MESH_LEAST, &MESH_MOST) && sides_and_jumps(m[COUNTS], m[JUMPS_AT])
}

// The header of a mesh: a limit that looks at another number, that of the nodes, is asked after those that don't.
pub fn mesh_header(m: &[i64]) -> Outcome
    ensures { outcome_of result ≡ line_at mesh_layout m.now 0 }
{
    demand(MESH_HEADER <= m.len(), Reason::MeshForm.at(HEADER_LINE))?;
    demand(header_within(m), Reason::MeshLimit.at(HEADER_LINE))?;
    demand(
        nodes_fit(m[0], m[COUNTS]),
        Reason::MeshLimit.at(HEADER_LINE),
    )
}

// A claim has a part; with a field n is not 0, and without one n and l are 0.
fn parts_fit(field: i64, multipliers: i64, n: i64, l: i64) -> bool
    ensures { result ≡ rule_test parts (field ∷ multipliers ∷ n ∷ l ∷ []) }
{
    if field == 1 {
        n != 0
    } else {
        multipliers == 1 && n == 0 && l == 0
    }
}

// The header of a claim.
pub fn claim_header(c: &[i64]) -> Outcome
    ensures { outcome_of result
        ≡ line_check (claim_layout []) claim_header (take claim_header_columns c.now) (Place.Line 1) }
{
    demand(CLAIM_HEADER <= c.len(), Reason::ClaimForm.at(HEADER_LINE))?;
    let header = &c[..CLAIM_HEADER];
    let in_limits = limits_hold(header, &CLAIM_LEAST, &CLAIM_MOST);
    demand(in_limits, Reason::ClaimLimit.at(HEADER_LINE))?;
    let fit = parts_fit(header[0], header[1], header[2], header[3]);
    demand(fit, Reason::Parts.at(HEADER_LINE))
}

// The lines of a group at the front of a list, the first of them in line `line` of the file.
fn group_check(s: &[i64], g: Group, sizes: Sizes, file: FileNumbers, line: usize) -> Outcome
    requires good { Good sizes g }
    requires small_line { line ≤ most_line }
    ensures { outcome_of result ≡ group_check (file_numbers file) (meant sizes g) s.now line }
{
    match g.kind {
        Kind::Ruled(rule) => ruled_check(rule, s, g.lines, g.columns, sizes, file, line),
        Kind::Even { lo, hi } => even_check(s, g.lines, g.columns, lo, hi, file, line),
    }
}

// The lines of a file after its header, which are refused as the file's are: all groups of the table,
// one after another, and no number left over.
fn groups_check(s: &[i64], groups: Groups, sizes: Sizes, file: FileNumbers) -> Outcome
    requires table { Table sizes groups.of }
    ensures { outcome_of result ≡ groups_check (file_numbers file) (map (meant sizes) groups.of) s.now 2 }
{
    let mut rest = s;
    let mut line = 2;
    for g in groups.of {
        group_check(rest, g, sizes, file, line)?;
        rest = &rest[g.lines * g.columns..];
        line += g.lines;
    }
    if !rest.is_empty() {
        return refused(file.form, line);
    }
    Ok(())
}

// The lines of a mesh that has a table or has none: refusals 1 to 4.
pub fn mesh_lines(m: &[i64], tabled: bool) -> Outcome
    ensures { outcome_of result ≡ lines_check (layout_with tabled) m.now }
{
    mesh_header(m)?;
    let s = Sizes::of_header(m);
    groups_check(&m[MESH_HEADER..], mesh_groups(s, tabled), s, MESH_FILE)
}

// "1 to 32 lines": how many lines of a table so many numbers begin, and no more than 32.
pub fn table_count(numbers: usize) -> usize
    ensures { result ≡ min ((numbers + 2) / layer_columns) most_layers }
{
    numbers.div_ceil(LAYER_COLUMNS).min(MOST_LAYERS)
}

// The lines of a table for a mesh with these sizes: refusals 1, 2 and 4.
pub fn table_lines(t: &[i64], s: Sizes) -> Outcome
    ensures { (m : List ℤ) → soils m ≡ s.soils → outcome_of result ≡ check_phases (table_line_phases t.now m) }
{
    let count = table_count(t.len());
    ruled_check(
        Rule::Layer,
        t,
        count,
        LAYER_COLUMNS,
        s,
        MESH_FILE,
        FIRST_LAYER,
    )?;
    if count * LAYER_COLUMNS < t.len() {
        return refused(MESH_FILE.form, FIRST_LAYER + count);
    }
    Ok(())
}

// The lines of a claim on a mesh with these sizes and so many pairs: refusals 11 to 13.
pub fn claim_lines(c: &[i64], s: ClaimSizes) -> Outcome
    ensures { (m : List ℤ) → Counted m s → outcome_of result ≡ lines_check (claim_layout m) c.now }
{
    claim_header(c)?;
    let groups = claim_groups(s, has_part(c, 0), has_part(c, 1));
    groups_check(&c[CLAIM_HEADER..], groups, s.sizes, CLAIM_FILE)
}
