// One line at a time: the limits of its columns, and the lines of a mesh that have rules of their own.
ghost use Rattle.std.specs.Prelude.{◌≡◌, ◌<◌, ◌^◌, true, length, ◌+ℤ◌, ◌*ℤ◌};
ghost use Rattle.integer.specs.Bounds.{Within};
ghost use Rattle.integer.specs.Tests.{eq_z};
ghost use Rattle.scope.specs.Answer.{outcome_of};
ghost use Rattle.scope.specs.Cases.Outcome.{Refused};
ghost use Rattle.scope.specs.Columns.{between, within, all_within};
ghost use Rattle.scope.specs.Layout.{width};
ghost use Rattle.scope.specs.Verdict.{line_check, rules_hold};
ghost use Rattle.lines.specs.Table.{ruled_lines, rule_width};
ghost use Rattle.lines.specs.LineContracts.{ranges, AsMany, file_numbers, line_step, FewColumns};

use crate::layout::{
    EDGE_ENDS, EDGE_LEAST, EDGE_MOST, FileNumbers, LAYER_LEAST, LAYER_LIMITS, LAYER_MOST, Rule,
    SOIL_LEAST, soil_most,
};
use mesh::sizes::Sizes;
use scope::{Outcome, Place, Reason, Refusal, demand};

// z is from lo to hi.
pub fn is_within(z: i64, lo: i64, hi: i64) -> bool
    ensures { result ≡ within (between lo hi) z }
{
    (lo..=hi).contains(&z)
}

// Number k of a list is from number k of lo to number k of hi, for each k.
pub fn limits_hold(s: &[i64], lo: &[i64], hi: &[i64]) -> bool
    requires { AsMany lo.now hi.now s.now }
    ensures { result ≡ all_within (ranges lo.now hi.now) s.now }
{
    s.iter()
        .zip(lo)
        .zip(hi)
        .all(|((z, lo), hi)| is_within(*z, *lo, *hi))
}

// A refusal at a line, with this number.
pub fn refused(number: u32, line: usize) -> Outcome
    requires small_line { line < 2 ^ 32 }
    ensures { outcome_of result ≡ Refused number (Place.Line line) }
{
    Err(Refusal {
        number,
        place: Place::Line(line as u32),
    })
}

// p² + q² is h².
fn right_angle(p: i64, q: i64, h: i64) -> bool
    requires small_p { Within 1000 p }
    requires small_q { Within 1000 q }
    requires small_h { Within 1000 h }
    ensures { result ≡ eq_z (p *ℤ p +ℤ q *ℤ q) (h *ℤ h) }
{
    p * p + q * q == h * h
}

// The numbers of a line with a rule of its own, none of which is missing.
#[derive(Clone, Copy)]
struct RuledLine<'a> {
    rule: Rule,
    numbers: &'a [i64],
    ghost whole: { length numbers.now ≡ rule_width rule },
}

impl RuledLine<'_> {
    // They are within the limits of their columns: the names of nodes and of soils have none.
    fn within_limits(&self, sizes: Sizes) -> bool
        ensures { result ≡ all_within (ruled_lines self.now.rule sizes 0).limits self.now.numbers.now }
    {
        let s = self.numbers;
        match self.rule {
            Rule::Soil => limits_hold(s, &SOIL_LEAST, &soil_most(sizes.sides)),
            Rule::Edge => limits_hold(&s[EDGE_ENDS..], &EDGE_LEAST, &EDGE_MOST),
            Rule::Layer => limits_hold(&s[..LAYER_LIMITS], &LAYER_LEAST, &LAYER_MOST),
            Rule::Element | Rule::Tabled | Rule::Jump => true,
        }
    }

    // The rule of a line that is within its limits: a soil's right angle, or that what the line names is there.
    fn rule_check(&self, sizes: Sizes, place: Place) -> Outcome
        requires in_limits { all_within (ruled_lines self.now.rule sizes 0).limits self.now.numbers.now ≡ true }
        ensures { outcome_of result ≡ rules_hold (ruled_lines self.now.rule sizes 0).rules self.now.numbers.now place }
    {
        let s = self.numbers;
        let n = sizes.nodes as i64;
        let soils = sizes.soils as i64;
        let named = match self.rule {
            Rule::Soil => {
                let right = right_angle(s[0], s[1], s[2]);
                return demand(right, Reason::RightAngle.at(place));
            }
            Rule::Element => limits_hold(s, &[1, 1, 1, 1, 1], &[n, n, n, n, soils]),
            Rule::Tabled => limits_hold(s, &[1, 1, 1, 1, 0], &[n, n, n, n, soils]),
            Rule::Edge => limits_hold(&s[..EDGE_ENDS], &[1, 1], &[n, n]),
            Rule::Jump => limits_hold(s, &[1, 1, 1, 1], &[n, n, n, n]),
            Rule::Layer => limits_hold(&s[LAYER_LIMITS..], &[1], &[soils]),
        };
        demand(named, Reason::Name.at(place))
    }

    // The limits, and then the rule.
    fn check(&self, sizes: Sizes, file: FileNumbers, place: Place) -> Outcome
        ensures { outcome_of result
            ≡ line_check (file_numbers file) (ruled_lines self.now.rule sizes 0) self.now.numbers.now place }
    {
        let number = file.limit;
        demand(self.within_limits(sizes), Refusal { number, place })?;
        self.rule_check(sizes, place)
    }
}

// Line k of some lines of one kind at the front of a list, the first of them in line `line` of the file.
pub fn line_at(
    rule: Rule,
    s: &[i64],
    columns: usize,
    sizes: Sizes,
    file: FileNumbers,
    line: usize,
    k: usize,
) -> Outcome
    requires few { FewColumns k columns line }
    requires wide { columns ≡ width (ruled_lines rule sizes 0) }
    ensures { outcome_of result ≡ line_step (file_numbers file) (ruled_lines rule sizes 0) s.now line k }
{
    let place = Place::Line((line + k) as u32);
    let from = k * columns;
    let end = from + columns;
    let number = file.form;
    demand(end <= s.len(), Refusal { number, place })?;
    let numbers = &s[from..end];
    RuledLine { rule, numbers }.check(sizes, file, place)
}
