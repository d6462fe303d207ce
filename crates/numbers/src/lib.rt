// The check of numbers handed over (document 01, 'What the product does': "The row arithmetic serves the solver as
// well, without the file reader"): a mesh's, a table's and a claim's numbers into the verdict as C reads it.

#![tactic(auto)]

pub mod numbers_answer;

ghost use Rattle.std.specs.Prelude.{◌≡◌};
ghost use Rattle.scope.specs.Columns.{has_field};
ghost use Rattle.scope.specs.TableVerdict.{tabled_verdict};
ghost use Rattle.numbers.specs.NumbersAnswer.{answer_of};

use crate::numbers_answer::{NumbersAnswer, answer_of};
use lines::layout::has_part;
use verdict::check_numbers;

// The answer to the numbers of a mesh, of a table, where an empty list is none, and of a claim.
pub fn check(m: &[i64], t: &[i64], c: &[i64]) -> NumbersAnswer
    ensures { result ≡ answer_of (has_field c.now) (tabled_verdict t.now m.now c.now) }
{
    answer_of(has_part(c, 0), check_numbers(m, t, c))
}
