// What C calls (`include/pechuvo.h`): each call of `pechuvo` under its own name, with the same promise.

#![tactic(auto)]

ghost use Rattle.std.specs.Prelude.{◌≡◌};
ghost use Rattle.scope.specs.Columns.{has_field};
ghost use Rattle.scope.specs.TableVerdict.{tabled_verdict};
ghost use Rattle.numbers.specs.NumbersAnswer.{answer_of};
ghost use Rattle.pechuvo.specs.Answers.{Answers};
ghost use Rattle.pechuvo.specs.NextStrength.{NextAnswers};
ghost use Rattle.pechuvo.specs.Promises.{RunAsked, SizesAsked};
ghost use Rattle.pechuvo.specs.BookPromises.{AskAnswers, CommitAnswers};

use judge::room::MeshSizes;
use numbers::numbers_answer::NumbersAnswer;
use pechuvo::Answer;
use pechuvo::books::{BookAnswer, BookForC};
use run::RunAnswer;
use strength::NextAnswer;

// The report of a mesh file, a table file and a claim file, with so many decimals, at the front of the buffer that is
// lent.
#[unsafe(no_mangle)]
pub extern "C" fn pechuvo_check(
    mesh: &[u8],
    table: &[u8],
    claim: &[u8],
    decimals: i64,
    report: &mut [u8],
) -> Answer
    ensures { Answers mesh.now table.now claim.now decimals
        report.old result.number result.place report.new }
{
    pechuvo::pechuvo_check(mesh, table, claim, decimals, report)
}

// The reports of claims for one mesh, written one after another, in turn at the front of the buffer that is lent.
#[unsafe(no_mangle)]
pub extern "C" fn pechuvo_check_run(
    mesh: &[u8],
    table: &[u8],
    claims: &[u8],
    reports: &mut [u8],
) -> RunAnswer
    ensures { RunAsked mesh.now table.now claims.now reports.old result
        reports.new }
{
    pechuvo::pechuvo_check_run(mesh, table, claims, reports)
}

// The same check of the numbers of a mesh, of a table and of a claim, for a solver that writes no files.
#[unsafe(no_mangle)]
pub extern "C" fn pechuvo_check_numbers(m: &[i64], t: &[i64], c: &[i64]) -> NumbersAnswer
    ensures { result ≡ answer_of (has_field c.now) (tabled_verdict t.now m.now c.now) }
{
    pechuvo::pechuvo_check_numbers(m, t, c)
}

// The rows of each kind, the columns and the bytes of a claim, from the mesh and its table, for a caller who lends the
// buffers.
#[unsafe(no_mangle)]
pub extern "C" fn pechuvo_mesh_sizes(mesh: &[u8], table: &[u8]) -> MeshSizes
    ensures { SizesAsked mesh.now table.now result }
{
    pechuvo::pechuvo_mesh_sizes(mesh, table)
}

// The book that would follow a commit of a claim, from a mesh file, a table file and a claim file: nothing is changed.
#[unsafe(no_mangle)]
pub extern "C" fn pechuvo_book_ask(
    book: BookForC,
    mesh: &[u8],
    table: &[u8],
    claim: &[u8],
) -> BookAnswer
    ensures { AskAnswers book mesh.now table.now claim.now result }
{
    pechuvo::pechuvo_book_ask(book, mesh, table, claim)
}

// The book that follows a commit of a claim, which names the count of the book.
#[unsafe(no_mangle)]
pub extern "C" fn pechuvo_book_commit(
    book: BookForC,
    count: u64,
    mesh: &[u8],
    table: &[u8],
    claim: &[u8],
) -> BookAnswer
    ensures { CommitAnswers book count mesh.now table.now claim.now result }
{
    pechuvo::pechuvo_book_commit(book, count, mesh, table, claim)
}

// The next strength to try (document 02, N13), after the trials K1 with L1 and K2 with L2.
#[unsafe(no_mangle)]
pub extern "C" fn pechuvo_next_strength(k1: f64, l1: f64, k2: f64, l2: f64) -> NextAnswer
    ensures { NextAnswers k1 l1 k2 l2 result }
{
    pechuvo::pechuvo_next_strength(k1, l1, k2, l2)
}
