// Every call: the check of a mesh file, a table file and a claim file, three byte strings into a report line and the
// verdict's numbers; the check of claims for one mesh, one after another; the check of the numbers themselves; the
// room that a mesh asks for; a book of the best bracket; and the next strength to try, which reads no mesh. An empty
// table is none. `pechuvo_c` hands each to C.

#![tactic(auto)]

pub mod books;

ghost use Rattle.std.specs.Prelude.{◌≡◌};
ghost use Rattle.scope.specs.Answer.{number_of, place_number, place_of, verdict_of};
ghost use Rattle.scope.specs.Columns.{has_field};
ghost use Rattle.scope.specs.TableVerdict.{tabled_verdict};
ghost use Rattle.numbers.specs.NumbersAnswer.{answer_of};
ghost use Rattle.report.specs.Buffer.{reported_number, reported_place};
ghost use Rattle.pechuvo.specs.Answers.{Answers};
ghost use Rattle.pechuvo.specs.NextStrength.{NextAnswers};
ghost use Rattle.pechuvo.specs.Promises.{RunAsked, SizesAsked};
ghost use Rattle.pechuvo.specs.BookPromises.{AskAnswers, CommitAnswers};

use book::Book;
use books::{BookAnswer, BookForC, book_answer};
use judge::judge_files;
use judge::room::{MeshSizes, mesh_sizes};
use numbers::numbers_answer::NumbersAnswer;
use report::{ReportError, write_report};
use run::{RunAnswer, check_run};
use scope::{Refusal, Verdict};
use strength::{NextAnswer, Trial, next_strength};

// What is returned: 0 and 0 for an accepted claim, else a refusal's number and its place.
#[repr(C)]
#[derive(Clone, Copy)]
pub struct Answer {
    pub number: u32,
    pub place: u32,
}

impl From<Refusal> for Answer {
    ghost from_gives = { λ e r. r ≡ record { number = e.number; place = place_number e.place } };

    // The refusal's number and place.
    fn from(refusal: Refusal) -> Answer {
        Answer {
            number: refusal.number,
            place: refusal.place.number(),
        }
    }
}

impl From<Verdict> for Answer {
    ghost from_gives = { λ v r. r
        ≡ record { number = number_of (verdict_of v); place = place_of (verdict_of v) } };

    // 0 and 0, or the refusal's number and place.
    fn from(v: Verdict) -> Answer {
        match v {
            Ok(_) => Answer {
                number: 0,
                place: 0,
            },
            Err(refusal) => Answer::from(refusal),
        }
    }
}

// "43, place 0" for another number of decimals; "41, place 0: buffer under 113 bytes"; else the verdict's number and
// place.
fn answer_of(v: Verdict, reported: Result<(), ReportError>) -> Answer
    ensures number { result.number ≡ reported_number (verdict_of v) reported }
    ensures place { result.place ≡ reported_place (verdict_of v) reported }
{
    match reported {
        Ok(()) => Answer::from(v),
        Err(error) => Answer {
            number: error.number(),
            place: 0,
        },
    }
}

// The report of a mesh file, a table file and a claim file, with so many decimals, at the front of the buffer that is
// lent.
pub fn pechuvo_check(
    mesh: &[u8],
    table: &[u8],
    claim: &[u8],
    decimals: i64,
    report: &mut [u8],
) -> Answer
    ensures { Answers mesh.now table.now claim.now decimals
        report.old result.number result.place report.new }
{
    let v = judge_files(mesh, table, claim);
    let reported = write_report(v, report, decimals);
    answer_of(v, reported)
}

// The reports of claims for one mesh, written one after another, in turn at the front of the buffer that is lent.
pub fn pechuvo_check_run(mesh: &[u8], table: &[u8], claims: &[u8], reports: &mut [u8]) -> RunAnswer
    ensures { RunAsked mesh.now table.now claims.now reports.old result
        reports.new }
{
    check_run(mesh, table, claims, reports)
}

// The same check of the numbers of a mesh, of a table and of a claim, for a solver that writes no files.
pub fn pechuvo_check_numbers(m: &[i64], t: &[i64], c: &[i64]) -> NumbersAnswer
    ensures { result ≡ answer_of (has_field c.now) (tabled_verdict t.now m.now c.now) }
{
    numbers::check(m, t, c)
}

// The rows of each kind, the columns and the bytes of a claim, from the mesh and its table, for a caller who lends the
// buffers.
pub fn pechuvo_mesh_sizes(mesh: &[u8], table: &[u8]) -> MeshSizes
    ensures { SizesAsked mesh.now table.now result }
{
    mesh_sizes(mesh, table)
}

// The book that would follow a commit of a claim, from a mesh file, a table file and a claim file: nothing is changed.
pub fn pechuvo_book_ask(book: BookForC, mesh: &[u8], table: &[u8], claim: &[u8]) -> BookAnswer
    ensures { AskAnswers book mesh.now table.now claim.now result }
{
    book_answer(book, Book::from(book).ask(mesh, table, claim))
}

// The book that follows a commit of a claim, which names the count of the book.
pub fn pechuvo_book_commit(
    book: BookForC,
    count: u64,
    mesh: &[u8],
    table: &[u8],
    claim: &[u8],
) -> BookAnswer
    ensures { CommitAnswers book count mesh.now table.now claim.now result }
{
    book_answer(book, Book::from(book).commit(count, mesh, table, claim))
}

// The next strength to try (document 02, N13), after the trials K1 with L1 and K2 with L2.
pub fn pechuvo_next_strength(k1: f64, l1: f64, k2: f64, l2: f64) -> NextAnswer
    ensures { NextAnswers k1 l1 k2 l2 result }
{
    let first = Trial { k: k1, l: l1 };
    let second = Trial { k: k2, l: l2 };
    NextAnswer::from(next_strength(first, second))
}
