// A book of the best bracket (document 02, N12): the highest carried load, the lowest limit and a count of commits,
// gathered from the claims for one mesh. A book goes in by value and comes back; nothing is kept between calls.

#![tactic(auto)]

mod bounds;

ghost use Rattle.std.specs.Prelude.{◌≡◌, true, not, eqb};
ghost use Rattle.scope.specs.Answer.{verdict_of};
ghost use Rattle.reader.specs.File.{file_width};
ghost use Rattle.judge.specs.Judge.{files_verdict};
ghost use Rattle.book.specs.Book.{empty_book, takes_ask, followed, unjudged, judged, asked, committed};
ghost use Rattle.book.specs.Answer.{kept_of, told_of, error_number};

use bounds::{Bound, is_proper};
use judge::judge_files;
use scope::{Load, Verdict};

// What is kept: the highest carried load and the lowest limit, each where there is one, and how many claims were
// committed.
#[derive(Clone, Copy)]
pub struct Book {
    pub lower: Option<Load>,
    pub upper: Option<Load>,
    pub count: u64,
}

// Why a claim is left unjudged, by the number that is returned for it: the book takes no more, a bound of it is no
// fraction, or a commit names another count.
#[derive(Clone, Copy)]
pub enum BookError {
    NotTaken = 48,
}

impl BookError {
    // The number that is returned for it, with place 0.
    pub fn number(self) -> u32
        ensures { result ≡ error_number self }
    {
        self as u32
    }
}

// What an ask or a commit answers: what is said of the claim, and the book that would follow the ask, or that follows
// the commit.
#[derive(Clone, Copy)]
pub struct Reply {
    pub said: Result<Verdict, BookError>,
    pub book: Book,
}

// Commits end at this count.
const MOST_COMMITS: u64 = 1_000_000;

impl Book {
    // "A book begins empty"
    pub fn new() -> Book
        ensures { kept_of result ≡ empty_book }
    {
        Book {
            lower: None,
            upper: None,
            count: 0,
        }
    }

    // Whether the book takes an ask.
    #[tactic(auto, unfolding(crate::specs::Book::takes_ask))]
    fn takes_ask(self) -> bool
        ensures { result ≡ takes_ask (kept_of self) }
    {
        self.count < MOST_COMMITS && is_proper(self.lower) && is_proper(self.upper)
    }

    // Whether a commit names another count than the book's.
    fn is_stale(self, count: u64) -> bool
        ensures { result ≡ not (eqb count self.count) }
    {
        count != self.count
    }

    // The book that follows a verdict.
    #[tactic(auto, using(crate::proofs::BookLaws::takes_room), unfolding(crate::specs::Book::followed))]
    fn following(self, verdict: Verdict) -> Book
        requires { takes_ask (kept_of self) ≡ true }
        ensures { kept_of result ≡ followed (kept_of self) (verdict_of verdict) }
    {
        match verdict {
            Ok(accepted) => Book {
                lower: Bound::Lower.moved(self.lower, accepted.lower),
                upper: Bound::Upper.moved(self.upper, accepted.upper),
                count: self.count + 1,
            },
            Err(_) => self,
        }
    }

    // The answer where the claim is not judged.
    #[tactic(auto, unfolding(crate::specs::Book::unjudged))]
    fn unjudged(self) -> Reply
        ensures { told_of result ≡ unjudged (kept_of self) }
    {
        Reply {
            said: Err(BookError::NotTaken),
            book: self,
        }
    }

    // The answer where it is, files and numbers alike.
    #[tactic(auto, unfolding(crate::specs::Book::judged))]
    fn judged(self, verdict: Verdict) -> Reply
        requires { takes_ask (kept_of self) ≡ true }
        ensures { told_of result ≡ judged (kept_of self) (verdict_of verdict) }
    {
        Reply {
            said: Ok(verdict),
            book: self.following(verdict),
        }
    }

    // An ask, of a mesh file, a table file and a claim file.
    #[tactic(auto, unfolding(crate::specs::Book::asked))]
    pub fn ask(self, mesh: &[u8], table: &[u8], claim: &[u8]) -> Reply
        ensures { told_of result
            ≡ asked (kept_of self) (files_verdict file_width mesh.now table.now claim.now) }
    {
        if self.takes_ask() {
            self.judged(judge_files(mesh, table, claim))
        } else {
            self.unjudged()
        }
    }

    // A commit, of a mesh file, a table file and a claim file.
    #[tactic(auto, unfolding(crate::specs::Book::asked, crate::specs::Book::committed, crate::specs::Book::takes_commit))]
    pub fn commit(mut self, count: u64, mesh: &[u8], table: &[u8], claim: &[u8]) -> Reply
        ensures { told_of result
            ≡ committed (kept_of self) count (files_verdict file_width mesh.now table.now claim.now) }
    {
        if self.is_stale(count) {
            return self.unjudged();
        }
        let Reply { said, book } = self.ask(mesh, table, claim);
        self = book;
        Reply { said, book: self }
    }
}
