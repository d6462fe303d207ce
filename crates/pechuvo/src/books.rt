// A book as C has it (document 02, N12), and what an ask and a commit answer there.
ghost use Rattle.std.specs.Prelude.{◌≡◌};
ghost use Rattle.scope.specs.Answer.{load_of};
ghost use Rattle.book.specs.Answer.{kept_of, told_of};
ghost use Rattle.pechuvo.specs.BookInC.{bound_of, book_of, for_c, book_answer};

use book::{Book, Reply};
use scope::Load;

// A bound is there where its first number is not 0. A book that follows an accepted claim has 1 for a bound that is
// there, and 0 in each place of one that is not.
#[repr(C)]
#[derive(Clone, Copy)]
pub struct BookForC {
    pub lower_there: u32,
    pub upper_there: u32,
    pub lower_numerator: i64,
    pub lower_denominator: i64,
    pub upper_numerator: i64,
    pub upper_denominator: i64,
    pub count: u64,
}

// "48, place 0", or the number and the place of the claim's verdict; and the book that is told.
#[repr(C)]
#[derive(Clone, Copy)]
pub struct BookAnswer {
    pub number: u32,
    pub place: u32,
    pub book: BookForC,
}

#[tactic(auto, unfolding(crate::specs::BookInC::bound_of))]
fn bound_of(there: u32, num: i64, den: i64) -> Option<Load>
    ensures { load_of result ≡ bound_of there num den }
{
    if there == 0 {
        None
    } else {
        Some(Load { num, den })
    }
}

impl From<BookForC> for Book {
    ghost from_gives = { λ c r. kept_of r ≡ book_of c };

    // The book that C hands over.
    fn from(c: BookForC) -> Book {
        Book {
            lower: bound_of(c.lower_there, c.lower_numerator, c.lower_denominator),
            upper: bound_of(c.upper_there, c.upper_numerator, c.upper_denominator),
            count: c.count,
        }
    }
}

impl From<Book> for BookForC {
    ghost from_gives = { λ b r. r ≡ for_c (kept_of b) };

    // The book that C is handed.
    fn from(book: Book) -> BookForC {
        let lower = book.lower.unwrap_or_default();
        let upper = book.upper.unwrap_or_default();
        BookForC {
            lower_there: u32::from(book.lower.is_some()),
            upper_there: u32::from(book.upper.is_some()),
            lower_numerator: lower.num,
            lower_denominator: lower.den,
            upper_numerator: upper.num,
            upper_denominator: upper.den,
            count: book.count,
        }
    }
}

// What C is answered: the book that follows an accepted claim, and else the very book c that was handed over.
#[tactic(auto, unfolding(crate::specs::BookInC::told_book))]
pub fn book_answer(c: BookForC, reply: Reply) -> BookAnswer
    ensures { result ≡ book_answer c (told_of reply) }
{
    let (number, place, book) = match reply.said {
        Ok(Ok(_)) => (0, 0, BookForC::from(reply.book)),
        Ok(Err(refusal)) => (refusal.number, refusal.place.number(), c),
        Err(error) => (error.number(), 0, c),
    };
    BookAnswer {
        number,
        place,
        book,
    }
}
