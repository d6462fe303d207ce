// A bound of a book, and the load that takes its place.
ghost use Rattle.std.specs.Prelude.{◌≡◌, ◌*ℤ◌};
ghost use Rattle.std.specs.Int.Signed.{lt_z};
ghost use Rattle.scope.specs.Answer.{load_of};
ghost use Rattle.integer.specs.Fraction.{◌over◌};
ghost use Rattle.book.specs.Book.{proper, better, moved};

use scope::Load;

// The two bounds that a book keeps.
#[derive(Clone, Copy)]
pub enum Bound {
    Lower,
    Upper,
}

// Whether a load, where it is there, has a denominator above 0.
#[tactic(auto, unfolding(crate::specs::Book::proper))]
pub fn is_proper(load: Option<Load>) -> bool
    ensures { result ≡ proper (load_of load) }
{
    match load {
        Some(load) => 0 < load.den,
        None => true,
    }
}

// Whether one load is below another as exact fractions: each product fits 128 bits.
fn is_below(f: Load, g: Load) -> bool
    ensures { result ≡ lt_z (f.num *ℤ g.den) (g.num *ℤ f.den) }
{
    i128::from(f.num) * i128::from(g.den) < i128::from(g.num) * i128::from(f.den)
}

impl Bound {
    // Whether a load is strictly better than another: a higher one that is carried, a lower limit.
    #[tactic(auto, unfolding(crate::specs::Book::better))]
    fn is_better(self, new: Load, old: Load) -> bool
        ensures { result ≡ better self (new.num over new.den) (old.num over old.den) }
    {
        match self {
            Bound::Lower => is_below(old, new),
            Bound::Upper => is_below(new, old),
        }
    }

    // What the book keeps: the claim's load only if it is strictly better.
    #[tactic(auto, unfolding(crate::specs::Book::moved))]
    pub fn moved(self, old: Option<Load>, new: Option<Load>) -> Option<Load>
        ensures { load_of result ≡ moved self (load_of old) (load_of new) }
    {
        match (old, new) {
            (Some(kept), Some(load)) if !self.is_better(load, kept) => old,
            (_, Some(_)) => new,
            (_, None) => old,
        }
    }
}
