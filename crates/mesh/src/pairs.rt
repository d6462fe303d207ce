// The pairs of a node and a soil around it (document 02, N2), a mesh with its pairs, and what a claim's lines go by.
ghost use Rattle.std.specs.Prelude.{◌≡◌, ◌+◌, ◌<◌, ◌≤◌, [], ◌∷◌, ◌++◌, length};
ghost use Rattle.std.proofs.Props.{props};
ghost use Rattle.arrayvec.specs.ArrayVec.{array_vec_len};
ghost use Rattle.scope.specs.Mesh.{most_pairs, pairs_with, sides};
ghost use Rattle.scope.specs.Rows.{pair_count};
ghost use Rattle.mesh.specs.PairContracts.{PairsAre};

use crate::Mesh;
use crate::limits::MOST_PAIRS;
use crate::sizes::Sizes;
use std::marker::Model;
use std::ops::DerefSlice;

// A node and a soil around it, each counted from 0.
#[derive(Clone, Copy, Default)]
pub struct Pair {
    pub node: u8,
    pub soil: u8,
}

// The pairs of a mesh, nodes ascending and at a node soils ascending. They lie in the value itself, and each place
// behind them holds (0, 0): so their list is all that the value is, and it can be copied.
#[derive(Clone, Copy)]
pub struct Pairs {
    cells: [Pair; MOST_PAIRS],
    len: usize,
}

impl Model for Pairs {
    ghost use Rattle.std.specs.Prelude.{◌≡◌, ◌-◌, ◌≤◌, ◌++◌, length, take, drop, replicate};
    ghost use Rattle.std.proofs.Common.{sym, ap, ◌∙◌, subst, take-append-drop, length-take-le};
    ghost use Rattle.arrayvec.specs.ArrayVec.{ArrayVec};
    ghost use Rattle.scope.specs.Mesh.{most_pairs};
    ghost use Rattle.mesh.specs.declared.pairs.Pair.{Pair};
    ghost use Rattle.mesh.specs.PairContracts.{no_pair};

    ghost Value = { ArrayVec Pair };

    ghost view = { λ p. record { items = take p.len p.cells } };

    ghost invariant = { λ p. (p.len ≤ most_pairs) × (length p.cells ≡ most_pairs)
        × (drop p.len p.cells ≡ replicate (most_pairs - p.len) no_pair) };

    ghost inverse = { λ v. record {
      cells = v.items ++ replicate (most_pairs - length v.items) no_pair;
      len = length v.items;
    } };

    ghost inverse_ok = { λ p h i. let count = length-take-le p.len p.cells (subst (λ n. p.len ≤ n) (sym h.1) h.0) in
        record {
          cells = (ap (λ n. take p.len p.cells ++ replicate (most_pairs - n) no_pair) count
              ∙ ap (λ rest. take p.len p.cells ++ rest) (sym h.2) ∙ take-append-drop p.len p.cells) i;
          len = count i;
        } };
}

impl Pairs {
    // No pair.
    pub fn new() -> Pairs
        ensures { result.items ≡ [] }
    {
        Pairs {
            cells: [Pair::default(); MOST_PAIRS],
            len: 0,
        }
    }

    // How many there are.
    #[inline]
    pub fn len(&self) -> usize
        ensures value { result ≡ array_vec_len self.now }
        ensures fits { result ≤ most_pairs }
    {
        self.len
    }

    // One more, where there is room.
    #[inline]
    pub fn push(&mut self, pair: Pair)
        requires { array_vec_len self.old < most_pairs }
        ensures items { self.new.items ≡ self.old.items ++ pair ∷ [] }
        ensures len { array_vec_len self.new ≡ array_vec_len self.old + 1 }
    {
        self.cells[self.len] = pair;
        self.len += 1;
    }
}

impl DerefSlice for Pairs {
    type Elem = Pair;

    ghost deref_gives = { λ v pairs. (pairs ≡ v.items) × (length pairs ≤ most_pairs) };

    #[inline]
    fn deref(&self) -> &[Pair] {
        &self.cells[..self.len]
    }
}

// A mesh whose lines have passed, with its pairs, which are as few as its number of sides asks (document 02, N9).
#[derive(Clone, Copy)]
pub struct PairedMesh<'a> {
    pub mesh: Mesh<'a>,
    pub pairs: &'a [Pair],
    pub ghost few: { pair_count mesh.numbers.now ≤ most_pairs },
    pub ghost few_with_sides: { pair_count mesh.numbers.now ≤ pairs_with (sides mesh.numbers.now) },
    pub ghost paired: { PairsAre mesh.numbers.now pairs.now } by { Prim.hlevel props },
}

impl<'a> PairedMesh<'a> {
    // What the lines of a claim on it go by.
    pub fn claim_sizes(&self) -> ClaimSizes
        ensures sizes { result.sizes ≡ self.now.mesh.sizes }
        ensures pairs { result.pairs ≡ length self.now.pairs.now }
    {
        ClaimSizes {
            sizes: self.mesh.sizes,
            pairs: self.pairs.len(),
        }
    }
}

// The counts of a mesh, its pairs among them: the lines of a claim go by these.
#[derive(Clone, Copy)]
pub struct ClaimSizes {
    pub sizes: Sizes,
    pub pairs: usize,
    pub ghost few_pairs: { pairs ≤ most_pairs },
    pub ghost few_with_sides: { pairs ≤ pairs_with sizes.sides },
}
