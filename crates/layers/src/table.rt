// A borehole table whose lines have passed: its layers, which of them has a height, and whether two share one.
ghost use Rattle.std.specs.Prelude.{◌≡◌, ◌<◌, ◌≤◌, ◌*◌, IfSome, IfNone};
ghost use Rattle.std.proofs.Props.{props};
ghost use Rattle.scope.specs.Mesh.{most_coordinate};
ghost use Rattle.scope.specs.Layers.{layers, has, top_above, apart};
ghost use Rattle.scope.specs.Rows.{first_where};
ghost use Rattle.layers.specs.LayerContracts.{TableRead, IsLayer, meet};

use crate::heights::Heights;
use mesh::limits::LAYER_COLUMNS;

// One layer of a table.
#[derive(Clone, Copy)]
pub struct Layer {
    pub bottom: i64,
    pub top: i64,
    pub soil: i64,
}

// The layers of a table whose lines have passed: its numbers, and how many layers they are.
#[derive(Clone, Copy)]
pub struct Layers<'a> {
    pub numbers: &'a [i64],
    pub count: usize,
    pub ghost counted: { count ≡ layers numbers.now },
    pub ghost read: { TableRead numbers.now } by { Prim.hlevel props },
}

impl<'a> Layers<'a> {
    // Requires what a passed check of the table's lines shows.
    pub fn new(numbers: &'a [i64]) -> Layers<'a>
        requires { TableRead numbers.now }
        ensures { result.numbers.now ≡ numbers.now }
    {
        Layers {
            numbers,
            count: numbers.len() / LAYER_COLUMNS,
        }
    }

    // Layer i.
    pub fn layer(&self, i: usize) -> Layer
        requires { i < self.now.count }
        ensures { IsLayer result self.now.numbers.now i }
    {
        let first = i * LAYER_COLUMNS;
        Layer {
            bottom: self.numbers[first],
            top: self.numbers[first + 1],
            soil: self.numbers[first + 2],
        }
    }

    // Whether the top of layer i is above its bottom.
    pub fn top_above(&self, i: usize) -> bool
        requires { i < self.now.count }
        ensures { result ≡ top_above self.now.numbers.now i }
    {
        let layer = self.layer(i);
        layer.bottom < layer.top
    }

    // Whether layer i has the height q, in quarters.
    fn has_height(&self, i: usize, q: usize) -> bool
        requires there { i < self.now.count }
        requires low { q ≤ 4 * most_coordinate }
        ensures { result ≡ has self.now.numbers.now q i }
    {
        let layer = self.layer(i);
        (4 * layer.bottom..4 * layer.top).contains(&(q as i64))
    }

    // The first layer that has the height q.
    pub fn layer_of(&self, q: usize) -> Option<usize>
        requires low { q ≤ 4 * most_coordinate }
        ensures found { IfSome result (λ i. (i < self.now.count)
            × (i ≡ first_where (has self.now.numbers.now q) (layers self.now.numbers.now))) }
        ensures none { IfNone result
            (first_where (has self.now.numbers.now q) (layers self.now.numbers.now) ≡ layers self.now.numbers.now) }
    {
        (0..self.count).find(|&i| self.has_height(i, q))
    }

    // Whether layers i and j share one of some heights: where both have begun, neither has ended and the highest is not
    // passed.
    fn share(&self, i: usize, j: usize, heights: Heights) -> bool
        requires i_there { i < self.now.count }
        requires j_there { j < self.now.count }
        ensures { result ≡ meet self.now.numbers.now heights.lo heights.hi i j }
    {
        let a = self.layer(i);
        let b = self.layer(j);
        let from = a.bottom.max(b.bottom).max(heights.lo as i64);
        from <= heights.hi as i64 && from < a.top && from < b.top
    }

    // Whether layer i shares none of some heights with an earlier one: by pairs of layers.
    pub fn apart_from_earlier(&self, i: usize, heights: Heights) -> bool
        requires { i < self.now.count }
        ensures { result ≡ apart self.now.numbers.now heights.lo heights.hi i }
    {
        !(0..i).any(|j| self.share(i, j, heights))
    }
}
