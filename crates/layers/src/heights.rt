// The heights of nodes and elements: from the lowest node to the highest, and the sum of an element's corners.
ghost use Rattle.std.specs.Prelude.{◌≡◌, ◌<◌, ◌≤◌, ◌*◌};
ghost use Rattle.scope.specs.Mesh.{most_coordinate};
ghost use Rattle.scope.specs.Filled.{height_of};
ghost use Rattle.scope.specs.Layers.{lowest, highest};
ghost use Rattle.scope.specs.Layout.{count};
ghost use Rattle.scope.specs.Mesh.{nodes, elements, y, corner};

use mesh::Mesh;

// The height of node v.
fn node_height(m: &Mesh, v: usize) -> usize
    requires { v < nodes m.now.numbers.now }
    ensures same { result ≡ count (y m.now.numbers.now v) }
    ensures few { result ≤ most_coordinate }
{
    m.y(v) as usize
}

// The y of the lowest node, by y over all nodes.
pub fn lowest_node(m: &Mesh) -> usize
    ensures same { result ≡ lowest m.now.numbers.now }
    ensures few { result ≤ most_coordinate }
{
    (0..m.sizes.nodes)
        .map(|v| node_height(m, v))
        .min()
        .unwrap_or(0)
}

// The y of the highest node.
pub fn highest_node(m: &Mesh) -> usize
    ensures same { result ≡ highest m.now.numbers.now }
    ensures few { result ≤ most_coordinate }
{
    (0..m.sizes.nodes)
        .map(|v| node_height(m, v))
        .max()
        .unwrap_or(0)
}

// From the lowest node of a mesh to its highest, in whole heights.
#[derive(Clone, Copy)]
pub struct Heights {
    pub lo: usize,
    pub hi: usize,
    pub ghost low: { lo ≤ most_coordinate },
    pub ghost high: { hi ≤ most_coordinate },
}

impl Heights {
    pub fn of(m: &Mesh) -> Heights
        ensures lo { result.lo ≡ lowest m.now.numbers.now }
        ensures hi { result.hi ≡ highest m.now.numbers.now }
    {
        Heights {
            lo: lowest_node(m),
            hi: highest_node(m),
        }
    }
}

// The y of corner i of element e.
fn corner_height(m: &Mesh, e: usize, i: usize) -> usize
    requires there { e < elements m.now.numbers.now }
    requires at_corner { i < 4 }
    ensures same { result ≡ count (y m.now.numbers.now (corner m.now.numbers.now e i)) }
    ensures few { result ≤ most_coordinate }
{
    node_height(m, m.corner(e, i))
}

// The height of element e in quarters: a repeated corner counts twice.
pub fn element_height(m: &Mesh, e: usize) -> usize
    requires { e < elements m.now.numbers.now }
    ensures same { result ≡ height_of m.now.numbers.now e }
    ensures few { result ≤ 4 * most_coordinate }
{
    (0..4).map(|i| corner_height(m, e, i)).sum()
}
