// The corners of an element.
ghost use Rattle.std.specs.Prelude.{◌≡◌, ◌<◌, ◌≤◌};
ghost use Rattle.scope.specs.Mesh.{elements, corner_count, around};
ghost use Rattle.mesh.specs.MeshContracts.{NodeAt};

use mesh::Mesh;

// How many corners element e has: three where its third and its fourth node are the same.
pub fn corner_count(m: &Mesh, e: usize) -> usize
    requires { e < elements m.now.numbers.now }
    ensures is { result ≡ corner_count m.now.numbers.now e }
    ensures some { 3 ≤ result }
    ensures few { result ≤ 4 }
{
    let third = m.corner(e, 2);
    let fourth = m.corner(e, 3);
    if third == fourth { 3 } else { 4 }
}

// Corner i of element e; after the last comes the first.
pub fn corner_around(m: &Mesh, e: usize, i: usize) -> usize
    requires { e < elements m.now.numbers.now }
    ensures { NodeAt result m.now.numbers.now (around m.now.numbers.now e i) }
{
    m.corner(e, i % corner_count(m, e))
}
