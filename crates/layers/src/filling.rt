// The mesh filled from a table that has passed for it: each element with soil 0 takes its layer's soil.
ghost use Rattle.std.specs.Prelude.{◌≡◌, ◌+◌, ◌<◌};
ghost use Rattle.scope.specs.Filled.{given, filled, with_soils};
ghost use Rattle.scope.specs.Mesh.{elements};
ghost use Rattle.mesh.specs.MeshContracts.{SizesAre};
ghost use Rattle.layers.specs.LayerContracts.{named, soils_to, Fillable};

use crate::heights::element_height;
use crate::table::Layers;
use mesh::Mesh;
use mesh::sizes::Sizes;

// Number k becomes 1 where it is there and 0.
fn name_soil(ns: &mut [i64], k: usize)
    ensures { ns.new ≡ named ns.old k }
{
    if k < ns.len() && ns[k] == 0 {
        ns[k] = 1;
    }
}

// Each element's soil 0 becomes soil 1, as far as the list goes: of the mesh only the header has passed.
pub fn name_soils(m: &mut [i64], s: Sizes)
    requires { SizesAre m.old s }
    ensures { m.new ≡ with_soils m.old }
{
    for e in 0..s.elements {
        name_soil(m, s.soil_place(e));
    }
}

// Element e of the mesh m takes its soil, in a list where the elements before it have theirs, and the others soil 1.
fn take_soil(m: &[i64], s: Sizes, layers: &Layers, e: usize, out: &mut [i64])
    requires fillable { Fillable layers.now.numbers.now m.now s }
    requires there { e < elements m.now }
    requires so_far { out.old ≡ given (soils_to layers.now.numbers.now m.now e) m.now }
    ensures { out.new ≡ given (soils_to layers.now.numbers.now m.now (e + 1)) m.now }
{
    let k = s.soil_place(e);
    if m[k] == 0 {
        // The heights of m, which has no soil here, are those of `out`.
        let named = Mesh {
            numbers: out,
            sizes: s,
        };
        if let Some(i) = layers.layer_of(element_height(&named, e)) {
            out[k] = layers.layer(i).soil;
        }
    }
}

// The list `out`, which is the mesh m with soil 1 for each soil 0, becomes the mesh filled from the table.
pub fn fill(m: &[i64], s: Sizes, layers: &Layers, out: &mut [i64])
    requires fillable { Fillable layers.now.numbers.now m.now s }
    requires named { out.old ≡ with_soils m.now }
    ensures { out.new ≡ filled layers.now.numbers.now m.now }
{
    for e in 0..s.elements {
        take_soil(m, s, layers, e, out);
    }
}
