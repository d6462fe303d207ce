// Refusals 46 and 45 of a table whose lines have passed, for a mesh whose lines have passed.
ghost use Rattle.std.specs.Prelude.{◌≡◌, ◌<◌};
ghost use Rattle.scope.specs.Answer.{outcome_of};
ghost use Rattle.scope.specs.Layers.{most_layers, layer_line, tops_phase, layers_apart_phase, gaps_phase, layer_phases};
ghost use Rattle.scope.specs.Phases.{check_phase, check_phases};

use crate::heights::Heights;
use crate::table::Layers;
use lines::layout::FIRST_LAYER;
use mesh::Mesh;
use scope::{Outcome, Place, Reason, Refusal, demand};

// 46, at the line of layer i.
fn layer_refusal(i: usize) -> Refusal
    requires { i < most_layers }
    ensures { result ≡ record { number = 46; place = layer_line i } }
{
    Reason::Layer.at(Place::Line((FIRST_LAYER + i) as u32))
}

// 46: each top is above its bottom.
fn tops_check(layers: &Layers) -> Outcome
    ensures { outcome_of result ≡ check_phase (tops_phase layers.now.numbers.now) }
{
    for i in 0..layers.count {
        demand(layers.top_above(i), layer_refusal(i))?;
    }
    Ok(())
}

// 46, else: no layer shares one of the heights with an earlier one.
fn apart_check(layers: &Layers, heights: Heights) -> Outcome
    ensures { outcome_of result ≡ check_phase (layers_apart_phase layers.now.numbers.now heights.lo heights.hi) }
{
    for i in 0..layers.count {
        demand(layers.apart_from_earlier(i, heights), layer_refusal(i))?;
    }
    Ok(())
}

// 45: each of the heights is in some layer. From top to top: between two whole heights no layer begins or ends, and
// each turn leaves one top more below, so that there are at most 33.
fn gaps_check(layers: &Layers, heights: Heights) -> Outcome
    ensures { outcome_of result ≡ check_phase (gaps_phase layers.now.numbers.now heights.lo heights.hi) }
{
    let mut h = heights.lo;
    while h <= heights.hi {
        let Some(i) = layers.layer_of(h * 4) else {
            return Err(Reason::Gap.at(Place::Height(h as u32 * 4)));
        };
        h = layers.layer(i).top as usize;
    }
    Ok(())
}

// Refusals 46 and 45, in their order, from the lowest node to the highest.
pub fn layers_check(m: &Mesh, layers: &Layers) -> Outcome
    ensures { outcome_of result ≡ check_phases (layer_phases layers.now.numbers.now m.now.numbers.now) }
{
    tops_check(layers)?;
    let heights = Heights::of(m);
    apart_check(layers, heights)?;
    gaps_check(layers, heights)
}
