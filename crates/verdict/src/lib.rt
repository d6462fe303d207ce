// The verdict on the numbers of a mesh and of a claim (document 01, 'Verdict and report').

#![tactic(auto)]

pub mod claim_parts;
mod equality_checks;
pub mod field_checks;

ghost use Rattle.std.specs.Prelude.{◌≡◌, ◌++◌, true, IfOk, ◌≤◌, length, drop};
ghost use Rattle.scope.specs.Answer.{outcome_of, verdict_of};
ghost use Rattle.scope.specs.Table.{has_table, mesh_read, tabled_check};
ghost use Rattle.scope.specs.TableVerdict.{tabled_verdict};
ghost use Rattle.scope.specs.Verdict.{mesh_check, claim_verdict, verdict};
ghost use Rattle.mesh.specs.PairContracts.{PairsAre};
ghost use Rattle.verdict.specs.JudgeContracts.{LinesPassed, SoundMesh};
ghost use Rattle.verdict.specs.NumbersLeft.{numbers_left};

use crate::claim_parts::parts_verdict;
use layers::filling::{fill, name_soils};
use layers::layer_checks::layers_check;
use layers::table::Layers;
use lines::line_checks::{claim_lines, mesh_lines, table_lines};
use mesh::Mesh;
use mesh::limits::MESH_NUMBERS;
use mesh::pairs::{Pair, PairedMesh, Pairs};
pub use mesh::reading::copy_numbers;
use mesh::sizes::Sizes;
use scope::{Refusal, Verdict};
use shape::mesh_checks::mesh_shape;

// The numbers of a mesh that has no table, judged: what they are refused for, 1 to 8, 42, 44 and 47, or the mesh's
// pairs of a node and a soil. These are made once a mesh, and lent to the judging of each claim on it.
pub fn judge_mesh(m: &[i64]) -> Result<Pairs, Refusal>
    ensures outcome { outcome_of result ≡ mesh_check m.now }
    ensures pairs { IfOk result (λ p. PairsAre m.now p.items) }
{
    mesh_lines(m, false)?;
    mesh_shape(&Mesh::new(m))
}

// A mesh whose lines have passed, and a table, judged: 1, 2 and 4 of the table, 46 and 45, then 5 to 8, 47, 44 and 42.
// `out` is a copy of the mesh's numbers. Where 46 and 45 pass it is filled, and else it is a copy again.
pub fn judge_layers(m: &[i64], t: &[i64], out: &mut [i64]) -> Result<Pairs, Refusal>
    requires lines_passed { LinesPassed t.now m.now }
    requires copied { out.old ≡ m.now }
    ensures outcome { outcome_of result ≡ tabled_check t.now m.now }
    ensures pairs { IfOk result (λ p. PairsAre (mesh_read t.now m.now) p.items) }
    ensures left { out.new ≡ numbers_left t.now m.now }
{
    let s = Sizes::of_header(m);
    table_lines(t, s)?;
    let layers = Layers::new(t);
    name_soils(out, s);
    if let Err(refusal) = layers_check(&Mesh::new(out), &layers) {
        copy_numbers(m, out);
        return Err(refusal);
    }
    fill(m, s, &layers, out);
    mesh_shape(&Mesh::new(out))
}

// A mesh and its table, judged. Where nothing before 5 refuses them the mesh's numbers are filled, and else they stay.
pub fn judge_tabled(m: &mut [i64], t: &[i64]) -> Result<Pairs, Refusal>
    requires { has_table t.now ≡ true }
    ensures outcome { outcome_of result ≡ tabled_check t.now m.old }
    ensures pairs { IfOk result (λ p. PairsAre (mesh_read t.now m.old) p.items) }
    ensures left { m.new ≡ numbers_left t.now m.old }
{
    mesh_lines(m, true)?;
    let mut copy = [0i64; MESH_NUMBERS];
    copy_numbers(m, &mut copy);
    judge_layers(&copy[..m.len()], t, m)
}

// A mesh that has passed, with its pairs.
pub fn passed_mesh<'a>(numbers: &'a [i64], pairs: &'a [Pair]) -> PairedMesh<'a>
    requires { SoundMesh numbers.now pairs.now }
    ensures { result.mesh.numbers.now ≡ numbers.now }
{
    PairedMesh {
        mesh: Mesh::new(numbers),
        pairs,
    }
}

// The verdict on a claim's numbers on a mesh with its pairs.
pub fn judge_claim(m: &PairedMesh, c: &[i64]) -> Verdict
    ensures { verdict_of result ≡ claim_verdict m.now.mesh.numbers.now c.now }
{
    claim_lines(c, m.claim_sizes())?;
    parts_verdict(m, c)
}

// The verdict on a mesh and a claim handed over as numbers, where there is no table.
fn check_alone(m: &[i64], c: &[i64]) -> Verdict
    ensures { verdict_of result ≡ verdict m.now c.now }
{
    let pairs = judge_mesh(m)?;
    judge_claim(&passed_mesh(m, &pairs), c)
}

// The same where the mesh's lines have passed and there is a table; `out` is a copy of the mesh's numbers.
fn check_filled(m: &[i64], t: &[i64], out: &mut [i64], c: &[i64]) -> Verdict
    requires lines_passed { LinesPassed t.now m.now }
    requires copied { out.old ≡ m.now }
    ensures { verdict_of result ≡ tabled_verdict t.now m.now c.now }
{
    let pairs = judge_layers(m, t, out)?;
    judge_claim(&passed_mesh(out, &pairs), c)
}

// The verdict on a mesh, a table and a claim handed over as numbers; an empty table is none. The mesh is copied only
// where there is a table, and once its lines have passed.
pub fn check_numbers(m: &[i64], t: &[i64], c: &[i64]) -> Verdict
    ensures { verdict_of result ≡ tabled_verdict t.now m.now c.now }
{
    if t.is_empty() {
        return check_alone(m, c);
    }
    mesh_lines(m, true)?;
    let mut copy = [0i64; MESH_NUMBERS];
    copy_numbers(m, &mut copy);
    check_filled(m, t, &mut copy[..m.len()], c)
}
