// Three byte strings into a verdict: the numbers of a mesh file, of a table file and of a claim file are read, and
// judged by the check of numbers.

#![tactic(auto)]

pub mod room;

ghost use Rattle.std.specs.Prelude.{◌≡◌, List, ◌≤◌, ℤ, length, IfOk};
ghost use Rattle.scope.specs.Answer.{outcome_of, verdict_of};
ghost use Rattle.scope.specs.Table.{mesh_read, tabled_check};
ghost use Rattle.scope.specs.Verdict.{claim_verdict};
ghost use Rattle.mesh.specs.ClaimContracts.{Counted};
ghost use Rattle.mesh.specs.PairContracts.{PairsAre};
ghost use Rattle.reader.specs.File.{file_width, table_numbers_of};
ghost use Rattle.reader.specs.Listed.{Listed};
ghost use Rattle.reader.specs.Most.{mesh_room, claim_room};
ghost use Rattle.verdict.specs.NumbersLeft.{numbers_left};
ghost use Rattle.judge.specs.Judge.{
  mesh_numbers,
  mesh_from,
  mesh_outcome,
  claim_numbers,
  files_verdict,
};
ghost use Rattle.judge.specs.MeshLeft.{mesh_left};
ghost use Rattle.judge.specs.ClaimBytes.{claim_bytes};

use lines::layout::{claim_groups, has_part};
use mesh::pairs::{ClaimSizes, PairedMesh, Pairs};
use reader::{
    CLAIM_HEADER_BYTES, CLAIM_ROOM, MESH_ROOM, TABLE_ROOM, body_bytes, most_numbers, read_claim,
    read_mesh, read_table,
};
use scope::{Refusal, Verdict};
use verdict::{judge_claim, judge_mesh, judge_tabled, passed_mesh};

// How many numbers a mesh file has, and what is said of them: a refusal, or the mesh's pairs of a node and a soil.
#[derive(Clone, Copy)]
pub struct JudgedMesh {
    pub count: usize,
    pub pairs: Result<Pairs, Refusal>,
}

// Rooms for the numbers of a file. An array is filled with zeros before it is used, and for small files that is a
// large part of the time: so the room is chosen by the bytes.
pub const SMALL_ROOM: usize = 256;

pub const MIDDLE_MESH: usize = 512;

const MIDDLE_CLAIM: usize = 1024;

// A mesh with the numbers m judged with a table file beside it, which is none where it is empty. Where nothing before 5
// refuses them the numbers are filled, and else they stay.
fn judge_with(table: &[u8], m: &mut [i64]) -> Result<Pairs, Refusal>
    ensures outcome { outcome_of result
        ≡ tabled_check (table_numbers_of file_width table.now) m.old }
    ensures pairs { IfOk result
        (λ p. PairsAre (mesh_read (table_numbers_of file_width table.now) m.old) p.items) }
    ensures left { m.new ≡ numbers_left (table_numbers_of file_width table.now) m.old }
{
    if table.is_empty() {
        return judge_mesh(m);
    }
    let mut room = [0i64; TABLE_ROOM];
    let count = read_table(table, &mut room);
    judge_tabled(m, &room[..count])
}

// A mesh file judged, with a table file beside it, which is none where it is empty. The mesh's numbers stand at the
// front of the list that is lent, which has room for them, and nothing behind them is touched; how many they are is
// said of a refused mesh too. Where nothing before 5 refuses them they are the mesh as all after its lines reads it, and
// else as they were read.
pub fn judge_mesh_file(mesh: &[u8], table: &[u8], numbers: &mut [i64]) -> JudgedMesh
    requires { length (mesh_numbers file_width mesh.now) ≤ length numbers.old }
    ensures count { result.count ≡ length (mesh_numbers file_width mesh.now) }
    ensures list { Listed (mesh_left file_width mesh.now table.now) numbers.old result.count numbers.new }
    ensures outcome { outcome_of result.pairs ≡ mesh_outcome file_width mesh.now table.now }
    ensures pairs { IfOk result.pairs
        (λ p. PairsAre (mesh_from file_width mesh.now table.now) p.items) }
{
    let count = read_mesh(mesh, numbers);
    let pairs = judge_with(table, &mut numbers[..count]);
    JudgedMesh { count, pairs }
}

// The verdict on a claim file on a mesh with its pairs, with room for the claim's numbers.
fn judge_claim_in<const ROOM: usize>(m: &PairedMesh, claim: &[u8]) -> Verdict
    requires fits { length (claim_numbers file_width m.now.mesh.numbers.now claim.now) ≤ ROOM }
    requires small { ROOM ≤ claim_room }
    ensures { verdict_of result
        ≡ claim_verdict m.now.mesh.numbers.now
        (claim_numbers file_width m.now.mesh.numbers.now claim.now) }
{
    let numbers: &mut [i64] = &mut [0; ROOM];
    let count = read_claim(claim, m.claim_sizes(), numbers);
    judge_claim(m, &numbers[..count])
}

// The verdict on a claim file on a mesh with its pairs.
#[tactic(auto, using(crate::proofs::FilesJudged::claim_by_length))]
pub fn judge_claim_file(m: &PairedMesh, claim: &[u8]) -> Verdict
    ensures { verdict_of result
        ≡ claim_verdict m.now.mesh.numbers.now
        (claim_numbers file_width m.now.mesh.numbers.now claim.now) }
{
    match most_numbers(claim.len()) {
        ..=SMALL_ROOM => judge_claim_in::<SMALL_ROOM>(m, claim),
        ..=MIDDLE_CLAIM => judge_claim_in::<MIDDLE_CLAIM>(m, claim),
        _ => judge_claim_in::<CLAIM_ROOM>(m, claim),
    }
}

// The verdict on a mesh file, a table file and a claim file, with room for the mesh's numbers.
fn judge_files_in<const ROOM: usize>(mesh: &[u8], table: &[u8], claim: &[u8]) -> Verdict
    requires fits { length (mesh_numbers file_width mesh.now) ≤ ROOM }
    requires small { ROOM ≤ mesh_room }
    ensures { verdict_of result ≡ files_verdict file_width mesh.now table.now claim.now }
{
    let numbers: &mut [i64] = &mut [0; ROOM];
    let judged = judge_mesh_file(mesh, table, numbers);
    let pairs = judged.pairs?;
    judge_claim_file(&passed_mesh(&numbers[..judged.count], &pairs), claim)
}

// The verdict on a mesh file, a table file and a claim file.
#[tactic(auto, using(crate::proofs::FilesJudged::mesh_by_length))]
pub fn judge_files(mesh: &[u8], table: &[u8], claim: &[u8]) -> Verdict
    ensures { verdict_of result ≡ files_verdict file_width mesh.now table.now claim.now }
{
    match most_numbers(mesh.len()) {
        ..=SMALL_ROOM => judge_files_in::<SMALL_ROOM>(mesh, table, claim),
        ..=MIDDLE_MESH => judge_files_in::<MIDDLE_MESH>(mesh, table, claim),
        _ => judge_files_in::<MESH_ROOM>(mesh, table, claim),
    }
}

// The bytes of a claim file that begins with these numbers: for every mesh with these sizes and so many pairs.
pub fn claim_bytes(s: ClaimSizes, header: &[i64]) -> usize
    ensures { (m : List ℤ) → Counted m s → result ≡ claim_bytes m header.now }
{
    let groups = claim_groups(s, has_part(header, 0), has_part(header, 1));
    CLAIM_HEADER_BYTES + body_bytes(groups)
}
