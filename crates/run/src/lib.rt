// A solver's run handed over whole: claims for one mesh and its table, written one after another, into their reports in
// turn. The mesh is read and judged once, and no room grows with the number of claims.

#![tactic(auto)]

ghost use Rattle.std.specs.Prelude.{◌≡◌, List, ℕ, ◌≤◌, ℤ, length};
ghost use Rattle.scope.specs.Answer.{verdict_of};
ghost use Rattle.scope.specs.Cases.Outcome.{Passed, Refused as Fails};
ghost use Rattle.mesh.specs.ClaimContracts.{Counted};
ghost use Rattle.reader.specs.File.{file_width};
ghost use Rattle.reader.specs.Most.{mesh_room};
ghost use Rattle.judge.specs.Judge.{mesh_numbers, mesh_from, mesh_outcome};
ghost use Rattle.run.specs.Run.{own_bytes, ends_run, RunAnswers};
ghost use Rattle.run.specs.NextClaim.{SomeMesh};

use judge::{JudgedMesh, MIDDLE_MESH, SMALL_ROOM, claim_bytes, judge_claim_file, judge_mesh_file};
use lines::layout::CLAIM_HEADER;
use mesh::pairs::{ClaimSizes, PairedMesh};
use reader::{CLAIM_HEADER_BYTES, MESH_ROOM, most_numbers, read_claim};
use report::{LINE, USUAL_DECIMALS, write_report};
use scope::{Refusal, Verdict};
use verdict::passed_mesh;

// What is returned: the reports written and the claim bytes taken.
#[repr(C)]
#[derive(Clone, Copy)]
pub struct RunAnswer {
    pub reports: u64,
    pub bytes: u64,
}

// Room for the numbers of a claim's header, and one for bytes left over.
const HEADER_ROOM: usize = CLAIM_HEADER + 1;

fn answer_of(reports: usize, bytes: usize) -> RunAnswer
    ensures { result ≡ record { reports = reports; bytes = bytes } }
{
    RunAnswer {
        reports: reports as u64,
        bytes: bytes as u64,
    }
}

// "A claim refused with 11, 12 or 13 ends the run"
#[tactic(auto, unfolding(crate::specs::Run::ends_run))]
fn ends_run(v: Verdict) -> bool
    ensures { result ≡ ends_run (verdict_of v) }
{
    matches!(
        v,
        Err(Refusal {
            number: 11 | 12 | 13,
            ..
        })
    )
}

// The next claim's own bytes, of those that are left: for every mesh with these sizes and so many pairs.
fn own_bytes<'a>(s: ClaimSizes, left: &'a [u8]) -> &'a [u8]
    requires { SomeMesh s }
    ensures { (m : List ℤ) → Counted m s → result.now ≡ own_bytes m left.now }
{
    let mut header = [0i64; HEADER_ROOM];
    let end = CLAIM_HEADER_BYTES.min(left.len());
    let count = read_claim(&left[..end], s, &mut header);
    let bytes = claim_bytes(s, &header[..count]);
    &left[..bytes.min(left.len())]
}

// The claims on a mesh with its pairs, one after another.
fn run_claims(m: &PairedMesh, claims: &[u8], reports: &mut [u8]) -> RunAnswer
    ensures { RunAnswers Passed m.now.mesh.numbers.now claims.now reports.old result
        reports.new }
{
    let sizes = m.claim_sizes();
    let room = reports.len() / LINE;
    let mut at = 0;
    for count in 0..room {
        if at == claims.len() {
            return answer_of(count, at);
        }
        let claim = own_bytes(sizes, &claims[at..]);
        let verdict = judge_claim_file(m, claim);
        let _ = write_report(verdict, &mut reports[count * LINE..], USUAL_DECIMALS);
        if ends_run(verdict) {
            return answer_of(count + 1, at);
        }
        at += claim.len();
    }
    answer_of(room, at)
}

// The run on a refused mesh: "A refused mesh writes its report once, even with no claim byte, and takes no claim"
fn run_refused(refusal: Refusal, reports: &mut [u8]) -> RunAnswer
    ensures { (m : List ℤ) (claims : List ℕ)
        → RunAnswers (Fails refusal.number refusal.place) m claims reports.old result reports.new }
{
    if reports.len() < LINE {
        return answer_of(0, 0);
    }
    let _ = write_report(Err(refusal), reports, USUAL_DECIMALS);
    answer_of(1, 0)
}

// The run on a mesh file and a table file, which is none where it is empty, with room for the mesh's numbers.
fn run_in<const ROOM: usize>(
    mesh: &[u8],
    table: &[u8],
    claims: &[u8],
    reports: &mut [u8],
) -> RunAnswer
    requires fits { length (mesh_numbers file_width mesh.now) ≤ ROOM }
    requires small { ROOM ≤ mesh_room }
    ensures { RunAnswers (mesh_outcome file_width mesh.now table.now)
        (mesh_from file_width mesh.now table.now) claims.now
        reports.old result reports.new }
{
    let numbers: &mut [i64] = &mut [0; ROOM];
    let JudgedMesh { count, pairs } = judge_mesh_file(mesh, table, numbers);
    match pairs {
        Ok(pairs) => {
            let m = passed_mesh(&numbers[..count], &pairs);
            run_claims(&m, claims, reports)
        }
        Err(refusal) => run_refused(refusal, reports),
    }
}

// The reports of the claims on a mesh file and a table file, one after another at the front of the buffer that is lent.
// The room for the mesh's numbers is chosen by its bytes, as in `judge_files`.
#[tactic(auto, using(judge::proofs::FilesJudged::mesh_by_length))]
pub fn check_run(mesh: &[u8], table: &[u8], claims: &[u8], reports: &mut [u8]) -> RunAnswer
    ensures { RunAnswers (mesh_outcome file_width mesh.now table.now)
        (mesh_from file_width mesh.now table.now) claims.now
        reports.old result reports.new }
{
    match most_numbers(mesh.len()) {
        ..=SMALL_ROOM => run_in::<SMALL_ROOM>(mesh, table, claims, reports),
        ..=MIDDLE_MESH => run_in::<MIDDLE_MESH>(mesh, table, claims, reports),
        _ => run_in::<MESH_ROOM>(mesh, table, claims, reports),
    }
}
