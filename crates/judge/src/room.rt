// Room worked out beforehand (document 02, N7): the rows of each kind, the columns and the bytes of a claim, from the
// mesh alone.

ghost use Rattle.std.specs.Prelude.{◌≡◌, List, ℤ};
ghost use Rattle.scope.specs.Answer.{place_number};
ghost use Rattle.scope.specs.Cases.Outcome.{Passed};
ghost use Rattle.mesh.specs.ClaimContracts.{Counted};
ghost use Rattle.judge.specs.Room.{no_sizes, sizes_for, mesh_sizes};

use crate::{JudgedMesh, claim_bytes, judge_mesh_file};
use lines::layout::STRESS_COLUMNS;
use mesh::limits::{EDGE_ROWS, ELEMENT_ROWS, JUMP_ROWS};
use mesh::pairs::ClaimSizes;
use reader::MESH_ROOM;
use scope::Refusal;
use verdict::passed_mesh;

// What a mesh asks room for, as C reads it: its refusal, or the rows of each kind, the columns, and the bytes of a
// claim with a field, with multipliers, and with both.
#[repr(C)]
#[derive(Clone, Copy, Default)]
pub struct MeshSizes {
    pub number: u32,
    pub place: u32,
    pub balance_rows: u64,
    pub side_rows: u64,
    pub jump_rows: u64,
    pub strength_rows: u64,
    pub columns: u64,
    pub field_bytes: u64,
    pub multipliers_bytes: u64,
    pub both_bytes: u64,
}

impl From<Refusal> for MeshSizes {
    ghost from_gives = { λ e r. r ≡ no_sizes e.number (place_number e.place) };

    // "A refused mesh gives its refusal and no sizes."
    fn from(refusal: Refusal) -> MeshSizes {
        MeshSizes {
            number: refusal.number,
            place: refusal.place.number(),
            ..MeshSizes::default()
        }
    }
}

// The sizes of a mesh that passes, from its counts.
fn sizes_for(s: ClaimSizes) -> MeshSizes
    ensures { (m : List ℤ) → Counted m s → result ≡ sizes_for Passed m }
{
    MeshSizes {
        number: 0,
        place: 0,
        balance_rows: (s.sizes.elements * ELEMENT_ROWS) as u64,
        side_rows: (s.sizes.edges * EDGE_ROWS) as u64,
        jump_rows: (s.sizes.jumps * JUMP_ROWS) as u64,
        strength_rows: (s.pairs * s.sizes.sides) as u64,
        columns: (s.sizes.nodes * STRESS_COLUMNS) as u64,
        field_bytes: claim_bytes(s, &[1, 0]) as u64,
        multipliers_bytes: claim_bytes(s, &[0, 1]) as u64,
        both_bytes: claim_bytes(s, &[1, 1]) as u64,
    }
}

// The sizes of a mesh file, with a table file beside it.
#[tactic(auto, using(crate::proofs::FilesJudged::mesh_fits))]
pub fn mesh_sizes(mesh: &[u8], table: &[u8]) -> MeshSizes
    ensures { result ≡ mesh_sizes mesh.now table.now }
{
    let mut numbers = [0i64; MESH_ROOM];
    let JudgedMesh { count, pairs } = judge_mesh_file(mesh, table, &mut numbers);
    match pairs {
        Ok(pairs) => {
            let m = passed_mesh(&numbers[..count], &pairs);
            sizes_for(m.claim_sizes())
        }
        Err(refusal) => MeshSizes::from(refusal),
    }
}
