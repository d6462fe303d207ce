// The bytes of a mesh file, of a table file and of a claim file into numbers: each byte is taken once, front to back,
// and the numbers stand at the front of a list that the caller lends.

#![tactic(auto)]

mod column;
mod file_lines;

ghost use Rattle.std.specs.Prelude.{◌≡◌, ◌≤◌, length};
ghost use Rattle.scope.specs.Mesh.{mesh_layout};
ghost use Rattle.reader.specs.File.{file_width, numbers_of, table_numbers_of};
ghost use Rattle.reader.specs.Listed.{Listed, ClaimRoom, ClaimListed};
ghost use Rattle.reader.specs.Most.{most_numbers};
ghost use Rattle.reader.specs.TableBytes.{most_bytes, bytes_in};

use crate::column::COLUMN_BYTES;
use crate::file_lines::Source;
use lines::layout::{CLAIM_HEADER, Groups, STRESS_COLUMNS};
use lines::line_checks::{claim_header, mesh_header};
use mesh::limits::{
    EDGE_ROWS, ELEMENT_ROWS, JUMP_ROWS, LAYER_COLUMNS, MESH_HEADER, MESH_NUMBERS, MOST_EDGES,
    MOST_ELEMENTS, MOST_JUMPS, MOST_LAYERS, MOST_SIDES, NODES_FOR_108, PAIRS_FOR_108,
};
use mesh::pairs::ClaimSizes;

// The most numbers of a mesh file, of a table file and of a claim file: their headers, as many lines as there can be,
// and one for bytes left over. With 108 sides a claim has the most.
pub const MESH_ROOM: usize = MESH_NUMBERS + 1;

pub const TABLE_ROOM: usize = MOST_LAYERS * LAYER_COLUMNS + 1;

pub const CLAIM_ROOM: usize = CLAIM_HEADER
    + NODES_FOR_108 * STRESS_COLUMNS
    + MOST_ELEMENTS * ELEMENT_ROWS
    + MOST_EDGES * EDGE_ROWS
    + MOST_JUMPS * JUMP_ROWS
    + PAIRS_FOR_108 * MOST_SIDES
    + 1;

// The bytes of a claim's header: a column takes `COLUMN_BYTES`, and a line one more.
pub const CLAIM_HEADER_BYTES: usize = CLAIM_HEADER * COLUMN_BYTES + 1;

// The most numbers of a file of so many bytes: each has a column, and bytes left over add one more.
pub fn most_numbers(bytes: usize) -> usize
    ensures { result ≡ most_numbers bytes }
{
    bytes / COLUMN_BYTES + 1
}

// The numbers of a mesh file, and how many they are: the list that is lent has room for them.
pub fn read_mesh(bytes: &[u8], out: &mut [i64]) -> usize
    requires { length (numbers_of file_width mesh_layout bytes.now) ≤ length out.old }
    ensures { Listed (numbers_of file_width mesh_layout bytes.now) out.old result
        out.new }
{
    let source = Source::new(bytes);
    let Some(p) = source.read_header(MESH_HEADER, out) else {
        return 0;
    };
    if mesh_header(out).is_err() {
        return p.numbers;
    }
    source.mesh_body(p, out)
}

// The numbers of a table file, and how many they are. Where bytes follow its well-formed lines they add one number, so
// that the line which they begin is not whole, or is one too many.
pub fn read_table(bytes: &[u8], out: &mut [i64]) -> usize
    requires { length (table_numbers_of file_width bytes.now) ≤ length out.old }
    ensures { Listed (table_numbers_of file_width bytes.now) out.old result
        out.new }
{
    let source = Source::new(bytes);
    let p = source.read_rows(out);
    source.finish(p, out)
}

// The numbers of a claim file, and how many they are: for every mesh with these sizes and so many pairs.
pub fn read_claim(bytes: &[u8], s: ClaimSizes, out: &mut [i64]) -> usize
    requires { ClaimRoom bytes.now s out.old }
    ensures { ClaimListed bytes.now s out.old result out.new }
{
    let source = Source::new(bytes);
    let Some(p) = source.read_header(CLAIM_HEADER, out) else {
        return 0;
    };
    if claim_header(out).is_err() {
        return p.numbers;
    }
    source.claim_body(p, s, out)
}

// The bytes of the lines of a table: a column takes `COLUMN_BYTES`, and a line one more.
pub fn body_bytes(groups: Groups) -> usize
    ensures sum { result ≡ bytes_in groups.of }
    ensures few { result ≤ most_bytes }
{
    groups
        .of
        .iter()
        .map(|g| g.lines * (g.columns * COLUMN_BYTES + 1))
        .sum()
}
