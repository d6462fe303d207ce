// Lines of columns into numbers: a line's numbers are written where the whole line is well formed.
ghost use Rattle.std.specs.Prelude.{◌≡◌, [], ◌≤◌, length, IfOk, IfErr};
ghost use Rattle.scope.specs.Columns.{has_field, has_multipliers};
ghost use Rattle.scope.specs.Mesh.{mesh_layout};
ghost use Rattle.mesh.specs.MeshContracts.{HeaderThere};
ghost use Rattle.lines.specs.Table.{most_columns, line_widths, claim_body};
ghost use Rattle.reader.specs.File.{file_width, widths, table_numbers_of};
ghost use Rattle.reader.specs.ReadSoFar.{
  start,
  LineTaken,
  LineRoom,
  lines_of,
  LinesTaken,
  LinesStopped,
  all_numbers,
  Room,
  RoomBefore,
  RowsTaken,
};
ghost use Rattle.reader.specs.Listed.{Listed};

use crate::column::{COLUMN_BYTES, Entries};
use lines::layout::{Group, Groups, claim_groups, has_part, mesh_groups};
use mesh::limits::{LAYER_COLUMNS, MOST_LAYERS, MOST_SIDES};
use mesh::pairs::ClaimSizes;
use mesh::reading::copy_numbers;
use mesh::sizes::Sizes;

// How far a file is read: the place of its next byte, and how many numbers it has so far.
#[derive(Clone, Copy, Default)]
pub struct Progress {
    pub at: usize,
    pub numbers: usize,
}

// A file that is read: its bytes, and the entries of bytes.
#[derive(Drop)]
pub struct Source<'a> {
    entries: Entries,
    bytes: &'a [u8],
}

impl<'a> Source<'a> {
    pub fn new(bytes: &'a [u8]) -> Source<'a>
        ensures { result.bytes.now ≡ bytes.now }
    {
        Source {
            entries: Entries::table(),
            bytes,
        }
    }

    // One line more, with as many columns as `line` has numbers: none where it is not well formed. The slice `line` is
    // room for its numbers until the whole line is known to be.
    fn next_line(&self, p: Progress, line: &mut [i64], out: &mut [i64]) -> Option<Progress>
        requires few { length line.old ≤ most_columns }
        requires room { LineRoom self.now.bytes.now (length line.old) p out.old }
        ensures { LineTaken self.now.bytes.now (length line.old) p out.old result out.new }
    {
        self.entries.read_line(&self.bytes[p.at..], line)?;
        let columns = line.len();
        copy_numbers(line, &mut out[p.numbers..p.numbers + columns]);
        Some(Progress {
            at: p.at + columns * COLUMN_BYTES + 1,
            numbers: p.numbers + columns,
        })
    }

    // Lines of a group: how far the file is read, or, where a line is not well formed, how many numbers it has. The
    // array `line` is lent, so that it is made once for a file.
    fn read_group(
        &self,
        p: Progress,
        g: Group,
        line: &mut [i64; MOST_SIDES],
        out: &mut [i64],
    ) -> Result<Progress, usize>
        requires few { g.columns ≤ most_columns }
        requires room { RoomBefore self.now.bytes.now (lines_of g) p out.old }
        ensures read { IfOk result (λ q. LinesTaken self.now.bytes.now (lines_of g) p out.old q out.new) }
        ensures stopped { IfErr result (λ n. LinesStopped self.now.bytes.now (lines_of g) p out.old n out.new) }
    {
        let line = &mut line[..g.columns];
        let mut q = p;
        for _ in 0..g.lines {
            q = self.next_line(q, line, out).ok_or(q.numbers)?;
        }
        Ok(q)
    }

    // After the last line: bytes left over add one number more.
    #[tactic(auto, using(crate::proofs::Whole::finishes))]
    pub fn finish(&self, p: Progress, out: &mut [i64]) -> usize
        requires { Room self.now.bytes.now [] p out.old }
        ensures { Listed (all_numbers self.now.bytes.now [] p out.old) out.old result out.new }
    {
        if p.at < self.bytes.len() {
            out[p.numbers] = 0;
            return p.numbers + 1;
        }
        p.numbers
    }

    // The header, which is the first line, of so many columns.
    pub fn read_header(&self, columns: usize, out: &mut [i64]) -> Option<Progress>
        requires few { columns ≤ most_columns }
        requires room { LineRoom self.now.bytes.now columns start out.old }
        ensures { LineTaken self.now.bytes.now columns start out.old result out.new }
    {
        let mut line = [0; MOST_SIDES];
        self.next_line(Progress::default(), &mut line[..columns], out)
    }

    // The groups of lines after a header, as `read_group` reads one.
    fn read_all(&self, p: Progress, groups: Groups, out: &mut [i64]) -> Result<Progress, usize>
        requires { Room self.now.bytes.now (line_widths groups.of) p out.old }
        ensures read { IfOk result
            (λ q. LinesTaken self.now.bytes.now (line_widths groups.of) p out.old q out.new) }
        ensures stopped { IfErr result
            (λ n. LinesStopped self.now.bytes.now (line_widths groups.of) p out.old n out.new) }
    {
        let mut line = [0; MOST_SIDES];
        let mut q = p;
        for g in groups.of {
            q = self.read_group(q, g, &mut line, out)?;
        }
        Ok(q)
    }

    // The groups of lines after a header, and what is left over.
    fn read_groups(&self, p: Progress, groups: Groups, out: &mut [i64]) -> usize
        requires { Room self.now.bytes.now (line_widths groups.of) p out.old }
        ensures { Listed (all_numbers self.now.bytes.now (line_widths groups.of) p out.old)
            out.old result out.new }
    {
        match self.read_all(p, groups, out) {
            Ok(q) => self.finish(q, out),
            Err(numbers) => numbers,
        }
    }

    // The lines after a mesh's header, which stands at the front of `out`.
    pub fn mesh_body(&self, p: Progress, out: &mut [i64]) -> usize
        requires header { HeaderThere out.old }
        requires room { Room self.now.bytes.now (widths (mesh_layout.body out.old)) p out.old }
        ensures { Listed
            (all_numbers self.now.bytes.now (widths (mesh_layout.body out.old)) p out.old)
            out.old result out.new }
    {
        let groups = mesh_groups(Sizes::of_header(out), false);
        self.read_groups(p, groups, out)
    }

    // The lines after a claim's header, which stands at the front of `out`.
    pub fn claim_body(&self, p: Progress, s: ClaimSizes, out: &mut [i64]) -> usize
        requires { Room self.now.bytes.now
            (widths (claim_body s.sizes s.pairs (has_field out.old) (has_multipliers out.old))) p out.old }
        ensures { Listed
            (all_numbers self.now.bytes.now
            (widths (claim_body s.sizes s.pairs (has_field out.old) (has_multipliers out.old))) p out.old)
            out.old result out.new }
    {
        let groups = claim_groups(s, has_part(out, 0), has_part(out, 1));
        self.read_groups(p, groups, out)
    }

    // The well-formed lines of a table, which has no header: the place of the byte after them says whether more
    // follows.
    pub fn read_rows(&self, out: &mut [i64]) -> Progress
        requires { length (table_numbers_of file_width self.now.bytes.now) ≤ length out.old }
        ensures { RowsTaken self.now.bytes.now out.old result out.new }
    {
        let mut line = [0; LAYER_COLUMNS];
        let mut q = Progress::default();
        for _ in 0..MOST_LAYERS {
            let Some(next) = self.next_line(q, &mut line, out) else {
                return q;
            };
            q = next;
        }
        q
    }
}
