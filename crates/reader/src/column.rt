// A column's bytes, taken once each, front to back, into a state of fixed size that copies none of them.
ghost use Rattle.std.specs.Prelude.{◌≡◌, ◌+◌, ◌<◌, ◌≤◌, length, cond, is_some, MatchOption};
ghost use Rattle.std.proofs.Math.Option.{none, some};
ghost use Rattle.lines.specs.Table.{most_columns};
ghost use Rattle.reader.specs.Spelling.{read_column};
ghost use Rattle.reader.specs.File.{file_width, read_line};
ghost use Rattle.reader.specs.ReadSoFar.{line_put};
ghost use Rattle.reader.specs.OnePass.{value_bound};
ghost use Rattle.reader.specs.ColumnState.{Table, Stepped, Said, Partway, OnlySpaces, StandAt, reading_of};

// The bytes of a column, of each of its three blocks, and the place of the last block.
pub const COLUMN_BYTES: usize = 12;

const BLOCK_BYTES: usize = 4;

const LAST_BLOCK: usize = COLUMN_BYTES - BLOCK_BYTES;

// The bytes that most blocks have: those of the spaces before a number, and those of a zero in the last block.
const SPACES: [u8; BLOCK_BYTES] = [32; BLOCK_BYTES];

const ZERO_ALONE: [u8; BLOCK_BYTES] = [32, 32, 32, 48];

// What is kept of the bytes so far: the phase, which says what they spell, and the value of their digits.
#[derive(Clone, Copy)]
struct Kept {
    phase: u64,
    value: u64,
}

// The phases: what no number begins with; only spaces; a minus; a zero alone; digits; a minus and digits.
// A phase is the place of six bits in the entry of the next byte, and these bits are the phase after that byte.
const BAD: u64 = 0;

const BLANK: u64 = 6;

const SIGN: u64 = 12;

const NOUGHT: u64 = 18;

const UP: u64 = 24;

const DOWN: u64 = 30;

// The entries of the bytes. The upper four bits of a digit's entry are the digit.
const SPACE: u64 = BLANK << BLANK;

const MINUS: u64 = SIGN << BLANK;

const MORE: u64 = (UP << UP) + (DOWN << DOWN);

const ZERO: u64 = (NOUGHT << BLANK) + MORE;

const DIGIT: u64 = (UP << BLANK) + (DOWN << SIGN) + MORE;

const ONE: u64 = DIGIT + (1 << 60);

const TWO: u64 = DIGIT + (2 << 60);

const THREE: u64 = DIGIT + (3 << 60);

const FOUR: u64 = DIGIT + (4 << 60);

const FIVE: u64 = DIGIT + (5 << 60);

const SIX: u64 = DIGIT + (6 << 60);

const SEVEN: u64 = DIGIT + (7 << 60);

const EIGHT: u64 = DIGIT + (8 << 60);

const NINE: u64 = DIGIT + (9 << 60);

// What is kept before the first byte.
const NONE_TAKEN: Kept = Kept {
    phase: BLANK,
    value: 0,
};

// What the state after a column's last byte says.
fn said(c: Kept) -> Option<i64>
    requires { c.value < value_bound }
    ensures { Said c result }
{
    let value = c.value as i64;
    match c.phase {
        NOUGHT | UP => Some(value),
        DOWN => Some(-value),
        _ => None,
    }
}

// The entries of all bytes, made once for a file.
#[derive(Drop)]
pub struct Entries {
    of_byte: [u64; 256],
    ghost is_table: { Table of_byte },
}

impl Entries {
    pub fn table() -> Entries {
        let mut of_byte = [BAD; 256];
        of_byte[32] = SPACE;
        of_byte[45] = MINUS;
        of_byte[48] = ZERO;
        of_byte[49] = ONE;
        of_byte[50] = TWO;
        of_byte[51] = THREE;
        of_byte[52] = FOUR;
        of_byte[53] = FIVE;
        of_byte[54] = SIX;
        of_byte[55] = SEVEN;
        of_byte[56] = EIGHT;
        of_byte[57] = NINE;
        Entries { of_byte }
    }

    // The state after one byte more.
    fn step(&self, c: Kept, b: u8) -> Kept
        requires phase { c.phase < 64 }
        requires value { c.value < value_bound }
        ensures { Stepped c b result }
    {
        let entry = self.of_byte[usize::from(b)];
        Kept {
            phase: (entry >> c.phase) % 64,
            value: c.value * 10 + (entry >> 60),
        }
    }

    // What the rest of a column says, from its byte `from` on, after the state c.
    fn rest_of(&self, text: &[u8; COLUMN_BYTES], from: usize, c: Kept) -> Option<i64>
        requires { Partway text.now from c }
        ensures { result ≡ reading_of (read_column text.now) }
    {
        let mut kept = c;
        for b in &text[from..] {
            kept = self.step(kept, *b);
        }
        said(kept)
    }

    // What is kept after the block that begins at byte `from`, before which are only spaces, or None where its bytes
    // are the usual ones.
    fn block(
        &self,
        text: &[u8; COLUMN_BYTES],
        from: usize,
        usual: [u8; BLOCK_BYTES],
    ) -> Option<Kept>
        requires fits { from ≤ LAST_BLOCK }
        requires spaces { OnlySpaces text.now from }
        ensures { MatchOption result (StandAt text.now from usual) (Partway text.now (from + BLOCK_BYTES)) }
    {
        let mut kept = NONE_TAKEN;
        let mut same = true;
        for i in 0..BLOCK_BYTES {
            let b = text[from + i];
            kept = self.step(kept, b);
            same &= b == usual[i];
        }
        if same { None } else { Some(kept) }
    }

    // What a column says: each byte is indexed once, front to back, and goes into the state. Where a block has its
    // usual bytes the state after it is known: the program goes on with that, so that it need not wait for the steps.
    pub fn column(&self, text: &[u8; COLUMN_BYTES]) -> Option<i64>
        ensures { result ≡ reading_of (read_column text.now) }
    {
        if let Some(kept) = self.block(text, 0, SPACES) {
            return self.rest_of(text, BLOCK_BYTES, kept);
        }
        if let Some(kept) = self.block(text, BLOCK_BYTES, SPACES) {
            return self.rest_of(text, LAST_BLOCK, kept);
        }
        match self.block(text, LAST_BLOCK, ZERO_ALONE) {
            Some(kept) => said(kept),
            None => Some(0),
        }
    }

    // The line at the front of these bytes, with as many columns as `line` has numbers: whether it is well formed, and
    // its numbers. Of one that is not, `line` holds those before the first column that is none.
    pub fn read_line(&self, bytes: &[u8], line: &mut [i64]) -> Option<()>
        requires { length line.old ≤ most_columns }
        ensures read { read_line file_width (length line.old) bytes.now
            ≡ cond (is_some result) (some line.new) none }
        ensures put { line.new ≡ line_put file_width bytes.now line.old }
    {
        let end = line.len() * COLUMN_BYTES;
        if bytes.len() <= end {
            return None;
        }
        let (columns, _) = bytes.as_chunks::<COLUMN_BYTES>();
        for (i, number) in line.iter_mut().enumerate() {
            *number = self.column(&columns[i])?;
        }
        (bytes[end] == 10).then_some(())
    }
}
