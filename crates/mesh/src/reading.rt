// A number of a list, as the definitions read it, and the numbers of a list copied.
ghost use Rattle.std.specs.Prelude.{◌≡◌, ◌++◌, ◌<◌, ◌≤◌, ◌≤ℤ◌, pos, length, drop};
ghost use Rattle.scope.specs.Columns.{at};
ghost use Rattle.scope.specs.Layout.{count};

// Number k of a list.
pub fn number_at(ns: &[i64], k: usize) -> i64
    requires { k < length ns.now }
    ensures { result ≡ at ns.now k }
{
    ns[k]
}

// Number k of a list, where it is a count.
pub fn count_at(ns: &[i64], k: usize) -> usize
    requires there { k < length ns.now }
    requires counted { pos 0 ≤ℤ at ns.now k }
    ensures { result ≡ count (at ns.now k) }
{
    ns[k] as usize
}

// The numbers m at the front of a list that has room for them; nothing behind them is touched. One after another, since
// for lists of which it doesn't know that they lie apart the library's copy is a call of memmove.
pub fn copy_numbers(m: &[i64], out: &mut [i64])
    requires { length m.now ≤ length out.old }
    ensures { out.new ≡ m.now ++ drop (length m.now) out.old }
{
    for i in 0..m.len() {
        out[i] = m[i];
    }
}
