//! The same lookup over rows of planes: in place, or into another row in a loop of its own for each table.

ghost use Rattle.std.specs.Prelude.{◌≡◌, ◌+◌, ◌*◌, ◌<◌, length};
ghost use Rattle.cm_truth.specs.Lookup.{IsLookedUp};

use crate::apply;
use cm_bits::Plane;

// A call for each half of a table, which is known to the compiler there.
macro_rules! by_half {
    ($half:ident, $call:ident, [$($known:tt)*], $other:expr; $($row:ident),*) => {
        match $half {
            0 => $call::<$($known)* 0>($($row),*),
            1 => $call::<$($known)* 1>($($row),*),
            2 => $call::<$($known)* 2>($($row),*),
            3 => $call::<$($known)* 3>($($row),*),
            4 => $call::<$($known)* 4>($($row),*),
            5 => $call::<$($known)* 5>($($row),*),
            6 => $call::<$($known)* 6>($($row),*),
            7 => $call::<$($known)* 7>($($row),*),
            8 => $call::<$($known)* 8>($($row),*),
            9 => $call::<$($known)* 9>($($row),*),
            10 => $call::<$($known)* 10>($($row),*),
            11 => $call::<$($known)* 11>($($row),*),
            12 => $call::<$($known)* 12>($($row),*),
            13 => $call::<$($known)* 13>($($row),*),
            14 => $call::<$($known)* 14>($($row),*),
            15 => $call::<$($known)* 15>($($row),*),
            _ => $other,
        }
    };
}

/// Looks a table up at each place of three rows of planes, and puts the outputs into the first.
pub fn apply_wide(table: u8, a: &mut [Plane], b: &[Plane], f: &[Plane])
    requires b { length b.now ≡ length a.old }
    requires f { length f.now ≡ length a.old }
    ensures value { IsLookedUp table a.old b.now f.now a.new }
{
    for k in 0..a.len() {
        a[k] = apply(table, a[k], b[k], f[k]);
    }
}

/// The same, with the outputs into another row.
pub fn apply_into(table: u8, a: &[Plane], b: &[Plane], f: &[Plane], out: &mut [Plane])
    requires a { length a.now ≡ length out.old }
    requires b { length b.now ≡ length out.old }
    requires f { length f.now ≡ length out.old }
    ensures value { IsLookedUp table a.now b.now f.now out.new }
{
    by_low(table % 16, table / 16, a, b, f, out);
}

/// The same, by the entries 0 to 3 and 4 to 7 of the table.
fn by_low(low: u8, high: u8, a: &[Plane], b: &[Plane], f: &[Plane], out: &mut [Plane])
    requires low { low < 16 }
    requires high { high < 16 }
    requires a { length a.now ≡ length out.old }
    requires b { length b.now ≡ length out.old }
    requires f { length f.now ≡ length out.old }
    ensures value { IsLookedUp (16 * high + low) a.now b.now f.now out.new }
{
    by_half!(low, by_high, [], any(16 * high + low, a, b, f, out); high, a, b, f, out)
}

/// The same, where the entries 0 to 3 are known.
fn by_high<const LOW: u8>(high: u8, a: &[Plane], b: &[Plane], f: &[Plane], out: &mut [Plane])
    requires low { LOW < 16 }
    requires high { high < 16 }
    requires a { length a.now ≡ length out.old }
    requires b { length b.now ≡ length out.old }
    requires f { length f.now ≡ length out.old }
    ensures value { IsLookedUp (16 * high + LOW) a.now b.now f.now out.new }
{
    by_half!(high, known, [LOW,], any(16 * high + LOW, a, b, f, out); a, b, f, out)
}

/// The same, where all entries are known.
fn known<const LOW: u8, const HIGH: u8>(a: &[Plane], b: &[Plane], f: &[Plane], out: &mut [Plane])
    requires low { LOW < 16 }
    requires high { HIGH < 16 }
    requires a { length a.now ≡ length out.old }
    requires b { length b.now ≡ length out.old }
    requires f { length f.now ≡ length out.old }
    ensures value { IsLookedUp (16 * HIGH + LOW) a.now b.now f.now out.new }
{
    any(16 * HIGH + LOW, a, b, f, out);
}

/// The same by any table, in one loop.
#[inline(always)]
fn any(table: u8, a: &[Plane], b: &[Plane], f: &[Plane], out: &mut [Plane])
    requires a { length a.now ≡ length out.old }
    requires b { length b.now ≡ length out.old }
    requires f { length f.now ≡ length out.old }
    ensures value { IsLookedUp table a.now b.now f.now out.new }
{
    for k in 0..out.len() {
        out[k] = apply(table, a[k], b[k], f[k]);
    }
}
