//! What comes in at all chips of a machine, in loops over words.

ghost use Rattle.std.specs.Prelude.{◌≡◌, ◌≢◌, ℕ, ◌+◌, ◌-◌, ◌*◌, ◌^◌, ◌<◌, ◌≤◌, IsTrue, length, slice_index};
ghost use Rattle.cm_model.specs.Chip.{IsPlane};
ghost use Rattle.cm_model.specs.Place.{chip_columns, source};
ghost use Rattle.cm_news.specs.Bands.{AreWholeRows, is_open, bit_for, AreEntered};
ghost use Rattle.cm_news.specs.Moves.{bit_of_place};
ghost use Rattle.cm_news.specs.Rounds.{IsJoined, IsTurned, AreTurned};

use crate::grid::Grid;
use cm_bits::{Dir, Plane};

/// What comes in at every chip of a machine of `2^dims` chips when each processor sends its bit in a
/// direction: the planes are those of the chips, in order of their numbers.
pub fn incoming_row(dims: u8, planes: &[Plane], dir: Dir, out: &mut [Plane])
    requires dimension { dims ≤ 12 }
    requires planes { length planes.now ≡ 2 ^ dims }
    requires out { length out.old ≡ 2 ^ dims }
    ensures value { (c : ℕ) → c < 2 ^ dims → IsPlane (slice_index out.new c)
        (λ p. bit_of_place planes.now (source dims dir (record { chip = c; proc = p }))) }
{
    let columns = power_of_two(dims / 2);
    let rows = power_of_two(dims - dims / 2);
    match dir {
        Dir::North => turn(planes, 0, rows * columns, columns, dir, out),
        Dir::South => turn(
            planes,
            0,
            rows * columns,
            rows * columns - columns,
            dir,
            out,
        ),
        Dir::West => turn_on(planes, rows, columns, dir, out),
        Dir::East => turn_back(planes, rows, columns, dir, out),
    }
}

/// What comes in at every chip of a band of whole rows of chips, of a cube of `2^dims`, when each processor of the
/// band sends its bit in a direction. The planes are those of its chips, in order of their numbers. What comes over
/// the band's own edge stands in `edge`: by column of chips the four bits that come in there, the lowest column's
/// lowest; upper bits are not read.
pub fn incoming_band(dims: u8, planes: &[Plane], dir: Dir, edge: &[u8], out: &mut [Plane])
    requires dimension { dims ≤ 12 }
    requires rows { AreWholeRows dims (length planes.now) }
    requires some { 0 < length planes.now }
    requires edge { IsTrue (is_open dims dir (length planes.now)) → length edge.now ≡ chip_columns dims }
    requires out { length out.old ≡ length planes.now }
    ensures value { (first i : ℕ) → AreWholeRows dims first → first + length planes.now ≤ 2 ^ dims → i
        < length planes.now
        → IsPlane (slice_index out.new i)
        (λ p. bit_for dims dir first planes.now edge.now (record { chip = first + i; proc = p })) }
{
    if planes.len() == power_of_two(dims) {
        incoming_row(dims, planes, dir, out);
    } else {
        incoming_part(dims, planes, dir, edge, out);
    }
}

/// The same, where the band is not all chips.
fn incoming_part(dims: u8, planes: &[Plane], dir: Dir, edge: &[u8], out: &mut [Plane])
    requires dimension { dims ≤ 12 }
    requires rows { AreWholeRows dims (length planes.now) }
    requires some { 0 < length planes.now }
    requires part { length planes.now ≢ 2 ^ dims }
    requires edge { IsTrue (is_open dims dir (length planes.now)) → length edge.now ≡ chip_columns dims }
    requires out { length out.old ≡ length planes.now }
    ensures value { (first i : ℕ) → AreWholeRows dims first → first + length planes.now ≤ 2 ^ dims → i
        < length planes.now
        → IsPlane (slice_index out.new i)
        (λ p. bit_for dims dir first planes.now edge.now (record { chip = first + i; proc = p })) }
{
    let columns = power_of_two(dims / 2);
    let count = planes.len();
    match dir {
        Dir::North => {
            turn(planes, 0, count, columns, dir, out);
            enter(planes, count - columns, edge, dir, out);
        }
        Dir::South => {
            turn(planes, 0, count, count - columns, dir, out);
            enter(planes, 0, edge, dir, out);
        }
        Dir::West => turn_on(planes, count / columns, columns, dir, out),
        Dir::East => turn_back(planes, count / columns, columns, dir, out),
    }
}

/// At a row of chips from a place on, what comes in over the edge.
fn enter(planes: &[Plane], from: usize, edge: &[u8], dir: Dir, out: &mut [Plane])
    requires planes { from + length edge.now ≤ length planes.now }
    requires out { length out.old ≡ length planes.now }
    ensures value { AreEntered dir planes.now from edge.now out.old out.new }
{
    for k in 0..edge.len() {
        out[from + k] = Grid::<0>::over_edge(planes[from + k], edge[k] & 0xf, dir);
    }
}

/// In each row of so many chips, what comes in from the next chip in the row, round its end: all chips in one
/// loop, as though there were one row, and then the last of each row.
fn turn_on(planes: &[Plane], rows: usize, columns: usize, dir: Dir, out: &mut [Plane])
    requires some { 0 < columns }
    requires planes { rows * columns ≡ length planes.now }
    requires out { length out.old ≡ length planes.now }
    ensures value { (q r : ℕ) → q < rows → r < columns
        → IsTurned dir planes.now (q * columns) columns 1 r (slice_index out.new (q * columns + r)) }
{
    for k in 1..planes.len() {
        out[k - 1] = joined(planes[k - 1], planes[k], dir);
    }
    for row in 0..rows {
        let first = row * columns;
        let last = first + (columns - 1);
        out[last] = joined(planes[last], planes[first], dir);
    }
}

/// In each row of so many chips, what comes in from the chip before in the row, round its end, in the same way.
fn turn_back(planes: &[Plane], rows: usize, columns: usize, dir: Dir, out: &mut [Plane])
    requires some { 0 < columns }
    requires planes { rows * columns ≡ length planes.now }
    requires out { length out.old ≡ length planes.now }
    ensures value { (q r : ℕ) → q < rows → r < columns
        → IsTurned dir planes.now (q * columns) columns (columns - 1) r (slice_index out.new (q * columns + r)) }
{
    for k in 1..planes.len() {
        out[k] = joined(planes[k], planes[k - 1], dir);
    }
    for row in 0..rows {
        let first = row * columns;
        let last = first + (columns - 1);
        out[first] = joined(planes[first], planes[last], dir);
    }
}

/// At so many chips from a place on, what comes in from the chip that stands so many places on among
/// them, round their end.
fn turn(planes: &[Plane], from: usize, count: usize, by: usize, dir: Dir, out: &mut [Plane])
    requires by { by ≤ count }
    requires planes { from + count ≤ length planes.now }
    requires out { length out.old ≡ length planes.now }
    ensures value { AreTurned dir planes.now from count by out.old out.new }
{
    let straight = count - by;
    for k in 0..straight {
        out[from + k] = joined(planes[from + k], planes[from + (k + by)], dir);
    }
    for k in straight..count {
        out[from + k] = joined(planes[from + k], planes[from + (k - straight)], dir);
    }
}

/// What comes in at a chip from its own plane, and from that of the chip whose edge leads to it.
fn joined(own: Plane, before: Plane, dir: Dir) -> Plane
    ensures value { IsJoined dir own before result }
{
    match dir {
        Dir::North => own >> 4 | before << 12,
        Dir::South => own << 4 | before >> 12,
        Dir::West => own >> 1 & 0x7777 | before << 3 & 0x8888,
        Dir::East => own << 1 & 0xeeee | before >> 3 & 0x1111,
    }
}

fn power_of_two(exponent: u8) -> usize
    requires small { exponent ≤ 12 }
    ensures value { result ≡ 2 ^ exponent }
{
    1 << exponent
}
