//! Some words of rows by tables that are known only at run time: each step goes over all of the words before the next.

ghost use Rattle.std.specs.Prelude.{◌≡◌, ℕ, ◌+◌, ◌<◌, ◌≤◌, cond, length, slice_index};
ghost use Rattle.cm_bits.specs.Bit.{bit};
ghost use Rattle.cm_model.specs.Chip.{IsPlane, plane_bit};
ghost use Rattle.cm_model.specs.Place.{predecessor};
ghost use Rattle.cm_rows.specs.Rows.{stores, looked_up, plane_output};

use crate::block::choice_of;
use crate::places::Places;
use cm_bits::Plane;
use cm_daisy::previous;
use cm_truth::apply_into;

/// What the processors of some words, from one of the row on, are to store.
pub(crate) fn find_outputs(
    table: u8,
    chained: bool,
    memory: &[Plane],
    flags: &[Plane],
    at: Places,
    from: usize,
    found: &mut [Plane],
)
    requires a { at.a + from + length found.old ≤ length memory.now }
    requires b { at.b + from + length found.old ≤ length memory.now }
    requires read { at.read + from + length found.old ≤ length flags.now }
    ensures value { (k : ℕ) → k < length found.old → IsPlane (slice_index found.new k)
        (plane_output table chained (slice_index memory.now (at.a + from + k))
        (slice_index memory.now (at.b + from + k))
        (slice_index flags.now (at.read + from + k))) }
{
    if chained {
        look_up(table, memory, flags, at, from, found);
        pass_on(found);
    } else {
        look_up(table, memory, flags, at, from, found);
    }
}

/// What the table gives the processors of some words.
fn look_up(
    table: u8,
    memory: &[Plane],
    flags: &[Plane],
    at: Places,
    from: usize,
    found: &mut [Plane],
)
    requires a { at.a + from + length found.old ≤ length memory.now }
    requires b { at.b + from + length found.old ≤ length memory.now }
    requires read { at.read + from + length found.old ≤ length flags.now }
    ensures value { (k : ℕ) → k < length found.old → IsPlane (slice_index found.new k)
        (looked_up table (slice_index memory.now (at.a + from + k)) (slice_index memory.now (at.b + from + k))
        (slice_index flags.now (at.read + from + k))) }
{
    let a = at.a + from;
    let b = at.b + from;
    let f = at.read + from;
    let count = found.len();
    apply_into(
        table,
        &memory[a..a + count],
        &memory[b..b + count],
        &flags[f..f + count],
        found,
    );
}

/// Moves what the processors of some words have along their chains.
fn pass_on(planes: &mut [Plane])
    ensures value { (k : ℕ) → k < length planes.old
        → IsPlane (slice_index planes.new k) (λ p. plane_bit (slice_index planes.old k) (predecessor p)) }
{
    for k in 0..planes.len() {
        planes[k] = previous(planes[k]);
    }
}

/// Where an instruction stores, in some words of its condition flag from a place on.
pub(crate) fn choose(always: bool, sense: bool, flags: &[Plane], at: usize, choice: &mut [Plane])
    requires within { at + length choice.old ≤ length flags.now }
    ensures value { (k : ℕ) → k < length choice.old → IsPlane (slice_index choice.new k)
        (λ p. stores always sense (bit (slice_index flags.now (at + k)) p)) }
{
    for k in 0..choice.len() {
        choice[k] = choice_of(always, sense, flags[at + k]);
    }
}

/// Puts planes into a row from a place on, where they are chosen.
pub(crate) fn merge(choice: &[Plane], planes: &[Plane], row: &mut [Plane], at: usize)
    requires choice { length choice.now ≡ length planes.now }
    requires within { at + length planes.now ≤ length row.old }
    ensures value { (k : ℕ) → k < length planes.now → (p : ℕ) → bit (slice_index row.new (at + k)) p
        ≡ cond (bit (slice_index choice.now k) p) (bit (slice_index planes.now k) p)
        (bit (slice_index row.old (at + k)) p) }
    ensures below { (i : ℕ) → i < at → slice_index row.new i ≡ slice_index row.old i }
    ensures above { (i : ℕ) → at + length planes.now ≤ i → slice_index row.new i ≡ slice_index row.old i }
{
    for k in 0..planes.len() {
        row[at + k] = chosen(choice[k], planes[k], row[at + k]);
    }
}

/// At each bit that of `set` where it is chosen, else that of `clear`.
fn chosen(choice: Plane, set: Plane, clear: Plane) -> Plane
    ensures value { (p : ℕ) → bit result p ≡ cond (bit choice p) (bit set p) (bit clear p) }
{
    clear ^ (choice & (clear ^ set))
}
