//! Truth tables over planes: one table entry for each of sixteen processors at once.
#![tactic(auto)]

ghost use Rattle.std.specs.Prelude.{◌≡◌, ℕ, ◌<◌, ◌&&◌};
ghost use Rattle.cm_bits.specs.Bit.{bit, differ};
ghost use Rattle.cm_model.specs.Chip.{IsPlane};
ghost use Rattle.cm_model.specs.Processor.{entry};
ghost use Rattle.cm_truth.specs.Choice.{chosen_of_four};

mod alone;
mod lanes;
mod wide;

pub use alone::apply_alone;
use cm_bits::Plane;
pub use lanes::apply_lanes;
pub use wide::{apply_into, apply_wide};

/// Four planes, of which two further planes choose one at each bit.
#[derive(Clone, Copy)]
struct Four {
    neither: Plane,
    by_f: Plane,
    by_b: Plane,
    by_both: Plane,
}

/// The output of a truth table in each processor of a chip, from the bits that each has there.
///
/// Entry `4 * A + 2 * B + F` of the table is that bit of its byte, bit 0 lowest (the order is ours).
pub fn apply(table: u8, a: Plane, b: Plane, f: Plane) -> Plane
    ensures value { IsPlane result (λ p. entry table (bit a p) (bit b p) (bit f p)) }
{
    let low = chosen(low_entries(table), b, f);
    let change = chosen(changes(table), b, f);
    changed(a, low, change)
}

/// The entries where A is 0.
#[inline(always)]
fn low_entries(table: u8) -> Four
    ensures neither { IsPlane result.neither (λ p. bit table 0) }
    ensures by_f { IsPlane result.by_f (λ p. bit table 1) }
    ensures by_b { IsPlane result.by_b (λ p. bit table 2) }
    ensures by_both { IsPlane result.by_both (λ p. bit table 3) }
{
    Four {
        neither: entry_everywhere(table, 0),
        by_f: entry_everywhere(table, 1),
        by_b: entry_everywhere(table, 2),
        by_both: entry_everywhere(table, 3),
    }
}

/// Where the entries at which A is 1 differ from those.
#[inline(always)]
fn changes(table: u8) -> Four
    ensures neither { IsPlane result.neither (λ p. differ (bit table 0) (bit table 4)) }
    ensures by_f { IsPlane result.by_f (λ p. differ (bit table 1) (bit table 5)) }
    ensures by_b { IsPlane result.by_b (λ p. differ (bit table 2) (bit table 6)) }
    ensures by_both { IsPlane result.by_both (λ p. differ (bit table 3) (bit table 7)) }
{
    Four {
        neither: entry_everywhere(table, 0) ^ entry_everywhere(table, 4),
        by_f: entry_everywhere(table, 1) ^ entry_everywhere(table, 5),
        by_b: entry_everywhere(table, 2) ^ entry_everywhere(table, 6),
        by_both: entry_everywhere(table, 3) ^ entry_everywhere(table, 7),
    }
}

/// One entry of a table in all sixteen processors.
#[inline(always)]
fn entry_everywhere(table: u8, place: u32) -> Plane
    requires { place < 8 }
    ensures value { IsPlane result (λ p. bit table place) }
{
    0u16.wrapping_sub(u16::from(table >> place & 1))
}

/// The word, changed by the difference where it is chosen.
fn changed(choice: Plane, word: Plane, difference: Plane) -> Plane
    ensures value { (p : ℕ) → bit result p ≡ differ (bit word p) (bit choice p && bit difference p) }
{
    word ^ (choice & difference)
}

/// At each bit that one of the four planes which `b` and `f` choose.
fn chosen(four: Four, b: Plane, f: Plane) -> Plane
    ensures value { (p : ℕ) → bit result p
        ≡ chosen_of_four (bit b p) (bit f p)
        (bit four.neither p) (bit four.by_f p) (bit four.by_b p) (bit four.by_both p) }
{
    let by_f = four.neither ^ four.by_f;
    let without = changed(f, four.neither, by_f);
    let difference = changed(
        f,
        four.neither ^ four.by_b,
        by_f ^ (four.by_b ^ four.by_both),
    );
    changed(b, without, difference)
}
