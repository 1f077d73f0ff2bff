//! The same lookup over several planes at once.

ghost use Rattle.std.specs.Prelude.{◌≡◌, ℕ, ◌<◌, ◌&&◌, length, slice_index};
ghost use Rattle.cm_bits.specs.Bit.{bit, differ};
ghost use Rattle.cm_model.specs.Chip.{IsPlane};
ghost use Rattle.cm_model.specs.Processor.{entry};
ghost use Rattle.cm_truth.specs.Choice.{chosen_of_four};

use crate::{Four, changes, low_entries};
use std::simd::prelude::*;

/// The output of a truth table in each processor of several chips: lane k is that of chip k.
///
/// With a table that is known when it is compiled, only what the table needs is left of it.
#[inline(always)]
pub fn apply_lanes<const L: usize>(
    table: u8,
    a: Simd<u16, L>,
    b: Simd<u16, L>,
    f: Simd<u16, L>,
) -> Simd<u16, L>
    requires a { length a ≡ L }
    requires b { length b ≡ L }
    requires f { length f ≡ L }
    ensures count { length result ≡ L }
    ensures value { (k : ℕ) → k < L → IsPlane (slice_index result k)
        (λ p. entry table (bit (slice_index a.entry k) p) (bit (slice_index b.entry k) p)
        (bit (slice_index f.entry k) p)) }
{
    changed_lanes(
        a,
        chosen_lanes(low_entries(table), b, f),
        chosen_lanes(changes(table), b, f),
    )
}

/// The words, changed by the differences where they are chosen.
#[inline(always)]
fn changed_lanes<const L: usize>(
    choice: Simd<u16, L>,
    word: Simd<u16, L>,
    difference: Simd<u16, L>,
) -> Simd<u16, L>
    requires choice { length choice ≡ L }
    requires word { length word ≡ L }
    requires difference { length difference ≡ L }
    ensures count { length result ≡ L }
    ensures value { (k : ℕ) → k < L → (p : ℕ) → bit (slice_index result k) p
        ≡ differ (bit (slice_index word.entry k) p)
        (bit (slice_index choice.entry k) p && bit (slice_index difference.entry k) p) }
{
    word ^ (choice & difference)
}

/// At each bit that one of the four planes which `b` and `f` choose.
#[inline(always)]
fn chosen_lanes<const L: usize>(four: Four, b: Simd<u16, L>, f: Simd<u16, L>) -> Simd<u16, L>
    requires b { length b ≡ L }
    requires f { length f ≡ L }
    ensures count { length result ≡ L }
    ensures value { (k : ℕ) → k < L → (p : ℕ) → bit (slice_index result k) p
        ≡ chosen_of_four (bit (slice_index b.entry k) p) (bit (slice_index f.entry k) p)
        (bit four.neither p) (bit four.by_f p) (bit four.by_b p) (bit four.by_both p) }
{
    let by_f = four.neither ^ four.by_f;
    let without = changed_lanes(
        f,
        Simd::<u16, L>::splat(four.neither),
        Simd::<u16, L>::splat(by_f),
    );
    let difference = changed_lanes(
        f,
        Simd::<u16, L>::splat(four.neither ^ four.by_b),
        Simd::<u16, L>::splat(by_f ^ (four.by_b ^ four.by_both)),
    );
    changed_lanes(b, without, difference)
}
