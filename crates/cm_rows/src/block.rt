//! Several words at once, and one.
//!
//! All of this is inlined into the loops: there the tables are known, and what they do not need goes away.

ghost use Rattle.std.specs.Prelude.{◌≡◌, ℕ, ◌+◌, ◌<◌, ◌≤◌, Bool, cond, length, slice_index};
ghost use Rattle.cm_bits.specs.Bit.{bit};
ghost use Rattle.cm_model.specs.Chip.{IsPlane};
ghost use Rattle.cm_rows.specs.Rows.{stores, plane_output, IsChosenOrOld};

use cm_bits::Plane;
use cm_daisy::{previous, previous_lanes};
use cm_truth::{apply_alone, apply_lanes};
use std::simd::prelude::*;

/// Some words of a row, from a place on.
#[inline(always)]
pub(crate) fn load<const L: usize>(words: &[Plane], at: usize) -> Simd<u16, L>
    requires within { at + L ≤ length words.now }
    ensures count { length result ≡ L }
    ensures value { (k : ℕ) → k < L → slice_index result k ≡ slice_index words.now (at + k) }
{
    Simd::<u16, L>::from_slice(&words[at..at + L])
}

/// Puts words into a row, from a place on.
#[inline(always)]
pub(crate) fn put<const L: usize>(words: &mut [Plane], at: usize, lanes: Simd<u16, L>)
    requires within { at + L ≤ length words.old }
    requires lanes { length lanes ≡ L }
    ensures value { (k : ℕ) → k < L → slice_index words.new (at + k) ≡ slice_index lanes.entry k }
    ensures below { (i : ℕ) → i < at → slice_index words.new i ≡ slice_index words.old i }
    ensures above { (i : ℕ) → at + L ≤ i → slice_index words.new i ≡ slice_index words.old i }
{
    lanes.copy_to_slice(&mut words[at..at + L]);
}

/// The outputs of a table where the instruction stores, else what was there, in several words.
#[inline(always)]
pub(crate) fn kept_lanes<const L: usize>(
    table: u8,
    chained: bool,
    choice: Simd<u16, L>,
    a: Simd<u16, L>,
    b: Simd<u16, L>,
    f: Simd<u16, L>,
    old: Simd<u16, L>,
) -> Simd<u16, L>
    requires choice { length choice ≡ L }
    requires a { length a ≡ L }
    requires b { length b ≡ L }
    requires f { length f ≡ L }
    requires old { length old ≡ L }
    ensures count { length result ≡ L }
    ensures value { (k : ℕ) → k < L
        → IsChosenOrOld table chained (bit (slice_index choice.entry k)) (slice_index a.entry k) (slice_index b.entry k)
        (slice_index f.entry k) (slice_index old.entry k) (slice_index result k) }
{
    let output = output_lanes(table, chained, a, b, f);
    old ^ (choice & (old ^ output))
}

/// What the processors of several words are to store: the outputs of a table, each processor's
/// own, or where they go along the chain that of the one before it.
#[inline(always)]
fn output_lanes<const L: usize>(
    table: u8,
    chained: bool,
    a: Simd<u16, L>,
    b: Simd<u16, L>,
    f: Simd<u16, L>,
) -> Simd<u16, L>
    requires a { length a ≡ L }
    requires b { length b ≡ L }
    requires f { length f ≡ L }
    ensures count { length result ≡ L }
    ensures value { (k : ℕ) → k < L → IsPlane (slice_index result k)
        (plane_output table chained (slice_index a.entry k) (slice_index b.entry k) (slice_index f.entry k)) }
{
    let own = apply_lanes(table, a, b, f);
    if chained { previous_lanes(own) } else { own }
}

/// Where an instruction stores, in several words of its condition flag.
#[inline(always)]
pub(crate) fn choice_lanes<const L: usize>(
    always: bool,
    sense: bool,
    condition: Simd<u16, L>,
) -> Simd<u16, L>
    requires condition { length condition ≡ L }
    ensures count { length result ≡ L }
    ensures value { (k : ℕ) → k < L → IsPlane (slice_index result k)
        (λ p. stores always sense (bit (slice_index condition.entry k) p)) }
{
    if always {
        Simd::<u16, L>::splat(Plane::MAX)
    } else {
        condition ^ Simd::<u16, L>::splat(turned(sense))
    }
}

/// Where an instruction stores, in one word of its condition flag.
#[inline(always)]
pub(crate) fn choice_of(always: bool, sense: bool, condition: Plane) -> Plane
    ensures value { IsPlane result (λ p. stores always sense (bit condition p)) }
{
    if always {
        Plane::MAX
    } else {
        condition ^ turned(sense)
    }
}

/// What turns the bits of a condition flag where 0 is asked for.
#[inline(always)]
fn turned(sense: bool) -> Plane
    ensures value { result ≡ cond sense 0 65535 }
{
    if sense { 0 } else { Plane::MAX }
}

/// The output of a table where the instruction stores, else what was there, in one word.
#[inline(always)]
pub(crate) fn kept(
    table: u8,
    chained: bool,
    choice: Plane,
    a: Plane,
    b: Plane,
    f: Plane,
    old: Plane,
) -> Plane
    ensures value { IsChosenOrOld table chained (bit choice) a b f old result }
{
    old ^ (choice & (old ^ output(table, chained, a, b, f)))
}

/// What the processors of one word are to store.
#[inline(always)]
fn output(table: u8, chained: bool, a: Plane, b: Plane, f: Plane) -> Plane
    ensures value { IsPlane result (plane_output table chained a b f) }
{
    let own = apply_alone(table, a, b, f);
    if chained { previous(own) } else { own }
}
