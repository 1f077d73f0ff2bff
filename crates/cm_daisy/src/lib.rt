//! The daisy chain: each processor of a chip gets the bit of the one before it.
#![tactic(auto)]

ghost use Rattle.std.specs.Prelude.{◌≡◌, ℕ, ◌<◌, length, slice_index};
ghost use Rattle.cm_model.specs.Chip.{IsPlane, plane_bit};
ghost use Rattle.cm_model.specs.Place.{predecessor};

use cm_bits::Plane;
use std::simd::prelude::*;

/// What comes in over a chip's chain when each of its processors sends its bit of the plane (Hillis 1985).
pub fn previous(plane: Plane) -> Plane
    ensures value { IsPlane result (λ p. plane_bit plane (predecessor p)) }
{
    plane << 1
}

/// The same at each of several chips: lane k is the plane of chip k.
#[inline(always)]
pub fn previous_lanes<const L: usize>(planes: Simd<u16, L>) -> Simd<u16, L>
    requires planes { length planes ≡ L }
    ensures count { length result ≡ L }
    ensures value { (k : ℕ) → k < L
        → IsPlane (slice_index result k) (λ p. plane_bit (slice_index planes.entry k) (predecessor p)) }
{
    // A shift by one place: the sum of a lane with itself, without its carry.
    planes + planes
}
