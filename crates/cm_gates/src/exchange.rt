//! What blocks exchange in a round.

ghost use Rattle.std.specs.Prelude.{◌≡◌, ℕ, ◌-◌, ◌^◌, ◌<◌, ◌≤◌, length, get_or, bit_xor};
ghost use Rattle.cm_gates.specs.Handing.{AreHandedOver, IsBitBelow};
ghost use Rattle.cm_subcube.specs.Parcels.{CanBeOver};

use cm_subcube::Kind;

/// Gives each of 2^`k` blocks of a cube of so many dimensions the thing of the block that sends to it in a round of
/// this kind: a parcel, or the end of a lane. The things are in the order of the blocks' numbers.
pub fn hand_over<T: Drop>(things: &mut [T], dims: u8, k: u8, kind: Kind)
    requires dimension { dims ≤ 12 }
    requires within { k ≤ dims }
    requires kind { CanBeOver dims k kind }
    requires blocks { length things.old ≡ 2 ^ k }
    ensures value { AreHandedOver dims k kind things.old things.new }
{
    match kind {
        Kind::North => things.rotate_left(1),
        Kind::South => things.rotate_right(1),
        Kind::Dim(dim) => swap_across(things, 1 << (dim - (dims - k))),
    }
}

/// Each changes places with the one whose number differs in one bit.
fn swap_across<T: Drop>(things: &mut [T], bit: usize)
    requires bit { IsBitBelow bit (length things.old) }
    ensures len { length things.new ≡ length things.old }
    ensures value { (b : ℕ) (d : _) → b < length things.old
        → get_or things.new b d ≡ get_or things.old (bit_xor b bit) d }
{
    for b in 0..things.len() {
        let across = b ^ bit;
        if b < across {
            things.swap(b, across);
        }
    }
}
