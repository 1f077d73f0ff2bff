//! Numbers that are drawn.

ghost use Rattle.std.specs.Prelude.{◌≡◌, ◌<◌, ◌^◌};
ghost use Rattle.lab_fresh.specs.Draws.{draw_of};

/// What the state moves on by.
const STRIDE: u64 = 0x9e37_79b9_7f4a_7c15;

const FIRST_FACTOR: u64 = 0xbf58_476d_1ce4_e5b9;

const SECOND_FACTOR: u64 = 0x94d0_49bb_1331_11eb;

/// The draw of this number, from 0 on, of a seed: SplitMix64 of Steele, Lea and Flood, 2014.
#[tactic(auto, unfolding(crate::specs::Draws::draw_of))]
pub fn draw(seed: u64, number: u64) -> u64
    requires early { number < 2 ^ 63 }
    ensures value { result ≡ draw_of seed number }
{
    let state = seed.wrapping_add((number + 1).wrapping_mul(STRIDE));
    let first = (state ^ state >> 30).wrapping_mul(FIRST_FACTOR);
    let second = (first ^ first >> 27).wrapping_mul(SECOND_FACTOR);
    second ^ second >> 31
}
