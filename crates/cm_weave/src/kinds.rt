//! Kinds of rounds by number, and the lane that a step moves.

ghost use Rattle.std.specs.Prelude.{◌≡◌, ◌+◌, ◌^◌, ◌<◌, ◌≤◌};
ghost use Rattle.cm_exchange.specs.Lanes.{giver};
ghost use Rattle.cm_exchange.specs.Worlds.{lane_number};
ghost use Rattle.cm_exchange.specs.Steps.{block_of};
ghost use Rattle.cm_subcube.specs.Parcels.{CanBeOver};
ghost use Rattle.cm_weave.specs.Kinds.{round_kind_number, kind_numbered, mover};

use cm_exchange::Step;
use cm_subcube::Kind;

/// The place among all lanes of the one that a step moves, in a round of a kind.
pub(crate) fn lane_moved(dims: u8, k: u8, step: Step, kind: Kind) -> usize
    requires dimension { dims ≤ 12 }
    requires within { k ≤ dims }
    requires block { block_of step < 2 ^ k }
    requires kind { CanBeOver dims k kind }
    ensures value { result
        ≡ lane_number k (round_kind_number dims k kind) (mover k (round_kind_number dims k kind) step) }
{
    let number = number_of(dims, k, kind);
    let b = step.block();
    let sender = match step {
        Step::Grip(_b) | Step::File(_b) => b,
        Step::Draw(_b) | Step::Clear(_b) => from_whom(k, number, b),
    };
    usize::from(number) * (1 << k) + usize::from(sender)
}

/// The number of a kind of rounds: NEWS northward, NEWS southward, then each of the last `k` dimensions.
fn number_of(dims: u8, k: u8, kind: Kind) -> u8
    requires within { k ≤ dims }
    requires few { dims ≤ 12 }
    requires kind { CanBeOver dims k kind }
    ensures within { result < k + 2 }
    ensures value { result ≡ round_kind_number dims k kind }
{
    match kind {
        Kind::North => 0,
        Kind::South => 1,
        Kind::Dim(dim) => 2 + (dim - (dims - k)),
    }
}

/// The kind of that number.
pub(crate) fn kind_numbered(dims: u8, k: u8, number: usize) -> Kind
    requires within { k ≤ dims }
    requires few { dims ≤ 12 }
    requires number { number < k + 2 }
    ensures value { result ≡ kind_numbered dims k number }
{
    match number {
        0 => Kind::North,
        1 => Kind::South,
        _ => Kind::Dim(dims - k + (number as u8 - 2)),
    }
}

/// The block from which block `b` gets, in a round of the kind of that number.
fn from_whom(k: u8, number: u8, b: u16) -> u16
    requires few { k ≤ 12 }
    requires kind { number < k + 2 }
    requires block { b < 2 ^ k }
    ensures value { result ≡ giver k number b }
{
    let count: u16 = 1 << k;
    match number {
        0 => (b + 1) % count,
        1 => (b + count - 1) % count,
        _ => b ^ (1 << (number - 2)),
    }
}

/// How many blocks there are.
pub(crate) fn block_count(k: u8) -> u16
    requires few { k ≤ 12 }
    ensures value { result ≡ 2 ^ k }
{
    1 << k
}
