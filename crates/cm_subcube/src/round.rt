//! The rounds of a run.

ghost use Rattle.std.specs.Prelude.{◌≡◌, ◌+◌, ◌-◌, ◌≤◌, ◌++◌, ◌∷◌, [], IfOk, OnOk, map};
ghost use Rattle.std.specs.List.{range_with_len};
ghost use Rattle.cm_model.specs.Processor.{NEWS};
ghost use Rattle.cm_subcube.specs.Rounds.{rounds_of, rounds_from, crossing_at, exchanges};

use cm_bits::{Dir, FlagNo, NoMemory};
use cm_model::{Act, Nano};
use std::alloc::Global;

/// Over what blocks exchange in a round (ours).
#[derive(Clone, Copy)]
pub enum Kind {
    /// The NEWS grid, from each block to the one north of it.
    North,
    /// The NEWS grid, from each block to the one south of it.
    South,
    /// A dimension of the cube.
    Dim(u8),
}

/// A step of a run at which blocks exchange.
#[derive(Clone, Copy)]
pub struct Round {
    /// The place of its act among those of the run.
    pub at: usize,
    pub act: Act,
    pub kind: Kind,
}

/// The rounds of a run of a cube of so many dimensions that is cut into 2^`k` blocks.
pub fn rounds(alloc: Global, dims: u8, acts: &[Act], k: u8) -> Result<Vec<Round>, NoMemory>
    requires dimension { dims ≤ 12 }
    requires within { k ≤ dims }
    ensures value { IfOk result (λ rounds. rounds.items ≡ rounds_of dims k acts.now) }
{
    let mut rounds = Vec::new(alloc);
    for (at, act) in acts.iter().enumerate() {
        add_rounds(&mut rounds, dims, k, at, act)?;
    }
    Ok(rounds)
}

/// Adds those of one act.
fn add_rounds(
    rounds: &mut Vec<Round>,
    dims: u8,
    k: u8,
    at: usize,
    act: &Act,
) -> Result<(), NoMemory>
    requires within { k ≤ dims }
    ensures ok { OnOk result (rounds.new.items ≡ rounds.old.items ++ rounds_from dims k at (act.now ∷ [])) }
{
    match act {
        Act::Nano(nano) => add_exchange(rounds, k, at, nano),
        Act::Sense => Ok(()),
        Act::Cycle => add_crossings(rounds, dims, k, at),
    }
}

/// Adds that of an instruction, if blocks exchange at it.
fn add_exchange(rounds: &mut Vec<Round>, k: u8, at: usize, nano: &Nano) -> Result<(), NoMemory>
    ensures ok { OnOk result (rounds.new.items ≡ rounds.old.items ++ exchanges k at nano.now) }
{
    if k == 0 || nano.write != FlagNo::NEWS {
        return Ok(());
    }
    let kind = match nano.dir {
        Dir::North => Kind::North,
        Dir::South => Kind::South,
        Dir::East => return Ok(()),
        Dir::West => return Ok(()),
    };
    add(rounds, at, Act::Nano(*nano), kind)
}

/// Adds those of a petit cycle: one for each of the last `k` dimensions.
fn add_crossings(rounds: &mut Vec<Round>, dims: u8, k: u8, at: usize) -> Result<(), NoMemory>
    requires within { k ≤ dims }
    ensures ok { OnOk result (rounds.new.items
        ≡ rounds.old.items ++ map (crossing_at at) (range_with_len (dims - k) k)) }
{
    for dim in dims - k..dims {
        add(rounds, at, Act::Cycle, Kind::Dim(dim))?;
    }
    Ok(())
}

fn add(rounds: &mut Vec<Round>, at: usize, act: Act, kind: Kind) -> Result<(), NoMemory>
    ensures ok { OnOk result (rounds.new.items ≡ rounds.old.items ++ record { at = at; act = act; kind = kind } ∷ []) }
{
    rounds.reserve(1)?;
    rounds.push_reserved(Round { at, act, kind });
    Ok(())
}
