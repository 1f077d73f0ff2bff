//! Which lists of acts are not worth sharing out.

ghost use Rattle.std.specs.Prelude.{◌<◌};

use crate::lanes::power_of_two;
use cm_array::{MachineOf, Sizes};
use cm_bits::{Addr, FlagNo};
use cm_model::Act;

/// So many acts go through 4,096 chips before these are cut into blocks and put together again, without their memory.
const CUT: usize = 512;

/// So many before one row of memory is.
const ROW: usize = 3;

/// So many before the parcels of a round are filled and taken in.
const PARCELS: usize = 40;

/// As many go through them in a petit cycle for each message that a router has room for.
const MESSAGE: usize = 64;

/// So many before threads are started and joined, however many chips there are.
const START: usize = 128;

/// So many before the parcels of a round have changed hands.
const ROUND: usize = 6;

/// Whether one thread runs a list before it was shared out among so many workers and its blocks came through so many
/// rounds. It has so many petit cycles.
pub(crate) fn is_soon_done<S: Sizes>(
    machine: &MachineOf<S>,
    acts: &[Act],
    workers: u16,
    rounds: usize,
    cycles: usize,
) -> bool
    requires some { 0 < workers }
{
    let cycle = MESSAGE.saturating_mul(usize::from(machine.room()));
    let alone = cycles.saturating_mul(cycle).saturating_add(acts.len());
    let spared = alone - alone / usize::from(workers);
    let cut = CUT.saturating_add(rounds.saturating_mul(PARCELS));
    let shared = START.saturating_add(rounds.saturating_mul(ROUND));
    let smaller = 12 - machine.dims();
    spared.saturating_sub(cut) >> smaller <= shared
        || spared.saturating_sub(cut.saturating_add(ROW.saturating_mul(rows_in_use(machine))))
            >> smaller
            <= shared
        || has_no_instruction(acts) && is_at_rest(machine)
}

/// How many rows of memory a machine has.
fn rows_in_use<S: Sizes>(machine: &MachineOf<S>) -> usize {
    let mut rows = 0usize;
    for at in 0u16..4096 {
        if machine.is_in_use(Addr::new(at).unwrap()) {
            rows = rows.saturating_add(1);
        }
    }
    rows
}

fn has_no_instruction(acts: &[Act]) -> bool {
    !acts.iter().any(|act| matches!(act, Act::Nano(_)))
}

/// Whether no message is under way, and nothing is asked to be sent: a petit cycle does next to nothing then.
fn is_at_rest<S: Sizes>(machine: &MachineOf<S>) -> bool {
    for chip in 0..power_of_two(machine.dims()) {
        if !machine.buffer(chip).is_empty() || machine.chip(chip).has_flag(FlagNo::SEND) {
            return false;
        }
    }
    true
}
