//! What the routers of a machine hold.

ghost use Rattle.std.specs.Prelude.{◌≡◌, ◌++◌, IfOk, OnOk, map};
ghost use Rattle.lab_study.specs.Holdings.{held, holdings, same_holdings, event_count};

use cm_bits::NoMemory;
use cm_model::Message;
use lab_machine::LabMachine;
use std::alloc::Global;

/// A message in the router of a chip.
#[derive(Clone, Copy, Debug, PartialEq, Eq)]
pub(crate) struct Held {
    pub(crate) chip: u16,
    pub(crate) message: Message,
}

/// What all routers hold, chip after chip, each router's messages in order of arrival.
#[tactic(auto, unfolding(crate::specs::Holdings::holdings))]
pub(crate) fn holdings(alloc: Global, machine: &LabMachine) -> Result<Vec<Held>, NoMemory>
    ensures value { IfOk result (λ all. all.items ≡ holdings machine.now.n machine.now.machine) }
{
    let mut all = Vec::new(alloc);
    for chip in 0..machine.chips() {
        push_held(&mut all, chip, machine.buffer(chip))?;
    }
    Ok(all)
}

fn push_held(all: &mut Vec<Held>, chip: u16, messages: &[Message]) -> Result<(), NoMemory>
    ensures ok { OnOk result (all.new.items ≡ all.old.items ++ map (held chip) messages.now) }
{
    for message in messages {
        let held = Held {
            chip,
            message: *message,
        };
        let Ok(()) = all.push(held) else {
            return Err(NoMemory);
        };
    }
    Ok(())
}

/// Whether it is the same.
pub(crate) fn are_same_holdings(left: &[Held], right: &[Held]) -> bool
    ensures value { result ≡ same_holdings left.now right.now }
{
    left == right
}

/// How many events all logs have.
pub(crate) fn event_count(machine: &LabMachine) -> u128
    ensures value { result ≡ event_count machine.now.n machine.now.machine }
{
    let mut count = 0;
    for chip in 0..machine.chips() {
        count += machine.log(chip).len() as u128;
    }
    count
}
