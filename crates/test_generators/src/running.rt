//! Runners beside the plain one.

ghost use Rattle.std.specs.Prelude.{◌≡◌, ◌^◌};

use crate::four_messages::{four_messages_each, has_one_of_four};
use crate::looking::are_same;
use cm_array::{Fixed, Machine, Plain, RunFault, Runner};
use cm_model::Act;
use std::alloc::Global;

/// With what fault a runner refuses the acts, and whether it leaves the machine as the plain one does, or else as it
/// was. None where memory is wanting beside it.
pub fn run_beside_plain<const N: usize, const CAP: usize, X: Runner<Fixed<N, CAP>>>(
    runner: &mut X,
    alloc: Global,
    machine: &mut Machine<N, CAP>,
    acts: &[Act],
    chips: u16,
) -> Option<(Option<RunFault>, bool)>
    requires cube { chips ≡ 2 ^ N }
    requires runner { X.ready }
{
    let mut wanted = machine.copy(alloc).ok()?;
    run_both(runner, alloc, machine, &mut wanted, acts, chips)
}

/// The same, beside a machine of the same state. Events are dealt out before many chips are compared, where memory is
/// not wanting.
fn run_both<const N: usize, const CAP: usize, X: Runner<Fixed<N, CAP>>>(
    runner: &mut X,
    alloc: Global,
    machine: &mut Machine<N, CAP>,
    wanted: &mut Machine<N, CAP>,
    acts: &[Act],
    chips: u16,
) -> Option<(Option<RunFault>, bool)>
    requires cube { chips ≡ 2 ^ N }
    requires runner { X.ready }
{
    let refused = runner.go(machine, acts).err();
    if refused.is_none() {
        Plain.go(wanted, acts).ok()?;
    }
    let _ = (machine.deal_out(), wanted.deal_out());
    Some((refused, are_same(alloc, machine, wanted, chips)))
}

/// Whether a runner takes a blank machine of sixteen chips through the program of four messages of each; or else leaves
/// it as it was, want of memory or of a thread being told, and takes it through when it is asked again. None where
/// memory is wanting beside it.
pub fn sends_or_stays<X: Runner<Fixed<4, 7>>>(runner: &mut X, alloc: Global) -> Option<bool>
    requires runner { X.ready }
{
    let acts = four_messages_each(alloc).ok()?;
    let mut machine = Machine::<4, 7>::blank(alloc).ok()?;
    goes_or_stays(runner, alloc, &mut machine, &acts)
}

/// The same of a machine that is blank, and the acts of this program.
fn goes_or_stays<X: Runner<Fixed<4, 7>>>(
    runner: &mut X,
    alloc: Global,
    machine: &mut Machine<4, 7>,
    acts: &[Act],
) -> Option<bool>
    requires runner { X.ready }
{
    let (refused, is_right) = run_beside_plain(runner, alloc, machine, acts, 16)?;
    let went = match refused {
        None => Some((None, is_right)),
        Some(RunFault::Memory | RunFault::NoThread) if is_right => {
            run_beside_plain(runner, alloc, machine, acts, 16)
        }
        Some(_) => None,
    };
    Some(went == Some((None, true)) && has_one_of_four(alloc, machine))
}
