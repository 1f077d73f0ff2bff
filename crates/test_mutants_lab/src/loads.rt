//! Calls of lab_load.

ghost use Rattle.std.specs.Prelude.{◌≡◌, ◌≢◌, ◌∷◌, [], ◌≤◌, None, Some, MatchOption, IfOk, IfErr, IfSome, IsErrOf};
ghost use Rattle.cm_model.specs.Keeping.{AreSizes};
ghost use Rattle.std.specs.List.{find};
ghost use Rattle.lab_fresh.specs.Fresh.{is_stray};
ghost use Rattle.lab_load.specs.Tables.{loads_table};
ghost use Rattle.lab_load.specs.Trials.{trial_fault, AreFiguresOf};

use cm_bits::NoMemory;
use lab_fresh::WireEnd;
use lab_load::{Figures, LoadFault, Trial};
use std::alloc::Global;

/// What `fault` of `lab_load::Trial` promises, word for word.
pub fn fault(trial: &Trial, cuts: &[WireEnd], rates: &[u16]) -> Option<LoadFault>
    ensures value { result ≡ trial_fault trial.now cuts.now rates.now }
    ensures sizes { MatchOption result (AreSizes trial.now.n trial.now.room) (λ fault. Unit {0}) }
    ensures wires { MatchOption result (find (is_stray trial.now.n) cuts.now ≡ None) (λ fault. Unit {0}) }
    ensures few { MatchOption result (trial.now.cycles ≤ 1000000) (λ fault. Unit {0}) }
    ensures skip { MatchOption result (trial.now.skip ≤ trial.now.cycles) (λ fault. Unit {0}) }
    ensures seeds { MatchOption result (trial.now.seeds ≤ 1000) (λ fault. Unit {0}) }
{
    trial.fault(cuts, rates)
}

/// What `figures` of `lab_load::Trial` promises, word for word.
pub fn figures(
    trial: &Trial,
    alloc: Global,
    targets: &[u64],
    cuts: &[WireEnd],
    rate: u16,
) -> Result<Figures, LoadFault>
    ensures value { IfOk result (λ figures. AreFiguresOf trial.now targets.now cuts.now rate figures) }
    ensures accepted { IfOk result (λ figures. trial_fault trial.now cuts.now (rate ∷ []) ≡ None) }
    ensures refused { IfErr result (λ fault. fault ≢ LoadFault.Memory
        → trial_fault trial.now cuts.now (rate ∷ []) ≡ Some fault) }
    ensures trial { IfSome (trial_fault trial.now cuts.now (rate ∷ [])) (λ fault. IsErrOf result fault) }
{
    trial.figures(alloc, targets, cuts, rate)
}

/// What `lab_load::table` promises, word for word.
pub fn table(alloc: Global, loads: &[Figures]) -> Result<Vec<u8>, NoMemory>
    ensures value { IfOk result (λ text. text.items ≡ loads_table loads.now) }
{
    lab_load::table(alloc, loads)
}
