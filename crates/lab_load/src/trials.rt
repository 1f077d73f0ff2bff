//! Loads as they are asked for, and which there are.

ghost use Rattle.std.specs.Prelude.{◌≡◌, ◌≢◌, ℕ, ◌∷◌, [], ◌++◌, ◌<◌, ◌≤◌, None, Some, MatchOption, IfOk, IfErr, OnOk};
ghost use Rattle.std.specs.Prelude.{IfSome, IsErrOf, get_or, length, nat_lt};
ghost use Rattle.std.specs.List.{find};
ghost use Rattle.cm_model.specs.Keeping.{AreSizes};
ghost use Rattle.cm_router.specs.Routes.{routing_of};
ghost use Rattle.lab_fresh.specs.Fresh.{is_stray};
ghost use Rattle.lab_load.specs.declared.figures.Figures.{Figures};
ghost use Rattle.lab_load.specs.Spreads.{seeded, AreSpreadsOf};
ghost use Rattle.lab_load.specs.Trials.{is_counted, is_plain, trial_fault, trial_routing, IsLoadOf};
ghost use Rattle.lab_load.specs.Trials.{AreFiguresOf, AreLatenciesOf, AreChipsOf};

use crate::figures::{Figures, Period, measure, measure_chips, measure_latencies};
use crate::latencies::Latencies;
use crate::offers::{Load, Pattern};
use crate::spreads::{Spreads, spreads_of};
use cm_bits::NoMemory;
use cm_router::Routing;
use lab_counts::ChipCrossings;
use lab_fresh::{WireEnd, routing_with, rule_of, stray};
use std::alloc::Global;
use thiserror::Error;

/// Loads of one pattern on a blank machine.
#[derive(Clone, Copy, Debug, PartialEq, Eq)]
pub struct Trial {
    /// Of how many dimensions its cube is.
    pub n: u16,
    /// For how many messages each router has room.
    pub room: u16,
    /// The number of the rule by which routers choose: 0 or 1.
    pub rule: u16,
    pub pattern: Pattern,
    /// Of a hundred messages so many go to a place that is drawn, whatever the pattern.
    pub background: u16,
    /// In so many first petit cycles something is offered.
    pub until: u32,
    pub seed: u64,
    /// For so many petit cycles.
    pub cycles: u32,
    /// Of these so many first ones are left out of what is told.
    pub skip: u32,
    /// Of so many seeds, from its own on, means and intervals are told; of 1 the figures.
    pub seeds: u16,
    pub table: LoadTable,
}

/// Which table is told of loads.
#[derive(Clone, Copy, Debug, PartialEq, Eq)]
pub enum LoadTable {
    /// A line for each load.
    Plain,
    /// The same with columns for what is counted.
    Crossings,
    /// A line for each dimension.
    Dimensions,
    /// A line for each chip.
    Chips,
    /// A line for each number of petit cycles that a message took.
    Latencies,
}

impl LoadTable {
    /// Whether it is the plain one.
    fn is_plain(self) -> bool
        ensures value { result ≡ is_plain self }
    {
        matches!(self, LoadTable::Plain)
    }

    /// Whether it tells what is counted beside.
    fn is_counted(self) -> bool
        ensures value { result ≡ is_counted self }
    {
        matches!(
            self,
            LoadTable::Crossings | LoadTable::Dimensions | LoadTable::Chips
        )
    }
}

/// Why there is no such load.
#[derive(Clone, Copy, Debug, PartialEq, Eq, Error)]
pub enum LoadFault {
    #[error("a cube has 0 to 12 dimensions, not {0}")]
    Dimension(u16),
    #[error("a router has room for 1 to 15 messages, not {0}")]
    Room(u16),
    /// A wire that the cube has not.
    #[error("chip {chip} and dimension {dim} name no wire: chips have numbers below 2^{n}, dimensions below {n}")]
    Wire { n: u16, chip: u16, dim: u16 },
    #[error("a chip offers at most 1600 hundredths of a message in a petit cycle, not {0}")]
    Rate(u16),
    #[error("a load has 1 to 1000000 petit cycles, not {0}")]
    Cycles(u32),
    /// More petit cycles are to be left out than the load has, or all.
    #[error("a load leaves out fewer petit cycles than it has, not {0} of {1}")]
    Skip(u32, u32),
    #[error("a load has 1 to 1000 seeds, not {0}")]
    Seeds(u16),
    #[error("the rules are 0 and 1, not {0}")]
    Rule(u16),
    #[error("of a hundred messages 0 to 100 go to a place that is drawn, not {0}")]
    Background(u16),
    /// A table that is of one seed.
    #[error("with --table a load has one seed, not {0}")]
    Table(u16),
    #[error("out of memory")]
    Memory,
}

impl Trial {
    /// The first fault of it, of cut wires, and of rates, which are hundredths of a message that a chip offers in a
    /// petit cycle.
    pub fn fault(&self, cuts: &[WireEnd], rates: &[u16]) -> Option<LoadFault>
        ensures value { result ≡ trial_fault self.now cuts.now rates.now }
        ensures sizes { MatchOption result (AreSizes self.now.n self.now.room) (λ fault. Unit {0}) }
        ensures wires { MatchOption result (find (is_stray self.now.n) cuts.now ≡ None) (λ fault. Unit {0}) }
        ensures few { MatchOption result (self.now.cycles ≤ 1000000) (λ fault. Unit {0}) }
        ensures skip { MatchOption result (self.now.skip ≤ self.now.cycles) (λ fault. Unit {0}) }
        ensures seeds { MatchOption result (self.now.seeds ≤ 1000) (λ fault. Unit {0}) }
    {
        if self.n > 12 {
            return Some(LoadFault::Dimension(self.n));
        }
        if self.room == 0 || self.room > 15 {
            return Some(LoadFault::Room(self.room));
        }
        match stray(self.n, cuts) {
            Some(end) => {
                return Some(LoadFault::Wire {
                    n: self.n,
                    chip: end.chip,
                    dim: end.dim,
                });
            }
            None => {}
        }
        match too_high(rates) {
            Some(rate) => return Some(LoadFault::Rate(rate)),
            None => {}
        }
        if self.cycles == 0 || self.cycles > 1000000 {
            return Some(LoadFault::Cycles(self.cycles));
        }
        if self.skip >= self.cycles {
            return Some(LoadFault::Skip(self.skip, self.cycles));
        }
        if self.seeds == 0 || self.seeds > 1000 {
            return Some(LoadFault::Seeds(self.seeds));
        }
        if self.rule > 1 {
            return Some(LoadFault::Rule(self.rule));
        }
        if self.background > 100 {
            return Some(LoadFault::Background(self.background));
        }
        if self.seeds > 1 && !self.table.is_plain() {
            return Some(LoadFault::Table(self.seeds));
        }
        None
    }

    /// The load of the seed that comes so many behind its own.
    pub fn seeded(self, k: u16) -> Trial
        ensures value { result ≡ seeded self k }
    {
        Trial {
            seed: self.seed.wrapping_add(u64::from(k)),
            ..self
        }
    }

    /// The numbers of its load at this rate, with these targets, on a machine of which the wires with these
    /// ends are cut.
    pub fn figures(
        &self,
        alloc: Global,
        targets: &[u64],
        cuts: &[WireEnd],
        rate: u16,
    ) -> Result<Figures, LoadFault>
        ensures value { IfOk result (λ figures. AreFiguresOf self.now targets.now cuts.now rate figures) }
        ensures accepted { IfOk result (λ figures. trial_fault self.now cuts.now (rate ∷ []) ≡ None) }
        ensures refused { IfErr result (λ fault. fault ≢ LoadFault.Memory
            → trial_fault self.now cuts.now (rate ∷ []) ≡ Some fault) }
        ensures trial { IfSome (trial_fault self.now cuts.now (rate ∷ [])) (λ fault. IsErrOf result fault) }
    {
        match self.fault(cuts, &[rate]) {
            Some(fault) => Err(fault),
            None => match self.measured(alloc, targets, cuts, rate) {
                Ok(figures) => Ok(figures),
                Err(_) => Err(LoadFault::Memory),
            },
        }
    }

    /// How many messages of its load at this rate took how long, on such a machine.
    pub fn latencies(
        &self,
        alloc: Global,
        targets: &[u64],
        cuts: &[WireEnd],
        rate: u16,
    ) -> Result<Latencies, LoadFault>
        ensures value { IfOk result (AreLatenciesOf self.now targets.now cuts.now rate) }
        ensures accepted { IfOk result (λ latencies. trial_fault self.now cuts.now (rate ∷ []) ≡ None) }
        ensures refused { IfErr result (λ fault. fault ≢ LoadFault.Memory
            → trial_fault self.now cuts.now (rate ∷ []) ≡ Some fault) }
        ensures trial { IfSome (trial_fault self.now cuts.now (rate ∷ [])) (λ fault. IsErrOf result fault) }
    {
        match self.fault(cuts, &[rate]) {
            Some(fault) => Err(fault),
            None => match self.measured_latencies(alloc, targets, cuts, rate) {
                Ok(latencies) => Ok(latencies),
                Err(_) => Err(LoadFault::Memory),
            },
        }
    }

    /// What messages did at each chip under its load at this rate, on such a machine.
    pub fn chips(
        &self,
        alloc: Global,
        targets: &[u64],
        cuts: &[WireEnd],
        rate: u16,
    ) -> Result<ChipCrossings, LoadFault>
        ensures value { IfOk result (AreChipsOf self.now targets.now cuts.now rate) }
        ensures accepted { IfOk result (λ chips. trial_fault self.now cuts.now (rate ∷ []) ≡ None) }
        ensures refused { IfErr result (λ fault. fault ≢ LoadFault.Memory
            → trial_fault self.now cuts.now (rate ∷ []) ≡ Some fault) }
        ensures trial { IfSome (trial_fault self.now cuts.now (rate ∷ [])) (λ fault. IsErrOf result fault) }
    {
        match self.fault(cuts, &[rate]) {
            Some(fault) => Err(fault),
            None => match self.measured_chips(alloc, targets, cuts, rate) {
                Ok(chips) => Ok(chips),
                Err(_) => Err(LoadFault::Memory),
            },
        }
    }

    /// The means and intervals of its loads of all seeds at this rate, on such a machine.
    pub fn spreads(
        &self,
        alloc: Global,
        targets: &[u64],
        cuts: &[WireEnd],
        rate: u16,
    ) -> Result<Spreads, LoadFault>
        requires some { 2 ≤ self.now.seeds }
        ensures value { IfOk result (AreSpreadsOf self.now targets.now cuts.now rate) }
        ensures accepted { IfOk result (λ spreads. trial_fault self.now cuts.now (rate ∷ []) ≡ None) }
        ensures refused { IfErr result (λ fault. fault ≢ LoadFault.Memory
            → trial_fault self.now cuts.now (rate ∷ []) ≡ Some fault) }
        ensures trial { IfSome (trial_fault self.now cuts.now (rate ∷ [])) (λ fault. IsErrOf result fault) }
    {
        match self.fault(cuts, &[rate]) {
            Some(fault) => Err(fault),
            None => match self.all_measured(alloc, targets, cuts, rate) {
                Ok(loads) => Ok(spreads_of(rate, &loads)),
                Err(_) => Err(LoadFault::Memory),
            },
        }
    }

    /// The numbers of its loads of all seeds, where all of it is in its range.
    fn all_measured(
        &self,
        alloc: Global,
        targets: &[u64],
        cuts: &[WireEnd],
        rate: u16,
    ) -> Result<Vec<Figures>, NoMemory>
        requires sizes { AreSizes self.now.n self.now.room }
        requires wires { find (is_stray self.now.n) cuts.now ≡ None }
        requires few { self.now.cycles ≤ 1000000 }
        requires skip { self.now.skip ≤ self.now.cycles }
        ensures count { IfOk result (λ loads. length loads.items ≡ self.now.seeds) }
        ensures each { IfOk result (λ loads. (k : ℕ) (d : Figures) → k < length loads.items
            → AreFiguresOf (seeded self.now k) targets.now cuts.now rate (get_or loads.items k d)) }
    {
        let mut loads = Vec::new(alloc);
        for k in 0..self.seeds {
            let figures = self.seeded(k).measured(alloc, targets, cuts, rate)?;
            push_load(&mut loads, figures)?;
        }
        Ok(loads)
    }

    /// The same, where all of it is in its range.
    fn measured(
        &self,
        alloc: Global,
        targets: &[u64],
        cuts: &[WireEnd],
        rate: u16,
    ) -> Result<Figures, NoMemory>
        requires sizes { AreSizes self.now.n self.now.room }
        requires wires { find (is_stray self.now.n) cuts.now ≡ None }
        requires few { self.now.cycles ≤ 1000000 }
        requires skip { self.now.skip ≤ self.now.cycles }
        ensures value { IfOk result (λ figures. AreFiguresOf self.now targets.now cuts.now rate figures) }
    {
        let load = self.load(alloc, targets, rate)?;
        let routing = self.routing(alloc, cuts)?;
        measure(alloc, self.room as u8, &routing, &load, self.period())
    }

    /// The same of how long messages took.
    fn measured_latencies(
        &self,
        alloc: Global,
        targets: &[u64],
        cuts: &[WireEnd],
        rate: u16,
    ) -> Result<Latencies, NoMemory>
        requires sizes { AreSizes self.now.n self.now.room }
        requires wires { find (is_stray self.now.n) cuts.now ≡ None }
        requires few { self.now.cycles ≤ 1000000 }
        requires skip { self.now.skip ≤ self.now.cycles }
        ensures value { IfOk result (AreLatenciesOf self.now targets.now cuts.now rate) }
    {
        let load = self.load(alloc, targets, rate)?;
        let routing = self.routing(alloc, cuts)?;
        let counts = measure_latencies(alloc, self.room as u8, &routing, &load, self.period())?;
        Ok(Latencies { rate, counts })
    }

    /// The same of what they did at each chip.
    fn measured_chips(
        &self,
        alloc: Global,
        targets: &[u64],
        cuts: &[WireEnd],
        rate: u16,
    ) -> Result<ChipCrossings, NoMemory>
        requires sizes { AreSizes self.now.n self.now.room }
        requires wires { find (is_stray self.now.n) cuts.now ≡ None }
        requires few { self.now.cycles ≤ 1000000 }
        requires skip { self.now.skip ≤ self.now.cycles }
        ensures value { IfOk result (AreChipsOf self.now targets.now cuts.now rate) }
    {
        let load = self.load(alloc, targets, rate)?;
        let routing = self.routing(alloc, cuts)?;
        let chips = measure_chips(alloc, self.room as u8, &routing, &load, self.period())?;
        Ok(ChipCrossings { rate, chips })
    }

    /// Its load at a rate, with these targets.
    fn load(&self, alloc: Global, targets: &[u64], rate: u16) -> Result<Load, NoMemory>
        requires dimension { self.now.n ≤ 12 }
        ensures value { IfOk result (IsLoadOf self.now targets.now rate) }
    {
        let targets = Vec::from_slice(alloc, targets)?;
        Ok(Load {
            dims: self.n as u8,
            pattern: self.pattern,
            background: self.background,
            rate,
            until: self.until,
            seed: self.seed,
            targets,
        })
    }

    /// Which of its petit cycles are told of.
    fn period(&self) -> Period
        ensures value { result ≡ record {
          skip = self.now.skip;
          cycles = self.now.cycles;
          counting = is_counted self.now.table;
        } }
    {
        Period {
            skip: self.skip,
            cycles: self.cycles,
            counting: self.table.is_counted(),
        }
    }

    /// How its machine routes.
    fn routing(&self, alloc: Global, cuts: &[WireEnd]) -> Result<Routing, NoMemory>
        requires dimension { self.now.n ≤ 12 }
        requires wires { find (is_stray self.now.n) cuts.now ≡ None }
        ensures value { IfOk result (λ routing. routing_of routing ≡ trial_routing self.now cuts.now) }
        ensures dims { IfOk result (λ routing. routing.cuts.dims ≡ self.now.n) }
    {
        routing_with(alloc, self.n as u8, cuts, rule_of(self.rule))
    }
}

fn push_load(loads: &mut Vec<Figures>, figures: Figures) -> Result<(), NoMemory>
    ensures ok { OnOk result (loads.new.items ≡ loads.old.items ++ figures ∷ []) }
{
    match loads.push(figures) {
        Ok(()) => Ok(()),
        Err(_) => Err(NoMemory),
    }
}

/// The first rate that is more than sixteen messages.
fn too_high(rates: &[u16]) -> Option<u16>
    ensures value { result ≡ find (nat_lt 1600) rates.now }
{
    rates.iter().copied().find(|rate| *rate > 1600)
}
