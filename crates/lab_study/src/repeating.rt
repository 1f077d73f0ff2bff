//! Routers that come to hold again what they held.

ghost use Rattle.std.specs.Prelude.{◌≡◌, ◌≢◌, ◌++◌, ◌∷◌, [], ◌==◌, ◌&&◌, ◌<◌, ◌≤◌, ◌*◌, ◌^◌};
ghost use Rattle.std.specs.Prelude.{not, Ok, Err, IfOk, IfErr, IfSome, OnOk, drop, length, map, sum_by};
ghost use Rattle.cm_model.specs.declared.act.Act.TheVariants as act;
ghost use Rattle.lab_machine.specs.Machines.{lab_after};
ghost use Rattle.lab_study.specs.Holdings.{holdings, event_count};
ghost use Rattle.lab_study.specs.Repeats.{no_calm, times_before, place_of, is_at_its_chip, come_count, round_line};
ghost use Rattle.lab_study.specs.Repeats.{repeat_text, calm_to, cycle_repeat, calm_after_cycle, act_repeat, calm_after};
ghost use Rattle.lab_study.specs.Repeats.{repeats_header, repeats_table};
ghost use Rattle.lab_study.specs.Watching.{WasTold};

use crate::holdings::{Held, are_same_holdings, event_count, holdings};
use crate::studies::{StudyFault, lacks_room};
use crate::watch::Watch;
use cm_bits::NoMemory;
use cm_model::Act;
use lab_digits::push_number;
use lab_machine::LabMachine;
use std::alloc::Global;
use std::marker::Model;

/// What the routers held before the first petit cycle of a calm and after each.
#[derive(Drop)]
pub(crate) struct Times {
    list: Vec<Vec<Held>>,
}

impl Model for Times {
    ghost use Rattle.std.specs.Prelude.{List, map};
    ghost use Rattle.lab_study.specs.declared.holdings.Held.{Held};

    ghost Value = { List (List Held) };

    ghost view = { λ times. map (λ time. time.items) times.list.items };
}

impl Times {
    fn none(alloc: Global) -> Times
        ensures value { result ≡ [] }
    {
        Times {
            list: Vec::new(alloc),
        }
    }

    fn is_empty(&self) -> bool
        ensures value { result ≡ (length self.now == 0) }
    {
        self.list.is_empty()
    }

    fn push(&mut self, now: Vec<Held>) -> Result<(), NoMemory>
        ensures ok { OnOk result (self.new ≡ self.old ++ now.items ∷ []) }
    {
        match self.list.push(now) {
            Ok(()) => Ok(()),
            Err(_) => Err(NoMemory),
        }
    }

    fn clear(&mut self)
        ensures value { self.new ≡ [] }
    {
        self.list.clear();
    }

    /// What they hold before a petit cycle is the first, if there is none.
    fn begin(&mut self, alloc: Global, machine: &LabMachine) -> Result<(), NoMemory>
        ensures ok { OnOk result (self.new ≡ times_before machine.now.n self.old machine.now.machine) }
    {
        if !self.is_empty() {
            return Ok(());
        }
        let now = holdings(alloc, machine)?;
        self.push(now)
    }

    /// The first time at which they held what they hold now.
    fn place_of(&self, now: &[Held]) -> Option<usize>
        ensures value { result ≡ place_of now.now self.now }
        ensures within { IfSome result (λ place. place < length self.now) }
    {
        self.list
            .iter()
            .position(|time| are_same_holdings(time, now))
    }

    /// The line of the round from a place on, which ended at a count of petit cycles.
    fn push_round(&self, text: &mut Vec<u8>, clock: u64, place: usize) -> Result<(), NoMemory>
        requires place { place < length self.now }
        ensures ok { OnOk result (text.new.items ≡ text.old.items ++ round_line clock (drop place self.now)) }
    {
        push_line(text, clock, &self.list[place..])
    }
}

/// The line of a round.
fn push_line(text: &mut Vec<u8>, clock: u64, round: &[Vec<Held>]) -> Result<(), NoMemory>
    requires some { 0 < length round.now }
    ensures ok { OnOk result (text.new.items
        ≡ text.old.items ++ round_line clock (map (λ time. time.items) round.now)) }
{
    push_number(text, clock.saturating_sub(round.len() as u64), b',')?;
    push_number(text, round.len(), b',')?;
    push_number(text, round[0].len(), b',')?;
    push_number(text, come_in_round(round), b'\n')
}

/// How often in a round a message stands at the chip that it is bound for.
fn come_in_round(round: &[Vec<Held>]) -> u128
    ensures value { result ≡ sum_by (λ time. come_count time.items) round.now }
    ensures within { result ≤ length round.now * 2 ^ 64 }
{
    let mut count = 0;
    for time in round {
        count += come_count(time) as u128;
    }
    count
}

/// How many of these messages stand there.
fn come_count(now: &[Held]) -> usize
    ensures value { result ≡ come_count now.now }
{
    now.iter().filter(|held| is_at_its_chip(held)).count()
}

fn is_at_its_chip(held: &Held) -> bool
    ensures value { result ≡ is_at_its_chip held.now }
{
    held.message.rel == 0
}

/// Petit cycles one after another in which nothing was taken in and nothing delivered, and whether it was told that the
/// routers came to hold the same again.
#[derive(Drop)]
pub(crate) struct Calm {
    pub(crate) times: Times,
    pub(crate) told: bool,
}

impl Calm {
    /// None has begun.
    fn none(alloc: Global) -> Calm
        ensures value { result ≡ no_calm }
    {
        Calm {
            times: Times::none(alloc),
            told: false,
        }
    }

    /// Has a machine do an act, and tells what it tells.
    fn follow(
        &mut self,
        alloc: Global,
        machine: &mut LabMachine,
        act: &Act,
        text: &mut Vec<u8>,
    ) -> Result<(), NoMemory>
        ensures machine { OnOk result (machine.new ≡ lab_after machine.old act.now) }
        ensures text { OnOk result (text.new.items ≡ text.old.items
            ++ act_repeat machine.old.n self.old act.now machine.old.machine machine.new.machine) }
        ensures calm { OnOk result (self.new
            ≡ calm_after machine.old.n self.old act.now machine.old.machine machine.new.machine) }
    {
        match act {
            Act::Cycle => self.follow_cycle(alloc, machine, text),
            Act::Sense => machine.go_on(alloc, &Act::Sense),
            Act::Nano(nano) => {
                self.end();
                machine.go_on(alloc, &Act::Nano(*nano))
            }
        }
    }

    fn end(&mut self)
        ensures value { self.new ≡ no_calm }
    {
        self.times.clear();
        self.told = false;
    }

    /// Has it do a petit cycle.
    fn follow_cycle(
        &mut self,
        alloc: Global,
        machine: &mut LabMachine,
        text: &mut Vec<u8>,
    ) -> Result<(), NoMemory>
        ensures machine { OnOk result (machine.new ≡ lab_after machine.old act.Cycle) }
        ensures text { OnOk result (text.new.items ≡ text.old.items
            ++ cycle_repeat machine.old.n self.old machine.old.machine machine.new.machine) }
        ensures calm { OnOk result (self.new
            ≡ calm_after_cycle machine.old.n self.old machine.old.machine machine.new.machine) }
    {
        if self.told {
            return machine.go_on(alloc, &Act::Cycle);
        }
        self.times.begin(alloc, machine)?;
        let before = event_count(machine);
        machine.go_on(alloc, &Act::Cycle)?;
        let now = holdings(alloc, machine)?;
        if !is_calm(before, machine, &now) {
            self.end();
            return Ok(());
        }
        self.look(now, machine.clock(), text)
    }

    /// Looks for what the routers hold now among the times, and tells the round, or keeps it.
    fn look(&mut self, now: Vec<Held>, clock: u64, text: &mut Vec<u8>) -> Result<(), NoMemory>
        ensures text { OnOk result (text.new.items ≡ text.old.items
            ++ repeat_text clock self.old.times (place_of now.items self.old.times)) }
        ensures calm { OnOk result (self.new ≡ calm_to self.old now.items (place_of now.items self.old.times)) }
    {
        match self.times.place_of(&now) {
            None => self.times.push(now),
            Some(place) => {
                self.times.push_round(text, clock, place)?;
                self.times.clear();
                self.told = true;
                Ok(())
            }
        }
    }
}

/// Whether no log has more events than before, and the routers hold messages.
fn is_calm(before: u128, machine: &LabMachine, now: &[Held]) -> bool
    ensures value { result
        ≡ (event_count machine.now.n machine.now.machine == before && not (length now.now == 0)) }
{
    event_count(machine) == before && !now.is_empty()
}

/// Has a machine run a program's acts, and tells where its routers come to hold again what they held, while nothing is
/// taken in and nothing is delivered.
pub fn repeats<W: Watch>(
    alloc: Global,
    machine: &mut LabMachine,
    acts: &[Act],
    watch: &mut W,
) -> Result<Vec<u8>, StudyFault>
    ensures value { IfOk result (λ text.
        repeats_table machine.old.n machine.old.cap machine.old.machine acts.now ≡ Ok text.items) }
    ensures refused { IfErr result (λ fault. fault ≢ StudyFault.Memory
        → repeats_table machine.old.n machine.old.cap machine.old.machine acts.now ≡ Err fault) }
    ensures told { OnOk result (WasTold W.sees (length acts.now) watch.old (length acts.now) watch.new) }
{
    let mut text = header(alloc)?;
    let mut calm = Calm::none(alloc);
    for (done, act) in acts.iter().enumerate() {
        if lacks_room(machine.clock(), act) {
            return Err(StudyFault::Clock);
        }
        calm.follow(alloc, machine, act, &mut text)?;
        watch.see(done + 1, acts.len());
    }
    Ok(text)
}

fn header(alloc: Global) -> Result<Vec<u8>, NoMemory>
    ensures value { IfOk result (λ text. text.items ≡ repeats_header) }
{
    Ok(Vec::from_slice(alloc, b"from,period,standing,arrived\n")?)
}
