//! Growths of memory that are refused: of machines, of what they are made of, and while one goes.

use cm_array::{BuildFault, Builder, Machine, MachineFault, Part, Plain, Runner};
use cm_bits::{Edge, FlagNo, NoMemory};
use cm_model::Act;
use cm_router::{Cuts, Routing};
use std::alloc::Global;
use test_generators::{
    Call, Draws, are_same, first_not_so, poke_plane, put_messages, sends_or_stays, tells,
};

/// What takes memory.
#[derive(Clone, Copy, Debug, PartialEq, Eq)]
enum Grown {
    Cuts,
    CopiedCuts,
    Routing,
    Blank,
    Copied,
    Part,
    LogsAside,
    DealtOut,
    Built,
    Run,
}

static GROWN: [Grown; 10] = [
    Grown::Cuts,
    Grown::CopiedCuts,
    Grown::Routing,
    Grown::Blank,
    Grown::Copied,
    Grown::Part,
    Grown::LogsAside,
    Grown::DealtOut,
    Grown::Built,
    Grown::Run,
];

impl Call for Grown {
    fn is_so(&self, alloc: Global) -> Option<bool> {
        match self {
            Grown::Cuts => Some(has_blank_cuts(alloc)),
            Grown::CopiedCuts => has_copied_cuts(alloc),
            Grown::Routing => has_copied_routing(alloc),
            Grown::Blank => Some(has_blank_machine(alloc)),
            Grown::Copied => has_copy(alloc),
            Grown::Part => has_part(alloc),
            Grown::LogsAside => has_logs_aside(alloc),
            Grown::DealtOut => is_dealt_out(alloc),
            Grown::Built => Some(is_built(alloc)),
            Grown::Run => sends_or_stays(&mut Plain, alloc),
        }
    }
}

// ---- routing

fn has_blank_cuts(alloc: Global) -> bool {
    let made = match Cuts::blank(alloc, 4) {
        Err(NoMemory) => Cuts::blank(alloc, 4),
        made => made,
    };
    match made {
        Ok(cuts) => cuts.edges().is_empty(),
        Err(_) => false,
    }
}

/// Of a cube of four dimensions the wire of chip 7 over dimension 3.
fn one_cut(alloc: Global) -> Option<Cuts> {
    let mut cuts = Cuts::blank(alloc, 4).ok()?;
    cuts.add(Edge::new(7, 3)?);
    Some(cuts)
}

fn has_copied_cuts(alloc: Global) -> Option<bool> {
    let cuts = one_cut(alloc)?;
    let made = match cuts.copy() {
        Err(NoMemory) => cuts.copy(),
        made => made,
    };
    match made {
        Ok(copy) => Some(copy.edges() == cuts.edges()),
        Err(_) => Some(false),
    }
}

fn has_copied_routing(alloc: Global) -> Option<bool> {
    let routing = match Routing::plain(alloc, 4) {
        Err(NoMemory) => Routing::plain(alloc, 4),
        made => made,
    };
    let Ok(routing) = routing else {
        return Some(false);
    };
    let made = match routing.copy() {
        Err(NoMemory) => routing.copy(),
        made => made,
    };
    Some(made.is_ok())
}

// ---- machines

/// Sixteen chips, of which eight processors asked to send, two petit cycles later.
fn busy(alloc: Global) -> Option<Machine<4, 7>> {
    let mut machine = Machine::<4, 7>::blank(alloc).ok()?;
    if !sends(&mut machine) {
        return None;
    }
    Some(machine)
}

fn sends(machine: &mut Machine<4, 7>) -> bool {
    poke_plane(machine, 0, FlagNo::SEND, 0x00ff);
    Plain.go(machine, &[Act::Cycle, Act::Cycle]).is_ok()
}

fn has_blank_machine(alloc: Global) -> bool {
    let made = match Machine::<4, 7>::blank(alloc) {
        Err(MachineFault::Memory) => Machine::blank(alloc),
        made => made,
    };
    match made {
        Ok(machine) => machine.clock() == 0 && machine.buffer(15).is_empty(),
        Err(_) => false,
    }
}

fn has_copy(alloc: Global) -> Option<bool> {
    let machine = busy(alloc)?;
    match is_copied(alloc, &machine) {
        None => Some(is_copied(alloc, &machine) == Some(true)),
        told => told,
    }
}

/// Whether a copy is the same. None where memory is wanting.
fn is_copied(alloc: Global, machine: &Machine<4, 7>) -> Option<bool> {
    let copy = machine.copy(alloc).ok()?;
    Some(are_same(alloc, &copy, machine, 16))
}

fn has_part(alloc: Global) -> Option<bool> {
    let machine = busy(alloc)?;
    match has_first_half(alloc, &machine) {
        None => Some(has_first_half(alloc, &machine) == Some(true)),
        told => told,
    }
}

/// Whether a part is the first half. None where memory is wanting.
fn has_first_half(alloc: Global, machine: &Machine<4, 7>) -> Option<bool> {
    let part = machine.part(alloc, 0, 8, 2).ok()?;
    Some(is_first_half(alloc, &part, machine))
}

fn is_first_half(alloc: Global, part: &Part, machine: &Machine<4, 7>) -> bool {
    let size = part.first() == 0 && part.chips() == 8;
    size && part.clock() == 2 && tells(alloc, &machine.log(0), part.log(0))
}

fn has_logs_aside(alloc: Global) -> Option<bool> {
    let mut machine = busy(alloc)?;
    sets_logs_aside(alloc, &mut machine)
}

fn sets_logs_aside(alloc: Global, machine: &mut Machine<4, 7>) -> Option<bool> {
    let before = machine.copy(alloc).ok()?;
    Some(has_set_logs_aside(alloc, machine, &before))
}

fn has_set_logs_aside(alloc: Global, machine: &mut Machine<4, 7>, before: &Machine<4, 7>) -> bool {
    if machine.set_logs_aside(alloc, 2).is_ok() {
        return machine.log(0).is_empty() && !before.log(0).is_empty();
    }
    are_same(alloc, machine, before, 16) && machine.set_logs_aside(alloc, 2).is_ok()
}

fn is_dealt_out(alloc: Global) -> Option<bool> {
    let mut machine = busy(alloc)?;
    deals_out(alloc, &mut machine)
}

fn deals_out(alloc: Global, machine: &mut Machine<4, 7>) -> Option<bool> {
    let before = machine.copy(alloc).ok()?;
    Some(has_dealt_out(alloc, machine, &before))
}

/// Whether each log lies in one piece, and has what a machine tells whose events were not dealt out.
fn has_dealt_out(alloc: Global, machine: &mut Machine<4, 7>, before: &Machine<4, 7>) -> bool {
    let dealt = match machine.deal_out() {
        Ok(()) => true,
        Err(NoMemory) => are_same(alloc, machine, before, 16) && machine.deal_out().is_ok(),
    };
    dealt && lie_whole(machine) && are_same(alloc, machine, before, 16)
}

fn lie_whole(machine: &Machine<4, 7>) -> bool {
    for chip in 0..16 {
        if machine.log(chip).whole().is_none() {
            return false;
        }
    }
    true
}

/// A machine with messages; or else whether want of memory is told.
fn built(alloc: Global) -> Result<Machine<1, 7>, bool> {
    let mut builder = match Builder::<1, 7>::start(alloc, 5) {
        Ok(builder) => builder,
        Err(fault) => return Err(fault == MachineFault::Memory),
    };
    let mut draws = Draws::new(7);
    put_messages(&mut builder, &mut draws, 0, 2, 6);
    put_messages(&mut builder, &mut draws, 1, 2, 6);
    match builder.done() {
        Ok(machine) => Ok(machine),
        Err(fault) => Err(fault == BuildFault::Memory),
    }
}

fn is_built(alloc: Global) -> bool {
    match built(alloc) {
        Ok(machine) => machine.clock() == 5,
        Err(wants_memory) => wants_memory && built(alloc).is_ok(),
    }
}

// `.ci/refusals` refuses each growth in turn.
#[test]
fn a_refused_growth_leaves_all_as_it_was(rt: HostRuntime) {
    assert_eq!(rt; first_not_so(rt.alloc(), &GROWN), None);
}
