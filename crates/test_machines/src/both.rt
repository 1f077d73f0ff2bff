//! A machine and a plain one, to which the same is done, so that a test sees whether they stay the
//! same.

ghost use Rattle.std.specs.Prelude.{◌≡◌, ◌+◌, ◌<◌, ◌≤◌, ◌^◌};

use crate::machines::SEND;
use cm_array::{Builder, Machine, Plain, Runner};
use cm_bits::{Edge, FlagNo, Plane, Proc};
use cm_element::ZeroFlag;
use cm_message::Message;
use cm_model::{Act, Rule};
use cm_plain::PlainRouter;
use std::alloc::Global;
use test_generators::{address, ask, flag, processor, tells};

// As many memory bits as a true processor has.
const ADDRESSES: u16 = 4096;

/// A machine and the plain one beside it.
#[derive(Drop)]
pub(crate) struct Both<const N: usize, const CAP: usize> {
    pub(crate) alloc: Global,
    pub(crate) machine: Machine<N, CAP>,
    pub(crate) plain: PlainRouter<N, CAP>,
}

impl<const N: usize, const CAP: usize> Both<N, CAP> {
    pub(crate) fn blank(alloc: Global) -> Option<Self>
        requires dimension { N ≤ 12 }
    {
        let machine = Machine::blank(alloc).ok()?;
        let plain = PlainRouter::blank(alloc, ADDRESSES).ok()?;
        Some(Both {
            alloc,
            machine,
            plain,
        })
    }

    /// Blank ones, of which these wires are cut and whose routers choose by this rule.
    pub(crate) fn routed(alloc: Global, cuts: Vec<Edge>, rule: Rule) -> Option<Self>
        requires dimension { N ≤ 12 }
    {
        let machine = routed_machine(alloc, &cuts, rule)?;
        let plain = routed_plain(alloc, cuts, rule)?;
        Some(Both {
            alloc,
            machine,
            plain,
        })
    }

    /// Makes the processor from which a message comes ask that it be sent.
    pub(crate) fn ask(&mut self, message: &Message)
        requires chip { message.now.tag.chip < 2 ^ N }
    {
        ask(&mut self.machine, message);
        ask_plain(&mut self.plain, message);
    }

    /// Puts a bit into a flag of one processor, but not into flag 8.
    pub(crate) fn poke_flag(
        &mut self,
        chip: u16,
        proc: Proc,
        number: FlagNo,
        bit: bool,
    ) -> Result<(), ZeroFlag>
        requires chip { chip < 2 ^ N }
    {
        self.plain.poke_flag(chip, proc, number, bit);
        self.machine.poke_flag(chip, proc, number, bit)
    }

    /// Gives one flag of the sixteen processors of a chip these bits; flag 8 stays as it is.
    pub(crate) fn poke_plane(&mut self, chip: u16, number: FlagNo, plane: Plane)
        requires chip { chip < 2 ^ N }
    {
        for p in 0u8..16 {
            let _ = self.poke_flag(chip, processor(p), number, plane >> p & 1 == 1);
        }
    }

    /// Runs the acts in both, and tells whether neither refused.
    pub(crate) fn go(&mut self, alloc: Global, acts: &[Act]) -> bool {
        if self.plain.clock() >= 1_000 || acts.len() > 4_096 {
            return false;
        }
        Plain.go(&mut self.machine, acts).is_ok() && self.plain.run(alloc, acts).is_ok()
    }

    /// Whether both have the same flags and memory bits, the same messages, events and petit cycles.
    pub(crate) fn agree(&self, chips: u16) -> bool
        requires chips { chips ≡ 2 ^ N }
    {
        for c in 0..chips {
            if !self.agree_in(c)
                || self.machine.buffer(c) != self.plain.buffer(c)
                || !tells(self.alloc, &self.machine.log(c), self.plain.log(c))
            {
                return false;
            }
        }
        self.machine.clock() == self.plain.clock()
    }

    fn agree_in(&self, chip: u16) -> bool
        requires chip { chip < 2 ^ N }
    {
        for p in 0u8..16 {
            let proc = processor(p);
            if !self.have_same_flags(chip, proc) || !self.have_same_bits(chip, proc) {
                return false;
            }
        }
        true
    }

    fn have_same_flags(&self, chip: u16, proc: Proc) -> bool
        requires chip { chip < 2 ^ N }
    {
        for number in 0u8..16 {
            let number = flag(number);
            if self.machine.chip(chip).flag(proc, number) != self.plain.flag(chip, proc, number) {
                return false;
            }
        }
        true
    }

    fn have_same_bits(&self, chip: u16, proc: Proc) -> bool
        requires chip { chip < 2 ^ N }
    {
        for at in 0..ADDRESSES {
            let at = address(at);
            if self.machine.chip(chip).read(proc, at) != self.plain.read(chip, proc, at) {
                return false;
            }
        }
        true
    }
}

/// A blank machine, of which these wires are cut and whose routers choose by this rule.
fn routed_machine<const N: usize, const CAP: usize>(
    alloc: Global,
    cuts: &[Edge],
    rule: Rule,
) -> Option<Machine<N, CAP>>
    requires dimension { N ≤ 12 }
{
    let mut builder = Builder::start(alloc, 0).ok()?;
    for edge in cuts {
        if usize::from(edge.chip()) >= 1 << N || usize::from(edge.dim()) >= N {
            return None;
        }
        builder.cut(*edge);
    }
    builder.rule(rule);
    builder.done().ok()
}

/// The plain one.
fn routed_plain<const N: usize, const CAP: usize>(
    alloc: Global,
    cuts: Vec<Edge>,
    rule: Rule,
) -> Option<PlainRouter<N, CAP>>
    requires dimension { N ≤ 12 }
{
    let mut plain = PlainRouter::blank(alloc, ADDRESSES).ok()?;
    plain.route_by(cuts, rule);
    Some(plain)
}

/// Makes the processor from which a message comes ask that it be sent.
fn ask_plain<const N: usize, const CAP: usize>(plain: &mut PlainRouter<N, CAP>, message: &Message)
    requires chip { message.now.tag.chip < 2 ^ N }
{
    let chip = message.tag.chip;
    let proc = message.tag.proc;
    poke_field(plain, chip, proc, 3968, 16, u32::from(message.rel));
    poke_field(plain, chip, proc, 3984, 4, u32::from(message.proc.get()));
    poke_field(plain, chip, proc, 3988, 32, message.payload);
    plain.poke_flag(chip, proc, flag(SEND), true);
}

/// Puts a number into a field of one processor, the lowest bit first.
fn poke_field<const N: usize, const CAP: usize>(
    plain: &mut PlainRouter<N, CAP>,
    chip: u16,
    proc: Proc,
    at: u16,
    len: u16,
    number: u32,
)
    requires chip { chip < 2 ^ N }
    requires at { at + len ≤ 4096 }
    requires len { len ≤ 32 }
{
    for place in 0..len {
        plain.poke(chip, proc, address(at + place), number >> place & 1 == 1);
    }
}
