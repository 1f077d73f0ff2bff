//! The plain program beside the definitions of the router: a whole machine with its messages, in
//! which every step makes all chips, buffers and logs anew from the old ones.

ghost use Rattle.std.specs.Prelude.{◌≡◌, ℕ, ◌+◌, ◌^◌, ◌<◌, ◌≤◌, ◌==◌, false, List, [], ◌∷◌, ◌++◌, length, map};
ghost use Rattle.std.specs.Prelude.{replicate, slice_set, bit_xor, IfOk, OnOk, OnErr, if◌then◌else◌};
ghost use Rattle.cm_model.specs.declared.message.Message.{Message};
ghost use Rattle.cm_model.specs.declared.message.Event.{Event};
ghost use Rattle.cm_model.specs.declared.message.Event.TheVariants.{Injected, Delivered};
ghost use Rattle.cm_model.specs.declared.act.Act.TheVariants as act;
ghost use Rattle.cm_model.specs.Processor.{ZERO, memory_bit, flag};
ghost use Rattle.cm_model.specs.Chip.{each_processor, processor_at, with_memory_bit, with_flag};
ghost use Rattle.cm_model.specs.Array.{each_chip, chip_at, after_nano, nth_or_nil};
ghost use Rattle.cm_model.specs.Letters.{can_receive, chip_after_injection, chip_after_delivery};
ghost use Rattle.cm_model.specs.Machine.{Machine, blank_machine, run_of};
ghost use Rattle.cm_model.specs.Wiring.{plain_routing, way_of};
ghost use Rattle.cm_model.specs.Buffers.{taken_in, sent_in, machine_after_injection, sent_across};
ghost use Rattle.cm_model.specs.Buffers.{buffers_after_dimension};
ghost use Rattle.cm_model.specs.Buffers.{machine_after_dimension, delivered_in, machine_after_delivery};
ghost use Rattle.cm_model.specs.OneChip.{kept};
ghost use Rattle.cm_model.specs.Buffers.{after_act};

use crate::buffer::{PlainBuffer, PlainLog, Sorted};
use crate::leaving::{Way, is_cut};
use crate::machine::{PlainChip, PlainMachine};
use cm_bits::{Addr, Edge, FlagNo, NoMemory, Proc};
use cm_model::{Act, Event, Message, Nano, Rule};
use std::alloc::Global;
use std::marker::Model;

/// A machine of `2 ^ N` chips with their routers, which have room for `CAP` messages each.
///
/// Contracts see its chips, each the list of its processors, the messages and the events of each
/// chip, and the count of petit cycles.
#[derive(Drop)]
pub struct PlainRouter<const N: usize, const CAP: usize> {
    chips: PlainMachine<N>,
    buffers: Vec<PlainBuffer>,
    logs: Vec<PlainLog>,
    clock: u64,
    cuts: Vec<Edge>,
    rule: Rule,
}

impl<const N: usize, const CAP: usize> Model for PlainRouter<N, CAP> {
    ghost Value = { Machine };

    ghost view = { λ router. record {
      chips = router.chips;
      buffers = router.buffers.items;
      logs = router.logs.items;
      clock = router.clock;
      routing = record { cuts = router.cuts.items; rule = router.rule };
    } };

    ghost invariant = { λ router.
        (N ≤ 12) × (length router.buffers.items ≡ 2 ^ N) × (length router.logs.items ≡ 2 ^ N) };
}

impl<const N: usize, const CAP: usize> PlainRouter<N, CAP> {
    /// A machine with all bits and flags 0 and no message, and so many memory bits in each
    /// processor: a true one has 4,096. What is stored beyond them is dropped, but a payload that is
    /// received is put behind them.
    pub fn blank(alloc: Global, addresses: u16) -> Result<PlainRouter<N, CAP>, NoMemory>
        requires dimension { N ≤ 12 }
        ensures value { IfOk result (λ router. router ≡ record {
          chips = each_chip N
              (λ c. each_processor (λ p. record { memory = replicate addresses false; flags = replicate 16 false }));
          buffers = each_chip N (λ c. []);
          logs = each_chip N (λ c. []);
          clock = 0;
          routing = plain_routing;
        }) }
        ensures blank { addresses ≡ 4096 → IfOk result (λ router. router ≡ blank_machine N) }
    {
        let chips = PlainMachine::blank(alloc, addresses)?;
        let buffers = Self::no_buffers(alloc)?;
        let logs = Self::no_logs(alloc)?;
        Ok(PlainRouter {
            chips,
            buffers,
            logs,
            clock: 0,
            cuts: Vec::new(alloc),
            rule: Rule::First,
        })
    }

    /// The memory bit of a processor at an address.
    pub fn read(&self, chip: u16, proc: Proc, at: Addr) -> bool
        requires chip { chip < 2 ^ N }
        ensures value { result ≡ memory_bit (processor_at (chip_at self.now.chips chip) proc) at }
    {
        self.chips.read(chip, proc, at)
    }

    /// One flag of a processor.
    pub fn flag(&self, chip: u16, proc: Proc, number: FlagNo) -> bool
        requires chip { chip < 2 ^ N }
        ensures value { result ≡ flag (processor_at (chip_at self.now.chips chip) proc) number }
    {
        self.chips.flag(chip, proc, number)
    }

    /// The messages that stand at a chip, from the front.
    pub fn buffer(&self, chip: u16) -> &[Message]
        requires chip { chip < 2 ^ N }
        ensures value { result.now ≡ nth_or_nil self.now.buffers chip }
    {
        self.buffer_of(chip).messages()
    }

    /// The events of a chip, the oldest first.
    pub fn log(&self, chip: u16) -> &[Event]
        requires chip { chip < 2 ^ N }
        ensures value { result.now ≡ nth_or_nil self.now.logs chip }
    {
        self.log_of(chip).events()
    }

    /// Petit cycles so far.
    pub fn clock(&self) -> u64
        ensures value { result ≡ self.now.clock }
    {
        self.clock
    }

    /// Routes so from now on: these wires are cut, and the routers choose by this rule.
    pub fn route_by(&mut self, cuts: Vec<Edge>, rule: Rule)
        ensures value { self.new ≡ record self.old { routing = record { cuts = cuts.items; rule = rule } } }
    {
        self.cuts = cuts;
        self.rule = rule;
    }

    /// Puts a bit into the memory of one processor: beyond its last address it is dropped.
    pub fn poke(&mut self, chip: u16, proc: Proc, at: Addr, bit: bool)
        requires chip { chip < 2 ^ N }
        ensures value { self.new ≡ record self.old {
          chips = slice_set self.old.chips chip (with_memory_bit (chip_at self.old.chips chip) proc at bit);
        } }
    {
        self.chips.poke(chip, proc, at, bit);
    }

    /// Puts a bit into a flag of one processor: into flag 8 it is dropped.
    pub fn poke_flag(&mut self, chip: u16, proc: Proc, number: FlagNo, bit: bool)
        requires chip { chip < 2 ^ N }
        ensures value { self.new ≡ record self.old {
          chips = if number == ZERO then self.old.chips
              else slice_set self.old.chips chip (with_flag (chip_at self.old.chips chip) proc number bit);
        } }
    {
        self.chips.poke_flag(chip, proc, number, bit);
    }

    /// Runs a list of acts. Where memory is wanting nothing has changed.
    pub fn run(&mut self, alloc: Global, acts: &[Act]) -> Result<(), NoMemory>
        requires room { self.old.clock + length acts.now < 2 ^ 63 }
        ensures ok { OnOk result (self.new ≡ run_of N CAP self.old acts.now) }
        ensures clock { OnOk result (self.new.clock ≤ self.old.clock + length acts.now) }
        ensures err { OnErr result (self.new ≡ self.old) }
    {
        let mut after = self.copy(alloc)?;
        for act in acts {
            after.act(alloc, act)?;
        }
        *self = after;
        Ok(())
    }

    fn copy(&self, alloc: Global) -> Result<PlainRouter<N, CAP>, NoMemory>
        ensures value { IfOk result (λ router. router ≡ self.now) }
        ensures size { length self.now.buffers ≡ 2 ^ N }
    {
        let chips = self.chips.copy(alloc)?;
        let buffers = self.copied_buffers(alloc)?;
        let logs = self.copied_logs(alloc)?;
        let cuts = self.cuts.to_vec(alloc)?;
        Ok(PlainRouter {
            chips,
            buffers,
            logs,
            clock: self.clock,
            cuts,
            rule: self.rule,
        })
    }

    // ---- what each step does: where memory is wanting, part of it may be done

    fn act(&mut self, alloc: Global, act: &Act) -> Result<(), NoMemory>
        requires room { self.old.clock < 2 ^ 63 }
        ensures ok { OnOk result (self.new ≡ after_act N CAP self.old act.now) }
    {
        match act {
            Act::Nano(nano) => self.instruct(alloc, nano),
            Act::Sense => Ok(()),
            Act::Cycle => self.cycle(alloc),
        }
    }

    fn instruct(&mut self, alloc: Global, nano: &Nano) -> Result<(), NoMemory>
        ensures ok { OnOk result (self.new ≡ record self.old { chips = after_nano N nano.now self.old.chips }) }
    {
        self.chips.step(alloc, nano)
    }

    /// One petit cycle: every router takes messages in, they cross each dimension, from the lowest
    /// on, and those that have arrived go to their processors.
    fn cycle(&mut self, alloc: Global) -> Result<(), NoMemory>
        requires room { self.old.clock < 2 ^ 63 }
        ensures ok { OnOk result (self.new ≡ after_act N CAP self.old act.Cycle) }
    {
        self.inject(alloc)?;
        for dim in 0..N {
            self.cross(alloc, dim)?;
        }
        self.deliver(alloc)
    }

    fn inject(&mut self, alloc: Global) -> Result<(), NoMemory>
        ensures ok { OnOk result (self.new ≡ machine_after_injection N CAP self.old) }
    {
        let chips = self.chips_after_injection(alloc)?;
        let buffers = self.buffers_after_injection(alloc)?;
        let logs = self.logs_after_injection(alloc)?;
        self.chips = chips;
        self.buffers = buffers;
        self.logs = logs;
        Ok(())
    }

    fn cross(&mut self, alloc: Global, dim: usize) -> Result<(), NoMemory>
        requires dim { dim < N }
        ensures ok { OnOk result (self.new ≡ machine_after_dimension N CAP dim self.old) }
    {
        let buffers = self.buffers_after_dimension(alloc, dim)?;
        self.buffers = buffers;
        Ok(())
    }

    fn deliver(&mut self, alloc: Global) -> Result<(), NoMemory>
        requires room { self.old.clock < 2 ^ 63 }
        ensures ok { OnOk result (self.new ≡ machine_after_delivery N self.old) }
    {
        let chips = self.chips_after_delivery(alloc)?;
        let buffers = self.buffers_after_delivery(alloc)?;
        let logs = self.logs_after_delivery(alloc)?;
        self.chips = chips;
        self.buffers = buffers;
        self.logs = logs;
        self.clock += 1;
        Ok(())
    }

    // ---- all chips: a body that looks at a field, as at the logs, knows the sizes that the model keeps

    fn no_buffers(alloc: Global) -> Result<Vec<PlainBuffer>, NoMemory>
        requires dimension { N ≤ 12 }
        ensures value { IfOk result (λ buffers. buffers.items ≡ each_chip N (λ c. [])) }
    {
        let mut buffers = Vec::new(alloc);
        for _chip in 0..PlainMachine::<N>::chip_count() {
            let buffer = PlainBuffer::empty(alloc);
            let Ok(()) = buffers.push(buffer) else {
                return Err(NoMemory);
            };
        }
        Ok(buffers)
    }

    fn no_logs(alloc: Global) -> Result<Vec<PlainLog>, NoMemory>
        requires dimension { N ≤ 12 }
        ensures value { IfOk result (λ logs. logs.items ≡ each_chip N (λ c. [])) }
    {
        let mut logs = Vec::new(alloc);
        for _chip in 0..PlainMachine::<N>::chip_count() {
            let log = PlainLog::empty(alloc);
            let Ok(()) = logs.push(log) else {
                return Err(NoMemory);
            };
        }
        Ok(logs)
    }

    fn copied_buffers(&self, alloc: Global) -> Result<Vec<PlainBuffer>, NoMemory>
        ensures value { IfOk result (λ buffers. buffers.items ≡ self.now.buffers) }
    {
        let mut buffers = Vec::new(alloc);
        for buffer in &self.buffers {
            let copy = buffer.copy(alloc)?;
            let Ok(()) = buffers.push(copy) else {
                return Err(NoMemory);
            };
        }
        Ok(buffers)
    }

    fn copied_logs(&self, alloc: Global) -> Result<Vec<PlainLog>, NoMemory>
        ensures value { IfOk result (λ logs. logs.items ≡ self.now.logs) }
    {
        let mut logs = Vec::new(alloc);
        for log in &self.logs {
            let copy = log.copy(alloc)?;
            let Ok(()) = logs.push(copy) else {
                return Err(NoMemory);
            };
        }
        Ok(logs)
    }

    fn chips_after_injection(&self, alloc: Global) -> Result<PlainMachine<N>, NoMemory>
        ensures value { IfOk result (λ chips. chips ≡
            each_chip N (λ c. chip_after_injection (taken_in CAP self.now c) (chip_at self.now.chips c))) }
    {
        let _ = &self.logs;
        let mut chips = Vec::new(alloc);
        for chip in 0..PlainMachine::<N>::chip_count() {
            let taken = self.taken(alloc, chip)?;
            let after = self.chips.chip(chip).after_injection(alloc, &taken)?;
            let Ok(()) = chips.push(after) else {
                return Err(NoMemory);
            };
        }
        Ok(PlainMachine { chips })
    }

    fn buffers_after_injection(&self, alloc: Global) -> Result<Vec<PlainBuffer>, NoMemory>
        ensures value { IfOk result (λ buffers. buffers.items ≡
            each_chip N (λ c. nth_or_nil self.now.buffers c ++ sent_in N CAP self.now c)) }
    {
        let _ = &self.logs;
        let mut buffers = Vec::new(alloc);
        for chip in 0..PlainMachine::<N>::chip_count() {
            let sent = self.sent(alloc, chip)?;
            let after = self.buffer_of(chip).with(alloc, &sent)?;
            let Ok(()) = buffers.push(after) else {
                return Err(NoMemory);
            };
        }
        Ok(buffers)
    }

    fn logs_after_injection(&self, alloc: Global) -> Result<Vec<PlainLog>, NoMemory>
        ensures value { IfOk result (λ logs. logs.items ≡
            each_chip N (λ c. nth_or_nil self.now.logs c ++ map Injected (sent_in N CAP self.now c))) }
    {
        let _ = &self.logs;
        let mut logs = Vec::new(alloc);
        for chip in 0..PlainMachine::<N>::chip_count() {
            let sent = self.sent(alloc, chip)?;
            let after = self.log_of(chip).with_injected(alloc, &sent)?;
            let Ok(()) = logs.push(after) else {
                return Err(NoMemory);
            };
        }
        Ok(logs)
    }

    fn buffers_after_dimension(
        &self,
        alloc: Global,
        dim: usize,
    ) -> Result<Vec<PlainBuffer>, NoMemory>
        requires dim { dim < N }
        ensures value { IfOk result (λ buffers.
            buffers.items ≡ buffers_after_dimension self.now.routing N CAP dim self.now.buffers) }
    {
        let _ = &self.logs;
        let mut buffers = Vec::new(alloc);
        for chip in 0..PlainMachine::<N>::chip_count() {
            let way = self.way(chip, dim);
            let coming = self.coming(chip, dim);
            let after = self
                .buffer_of(chip)
                .after_dimension(alloc, way, CAP, dim, coming)?;
            let Ok(()) = buffers.push(after) else {
                return Err(NoMemory);
            };
        }
        Ok(buffers)
    }

    fn chips_after_delivery(&self, alloc: Global) -> Result<PlainMachine<N>, NoMemory>
        ensures value { IfOk result (λ chips. chips ≡
            each_chip N (λ c. chip_after_delivery (delivered_in self.now c) (chip_at self.now.chips c))) }
    {
        let _ = &self.logs;
        let mut chips = Vec::new(alloc);
        for chip in 0..PlainMachine::<N>::chip_count() {
            let sorted = self.sorted(alloc, chip)?;
            let after = self
                .chips
                .chip(chip)
                .after_delivery(alloc, &sorted.delivered)?;
            let Ok(()) = chips.push(after) else {
                return Err(NoMemory);
            };
        }
        Ok(PlainMachine { chips })
    }

    fn buffers_after_delivery(&self, alloc: Global) -> Result<Vec<PlainBuffer>, NoMemory>
        ensures value { IfOk result (λ buffers. buffers.items ≡
            each_chip N (λ c. kept (can_receive (chip_at self.now.chips c)) [] (nth_or_nil self.now.buffers c))) }
    {
        let _ = &self.logs;
        let mut buffers = Vec::new(alloc);
        for chip in 0..PlainMachine::<N>::chip_count() {
            let sorted = self.sorted(alloc, chip)?;
            let after = PlainBuffer {
                messages: sorted.kept,
            };
            let Ok(()) = buffers.push(after) else {
                return Err(NoMemory);
            };
        }
        Ok(buffers)
    }

    fn logs_after_delivery(&self, alloc: Global) -> Result<Vec<PlainLog>, NoMemory>
        ensures value { IfOk result (λ logs. logs.items ≡
            each_chip N (λ c. nth_or_nil self.now.logs c ++ map (λ m. Delivered c m) (delivered_in self.now c))) }
    {
        let _ = &self.logs;
        let mut logs = Vec::new(alloc);
        for chip in 0..PlainMachine::<N>::chip_count() {
            let sorted = self.sorted(alloc, chip)?;
            let after = self
                .log_of(chip)
                .with_delivered(alloc, &sorted.delivered, chip)?;
            let Ok(()) = logs.push(after) else {
                return Err(NoMemory);
            };
        }
        Ok(logs)
    }

    // ---- one chip

    fn buffer_of(&self, chip: u16) -> &PlainBuffer
        requires chip { chip < 2 ^ N }
        ensures value { result.now ≡ nth_or_nil self.now.buffers chip }
    {
        &self.buffers[usize::from(chip)]
    }

    fn log_of(&self, chip: u16) -> &PlainLog
        requires chip { chip < 2 ^ N }
        ensures value { result.now ≡ nth_or_nil self.now.logs chip }
    {
        &self.logs[usize::from(chip)]
    }

    /// The processors of a chip whose messages are taken.
    fn taken(&self, alloc: Global, chip: u16) -> Result<Vec<Proc>, NoMemory>
        requires chip { chip < 2 ^ N }
        ensures value { IfOk result (λ procs. procs.items ≡ taken_in CAP self.now chip) }
    {
        let mut taken = self.chips.chip(chip).senders(alloc)?;
        let room = CAP.saturating_sub(self.buffer(chip).len());
        taken.truncate(room.min(4));
        Ok(taken)
    }

    /// The messages that a chip takes in.
    fn sent(&self, alloc: Global, chip: u16) -> Result<Vec<Message>, NoMemory>
        requires chip { chip < 2 ^ N }
        ensures value { IfOk result (λ messages. messages.items ≡ sent_in N CAP self.now chip) }
    {
        let _ = &self.logs;
        let taken = self.taken(alloc, chip)?;
        let mut sent = Vec::new(alloc);
        for proc in &taken {
            let message = self.chips.message_sent(self.clock, chip, *proc);
            let Ok(()) = sent.push(message) else {
                return Err(NoMemory);
            };
        }
        Ok(sent)
    }

    /// What comes to a chip from the other one of a dimension.
    fn coming(&self, chip: u16, dim: usize) -> Option<Message>
        requires dimension { N ≤ 12 }
        requires chip { chip < 2 ^ N }
        requires dim { dim < N }
        ensures value { result ≡ sent_across self.now.routing CAP dim self.now.buffers (bit_xor chip (2 ^ dim)) }
    {
        let other = Self::across(chip, dim);
        let way = self.way(other, dim);
        self.buffer_of(other).outgoing(way, CAP, dim)
    }

    /// What a chip sees of the routing in a dimension.
    fn way(&self, chip: u16, dim: usize) -> Way
        requires dimension { N ≤ 12 }
        requires dim { dim < N }
        ensures value { record { cut = result.cut; rule = result.rule } ≡ way_of self.now.routing chip dim }
    {
        Way {
            cut: is_cut(&self.cuts, chip, dim),
            rule: self.rule,
        }
    }

    /// The other chip of a dimension.
    fn across(chip: u16, dim: usize) -> u16
        requires dimension { N ≤ 12 }
        requires chip { chip < 2 ^ N }
        requires dim { dim < N }
        ensures value { result ≡ bit_xor chip (2 ^ dim) }
        ensures within { result < 2 ^ N }
    {
        chip ^ (1 << dim)
    }

    /// What a chip's buffer delivers, and what it keeps.
    fn sorted(&self, alloc: Global, chip: u16) -> Result<Sorted, NoMemory>
        requires chip { chip < 2 ^ N }
        ensures delivered { IfOk result (λ sorted. sorted.delivered.items ≡ delivered_in self.now chip) }
        ensures kept { IfOk result (λ sorted. sorted.kept.items ≡
            kept (can_receive (chip_at self.now.chips chip)) [] (nth_or_nil self.now.buffers chip)) }
    {
        self.buffer_of(chip).sorted(alloc, self.chips.chip(chip))
    }
}
