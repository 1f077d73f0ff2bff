//! A plain debugger: one act after another, a line at a time, by the table of the manual.

ghost use Rattle.std.specs.Prelude.{◌≡◌, ◌<◌, ◌^◌, IfOk};

use crate::asked::{Asked, Kind};
use crate::told::Told;
use cm_array::{Machine, Plain, Runner};
use cm_bits::{Addr, Field, FlagNo, Proc};
use cm_message::{Event, Tag};
use cm_model::{Act, Found, Rule};
use std::alloc::{AllocError, Global};

const LAST: u64 = u64::MAX >> 1;

const WIDTH: u64 = 1;

const RANGE: u64 = 2;

const ZERO_FLAG: u64 = 3;

const CLOCK: u64 = 7;

const WORD: u64 = 15;

const OPERANDS: u64 = 16;

const NUMBER: u64 = 17;

/// Why a line is not done: by the number that is answered, or for want of memory.
enum Undone {
    Refused(u64),
    Memory,
}

impl From<AllocError> for Undone {
    fn from(_: AllocError) -> Undone {
        Undone::Memory
    }
}

/// A machine, the acts of a program, and what was told.
#[derive(Drop)]
pub(crate) struct Debugger<'a, const N: usize, const CAP: usize> {
    pub(crate) machine: Machine<N, CAP>,
    pub(crate) told: Told,
    acts: &'a [Act],
    position: usize,
    breaks: Vec<bool>,
    report: bool,
}

impl<'a, const N: usize, const CAP: usize> Debugger<'a, N, CAP> {
    pub(crate) fn new(
        alloc: Global,
        machine: Machine<N, CAP>,
        acts: &'a [Act],
    ) -> Result<Self, AllocError> {
        Ok(Debugger {
            machine,
            told: Told::new(alloc),
            acts,
            position: 0,
            breaks: vec![in alloc; false; acts.len()]?,
            report: false,
        })
    }

    /// Answers a line, if there is memory.
    pub(crate) fn answer(&mut self, asked: &Asked, chips: u16) -> Option<()>
        requires cube { chips ≡ 2 ^ N }
    {
        let done = match numbers(asked) {
            Ok(numbers) => self.obey(asked.kind, numbers, chips),
            Err(number) => Err(Undone::Refused(number)),
        };
        match done {
            Ok(()) => Some(()),
            Err(Undone::Refused(number)) => self.told.line("?", &[number]).ok(),
            Err(Undone::Memory) => None,
        }
    }

    /// The tag of the message that a chip's log told last, else of the first in its router.
    pub(crate) fn tag_at(&self, chip: u16, chips: u16) -> Option<Tag>
        requires cube { chips ≡ 2 ^ N }
        requires chip { chip < chips }
    {
        let mut events = Vec::new(*self.breaks.allocator());
        self.machine.log(chip).push_onto(&mut events).ok()?;
        match events.last() {
            Some(Event::Injected(message) | Event::Delivered { message, .. }) => Some(message.tag),
            None => Some(self.machine.buffer(chip).first()?.tag),
        }
    }

    fn obey(&mut self, kind: Kind, numbers: [u64; 4], chips: u16) -> Result<(), Undone>
        requires cube { chips ≡ 2 ^ N }
    {
        match kind {
            Kind::Step => self.step(),
            Kind::Run => self.run(),
            Kind::Break => self.put_break("break", numbers[0], true),
            Kind::Clear => self.put_break("clear", numbers[0], false),
            Kind::WireOn => self.put_report("wire on", true),
            Kind::WireOff => self.put_report("wire off", false),
            Kind::WireShow => self.wire(),
            Kind::Field => self.field(numbers, chips),
            Kind::Flag => self.flag(numbers, chips),
            Kind::Poke => self.poke(numbers, chips),
            Kind::PokeFlag => self.poke_flag(numbers, chips),
            Kind::Buffer => self.buffer(numbers[0], chips),
            Kind::Find => self.find(numbers, chips),
            Kind::Events => self.events(numbers[0], chips),
            Kind::Rule => self.rule(),
            Kind::Jump => Err(Undone::Refused(WORD)),
            Kind::WireUp => Err(Undone::Refused(OPERANDS)),
        }
    }

    fn tell(&mut self, words: &str, number: u64) -> Result<(), Undone> {
        self.told.line(words, &[number])?;
        Ok(())
    }

    // ---- acts

    fn step(&mut self) -> Result<(), Undone> {
        if self.goes_on()? && self.position < self.acts.len() {
            self.tell("at", self.position as u64)?;
        }
        Ok(())
    }

    fn run(&mut self) -> Result<(), Undone> {
        for _ in 0..=self.acts.len() {
            if !self.goes_on()? {
                return Ok(());
            }
            if self.breaks.get(self.position) == Some(&true) {
                return self.tell("at", self.position as u64);
            }
        }
        Ok(())
    }

    /// Runs the next act, if there is one; whether others are left.
    fn goes_on(&mut self) -> Result<bool, Undone> {
        let acts = self.acts;
        let Some(act) = acts.get(self.position) else {
            self.told.line("end", &[])?;
            return Ok(false);
        };
        match act {
            Act::Cycle if self.machine.clock() == LAST => {
                self.tell("?", CLOCK)?;
                return Ok(false);
            }
            Act::Sense if self.report => {
                let bit = u64::from(self.machine.wire());
                self.told.line("sense", &[self.position as u64, bit])?;
            }
            _ => {}
        }
        let Ok(()) = Plain.go(&mut self.machine, &[*act]) else {
            return Err(Undone::Memory);
        };
        self.position += 1;
        if self.position == acts.len() {
            self.told.line("end", &[])?;
        }
        Ok(self.position < acts.len())
    }

    fn put_break(&mut self, word: &str, number: u64, bit: bool) -> Result<(), Undone> {
        let place = below(number, self.acts.len())?;
        match self.breaks.get_mut(place) {
            Some(kept) => *kept = bit,
            None => return Err(Undone::Refused(RANGE)),
        }
        self.tell(word, number)
    }

    fn put_report(&mut self, words: &str, report: bool) -> Result<(), Undone> {
        self.report = report;
        self.told.line(words, &[])?;
        Ok(())
    }

    // ---- bits

    fn wire(&mut self) -> Result<(), Undone> {
        let bit = self.machine.wire();
        self.tell("wire", u64::from(bit))
    }

    fn field(&mut self, numbers: [u64; 4], chips: u16) -> Result<(), Undone>
        requires cube { chips ≡ 2 ^ N }
    {
        let [c, p, a, l] = numbers;
        let (chip, proc) = place(c, p, chips)?;
        if l == 0 || l > 64 {
            return Err(Undone::Refused(WIDTH));
        }
        if a > 4096 - l {
            return Err(Undone::Refused(RANGE));
        }
        let mut value = 0u64;
        for turn in 0..l {
            let at = address(a + turn)?;
            let bit = self.machine.chip(chip).read(proc, at);
            value |= u64::from(bit) << turn;
        }
        self.tell("field", value)
    }

    fn flag(&mut self, numbers: [u64; 4], chips: u16) -> Result<(), Undone>
        requires cube { chips ≡ 2 ^ N }
    {
        let [c, p, f, _] = numbers;
        let (chip, proc) = place(c, p, chips)?;
        let number = flag_number(f)?;
        let bit = self.machine.chip(chip).flag(proc, number);
        self.tell("flag", u64::from(bit))
    }

    fn poke(&mut self, numbers: [u64; 4], chips: u16) -> Result<(), Undone>
        requires cube { chips ≡ 2 ^ N }
    {
        let [c, p, a, b] = numbers;
        let (chip, proc) = place(c, p, chips)?;
        let at = address(a)?;
        let bit = below(b, 2)? == 1;
        self.machine.poke(chip, proc, at, bit);
        self.told.line("ok", &[])?;
        Ok(())
    }

    fn poke_flag(&mut self, numbers: [u64; 4], chips: u16) -> Result<(), Undone>
        requires cube { chips ≡ 2 ^ N }
    {
        let [c, p, f, b] = numbers;
        let (chip, proc) = place(c, p, chips)?;
        let number = flag_number(f)?;
        let bit = below(b, 2)? == 1;
        let Ok(()) = self.machine.poke_flag(chip, proc, number, bit) else {
            return Err(Undone::Refused(ZERO_FLAG));
        };
        self.told.line("ok", &[])?;
        Ok(())
    }

    // ---- messages

    fn buffer(&mut self, c: u64, chips: u16) -> Result<(), Undone>
        requires cube { chips ≡ 2 ^ N }
    {
        let messages = self.machine.buffer(chip_number(c, chips)?);
        self.told.line("buf", &[messages.len() as u64])?;
        for message in messages {
            self.told.message("msg", message)?;
        }
        Ok(())
    }

    fn rule(&mut self) -> Result<(), Undone> {
        let number = match self.machine.rule() {
            Rule::First => 0,
            Rule::Oldest => 1,
        };
        self.tell("rule", number)
    }

    fn find(&mut self, numbers: [u64; 4], chips: u16) -> Result<(), Undone>
        requires cube { chips ≡ 2 ^ N }
    {
        let [c, p, birth, _] = numbers;
        let (chip, proc) = place(c, p, chips)?;
        match self.machine.find(Tag { chip, proc, birth }) {
            Found::Router(chip) => self.tell("router", u64::from(chip)),
            Found::Delivered(chip, proc) => {
                let there = [u64::from(chip), u64::from(proc.get())];
                self.told.line("delivered", &there)?;
                Ok(())
            }
            Found::Unknown => {
                self.told.line("unknown", &[])?;
                Ok(())
            }
        }
    }

    fn events(&mut self, c: u64, chips: u16) -> Result<(), Undone>
        requires cube { chips ≡ 2 ^ N }
    {
        let log = self.machine.log(chip_number(c, chips)?);
        let mut events = Vec::new(*self.breaks.allocator());
        let Ok(()) = log.push_onto(&mut events) else {
            return Err(Undone::Memory);
        };
        self.told.line("events", &[log.len() as u64])?;
        for event in &events {
            match event {
                Event::Injected(message) => self.told.message("in", message)?,
                Event::Delivered { message, .. } => self.told.message("out", message)?,
            }
        }
        Ok(())
    }
}

// ---- what a line says

/// The numbers of a line that has as many operands as its command, or the first fault before their ranges.
fn numbers(asked: &Asked) -> Result<[u64; 4], u64> {
    if let Kind::Jump = asked.kind {
        return Err(WORD);
    }
    if asked.count != asked.kind.arity() {
        return Err(OPERANDS);
    }
    let mut numbers = [0; 4];
    for place in 0..4usize {
        match asked.operands[place] {
            Some(number) => numbers[place] = number,
            None if place < asked.count => return Err(NUMBER),
            None => {}
        }
    }
    Ok(numbers)
}

fn below(number: u64, limit: usize) -> Result<usize, Undone>
    ensures within { IfOk result (λ kept. kept < limit) }
{
    match usize::try_from(number) {
        Ok(number) if number < limit => Ok(number),
        _ => Err(Undone::Refused(RANGE)),
    }
}

fn chip_number(number: u64, chips: u16) -> Result<u16, Undone>
    ensures within { IfOk result (λ chip. chip < chips) }
{
    match u16::try_from(number) {
        Ok(chip) if chip < chips => Ok(chip),
        _ => Err(Undone::Refused(RANGE)),
    }
}

fn place(c: u64, p: u64, chips: u16) -> Result<(u16, Proc), Undone>
    ensures within { IfOk result (λ there. there.0 < chips) }
{
    let chip = chip_number(c, chips)?;
    match Proc::new(below(p, 16)? as u8) {
        Some(proc) => Ok((chip, proc)),
        None => Err(Undone::Refused(RANGE)),
    }
}

fn address(number: u64) -> Result<Addr, Undone> {
    match Addr::new(below(number, 4096)? as u16) {
        Some(at) => Ok(at),
        None => Err(Undone::Refused(RANGE)),
    }
}

fn flag_number(number: u64) -> Result<FlagNo, Undone> {
    match FlagNo::new(below(number, 16)? as u8) {
        Some(number) => Ok(number),
        None => Err(Undone::Refused(RANGE)),
    }
}
