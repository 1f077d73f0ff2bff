//! The order in which the lines of a source are carried out.

ghost use Rattle.std.specs.Prelude.{◌≡◌, ◌≢◌, ◌++◌, ◌∷◌, [], ◌+◌, ◌*◌, ◌^◌, ◌<◌, ◌≤◌, ◌↔◌, IsTrue, true, false, nat_lt};
ghost use Rattle.std.specs.Prelude.{drop, length, Ok, Err, OnOk, IfOk, IfErr};
ghost use Rattle.cm_bits.specs.Text.{words_left, words_of};
ghost use Rattle.cm_language.specs.declared.fault.AsmKind.TheVariants as asm;
ghost use Rattle.lab_source.specs.declared.fault.SourceKind.TheVariants.{Asm, TooMany};
ghost use Rattle.lab_source.specs.Layout.{MOST_LINES, nothing_laid, times};
ghost use Rattle.lab_source.specs.Layout.{after_repeat, after_end, after_constant, after_other, layout_after_words};
ghost use Rattle.lab_source.specs.Layout.{repeat_closed};
ghost use Rattle.lab_source.specs.Layout.{unless_open};

use crate::constants::Constants;
use crate::fault::{SourceFault, SourceKind};
use cm_asm::{is_name, read_direction};
use cm_bits::Words;
use cm_language::AsmKind;
use std::alloc::Global;
use std::marker::Model;

/// The most lines that are carried out.
const MOST_LINES: usize = 65535;

/// A `repeat` whose `end` has not come.
#[derive(Clone, Copy, Debug, PartialEq, Eq)]
pub struct Opened {
    /// Its number among the lines of the source, counted from 1.
    pub line: u64,
    /// How often the lines up to its `end` come.
    pub count: u16,
    /// How many lines are carried out before those.
    pub start: usize,
}

/// What the lines of a source so far have laid out.
#[derive(Drop)]
pub struct Layout {
    constants: Constants,
    /// The outermost first.
    opened: Vec<Opened>,
    order: Vec<usize>,
}

impl Model for Layout {
    ghost use Rattle.std.specs.Prelude.{reverse};
    ghost use Rattle.lab_source.specs.Layout.{Layout};

    ghost Value = { Layout };

    ghost view = { λ layout. record {
      constants = layout.constants;
      opened = reverse layout.opened.items;
      order = layout.order.items;
    } };
}

impl Layout {
    /// Before the first line.
    pub fn new(alloc: Global) -> Layout
        ensures { result ≡ nothing_laid }
    {
        Layout {
            constants: Constants::new(alloc),
            opened: Vec::new(alloc),
            order: Vec::new(alloc),
        }
    }

    /// One line more, at this place. After a fault the layout is not used again.
    pub fn read_line(&mut self, alloc: Global, place: usize, line: &[u8]) -> Result<(), SourceKind>
        requires within { place + 1 < 2 ^ 64 }
        ensures ok { OnOk result (layout_after_words self.old place (words_of line.now) ≡ Ok self.new) }
        ensures fault { IfErr result (λ kind. kind ≢ Asm asm.Memory
            → layout_after_words self.old place (words_of line.now) ≡ Err kind) }
    {
        let mut words = Words::new(line);
        let Some(word) = words.next() else {
            return Ok(());
        };
        if word == b"repeat".as_slice() {
            return self.open(place, words);
        }
        if word == b"end".as_slice() {
            return self.end(alloc, words);
        }
        if word == b"constant".as_slice() {
            return self.define(alloc, words);
        }
        self.add(place)
    }

    /// `repeat`, by its operands.
    fn open(&mut self, place: usize, mut words: Words) -> Result<(), SourceKind>
        requires within { place + 1 < 2 ^ 64 }
        ensures ok { OnOk result (after_repeat self.old place (words_left words.entry) ≡ Ok self.new) }
        ensures fault { IfErr result (λ kind. kind ≢ Asm asm.Memory
            → after_repeat self.old place (words_left words.entry) ≡ Err kind) }
    {
        let (Some(count), None) = (words.next(), words.next()) else {
            return Err(SourceKind::Asm(AsmKind::Operands));
        };
        let count = match self.constants.number(count) {
            Some(count) if count < 65536 => count as u16,
            _ => return Err(SourceKind::Asm(AsmKind::Number)),
        };
        let innermost = Opened {
            line: place as u64 + 1,
            count,
            start: self.order.len(),
        };
        match self.opened.push(innermost) {
            Ok(()) => Ok(()),
            Err(_) => Err(SourceKind::Asm(AsmKind::Memory)),
        }
    }

    /// `end`, by its operands.
    fn end(&mut self, alloc: Global, mut words: Words) -> Result<(), SourceKind>
        ensures ok { OnOk result (after_end self.old (words_left words.entry) ≡ Ok self.new) }
        ensures fault { IfErr result (λ kind. kind ≢ Asm asm.Memory
            → after_end self.old (words_left words.entry) ≡ Err kind) }
    {
        if words.next().is_some() {
            return Err(SourceKind::Asm(AsmKind::Operands));
        }
        match self.opened.pop() {
            Some(innermost) => self.repeat(alloc, &innermost),
            None => Err(SourceKind::NoRepeat),
        }
    }

    /// The lines since a `repeat` come as often as it says.
    fn repeat(&mut self, alloc: Global, innermost: &Opened) -> Result<(), SourceKind>
        ensures ok { OnOk result (repeat_closed self.old (innermost.now ∷ self.old.opened) ≡ Ok self.new) }
        ensures fault { IfErr result (λ kind. kind ≢ Asm asm.Memory
            → repeat_closed self.old (innermost.now ∷ self.old.opened) ≡ Err kind) }
    {
        let repeated = lines_from(alloc, self.order.as_slice(), innermost.start)?;
        self.order.truncate(innermost.start);
        push_times(&mut self.order, repeated.as_slice(), innermost.count)
    }

    /// `constant`, by its operands.
    fn define(&mut self, alloc: Global, mut words: Words) -> Result<(), SourceKind>
        ensures ok { OnOk result (after_constant self.old (words_left words.entry) ≡ Ok self.new) }
        ensures fault { IfErr result (λ kind. kind ≢ Asm asm.Memory
            → after_constant self.old (words_left words.entry) ≡ Err kind) }
    {
        let (Some(name), Some(value), None) = (words.next(), words.next(), words.next()) else {
            return Err(SourceKind::Asm(AsmKind::Operands));
        };
        if !is_name(name) || read_direction(name).is_ok() {
            return Err(SourceKind::Asm(AsmKind::Name));
        }
        if self.constants.find(name).is_some() {
            return Err(SourceKind::Asm(AsmKind::Twice));
        }
        let Some(number) = self.constants.number(value) else {
            return Err(SourceKind::Asm(AsmKind::Number));
        };
        self.constants.define(alloc, name, number)?;
        Ok(())
    }

    /// A line that is carried out where it stands.
    fn add(&mut self, place: usize) -> Result<(), SourceKind>
        ensures ok { OnOk result (after_other self.old place ≡ Ok self.new) }
        ensures fault { IfErr result (λ kind. kind ≢ Asm asm.Memory → after_other self.old place ≡ Err kind) }
    {
        if self.order.push(place).is_err() {
            return Err(SourceKind::Asm(AsmKind::Memory));
        }
        if self.order.len() > MOST_LINES {
            return Err(SourceKind::TooMany);
        }
        Ok(())
    }

    /// The layout, if every `repeat` has its `end`.
    pub fn all_closed(self) -> Result<Layout, SourceFault>
        ensures value { result ≡ unless_open self self.opened }
    {
        match self.opened.last() {
            Some(innermost) => Err(SourceFault {
                line: innermost.line,
                kind: SourceKind::NoEnd,
            }),
            None => Ok(self),
        }
    }

    /// The constants, and the places of lines in the order in which they are carried out.
    pub fn into_parts(self) -> (Constants, Vec<usize>)
        ensures constants { result.0 ≡ self.constants }
        ensures order { result.1.items ≡ self.order }
    {
        (self.constants, self.order)
    }
}

/// The places from one on.
fn lines_from(alloc: Global, order: &[usize], start: usize) -> Result<Vec<usize>, SourceKind>
    ensures value { IfOk result (λ places. places.items ≡ drop start order.now) }
    ensures fault { IfErr result (λ kind. kind ≡ Asm asm.Memory) }
{
    if start >= order.len() {
        return Ok(Vec::new(alloc));
    }
    let places = Vec::from_slice(alloc, &order[start..])?;
    Ok(places)
}

/// Some places so many times, unless too many lines would be carried out then.
#[tactic(auto, using(crate::proofs::Laying::more_behind))]
fn push_times(order: &mut Vec<usize>, places: &[usize], count: u16) -> Result<(), SourceKind>
    ensures ok { OnOk result (order.new.items ≡ order.old.items ++ times count places.now) }
    ensures few { OnOk result (nat_lt MOST_LINES (length (order.old.items ++ times count places.now)) ≡ false) }
    ensures fault { IfErr result (λ kind. kind ≢ Asm asm.Memory → kind ≡ TooMany) }
    ensures many { IfErr result (λ kind. kind ≢ Asm asm.Memory
        → nat_lt MOST_LINES (length (order.old.items ++ times count places.now)) ≡ true) }
{
    if !is_within(order.len(), places.len(), count) {
        return Err(SourceKind::TooMany);
    }
    for _round in 0..count {
        order.extend_from_slice(places)?;
    }
    Ok(())
}

/// Whether so many lines, and others so many times, are no more than can be carried out.
fn is_within(before: usize, repeated: usize, count: u16) -> bool
    ensures value { IsTrue result ↔ (before + count * repeated ≤ 65535) }
{
    match usize::from(count).checked_mul(repeated) {
        Some(more) => more <= MOST_LINES && before <= MOST_LINES - more,
        None => false,
    }
}
