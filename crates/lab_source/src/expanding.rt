//! What came out of a source so far.

ghost use Rattle.std.specs.Prelude.{◌≡◌, ◌≢◌, ◌+◌, ◌<◌, ◌≤◌, ◌^◌, ◌++◌, ◌∷◌, [], Ok, Err, OnOk, IfErr, flat_map};
ghost use Rattle.std.specs.Prelude.{length};
ghost use Rattle.cm_bits.specs.Text.{words_of};
ghost use Rattle.cm_language.specs.declared.fault.AsmKind.TheVariants as asm;
ghost use Rattle.lab_source.specs.declared.fault.SourceKind.TheVariants.{Asm};
ghost use Rattle.lab_source.specs.Expansion.{nothing_out, expansion_after_line, expansion_after_phrase, after_plain};
ghost use Rattle.lab_source.specs.Expansion.{expansion_after_place};
ghost use Rattle.lab_source.specs.Expansion.{phrase_text, within_bytes};
ghost use Rattle.lab_source.specs.Says.{phrase_verb_of};

use crate::acts::acts_of;
use crate::constants::Constants;
use crate::fault::SourceKind;
use crate::fits::fault_of;
use crate::plain::push_plain;
use crate::says::{phrase_of, verb_of};
use cm_asm::{Reader, push_act_line};
use cm_model::Act;
use lab_phrases::Phrase;
use std::alloc::{AllocError, Global};
use std::marker::Model;

/// The most bytes that come out.
const MOST_BYTES: usize = 16777216;

/// A text, and what it says as a program.
#[derive(Drop)]
pub struct Expanding {
    reader: Reader,
    text: Vec<u8>,
}

impl Model for Expanding {
    ghost use Rattle.lab_source.specs.Expansion.{Expansion};

    ghost Value = { Expansion };

    ghost view = { λ out. record { reading = out.reader; text = out.text.items } };
}

impl Expanding {
    /// Before the first line.
    pub fn new(alloc: Global) -> Expanding
        ensures { result ≡ nothing_out }
    {
        Expanding {
            reader: Reader::new(alloc),
            text: Vec::new(alloc),
        }
    }

    /// One line more, the one at this place. After a fault nothing is asked of what came out.
    pub fn write(
        &mut self,
        alloc: Global,
        constants: &Constants,
        place: usize,
        line: &[u8],
    ) -> Result<(), SourceKind>
        requires within { place + 1 < 2 ^ 64 }
        ensures ok { OnOk result (expansion_after_place constants.now self.old place line.now ≡ Ok self.new) }
        ensures fault { IfErr result (λ kind. kind ≢ Asm asm.Memory
            → expansion_after_place constants.now self.old place line.now ≡ Err kind) }
    {
        let mut plain = Vec::new(alloc);
        push_plain(&mut plain, constants, place, line)?;
        self.write_plain(alloc, place, plain.as_slice())
    }

    /// A line without constants.
    fn write_plain(&mut self, alloc: Global, place: usize, line: &[u8]) -> Result<(), SourceKind>
        requires within { place + 1 < 2 ^ 64 }
        ensures ok { OnOk result (after_plain self.old place line.now (phrase_verb_of (words_of line.now))
            ≡ Ok self.new) }
        ensures fault { IfErr result (λ kind. kind ≢ Asm asm.Memory
            → after_plain self.old place line.now (phrase_verb_of (words_of line.now)) ≡ Err kind) }
    {
        match verb_of(line) {
            Some(asked) => {
                let said = phrase_of(&self.reader, asked, line)?;
                self.write_phrase(alloc, place, &said)
            }
            None => self.write_line(alloc, line),
        }
    }

    /// A line of the program language.
    fn write_line(&mut self, alloc: Global, line: &[u8]) -> Result<(), SourceKind>
        ensures ok { OnOk result (expansion_after_line self.old line.now ≡ Ok self.new) }
        ensures fault { IfErr result (λ kind. kind ≢ Asm asm.Memory → expansion_after_line self.old line.now
            ≡ Err kind) }
    {
        match self.reader.read_line(alloc, line) {
            Ok(()) => {}
            Err(kind) => return Err(SourceKind::Asm(kind)),
        }
        self.text.extend_from_slice(line)?;
        self.text.extend_from_slice(b"\n")?;
        self.check_length()
    }

    /// A phrase: its acts come out.
    fn write_phrase(&mut self, alloc: Global, place: usize, said: &Phrase) -> Result<(), SourceKind>
        requires within { place + 1 < 2 ^ 64 }
        ensures ok { OnOk result (expansion_after_phrase self.old place said.now ≡ Ok self.new) }
        ensures fault { IfErr result (λ kind. kind ≢ Asm asm.Memory
            → expansion_after_phrase self.old place said.now ≡ Err kind) }
    {
        let context = self.reader.context();
        if let Some(fault) = fault_of(said, &context) {
            return Err(SourceKind::Asm(fault.kind()));
        }
        let acts = acts_of(alloc, said, &context)?;
        match self.reader.add_acts(acts.as_slice()) {
            Ok(()) => {}
            Err(kind) => return Err(SourceKind::Asm(kind)),
        }
        push_lines(&mut self.text, place, acts.as_slice())?;
        self.check_length()
    }

    fn check_length(&self) -> Result<(), SourceKind>
        ensures ok { OnOk result (within_bytes self.now ≡ Ok self.now) }
        ensures fault { IfErr result (λ kind. within_bytes self.now ≡ Err kind) }
    {
        if self.text.len() > MOST_BYTES {
            Err(SourceKind::TooLarge)
        } else {
            Ok(())
        }
    }

    /// What came out.
    pub fn into_text(self) -> Vec<u8>
        ensures value { result.items ≡ self.text }
    {
        self.text
    }
}

/// The lines of acts, each with the number of the line at this place as a comment.
fn push_lines(text: &mut Vec<u8>, place: usize, acts: &[Act]) -> Result<(), AllocError>
    requires within { place + 1 < 2 ^ 64 }
    ensures ok { OnOk result (text.new.items ≡ text.old.items ++ phrase_text place acts.now) }
{
    for act in acts {
        push_act_line(text, place + 1, act)?;
    }
    Ok(())
}
