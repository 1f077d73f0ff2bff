//! What a text has said so far.

ghost use Rattle.std.specs.Prelude.{◌≡◌, ◌∷◌, [], Ok, OnOk, Err, OnErr, IfErr, ◌+◌, length, nat_lt, if◌then◌else◌};
ghost use Rattle.cm_bits.specs.Text.{words_left, words_of};
ghost use Rattle.cm_language.specs.Program.{Reading, nothing_read, reading_after_words, after_statement};
ghost use Rattle.cm_language.specs.Program.{after_definition};
ghost use Rattle.cm_language.specs.Program.{with_acts, with_macro, within_length, MOST_ACTS, IsLineFault};
ghost use Rattle.cm_language.specs.Names.{is_name, is_name_byte, field_named};
ghost use Rattle.std.specs.List.{list_all};
ghost use Rattle.cm_language.specs.Faults.{first_fault};

use crate::fields::Fields;
use crate::operands::{read_short, three_words};
use crate::program::Program;
use crate::single_pass::instruction_of;
use crate::statements::{read_statement, verb_of};
use cm_bits::{Field, FieldFault, Words};
use cm_language::{AsmKind, Context, Macro, MacroFault, Statement};
use cm_macros::{count_acts, expand};
use cm_model::Act;
use std::alloc::Global;
use std::marker::Model;

/// The most acts of a program.
const MOST_ACTS: usize = 65535;

/// The fields, the context and the acts of the lines that were read.
#[derive(Drop)]
pub struct Reader {
    fields: Fields,
    context: Context,
    acts: Vec<Act>,
}

impl Model for Reader {
    ghost use Rattle.cm_language.specs.Program.{Reading};

    ghost Value = { Reading };

    ghost view = { λ reader. record { fields = reader.fields; context = reader.context; acts = reader.acts.items } };
}

impl Reader {
    /// A reader that has read no line: it knows no field, its context is always, and it has no act.
    pub fn new(alloc: Global) -> Reader
        ensures { result ≡ nothing_read }
    {
        Reader {
            fields: Fields::new(alloc),
            context: Context::Always,
            acts: Vec::new(alloc),
        }
    }

    /// One line more. After a fault of a line whose acts are too many, or want memory, nothing is said of the acts.
    #[tactic(auto, using(crate::proofs::Reading::told_as_it_is))]
    pub fn read_line(&mut self, alloc: Global, line: &[u8]) -> Result<(), AsmKind>
        ensures ok { OnOk result (reading_after_words self.old (words_of line.now) ≡ Ok self.new) }
        ensures fault { IfErr result (IsLineFault self.old (reading_after_words self.old (words_of line.now))) }
        ensures fields { OnErr result (self.new.fields ≡ self.old.fields) }
        ensures context { OnErr result (self.new.context ≡ self.old.context) }
    {
        if let Some(nano) = instruction_of(line) {
            return self.add_act(Act::Nano(nano));
        }
        let mut words = Words::new(line);
        let Some(word) = words.next() else {
            return Ok(());
        };
        if word == b"field".as_slice() {
            return self.define(alloc, words);
        }
        let Some(verb) = verb_of(word) else {
            return Err(AsmKind::Word);
        };
        match read_statement(&self.fields, verb, words) {
            Ok(statement) => self.add(statement),
            Err(kind) => Err(kind),
        }
    }

    /// A field by the words after `field`.
    fn define(&mut self, alloc: Global, words: Words) -> Result<(), AsmKind>
        ensures ok { OnOk result (after_definition self.old (words_left words.entry) ≡ Ok self.new) }
        ensures fault { IfErr result (IsLineFault self.old (after_definition self.old (words_left words.entry))) }
        ensures fields { OnErr result (self.new.fields ≡ self.old.fields) }
        ensures context { OnErr result (self.new.context ≡ self.old.context) }
    {
        let Some((name, at, len)) = three_words(words) else {
            return Err(AsmKind::Operands);
        };
        if !is_name(name) {
            return Err(AsmKind::Name);
        }
        if self.fields.find(name).is_some() {
            return Err(AsmKind::Twice);
        }
        let at = match read_short(at) {
            Ok(at) => at,
            Err(kind) => return Err(kind),
        };
        let len = match read_short(len) {
            Ok(len) => len,
            Err(kind) => return Err(kind),
        };
        match Field::new(at, len) {
            Ok(field) => match self.fields.define(alloc, name, field) {
                Ok(()) => Ok(()),
                Err(_) => Err(AsmKind::Memory),
            },
            Err(FieldFault::Width) => Err(AsmKind::Width),
            Err(FieldFault::Range) => Err(AsmKind::Range),
        }
    }

    /// What a line says.
    fn add(&mut self, statement: Statement) -> Result<(), AsmKind>
        ensures ok { OnOk result (after_statement self.old statement ≡ Ok self.new) }
        ensures fault { IfErr result (IsLineFault self.old (after_statement self.old statement)) }
        ensures fields { OnErr result (self.new.fields ≡ self.old.fields) }
        ensures context { OnErr result (self.new.context ≡ self.old.context) }
    {
        match statement {
            Statement::Context(context) => {
                self.context = context;
                Ok(())
            }
            Statement::Macro(wanted) => self.add_macro(&wanted),
            Statement::Act(act) => self.add_act(act),
        }
    }

    #[tactic(auto, using(crate::proofs::Reading::told_growth))]
    fn add_macro(&mut self, wanted: &Macro) -> Result<(), AsmKind>
        ensures ok { OnOk result
            (with_macro self.old wanted.now (first_fault wanted.now self.old.context) ≡ Ok self.new) }
        ensures fault { IfErr result (IsLineFault self.old
            (with_macro self.old wanted.now (first_fault wanted.now self.old.context))) }
        ensures fields { OnErr result (self.new.fields ≡ self.old.fields) }
        ensures context { OnErr result (self.new.context ≡ self.old.context) }
    {
        match expand(wanted, self.context, &mut self.acts) {
            Ok(()) => self.check_length(),
            Err(MacroFault::Memory) => Err(self.refused_growth(count_acts(wanted, self.context))),
            Err(fault) => Err(fault.kind()),
        }
    }

    #[tactic(auto, using(crate::proofs::Reading::told_growth))]
    fn add_act(&mut self, act: Act) -> Result<(), AsmKind>
        ensures ok { OnOk result (with_acts self.old (act ∷ []) ≡ Ok self.new) }
        ensures fault { IfErr result (IsLineFault self.old (with_acts self.old (act ∷ []))) }
        ensures fields { OnErr result (self.new.fields ≡ self.old.fields) }
        ensures context { OnErr result (self.new.context ≡ self.old.context) }
    {
        match self.acts.push(act) {
            Ok(()) => self.check_length(),
            Err(_) => Err(self.refused_growth(1)),
        }
    }

    /// These acts come next, whatever the context.
    #[tactic(auto, using(crate::proofs::Reading::told_growth))]
    pub fn add_acts(&mut self, acts: &[Act]) -> Result<(), AsmKind>
        ensures ok { OnOk result (with_acts self.old acts.now ≡ Ok self.new) }
        ensures fault { IfErr result (IsLineFault self.old (with_acts self.old acts.now)) }
        ensures fields { OnErr result (self.new.fields ≡ self.old.fields) }
        ensures context { OnErr result (self.new.context ≡ self.old.context) }
    {
        if acts.is_empty() {
            return self.check_length();
        }
        match self.acts.extend_from_slice(acts) {
            Ok(()) => self.check_length(),
            Err(_) => Err(self.refused_growth(acts.len())),
        }
    }

    /// Why so many acts more are refused where memory is wanting: a program that would be too long is told so.
    fn refused_growth(&self, count: usize) -> AsmKind
        ensures { result
            ≡ (if nat_lt MOST_ACTS (length self.now.acts + count) then AsmKind.TooLong else AsmKind.Memory) }
    {
        match self.acts.len().checked_add(count) {
            Some(len) if len <= MOST_ACTS => AsmKind::Memory,
            _ => AsmKind::TooLong,
        }
    }

    fn check_length(&self) -> Result<(), AsmKind>
        ensures ok { OnOk result (within_length self.now ≡ Ok self.now) }
        ensures fault { IfErr result (λ kind. within_length self.now ≡ Err kind) }
    {
        if self.acts.len() > MOST_ACTS {
            Err(AsmKind::TooLong)
        } else {
            Ok(())
        }
    }

    /// The field of a name.
    pub fn find(&self, name: &[u8]) -> Option<Field>
        ensures value { result ≡ field_named self.now.fields name.now }
    {
        self.fields.find(name)
    }

    /// The context of the macros that follow.
    pub fn context(&self) -> Context
        ensures value { result ≡ self.now.context }
    {
        self.context
    }

    /// The acts of the lines that were read, from the first that was not forgotten.
    pub fn acts(&self) -> &[Act]
        ensures value { result.now ≡ self.now.acts }
    {
        self.acts.as_slice()
    }

    /// Names and context stay, as if the lines before had added no acts.
    pub fn forget_acts(&mut self)
        ensures fields { self.new.fields ≡ self.old.fields }
        ensures context { self.new.context ≡ self.old.context }
        ensures acts { self.new.acts ≡ [] }
    {
        self.acts.clear();
    }

    /// The program of the fields and the acts that were read.
    pub fn into_program(self) -> Program
        ensures { result ≡ record { fields = self.fields; acts = self.acts } }
    {
        Program::new(self.fields, self.acts)
    }
}

/// A letter, and then letters, digits and `_`.
pub fn is_name(word: &[u8]) -> bool
    ensures { result ≡ is_name word.now }
{
    match word {
        [first, rest @ ..] => first.is_ascii_alphabetic() && are_name_bytes(rest),
        [] => false,
    }
}

fn are_name_bytes(bytes: &[u8]) -> bool
    ensures { result ≡ list_all is_name_byte bytes.now }
{
    bytes
        .iter()
        .all(|byte| byte.is_ascii_alphanumeric() || *byte == b'_')
}
