//! Why words ask for nothing.

ghost use Rattle.std.specs.Prelude.{◌≡◌, ◌⊎◌, string_bytes};
ghost use Rattle.lab_args.specs.Refusals.{reported_refusal, Memory, Twice, UnknownCommand, UnknownOption, Wanted};

use crate::operands::Operand;
use cm_bits::FieldFault;
use std::alloc::Global;
use thiserror::Error;

/// Why the words of a command line ask for nothing, and what is told then.
#[derive(Debug, PartialEq, Eq, Drop, Error)]
pub enum CommandFault {
    /// The words ask for help, which is no fault.
    #[error("help")]
    Help,
    /// The words ask for the version, which is no fault either.
    #[error("version")]
    Version,
    /// There are no words.
    #[error("what is to be done? cm1lab --help tells what can be")]
    Words,
    /// No command has this name.
    #[error("unknown command `{word}`; cm1lab --help tells all")]
    UnknownCommand { word: String },
    /// A command has no option of this name. Its words are those that help tells.
    #[error("unknown option `{word}`; wanted is cm1lab {usage}")]
    UnknownOption { word: String, usage: String },
    #[error("{word} is given twice")]
    Twice { word: String },
    /// A command has other words. They are those that help tells.
    #[error("wanted is cm1lab {usage}")]
    Usage { usage: String },
    /// A word that is not what is wanted in its place, which help has by this name.
    #[error("{name} is {wanted}, not `{word}`", name = .operand.name(), wanted = .operand.wanted())]
    Operand { operand: Operand, word: String },
    /// An address and a length that no field has.
    #[error("{0}")]
    Field(FieldFault),
    #[error("out of memory")]
    Memory,
}

impl CommandFault {
    /// A word that names no command.
    pub(crate) fn command(alloc: Global, word: &str) -> CommandFault
        ensures { (reported_refusal result ≡ Memory) ⊎ (reported_refusal result ≡ UnknownCommand word.now) }
    {
        match String::from_str(alloc, word) {
            Ok(word) => CommandFault::UnknownCommand { word },
            Err(_) => CommandFault::Memory,
        }
    }

    /// A word that is no option of a command of these words.
    pub(crate) fn option(alloc: Global, word: &str, usage: String) -> CommandFault
        ensures { (reported_refusal result ≡ Memory)
            ⊎ (reported_refusal result ≡ UnknownOption word.now (string_bytes usage)) }
    {
        match String::from_str(alloc, word) {
            Ok(word) => CommandFault::UnknownOption { word, usage },
            Err(_) => CommandFault::Memory,
        }
    }

    /// An option that is given twice.
    pub(crate) fn twice(alloc: Global, word: &str) -> CommandFault
        ensures { (reported_refusal result ≡ Memory) ⊎ (reported_refusal result ≡ Twice word.now) }
    {
        match String::from_str(alloc, word) {
            Ok(word) => CommandFault::Twice { word },
            Err(_) => CommandFault::Memory,
        }
    }

    /// A word that is not what is wanted in its place.
    pub(crate) fn operand(alloc: Global, operand: Operand, word: &str) -> CommandFault
        ensures { (reported_refusal result ≡ Memory) ⊎ (reported_refusal result ≡ Wanted operand word.now) }
    {
        match String::from_str(alloc, word) {
            Ok(word) => CommandFault::Operand { operand, word },
            Err(_) => CommandFault::Memory,
        }
    }
}
