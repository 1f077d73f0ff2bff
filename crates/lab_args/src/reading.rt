//! What the words of a command line ask for.

ghost use Rattle.std.specs.Prelude.{◌≡◌, ◌⊎◌, IfOk, IfErr, MatchOption, None, Ok, Some, bytes_eq};
ghost use Rattle.std.specs.List.{list_any};
ghost use Rattle.lab_args.specs.Words.{texts};
ghost use Rattle.lab_args.specs.Refusals.{Memory, Reports, reported_refusal};
ghost use Rattle.lab_args.specs.Requests.{requested};
ghost use Rattle.lab_args.specs.Commands.{Explains, IsExplained, Refuses, expanding, freshening, fronting};
ghost use Rattle.lab_args.specs.Commands.{given_twice, is_single, loading, request_named, plotting, request_of};
ghost use Rattle.lab_args.specs.Commands.{plotting_of, with_bound};

use crate::blanks::{Blank, read_blank};
use crate::fault::CommandFault;
use crate::help::{is_command, unknown_option, usage_of};
use crate::loads::{Loads, read_loads};
use crate::operands::{Operand, file_named, is_option, long_number};
use crate::tasks::read_task;
use lab_data::Task;
use lab_route_plot::Cycles;
use std::alloc::Global;

/// Where that is what a task is given beside the image.
#[derive(Clone, Copy)]
pub enum Given<'a> {
    Nothing,
    /// Numbers on standard input.
    Numbers,
    /// The file of a picture.
    Picture(&'a str),
    /// That of a program.
    Program(&'a str),
}

/// What the words ask for.
#[derive(Drop)]
pub enum Command<'a> {
    /// A task of lab_data.
    Task(Asked<'a>),
    /// A front end over the machine of an image, and the file into which the image goes that it leaves.
    Front {
        image: &'a str,
        out: Option<&'a str>,
    },
    /// The program of a source.
    Expand {
        source: &'a str,
    },
    /// A blank machine.
    Fresh(Blank<'a>),
    /// Loads of the router.
    Load(Loads<'a>),
    /// The picture of a table, which is in this file or on standard input, or of these petit cycles of a route.
    Plot {
        file: Option<&'a str>,
        cycles: Cycles,
    },
}

/// A task: of which image, with what is given beside it, and into which file, if the machine changes.
#[derive(Clone, Copy)]
pub struct Asked<'a> {
    pub task: Task,
    pub image: &'a str,
    pub given: Given<'a>,
    pub out: Option<&'a str>,
}

/// Reads the words, of which the first is the program's name.
pub fn read_words<'a>(alloc: Global, words: &[&'a str]) -> Result<Command<'a>, CommandFault>
    ensures once { IfOk result (λ command. given_twice (texts words.now) ≡ None) }
    ensures value { IfOk result (λ command. request_of (texts words.now) ≡ Ok (requested command)) }
    ensures refused { IfErr result (λ fault. Refuses (texts words.now) (reported_refusal fault)) }
{
    if let Some(option) = given_twice(words) {
        return Err(CommandFault::twice(alloc, option));
    }
    match read_command(alloc, words) {
        Ok(command) => Ok(command),
        Err(CommandFault::Words) => Err(why_not(alloc, words)),
        Err(fault) => Err(fault),
    }
}

/// Why words ask for nothing.
fn why_not(alloc: Global, words: &[&str]) -> CommandFault
    ensures { (reported_refusal result ≡ Memory) ⊎ Explains (texts words.now) (reported_refusal result) }
{
    match words {
        [_, command, rest @ ..] => {
            if stands_in("--help", rest) {
                CommandFault::Help
            } else {
                not_of(alloc, command, rest)
            }
        }
        _ => CommandFault::Words,
    }
}

/// Why a command does not take these words.
fn not_of(alloc: Global, command: &str, words: &[&str]) -> CommandFault
    ensures { (reported_refusal result ≡ Memory) ⊎ IsExplained command.now (texts words.now) (reported_refusal result) }
{
    if !is_command(command) {
        return CommandFault::command(alloc, command);
    }
    let usage = match usage_of(alloc, command) {
        Ok(usage) => usage,
        Err(_) => return CommandFault::Memory,
    };
    match unknown_option(command, words) {
        Some(option) => CommandFault::option(alloc, option, usage),
        None => CommandFault::Usage { usage },
    }
}

/// The first option that is given a second time. Cut wires may be several.
fn given_twice<'a>(words: &[&'a str]) -> Option<&'a str>
    ensures { MatchOption result (given_twice (texts words.now) ≡ None)
        (λ word. given_twice (texts words.now) ≡ Some word.now) }
{
    for (place, word) in words.iter().enumerate() {
        if is_single(word) && stands_in(word, &words[..place]) {
            return Some(*word);
        }
    }
    None
}

/// Whether a word is one of these.
pub(crate) fn stands_in(word: &str, words: &[&str]) -> bool
    ensures { result ≡ list_any (λ other. bytes_eq other word.now) (texts words.now) }
{
    words.contains(&word)
}

fn is_single(word: &str) -> bool
    ensures { result ≡ is_single word.now }
{
    is_option(word) && word != "--cut"
}

fn read_command<'a>(alloc: Global, words: &[&'a str]) -> Result<Command<'a>, CommandFault>
    ensures value { IfOk result (λ command. request_of (texts words.now) ≡ Ok (requested command)) }
    ensures refused { IfErr result (Reports (request_of (texts words.now))) }
{
    match words {
        [_, command, rest @ ..] => read_named(alloc, command, rest),
        _ => Err(CommandFault::Words),
    }
}

/// What the words behind the name of a command ask for.
fn read_named<'a>(
    alloc: Global,
    command: &str,
    words: &[&'a str],
) -> Result<Command<'a>, CommandFault>
    ensures value { IfOk result (λ found. request_named command.now (texts words.now) ≡ Ok (requested found)) }
    ensures refused { IfErr result (Reports (request_named command.now (texts words.now))) }
{
    match command {
        "front" => read_fronting(words),
        "expand" => read_expanding(words),
        "fresh" => read_freshening(alloc, words),
        "load" => read_loading(alloc, words),
        "plot" => read_plotting(alloc, words),
        "--help" => Err(CommandFault::Help),
        "-h" => Err(CommandFault::Help),
        "help" => Err(CommandFault::Help),
        "--version" => Err(CommandFault::Version),
        _ => {
            let asked = read_task(alloc, command, words)?;
            Ok(Command::Task(asked))
        }
    }
}

fn read_fronting<'a>(words: &[&'a str]) -> Result<Command<'a>, CommandFault>
    ensures value { IfOk result (λ command. fronting (texts words.now) ≡ Ok (requested command)) }
    ensures refused { IfErr result (Reports (fronting (texts words.now))) }
{
    match words {
        [image] => Ok(Command::Front { image, out: None }),
        [first, second, third] => {
            if *second == "--out" {
                let out = file_named(third)?;
                Ok(Command::Front {
                    image: first,
                    out: Some(out),
                })
            } else if *first == "--out" {
                let out = file_named(second)?;
                Ok(Command::Front {
                    image: third,
                    out: Some(out),
                })
            } else {
                Err(CommandFault::Words)
            }
        }
        _ => Err(CommandFault::Words),
    }
}

fn read_expanding<'a>(words: &[&'a str]) -> Result<Command<'a>, CommandFault>
    ensures value { IfOk result (λ command. expanding (texts words.now) ≡ Ok (requested command)) }
    ensures refused { IfErr result (Reports (expanding (texts words.now))) }
{
    match words {
        [source] => Ok(Command::Expand { source }),
        _ => Err(CommandFault::Words),
    }
}

fn read_freshening<'a>(alloc: Global, words: &[&'a str]) -> Result<Command<'a>, CommandFault>
    ensures value { IfOk result (λ command. freshening (texts words.now) ≡ Ok (requested command)) }
    ensures refused { IfErr result (Reports (freshening (texts words.now))) }
{
    match words {
        [n, room, rest @ ..] => match read_blank(alloc, n, room, rest) {
            Ok(blank) => Ok(Command::Fresh(blank)),
            Err(fault) => Err(fault),
        },
        _ => Err(CommandFault::Words),
    }
}

fn read_loading<'a>(alloc: Global, words: &[&'a str]) -> Result<Command<'a>, CommandFault>
    ensures value { IfOk result (λ command. loading (texts words.now) ≡ Ok (requested command)) }
    ensures refused { IfErr result (Reports (loading (texts words.now))) }
{
    match words {
        [n, room, rates, cycles, options @ ..] => {
            let loads = read_loads(alloc, n, room, rates, cycles, options)?;
            Ok(Command::Load(loads))
        }
        _ => Err(CommandFault::Words),
    }
}

fn read_plotting<'a>(alloc: Global, words: &[&'a str]) -> Result<Command<'a>, CommandFault>
    ensures value { IfOk result (λ command. plotting (texts words.now) ≡ Ok (requested command)) }
    ensures refused { IfErr result (Reports (plotting (texts words.now))) }
{
    read_plotting_of(alloc, Cycles::ALL, words)
}

/// The same, of the petit cycles that options have said.
fn read_plotting_of<'a>(
    alloc: Global,
    cycles: Cycles,
    words: &[&'a str],
) -> Result<Command<'a>, CommandFault>
    ensures value { IfOk result (λ command. plotting_of cycles (texts words.now) ≡ Ok (requested command)) }
    ensures refused { IfErr result (Reports (plotting_of cycles (texts words.now))) }
{
    match words {
        [] => Ok(Command::Plot { file: None, cycles }),
        [file] => Ok(Command::Plot {
            file: Some(file),
            cycles,
        }),
        [option, word, after @ ..] => {
            let changed = with_bound(alloc, cycles, option, word)?;
            read_plotting_of(alloc, changed, after)
        }
    }
}

/// The petit cycles with what an option says, by the word behind it.
fn with_bound(
    alloc: Global,
    cycles: Cycles,
    option: &str,
    word: &str,
) -> Result<Cycles, CommandFault>
    ensures value { IfOk result (λ changed. with_bound cycles option.now word.now ≡ Ok changed) }
    ensures refused { IfErr result (Reports (with_bound cycles option.now word.now)) }
{
    match option {
        "--from" => {
            let from = long_number(alloc, Operand::Bound, word)?;
            Ok(Cycles { from, ..cycles })
        }
        "--to" => {
            let to = long_number(alloc, Operand::Bound, word)?;
            Ok(Cycles { to, ..cycles })
        }
        _ => Err(CommandFault::Words),
    }
}
