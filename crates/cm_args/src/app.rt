//! The command that clap reads: the program, with a leaf for each of its subcommands.
//!
//! Arguments and leaves are kept in lists while more are made: a `Command` or an `Arg` that is alive in a function is
//! proved there with the whole of its type, and a list of them is not.

ghost use Rattle.std.specs.Prelude.{◌≡◌, ◌++◌, ◌∷◌, [], map, IfOk, IsErrOf, false, codes};
ghost use Rattle.std.specs.List.{All};
ghost use Rattle.clap.specs.Walk.{rule_of, texts};
ghost use Rattle.clap.specs.Simple.{app_of, shape_of};
ghost use Rattle.clap.specs.declared.error.kind.ErrorKind.TheVariants.{OutOfMemory};
ghost use Rattle.clap.specs.declared.builder.command.Command.TheViews.{out-Command as fields_of};
ghost use Rattle.cm_args.specs.Lines.{IsTaken, IsRead, IsLocal, IsLocalArg, rule_of_kind, rules_of_leaf, leaf_app};
ghost use Rattle.cm_args.specs.Lines.{chip_app, list_app, fresh_app, run_app, weave_app};
ghost use Rattle.cm_args.specs.Lines.{program_app, with_subcommands, bare_app};

use crate::fault::LineFault;
use clap::error::ErrorKind;
use clap::{Arg, ArgMatches, Command};
use std::alloc::{AllocError, Global};

/// The name of the operand that is a program's file.
pub(crate) const PROGRAM: &str = "program";

/// The names of the operands of `fresh`.
pub(crate) const DIMENSION: &str = "n";

pub(crate) const ROOM: &str = "cap";

pub(crate) const FILE: &str = "file";

/// The names of what `run` and `weave` have besides their program: operands, and options.
pub(crate) const IMAGE: &str = "image";

pub(crate) const STEPS: &str = "steps";

pub(crate) const SPLIT: &str = "split";

pub(crate) const WORKERS: &str = "workers";

pub(crate) const OUT: &str = "out";

/// The names of the arguments of a kind of which a subcommand has none.
const NONE: &[&str] = &[];

/// The kinds of the arguments of a subcommand.
#[derive(Clone, Copy)]
enum ArgKind {
    /// An operand that must stand there.
    Operand,
    /// An operand that may stand there.
    Further,
    /// An option that has a value.
    Valued,
}

/// What clap finds in the words, by the rules of the program.
pub(crate) fn matches<'a>(alloc: Global, words: &'a [&'a str]) -> Result<ArgMatches<'a>, LineFault>
    ensures found { IfOk result (IsRead (texts words.now)) }
    ensures bad_line { IsErrOf result LineFault.BadLine → ¬ IsTaken (texts words.now) }
{
    match program(alloc)?.try_get_matches_from(words) {
        Ok(found) => Ok(found),
        Err(error) => Err(fault_of_kind(error.kind())),
    }
}

/// The fault of a line in which clap finds an error of this kind.
fn fault_of_kind(kind: ErrorKind) -> LineFault
    ensures { result ≡ LineFault.BadLine → ¬ (kind ≡ OutOfMemory) }
{
    if kind == ErrorKind::OutOfMemory {
        LineFault::Memory
    } else {
        LineFault::BadLine
    }
}

/// The program, with each of its subcommands.
pub(crate) fn program<'a>(alloc: Global) -> Result<Command<'a>, AllocError>
    ensures { IfOk result (λ made. app_of made ≡ program_app) }
{
    let mut leaves = Vec::new(alloc);
    add_leaves_without_image(alloc, &mut leaves)?;
    add_leaves_of_image(alloc, &mut leaves)?;
    program_of(alloc, leaves)
}

/// Adds the subcommands that read no image.
fn add_leaves_without_image<'a>(
    alloc: Global,
    leaves: &mut Vec<Command<'a>>,
) -> Result<(), AllocError>
    ensures added { IfOk result (λ _. map shape_of leaves.new.items
        ≡ map shape_of leaves.old.items ++ chip_app.top ∷ list_app.top ∷ fresh_app.top ∷ []) }
    ensures local { All IsLocal leaves.old.items → IfOk result (λ _. All IsLocal leaves.new.items) }
{
    add_leaf(alloc, leaves, "chip", NONE, NONE, NONE)?;
    add_leaf(alloc, leaves, "list", &[PROGRAM], NONE, NONE)?;
    add_leaf(alloc, leaves, "fresh", &[DIMENSION, ROOM, FILE], NONE, NONE)
}

/// Adds the subcommands that read an image.
fn add_leaves_of_image<'a>(alloc: Global, leaves: &mut Vec<Command<'a>>) -> Result<(), AllocError>
    ensures added { IfOk result (λ _. map shape_of leaves.new.items
        ≡ map shape_of leaves.old.items ++ run_app.top ∷ weave_app.top ∷ []) }
    ensures local { All IsLocal leaves.old.items → IfOk result (λ _. All IsLocal leaves.new.items) }
{
    add_leaf(
        alloc,
        leaves,
        "run",
        &[IMAGE, PROGRAM],
        NONE,
        &[SPLIT, WORKERS, OUT],
    )?;
    add_leaf(
        alloc,
        leaves,
        "weave",
        &[IMAGE, PROGRAM],
        &[STEPS],
        &[SPLIT, OUT],
    )
}

/// The program with these subcommands.
fn program_of<'a>(alloc: Global, leaves: Vec<Command<'a>>) -> Result<Command<'a>, AllocError>
    requires { All IsLocal leaves.items }
    ensures { IfOk result (λ made. app_of made ≡ with_subcommands bare_app (map shape_of leaves.entry.items)) }
{
    Command::new(alloc, "cm1")
        .disable_help_flag(true)
        .disable_help_subcommand(true)
        .subcommand_required(true)
        .subcommands(leaves)
}

/// Adds a subcommand with these operands, which must stand there, these behind them, which may, and these options,
/// which have a value each.
fn add_leaf<'a>(
    alloc: Global,
    leaves: &mut Vec<Command<'a>>,
    name: &'a str,
    operands: &[&'a str],
    further: &[&'a str],
    options: &[&'a str],
) -> Result<(), AllocError>
    ensures added { IfOk result (λ _. map shape_of leaves.new.items ≡ map shape_of leaves.old.items
        ++ (leaf_app name.entry.now (texts operands.now) (texts further.now) (texts options.now)).top ∷ []) }
    ensures local { All IsLocal leaves.old.items → IfOk result (λ _. All IsLocal leaves.new.items) }
{
    leaves.push(leaf(alloc, name, operands, further, options)?)?;
    Ok(())
}

/// A subcommand with these operands, these that may stand behind them, and these options.
fn leaf<'a>(
    alloc: Global,
    name: &'a str,
    operands: &[&'a str],
    further: &[&'a str],
    options: &[&'a str],
) -> Result<Command<'a>, AllocError>
    ensures app { IfOk result (λ made. app_of made
        ≡ leaf_app name.entry.now (texts operands.now) (texts further.now) (texts options.now)) }
    ensures local { IfOk result IsLocal }
{
    let mut arguments = Vec::new(alloc);
    add_arguments(alloc, &mut arguments, operands, further, options)?;
    Command::new(alloc, name)
        .disable_help_flag(true)
        .args(arguments)
}

/// Adds these operands, these that may stand behind them, and these options.
fn add_arguments<'a>(
    alloc: Global,
    arguments: &mut Vec<Arg<'a>>,
    operands: &[&'a str],
    further: &[&'a str],
    options: &[&'a str],
) -> Result<(), AllocError>
    ensures rules { IfOk result (λ _. map rule_of arguments.new.items ≡ map rule_of arguments.old.items
        ++ rules_of_leaf (texts operands.now) (texts further.now) (texts options.now)) }
    ensures local { All IsLocalArg arguments.old.items → IfOk result (λ _. All IsLocalArg arguments.new.items) }
{
    add_each(alloc, arguments, operands, ArgKind::Operand)?;
    add_each(alloc, arguments, further, ArgKind::Further)?;
    add_each(alloc, arguments, options, ArgKind::Valued)
}

/// Adds an argument of this kind for each of these names.
fn add_each<'a>(
    alloc: Global,
    arguments: &mut Vec<Arg<'a>>,
    names: &[&'a str],
    kind: ArgKind,
) -> Result<(), AllocError>
    ensures rules { IfOk result (λ _. map rule_of arguments.new.items
        ≡ map rule_of arguments.old.items ++ map (rule_of_kind kind) (texts names.now)) }
    ensures local { All IsLocalArg arguments.old.items → IfOk result (λ _. All IsLocalArg arguments.new.items) }
{
    for name in names {
        arguments.push(argument(alloc, *name, kind))?;
    }
    Ok(())
}

/// An argument of this name and this kind.
fn argument<'a>(alloc: Global, name: &'a str, kind: ArgKind) -> Arg<'a>
    ensures rule { rule_of result ≡ rule_of_kind kind name.entry.now }
    ensures local { IsLocalArg result }
{
    let argument = Arg::new(alloc, name);
    match kind {
        ArgKind::Operand => argument.required(true),
        ArgKind::Further => argument,
        ArgKind::Valued => argument.long(name),
    }
}
