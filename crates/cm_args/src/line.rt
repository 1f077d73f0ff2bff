ghost use Rattle.std.specs.Prelude.{◌≡◌, ◌⊎◌, ℕ, List, Option, Some, None, IfOk, IfSome, IsErrOf};
ghost use Rattle.std.specs.Prelude.{codes, option_map, string_bytes};
ghost use Rattle.clap.specs.Walk.{first_of, rows_of, texts};
ghost use Rattle.clap.specs.Matches.{found_of};
ghost use Rattle.cm_args.specs.Lines.{AsksFor, IsBadLine, IsLine, IsFreshLine, IsRunLine, IsNumberOperand};
ghost use Rattle.cm_args.specs.Lines.{IsNumberOption, IsWeaveLine};

use crate::app::{DIMENSION, FILE, IMAGE, OUT, PROGRAM, ROOM, SPLIT, STEPS, WORKERS, matches};
use crate::fault::LineFault;
use clap::ArgMatches;
use std::alloc::{AllocError, Global};

/// What the program is asked to do.
#[derive(Debug, Drop)]
pub enum Line {
    /// `chip`: reads the text of one chip from standard input, and writes its answers to standard
    /// output.
    Chip,
    /// `list PROGRAM`: writes the listing of the program text in this file to standard output.
    List {
        program: String,
    },
    /// `fresh N CAP FILE`: writes the image of a blank machine of 2^N chips and room CAP into this file. N is from 0
    /// to 12, CAP from 1 to 15.
    Fresh {
        n: u8,
        cap: u8,
        file: String,
    },
    /// `run IMAGE PROGRAM [--split K] [--workers W] [--out FILE]`: runs the program in this file on the machine of
    /// this image, by the commands of standard input. The image of the machine that is left goes into the file of
    /// `--out`, if one is named. K is from 0 to 6, and 0 where it is left out; W is from 1 to 64, and 1.
    Run {
        image: String,
        program: String,
        split: u8,
        workers: u8,
        out: Option<String>,
    },
    /// `weave IMAGE PROGRAM [STEPS] [--split K] [--out FILE]`: steps the exchange of the 2^K blocks of the machine of
    /// this image, which run the program in this file, by the lines of the file STEPS, or by itself where it is left
    /// out. The image of the machine that is left goes into the file of `--out`, if one is named. K is as in `run`.
    Weave {
        image: String,
        program: String,
        steps: Option<String>,
        split: u8,
        out: Option<String>,
    },
}

/// Reads the words of a command line. The first is the program's name, and may be any.
///
/// The words mean what clap makes of them by default, so a lone `--` may end them. There is no help
/// and no version to ask for.
pub fn command<'a>(alloc: Global, words: &'a [&'a str]) -> Result<Line, LineFault>
    ensures value { IfOk result (AsksFor (texts words.now)) }
    ensures bad_line { IsErrOf result LineFault.BadLine → IsBadLine (texts words.now) }
{
    let matches = matches(alloc, words)?;
    match matches.subcommand() {
        Some((name, operands)) => line_of(alloc, name, operands),
        None => Err(LineFault::BadLine),
    }
}

/// The line of the subcommand of this name, by what was found for its arguments.
fn line_of(alloc: Global, name: &str, operands: &ArgMatches) -> Result<Line, LineFault>
    ensures value { IfOk result (λ line. IsLine line (name.now, rows_of (found_of operands.now))) }
    ensures none { IsErrOf result LineFault.BadLine
        → (line : Line) → ¬ IsLine line (name.now, rows_of (found_of operands.now)) }
{
    match name {
        "chip" => Ok(Line::Chip),
        "list" => list_line(alloc, operands),
        "fresh" => fresh_line(alloc, operands),
        "run" => run_line(alloc, operands),
        "weave" => weave_line(alloc, operands),
        _ => Err(LineFault::BadLine),
    }
}

/// The line of `list`, by what was found for its operand.
fn list_line(alloc: Global, operands: &ArgMatches) -> Result<Line, LineFault>
    ensures value { IfOk result (λ line. IsLine line (codes "list", rows_of (found_of operands.now))) }
    ensures none { IsErrOf result LineFault.BadLine
        → first_of (codes "program") (rows_of (found_of operands.now)) ≡ None }
{
    Ok(Line::List {
        program: file_operand(alloc, operands, PROGRAM)?,
    })
}

/// The line of `fresh`, by what was found for its operands.
fn fresh_line(alloc: Global, operands: &ArgMatches) -> Result<Line, LineFault>
    ensures value { IfOk result (λ line. IsLine line (codes "fresh", rows_of (found_of operands.now))) }
    ensures none { IsErrOf result LineFault.BadLine
        → (n : ℕ) (cap : ℕ) (file : List ℕ) → ¬ IsFreshLine n cap file (rows_of (found_of operands.now)) }
{
    let Some(n) = number_operand(operands, DIMENSION, 0, 12) else {
        return Err(LineFault::BadLine);
    };
    let Some(cap) = number_operand(operands, ROOM, 1, 15) else {
        return Err(LineFault::BadLine);
    };
    Ok(Line::Fresh {
        n,
        cap,
        file: file_operand(alloc, operands, FILE)?,
    })
}

/// The line of `run`, by what was found for its operands and its options.
fn run_line(alloc: Global, operands: &ArgMatches) -> Result<Line, LineFault>
    ensures value { IfOk result (λ line. IsLine line (codes "run", rows_of (found_of operands.now))) }
    ensures none { IsErrOf result LineFault.BadLine
        → (image : List ℕ) (program : List ℕ) (split : ℕ) (workers : ℕ) (out : Option (List ℕ))
        → ¬ IsRunLine image program split workers out (rows_of (found_of operands.now)) }
{
    let Some(split) = number_option(operands, SPLIT, 0, 6, 0) else {
        return Err(LineFault::BadLine);
    };
    let Some(workers) = number_option(operands, WORKERS, 1, 64, 1) else {
        return Err(LineFault::BadLine);
    };
    let (image, program) = image_and_program(alloc, operands)?;
    Ok(Line::Run {
        image,
        program,
        split,
        workers,
        out: file_if_named(alloc, operands, OUT)?,
    })
}

/// The line of `weave`, by what was found for its operands and its options.
fn weave_line(alloc: Global, operands: &ArgMatches) -> Result<Line, LineFault>
    ensures value { IfOk result (λ line. IsLine line (codes "weave", rows_of (found_of operands.now))) }
    ensures none { IsErrOf result LineFault.BadLine
        → (image : List ℕ) (program : List ℕ) (steps : Option (List ℕ)) (split : ℕ) (out : Option (List ℕ))
        → ¬ IsWeaveLine image program steps split out (rows_of (found_of operands.now)) }
{
    let Some(split) = number_option(operands, SPLIT, 0, 6, 0) else {
        return Err(LineFault::BadLine);
    };
    let (image, program) = image_and_program(alloc, operands)?;
    Ok(Line::Weave {
        image,
        program,
        steps: file_if_named(alloc, operands, STEPS)?,
        split,
        out: file_if_named(alloc, operands, OUT)?,
    })
}

/// The names of the files of an image and of a program that were found for two operands.
fn image_and_program(alloc: Global, operands: &ArgMatches) -> Result<(String, String), LineFault>
    ensures value { IfOk result (λ files.
        (first_of (codes "image") (rows_of (found_of operands.now)) ≡ Some (string_bytes files.0))
        × (first_of (codes "program") (rows_of (found_of operands.now)) ≡ Some (string_bytes files.1))) }
    ensures none { IsErrOf result LineFault.BadLine
        → (first_of (codes "image") (rows_of (found_of operands.now)) ≡ None)
        ⊎ (first_of (codes "program") (rows_of (found_of operands.now)) ≡ None) }
{
    let image = file_operand(alloc, operands, IMAGE)?;
    Ok((image, file_operand(alloc, operands, PROGRAM)?))
}

/// The name of a file that was found for an operand.
fn file_operand(alloc: Global, operands: &ArgMatches, name: &str) -> Result<String, LineFault>
    ensures value { IfOk result
        (λ file. first_of name.now (rows_of (found_of operands.now)) ≡ Some (string_bytes file)) }
    ensures none { IsErrOf result LineFault.BadLine → first_of name.now (rows_of (found_of operands.now)) ≡ None }
{
    file_if_named(alloc, operands, name)?.ok_or(LineFault::BadLine)
}

/// The name of a file that was found, if one was.
fn file_if_named(
    alloc: Global,
    operands: &ArgMatches,
    name: &str,
) -> Result<Option<String>, AllocError>
    ensures { IfOk result
        (λ file. first_of name.now (rows_of (found_of operands.now)) ≡ option_map string_bytes file) }
{
    match operands.get_str(name) {
        Some(file) => Ok(Some(String::from_str(alloc, file)?)),
        None => Ok(None),
    }
}

/// The number that was found for an operand, if it is one of this range.
fn number_operand(operands: &ArgMatches, name: &str, least: u8, most: u8) -> Option<u8>
    ensures some { IfSome result
        (λ number. IsNumberOperand name.now (rows_of (found_of operands.now)) least most number) }
    ensures none { result ≡ None
        → (number : ℕ) → ¬ IsNumberOperand name.now (rows_of (found_of operands.now)) least most number }
{
    let text = operands.get_str(name)?;
    match text.parse::<u8>() {
        Ok(number) if least <= number && number <= most => Some(number),
        _ => None,
    }
}

/// The number that was found for an option, if it is one of this range; `usual` where the option is left out.
fn number_option(operands: &ArgMatches, name: &str, least: u8, most: u8, usual: u8) -> Option<u8>
    ensures some { IfSome result (IsNumberOption name.now (rows_of (found_of operands.now)) least most usual) }
    ensures none { result ≡ None
        → (number : ℕ) → ¬ IsNumberOption name.now (rows_of (found_of operands.now)) least most usual number }
{
    match operands.get_str(name) {
        Some(_) => number_operand(operands, name, least, most),
        None => Some(usual),
    }
}
