//! The words of `fresh`.

ghost use Rattle.std.specs.Prelude.{◌≡◌, IfOk, IfErr, Ok};
ghost use Rattle.lab_args.specs.Words.{texts};
ghost use Rattle.lab_args.specs.Refusals.{Reports};
ghost use Rattle.lab_args.specs.Requests.{blank_asked};
ghost use Rattle.lab_args.specs.Blanks.{blank, wire_named, with_choice, blank_with_cut, with_ends};

use crate::fault::CommandFault;
use crate::operands::{Operand, file_named, long_number, number};
use lab_fresh::WireEnd;
use std::alloc::Global;

/// A blank machine, and the file into which its image goes.
#[derive(Drop)]
pub struct Blank<'a> {
    pub n: u16,
    pub room: u16,
    pub cuts: Vec<WireEnd>,
    /// So many wires more are drawn, by this seed.
    pub drawn: u16,
    pub seed: u64,
    pub rule: u16,
    pub out: &'a str,
}

/// A blank machine: its dimensions, its room, and the words behind these, of which the last is the file.
pub(crate) fn read_blank<'a>(
    alloc: Global,
    n: &str,
    room: &str,
    words: &[&'a str],
) -> Result<Blank<'a>, CommandFault>
    ensures value { IfOk result (λ found. blank n.now room.now (texts words.now) ≡ Ok (blank_asked found)) }
    ensures refused { IfErr result (Reports (blank n.now room.now (texts words.now))) }
{
    let n = number(alloc, Operand::N, n)?;
    let room = number(alloc, Operand::Cap, room)?;
    let plain = Blank {
        n,
        room,
        cuts: Vec::new(alloc),
        drawn: 0,
        seed: 1,
        rule: 0,
        out: "",
    };
    with_ends(alloc, plain, words)
}

/// Takes what the options say, and the file behind them.
fn with_ends<'a>(
    alloc: Global,
    machine: Blank<'a>,
    words: &[&'a str],
) -> Result<Blank<'a>, CommandFault>
    ensures value { IfOk result
        (λ found. with_ends (blank_asked machine.entry) (texts words.now) ≡ Ok (blank_asked found)) }
    ensures refused { IfErr result (Reports (with_ends (blank_asked machine.entry) (texts words.now))) }
{
    match words {
        [] => Err(CommandFault::Words),
        [out] => {
            let out = file_named(out)?;
            Ok(Blank { out, ..machine })
        }
        [option, word, after @ ..] => {
            if *option == "--cut" {
                let Some((dim, after)) = after.split_first() else {
                    return Err(CommandFault::Words);
                };
                let cut = with_cut(alloc, machine, word, dim)?;
                with_ends(alloc, cut, after)
            } else {
                let changed = with_choice(alloc, machine, option, word)?;
                with_ends(alloc, changed, after)
            }
        }
    }
}

/// Takes what an option says that has one word behind it.
fn with_choice<'a>(
    alloc: Global,
    machine: Blank<'a>,
    option: &str,
    word: &str,
) -> Result<Blank<'a>, CommandFault>
    ensures value { IfOk result
        (λ changed. with_choice (blank_asked machine.entry) option.now word.now ≡ Ok (blank_asked changed)) }
    ensures refused { IfErr result (Reports (with_choice (blank_asked machine.entry) option.now word.now)) }
{
    match option {
        "--rule" => {
            let rule = number(alloc, Operand::Rule, word)?;
            Ok(Blank { rule, ..machine })
        }
        "--cut-random" => {
            let drawn = number(alloc, Operand::Count, word)?;
            Ok(Blank { drawn, ..machine })
        }
        "--seed" => {
            let seed = long_number(alloc, Operand::Seed, word)?;
            Ok(Blank { seed, ..machine })
        }
        _ => Err(CommandFault::Words),
    }
}

fn with_cut<'a>(
    alloc: Global,
    machine: Blank<'a>,
    chip: &str,
    dim: &str,
) -> Result<Blank<'a>, CommandFault>
    ensures value { IfOk result
        (λ cut. blank_with_cut (blank_asked machine.entry) chip.now dim.now ≡ Ok (blank_asked cut)) }
    ensures refused { IfErr result (Reports (blank_with_cut (blank_asked machine.entry) chip.now dim.now)) }
{
    let mut cut = machine;
    let wire = wire_named(alloc, chip, dim)?;
    if cut.cuts.push(wire).is_err() {
        return Err(CommandFault::Memory);
    }
    Ok(cut)
}

/// A wire by the words for its chip and its dimension.
pub(crate) fn wire_named(alloc: Global, chip: &str, dim: &str) -> Result<WireEnd, CommandFault>
    ensures value { IfOk result (λ wire. wire_named chip.now dim.now ≡ Ok wire) }
    ensures refused { IfErr result (Reports (wire_named chip.now dim.now)) }
{
    let chip = number(alloc, Operand::Chip, chip)?;
    let dim = number(alloc, Operand::Dim, dim)?;
    Ok(WireEnd { chip, dim })
}
