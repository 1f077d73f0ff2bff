//! The words that commands take, by the names that help has for them, and what they say.

ghost use Rattle.std.specs.Prelude.{◌≡◌, ◌^◌, IfOk, IfErr, Ok};
ghost use Rattle.lab_args.specs.Refusals.{Reports};
ghost use Rattle.lab_args.specs.Operands.{field, file_named, is_option, operand_name, wanted_number, operand_below};
ghost use Rattle.lab_args.specs.Operands.{of_sixteen};
ghost use Rattle.lab_args.specs.Operands.{palette_named, pattern_named, scale_of, table_named, wanted_of};

use crate::fault::CommandFault;
use cm_bits::{Field, FlagNo, Proc};
use lab_data::Palette;
use lab_load::{LoadTable, Pattern};
use std::alloc::Global;

/// A word that a command takes.
#[derive(Clone, Copy, Debug, PartialEq, Eq)]
pub enum Operand {
    Address,
    Length,
    Flag,
    Proc,
    Cycle,
    /// A petit cycle at which what is told begins or ends.
    Bound,
    Chip,
    Dim,
    Count,
    N,
    Cap,
    Rule,
    Rate,
    Cycles,
    Pattern,
    Background,
    Until,
    Skip,
    Seeds,
    Seed,
    /// The length of a field of which a picture is told.
    Depth,
    Scale,
    Palette,
    /// Which table of loads.
    Table,
}

impl Operand {
    /// Its name in the help.
    pub fn name(self) -> &'static str
        ensures { result.now ≡ operand_name self }
    {
        match self {
            Operand::Address => "ADDRESS",
            Operand::Length | Operand::Depth => "LENGTH",
            Operand::Flag => "NUMBER",
            Operand::Proc => "PROC",
            Operand::Cycle => "CYCLE",
            Operand::Chip => "CHIP",
            Operand::Dim => "DIM",
            Operand::Count | Operand::Seeds => "K",
            Operand::N => "N",
            Operand::Cap => "CAP",
            Operand::Rule => "R",
            Operand::Rate => "RATE",
            Operand::Cycles => "CYCLES",
            Operand::Pattern => "P",
            Operand::Background => "H",
            Operand::Until | Operand::Skip | Operand::Bound => "T",
            Operand::Seed => "S",
            Operand::Scale => "K",
            Operand::Palette | Operand::Table => "NAME",
        }
    }

    /// What is wanted in its place.
    pub fn wanted(self) -> &'static str
        ensures { result.now ≡ wanted_of self }
    {
        match self {
            Operand::Address | Operand::Chip => "a decimal number from 0 to 4095",
            Operand::Length => "a decimal number from 1 to 64",
            Operand::Flag | Operand::Proc => "a decimal number from 0 to 15",
            Operand::Cycle | Operand::Bound => "the decimal number of a petit cycle",
            Operand::Dim => "a decimal number from 0 to 11",
            Operand::Count => "a decimal number from 0 to 24576",
            Operand::N => "a decimal number from 0 to 12",
            Operand::Cap => "a decimal number from 1 to 15",
            Operand::Rule => "0 or 1",
            Operand::Rate =>
                "0 to 16 with at most two digits behind a point, as 0.25, or some with commas between",
            Operand::Cycles => "a decimal number from 1 to 1000000",
            Operand::Pattern => "uniform, transpose, reversal or hotspot",
            Operand::Background => "a decimal number from 0 to 100",
            Operand::Until => "a decimal number from 0 to 4294967295",
            Operand::Skip => "a decimal number from 0 to 999999",
            Operand::Seeds => "a decimal number from 1 to 1000",
            Operand::Seed => "a decimal number from 0 to 18446744073709551615",
            Operand::Depth => "a decimal number from 1 to 16 for a picture",
            Operand::Scale => "a decimal number from 1 to 64",
            Operand::Palette => "heat or viridis",
            Operand::Table => "crossings, dimensions, chips or latencies",
        }
    }
}

/// Whether a word begins with two dashes.
pub(crate) fn is_option(word: &str) -> bool
    ensures { result ≡ is_option word.now }
{
    matches!(word.as_bytes(), [b'-', b'-', ..])
}

/// The name of a file that is written: no option, which may stand in a wrong place.
pub(crate) fn file_named<'a>(word: &'a str) -> Result<&'a str, CommandFault>
    ensures value { IfOk result (λ file. file_named word.now ≡ Ok file.now) }
    ensures refused { IfErr result (Reports (file_named word.now)) }
{
    if is_option(word) {
        return Err(CommandFault::Words);
    }
    Ok(word)
}

/// One of sixteen.
fn of_sixteen(alloc: Global, operand: Operand, word: &str) -> Result<u8, CommandFault>
    ensures value { IfOk result (λ number. operand_below 16 operand word.now ≡ Ok number) }
    ensures refused { IfErr result (Reports (operand_below 16 operand word.now)) }
{
    match word.parse::<u8>() {
        Ok(number) if number < 16 => Ok(number),
        _ => Err(CommandFault::operand(alloc, operand, word)),
    }
}

pub(crate) fn processor(alloc: Global, word: &str) -> Result<Proc, CommandFault>
    ensures value { IfOk result (λ number. operand_below 16 Operand.Proc word.now ≡ Ok number) }
    ensures refused { IfErr result (Reports (operand_below 16 Operand.Proc word.now)) }
{
    let number = of_sixteen(alloc, Operand::Proc, word)?;
    match Proc::new(number) {
        Some(number) => Ok(number),
        None => Err(CommandFault::operand(alloc, Operand::Proc, word)),
    }
}

pub(crate) fn flag(alloc: Global, word: &str) -> Result<FlagNo, CommandFault>
    ensures value { IfOk result (λ number. operand_below 16 Operand.Flag word.now ≡ Ok number) }
    ensures refused { IfErr result (Reports (operand_below 16 Operand.Flag word.now)) }
{
    let number = of_sixteen(alloc, Operand::Flag, word)?;
    match FlagNo::new(number) {
        Some(number) => Ok(number),
        None => Err(CommandFault::operand(alloc, Operand::Flag, word)),
    }
}

/// The number of an operand, of which another crate tells where it is too large.
pub(crate) fn number(alloc: Global, operand: Operand, word: &str) -> Result<u16, CommandFault>
    ensures value { IfOk result (λ number. operand_below (2 ^ 16) operand word.now ≡ Ok number) }
    ensures refused { IfErr result (Reports (operand_below (2 ^ 16) operand word.now)) }
{
    match word.parse::<u16>() {
        Ok(number) => Ok(number),
        Err(_) => Err(CommandFault::operand(alloc, operand, word)),
    }
}

/// A number of petit cycles.
pub(crate) fn cycle_count(alloc: Global, operand: Operand, word: &str) -> Result<u32, CommandFault>
    ensures value { IfOk result (λ number. operand_below (2 ^ 32) operand word.now ≡ Ok number) }
    ensures refused { IfErr result (Reports (operand_below (2 ^ 32) operand word.now)) }
{
    match word.parse::<u32>() {
        Ok(number) => Ok(number),
        Err(_) => Err(CommandFault::operand(alloc, operand, word)),
    }
}

/// A petit cycle, or a seed.
pub(crate) fn long_number(alloc: Global, operand: Operand, word: &str) -> Result<u64, CommandFault>
    ensures value { IfOk result (λ number. operand_below (2 ^ 64) operand word.now ≡ Ok number) }
    ensures refused { IfErr result (Reports (operand_below (2 ^ 64) operand word.now)) }
{
    match word.parse::<u64>() {
        Ok(number) => Ok(number),
        Err(_) => Err(CommandFault::operand(alloc, operand, word)),
    }
}

/// The field of an address and a length.
pub(crate) fn field(alloc: Global, at: &str, len: &str) -> Result<Field, CommandFault>
    ensures value { IfOk result (λ span. field at.now len.now ≡ Ok span) }
    ensures refused { IfErr result (Reports (field at.now len.now)) }
{
    let at = number(alloc, Operand::Address, at)?;
    let len = number(alloc, Operand::Length, len)?;
    match Field::new(at, len) {
        Ok(field) => Ok(field),
        Err(fault) => Err(CommandFault::Field(fault)),
    }
}

/// How many dots wide and high a dot becomes.
pub(crate) fn scale(alloc: Global, word: &str) -> Result<u16, CommandFault>
    ensures value { IfOk result (λ k. scale_of word.now ≡ Ok k) }
    ensures refused { IfErr result (Reports (scale_of word.now)) }
{
    let k = number(alloc, Operand::Scale, word)?;
    if 0 < k && k < 65 {
        Ok(k)
    } else {
        Err(CommandFault::operand(alloc, Operand::Scale, word))
    }
}

pub(crate) fn palette(alloc: Global, word: &str) -> Result<Palette, CommandFault>
    ensures value { IfOk result (λ palette. palette_named word.now ≡ Ok palette) }
    ensures refused { IfErr result (Reports (palette_named word.now)) }
{
    match word {
        "heat" => Ok(Palette::Heat),
        "viridis" => Ok(Palette::Viridis),
        _ => Err(CommandFault::operand(alloc, Operand::Palette, word)),
    }
}

pub(crate) fn pattern(alloc: Global, word: &str) -> Result<Pattern, CommandFault>
    ensures value { IfOk result (λ pattern. pattern_named word.now ≡ Ok pattern) }
    ensures refused { IfErr result (Reports (pattern_named word.now)) }
{
    match word {
        "uniform" => Ok(Pattern::Uniform),
        "transpose" => Ok(Pattern::Transpose),
        "reversal" => Ok(Pattern::Reversal),
        "hotspot" => Ok(Pattern::HotSpot),
        _ => Err(CommandFault::operand(alloc, Operand::Pattern, word)),
    }
}

/// The table of loads of this name.
pub(crate) fn table(alloc: Global, word: &str) -> Result<LoadTable, CommandFault>
    ensures value { IfOk result (λ table. table_named word.now ≡ Ok table) }
    ensures refused { IfErr result (Reports (table_named word.now)) }
{
    match word {
        "crossings" => Ok(LoadTable::Crossings),
        "dimensions" => Ok(LoadTable::Dimensions),
        "chips" => Ok(LoadTable::Chips),
        "latencies" => Ok(LoadTable::Latencies),
        _ => Err(CommandFault::operand(alloc, Operand::Table, word)),
    }
}
