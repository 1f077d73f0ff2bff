//! Why a phrase is refused.

ghost use Rattle.std.specs.Prelude.{◌≡◌, ◌^◌, not, nat_le};
ghost use Rattle.cm_bits.specs.Field.{meeting};
ghost use Rattle.cm_language.specs.Faults.{is_partly, lengths_differ, is_fixed};
ghost use Rattle.lab_phrases.specs.Faults.{phrase_overlaps, phrase_misfits, phrase_writes, phrase_writes_condition};
ghost use Rattle.lab_phrases.specs.Faults.{phrase_names_fixed, first_phrase_fault};

use cm_bits::{Field, FlagNo, Meets};
use cm_language::{Context, MacroFault};
use cm_macros::carry;
use lab_phrases::Phrase;

/// The first cause to refuse a phrase under a context.
pub fn fault_of(wanted: &Phrase, context: &Context) -> Option<MacroFault>
    ensures value { result ≡ first_phrase_fault wanted.now context.now }
{
    if overlaps(wanted) {
        Some(MacroFault::Overlap)
    } else if misfits(wanted) {
        Some(MacroFault::Lengths)
    } else if writes_condition(wanted, context) || names_fixed(wanted) {
        Some(MacroFault::Scratch)
    } else {
        None
    }
}

fn overlaps(wanted: &Phrase) -> bool
    ensures value { result ≡ phrase_overlaps wanted.now }
{
    match *wanted {
        Phrase::News(d, s, _) | Phrase::Chain(d, s) => meet_partly(d, s),
        Phrase::And(d, s) | Phrase::Or(d, s) | Phrase::Xor(d, s) => meet_partly(d, s),
        Phrase::Not(_) | Phrase::AddNumber(_, _) => false,
        Phrase::Test(_, _) | Phrase::Keep(_, _) => false,
    }
}

fn misfits(wanted: &Phrase) -> bool
    ensures value { result ≡ phrase_misfits wanted.now }
{
    match *wanted {
        Phrase::News(d, s, _) | Phrase::Chain(d, s) => lengths_differ(d, s),
        Phrase::And(d, s) | Phrase::Or(d, s) | Phrase::Xor(d, s) => lengths_differ(d, s),
        Phrase::AddNumber(d, v) => !holds(d, v),
        Phrase::Not(_) | Phrase::Test(_, _) | Phrase::Keep(_, _) => false,
    }
}

fn writes_condition(wanted: &Phrase, context: &Context) -> bool
    ensures value { result ≡ phrase_writes_condition wanted.now context.now }
{
    match *context {
        Context::Always => false,
        Context::On(flag) | Context::Off(flag) => writes(wanted, flag),
    }
}

fn writes(wanted: &Phrase, flag: FlagNo) -> bool
    ensures value { result ≡ phrase_writes wanted.now flag }
{
    match *wanted {
        Phrase::News(_, _, _) => flag == FlagNo::NEWS,
        Phrase::Chain(_, _) => flag == FlagNo::DAISY,
        Phrase::AddNumber(_, _) => flag == carry(),
        Phrase::Test(set, _) => flag == set,
        Phrase::And(_, _) | Phrase::Or(_, _) | Phrase::Xor(_, _) | Phrase::Not(_) => false,
        Phrase::Keep(_, _) => false,
    }
}

fn names_fixed(wanted: &Phrase) -> bool
    ensures value { result ≡ phrase_names_fixed wanted.now }
{
    match *wanted {
        Phrase::Test(flag, _) => is_fixed(flag),
        Phrase::News(_, _, _) | Phrase::Chain(_, _) | Phrase::AddNumber(_, _) => false,
        Phrase::And(_, _) | Phrase::Or(_, _) | Phrase::Xor(_, _) | Phrase::Not(_) => false,
        Phrase::Keep(_, _) => false,
    }
}

/// No store puts a bit of its own into the flag.
fn is_fixed(flag: FlagNo) -> bool
    ensures value { result ≡ is_fixed flag }
{
    flag == FlagNo::ZERO || flag == FlagNo::NEWS || flag == FlagNo::DAISY
}

fn lengths_differ(a: Field, b: Field) -> bool
    ensures value { result ≡ lengths_differ a b }
{
    a.len() != b.len()
}

fn meet_partly(a: Field, b: Field) -> bool
    ensures value { result ≡ is_partly (meeting a b) }
{
    match a.meets(&b) {
        Meets::Partly => true,
        Meets::Same | Meets::Apart => false,
    }
}

/// The number has no bit above those of the field.
fn holds(field: Field, number: u64) -> bool
    ensures value { result ≡ not (nat_le (2 ^ field.len) number) }
{
    let len = field.len();
    len == 64 || number >> len == 0
}
