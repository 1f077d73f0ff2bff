//! Why a macro is refused.

ghost use Rattle.std.specs.Prelude.{◌≡◌, ◌^◌, not, nat_le};
ghost use Rattle.cm_language.specs.Faults.{overlaps, misfits, writes, writes_condition, names_fixed, is_conditional};
ghost use Rattle.cm_language.specs.Faults.{is_conditional_product, first_fault, lengths_differ, is_partly, is_apart};
ghost use Rattle.cm_language.specs.Faults.{is_fixed};
ghost use Rattle.cm_bits.specs.Field.{meeting};

use crate::acts::{carry, factor};
use cm_bits::{Field, FlagNo, Meets};
use cm_language::{Context, Macro, MacroFault};

/// The first cause to refuse a macro under a context.
pub fn fault_of(wanted: &Macro, context: &Context) -> Option<MacroFault>
    ensures { result ≡ first_fault wanted.now context.now }
{
    if overlaps(wanted) {
        Some(MacroFault::Overlap)
    } else if misfits(wanted) {
        Some(MacroFault::Lengths)
    } else if writes_condition(wanted, context) || names_fixed(wanted) {
        Some(MacroFault::Scratch)
    } else if is_conditional_product(wanted, context) {
        Some(MacroFault::Context)
    } else {
        None
    }
}

fn overlaps(wanted: &Macro) -> bool
    ensures { result ≡ overlaps wanted.now }
{
    match *wanted {
        Macro::Add(a, b) | Macro::Sub(a, b) | Macro::Less(a, b) => meet_partly(a, b),
        Macro::Equal(a, b) | Macro::Move(a, b) | Macro::Select(a, b, _) => meet_partly(a, b),
        Macro::Mul(d, x, y) => !are_apart(d, x) || !are_apart(d, y) || meet_partly(x, y),
        Macro::Const(_, _) | Macro::Shift(_) | Macro::Set(_) | Macro::Clear(_) => false,
    }
}

fn misfits(wanted: &Macro) -> bool
    ensures { result ≡ misfits wanted.now }
{
    match *wanted {
        Macro::Add(a, b) | Macro::Sub(a, b) | Macro::Less(a, b) => lengths_differ(a, b),
        Macro::Equal(a, b) | Macro::Move(a, b) | Macro::Select(a, b, _) => lengths_differ(a, b),
        Macro::Const(d, v) => !holds(d, v),
        Macro::Mul(d, x, y) => lengths_differ(d, x) || lengths_differ(d, y),
        Macro::Shift(_) | Macro::Set(_) | Macro::Clear(_) => false,
    }
}

fn writes_condition(wanted: &Macro, context: &Context) -> bool
    ensures { result ≡ writes_condition wanted.now context.now }
{
    match *context {
        Context::Always => false,
        Context::On(flag) | Context::Off(flag) => writes(wanted, flag),
    }
}

fn writes(wanted: &Macro, flag: FlagNo) -> bool
    ensures { result ≡ writes wanted.now flag }
{
    match *wanted {
        Macro::Add(_, _) | Macro::Sub(_, _) | Macro::Less(_, _) => flag == carry(),
        Macro::Equal(_, _) | Macro::Shift(_) => flag == carry(),
        Macro::Mul(_, _, _) => flag == factor() || flag == carry(),
        Macro::Set(own) | Macro::Clear(own) => flag == own,
        Macro::Move(_, _) | Macro::Select(_, _, _) | Macro::Const(_, _) => false,
    }
}

fn names_fixed(wanted: &Macro) -> bool
    ensures { result ≡ names_fixed wanted.now }
{
    match *wanted {
        Macro::Set(flag) | Macro::Clear(flag) => is_fixed(flag),
        _ => false,
    }
}

fn is_conditional_product(wanted: &Macro, context: &Context) -> bool
    ensures { result ≡ is_conditional_product wanted.now context.now }
{
    match *wanted {
        Macro::Mul(_, _, _) => is_conditional(context),
        _ => false,
    }
}

fn is_conditional(context: &Context) -> bool
    ensures { result ≡ is_conditional context.now }
{
    match *context {
        Context::Always => false,
        Context::On(_) | Context::Off(_) => true,
    }
}

fn is_fixed(flag: FlagNo) -> bool
    ensures { result ≡ is_fixed flag }
{
    flag == FlagNo::ZERO || flag == FlagNo::NEWS || flag == FlagNo::DAISY
}

fn lengths_differ(a: Field, b: Field) -> bool
    ensures { result ≡ lengths_differ a b }
{
    a.len() != b.len()
}

fn meet_partly(a: Field, b: Field) -> bool
    ensures { result ≡ is_partly (meeting a b) }
{
    match a.meets(&b) {
        Meets::Partly => true,
        Meets::Same | Meets::Apart => false,
    }
}

fn are_apart(a: Field, b: Field) -> bool
    ensures { result ≡ is_apart (meeting a b) }
{
    match a.meets(&b) {
        Meets::Apart => true,
        Meets::Same | Meets::Partly => false,
    }
}

/// The number has no bit above those of the field.
fn holds(field: Field, number: u64) -> bool
    ensures { result ≡ not (nat_le (2 ^ field.len) number) }
{
    let len = field.len();
    len == 64 || number >> len == 0
}
