//! Macros, run on the fast machine, beside plain whole numbers.

use cm_array::{Builder, Machine, Plain, Runner};
use cm_bits::{Field, FlagNo, Proc};
use cm_element::ChipView;
use cm_language::{Context, Macro};
use cm_macros::expand;
use std::alloc::Global;
use std::test::Fail;
use test_generators::{Draws, address, flag, processor, put_flags, put_planes};

/// A machine of one chip whose memory bits and flags are drawn: the same for one seed.
fn drawn_machine(alloc: Global, seed: u32) -> Option<Machine<0, 7>> {
    let mut draws = Draws::new(seed);
    let mut builder = Builder::<0, 7>::start(alloc, 0).ok()?;
    put_flags(&mut builder, &mut draws, 0, 65_535);
    put_planes(&mut builder, &mut draws, 0, 0, 4096);
    builder.done().ok()
}

/// A number cut to the bits of a field.
fn cut(field: Field, number: u64) -> u64 {
    let unused = 64 - field.len();
    number << unused >> unused
}

/// What a macro makes of one processor: a field's new number, and flags' new bits.
#[derive(Clone, Copy)]
struct Outcome {
    stored: Option<(Field, u64)>,
    carry: Option<bool>,
    factor: Option<bool>,
    named: Option<(FlagNo, bool)>,
}

/// Flag 7 is written, and perhaps a field.
fn carried(stored: Option<(Field, u64)>, carry: bool) -> Outcome {
    Outcome {
        stored,
        carry: Some(carry),
        factor: None,
        named: None,
    }
}

/// A field alone is written.
fn stored(field: Field, number: u64) -> Outcome {
    Outcome {
        stored: Some((field, number)),
        carry: None,
        factor: None,
        named: None,
    }
}

fn nothing() -> Outcome {
    Outcome {
        stored: None,
        carry: None,
        factor: None,
        named: None,
    }
}

fn sum(d: Field, a: u64, b: u64) -> Outcome {
    let sum = u128::from(a) + u128::from(b);
    let carry = sum >> d.len() != 0;
    carried(Some((d, cut(d, a.wrapping_add(b)))), carry)
}

/// The outcome of a macro in whole numbers.
fn wanted_outcome(wanted: &Macro, before: &ChipView<'_>, p: Proc) -> Outcome {
    match *wanted {
        Macro::Add(d, s) => sum(d, before.field(p, d), before.field(p, s)),
        Macro::Sub(d, s) => {
            let (a, b) = (before.field(p, d), before.field(p, s));
            carried(Some((d, cut(d, a.wrapping_sub(b)))), a >= b)
        }
        Macro::Less(x, y) => carried(None, before.field(p, x) < before.field(p, y)),
        Macro::Equal(x, y) => carried(None, before.field(p, x) == before.field(p, y)),
        Macro::Move(d, s) => stored(d, before.field(p, s)),
        Macro::Select(d, s, f) => {
            if before.flag(p, f) {
                stored(d, before.field(p, s))
            } else {
                nothing()
            }
        }
        Macro::Const(d, v) => stored(d, v),
        Macro::Shift(d) => sum(d, before.field(p, d), before.field(p, d)),
        Macro::Mul(d, x, y) => {
            let product = before.field(p, x).wrapping_mul(before.field(p, y));
            Outcome {
                stored: Some((d, cut(d, product))),
                carry: Some(false),
                factor: Some(false),
                named: None,
            }
        }
        Macro::Set(f) => Outcome {
            named: Some((f, true)),
            ..nothing()
        },
        Macro::Clear(f) => Outcome {
            named: Some((f, false)),
            ..nothing()
        },
    }
}

impl Outcome {
    /// The memory bit at an address, which was this before.
    fn bit(&self, at: u16, before: bool) -> bool {
        match self.stored {
            Some((field, number)) if field.at() <= at && at < field.at() + field.len() => {
                number >> (at - field.at()) & 1 == 1
            }
            _ => before,
        }
    }

    /// A flag, which was this before.
    fn flag(&self, f: FlagNo, before: bool) -> bool {
        match self.named {
            Some((named, bit)) if named == f => bit,
            _ => match f.get() {
                7 => self.carry.unwrap_or(before),
                6 => self.factor.unwrap_or(before),
                _ => before,
            },
        }
    }
}

fn is_selected(context: Context, chip: &ChipView<'_>, p: Proc) -> bool {
    match context {
        Context::Always => true,
        Context::On(f) => chip.flag(p, f),
        Context::Off(f) => !chip.flag(p, f),
    }
}

/// All memory bits and flags of one processor are as they should be.
fn is_right_in(
    wanted: &Macro,
    context: Context,
    before: &ChipView<'_>,
    after: &ChipView<'_>,
    p: Proc,
) -> bool {
    let outcome = if is_selected(context, before, p) {
        wanted_outcome(wanted, before, p)
    } else {
        nothing()
    };
    has_right_bits(&outcome, before, after, p) && has_right_flags(&outcome, before, after, p)
}

fn has_right_bits(outcome: &Outcome, before: &ChipView<'_>, after: &ChipView<'_>, p: Proc) -> bool {
    for number in 0..4096u16 {
        let at = address(number);
        if after.read(p, at) != outcome.bit(number, before.read(p, at)) {
            return false;
        }
    }
    true
}

fn has_right_flags(
    outcome: &Outcome,
    before: &ChipView<'_>,
    after: &ChipView<'_>,
    p: Proc,
) -> bool {
    for number in 0..16u8 {
        let f = flag(number);
        if after.flag(p, f) != outcome.flag(f, before.flag(p, f)) {
            return false;
        }
    }
    true
}

/// Three places for fields, one beside the other, somewhere in memory.
#[derive(Clone, Copy)]
struct Places {
    base: u16,
    len: u16,
}

impl Places {
    fn drawn(draws: &mut Draws) -> Places {
        Places {
            len: 1 + draws.below(64),
            base: draws.below(3905),
        }
    }

    /// The field at one of the places.
    fn field(self, place: u16) -> Result<Field, Fail> {
        let at = (self.base % 3905) + 64 * (place % 3);
        Ok(Field::new(at, self.len)?)
    }
}

/// A macro over fields that are apart or the same, and of one length.
fn drawn_macro(draws: &mut Draws, kind: u32) -> Result<Macro, Fail> {
    let places = Places::drawn(draws);
    let d = places.field(0)?;
    let s = places.field(draws.below(2))?;
    let (x, y) = (places.field(1)?, places.field(2)?);
    let number = draws.bits(64);
    Ok(match kind % 12 {
        0 => Macro::Add(d, s),
        1 => Macro::Sub(d, s),
        2 => Macro::Less(d, s),
        3 => Macro::Equal(d, s),
        4 => Macro::Move(d, s),
        5 => Macro::Select(d, s, draws.flag()),
        6 => Macro::Const(d, cut(d, number)),
        7 => Macro::Shift(d),
        8 => Macro::Mul(d, x, y),
        9 => Macro::Mul(d, y, y),
        10 => Macro::Set(flag(12 + draws.below(4) as u8)),
        _ => Macro::Clear(flag(12 + draws.below(4) as u8)),
    })
}

/// A context by a flag that no macro of the trials writes.
fn drawn_context(draws: &mut Draws) -> Context {
    let number = draws.below(10) as u8;
    let f = flag(if number < 6 { number } else { number + 2 });
    match draws.below(3) {
        0 => Context::Always,
        1 => Context::On(f),
        _ => Context::Off(f),
    }
}

/// A macro, and the context that it stands in.
#[derive(Drop)]
struct Placed {
    wanted: Macro,
    context: Context,
}

/// Runs it.
fn run(alloc: Global, placed: &Placed, machine: &mut Machine<0, 7>) -> Result<(), Fail> {
    let mut list = Vec::new(alloc);
    expand(&placed.wanted, placed.context, &mut list)?;
    Plain.go(machine, list.as_slice())?;
    Ok(())
}

/// All memory bits and flags are as they should be.
fn is_right(placed: &Placed, before: &Machine<0, 7>, after: &Machine<0, 7>) -> bool {
    let (before, after) = (before.chip(0), after.chip(0));
    for number in 0..16u8 {
        let p = processor(number);
        if !is_right_in(&placed.wanted, placed.context, &before, &after, p) {
            return false;
        }
    }
    true
}

/// It does what it says in whole numbers on a machine like this one.
fn goes_right_on(alloc: Global, placed: &Placed, machine: &Machine<0, 7>) -> Result<bool, Fail> {
    let mut after = machine.copy(alloc)?;
    run(alloc, placed, &mut after)?;
    Ok(is_right(placed, machine, &after))
}

/// The same of a drawn macro under a drawn context on a drawn machine.
fn goes_right(alloc: Global, seed: u32) -> Result<bool, Fail> {
    let mut draws = Draws::new(seed << 8);
    let wanted = drawn_macro(&mut draws, seed)?;
    let context = match wanted {
        Macro::Mul(_, _, _) => Context::Always,
        _ => drawn_context(&mut draws),
    };
    let machine = drawn_machine(alloc, seed << 8).ok_or("no machine")?;
    goes_right_on(alloc, &Placed { wanted, context }, &machine)
}

#[test]
fn macros_are_their_whole_numbers(rt: HostRuntime) -> Result<(), Fail> {
    for seed in 0..144u32 {
        assert!(rt; goes_right(rt.alloc(), seed)?, "seed {seed}");
    }
    Ok(())
}
