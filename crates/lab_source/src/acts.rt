//! The acts of phrases.

ghost use Rattle.std.specs.Prelude.{◌≡◌, ◌≤◌, ◌<◌, ◌+◌, ◌++◌, ◌∷◌, [], false, map, OnOk, IfOk, if◌then◌else◌};
ghost use Rattle.cm_bits.specs.Bit.{bit};
ghost use Rattle.cm_model.specs.Processor.{ZERO};
ghost use Rattle.cm_model.specs.Each.{tabulate};
ghost use Rattle.cm_model.specs.declared.act.Act.TheVariants as act;
ghost use Rattle.cm_language.specs.Effect.{CARRY};
ghost use Rattle.cm_language.specs.Acts.{TABLE_OF_A, ALWAYS_0, nano, clear_flag, each_bit};
ghost use Rattle.lab_phrases.specs.Acts.{A_OR_F, fetch, keep, fetch_all, add_bit, keep_bit, phrase_acts};
ghost use Rattle.lab_phrases.specs.Faults.{phrase_misfits};

use cm_bits::{Addr, Dir, Field, FlagNo, NoMemory};
use cm_language::Context;
use cm_macros::{Tables, address, carry, clear_flag, nano, zero};
use cm_model::{Act, Nano};
use lab_phrases::Phrase;
use std::alloc::{AllocError, Global};

/// A and B.
const AND: u8 = 0xc0;

/// A or B.
const OR: u8 = 0xfc;

/// A xor B.
const XOR: u8 = 0x3c;

/// Not A.
const NOT: u8 = 0x0f;

/// A + 0 + F and its carry.
const WITH_0: Tables = Tables {
    memory: 0x5a,
    flag: 0xa0,
};

/// A + 1 + F and its carry.
const WITH_1: Tables = Tables {
    memory: 0xa5,
    flag: 0xfa,
};

/// F into memory.
const TAKE: Tables = Tables {
    memory: 0xaa,
    flag: 0x00,
};

/// A stays; A or F.
const TEST: Tables = Tables {
    memory: 0xf0,
    flag: 0xfa,
};

/// The acts of a phrase, whose fields are of one length, under a context.
pub fn acts_of(alloc: Global, wanted: &Phrase, context: &Context) -> Result<Vec<Act>, NoMemory>
    requires fits { phrase_misfits wanted.now ≡ false }
    ensures value { IfOk result (λ acts. acts.items ≡ phrase_acts wanted.now context.now) }
{
    let mut acts = Vec::new(alloc);
    match *wanted {
        Phrase::News(d, s, dir) => push_fetched(&mut acts, context, FlagNo::NEWS, dir, d, s)?,
        Phrase::Chain(d, s) => push_fetched(&mut acts, context, FlagNo::DAISY, Dir::North, d, s)?,
        Phrase::And(d, s) => push_bits(&mut acts, context, d, s, AND)?,
        Phrase::Or(d, s) => push_bits(&mut acts, context, d, s, OR)?,
        Phrase::Xor(d, s) => push_bits(&mut acts, context, d, s, XOR)?,
        Phrase::Not(d) => push_bits(&mut acts, context, d, d, NOT)?,
        Phrase::AddNumber(d, number) => push_sum(&mut acts, context, d, number)?,
        Phrase::Test(flag, s) => push_tested(&mut acts, context, flag, s)?,
        Phrase::Keep(d, flag) => push_kept(&mut acts, context, d, flag)?,
    }
    Ok(acts)
}

/// A field from another processor.
fn push_fetched(
    acts: &mut Vec<Act>,
    context: &Context,
    flag: FlagNo,
    dir: Dir,
    d: Field,
    s: Field,
) -> Result<(), AllocError>
    requires lengths { d.len ≡ s.len }
    ensures ok { OnOk result (acts.new.items
        ≡ acts.old.items ++ map act.Nano (fetch_all context.now flag dir d s)) }
{
    for i in 0..d.len() {
        acts.push(Act::Nano(fetch(context, flag, dir, address(s, i))))?;
        acts.push(Act::Nano(keep(context, flag, address(d, i))))?;
    }
    Ok(())
}

/// The same table for each bit of two fields.
fn push_bits(
    acts: &mut Vec<Act>,
    context: &Context,
    d: Field,
    s: Field,
    table: u8,
) -> Result<(), AllocError>
    requires lengths { d.len ≡ s.len }
    ensures ok { OnOk result (acts.new.items
        ≡ acts.old.items ++ map act.Nano (each_bit context.now d s ZERO ZERO table ALWAYS_0)) }
{
    let tables = Tables {
        memory: table,
        flag: 0,
    };
    for i in 0..d.len() {
        let next = nano(
            context,
            address(d, i),
            address(s, i),
            zero(),
            zero(),
            tables,
        );
        acts.push(Act::Nano(next))?;
    }
    Ok(())
}

/// A number added to a field.
fn push_sum(acts: &mut Vec<Act>, context: &Context, d: Field, number: u64) -> Result<(), AllocError>
    ensures ok { OnOk result (acts.new.items ≡ acts.old.items ++ map act.Nano
        (clear_flag context.now CARRY ∷ tabulate 0 d.len (add_bit context.now d number))) }
{
    acts.push(Act::Nano(clear_flag(context, carry())))?;
    for i in 0..d.len() {
        acts.push(Act::Nano(add_bit(context, d, number, i)))?;
    }
    Ok(())
}

/// Whether a field is not 0, into a flag.
fn push_tested(
    acts: &mut Vec<Act>,
    context: &Context,
    flag: FlagNo,
    s: Field,
) -> Result<(), AllocError>
    ensures ok { OnOk result (acts.new.items ≡ acts.old.items ++ map act.Nano
        (clear_flag context.now flag ∷ each_bit context.now s s flag flag TABLE_OF_A A_OR_F)) }
{
    acts.push(Act::Nano(clear_flag(context, flag)))?;
    for i in 0..s.len() {
        acts.push(Act::Nano(test_bit(context, flag, s, i)))?;
    }
    Ok(())
}

/// A flag into a field.
fn push_kept(
    acts: &mut Vec<Act>,
    context: &Context,
    d: Field,
    flag: FlagNo,
) -> Result<(), AllocError>
    ensures ok { OnOk result (acts.new.items ≡ acts.old.items ++ map act.Nano
        (tabulate 0 d.len (keep_bit context.now d flag))) }
{
    for i in 0..d.len() {
        acts.push(Act::Nano(keep_bit(context, d, flag, i)))?;
    }
    Ok(())
}

/// Into a flag the bit at this address of the processor that sends here.
fn fetch(context: &Context, flag: FlagNo, dir: Dir, from: Addr) -> Nano
    ensures value { result ≡ fetch context.now flag dir from }
{
    Nano {
        dir,
        ..nano(context, from, from, zero(), flag, Tables::A)
    }
}

/// A flag into the memory bit of this address.
fn keep(context: &Context, flag: FlagNo, into: Addr) -> Nano
    ensures value { result ≡ keep context.now flag into }
{
    nano(context, into, into, flag, zero(), TAKE)
}

/// Bit `i` of a number, added to that of a field and the carry.
fn add_bit(context: &Context, d: Field, number: u64, i: u16) -> Nano
    requires { i < d.len }
    ensures value { result ≡ add_bit context.now d number i }
{
    let tables = if number >> i & 1 == 1 { WITH_1 } else { WITH_0 };
    nano(
        context,
        address(d, i),
        address(d, i),
        carry(),
        carry(),
        tables,
    )
}

/// Bit `i` of a field, or what the flag has already, into a flag.
fn test_bit(context: &Context, flag: FlagNo, s: Field, i: u16) -> Nano
    requires { i < s.len }
    ensures value { result ≡ nano context.now (s.at + i) (s.at + i) flag flag TABLE_OF_A A_OR_F }
{
    nano(context, address(s, i), address(s, i), flag, flag, TEST)
}

/// A flag into bit 0 of a field, 0 into any other bit `i`.
fn keep_bit(context: &Context, d: Field, flag: FlagNo, i: u16) -> Nano
    requires { i < d.len }
    ensures value { result ≡ keep_bit context.now d flag i }
{
    let tables = if i == 0 { TAKE } else { Tables::NONE };
    nano(context, address(d, i), address(d, i), flag, zero(), tables)
}
