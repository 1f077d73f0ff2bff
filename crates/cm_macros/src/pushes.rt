//! Instructions put behind those of a list that has room for them.

ghost use Rattle.std.specs.Prelude.{◌≡◌, ◌+◌, ◌<◌, ◌≤◌, ◌++◌, ◌∷◌, [], map, vec_len, vec_capacity, if◌then◌else◌};
ghost use Rattle.cm_bits.specs.Bit.{bit};
ghost use Rattle.cm_model.specs.Processor.{ZERO};
ghost use Rattle.cm_language.specs.Acts.{nano, set_flag, clear_flag, each_bit, number_bits, ALWAYS_0, ALWAYS_1};

use crate::acts::{Tables, address, clear_flag, nano, set_flag, zero};
use cm_bits::{Field, FlagNo};
use cm_language::Context;
use cm_model::{Act, Nano};

/// One instruction more.
pub fn push(list: &mut Vec<Act>, next: Nano)
    requires room { vec_len list.old < vec_capacity list.old }
    ensures items { list.new.items ≡ list.old.items ++ Act.Nano next ∷ [] }
    ensures len { vec_len list.new ≡ vec_len list.old + 1 }
    ensures capacity { vec_capacity list.old ≤ vec_capacity list.new }
{
    match list.push(Act::Nano(next)) {
        Ok(()) => {}
        Err(_) => unreachable!(),
    }
}

/// 1 into a flag.
pub fn push_set(list: &mut Vec<Act>, context: &Context, flag: FlagNo)
    requires room { vec_len list.old < vec_capacity list.old }
    ensures items { list.new.items ≡ list.old.items ++ Act.Nano (set_flag context.now flag) ∷ [] }
    ensures len { vec_len list.new ≡ vec_len list.old + 1 }
    ensures capacity { vec_capacity list.old ≤ vec_capacity list.new }
{
    push(list, set_flag(context, flag));
}

/// 0 into a flag.
pub fn push_clear(list: &mut Vec<Act>, context: &Context, flag: FlagNo)
    requires room { vec_len list.old < vec_capacity list.old }
    ensures items { list.new.items ≡ list.old.items ++ Act.Nano (clear_flag context.now flag) ∷ [] }
    ensures len { vec_len list.new ≡ vec_len list.old + 1 }
    ensures capacity { vec_capacity list.old ≤ vec_capacity list.new }
{
    push(list, clear_flag(context, flag));
}

/// The same instruction for each bit of two fields of one length.
pub fn push_bits(
    list: &mut Vec<Act>,
    context: &Context,
    x: Field,
    y: Field,
    read: FlagNo,
    write: FlagNo,
    tables: Tables,
)
    requires lengths { y.len ≡ x.len }
    requires room { vec_len list.old + x.len ≤ vec_capacity list.old }
    ensures items { list.new.items ≡ list.old.items
        ++ map Act.Nano (each_bit context.now x y read write tables.memory tables.flag) }
    ensures len { vec_len list.new ≡ vec_len list.old + x.len }
    ensures capacity { vec_capacity list.old ≤ vec_capacity list.new }
{
    for i in 0..x.len() {
        push(
            list,
            nano(context, address(x, i), address(y, i), read, write, tables),
        );
    }
}

/// The bits of a number into a field.
pub fn push_number(list: &mut Vec<Act>, context: &Context, d: Field, number: u64)
    requires room { vec_len list.old + d.len ≤ vec_capacity list.old }
    ensures items { list.new.items ≡ list.old.items ++ map Act.Nano (number_bits context.now d number) }
    ensures len { vec_len list.new ≡ vec_len list.old + d.len }
    ensures capacity { vec_capacity list.old ≤ vec_capacity list.new }
{
    for i in 0..d.len() {
        push(list, number_bit(context, d, number, i));
    }
}

/// Bit `i` of a number into that of a field.
fn number_bit(context: &Context, d: Field, number: u64, i: u16) -> Nano
    requires { i < d.len }
    ensures { result ≡ nano context.now (d.at + i) (d.at + i) ZERO ZERO
        (if bit number i then ALWAYS_1 else ALWAYS_0) ALWAYS_0 }
{
    let tables = if number >> i & 1 == 1 {
        Tables::ONE
    } else {
        Tables::NONE
    };
    nano(
        context,
        address(d, i),
        address(d, i),
        zero(),
        zero(),
        tables,
    )
}
