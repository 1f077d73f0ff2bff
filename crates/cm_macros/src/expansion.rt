//! The acts of a macro.

ghost use Rattle.std.specs.Prelude.{◌≡◌, ◌+◌, ◌<◌, ◌≤◌, ◌++◌, vec_len, vec_capacity, None, length, OnOk, OnErr, IfErr};
ghost use Rattle.cm_language.specs.Acts.{acts_of};
ghost use Rattle.cm_language.specs.Faults.{first_fault, IsRefusal};

use crate::acts::{Tables, carry, zero};
use crate::fits::fault_of;
use crate::product::{count_product, push_product};
use crate::pushes::{push_bits, push_clear, push_number, push_set};
use cm_language::{Context, Macro, MacroFault};
use cm_model::Act;

/// Puts the acts of a macro under a context behind those of the list. The list is as it was after
/// any refusal; it may have got room.
pub fn expand(wanted: &Macro, context: Context, list: &mut Vec<Act>) -> Result<(), MacroFault>
    ensures ok { OnOk result (list.new.items ≡ list.old.items ++ acts_of wanted.now context) }
    ensures accepted { OnOk result (first_fault wanted.now context ≡ None) }
    ensures refused { IfErr result (λ fault. IsRefusal wanted.now context
        (vec_capacity list.old < vec_len list.old + length (acts_of wanted.now context)) fault) }
    ensures err { OnErr result (list.new.items ≡ list.old.items) }
    ensures capacity { vec_capacity list.old ≤ vec_capacity list.new }
{
    if let Some(fault) = fault_of(wanted, &context) {
        return Err(fault);
    }
    if list.reserve(count_acts(wanted, context)).is_err() {
        return Err(MacroFault::Memory);
    }
    append(wanted, &context, list);
    Ok(())
}

/// How many acts a macro has.
#[tactic(auto, using(crate::proofs::Lists::length_of_bits, crate::proofs::Lists::length_of_product))]
pub fn count_acts(wanted: &Macro, context: Context) -> usize
    ensures { result ≡ length (acts_of wanted.now context) }
{
    match *wanted {
        Macro::Add(d, _) | Macro::Sub(d, _) | Macro::Less(d, _) | Macro::Equal(d, _) => {
            usize::from(d.len()) + 1
        }
        Macro::Shift(d) => usize::from(d.len()) + 1,
        Macro::Move(d, _) | Macro::Select(d, _, _) | Macro::Const(d, _) => usize::from(d.len()),
        Macro::Mul(d, x, y) => usize::from(d.len()) + count_product(d, x, y) + 2,
        Macro::Set(_) | Macro::Clear(_) => 1,
    }
}

/// The acts, where the list has room for them.
#[tactic(auto, using(crate::proofs::Lists::length_of_bits, crate::proofs::Lists::length_of_product))]
fn append(wanted: &Macro, context: &Context, list: &mut Vec<Act>)
    requires accepted { first_fault wanted.now context.now ≡ None }
    requires room { vec_len list.old + length (acts_of wanted.now context.now) ≤ vec_capacity list.old }
    ensures items { list.new.items ≡ list.old.items ++ acts_of wanted.now context.now }
    ensures capacity { vec_capacity list.old ≤ vec_capacity list.new }
{
    match *wanted {
        Macro::Add(d, s) => {
            push_clear(list, context, carry());
            push_bits(list, context, d, s, carry(), carry(), Tables::SUM);
        }
        Macro::Sub(d, s) => {
            push_set(list, context, carry());
            push_bits(list, context, d, s, carry(), carry(), Tables::DIFFERENCE);
        }
        Macro::Less(x, y) => {
            push_clear(list, context, carry());
            push_bits(list, context, x, y, carry(), carry(), Tables::BORROW);
        }
        Macro::Equal(x, y) => {
            push_set(list, context, carry());
            push_bits(list, context, x, y, carry(), carry(), Tables::EQUAL);
        }
        Macro::Move(d, s) => push_bits(list, context, d, s, zero(), zero(), Tables::COPY),
        Macro::Select(d, s, f) => push_bits(list, context, d, s, f, zero(), Tables::CHOICE),
        Macro::Const(d, v) => push_number(list, context, d, v),
        Macro::Shift(d) => {
            push_clear(list, context, carry());
            push_bits(list, context, d, d, carry(), carry(), Tables::SHIFT);
        }
        Macro::Mul(d, x, y) => push_product(list, context, d, x, y),
        Macro::Set(f) => push_set(list, context, f),
        Macro::Clear(f) => push_clear(list, context, f),
    }
}
