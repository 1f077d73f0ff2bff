//! The rounds of a product.

ghost use Rattle.std.specs.Prelude.{◌≡◌, ◌+◌, ◌-◌, ◌*◌, ◌<◌, ◌≤◌, ◌++◌, ◌∷◌, [], length, map, vec_len, vec_capacity};
ghost use Rattle.cm_language.specs.Acts.{product, product_round, number_bits, clear_flag};
ghost use Rattle.cm_language.specs.Effect.{CARRY, FACTOR};

use crate::acts::{Tables, above, address, carry, factor, lowest, nano, zero};
use crate::pushes::{push, push_bits, push_clear, push_number};
use cm_bits::Field;
use cm_language::Context;
use cm_model::Act;

/// How many acts the rounds of a product have.
pub fn count_product(d: Field, x: Field, y: Field) -> usize
    ensures value { result ≡ length (product d x y) }
    ensures within { result ≤ 66 * d.len }
{
    let mut count = 0;
    for j in 0..d.len() {
        count += 2 + usize::from(d.len() - j);
    }
    count
}

/// d := 0; then round by round y is added further up where the bits of x say so; last both flags are 0.
pub fn push_product(list: &mut Vec<Act>, context: &Context, d: Field, x: Field, y: Field)
    requires factor { x.len ≡ d.len }
    requires other { y.len ≡ d.len }
    requires room { vec_len list.old + d.len + length (product d x y) + 2 ≤ vec_capacity list.old }
    ensures items { list.new.items ≡ list.old.items
        ++ map Act.Nano (number_bits context.now d 0
        ++ (product d x y ++ clear_flag context.now FACTOR ∷ clear_flag context.now CARRY ∷ [])) }
    ensures capacity { vec_capacity list.old ≤ vec_capacity list.new }
{
    push_number(list, context, d, 0);
    push_rounds(list, d, x, y);
    push_clear(list, context, factor());
    push_clear(list, context, carry());
}

fn push_rounds(list: &mut Vec<Act>, d: Field, x: Field, y: Field)
    requires factor { x.len ≡ d.len }
    requires other { y.len ≡ d.len }
    requires room { vec_len list.old + length (product d x y) ≤ vec_capacity list.old }
    ensures items { list.new.items ≡ list.old.items ++ map Act.Nano (product d x y) }
    ensures len { vec_len list.new ≡ vec_len list.old + length (product d x y) }
    ensures capacity { vec_capacity list.old ≤ vec_capacity list.new }
{
    for j in 0..d.len() {
        push_round(list, d, x, y, j);
    }
}

/// Where bit `j` of x is 1, y is added to d from bit `j` up.
fn push_round(list: &mut Vec<Act>, d: Field, x: Field, y: Field, j: u16)
    requires inside { j < d.len }
    requires factor { x.len ≡ d.len }
    requires other { y.len ≡ d.len }
    requires room { vec_len list.old + 2 + (d.len - j) ≤ vec_capacity list.old }
    ensures items { list.new.items ≡ list.old.items ++ map Act.Nano (product_round d x y j) }
    ensures len { vec_len list.new ≡ vec_len list.old + 2 + (d.len - j) }
    ensures capacity { vec_capacity list.old ≤ vec_capacity list.new }
{
    let bit = address(x, j);
    let under = Context::On(factor());
    push(
        list,
        nano(&Context::Always, bit, bit, zero(), factor(), Tables::A),
    );
    push_clear(list, &under, carry());
    let addend = lowest(y, d.len() - j);
    push_bits(
        list,
        &under,
        above(d, j),
        addend,
        carry(),
        carry(),
        Tables::SUM,
    );
}
