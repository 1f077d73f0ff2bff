//! The instructions that macros are made of.

ghost use Rattle.std.specs.Prelude.{◌≡◌, ◌+◌, ◌-◌, ◌<◌, ◌≤◌};
ghost use Rattle.cm_model.specs.Processor.{ZERO};
ghost use Rattle.cm_language.specs.Effect.{CARRY, FACTOR};
ghost use Rattle.cm_language.specs.Acts.{cond_of, sense_of, nano, set_flag, clear_flag, above, lowest};

use cm_bits::{Addr, Dir, Field, FlagNo};
use cm_language::Context;
use cm_model::Nano;

const CARRY_FLAG: u8 = 7;

const FACTOR_FLAG: u8 = 6;

/// The truth table of memory and that of the flag.
#[derive(Clone, Copy)]
pub struct Tables {
    pub memory: u8,
    pub flag: u8,
}

impl Tables {
    /// A + B + F and its carry.
    pub const SUM: Tables = Tables {
        memory: 0x96,
        flag: 0xe8,
    };

    /// A + not B + F and its carry.
    pub const DIFFERENCE: Tables = Tables {
        memory: 0x69,
        flag: 0xb2,
    };

    /// A stays; what A - B - F borrows.
    pub const BORROW: Tables = Tables {
        memory: 0xf0,
        flag: 0x8e,
    };

    /// A stays; A equals B, and F.
    pub const EQUAL: Tables = Tables {
        memory: 0xf0,
        flag: 0x82,
    };

    /// B.
    pub const COPY: Tables = Tables {
        memory: 0xcc,
        flag: 0x00,
    };

    /// B where F is 1, else A.
    pub const CHOICE: Tables = Tables {
        memory: 0xd8,
        flag: 0x00,
    };

    /// F; the flag takes A.
    pub const SHIFT: Tables = Tables {
        memory: 0xaa,
        flag: 0xf0,
    };

    /// A into both.
    pub const A: Tables = Tables {
        memory: 0xf0,
        flag: 0xf0,
    };

    /// A stays; 1.
    pub const SET: Tables = Tables {
        memory: 0xf0,
        flag: 0xff,
    };

    /// A stays; 0.
    pub const CLEAR: Tables = Tables {
        memory: 0xf0,
        flag: 0x00,
    };

    /// 1 into memory.
    pub const ONE: Tables = Tables {
        memory: 0xff,
        flag: 0x00,
    };

    /// 0 into memory.
    pub const NONE: Tables = Tables {
        memory: 0x00,
        flag: 0x00,
    };
}

/// An instruction under a context.
pub fn nano(
    context: &Context,
    a: Addr,
    b: Addr,
    read: FlagNo,
    write: FlagNo,
    tables: Tables,
) -> Nano
    ensures { result ≡ nano context.now a b read write tables.memory tables.flag }
{
    Nano {
        a,
        b,
        read,
        write,
        cond: cond_of(context),
        sense: sense_of(context),
        mem_table: tables.memory,
        flag_table: tables.flag,
        dir: Dir::North,
    }
}

/// 1 into a flag.
pub fn set_flag(context: &Context, flag: FlagNo) -> Nano
    ensures { result ≡ set_flag context.now flag }
{
    nano(context, origin(), origin(), zero(), flag, Tables::SET)
}

/// 0 into a flag.
pub fn clear_flag(context: &Context, flag: FlagNo) -> Nano
    ensures { result ≡ clear_flag context.now flag }
{
    nano(context, origin(), origin(), zero(), flag, Tables::CLEAR)
}

/// The flag that sums carry through.
pub fn carry() -> FlagNo
    ensures { result ≡ CARRY }
{
    FlagNo::new(CARRY_FLAG).unwrap()
}

/// The flag in which a product keeps a bit of its factor.
pub fn factor() -> FlagNo
    ensures { result ≡ FACTOR }
{
    FlagNo::new(FACTOR_FLAG).unwrap()
}

/// The flag that always reads 0.
pub fn zero() -> FlagNo
    ensures { result ≡ ZERO }
{
    FlagNo::ZERO
}

/// The address of bit `i` of a field.
pub fn address(field: Field, i: u16) -> Addr
    requires { i < field.len }
    ensures { result ≡ field.at + i }
{
    Addr::new(field.at() + i).unwrap()
}

/// The field without its `j` lowest bits.
pub fn above(field: Field, j: u16) -> Field
    requires { j < field.len }
    ensures { result ≡ above field j }
{
    match Field::new(field.at() + j, field.len() - j) {
        Ok(upper) => upper,
        Err(_) => unreachable!(),
    }
}

/// The `count` lowest bits of a field.
pub fn lowest(field: Field, count: u16) -> Field
    requires some { 1 ≤ count }
    requires within { count ≤ field.len }
    ensures { result ≡ lowest field count }
{
    match Field::new(field.at(), count) {
        Ok(lower) => lower,
        Err(_) => unreachable!(),
    }
}

fn origin() -> Addr
    ensures { result ≡ 0 }
{
    Addr::new(0).unwrap()
}

fn cond_of(context: &Context) -> FlagNo
    ensures { result ≡ cond_of context.now }
{
    match *context {
        Context::Always => zero(),
        Context::On(flag) | Context::Off(flag) => flag,
    }
}

fn sense_of(context: &Context) -> bool
    ensures { result ≡ sense_of context.now }
{
    match *context {
        Context::On(_) => true,
        Context::Always | Context::Off(_) => false,
    }
}
