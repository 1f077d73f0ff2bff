//! Lines of commands, drawn as their parts.

ghost use Rattle.std.specs.Prelude.{◌<◌, ◌≤◌};

use crate::draws::Draws;
use cm_message::Tag;

/// What the first words of a line ask for.
#[derive(Clone, Copy)]
pub(crate) enum Kind {
    Step,
    Run,
    Break,
    Clear,
    WireOn,
    WireOff,
    WireShow,
    Field,
    Flag,
    Poke,
    PokeFlag,
    Buffer,
    Find,
    Events,
    Rule,
    /// No command.
    Jump,
    /// The operand of a command that has others.
    WireUp,
}

/// What is asked for, and as many operands as are counted: a number, or none where a word is no number.
#[derive(Clone, Copy)]
pub(crate) struct Asked {
    pub(crate) kind: Kind,
    pub(crate) operands: [Option<u64>; 5],
    pub(crate) count: usize,
}

/// How often each is drawn.
static KINDS: [Kind; 32] = [
    Kind::Step,
    Kind::Step,
    Kind::Step,
    Kind::Step,
    Kind::Rule,
    Kind::Run,
    Kind::Run,
    Kind::Run,
    Kind::Break,
    Kind::Break,
    Kind::Clear,
    Kind::WireOn,
    Kind::WireOff,
    Kind::WireShow,
    Kind::Field,
    Kind::Field,
    Kind::Field,
    Kind::Flag,
    Kind::Flag,
    Kind::Poke,
    Kind::Poke,
    Kind::Poke,
    Kind::PokeFlag,
    Kind::PokeFlag,
    Kind::PokeFlag,
    Kind::Buffer,
    Kind::Find,
    Kind::Find,
    Kind::Find,
    Kind::Events,
    Kind::Jump,
    Kind::WireUp,
];

impl Kind {
    pub(crate) fn words(self) -> &'static str {
        match self {
            Kind::Step => "step",
            Kind::Run => "run",
            Kind::Break => "break",
            Kind::Clear => "clear",
            Kind::WireOn => "wire on",
            Kind::WireOff => "wire off",
            Kind::WireShow => "wire show",
            Kind::Field => "field",
            Kind::Flag => "flag",
            Kind::Poke => "poke",
            Kind::PokeFlag => "pokeflag",
            Kind::Buffer => "buf",
            Kind::Find => "find",
            Kind::Events => "events",
            Kind::Rule => "rule",
            Kind::Jump => "jump",
            Kind::WireUp => "wire up",
        }
    }

    /// How many operands it has.
    pub(crate) fn arity(self) -> usize
        ensures few { result ≤ 4 }
    {
        match self {
            Kind::Step | Kind::Run | Kind::WireOn | Kind::WireOff | Kind::WireShow => 0,
            Kind::Rule | Kind::Jump | Kind::WireUp => 0,
            Kind::Break | Kind::Clear | Kind::Buffer | Kind::Events => 1,
            Kind::Flag | Kind::Find => 3,
            Kind::Field | Kind::Poke | Kind::PokeFlag => 4,
        }
    }

    /// What its operand of this place has to be below, on so many chips with so many acts; for a birth, what most are
    /// below.
    fn limit(self, place: usize, chips: u16, acts: u16) -> u16
        requires chips { 0 < chips }
        requires acts { 0 < acts }
        ensures some { 0 < result }
    {
        match (self, place) {
            (Kind::Break | Kind::Clear, _) => acts,
            (_, 0) => chips,
            (_, 1) | (Kind::Flag | Kind::PokeFlag, 2) => 16,
            (Kind::Field | Kind::Poke, 2) => 4096,
            (Kind::Field, _) => 65,
            (Kind::Find, _) => 6,
            _ => 2,
        }
    }
}

impl Asked {
    /// A line; one in six or so has a fault.
    pub(crate) fn drawn(draws: &mut Draws, chips: u16, acts: u16) -> Asked
        requires chips { 0 < chips }
        requires acts { 0 < acts }
        ensures few { result.count ≤ 5 }
    {
        let kind = KINDS[usize::from(draws.below(32))];
        let mut operands = [Some(0); 5];
        for place in 0..5usize {
            operands[place] = operand(draws, kind.limit(place, chips, acts));
        }
        let arity = kind.arity();
        let count = match draws.below(32) {
            0 => arity + 1,
            1 => arity.saturating_sub(1),
            _ => arity,
        };
        Asked {
            kind,
            operands,
            count,
        }
    }

    /// A line that asks where a message is.
    pub(crate) fn finding(tag: Tag) -> Asked
        ensures few { result.count ≤ 5 }
    {
        let (chip, proc) = (u64::from(tag.chip), u64::from(tag.proc.get()));
        Asked {
            kind: Kind::Find,
            operands: [Some(chip), Some(proc), Some(tag.birth), None, None],
            count: 3,
        }
    }

    /// A line with one number.
    pub(crate) fn of(kind: Kind, number: u16) -> Asked
        ensures few { result.count ≤ 5 }
    {
        Asked {
            kind,
            operands: [Some(u64::from(number)); 5],
            count: kind.arity(),
        }
    }
}

/// An operand, seldom one that is out of range or no number. Of the addresses most are those of the first fields and of
/// what is sent.
fn operand(draws: &mut Draws, limit: u16) -> Option<u64>
    requires some { 0 < limit }
{
    match draws.below(48) {
        0 => None,
        1 => Some(u64::from(limit) + u64::from(draws.below(3))),
        2 => Some(u64::from(draws.number()) << 16),
        3..=20 if limit == 4096 => Some(u64::from(draws.below(16))),
        21..=40 if limit == 4096 => Some(3968 + u64::from(draws.below(52))),
        _ => Some(u64::from(draws.below(limit))),
    }
}
