//! Texts of drawn programs and of drawn lines.

ghost use Rattle.std.specs.Prelude.{◌≤◌};

use crate::asked::Asked;
use crate::draws::Draws;
use std::alloc::{AllocError, Global};

const HEAD: &str =
    "field x 0 4\nfield y 4 4\nfield rel 3968 16\nfield proc 3984 4\nfield data 3988 32\n";

/// What ends a line; nothing that it says is asked for.
static ENDS: [&str; 8] = [
    "\n",
    "\n",
    "\n",
    "\n",
    "\r\n",
    " ; step\n",
    "\n\n",
    "\t \n;\n \t; run\n",
];

/// A program of at least one act.
pub(crate) fn program(alloc: Global, draws: &mut Draws) -> Result<String, AllocError> {
    let mut text = String::new(alloc);
    text.push_str(HEAD)?;
    for _ in 0..4 + draws.below(24) {
        text.push_str(line(draws.below(32)))?;
    }
    text.push_str("sense\n")?;
    Ok(text)
}

/// A line of a program, by one of 32 numbers.
fn line(number: u16) -> &'static str {
    match number {
        0..=4 => "cycle\n",
        5..=7 => "sense\n",
        8 => "add x y\n",
        9 => "sub y x\n",
        10 => "move x y\n",
        11 => "less x y\n",
        12 => "const x 9\n",
        13 => "const y 5\n",
        14 => "const rel 1\n",
        15 => "const rel 6\n",
        16 => "const proc 3\n",
        17 => "const data 0xbeef\n",
        18 => "set 12\n",
        19 => "clear 14\n",
        20 => "set 9\n",
        21 => "clear 9\n",
        22 => "if 0\n",
        23 => "unless 3\n",
        24 => "if 5\n",
        25 => "always\n",
        26 => "nano 0 5 7 10 3 1 0x96 0xe8 e\n",
        27 => "nano 4 1 10 11 8 0 0xcc 0xaa s\n",
        28 => "nano 3984 3 11 9 8 0 0x3c 0xf0 w\n",
        29 => "nano 2 6 9 12 1 0 0xf0 0x5a n\n",
        30 => "nano 3968 3990 5 14 2 1 0x78 0x66 n\n",
        _ => "nano 7 0 12 0 8 0 0xd2 0x35 w\n",
    }
}

/// Writes a line, in one of its spellings.
pub(crate) fn push_line(
    alloc: Global,
    text: &mut String,
    asked: &Asked,
    draws: &mut Draws,
) -> Result<(), AllocError>
    requires few { asked.now.count ≤ 5 }
{
    text.push_str(asked.kind.words())?;
    for operand in &asked.operands[..asked.count] {
        match *operand {
            None => text.push_str(" 0x1g")?,
            Some(number) if draws.once_in(4) => {
                text.push_str(format!(in alloc; "\t 0x{number:x}")?.as_str())?;
            }
            Some(number) => text.push_str(format!(in alloc; " {number}")?.as_str())?,
        }
    }
    text.push_str(ENDS[usize::from(draws.below(8))])
}
