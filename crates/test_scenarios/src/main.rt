//! Plays the scenes of a text on standard input, and tells what came of each.
#![tactic(auto)]

mod ends;
mod images;
mod playing;
mod refusing;
mod scene;
mod sessions;
mod weaving;
mod whole;

use crate::scene::perform;
use cm_bits::Lines;
use std::io::{self, Read, Write};

fn main(rt: HostRuntime) -> io::Result<()> {
    let alloc = rt.alloc();
    let mut text = Vec::new(alloc);
    rt.reader().read_to_end(&mut text)?;
    let mut told = Vec::new(alloc);
    perform(alloc, Lines::new(text.as_slice()), &mut told)?;
    io::writer(&rt).write_all(told.as_slice())?;
    io::writer(&rt).flush()
}
