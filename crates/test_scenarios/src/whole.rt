//! What comes of a text from bytes to bytes, and what is told of refusals and command lines, as by the program.

ghost use Rattle.std.specs.Prelude.{◌≡◌, false, IfOk};
ghost use Rattle.test_doubles.specs.Doubles.{bytes_has_failed, room_has_failed};

use crate::ends::{Ends, WHOLE};
use crate::playing::{tell, tell_made};
use crate::scene::Scene;
use cm_args::command;
use cm_bits::{Words, read_number};
use cm_system::{ProgramFault, report};
use cm_tools::{chip_session, list};
use std::alloc::{AllocError, Global};
use test_doubles::{Bytes, Room};

/// What is done with the bytes of a text.
#[derive(Clone, Copy)]
pub(crate) enum What {
    /// It is run on one chip.
    Chip,
    /// It is listed.
    Listing,
    /// The refusal of this number is told, in this line of a text.
    Refusal(u8, Option<u64>),
}

/// What was written, how it ended, and with which fault of the program.
#[derive(Drop)]
struct Played {
    written: Room,
    end: String,
    fault: Option<ProgramFault>,
}

impl What {
    /// `chip`, `list`, or a refusal's number, with a line behind it if it stands in one.
    pub(crate) fn of(text: &[u8]) -> Option<What> {
        let mut words = Words::new(text);
        let word = words.next()?;
        if word == b"chip".as_slice() {
            return Some(What::Chip);
        }
        if word == b"list".as_slice() {
            return Some(What::Listing);
        }
        refusal_of(read_number(word)?, words.next())
    }

    /// What comes of the text.
    fn play(self, alloc: Global, text: &[u8], ends: Ends) -> Result<Played, AllocError> {
        let mut source = ends.source(text);
        let mut sink = ends.sink(alloc)?;
        let (end, fault) = self.end_of(alloc, &mut source, &mut sink)?;
        Ok(Played {
            written: sink,
            end,
            fault,
        })
    }

    fn end_of(
        self,
        alloc: Global,
        source: &mut Bytes,
        sink: &mut Room,
    ) -> Result<(String, Option<ProgramFault>), AllocError>
        requires reader { bytes_has_failed source.old ≡ false }
        requires writer { room_has_failed sink.old ≡ false }
    {
        match self {
            What::Chip => end_of_chip(alloc, source, sink),
            What::Listing => end_of_listing(alloc, source, sink),
            What::Refusal(number, line) => { Ok((refusal(alloc, number, line, sink)?, None)) }
        }
    }
}

/// The refusal of this number, in the line of this word, if it stands in one.
fn refusal_of(number: u64, line: Option<&[u8]>) -> Option<What> {
    let number = u8::try_from(number).ok()?;
    match line {
        Some(word) => Some(What::Refusal(number, Some(read_number(word)?))),
        None => Some(What::Refusal(number, None)),
    }
}

fn end_of_chip(
    alloc: Global,
    source: &mut Bytes,
    sink: &mut Room,
) -> Result<(String, Option<ProgramFault>), AllocError>
    requires reader { bytes_has_failed source.old ≡ false }
    requires writer { room_has_failed sink.old ≡ false }
{
    let end = chip_session(alloc, source, sink);
    let fault = match end {
        Ok(()) => None,
        Err(fault) => Some(ProgramFault::from(fault)),
    };
    Ok((format!(in alloc; "{end:?}")?, fault))
}

fn end_of_listing(
    alloc: Global,
    source: &mut Bytes,
    sink: &mut Room,
) -> Result<(String, Option<ProgramFault>), AllocError>
    requires reader { bytes_has_failed source.old ≡ false }
    requires writer { room_has_failed sink.old ≡ false }
{
    let end = list(alloc, source, sink);
    Ok((format!(in alloc; "{end:?}")?, end.err()))
}

/// How the telling of a refusal ends: with a status.
fn refusal(
    alloc: Global,
    number: u8,
    line: Option<u64>,
    sink: &mut Room,
) -> Result<String, AllocError>
    requires writer { room_has_failed sink.old ≡ false }
{
    let has_line = number == 1 || number == 2 || 10 <= number && number <= 20;
    if number < 1 || number > 38 || line.is_some() && !has_line {
        return String::from_str(alloc, "no such refusal");
    }
    let end = report(number, line, sink);
    format!(in alloc; "{end:?}")
}

impl Played {
    fn is(&self, written: &[u8], end: &str) -> bool {
        self.written.taken() == written && self.end.as_str() == end
    }
}

/// Tells what comes of the scene's text, and how it ended; of a fault what the program tells, and its status.
pub(crate) fn tell_end(
    alloc: Global,
    what: What,
    scene: &Scene,
    told: &mut Vec<u8>,
) -> Result<(), AllocError> {
    let played = what.play(alloc, scene.program.as_slice(), scene.ends)?;
    told.extend_from_slice(played.written.taken())?;
    tell_made(told, format!(in alloc; "= {}", played.end))?;
    match played.fault {
        Some(fault) => tell_fault(alloc, fault, told),
        None => Ok(()),
    }
}

/// Tells a fault as the program does, and its status.
pub(crate) fn tell_fault(
    alloc: Global,
    fault: ProgramFault,
    told: &mut Vec<u8>,
) -> Result<(), AllocError> {
    let mut sink = Room::new(alloc, 100, 100)?;
    let end = report(fault.number(), fault.line(), &mut sink);
    told.extend_from_slice(sink.taken())?;
    tell_made(told, format!(in alloc; "= {end:?}"))
}

/// Tells what the words of a command line ask for; each stands behind a bar.
pub(crate) fn tell_line(alloc: Global, line: &[u8], told: &mut Vec<u8>) -> Result<(), AllocError> {
    let mut words = Vec::new(alloc);
    for word in line.split(|byte| *byte == b'|').skip(1) {
        words.push(str::from_utf8(word).unwrap_or("?"))?;
    }
    tell_command(alloc, words.as_slice(), told)
}

fn tell_command(alloc: Global, words: &[&str], told: &mut Vec<u8>) -> Result<(), AllocError> {
    let end = command(alloc, words);
    tell_made(told, format!(in alloc; "= {end:?}"))?;
    match end {
        Ok(_) => Ok(()),
        Err(fault) => tell_fault(alloc, ProgramFault::from(fault), told),
    }
}

/// Tells how many of these come out as they should, one after another: the text in pieces of 1 to 19 bytes, as it does
/// whole; room for 0, 1 and more bytes of what is written whole, as its front; reading that fails after 0, 1 and more
/// bytes of the text, with nothing written.
pub(crate) fn tell_each(
    alloc: Global,
    what: What,
    scene: &Scene,
    told: &mut Vec<u8>,
) -> Result<(), AllocError> {
    let text = scene.program.as_slice();
    let whole = what.play(alloc, text, WHOLE)?;
    tell_each_of(alloc, what, text, &whole, told)
}

fn tell_each_of(
    alloc: Global,
    what: What,
    text: &[u8],
    whole: &Played,
    told: &mut Vec<u8>,
) -> Result<(), AllocError> {
    let pieces = pieces_alike(alloc, what, text, whole)?;
    let rooms = rooms_filled(alloc, what, text, whole.written.taken())?;
    let reads = reads_failed(alloc, what, text)?;
    let line = format!(in alloc; "= {pieces} pieces, {rooms} rooms, {reads} failed reads");
    tell_made(told, line)
}

fn pieces_alike(
    alloc: Global,
    what: What,
    text: &[u8],
    whole: &Played,
) -> Result<usize, AllocError> {
    for piece in 1usize..20 {
        let played = what.play(alloc, text, Ends { piece, ..WHOLE })?;
        if !played.is(whole.written.taken(), &whole.end) {
            return Ok(piece - 1);
        }
    }
    Ok(19)
}

fn rooms_filled(
    alloc: Global,
    what: What,
    text: &[u8],
    written: &[u8],
) -> Result<usize, AllocError> {
    for room in 0..written.len() {
        let played = what.play(alloc, text, Ends { room, ..WHOLE })?;
        if !is_filled(alloc, what, &played, &written[..room])? {
            return Ok(room);
        }
    }
    Ok(written.len())
}

/// Whether what was written is all that there was room for, and writing failed then.
fn is_filled(
    alloc: Global,
    what: What,
    played: &Played,
    written: &[u8],
) -> Result<bool, AllocError> {
    match what {
        What::Chip => {
            let end = format!(in alloc; "Err(Write({}))", written.len())?;
            Ok(played.is(written, &end))
        }
        What::Listing => Ok(played.is(written, "Err(Write)")),
        What::Refusal(_, _) => Ok(played.is(written, "Err(Failed)")),
    }
}

fn reads_failed(alloc: Global, what: What, text: &[u8]) -> Result<usize, AllocError> {
    for read in 0..text.len() {
        let ends = Ends {
            piece: 16,
            read,
            ..WHOLE
        };
        if !what.play(alloc, text, ends)?.is(b"", "Err(Read)") {
            return Ok(read);
        }
    }
    Ok(text.len())
}
