//! Scenes as a text tells them, line by line.

use crate::ends::{Ends, WHOLE};
use crate::images::{add_bytes, tell_blank, tell_shape};
use crate::playing::{Turn, count, listing, play, read_alone, tell};
use crate::refusing::Lack;
use crate::sessions::tell_each_session;
use crate::weaving::Steps;
use crate::whole::{What, tell_each, tell_end, tell_line};
use cm_bits::{Lines, Words, read_number};
use std::alloc::{AllocError, Global};

/// A machine or its image, a program, commands, and where reading, writing and the runner fail.
#[derive(Drop)]
pub(crate) struct Scene {
    /// The cube's dimensions, and how many messages a router holds.
    pub(crate) dimensions: u64,
    pub(crate) room: u64,
    /// The petit cycles that the machine has run.
    pub(crate) clock: u64,
    /// The bytes that the machine is read from; none where it is blank.
    pub(crate) image: Vec<u8>,
    /// The image that a session leaves is told.
    pub(crate) tells_image: bool,
    pub(crate) program: Vec<u8>,
    pub(crate) commands: Vec<u8>,
    /// Into 2^`split` blocks a machine is cut whose blocks exchange.
    pub(crate) split: u64,
    /// How often the next line of the image, the program or of commands stands there.
    times: u64,
    /// How bytes of texts and commands come, and how answers go.
    pub(crate) ends: Ends,
    /// After how many lists of acts the runner lacks something.
    pub(crate) lists: u64,
    pub(crate) lack: Lack,
}

impl Scene {
    /// One chip with room for seven messages; nothing fails.
    fn new(alloc: Global) -> Scene {
        Scene {
            dimensions: 0,
            room: 7,
            clock: 0,
            image: Vec::new(alloc),
            tells_image: false,
            program: Vec::new(alloc),
            commands: Vec::new(alloc),
            split: 0,
            times: 1,
            ends: Ends { piece: 3, ..WHOLE },
            lists: u64::MAX,
            lack: Lack::Memory,
        }
    }

    /// Takes a line of the image, the program or of commands.
    fn take(&mut self, alloc: Global, mark: u8, line: &[u8]) -> Result<(), AllocError> {
        let times = self.times;
        self.times = 1;
        match mark {
            b':' => add_bytes(alloc, &mut self.image, line, times),
            b'<' => add(&mut self.program, line, b"\n", times),
            b'-' => add(&mut self.program, line, b"", times),
            b'>' => add(&mut self.commands, line, b"\n", times),
            _ => add(&mut self.commands, line, b"", times),
        }
    }

    /// Takes words and their numbers, by turns.
    fn settle(&mut self, line: &[u8]) {
        let mut words = Words::new(line);
        for _ in 0..8 {
            match (words.next(), words.next()) {
                (Some(name), Some(word)) => self.set(name, read_number(word).unwrap_or(0)),
                _ => return,
            }
        }
    }

    fn set(&mut self, name: &[u8], number: u64) {
        if name == b"dimensions".as_slice() {
            self.dimensions = number;
        } else if name == b"room".as_slice() {
            self.room = number;
        } else if name == b"clock".as_slice() {
            self.clock = number;
        } else if name == b"image".as_slice() {
            self.tells_image = number > 0;
        } else if name == b"split".as_slice() {
            self.split = number;
        } else if name == b"piece".as_slice() {
            self.ends.piece = number as usize;
        } else if name == b"read".as_slice() {
            self.ends.read = number as usize;
        } else if name == b"written".as_slice() {
            self.ends.room = number as usize;
        } else if name == b"nothing".as_slice() {
            self.ends.takes_nothing = number > 0;
        } else if name == b"memory".as_slice() {
            self.lists = number;
        } else if name == b"thread".as_slice() {
            self.lists = number;
            self.lack = Lack::Thread;
        }
    }
}

/// Adds a line with what ends it to a text, so many times.
fn add(text: &mut Vec<u8>, line: &[u8], end: &[u8], times: u64) -> Result<(), AllocError> {
    for _ in 0..times {
        text.extend_from_slice(line)?;
        text.extend_from_slice(end)?;
    }
    Ok(())
}

/// Goes over the lines of scenes, and tells what came of them.
pub(crate) fn perform(alloc: Global, lines: Lines, told: &mut Vec<u8>) -> Result<(), AllocError> {
    let mut scene = Scene::new(alloc);
    for line in lines {
        obey(alloc, &mut scene, line, told)?;
    }
    Ok(())
}

/// Does what a line says, by its first character:
/// `#` a title, which is told again: a scene begins;
/// `=` words of the scene (`dimensions`, `room`, `clock`, `image`, `split`, `piece`, `read`, `written`, `nothing`,
/// `memory`, `thread`), each with its number;
/// `:` bytes of an image, each as two digits;
/// `<` a line of the program, `-` one without its end;
/// `>` a line of commands, `+` one without its end;
/// `*` how often the next of these five stands there;
/// `!` the commands are answered;
/// `|` they are steps of an exchange, which are answered; `|self` it takes its own, which are told;
/// `&` what the image is the image of is told, and its fault, or the bytes of its machine;
/// `/` dimensions and room of a blank machine, whose bytes are told;
/// `@` the number of the program's acts, or its first fault, is told, and `%` its listing;
/// `?` dimensions of a cube, acts of a program, and a line of commands, which is read alone;
/// `~` the program goes from bytes to bytes: `chip`, `list`, or a refusal's number is told, with its line;
/// `^` the same in pieces, with little room, and with reading that fails; `^session` so the commands are answered;
/// `$` the words of a command line, each behind a bar.
fn obey(
    alloc: Global,
    scene: &mut Scene,
    line: &[u8],
    told: &mut Vec<u8>,
) -> Result<(), AllocError> {
    let [mark, rest @ ..] = line else {
        return Ok(());
    };
    match *mark {
        b'#' => begin(alloc, scene, line, told),
        b'=' => {
            scene.settle(rest);
            Ok(())
        }
        b'*' => {
            scene.times = read_number(rest).unwrap_or(1);
            Ok(())
        }
        b'!' => play(alloc, Turn::Session, scene, told),
        b'|' => exchange(alloc, scene, rest, told),
        b'&' => judge(alloc, scene, told),
        b'/' => tell_blank(alloc, rest, told),
        b'@' => count(alloc, scene, told),
        b'%' => listing(alloc, scene, told),
        b'?' => read_alone(alloc, rest, told),
        b'~' => whole(alloc, scene, rest, told),
        b'^' => each(alloc, scene, rest, told),
        b'$' => tell_line(alloc, rest, told),
        _ => scene.take(alloc, *mark, rest),
    }
}

fn begin(
    alloc: Global,
    scene: &mut Scene,
    title: &[u8],
    told: &mut Vec<u8>,
) -> Result<(), AllocError> {
    *scene = Scene::new(alloc);
    tell(told, title)
}

fn exchange(
    alloc: Global,
    scene: &Scene,
    line: &[u8],
    told: &mut Vec<u8>,
) -> Result<(), AllocError> {
    let steps = if line.is_empty() {
        Steps::Told
    } else {
        Steps::Own
    };
    play(alloc, Turn::Exchange(steps), scene, told)
}

fn judge(alloc: Global, scene: &Scene, told: &mut Vec<u8>) -> Result<(), AllocError> {
    tell_shape(alloc, scene.image.as_slice(), told)?;
    play(alloc, Turn::Image, scene, told)
}

fn whole(alloc: Global, scene: &Scene, line: &[u8], told: &mut Vec<u8>) -> Result<(), AllocError> {
    match What::of(line) {
        Some(what) => tell_end(alloc, what, scene, told),
        None => tell(told, b"no such word"),
    }
}

fn each(
    alloc: Global,
    scene: &mut Scene,
    line: &[u8],
    told: &mut Vec<u8>,
) -> Result<(), AllocError> {
    if line == b"session".as_slice() {
        return tell_each_session(alloc, scene, told);
    }
    match What::of(line) {
        Some(what) => tell_each(alloc, what, scene, told),
        None => tell(told, b"no such word"),
    }
}
