//! The program's own sharing: where it shares out a list, all workers that it is told to have meet in each round.

ghost use Rattle.std.specs.Prelude.{◌≡◌, false};
ghost use Rattle.std.specs.Thread.{IsSync};

use crate::meeting::{Cut, FOUR, Meeting, Notes, Waits, no_notes};
use cm_array::AnyMachine;
use cm_asm::{Program, assemble};
use cm_bits::{Sink, Source};
use cm_cli::Several;
use cm_image_dump::dump;
use cm_model::Rule;
use cm_run::{Alone, SessionRunner, Sharing};
use cm_sizes::{image_of, open_image};
use cm_tools::fresh;
use cm_workers::Passage;
use std::alloc::Global;
use std::sync::{Arc, Wait};
use std::test::Fail;
use std::thread::Threads;
use test_doubles::{Bytes, Room};
use test_generators::cut_in_two_places;

/// All processors send to the chip across all of four dimensions, and across all of twelve.
const OVER_FOUR: &[u8] = b"field rel 3968 16\nconst rel 15\nset 12\ncycle\n";

const OVER_TWELVE: &[u8] = b"field rel 3968 16\nconst rel 4095\nset 12\n\
    cycle\ncycle\ncycle\ncycle\ncycle\ncycle\ncycle\ncycle\n";

const TWICE_OVER_FOUR: &[u8] = b"field rel 3968 16\nconst rel 15\nset 12\ncycle\ncycle\n";

const ASKS: &[u8] = b"rule\nrun\nbuf 15\nevents 15\n";

/// With which a session begins: of blank chips, whose routers have room for seven messages.
#[derive(Clone, Copy)]
enum Image {
    /// 2^n of them.
    Blank(u8),
    /// Sixteen, of which two wires are cut and messages leave by this rule.
    Cut(Rule),
}

/// The image that a session leaves, and its answers.
type Left = (Vec<u8>, Vec<u8>);

/// A session on a machine that is shared out.
struct Shared {
    image: Image,
    text: &'static [u8],
    sharing: Sharing,
    cut: Cut,
    /// How often its workers come to a round: never where one thread goes through the list sooner.
    came: u64,
}

/// Four blocks, and a worker for each.
const BY_FOUR: Sharing = Sharing {
    split: 2,
    workers: 4,
};

static SHARED: [Shared; 5] = [
    Shared {
        image: Image::Blank(4),
        text: OVER_FOUR,
        sharing: BY_FOUR,
        cut: FOUR,
        came: 0,
    },
    Shared {
        image: Image::Blank(12),
        text: OVER_TWELVE,
        sharing: BY_FOUR,
        cut: Cut {
            blocks: 4,
            chips: 1024,
        },
        came: 64,
    },
    Shared {
        image: Image::Blank(12),
        text: OVER_TWELVE,
        sharing: Sharing {
            split: 6,
            workers: 64,
        },
        cut: Cut {
            blocks: 64,
            chips: 64,
        },
        came: 3072,
    },
    Shared {
        image: Image::Cut(Rule::First),
        text: TWICE_OVER_FOUR,
        sharing: BY_FOUR,
        cut: FOUR,
        came: 0,
    },
    Shared {
        image: Image::Cut(Rule::Oldest),
        text: TWICE_OVER_FOUR,
        sharing: BY_FOUR,
        cut: FOUR,
        came: 0,
    },
];

impl Image {
    fn bytes(self, alloc: Global) -> Option<Vec<u8>> {
        match self {
            Image::Blank(n) => fresh(alloc, n, 7).ok(),
            Image::Cut(rule) => dump(alloc, &cut_in_two_places(alloc, rule)?).ok(),
        }
    }

    fn opened(self, alloc: Global) -> Option<AnyMachine> {
        let bytes = self.bytes(alloc)?;
        open_image(alloc, &bytes).ok()
    }
}

/// The image of what a session by this runner leaves of a machine.
fn image_by<S: SessionRunner, I: Source, O: Sink>(
    alloc: Global,
    runner: S,
    machine: AnyMachine,
    program: &Program,
    commands: &mut I,
    answers: &mut O,
) -> Option<Vec<u8>>
    requires can { S.can_run runner machine }
    requires reader { I.has_failed commands.old ≡ false }
    requires writer { O.has_failed answers.old ≡ false }
{
    let (left, ended) = runner.go(alloc, machine, program, commands, answers);
    ended.ok()?;
    image_of(alloc, left).ok()
}

/// The image that one worker leaves, who answers the commands.
fn kept_alone<I: Source, O: Sink>(
    alloc: Global,
    row: &Shared,
    commands: &mut I,
    answers: &mut O,
) -> Option<Vec<u8>>
    requires reader { I.has_failed commands.old ≡ false }
    requires writer { O.has_failed answers.old ≡ false }
{
    let program = assemble(alloc, row.text).ok()?;
    let machine = row.image.opened(alloc)?;
    image_by(alloc, Alone, machine, &program, commands, answers)
}

/// What one worker leaves.
fn left_alone(alloc: Global, row: &Shared) -> Option<Left> {
    let mut commands = Bytes::new(ASKS, 7);
    let Ok(mut answers) = Room::new(alloc, 1000, 10) else {
        return None;
    };
    let kept = kept_alone(alloc, row, &mut commands, &mut answers)?;
    Some((kept, answers.taken().to_vec(alloc).ok()?))
}

/// A gate at which all workers of a session wait for one another.
fn gate_of(alloc: Global, row: &Shared, notes: &Arc<Notes, Global>) -> Option<Passage> {
    let workers = u16::from(row.sharing.workers);
    let gate = Meeting {
        waits: Waits::ForAll(workers),
        workers,
        cut: row.cut,
        notes: Arc::try_clone(notes).ok()?,
        letters: None,
    };
    Some(Passage::Gated(Box::new(alloc, gate).ok()?))
}

/// The image of what several workers leave of a machine.
fn image_by_all<R: Threads + Wait + Sync, I: Source, O: Sink>(
    rt: &R,
    alloc: Global,
    row: &Shared,
    passage: Passage,
    machine: AnyMachine,
    commands: &mut I,
    answers: &mut O,
) -> Option<Vec<u8>>
    requires threads { IsSync R.row }
    requires reader { I.has_failed commands.old ≡ false }
    requires writer { O.has_failed answers.old ≡ false }
{
    let program = assemble(alloc, row.text).ok()?;
    row.sharing.check(machine.dims()).ok()?;
    let several = Several {
        rt,
        sharing: row.sharing,
        passage,
    };
    image_by(alloc, several, machine, &program, commands, answers)
}

/// The same of a machine that is opened for them.
fn kept_shared<R: Threads + Wait + Sync, I: Source, O: Sink>(
    rt: &R,
    alloc: Global,
    row: &Shared,
    passage: Passage,
    commands: &mut I,
    answers: &mut O,
) -> Option<Vec<u8>>
    requires threads { IsSync R.row }
    requires reader { I.has_failed commands.old ≡ false }
    requires writer { O.has_failed answers.old ≡ false }
{
    let machine = row.image.opened(alloc)?;
    image_by_all(rt, alloc, row, passage, machine, commands, answers)
}

/// What several leave, who wait for one another.
fn left_shared<R: Threads + Wait + Sync>(
    rt: &R,
    alloc: Global,
    row: &Shared,
    notes: &Arc<Notes, Global>,
) -> Option<Left>
    requires threads { IsSync R.row }
{
    let passage = gate_of(alloc, row, notes)?;
    let mut commands = Bytes::new(ASKS, 7);
    let Ok(mut answers) = Room::new(alloc, 1000, 10) else {
        return None;
    };
    let kept = kept_shared(rt, alloc, row, passage, &mut commands, &mut answers)?;
    Some((kept, answers.taken().to_vec(alloc).ok()?))
}

/// What all noted, and whether the machine is as one worker leaves it.
fn told<R: Threads + Wait + Sync>(
    rt: &R,
    alloc: Global,
    row: &Shared,
) -> Result<([u64; 4], bool), Fail>
    requires threads { IsSync R.row }
{
    let notes = no_notes(alloc)?;
    let shared = left_shared(rt, alloc, row, &notes);
    let alone = left_alone(alloc, row);
    Ok((notes.told(), shared.is_some() && shared == alone))
}

#[test]
fn all_workers_of_the_program_meet_in_each_round(rt: HostRuntime) -> Result<(), Fail> {
    for row in &SHARED {
        assert_eq!(rt; told(&rt, rt.alloc(), row)?, ([row.came, 0, 0, 0], true));
    }
    Ok(())
}
