//! Gates at which workers wait for one another: in each round for all others, or for one that is a round ahead. They
//! look at the blocks that they are shown.

ghost use Rattle.std.specs.Prelude.{IsTrue, ◌+◌, ◌<◌, ◌≤◌};
ghost use Rattle.std.specs.List.{All};
ghost use Rattle.std.specs.Thread.{IsSync};
ghost use Rattle.cm_gates.specs.Gates.{ComesBy};

use crate::letters::{Letter, are_letters, letters_at_rounds};
use crate::runners::{Kind, Share, run_by};
use cm_array::Machine;
use cm_model::Act;
use cm_subcube::Block;
use cm_workers::{Gate, Passage};
use std::alloc::Global;
use std::hint::spin_loop;
use std::sync::atomic::{AtomicU64, Ordering};
use std::sync::{Arc, Wait};
use std::test::Fail;
use std::thread::Threads;
use test_generators::{four_messages_each, has_one_of_four};

/// How often a worker looks whether the others have come.
const TURNS: u32 = 100_000_000;

/// What all workers noted.
#[derive(Drop)]
pub(crate) struct Notes {
    /// How often one came to a round.
    came: AtomicU64,
    /// How often another did not come in time.
    late: AtomicU64,
    /// How often another's blocks were shown, and how many chips with other messages than they should have.
    wrong: AtomicU64,
    /// How many chips were looked at.
    seen: AtomicU64,
    /// Whether worker 0 came to round 1.
    ahead: AtomicU64,
}

impl Notes {
    /// Waits until a count is as high; notes where it is not in time.
    fn wait(&self, count: &AtomicU64, wanted: u64) {
        if self.late.load(Ordering::SeqCst) > 0 {
            return;
        }
        for _turn in 0..TURNS {
            if count.load(Ordering::SeqCst) >= wanted {
                return;
            }
            spin_loop();
        }
        self.late.fetch_add(1, Ordering::SeqCst);
    }

    /// Calls of all, how often one was late, how much was shown wrong, and how many chips were looked at.
    pub(crate) fn told(&self) -> [u64; 4] {
        [
            self.came.load(Ordering::SeqCst),
            self.late.load(Ordering::SeqCst),
            self.wrong.load(Ordering::SeqCst),
            self.seen.load(Ordering::SeqCst),
        ]
    }
}

/// Who waits for whom.
#[derive(Clone, Copy)]
pub(crate) enum Waits {
    /// Each of so many workers, in each round, for all others.
    ForAll(u16),
    /// Worker 2 in round 0 until worker 0 is in round 1; these exchange nothing in round 0.
    ForOneAhead,
}

/// So many blocks of so many chips.
#[derive(Clone, Copy)]
pub(crate) struct Cut {
    pub(crate) blocks: u16,
    pub(crate) chips: u16,
}

/// Four blocks of four chips.
pub(crate) const FOUR: Cut = Cut {
    blocks: 4,
    chips: 4,
};

/// A gate of workers that wait so, where a machine is cut so.
#[derive(Drop)]
pub(crate) struct Meeting {
    pub(crate) waits: Waits,
    pub(crate) workers: u16,
    pub(crate) cut: Cut,
    pub(crate) notes: Arc<Notes, Global>,
    /// By round, what should stand at a chip; None where nobody looks at messages.
    pub(crate) letters: Option<Vec<Vec<Letter>>>,
}

impl Meeting {
    /// Notes each chip of a block, and each that has other messages than it should have before a round.
    fn look(&self, round: u32, block: &Block)
        requires gathered { IsTrue block.now.kept.gathered }
    {
        let Some(letters) = &self.letters else {
            return;
        };
        for chip in block.first()..end_of(block) {
            self.notes.seen.fetch_add(1, Ordering::SeqCst);
            if !are_letters(letters, round, chip, block.buffer(chip)) {
                self.notes.wrong.fetch_add(1, Ordering::SeqCst);
            }
        }
    }
}

impl Gate for Meeting {
    ghost admits = { λ gate worker. worker < gate.workers };

    fn admit(&self, worker: u16) -> bool {
        worker < self.workers
    }

    fn pass(&self, worker: u16, round: u32, blocks: &[Block])
        requires gathered { All (λ b. IsTrue b.kept.gathered) blocks.now }
        requires own { ComesBy worker round blocks.now }
    {
        if !are_of(worker, self.workers, self.cut, blocks) {
            self.notes.wrong.fetch_add(1, Ordering::SeqCst);
        }
        for block in blocks {
            self.look(round, block);
        }
        self.notes.came.fetch_add(1, Ordering::SeqCst);
        match self.waits {
            Waits::ForAll(workers) => {
                let rounds = u64::from(round).saturating_add(1);
                let all = u64::from(workers).saturating_mul(rounds);
                self.notes.wait(&self.notes.came, all);
            }
            Waits::ForOneAhead => match (worker, round) {
                (0, 1) => {
                    self.notes.ahead.fetch_add(1, Ordering::SeqCst);
                }
                (2, 0) => self.notes.wait(&self.notes.ahead, 1),
                _ => {}
            },
        }
    }
}

/// The number behind that of a block's last chip.
fn end_of(block: &Block) -> u16
    ensures within { result ≤ block.now.kept.part.first + block.now.kept.part.count }
{
    let end = usize::from(block.first()) + block.chips().min(4096);
    u16::try_from(end).unwrap_or(0)
}

/// Whether these are all the blocks that such a worker has, the lowest first.
fn are_of(worker: u16, workers: u16, cut: Cut, blocks: &[Block]) -> bool {
    let mut number = worker;
    for block in blocks {
        if block.first() != number.saturating_mul(cut.chips) {
            return false;
        }
        number = number.saturating_add(workers);
    }
    number >= cut.blocks
}

pub(crate) fn no_notes(alloc: Global) -> Result<Arc<Notes, Global>, Fail> {
    let notes = Notes {
        came: AtomicU64::new(0),
        late: AtomicU64::new(0),
        wrong: AtomicU64::new(0),
        seen: AtomicU64::new(0),
        ahead: AtomicU64::new(0),
    };
    Ok(Arc::new(alloc, notes)?)
}

/// Which workers meet: of which kind, who waits for whom, and how many there are.
type Met = (Kind, Waits, u16);

/// A gate of workers that wait so, in front of four blocks of four chips.
fn passage_of(
    alloc: Global,
    waits: Waits,
    workers: u16,
    notes: &Arc<Notes, Global>,
) -> Result<Passage, Fail> {
    let gate = Meeting {
        waits,
        workers,
        cut: FOUR,
        notes: Arc::try_clone(notes)?,
        letters: Some(letters_at_rounds(alloc)?),
    };
    Ok(Passage::Gated(Box::new(alloc, gate)?))
}

/// Whether workers that wait so go through the program of messages as one thread, and the messages are where they
/// should be then.
fn meet<R: Threads + Wait + Sync>(
    rt: &R,
    alloc: Global,
    met: Met,
    acts: &[Act],
    notes: &Arc<Notes, Global>,
) -> Result<bool, Fail>
    requires threads { IsSync R.row }
{
    let (kind, waits, workers) = met;
    let mut machine = Machine::<4, 7>::blank(alloc)?;
    let passage = passage_of(alloc, waits, workers, notes)?;
    let share = Share { k: 2, workers };
    let ran = run_by(rt, alloc, kind, share, passage, &mut machine, acts, 16);
    Ok(ran == Some((None, true)) && has_one_of_four(alloc, &machine))
}

/// What all noted, and whether the machine is as one thread leaves it.
fn told<R: Threads + Wait + Sync>(rt: &R, alloc: Global, met: Met) -> Result<([u64; 4], bool), Fail>
    requires threads { IsSync R.row }
{
    let acts = four_messages_each(alloc)?;
    let notes = no_notes(alloc)?;
    let is_plain = meet(rt, alloc, met, &acts, &notes)?;
    Ok((notes.told(), is_plain))
}

/// Which workers meet, and how often they come to a round.
static MEETINGS: [(Met, u64); 7] = [
    ((Kind::Forked, Waits::ForAll(2), 2), 256),
    ((Kind::Forked, Waits::ForAll(3), 3), 384),
    ((Kind::Forked, Waits::ForAll(4), 4), 512),
    ((Kind::Resident, Waits::ForAll(2), 2), 256),
    ((Kind::Resident, Waits::ForAll(3), 3), 384),
    ((Kind::Resident, Waits::ForAll(4), 4), 512),
    ((Kind::Resident, Waits::ForOneAhead, 4), 512),
];

#[test]
fn workers_meet_in_each_of_128_rounds_with_the_blocks_of_one_thread_and_may_be_a_round_apart(
    rt: HostRuntime,
) -> Result<(), Fail> {
    for row in &MEETINGS {
        let (met, came) = *row;
        assert_eq!(rt; told(&rt, rt.alloc(), met)?, ([came, 0, 0, 128 * 16], true));
    }
    Ok(())
}
