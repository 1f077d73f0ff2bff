//! What a worker does from one exchange to the next.

ghost use Rattle.std.specs.Prelude.{◌≡◌, ◌<◌, ◌≤◌, ◌-◌, ◌^◌, IsTrue, IfSome, slice_get};
ghost use Rattle.std.specs.List.{All};
ghost use Rattle.std.specs.Option.{option_copied};
ghost use Rattle.cm_blocks.specs.Steps.{absorbed};
ghost use Rattle.cm_subcube.specs.Rounds.{step_of};
ghost use Rattle.cm_subcube.specs.Parcels.{IsExchange};
ghost use Rattle.cm_workers.specs.Posts.{lane_in, blank_post};
ghost use Rattle.cm_workers.specs.Each.{AreEach};
ghost use Rattle.cm_workers.specs.Turns.{round_before, IsReadyForTurn, CanAllGo, IsReadyToSend, CanAllSend, HasCome};
ghost use Rattle.cm_workers.specs.Turns.{HasGoneOn};
ghost use Rattle.cm_gates.specs.Blocks.{AreShown};
ghost use Rattle.cm_workers.specs.Turns.{HasSentDue, HasGone};
ghost use Rattle.cm_gates.specs.Gates.{gate_round_number, ComesBy};
ghost use Rattle.cm_workers.specs.Gates.{IsWorkersTurn, ShowsIn};

use crate::post::Post;
use crate::running::Run;
use cm_gates::{Gate, Passage};
use cm_model::Act;
use cm_subcube::{Block, Kind, Round};

/// The steps of a run from one round to the next, all blocks alike.
#[derive(Clone, Copy)]
pub(crate) struct Turn<'a> {
    pub(crate) acts: &'a [Act],
    /// The number of the round at which it ends.
    pub(crate) number: usize,
    /// The round at which it begins; the first turn of a run begins with the acts.
    pub(crate) before: Option<&'a Round>,
    /// That at which it ends; the last turn ends with the acts.
    pub(crate) next: Option<&'a Round>,
}

/// Blocks, and the post of each: those of a worker, or all of a machine.
#[derive(Drop)]
pub struct Crew {
    pub blocks: Vec<Block>,
    pub posts: Vec<Post>,
}

impl Crew {
    /// Has a turn: the one of that number in a run.
    pub(crate) fn go(self, run: Run<'_>, number: usize, worker: u16) -> Crew
        requires ready { CanAllGo run.acts.now (round_before run.rounds.now number) (slice_get run.rounds.now number)
            self.blocks.items self.posts.items }
        requires own { IsWorkersTurn run.acts.now (round_before run.rounds.now number) (slice_get run.rounds.now number)
            number worker self.blocks.items self.posts.items }
        ensures value { AreEach (HasGone run.entry.acts.now (round_before run.entry.rounds.now number)
            (slice_get run.entry.rounds.now number))
            self.blocks.items self.posts.items result.blocks.items result.posts.items }
        ensures passed { (gate : _) → run.entry.passage.now ≡ Passage.Gated gate
            → ShowsIn (λ v told bs. saw (gate.vtable, gate.value) v told bs) run.entry.acts.now
            (round_before run.entry.rounds.now number)
            (slice_get run.entry.rounds.now number) number worker self.blocks.items self.posts.items }
    {
        let Crew {
            mut blocks,
            mut posts,
        } = self;
        let turn = Turn {
            acts: run.acts,
            number,
            before: before(run.rounds, number),
            next: next(run.rounds, number),
        };
        have_turn(&mut blocks, &mut posts, &turn, worker, run.passage);
        Crew { blocks, posts }
    }
}

/// The round at which a turn begins.
fn before(rounds: &[Round], number: usize) -> Option<&Round>
    ensures value { option_copied result ≡ round_before rounds.now number }
{
    if number == 0 {
        return None;
    }
    rounds.get(number - 1)
}

/// That at which it ends.
fn next(rounds: &[Round], number: usize) -> Option<&Round>
    ensures value { option_copied result ≡ slice_get rounds.now number }
{
    rounds.get(number)
}

fn have_turn(
    blocks: &mut [Block],
    posts: &mut [Post],
    turn: &Turn<'_>,
    worker: u16,
    passage: &Passage,
)
    requires ready { CanAllGo turn.now.acts.now (option_copied turn.now.before)
        (option_copied turn.now.next) blocks.old posts.old }
    requires own { IsWorkersTurn turn.now.acts.now (option_copied turn.now.before) (option_copied turn.now.next)
        turn.now.number worker blocks.old posts.old }
    ensures value { AreEach (HasGone turn.now.acts.now (option_copied turn.now.before) (option_copied turn.now.next))
        blocks.old posts.old blocks.new posts.new }
    ensures passed { (gate : _) → passage.now ≡ Passage.Gated gate
        → ShowsIn (λ v told bs. saw (gate.vtable, gate.value) v told bs) turn.now.acts.now
        (option_copied turn.now.before)
        (option_copied turn.now.next) turn.now.number worker blocks.old posts.old }
{
    go_on_all(blocks, posts, turn);
    show(blocks, turn, worker, passage);
    send_all(blocks, posts, turn.next);
}

/// Each block takes in what came for it, and goes on until the next round.
fn go_on_all(blocks: &mut [Block], posts: &mut [Post], turn: &Turn<'_>)
    requires ready { CanAllGo turn.now.acts.now (option_copied turn.now.before)
        (option_copied turn.now.next) blocks.old posts.old }
    ensures value { AreEach (HasGoneOn turn.now.acts.now (option_copied turn.now.before))
        blocks.old posts.old blocks.new posts.new }
{
    for i in 0..blocks.len() {
        go_on(&mut blocks[i], &mut posts[i], turn);
    }
}

fn go_on(block: &mut Block, post: &mut Post, turn: &Turn<'_>)
    requires ready { IsReadyForTurn turn.now.acts.now (option_copied turn.now.before)
        (option_copied turn.now.next) block.old post.old }
    ensures value { HasGoneOn turn.now.acts.now (option_copied turn.now.before) block.old post.old block.new post.new }
{
    if let Some(round) = turn.before {
        take_in(block, post, round);
    }
    block.local(turn.acts, turn.before);
}

/// Takes in what came in a round.
fn take_in(block: &mut Block, post: &mut Post, round: &Round)
    requires exchange { IsExchange block.old.kept.dims block.old.k round.now }
    requires come { HasCome block.old.kept.dims block.old.k block.old.kept.room round.now block.old.kept.part post.old }
    ensures value { block.new.kept ≡ record block.old.kept {
      part = absorbed block.old.kept.dims block.old.kept.room (step_of round.now)
          (lane_in round.now.kind post.old) block.old.kept.part;
      gathered = block.new.kept.gathered;
    } }
    ensures blocks { block.new.k ≡ block.old.k }
    ensures blank { post.new ≡ blank_post block.old.kept.dims block.old.k }
{
    match round.kind {
        Kind::Dim(_dim) => block.absorb(round, &mut post.mail),
        Kind::North | Kind::South => block.absorb(round, &mut post.edge),
    }
}

/// Shows the blocks to who looks, if a round is ahead.
fn show(blocks: &mut [Block], turn: &Turn<'_>, worker: u16, passage: &Passage)
    requires own { IfSome (option_copied turn.now.next)
        (λ _. ComesBy worker (gate_round_number turn.now.number) blocks.old) }
    ensures value { AreShown blocks.old blocks.new }
    ensures seen { (gate : _) → passage.now ≡ Passage.Gated gate
        → IfSome (option_copied turn.now.next)
        (λ _. saw (gate.vtable, gate.value) worker (gate_round_number turn.now.number) blocks.new) }
{
    let Some(_round) = turn.next else {
        return;
    };
    if let Passage::Gated(gate) = passage {
        gather_all(blocks);
        come_by(&**gate, worker, as_told(turn.number), blocks);
    }
}

/// Shows a worker's blocks to a gate.
fn come_by(gate: &dyn Gate, worker: u16, told: u32, blocks: &[Block])
    requires gathered { All (λ b. IsTrue b.kept.gathered) blocks.now }
    requires own { ComesBy worker told blocks.now }
    ensures seen { saw gate.now worker told blocks.now }
{
    gate.pass(worker, told, blocks);
}

/// The number of a round as a gate is told it: one that is too large as the largest.
fn as_told(number: usize) -> u32
    ensures value { result ≡ gate_round_number number }
{
    number.min(u32::MAX as usize) as u32
}

fn gather_all(blocks: &mut [Block])
    ensures shown { AreShown blocks.old blocks.new }
    ensures gathered { All (λ b. IsTrue b.kept.gathered) blocks.new }
{
    for i in 0..blocks.len() {
        blocks[i].gather();
    }
}

/// Each block puts what is due in a round into its post.
fn send_all(blocks: &mut [Block], posts: &mut [Post], next: Option<&Round>)
    requires ready { CanAllSend (option_copied next) blocks.old posts.old }
    ensures value { AreEach (HasSentDue (option_copied next.entry)) blocks.old posts.old blocks.new posts.new }
{
    for i in 0..blocks.len() {
        send(&mut blocks[i], &mut posts[i], next);
    }
}

fn send(block: &mut Block, post: &mut Post, next: Option<&Round>)
    requires ready { IsReadyToSend (option_copied next) block.old post.old }
    ensures value { HasSentDue (option_copied next.entry) block.old post.old block.new post.new }
{
    if let Some(round) = next {
        match round.kind {
            Kind::Dim(_dim) => block.fill(round, &mut post.mail),
            Kind::North | Kind::South => block.fill(round, &mut post.edge),
        }
    }
}
