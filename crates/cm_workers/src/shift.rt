//! A turn of all workers at once, each in a thread of its own.

ghost use Rattle.std.specs.Prelude.{◌≡◌, ℕ, ◌-◌, ◌/◌, ◌<◌, ◌≤◌, IfOk, get_or, [], length};
ghost use Rattle.std.specs.Prelude.{slice_get, vec_len, vec_capacity};
ghost use Rattle.std.specs.Option.{option_copied};
ghost use Rattle.std.specs.Thread.{IsSync};
ghost use Rattle.cm_gates.specs.Dealing.{hand};
ghost use Rattle.cm_workers.specs.Each.{AreEach};
ghost use Rattle.cm_workers.specs.Shifts.{IsPromised, IsPromiseKept, CanHandsGo, AreWorkersTurns, HandsHaveGone};
ghost use Rattle.cm_workers.specs.Turns.{round_before, CanAllGo, HasGone};
ghost use Rattle.cm_subcube.specs.Rounds.{rounds_of};
ghost use Rattle.cm_workers.specs.Runs.{HaveBegun};
ghost use Rattle.cm_workers.specs.Gates.{IsWorkersTurn};

use crate::post::Post;
use crate::running::{CutSizes, Run};
use crate::turn::Crew;
use cm_bits::NoMemory;
use cm_gates::{NoThread, OutOf, collect, deal};
use cm_model::Act;
use cm_subcube::{Block, Round};
use std::alloc::Global;
use std::snapshot::Snapshot;
use std::sync::Wait;
use std::thread;
use std::thread::{Promise, PromisedHandle, Scope, Threads};

/// What a worker's thread promises: that its crew has had its turn.
#[derive(Drop)]
pub(crate) struct HasHad<'a> {
    acts: &'a [Act],
    rounds: &'a [Round],
    number: usize,
    was: Snapshot<Crew>,
}

impl<'a> Promise<Crew> for HasHad<'a> {
    ghost use Rattle.std.specs.Prelude.{slice_get};
    ghost use Rattle.cm_workers.specs.Each.{AreEach};
    ghost use Rattle.cm_workers.specs.Shifts.{IsPromised, IsPromiseKept, CanHandsGo, HandsHaveGone};
    ghost use Rattle.cm_workers.specs.Turns.{round_before, HasGone};

    ghost kept_by = { λ p r. AreEach
        (HasGone p.acts.now (round_before p.rounds.now p.number) (slice_get p.rounds.now p.number))
        p.was.value.blocks.items p.was.value.posts.items r.blocks.items r.posts.items };
}

/// Starts a worker.
fn start<'s, E>(
    scope: &Scope<'s, E>,
    run: Run<'s>,
    number: usize,
    crew: Crew,
    worker: u16,
) -> Result<PromisedHandle<Crew, HasHad<'s>>, NoThread>
    requires ready { CanAllGo run.acts.now (round_before run.rounds.now number) (slice_get run.rounds.now number)
        crew.blocks.items crew.posts.items }
    requires own { IsWorkersTurn run.acts.now (round_before run.rounds.now number) (slice_get run.rounds.now number)
        number worker crew.blocks.items crew.posts.items }
    ensures ok { IfOk result (λ handle.
        IsPromised run.entry.acts.now run.entry.rounds.now number crew.blocks.items crew.posts.items handle.promise) }
{
    // The closure takes the references one by one, so that its clauses can tell what they point to.
    let Run {
        acts,
        rounds,
        passage,
    } = run;
    let was = Snapshot::of(&crew);
    let started = scope.spawn_with(
        HasHad {
            acts,
            rounds,
            number,
            was,
        },
        move || -> Crew
            requires { CanAllGo acts.now (round_before rounds.now number) (slice_get rounds.now number)
                crew.blocks.items crew.posts.items
                × IsWorkersTurn acts.now (round_before rounds.now number) (slice_get rounds.now number)
                number worker crew.blocks.items crew.posts.items }
            ensures { AreEach (HasGone acts.entry.now (round_before rounds.entry.now number)
                (slice_get rounds.entry.now number))
                crew.blocks.items crew.posts.items result.blocks.items result.posts.items }
        {
            let run = Run {
                acts,
                rounds,
                passage,
            };
            crew.go(run, number, worker)
        },
    );
    match started {
        Ok(handle) => Ok(handle),
        Err(refused) => Err(NoThread::not_started(refused)),
    }
}

/// The blocks of each worker, and their posts, by the worker's number.
#[derive(Drop)]
pub(crate) struct Hands {
    pub(crate) blocks: Vec<Vec<Block>>,
    pub(crate) posts: Vec<Vec<Post>>,
}

/// Starts all workers, the one with the lowest number first; none is started after a refusal. There is room for their
/// threads.
fn start_all<'s, E>(
    scope: &Scope<'s, E>,
    run: Run<'s>,
    number: usize,
    mut hands: Hands,
    mut handles: Vec<PromisedHandle<Crew, HasHad<'s>>>,
) -> Result<Vec<PromisedHandle<Crew, HasHad<'s>>>, NoThread>
    requires ready { CanHandsGo run.acts.now (round_before run.rounds.now number) (slice_get run.rounds.now number)
        hands.blocks.items hands.posts.items }
    requires own { AreWorkersTurns run.acts.now (round_before run.rounds.now number) (slice_get run.rounds.now number)
        number hands.blocks.items hands.posts.items }
    requires few { length hands.blocks.items ≤ 64 }
    requires none { handles.items ≡ [] }
    requires room { length hands.blocks.items ≤ vec_capacity handles }
    ensures count { IfOk result (λ handles. length handles.items ≡ length hands.blocks.items) }
    ensures promised { IfOk result (λ handles. (w : ℕ) (d : _) (e f : _) → w < length hands.blocks.items
        → IsPromised run.entry.acts.now run.entry.rounds.now number
        (hand hands.blocks.items e w) (hand hands.posts.items f w) (get_or handles.items w d).promise) }
{
    let count = hands.blocks.len();
    for w in 0..count {
        let crew = Crew {
            blocks: hands.blocks.remove(0),
            posts: hands.posts.remove(0),
        };
        handles.push_reserved(start(scope, run, number, crew, w as u16)?);
    }
    Ok(handles)
}

/// Waits for all workers, and gives back what they had. There is room for it.
fn join_all<'s, R: Threads>(
    rt: &R,
    handles: Vec<PromisedHandle<Crew, HasHad<'s>>>,
    blocks: Vec<Vec<Block>>,
    posts: Vec<Vec<Post>>,
) -> Hands
    requires no_blocks { blocks.items ≡ [] }
    requires no_posts { posts.items ≡ [] }
    requires block_room { vec_len handles ≤ vec_capacity blocks }
    requires post_room { vec_len handles ≤ vec_capacity posts }
    ensures count_blocks { length result.blocks.items ≡ length handles.entry.items }
    ensures count_posts { length result.posts.items ≡ length handles.entry.items }
    ensures kept { (w : ℕ) (d : _) (e f : _) → w < length handles.entry.items
        → IsPromiseKept (get_or handles.entry.items w d).promise
        (hand result.blocks.items e w) (hand result.posts.items f w) }
{
    let mut blocks = blocks;
    let mut posts = posts;
    for handle in handles {
        let crew = handle.join(rt);
        blocks.push_reserved(crew.blocks);
        posts.push_reserved(crew.posts);
    }
    Hands { blocks, posts }
}

/// Makes room for the threads of all workers and for what they give back, starts them, and waits for them.
fn start_and_join<'s, E, R: Threads>(
    scope: &Scope<'s, E>,
    rt: &R,
    alloc: Global,
    run: Run<'s>,
    number: usize,
    hands: Hands,
) -> Result<Hands, OutOf>
    requires ready { CanHandsGo run.acts.now (round_before run.rounds.now number) (slice_get run.rounds.now number)
        hands.blocks.items hands.posts.items }
    requires own { AreWorkersTurns run.acts.now (round_before run.rounds.now number) (slice_get run.rounds.now number)
        number hands.blocks.items hands.posts.items }
    requires few { length hands.blocks.items ≤ 64 }
    ensures value { IfOk result
        (λ now. HandsHaveGone run.entry.acts.now (round_before run.entry.rounds.now number)
        (slice_get run.entry.rounds.now number) hands.blocks.items hands.posts.items now.blocks.items now.posts.items) }
{
    let count = hands.blocks.len();
    let places = room_for(alloc, count)?;
    let blocks = room_for(alloc, count)?;
    let posts = room_for(alloc, count)?;
    let handles = start_all(scope, run, number, hands, places)?;
    Ok(join_all(rt, handles, blocks, posts))
}

/// All workers have a turn, each in a thread of its own.
fn turn_hands<R: Threads + Wait>(
    rt: &R,
    alloc: Global,
    run: Run<'_>,
    number: usize,
    hands: Hands,
) -> Result<Hands, OutOf>
    requires ready { CanHandsGo run.acts.now (round_before run.rounds.now number) (slice_get run.rounds.now number)
        hands.blocks.items hands.posts.items }
    requires own { AreWorkersTurns run.acts.now (round_before run.rounds.now number) (slice_get run.rounds.now number)
        number hands.blocks.items hands.posts.items }
    requires few { length hands.blocks.items ≤ 64 }
    ensures value { IfOk result
        (λ now. HandsHaveGone run.entry.acts.now (round_before run.entry.rounds.now number)
        (slice_get run.entry.rounds.now number) hands.blocks.items hands.posts.items now.blocks.items now.posts.items) }
{
    // As in `start`, the closure takes the references one by one.
    let Run {
        acts,
        rounds,
        passage,
    } = run;
    thread::scope(
        thread::scope_env(),
        rt,
        |scope| -> Result<Hands, OutOf>
            requires { CanHandsGo acts.now (round_before rounds.now number) (slice_get rounds.now number)
                hands.blocks.items hands.posts.items
                × AreWorkersTurns acts.now (round_before rounds.now number) (slice_get rounds.now number)
                number hands.blocks.items hands.posts.items × (length hands.blocks.items ≤ 64) }
            ensures { IfOk result (λ now. HandsHaveGone acts.entry.now (round_before rounds.entry.now number)
                (slice_get rounds.entry.now number)
                hands.blocks.items hands.posts.items now.blocks.items now.posts.items) }
        {
            let run = Run {
                acts,
                rounds,
                passage,
            };
            start_and_join(scope, rt, alloc, run, number, hands)
        },
    )
}

/// All blocks have a turn, shared out among so many workers, each in a thread of its own: worker w has blocks w,
/// w + `workers`, and so on.
pub(crate) fn shift<R: Threads + Wait>(
    rt: &R,
    alloc: Global,
    sizes: CutSizes,
    run: Run<'_>,
    number: usize,
    all: Crew,
) -> Result<Crew, OutOf>
    requires within { sizes.k ≤ sizes.dims - sizes.dims / 2 }
    requires some { 0 < sizes.workers }
    requires few { sizes.workers ≤ 64 }
    requires rounds { run.rounds.now ≡ rounds_of sizes.dims sizes.k run.acts.now }
    requires number { number ≤ length run.rounds.now }
    requires begun { HaveBegun sizes.dims sizes.k run.acts.now number all.blocks.items all.posts.items }
    requires ready { CanAllGo run.acts.now (round_before run.rounds.now number) (slice_get run.rounds.now number)
        all.blocks.items all.posts.items }
    ensures value { IfOk result
        (λ now. AreEach (HasGone run.entry.acts.now (round_before run.entry.rounds.now number)
        (slice_get run.entry.rounds.now number)) all.blocks.items all.posts.items now.blocks.items now.posts.items) }
{
    let count = usize::from(sizes.workers);
    let many = all.blocks.len();
    let blocks = deal(alloc, all.blocks, count)?;
    let posts = deal(alloc, all.posts, count)?;
    let hands = turn_hands(rt, alloc, run, number, Hands { blocks, posts })?;
    let blocks = collect(alloc, hands.blocks, many)?;
    let posts = collect(alloc, hands.posts, many)?;
    Ok(Crew { blocks, posts })
}

/// Room for so many things.
fn room_for<T: Drop>(alloc: Global, count: usize) -> Result<Vec<T>, NoMemory>
    ensures none { IfOk result (λ things. things.items ≡ []) }
    ensures len { IfOk result (λ things. vec_len things ≡ 0) }
    ensures room { IfOk result (λ things. count ≤ vec_capacity things) }
{
    Ok(Vec::with_capacity(alloc, count)?)
}
