//! A team at work, each worker in a thread of its own.

ghost use Rattle.std.specs.Prelude.{◌≡◌, ◌≢◌, ◌↔◌, ℕ, ◌<◌, ◌≤◌, IfOk, IfSome, IsOk, IsSome, OnErr, OnOk, Some};
ghost use Rattle.std.specs.Prelude.{[], get_or, length, vec_capacity};
ghost use Rattle.std.specs.List.{All};
ghost use Rattle.std.specs.Thread.{IsSync};
ghost use Rattle.cm_starts.specs.Starting.{begin, cancel, start_word_for};
ghost use Rattle.cm_turns.specs.Workers.{HasWorked, IsOfSome};
ghost use Rattle.cm_resident.specs.Gathering.{AreEmpty, HaveRoom};

use crate::admission::Admission;
use crate::held::Held;
use cm_bits::NoMemory;
use cm_gates::{NoThread, Passage};
use cm_starts::{Starter, Waiter, start_word};
use cm_subcube::Block;
use cm_turns::Worker;
use std::alloc::Global;
use std::snapshot::Snapshot;
use std::sync::Wait;
use std::thread;
use std::thread::{Promise, PromisedHandle, Scope, Threads};

/// What a worker's thread promises: if the worker began, it has done its work.
#[derive(Drop)]
pub(crate) struct WillWork {
    was: Snapshot<Held>,
}

impl Promise<Option<Vec<Block>>> for WillWork {
    ghost use Rattle.std.specs.Prelude.{IfSome};
    ghost use Rattle.cm_turns.specs.Workers.{HasWorked};

    ghost kept_by = { λ p r. IfSome r (λ blocks. HasWorked p.was.value blocks.items) };
}

/// A worker, and the word at which it waits to be let begin.
#[derive(Drop)]
pub(crate) struct PendingWorker {
    pub(crate) worker: Held,
    pub(crate) waiter: Waiter,
}

/// What a worker leaves: its blocks if it was let begin, and the word that it saw.
#[derive(Drop)]
struct WorkerExit {
    blocks: Option<Vec<Block>>,
    waiter: Waiter,
}

impl PendingWorker {
    /// Waits, and then works if it is let begin.
    fn go<R: Wait>(self, admission: Admission, rt: &R, passage: &Passage) -> WorkerExit
        requires team { IsOfSome self.worker }
        requires admitted { admission.worker ≡ self.worker.id }
        ensures told { result.waiter ≢ 0 }
        ensures begun { IsSome result.blocks ↔ (result.waiter ≡ begin) }
        ensures value { IfSome result.blocks (λ blocks. HasWorked self.worker blocks.items) }
    {
        let PendingWorker { worker, mut waiter } = self;
        let blocks = match waiter.await_release(rt) {
            Some(begun) => Some(worker.work(admission, begun, rt, passage)),
            None => None,
        };
        WorkerExit { blocks, waiter }
    }
}

/// All that a team needs before the first of its threads is started.
#[derive(Drop)]
pub(crate) struct TeamSetup {
    pub(crate) readies: Vec<PendingWorker>,
    pub(crate) starters: Vec<Starter>,
    pub(crate) handles: Vec<PromisedHandle<Option<Vec<Block>>, WillWork>>,
    pub(crate) left: Vec<Option<Vec<Block>>>,
    pub(crate) shares: Vec<Vec<Block>>,
}

/// Gives each worker of a team its start word, and makes room for what its thread leaves.
pub(crate) fn line_up(alloc: Global, team: Vec<Worker>) -> Result<TeamSetup, NoMemory>
    ensures count { IfOk result (λ all. length all.readies.items ≡ length team.items) }
    ensures starters { IfOk result (λ all. length all.starters.items ≡ length team.items) }
    ensures untold { IfOk result (λ all. All (λ word. word ≡ 0) all.starters.items) }
    ensures none { IfOk result (λ all. AreEmpty all.handles.items all.left.items all.shares.items) }
    ensures room { IfOk result (λ all. HaveRoom (length team.items)
        (vec_capacity all.handles) (vec_capacity all.left) (vec_capacity all.shares)) }
    ensures value { IfOk result (λ all. (w : ℕ) (d : _) (e : _) → w < length team.items
        → (get_or all.readies.items w d).worker ≡ get_or team.items w e) }
{
    let mut team = team;
    let count = team.len();
    let mut readies = Vec::with_capacity(alloc, count)?;
    let mut starters = Vec::with_capacity(alloc, count)?;
    for _w in 0..count {
        let worker = team.remove(0);
        let (starter, waiter) = start_word(alloc)?;
        let worker = Held::new(worker);
        readies.push_reserved(PendingWorker { worker, waiter });
        starters.push_reserved(starter);
    }
    Ok(TeamSetup {
        readies,
        starters,
        handles: Vec::with_capacity(alloc, count)?,
        left: Vec::with_capacity(alloc, count)?,
        shares: Vec::with_capacity(alloc, count)?,
    })
}

/// Starts the thread of a worker that is admitted.
fn start<'s, E, R: Wait + Sync>(
    scope: &Scope<'s, E>,
    rt: &'s R,
    passage: &'s Passage,
    ready: PendingWorker,
) -> Result<PromisedHandle<Option<Vec<Block>>, WillWork>, NoThread>
    requires team { IsOfSome ready.worker }
    ensures ok { IfOk result (λ handle. handle.promise.was.value ≡ ready.worker) }
    ensures admitted { IfOk result (λ _. (gate : _) → passage.entry.now ≡ Passage.Gated gate
        → admits (gate.vtable, gate.value) ready.worker.id) }
{
    let admission = Admission::ask(passage, ready.worker.id())?;
    let was = Snapshot::of(&ready.worker);
    let started = scope.spawn_with(
        WillWork { was },
        move || -> Option<Vec<Block>>
            requires { IsOfSome ready.worker × (admission.worker ≡ ready.worker.id) }
            ensures { IfSome result (λ blocks. HasWorked ready.worker blocks.items) }
        {
            let WorkerExit { blocks, waiter: _ } = ready.go(admission, rt, passage);
            blocks
        },
    );
    match started {
        Ok(handle) => Ok(handle),
        Err(refused) => Err(NoThread::not_started(refused)),
    }
}

/// Starts the threads of all, the worker with the lowest number first, each once it is admitted; no further one after a
/// refusal.
fn start_all<'s, E, R: Wait + Sync>(
    scope: &Scope<'s, E>,
    rt: &'s R,
    passage: &'s Passage,
    readies: Vec<PendingWorker>,
    handles: &mut Vec<PromisedHandle<Option<Vec<Block>>, WillWork>>,
) -> Result<(), NoThread>
    requires team { (w : ℕ) (d : _) → w < length readies.items → IsOfSome (get_or readies.items w d).worker }
    requires none { handles.old.items ≡ [] }
    requires room { length readies.items ≤ vec_capacity handles.old }
    ensures few { length handles.new.items ≤ length readies.items }
    ensures count { OnOk result (length handles.new.items ≡ length readies.items) }
    ensures refused { OnErr result (length handles.new.items < length readies.items) }
    ensures admitted { OnOk result ((gate : _) → passage.entry.now ≡ Passage.Gated gate
        → (w : ℕ) (d : _) → w < length readies.items
        → admits (gate.vtable, gate.value) (get_or readies.items w d).worker.id) }
    ensures value { (w : ℕ) (d : _) (e : _) → w < length handles.new.items
        → (get_or handles.new.items w d).promise.was.value ≡ (get_or readies.items w e).worker }
{
    let mut readies = readies;
    for _w in 0..readies.len() {
        let ready = readies.remove(0);
        handles.push_reserved(start(scope, rt, passage, ready)?);
    }
    Ok(())
}

/// Lets all workers begin, or tells them that nobody begins.
fn tell_all(starters: &mut Vec<Starter>, are_started: bool)
    requires untold { All (λ word. word ≡ 0) starters.old.items }
    ensures told { All (λ word. word ≡ start_word_for are_started) starters.new.items }
{
    for i in 0..starters.len() {
        if are_started {
            starters[i].release();
        } else {
            starters[i].cancel();
        }
    }
}

/// Starts the threads of all, and lets their workers begin if all were started; else it tells them that nobody begins.
fn start_team<'s, E, R: Wait + Sync>(
    scope: &Scope<'s, E>,
    rt: &'s R,
    passage: &'s Passage,
    readies: Vec<PendingWorker>,
    starters: &mut Vec<Starter>,
    handles: &mut Vec<PromisedHandle<Option<Vec<Block>>, WillWork>>,
) -> Result<(), NoThread>
    requires team { (w : ℕ) (d : _) → w < length readies.items → IsOfSome (get_or readies.items w d).worker }
    requires none { handles.old.items ≡ [] }
    requires room { length readies.items ≤ vec_capacity handles.old }
    requires untold { All (λ word. word ≡ 0) starters.old.items }
    ensures few { length handles.new.items ≤ length readies.items }
    ensures count { OnOk result (length handles.new.items ≡ length readies.items) }
    ensures begin { OnOk result (All (λ word. word ≡ begin) starters.new.items) }
    ensures cancel { OnErr result (All (λ word. word ≡ cancel) starters.new.items) }
    ensures refused { OnErr result (length handles.new.items < length readies.items) }
    ensures admitted { OnOk result ((gate : _) → passage.entry.now ≡ Passage.Gated gate
        → (w : ℕ) (d : _) → w < length readies.items
        → admits (gate.vtable, gate.value) (get_or readies.items w d).worker.id) }
    ensures value { (w : ℕ) (d : _) (e : _) → w < length handles.new.items
        → (get_or handles.new.items w d).promise.was.value ≡ (get_or readies.items w e).worker }
{
    let started = start_all(scope, rt, passage, readies, handles);
    tell_all(starters, started.is_ok());
    started
}

/// Waits for all threads, and keeps what each leaves.
fn join_all<R: Threads>(
    rt: &R,
    handles: Vec<PromisedHandle<Option<Vec<Block>>, WillWork>>,
    left: &mut Vec<Option<Vec<Block>>>,
)
    requires none { left.old.items ≡ [] }
    requires room { length handles.items ≤ vec_capacity left.old }
    ensures count { length left.new.items ≡ length handles.items }
    ensures value { (w : ℕ) (d : _) (e : _) → w < length handles.items
        → IfSome (get_or left.new.items w e)
        (λ blocks. HasWorked (get_or handles.items w d).promise.was.value blocks.items) }
{
    let mut handles = handles;
    for _w in 0..handles.len() {
        let handle = handles.remove(0);
        left.push_reserved(handle.join(rt));
    }
}

/// What all workers left; fails where one has not begun, and only there.
fn all_there<T: Drop>(left: Vec<Option<T>>, shares: Vec<T>) -> Result<Vec<T>, NoThread>
    requires none { shares.items ≡ [] }
    requires room { length left.items ≤ vec_capacity shares }
    ensures count { IfOk result (λ all. length all.items ≡ length left.items) }
    ensures value { IfOk result (λ all. (w : ℕ) (d : _) (e : _) → w < length left.items
        → get_or left.items w d ≡ Some (get_or all.items w e)) }
    ensures succeeds { All (λ one. IsSome one) left.items → IsOk result }
{
    let mut left = left;
    let mut shares = shares;
    for _w in 0..left.len() {
        match left.remove(0) {
            Some(share) => shares.push_reserved(share),
            None => return Err(NoThread::cancelled()),
        }
    }
    Ok(shares)
}

/// Starts a team, waits for all its threads, and tells what each left.
fn start_and_join<'s, E, R: Threads + Wait + Sync>(
    scope: &Scope<'s, E>,
    rt: &'s R,
    passage: &'s Passage,
    all: TeamSetup,
) -> Result<Vec<Vec<Block>>, NoThread>
    requires team { (w : ℕ) (d : _) → w < length all.readies.items → IsOfSome (get_or all.readies.items w d).worker }
    requires none { AreEmpty all.handles.items all.left.items all.shares.items }
    requires room { HaveRoom (length all.readies.items)
        (vec_capacity all.handles) (vec_capacity all.left) (vec_capacity all.shares) }
    requires untold { All (λ word. word ≡ 0) all.starters.items }
    ensures count { IfOk result (λ shares. length shares.items ≡ length all.readies.items) }
    ensures value { IfOk result (λ shares. (w : ℕ) (d : _) (e : _) → w < length all.readies.items
        → HasWorked (get_or all.readies.items w d).worker (get_or shares.items w e).items) }
    ensures admitted { IfOk result (λ _. (gate : _) → passage.entry.now ≡ Passage.Gated gate
        → (w : ℕ) (d : _) → w < length all.readies.items
        → admits (gate.vtable, gate.value) (get_or all.readies.items w d).worker.id) }
{
    let TeamSetup {
        readies,
        mut starters,
        mut handles,
        mut left,
        shares,
    } = all;
    let started = start_team(scope, rt, passage, readies, &mut starters, &mut handles);
    join_all(rt, handles, &mut left);
    started?;
    all_there(left, shares)
}

/// A team works, each worker in a thread of its own; what each leaves, by its number. Fails where a thread was not
/// admitted or not started; then no worker has begun.
pub(crate) fn work_all<R: Threads + Wait + Sync>(
    rt: &R,
    passage: &Passage,
    all: TeamSetup,
) -> Result<Vec<Vec<Block>>, NoThread>
    requires team { (w : ℕ) (d : _) → w < length all.readies.items → IsOfSome (get_or all.readies.items w d).worker }
    requires none { AreEmpty all.handles.items all.left.items all.shares.items }
    requires room { HaveRoom (length all.readies.items)
        (vec_capacity all.handles) (vec_capacity all.left) (vec_capacity all.shares) }
    requires untold { All (λ word. word ≡ 0) all.starters.items }
    ensures count { IfOk result (λ shares. length shares.items ≡ length all.readies.items) }
    ensures value { IfOk result (λ shares. (w : ℕ) (d : _) (e : _) → w < length all.readies.items
        → HasWorked (get_or all.readies.items w d).worker (get_or shares.items w e).items) }
    ensures admitted { IfOk result (λ _. (gate : _) → passage.now ≡ Passage.Gated gate
        → (w : ℕ) (d : _) → w < length all.readies.items
        → admits (gate.vtable, gate.value) (get_or all.readies.items w d).worker.id) }
{
    thread::scope(
        thread::scope_env(),
        rt,
        |scope| -> Result<Vec<Vec<Block>>, NoThread>
            requires { IsSync R.row
                × ((w : ℕ) (d : _) → w < length all.readies.items → IsOfSome (get_or all.readies.items w d).worker)
                × AreEmpty all.handles.items all.left.items all.shares.items
                × HaveRoom (length all.readies.items)
                (vec_capacity all.handles) (vec_capacity all.left) (vec_capacity all.shares)
                × All (λ word. word ≡ 0) all.starters.items }
            ensures { IfOk result (λ shares. length shares.items ≡ length all.readies.items)
                × IfOk result (λ shares. (w : ℕ) (d : _) (e : _) → w < length all.readies.items
                → HasWorked (get_or all.readies.items w d).worker (get_or shares.items w e).items)
                × IfOk result (λ _. (gate : _) → passage.entry.now ≡ Passage.Gated gate
                → (w : ℕ) (d : _) → w < length all.readies.items
                → admits (gate.vtable, gate.value) (get_or all.readies.items w d).worker.id) }
        { start_and_join(scope, rt, passage, all) },
    )
}
