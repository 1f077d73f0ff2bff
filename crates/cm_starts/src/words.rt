//! A start word, and its two ends.

ghost use Rattle.std.specs.Prelude.{◌≡◌, ◌≢◌, ◌↔◌, ◌≤◌, [], IfOk, IsSome};
ghost use Rattle.cm_starts.specs.Starting.{starter_alone, starter, waiter, looked, has_told, begin, cancel};

use atomic_table::{Play, Seat, Split, Table, TableRule};
use cm_bits::NoMemory;
use std::alloc::Global;
use std::marker::Model;
use std::sync::{Arc, Wait};
use std::thread::yield_now;

/// How often a worker looks before it parks: about as long as threads take to be started. One that was parked may be
/// woken where another runs, and then waits for its end.
const LOOKS: u32 = 1000;

/// The word of who is to begin, and of who is not.
const BEGIN: u64 = 1;

const CANCEL: u64 = 2;

/// Whose seat it is.
pub enum Place {
    /// That of both, before they are dealt.
    Alone,
    Starts,
    Waits,
}

/// What a seat knows. No value of it is made.
pub struct Sight {
    pub place: Place,
    /// The word that the starter told, or that the worker saw last.
    pub word: u64,
}

/// The rule that every step keeps: the word is what the starter told, and a worker that saw another than 0 saw it.
pub struct StartRule;

impl TableRule<u8, Sight, u8> for StartRule {
    ghost use Rattle.cm_starts.specs.Starting.{StartRule, starter_alone};

    ghost holds = { λ _. StartRule };

    ghost first = { λ _. starter_alone };
}

type StartTable = Table<u8, Sight, u8, StartRule, Global>;

type StartSeat = Seat<u8, Sight>;

/// The seat that stands alone becomes the starter's, and a new one is the worker's.
pub struct Deal;

impl Split<Sight> for Deal {
    ghost left = { λ _. starter 0 };

    ghost right = { λ _. waiter 0 };
}

/// The worker looks.
pub struct Look;

impl Play<u8, Sight> for Look {
    ghost then = { λ _. looked };
}

/// The starter tells the worker to begin, or not to.
pub struct Tell;

impl Play<u8, Sight> for Tell {
    ghost then = { λ step. has_told step.second };
}

/// Who tells a worker whether it may begin. Contracts see the word that it told, 0 before it tells one.
#[derive(Drop)]
pub struct Starter {
    table: Arc<StartTable, Global>,
    seat: StartSeat,
}

impl Model for Starter {
    ghost use Rattle.std.specs.Prelude.{ℕ};

    ghost Value = { ℕ };

    ghost view = { λ end. end.seat.me.0.word };

    ghost use Rattle.std.specs.Prelude.{◌≡◌, []};
    ghost use Rattle.std.specs.Arc.{arc_value};
    ghost use Rattle.cm_starts.specs.Starting.{starter};

    ghost invariant = { λ end. (end.seat.table_id ≡ (arc_value end.table).shared.table_id)
        × (end.seat.table_id.words ≡ 1) × (end.seat.me ≡ (starter end.seat.me.0.word, [])) };
}

/// A worker that waits to be told. Contracts see the word that it saw last, 0 before it saw any.
#[derive(Drop)]
pub struct Waiter {
    table: Arc<StartTable, Global>,
    seat: StartSeat,
}

impl Model for Waiter {
    ghost use Rattle.std.specs.Prelude.{ℕ};

    ghost Value = { ℕ };

    ghost view = { λ end. end.seat.me.0.word };

    ghost use Rattle.std.specs.Prelude.{◌≡◌, []};
    ghost use Rattle.std.specs.Arc.{arc_value};
    ghost use Rattle.cm_starts.specs.Starting.{waiter};

    ghost invariant = { λ end. (end.seat.table_id ≡ (arc_value end.table).shared.table_id)
        × (end.seat.table_id.words ≡ 1) × (end.seat.me ≡ (waiter end.seat.me.0.word, [])) };
}

/// What lets a worker begin: the word of its starter, as the worker saw it. Nobody makes one but who saw that word.
#[derive(Drop)]
pub struct Released {
    word: u64,
    ghost begins: { word ≡ begin },
}

impl Released {
    /// What a word lets one do.
    fn by(word: u64) -> Option<Released>
        ensures value { IsSome result ↔ (word ≡ begin) }
    {
        if word == BEGIN {
            Some(Released { word })
        } else {
            None
        }
    }
}

/// The two ends of a start word, of which neither has told or seen one.
pub fn start_word(alloc: Global) -> Result<(Starter, Waiter), NoMemory>
    ensures starter { IfOk result (λ ends. ends.0 ≡ 0) }
    ensures waiter { IfOk result (λ ends. ends.1 ≡ 0) }
{
    let (table, mut seat) = StartTable::of_words(alloc, &[0], &0)?;
    let other = table.shared.split_seat::<Deal>(&mut seat);
    let Ok(table) = Arc::new(alloc, table) else {
        return Err(NoMemory);
    };
    let Ok(same) = Arc::try_clone(&table) else {
        return Err(NoMemory);
    };
    Ok((
        Starter { table, seat },
        Waiter {
            table: same,
            seat: other,
        },
    ))
}

impl Starter {
    /// Lets the worker begin.
    pub fn release(&mut self)
        requires new { self.old ≡ 0 }
        ensures told { self.new ≡ begin }
    {
        self.tell(BEGIN);
    }

    /// Tells the worker that nobody begins.
    pub fn cancel(&mut self)
        requires new { self.old ≡ 0 }
        ensures told { self.new ≡ cancel }
    {
        self.tell(CANCEL);
    }

    fn tell(&mut self, word: u64)
        requires new { self.old ≡ 0 }
        requires word { word ≤ 2 }
        ensures told { self.new ≡ word }
    {
        put(&self.table, &mut self.seat, word).wake();
    }
}

/// A start word that was put, for which nobody was woken yet. It may not be let go: `wake` alone takes it. So no
/// starter can forget its worker, or wake it before there is anything to see.
struct Unwoken<'a> {
    table: &'a StartTable,
    ghost one: { table.now.shared.table_id.words ≡ 1 },
}

impl<'a> Unwoken<'a> {
    /// Wakes the worker, if it is parked.
    fn wake(self) {
        let Unwoken { table } = self;
        table.shared.wake_one(0);
    }
}

/// Puts the word that a starter tells.
fn put<'a>(table: &'a StartTable, seat: &mut StartSeat, word: u64) -> Unwoken<'a>
    requires table { seat.old.table_id ≡ table.now.shared.table_id }
    requires words { seat.old.table_id.words ≡ 1 }
    requires new { seat.old.me ≡ (starter 0, []) }
    requires word { word ≤ 2 }
    ensures table { seat.new.table_id ≡ seat.old.table_id }
    ensures has_told { seat.new.me ≡ (starter word, []) }
{
    table.shared.compare_exchange::<Tell>(seat, 0, 0, word);
    Unwoken { table }
}

impl Waiter {
    /// Waits until it is told, and has what lets it begin if it may.
    pub fn await_release<R: Wait>(&mut self, rt: &R) -> Option<Released>
        ensures told { self.new ≢ 0 }
        ensures value { IsSome result ↔ (self.new ≡ begin) }
    {
        self.await_word();
        for _look in rt.forever() {
            let found = self.look();
            if found != 0 {
                return Released::by(found);
            }
            self.table.shared.park(rt, 0, 0);
        }
        unreachable!()
    }

    /// Looks until it is told, but so many times at most, and lets other threads run between two looks.
    fn await_word(&self) {
        for _look in 0..LOOKS {
            if self.table.shared.peek(0) != 0 {
                return;
            }
            yield_now();
        }
    }

    fn look(&mut self) -> u64
        ensures seen { self.new ≡ result }
    {
        self.table.shared.load::<Look>(&mut self.seat, 0)
    }
}
