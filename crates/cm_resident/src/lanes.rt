//! The lanes of a team.

ghost use Rattle.std.specs.Prelude.{◌≡◌, ℕ, ◌+◌, ◌-◌, ◌/◌, ◌<◌, ◌≤◌, ◌^◌, IfOk, length};
ghost use Rattle.cm_subcube.specs.Rounds.{rounds_of};
ghost use Rattle.cm_turns.specs.Lanes.{Run, kind_of_index, ends_each, course, dues, own, givers};
ghost use Rattle.cm_resident.specs.Teams.{AreAtPlace, AreByPlace};

use cm_array::{MachineOf, Sizes};
use cm_bits::NoMemory;
use cm_board::{FromEnd, Lane, Plan, ToEnd};
use cm_gates::hand_over;
use cm_model::Act;
use cm_subcube::{Kind, Parcel};
use cm_turns::ends_each;
use std::alloc::Global;

/// What a block sends over one of its lanes when a machine goes through acts.
#[derive(Drop)]
pub(crate) struct Sent<'a, S: Sizes> {
    machine: &'a MachineOf<S>,
    acts: &'a [Act],
    k: u8,
    block: u16,
    place: usize,
}

impl<'a, S: Sizes> Plan<Parcel> for Sent<'a, S> {
    ghost due = { λ p. dues
        (record { n = S.n; k = p.k; room = S.cap; machine = p.machine.now.machine; acts = p.acts.now })
        p.block p.place };
}

impl<'a, S: Sizes> Sent<'a, S> {
    /// The ends of the lane that carries it; rounds of this kind go over lanes of its place.
    fn open_lane(
        self,
        alloc: Global,
        kind: Kind,
    ) -> Result<(FromEnd<Parcel>, ToEnd<Parcel>), NoMemory>
        requires within { self.k ≤ S.n - S.n / 2 }
        requires few { length (rounds_of S.n self.k self.acts.now) ≤ 4416 }
        requires kind { kind ≡ kind_of_index S.n self.k self.place }
        ensures from { let run : Run = record {
          n = S.n;
          k = self.entry.k;
          room = S.cap;
          machine = self.entry.machine.now.machine;
          acts = self.entry.acts.now;
        } in IfOk result (λ ends. ends.0 ≡ course run self.entry.block self.entry.place 0) }
        ensures to { let run : Run = record {
          n = S.n;
          k = self.entry.k;
          room = S.cap;
          machine = self.entry.machine.now.machine;
          acts = self.entry.acts.now;
        } in IfOk result (λ ends. ends.1 ≡ course run self.entry.block self.entry.place 0) }
    {
        let blank = Parcel::blank(alloc, self.machine.dims(), self.k, kind)?;
        Lane::open(alloc, blank, self)
    }
}

/// The kind of rounds that go over the lanes of a place.
fn kind_at(dims: u8, k: u8, place: usize) -> Kind
    requires dimension { dims ≤ 12 }
    requires within { k ≤ dims }
    requires place { place < k + 2 }
    ensures value { result ≡ kind_of_index dims k place }
{
    match place {
        0 => Kind::North,
        1 => Kind::South,
        _ => Kind::Dim(dims - k + (place - 2) as u8),
    }
}

/// The ends of all lanes of a run by place, and at each place by block: those over which the blocks send, and those
/// over which they get.
#[derive(Drop)]
pub(crate) struct Ends {
    pub(crate) sends: Vec<Vec<FromEnd<Parcel>>>,
    pub(crate) gets: Vec<Vec<ToEnd<Parcel>>>,
}

pub(crate) fn open_all<S: Sizes>(
    alloc: Global,
    machine: &MachineOf<S>,
    acts: &[Act],
    k: u8,
) -> Result<Ends, NoMemory>
    requires within { k ≤ S.n - S.n / 2 }
    requires few { length (rounds_of S.n k acts.now) ≤ 4416 }
    ensures sends { IfOk result (λ ends. AreByPlace
        (record { n = S.n; k = k; room = S.cap; machine = machine.now.machine; acts = acts.now })
        own 0 (ends_each k) ends.sends.items) }
    ensures gets { IfOk result (λ ends. AreByPlace
        (record { n = S.n; k = k; room = S.cap; machine = machine.now.machine; acts = acts.now })
        givers 0 (ends_each k) ends.gets.items) }
{
    let each = ends_each(k);
    let mut sends = Vec::with_capacity(alloc, each)?;
    let mut gets = Vec::with_capacity(alloc, each)?;
    for place in 0..each {
        let (froms, tos) = open_place(alloc, machine, acts, k, place)?;
        sends.push_reserved(froms);
        gets.push_reserved(tos);
    }
    Ok(Ends { sends, gets })
}

/// The ends of the lanes at a place: those over which the blocks send, and those over which they get.
fn open_place<S: Sizes>(
    alloc: Global,
    machine: &MachineOf<S>,
    acts: &[Act],
    k: u8,
    place: usize,
) -> Result<(Vec<FromEnd<Parcel>>, Vec<ToEnd<Parcel>>), NoMemory>
    requires within { k ≤ S.n - S.n / 2 }
    requires few { length (rounds_of S.n k acts.now) ≤ 4416 }
    requires place { place < k + 2 }
    ensures sends { IfOk result (λ ends. AreAtPlace
        (record { n = S.n; k = k; room = S.cap; machine = machine.now.machine; acts = acts.now })
        own 0 place ends.0) }
    ensures gets { IfOk result (λ ends. AreAtPlace
        (record { n = S.n; k = k; room = S.cap; machine = machine.now.machine; acts = acts.now })
        givers 0 place ends.1) }
{
    let dims = machine.dims();
    let kind = kind_at(dims, k, place);
    let count = power_of_two(k);
    let mut froms = Vec::with_capacity(alloc, usize::from(count))?;
    let mut tos = Vec::with_capacity(alloc, usize::from(count))?;
    for block in 0..count {
        let sent = Sent {
            machine,
            acts,
            k,
            block,
            place,
        };
        let (from, to) = sent.open_lane(alloc, kind)?;
        froms.push_reserved(from);
        tos.push_reserved(to);
    }
    hand_over(&mut tos, dims, k, kind);
    Ok((froms, tos))
}

pub(crate) fn power_of_two(exponent: u8) -> u16
    requires small { exponent ≤ 12 }
    ensures value { result ≡ 2 ^ exponent }
{
    1 << exponent
}
