//! What a block does by itself between two rounds.

ghost use Rattle.std.specs.Prelude.{◌≡◌, ℕ, ◌+◌, ◌-◌, ◌^◌, ◌<◌, [], ◌∷◌, false, map, Some};
ghost use Rattle.std.specs.Option.{option_copied, ForSome};
ghost use Rattle.std.specs.List.{range_with_len};
ghost use Rattle.cm_model.specs.Steps.{Instruct, Inject, Cross, Deliver, steps_of, all_steps};
ghost use Rattle.cm_blocks.specs.Counts.{deliveries, events_in};
ghost use Rattle.cm_blocks.specs.Rounds.{is_round, until_round};
ghost use Rattle.cm_blocks.specs.Steps.{part_after_all};
ghost use Rattle.cm_router.specs.Logs.{HaveLogRoom, LoseAtMost};
ghost use Rattle.cm_subcube.specs.Parcels.{IsExchange};
ghost use Rattle.cm_subcube.specs.Blocks.{CanGo, HasGone};
ghost use Rattle.cm_subcube.specs.Local.{steps_behind, local_after, is_through, IsRoundOf};

use crate::block::Block;
use crate::round::{Kind, Round};
use cm_bits::{Dir, FlagNo};
use cm_model::{Act, Nano};

impl Block {
    /// Goes by itself through the steps of a run behind a round until the next, or to the end of the run; where no
    /// round is given, from the beginning on. Which round is the next the acts tell.
    pub fn local(&mut self, acts: &[Act], after: Option<&Round>)
        requires following { ForSome (option_copied after)
            (λ round. IsRoundOf self.old.kept.dims self.old.k acts.now round) }
        requires log_room { HaveLogRoom
            (events_in self.old.kept.room (local_after self.old.kept.dims self.old.k acts.now (option_copied after)))
            self.old.kept.log_rooms }
        requires clock { self.old.kept.part.clock
            + deliveries (local_after self.old.kept.dims self.old.k acts.now (option_copied after)) < 2 ^ 63 }
        ensures value { self.new.kept.part ≡ part_after_all self.old.kept.dims self.old.kept.room
            (local_after self.old.kept.dims self.old.k acts.now (option_copied after.entry)) self.old.kept.part }
        ensures log_room { LoseAtMost
            (events_in self.old.kept.room
            (local_after self.old.kept.dims self.old.k acts.now (option_copied after.entry)))
            self.old.kept.log_rooms self.new.kept.log_rooms }

        // what stays
        ensures dims { self.new.kept.dims ≡ self.old.kept.dims }
        ensures room { self.new.kept.room ≡ self.old.kept.room }
        ensures blocks { self.new.k ≡ self.old.k }
    {
        match after {
            None => self.go(acts),
            Some(round) => self.go_behind(acts, round),
        }
    }

    /// Goes through the steps behind a round until the next.
    fn go_behind(&mut self, acts: &[Act], round: &Round)
        requires following { IsRoundOf self.old.kept.dims self.old.k acts.now round.now }
        requires room { CanGo (local_after self.old.kept.dims self.old.k acts.now (Some round.now)) self.old }
        ensures gone { HasGone (local_after self.old.kept.dims self.old.k acts.now (Some round.now)) self.old self.new }
    {
        if self.finish(round) {
            self.go(&acts[round.at + 1..]);
        }
    }

    /// Goes on behind a round to the end of its act, or until the next round; tells whether it came to the end.
    fn finish(&mut self, round: &Round) -> bool
        requires exchange { IsExchange self.old.kept.dims self.old.k round.now }
        requires room { CanGo
            (until_round self.old.kept.dims self.old.k (steps_behind self.old.kept.dims round.now.kind)) self.old }
        ensures gone { HasGone
            (until_round self.old.kept.dims self.old.k (steps_behind self.old.kept.dims round.now.kind))
            self.old self.new }
        ensures through { result
            ≡ is_through self.old.kept.dims self.old.k (steps_behind self.old.kept.dims round.now.kind) }
    {
        let Kind::Dim(dim) = round.kind else {
            return true;
        };
        let dims = self.part.dims();
        if dim + 1 < dims {
            return false;
        }
        self.deliver();
        true
    }

    /// Goes through acts until a round comes.
    fn go(&mut self, acts: &[Act])
        requires room { CanGo
            (until_round self.old.kept.dims self.old.k (all_steps self.old.kept.dims acts.now)) self.old }
        ensures gone { HasGone (until_round self.old.kept.dims self.old.k (all_steps self.old.kept.dims acts.now))
            self.old self.new }
    {
        for act in acts {
            if !self.go_through(act) {
                return;
            }
        }
    }

    /// Goes through an act, or until a round of it comes; tells whether it came to the end.
    fn go_through(&mut self, act: &Act) -> bool
        requires room { CanGo
            (until_round self.old.kept.dims self.old.k (steps_of self.old.kept.dims act.now)) self.old }
        ensures gone { HasGone (until_round self.old.kept.dims self.old.k (steps_of self.old.kept.dims act.now))
            self.old self.new }
        ensures through { result ≡ is_through self.old.kept.dims self.old.k (steps_of self.old.kept.dims act.now) }
    {
        match act {
            Act::Nano(nano) => {
                if is_exchange(self.k, nano) {
                    return false;
                }
                self.instruct(nano);
                true
            }
            Act::Sense => true,
            Act::Cycle => self.go_through_cycle(),
        }
    }

    /// Goes through a petit cycle, or until its first round comes.
    fn go_through_cycle(&mut self) -> bool
        requires room { CanGo
            (until_round self.old.kept.dims self.old.k (steps_of self.old.kept.dims Act.Cycle)) self.old }
        ensures gone { HasGone (until_round self.old.kept.dims self.old.k (steps_of self.old.kept.dims Act.Cycle))
            self.old self.new }
        ensures through { result ≡ is_through self.old.kept.dims self.old.k (steps_of self.old.kept.dims Act.Cycle) }
    {
        self.inject();
        self.cross_within();
        if self.k > 0 {
            return false;
        }
        self.deliver();
        true
    }

    /// One instruction, at which blocks do not exchange.
    fn instruct(&mut self, nano: &Nano)
        requires local { is_round self.old.kept.dims self.old.k (Instruct nano.now) ≡ false }
        ensures gone { HasGone (Instruct nano.now ∷ []) self.old self.new }
    {
        self.part.instruct(nano, &[]);
    }

    /// Its routers take messages in.
    fn inject(&mut self)
        requires room { CanGo (Inject ∷ []) self.old }
        ensures gone { HasGone (Inject ∷ []) self.old self.new }
    {
        self.part.inject();
    }

    /// Its messages cross each dimension that its own chips span.
    fn cross_within(&mut self)
        ensures gone { HasGone (map Cross (range_with_len 0 (self.old.kept.dims - self.old.k))) self.old self.new }
    {
        for dim in 0..self.part.dims() - self.k {
            self.cross(dim);
        }
    }

    /// Its messages cross one of these dimensions.
    fn cross(&mut self, dim: u8)
        requires within { dim < self.old.kept.dims - self.old.k }
        ensures gone { HasGone (Cross dim ∷ []) self.old self.new }
    {
        let span = self.part.dims() - self.k;
        self.part.cross(span, dim);
    }

    /// Messages that have arrived go to their processors.
    fn deliver(&mut self)
        requires room { CanGo (Deliver ∷ []) self.old }
        ensures gone { HasGone (Deliver ∷ []) self.old self.new }
    {
        self.part.deliver();
    }
}

/// Whether 2^`k` blocks exchange at an instruction.
fn is_exchange(k: u8, nano: &Nano) -> bool
    ensures value { (n : ℕ) → result ≡ is_round n k (Instruct nano.now) }
{
    k > 0 && nano.write == FlagNo::NEWS && matches!(nano.dir, Dir::North | Dir::South)
}
