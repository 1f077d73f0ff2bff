//! Workers of whom nobody has hold before they are let begin.

ghost use Rattle.std.specs.Prelude.{◌≡◌};
ghost use Rattle.cm_turns.specs.Workers.{HasWorked, IsOfSome};

use crate::admission::Admission;
use cm_gates::Passage;
use cm_starts::Released;
use cm_subcube::Block;
use cm_turns::Worker;
use std::marker::Model;
use std::sync::Wait;

/// A worker that waits. It works only if it was let begin, so one that is cancelled neither fills nor files. Contracts
/// see the worker.
#[derive(Drop)]
pub(crate) struct Held {
    worker: Worker,
}

impl Model for Held {
    ghost use Rattle.cm_turns.specs.declared.worker.Worker.{Worker};

    ghost Value = { Worker };

    ghost view = { λ held. held.worker };
}

impl Held {
    pub(crate) fn new(worker: Worker) -> Held
        ensures value { result ≡ worker }
    {
        Held { worker }
    }

    /// The number of the worker.
    pub(crate) fn id(&self) -> u16
        ensures value { result ≡ self.now.id }
    {
        self.worker.id
    }

    /// Works, as the gate admitted it and its starter let it begin.
    pub(crate) fn work<R: Wait>(
        self,
        admission: Admission,
        begun: Released,
        rt: &R,
        passage: &Passage,
    ) -> Vec<Block>
        requires team { IsOfSome self }
        requires admitted { admission.worker ≡ self.id }
        ensures value { HasWorked self result.items }
    {
        let worker = self.release(admission, begun);
        worker.work(rt, passage)
    }

    /// The worker, who was admitted and whom its starter let begin.
    fn release(self, _admission: Admission, _begun: Released) -> Worker
        requires admitted { _admission.worker ≡ self.id }
        ensures value { result ≡ self }
    {
        let Held { worker } = self;
        worker
    }
}
