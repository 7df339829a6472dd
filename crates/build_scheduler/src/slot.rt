use crate::{Answer, Walker};
use msb_values::{InstanceKey, List};
use result_cache::{RequestKey, RequestResult, RunId, Table};

/// Whose request it is. This never changes.
pub struct Origin {
    pub key: RequestKey,
    /// The request that calls it; the root has none.
    pub parent: Option<u64>,
    /// How many requests call each other down to it.
    pub depth: usize,
}

// A drop that is written out is proved here alone.
impl Drop for Origin {
    fn drop(self) {
        let Origin {
            key: _,
            parent: _,
            depth: _,
        } = self;
    }
}

/// What a core holds of a request.
pub enum Slot<W> {
    /// It may go to a node: its walk, with its next answer.
    Ready(W, Answer),
    /// The node of this number has it, and its walk.
    Assigned(u32),
    /// It waits for the run that this request has begun.
    Waiting(W, u64),
    /// Some of its calls are open.
    Calling(Calls<W>),
    /// It is over.
    Done,
}

// A drop that is written out is proved here alone.
impl<W: Drop> Drop for Slot<W> {
    fn drop(self) {
        match self {
            Slot::Ready(_, _) => {}
            Slot::Assigned(_) => {}
            Slot::Waiting(_, _) => {}
            Slot::Calling(_) => {}
            Slot::Done => {}
        }
    }
}

impl<W> Slot<W> {
    ghost use Rattle.std.specs.Prelude.{◌≡◌, Some};
    ghost use Rattle.build_scheduler.specs.Shown.{is_ready};

    pub fn is_ready(&self) -> bool
        ensures { result ≡ is_ready (Some self.now) }
    {
        matches!(self, Slot::Ready(..))
    }
}

impl<W: Drop> Slot<W> {
    ghost use Rattle.std.specs.Prelude.{◌≡◌, Some, true};
    ghost use Rattle.build_scheduler.specs.declared.slot.Slot.TheVariants.{
      Assigned,
      Calling,
      Ready,
      Waiting,
    };
    ghost use Rattle.build_scheduler.specs.Calls.{IsCalling};
    ghost use Rattle.build_scheduler.specs.Shown.{IsWaiting, is_ready};
    ghost use Rattle.build_scheduler.specs.Slots.{IsWithNode};

    /// The node that has the request.
    pub(crate) fn node(&self) -> u32
        requires { IsWithNode (Some self.now) }
        ensures { self.now ≡ Assigned result }
    {
        match self {
            Slot::Assigned(node) => *node,
            _ => unreachable!(),
        }
    }

    /// The walk of a request that is ready, and its answer.
    pub(crate) fn into_ready(self) -> (W, Answer)
        requires { is_ready (Some self) ≡ true }
        ensures { self ≡ Ready result.0 result.1 }
    {
        match self {
            Slot::Ready(walk, answer) => (walk, answer),
            _ => unreachable!(),
        }
    }

    /// The walk of a request that waits, and the request that it waits for.
    pub(crate) fn into_waiting(self) -> (W, u64)
        requires { IsWaiting (Some self) }
        ensures { self ≡ Waiting result.0 result.1 }
    {
        match self {
            Slot::Waiting(walk, by) => (walk, by),
            _ => unreachable!(),
        }
    }

    /// The calls of a request of which some are open.
    pub(crate) fn into_calls(self) -> Calls<W>
        requires { IsCalling (Some self) }
        ensures { self ≡ Calling result }
    {
        match self {
            Slot::Calling(calls) => calls,
            _ => unreachable!(),
        }
    }
}

/// The calls of a request, while some of them are open.
pub struct Calls<W> {
    pub walk: W,
    /// The number of the first child. The others follow it in call order.
    pub first: u64,
    /// How many children are not done.
    pub open: usize,
    /// The results, in call order; an empty one for each child that is not done.
    pub results: Vec<RequestResult>,
}

// A drop that is written out is proved here alone.
impl<W: Drop> Drop for Calls<W> {
    fn drop(self) {
        let Calls {
            walk: _,
            first: _,
            open: _,
            results: _,
        } = self;
    }
}

impl<W: Drop> Calls<W> {
    ghost use Rattle.std.specs.Prelude.{◌-◌, ◌<◌, ◌≤◌, length};
    ghost use Rattle.build_scheduler.specs.Calls.{IsTold};

    /// The slot of the caller after one of its calls has given its result.
    pub(crate) fn tell(self, id: u64, request_result: RequestResult) -> Slot<W>
        requires first { self.first ≤ id }
        requires place { id - self.first < length self.results.items }
        requires some { 0 < self.«open» }
        ensures { IsTold self (id - self.first) request_result result }
    {
        let Calls {
            walk,
            first,
            open,
            mut results,
        } = self;
        results[(id - first) as usize] = request_result;
        if open == 1 {
            Slot::Ready(walk, Answer::Results(List::from(results)))
        } else {
            Slot::Calling(Calls {
                walk,
                first,
                open: open - 1,
                results,
            })
        }
    }
}

impl<W: Walker> Calls<W> {
    ghost use Rattle.std.specs.Prelude.{◌≡◌, Some};
    ghost use Rattle.result_cache.specs.Replay.{replay_all};
    ghost use Rattle.build_scheduler.specs.declared.slot.Slot.TheVariants.{Calling};
    ghost use Rattle.build_scheduler.specs.Calls.{HasTaken};
    ghost use Rattle.build_scheduler.specs.HandedBack.{IsLeft};
    ghost use Rattle.build_scheduler.specs.Learnt.{AreInOrder, ArePartOf};

    /// Lets the caller take over the journal of a call that is over, where it is the first one: so
    /// it need not replay the runs of the first result. Else the walk is handed back.
    pub(crate) fn take_journal(&mut self, id: u64, call: W, table: &Table) -> Option<W>
        requires in_order { AreInOrder table.now.finished }
        requires known { ArePartOf (W.seen self.old.walk).learnt table.now.finished }
        requires replays { replay_all table.now.finished (W.seen call).position.runs
            (W.seen self.old.walk).position.journal ≡ Some (W.seen call).position.journal }
        ensures taken { HasTaken W.seen table.now.finished self.old self.new }
        ensures left { IsLeft (Some (Calling self.old)) id call result }
    {
        if id == self.first {
            self.walk.take_journal(call, table);
            None
        } else {
            Some(call)
        }
    }
}

/// How a build ends.
pub enum End {
    /// The root is done, with this result.
    Root(RequestResult),
    /// A claim closes this cycle of runs.
    Circular(List<RunId>),
    /// A call is nested too deep: the requests from the root to the one that calls, and the first
    /// of its call.
    TooDeep(List<RequestKey>),
    /// A call asks for one instance too many.
    TooMany(InstanceKey),
    NoMemory,
}

// A drop that is written out is proved here alone.
impl Drop for End {
    fn drop(self) {
        match self {
            End::Root(_) => {}
            End::Circular(_) => {}
            End::TooDeep(_) => {}
            End::TooMany(_) => {}
            End::NoMemory => {}
        }
    }
}
