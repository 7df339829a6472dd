//! How a core answers what the walk of a request asks.

ghost use Rattle.std.specs.Prelude.{◌≡◌, None};
ghost use Rattle.build_scheduler.specs.declared.walker.Ask.TheVariants.{Call, Want};
ghost use Rattle.build_scheduler.specs.Own.{IsOwn};
ghost use Rattle.build_scheduler.specs.Position.{ask_of};
ghost use Rattle.build_scheduler.specs.Replies.{IsReply, records_with};

use crate::claim::Claimed;
use crate::request::RequestFault;
use crate::slot::End;
use crate::{Answer, Ask, Core, Walker};
use msb_values::List;
use result_cache::{RequestKey, RunId};

/// What becomes of the walk of a request, once it is answered what it asks.
#[derive(Drop)]
pub enum Reply<W> {
    /// The run that it wants is claimed: it goes on with this answer, for which it has yet to learn
    /// records.
    GoesOn(W, Answer),
    /// The run whose body has ended in it is finished: it goes on with `Use`, and has nothing to
    /// learn, since it has made the record itself.
    UsesOwn(W),
    /// The core keeps it, until the run that it wants is finished or its calls are over.
    Waits,
    /// The request is over. Its walk is handed back, unless its caller has taken it over.
    Over(Option<W>),
    /// It can't be answered, and the build has ended: it would close a cycle of runs, or its calls
    /// pass a limit.
    Stopped,
    /// There is no memory to answer it. Its walk is handed back, and nothing has changed.
    NoMemory(W),
}

impl<W: Walker> Core<W> {
    /// Answers what the walk of a request with a node asks. (Target build order; MSBuild task.)
    pub fn answer_ask(&mut self, id: u64, walk: W, ask: Ask) -> Reply<W>
        requires running { self.old.end ≡ None }
        requires own { ∥ IsOwn (W.world_of self.old.world) self.old.history.events
            self.old.table.finished id (W.seen walk) ∥₁ }
        requires asks { ask_of (W.seen walk).position ≡ ask }
        ensures world { W.world_of self.new.world ≡ W.world_of self.old.world }
        ensures table { self.new.table.finished ≡ records_with ask self.old.table.finished }
        ensures nodes { self.new.history.nodes ≡ self.old.history.nodes }
        ensures reply { IsReply W.seen (W.world_of self.old.world) self.old.history.events
            self.new.history.events self.new.table.finished self.new.end id walk ask result }
    {
        match ask {
            Ask::Want(run) => self.answer_want(id, walk, &run),
            Ask::Call(calls) => self.answer_call(id, walk, calls),
            Ask::Finished(run, run_record) => {
                self.result(id, &run, run_record);
                Reply::UsesOwn(walk)
            }
            Ask::Done(request_result) => Reply::Over(self.end_request(id, walk, request_result)),
        }
    }

    /// Claims the run that a request wants. (MSBuild task: a target is run once.)
    fn answer_want(&mut self, id: u64, walk: W, run: &RunId) -> Reply<W>
        requires running { self.old.end ≡ None }
        requires own { ∥ IsOwn (W.world_of self.old.world) self.old.history.events
            self.old.table.finished id (W.seen walk) ∥₁ }
        requires asks { ask_of (W.seen walk).position ≡ Want run.now }
        ensures world { W.world_of self.new.world ≡ W.world_of self.old.world }
        ensures table { self.new.table.finished ≡ self.old.table.finished }
        ensures nodes { self.new.history.nodes ≡ self.old.history.nodes }
        ensures reply { IsReply W.seen (W.world_of self.old.world) self.old.history.events
            self.new.history.events self.new.table.finished self.new.end id walk (Want run.now)
            result }
    {
        match self.claim(id, walk, run) {
            Ok(Claimed::Go(walk)) => Reply::GoesOn(walk, Answer::Go),
            Ok(Claimed::Use(walk)) => Reply::GoesOn(walk, Answer::Use),
            Ok(Claimed::Wait) => Reply::Waits,
            Ok(Claimed::Circular(_, runs)) => {
                self.stop(End::Circular(runs));
                Reply::Stopped
            }
            Err(walk) => Reply::NoMemory(walk),
        }
    }

    /// Makes the calls of a request. (MSBuild task, BuildInParallel.)
    fn answer_call(&mut self, id: u64, walk: W, calls: List<RequestKey>) -> Reply<W>
        requires running { self.old.end ≡ None }
        requires own { ∥ IsOwn (W.world_of self.old.world) self.old.history.events
            self.old.table.finished id (W.seen walk) ∥₁ }
        requires asks { ask_of (W.seen walk).position ≡ Call calls }
        ensures world { W.world_of self.new.world ≡ W.world_of self.old.world }
        ensures table { self.new.table.finished ≡ self.old.table.finished }
        ensures nodes { self.new.history.nodes ≡ self.old.history.nodes }
        ensures reply { IsReply W.seen (W.world_of self.old.world) self.old.history.events
            self.new.history.events self.new.table.finished self.new.end id walk (Call calls)
            result }
    {
        match self.request(id, walk, calls) {
            Ok(()) => Reply::Waits,
            Err((walk, fault)) => match fault {
                RequestFault::TooDeep(keys) => {
                    self.stop(End::TooDeep(keys));
                    Reply::Stopped
                }
                RequestFault::TooMany(instance) => {
                    self.stop(End::TooMany(instance));
                    Reply::Stopped
                }
                RequestFault::Memory => Reply::NoMemory(walk),
            },
        }
    }
}
