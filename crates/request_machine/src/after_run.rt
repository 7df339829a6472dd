ghost use Rattle.std.specs.Prelude.{◌≡◌, IfOk};
ghost use Rattle.target_order.specs.declared.visits.Asked.TheVariants.{Body as ForBody};
ghost use Rattle.request_machine.specs.Asks.{asked_by};
ghost use Rattle.request_machine.specs.Stages.{IsReady};
ghost use Rattle.request_machine.specs.Former.{visit_before};
ghost use Rattle.request_machine.specs.OrderSteps.{FitsBody, Follows, FollowsReply};
ghost use Rattle.request_machine.specs.AfterRuns.{IsVisit, TakenOn};
ghost use Rattle.request_machine.specs.declared.stage.Stage.TheVariants.{Over};
ghost use Rattle.request_machine.specs.declared.order.NextStop.TheVariants.{Wants};
ghost use Rattle.request_machine.specs.Visited.{seen_stage};
ghost use Rattle.request_machine.specs.Walk.{after_run};
ghost use Rattle.request_machine.specs.Seen.{seen_project};

use crate::context::RequestContext;
use crate::former::{FormerVisit, VisitParts};
use crate::order::{NextStop, OrderReply};
use crate::reply::Reply;
use crate::shared::SharedList;
use crate::stage::{RequestScope, RunState, Stage};
use build_scheduler::Ask;
use msb_files::Journal;
use msb_values::{Copied, InstanceKey, Name, NoMemory};
use result_cache::{Record, Returned, RunId, RunRef};
use std::alloc::Global;
use std::mem;
use target_order::OrderWalk;

/// What follows the run of a target: the scope with its changes and what has been returned, and how
/// the order goes on.
pub struct OrderStep {
    pub state: RequestScope,
    pub order: OrderWalk,
    pub next_stop: NextStop,
}

// A drop that is written out is proved here alone.
impl Drop for OrderStep {
    fn drop(self) {
        let OrderStep {
            state: _,
            order: _,
            next_stop: _,
        } = self;
    }
}

/// A request after the run of a target: what follows, the journal and the runs then, and what it
/// asks.
#[derive(Drop)]
pub struct AfterRun {
    pub step: OrderStep,
    pub journal: Journal,
    pub runs: SharedList<RunRef>,
    pub ask: Ask,
}

impl OrderStep {
    /// What the request asks then, with the runs that it has made or used.
    pub fn ask(
        &self,
        alloc: Global,
        instance: &InstanceKey,
        runs: &SharedList<RunRef>,
    ) -> Result<Ask, NoMemory>
        ensures { IfOk result (λ ask. ask ≡ asked_by instance.now runs.now self.now.next_stop) }
    {
        match &self.next_stop {
            NextStop::Wants(target) => Ok(Ask::Want(RunId {
                instance: instance.copy()?,
                target: target.copy()?,
            })),
            NextStop::Over(reply) => Ok(Ask::Done(reply.result(alloc, runs)?)),
        }
    }

    /// Takes a request on that has visited the target, and gives the visit. This takes no memory.
    pub fn take<T>(self, stage: &mut Stage<T>) -> FormerVisit<T>
        requires visits { IsVisit stage.old }
        requires ready { IsReady self.next_stop self.order }
        ensures taken { TakenOn stage.old self stage.new }
        ensures before { visit_before stage.new result ≡ seen_stage stage.old }
    {
        let OrderStep {
            state,
            order,
            next_stop,
        } = self;
        match next_stop {
            NextStop::Wants(target) => want(stage, state, order, target),
            NextStop::Over(reply) => end_request(stage, reply),
        }
    }
}

// The request is over.
fn end_request<T>(stage: &mut Stage<T>, reply: Reply) -> FormerVisit<T>
    ensures over { stage.new ≡ Over reply }
    ensures before { visit_before stage.new result ≡ seen_stage stage.old }
{
    FormerVisit::Whole(mem::replace(stage, Stage::Over(reply)))
}

// The request wants the run of another target.
fn want<T>(
    stage: &mut Stage<T>,
    state: RequestScope,
    order: OrderWalk,
    target: Name,
) -> FormerVisit<T>
    requires visits { IsVisit stage.old }
    requires ready { order.asked ≡ ForBody }
    ensures taken { TakenOn stage.old
        (record { state = state; order = order; next_stop = Wants target }) stage.new }
    ensures before { visit_before stage.new result ≡ seen_stage stage.old }
{
    let parts = VisitParts {
        state,
        order,
        target,
        at: RunState::Wanted,
    };
    match stage {
        Stage::Visits(visit) => FormerVisit::Parts(parts.replace(visit)),
        Stage::NotBegun | Stage::Over(_) => unreachable!(),
    }
}

impl<'a> RequestContext<'a> {
    /// What follows the run of a target that was wanted here, by its record and the journal then.
    /// (Target build order; OnError element.)
    pub fn follow(
        &self,
        alloc: Global,
        order: &OrderWalk,
        name: &Name,
        run_record: &Record,
    ) -> Result<OrderStep, NoMemory>
        requires { order.now.asked ≡ ForBody }
        ensures { IfOk result
            (Follows (seen_project self.now.project) self.now.key.now self.now.state.now
            self.now.journal.now order.now name.now run_record.now) }
    {
        let state = after_run(alloc, self.state, name, run_record)?;
        let context = RequestContext {
            project: self.project,
            key: self.key,
            state: &state,
            journal: self.journal,
        };
        let mut order = order.copy()?;
        let order_reply = context.reply_run(alloc, run_record.ok, name)?;
        let next_stop = context.follow_reply(alloc, &mut order, order_reply)?;
        Ok(OrderStep {
            state,
            order,
            next_stop,
        })
    }

    // The order goes on by what came of the body that it asked for.
    fn follow_reply(
        &self,
        alloc: Global,
        order: &mut OrderWalk,
        order_reply: OrderReply,
    ) -> Result<NextStop, NoMemory>
        requires asked { order.old.asked ≡ ForBody }
        requires fits { FitsBody order_reply }
        ensures { IfOk result
            (λ next_stop. FollowsReply (seen_project self.now.project) self.now.key.now
            self.now.state.now self.now.journal.now order.old order_reply next_stop order.new) }
    {
        match order_reply {
            OrderReply::Answer(answer) => self.answer_order(alloc, order, answer),
            OrderReply::Stop(next_stop) => Ok(next_stop),
        }
    }
}

/// The scope with the changes of a run, and with what its target has returned.
fn after_run(
    alloc: Global,
    state: &RequestScope,
    name: &Name,
    run_record: &Record,
) -> Result<RequestScope, NoMemory>
    ensures { IfOk result (λ s. s ≡ after_run state.now name.now run_record.now) }
{
    let mut scope = state.scope.copy()?;
    scope.apply_all(alloc, run_record.changes.as_slice())?;
    let mut returned = state.returned.copy()?;
    let items = run_record.items.copy()?;
    returned.push(
        alloc,
        Returned {
            target: name.copy()?,
            items,
        },
    )?;
    Ok(RequestScope { scope, returned })
}
