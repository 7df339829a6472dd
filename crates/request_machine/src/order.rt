ghost use Rattle.std.specs.Prelude.{◌≡◌, IfOk, Result, Err};
ghost use Rattle.msb_values.specs.Caused.{UnlessMemory};
ghost use Rattle.build_world.specs.declared.fault.EvalFault.{EvalFault as TheFault};
ghost use Rattle.target_order.specs.declared.asks.OrderAnswer.{OrderAnswer as TheAnswer};
ghost use Rattle.request_machine.specs.OrderReplies.{end_by, order_reply_of, reply_by};
ghost use Rattle.request_machine.specs.Walk.{
  run_answer,
  condition_answer,
  depends_answer,
  reply_of,
};
ghost use Rattle.request_machine.specs.Seen.{seen_project};
ghost use Rattle.target_order.specs.Answers.{Fits};
ghost use Rattle.target_order.specs.Left.{left};
ghost use Rattle.request_machine.specs.NextStops.{StandsNext};

use crate::context::RequestContext;
use crate::reply::Reply;
use build_world::EvalFault;
use msb_values::{Cause, Copied, Name, NoMemory};
use std::alloc::Global;
use target_order::{OrderAnswer, OrderAsk, OrderWalk};

/// Where a request stands next.
#[derive(Drop)]
pub enum NextStop {
    /// It wants the run of this target.
    Wants(Name),
    Over(Reply),
}

/// What comes of an ask of the order.
#[derive(Drop)]
pub enum OrderReply {
    Answer(OrderAnswer),
    Stop(NextStop),
}

impl<'a> RequestContext<'a> {
    /// What comes of an ask of the order, which has failed or not. (Target build order.)
    pub fn reply_to(
        &self,
        alloc: Global,
        ask: &OrderAsk,
        has_failed: bool,
    ) -> Result<OrderReply, NoMemory>
        ensures { IfOk result
            (λ order_reply. order_reply ≡ order_reply_of (seen_project self.now.project)
            self.now.key.now self.now.state.now self.now.journal.now has_failed ask.now) }
    {
        match ask {
            OrderAsk::Condition(name) => self.reply_condition(alloc, name),
            OrderAsk::Depends(name) => self.reply_depends(alloc, name),
            OrderAsk::Body(name) => Ok(OrderReply::Stop(NextStop::Wants(name.copy()?))),
            OrderAsk::Done => Ok(OrderReply::Stop(NextStop::Over(self.end(alloc, has_failed)?))),
            OrderAsk::Circle(names) => Ok(OrderReply::Stop(NextStop::Over(Reply::circle(
                alloc, names,
            )?))),
            OrderAsk::Unknown(name) => Ok(OrderReply::Stop(NextStop::Over(Reply::unknown(
                alloc, name,
            )?))),
        }
    }

    fn reply_condition(&self, alloc: Global, name: &Name) -> Result<OrderReply, NoMemory>
        ensures { IfOk result
            (λ order_reply. order_reply
            ≡ reply_by
            (condition_answer (seen_project self.now.project) self.now.state.now
            self.now.journal.now name.now)) }
    {
        match self.condition(alloc, name) {
            Ok(holds) => Ok(OrderReply::Answer(OrderAnswer::Truth(holds))),
            Err(fault) => reply_fault(alloc, &fault),
        }
    }

    fn reply_depends(&self, alloc: Global, name: &Name) -> Result<OrderReply, NoMemory>
        ensures { IfOk result
            (λ order_reply. order_reply
            ≡ reply_by
            (depends_answer (seen_project self.now.project) self.now.state.now name.now)) }
    {
        match self.depends(alloc, name) {
            Ok(names) => Ok(OrderReply::Answer(OrderAnswer::Names(names))),
            Err(fault) => reply_fault(alloc, &fault),
        }
    }

    /// How the order is answered by the run of a target that has succeeded or failed. (OnError
    /// element.)
    pub fn reply_run(&self, alloc: Global, ok: bool, name: &Name) -> Result<OrderReply, NoMemory>
        ensures { IfOk result
            (λ order_reply. order_reply
            ≡ reply_by
            (run_answer (seen_project self.now.project) ok self.now.state.now self.now.journal.now
            name.now)) }
    {
        if ok {
            return Ok(OrderReply::Answer(OrderAnswer::Ok));
        }
        match self.on_error(alloc, name) {
            Ok(names) => Ok(OrderReply::Answer(OrderAnswer::Failed(names))),
            Err(fault) => reply_fault(alloc, &fault),
        }
    }

    // How a request ends whose targets were all visited, or whose target has failed.
    fn end(&self, alloc: Global, has_failed: bool) -> Result<Reply, NoMemory>
        ensures { IfOk result (λ reply. reply
            ≡ reply_of (seen_project self.now.project) self.now.key.now (end_by has_failed)
            self.now.state.now) }
    {
        if has_failed {
            return Ok(Reply::failure(alloc, None));
        }
        self.success(alloc)
    }
}

// A fault in a Condition or a list is the request's error.
fn reply_fault(alloc: Global, fault: &EvalFault) -> Result<OrderReply, NoMemory>
    ensures { IfOk result (λ order_reply. (given : Result TheAnswer TheFault)
        → UnlessMemory fault.now.cause (given ≡ Err fault.now) → order_reply ≡ reply_by given) }
{
    if let Cause::Memory = fault.cause {
        return Err(NoMemory);
    }
    let text = fault.to_text(alloc)?;
    Ok(OrderReply::Stop(NextStop::Over(Reply::failure(alloc, Some(text)))))
}

impl<'a> RequestContext<'a> {
    /// Answers what the order asks, until it wants the run of a target, or the request is over.
    /// (Target build order.)
    pub fn answer_order(
        &self,
        alloc: Global,
        order: &mut OrderWalk,
        first: OrderAnswer,
    ) -> Result<NextStop, NoMemory>
        requires { Fits order.old first }
        ensures { IfOk result
            (λ next_stop. StandsNext (seen_project self.now.project) self.now.key.now
            self.now.state.now self.now.journal.now (left order.old first) next_stop order.new) }
    {
        let mut answer = first;
        loop {
            let ask = order.advance(alloc, &answer)?;
            match self.reply_to(alloc, &ask, order.has_failed())? {
                OrderReply::Answer(next) => answer = next,
                OrderReply::Stop(next_stop) => return Ok(next_stop),
            }
        }
    }
}
