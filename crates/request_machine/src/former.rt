//! What the last answer of a request has replaced, by which the answer is taken back.

ghost use Rattle.std.specs.Prelude.{◌≡◌, ◌==◌, not, option_map};
ghost use Rattle.target_order.specs.declared.visits.Asked.TheVariants.{Body as ForBody};
ghost use Rattle.request_machine.specs.Stages.{has_begun};
ghost use Rattle.request_machine.specs.Former.{
  IsBefore,
  IsFormer,
  IsVisitOf,
  body_before,
  position_before,
  visit_before,
  had_begun,
  with_at,
  with_parts,
};
ghost use Rattle.request_machine.specs.Runs.{run_in};
ghost use Rattle.request_machine.specs.AfterRuns.{IsVisit};
ghost use Rattle.request_machine.specs.Visited.{seen_stage, seen_visit};
ghost use Rattle.request_machine.specs.Walk.{run_of};
ghost use Rattle.request_machine.specs.WalkPosition.{request_position};
ghost use Rattle.msb_values.specs.declared.key.InstanceKey.{InstanceKey};

use crate::request::Request;
use crate::shared::SharedList;
use crate::stage::{RequestScope, RunState, Stage, Visit};
use msb_files::Journal;
use msb_values::Name;
use result_cache::RunRef;
use std::mem;
use target_order::OrderWalk;
use task_trait::CountedTools;

/// What the last answer of a request has replaced.
pub enum Former<T> {
    /// Nothing had been answered before.
    NotBegun,
    /// The body of its run stood here, by this journal.
    Body(RunState<T>, Journal),
    /// It visited another target, by this journal and with these runs.
    Visit(FormerVisit<T>, Journal, SharedList<RunRef>),
}

// A drop that is written out is proved here alone.
impl<T> Drop for Former<T> {
    fn drop(self) {
        match self {
            Former::NotBegun => {}
            Former::Body(_, _) => {}
            Former::Visit(_, _, _) => {}
        }
    }
}

/// The visit of a target, whose run is over.
pub enum FormerVisit<T> {
    /// All of it, where the request is over.
    Whole(Stage<T>),
    /// What the visit of the next target has replaced.
    Parts(VisitParts<T>),
}

// A drop that is written out is proved here alone.
impl<T> Drop for FormerVisit<T> {
    fn drop(self) {
        match self {
            FormerVisit::Whole(_) => {}
            FormerVisit::Parts(_) => {}
        }
    }
}

/// What one visit of a request has for itself.
pub struct VisitParts<T> {
    pub state: RequestScope,
    pub order: OrderWalk,
    pub target: Name,
    pub at: RunState<T>,
}

// A drop that is written out is proved here alone.
impl<T> Drop for VisitParts<T> {
    fn drop(self) {
        let VisitParts {
            state: _,
            order: _,
            target: _,
            at: _,
        } = self;
    }
}

impl<T> VisitParts<T> {
    /// Puts the parts in the place of a visit's, which are given back. This takes no memory.
    pub fn replace(self, visit: &mut Visit<T>) -> VisitParts<T>
        requires asks_body { self.order.asked ≡ ForBody }
        requires own_body { let run = run_of visit.old.run.instance self.target in
            run_in run self.at ≡ run }
        ensures instance { visit.new.instance ≡ visit.old.instance }
        ensures state { visit.new.state ≡ self.state }
        ensures order { visit.new.order ≡ self.order }
        ensures own { visit.new.run.instance ≡ visit.old.run.instance }
        ensures target { visit.new.run.target ≡ self.target }
        ensures at { visit.new.at ≡ self.at }
        ensures before { with_parts result (seen_visit visit.new) ≡ seen_visit visit.old }
    {
        let VisitParts {
            state,
            order,
            target,
            at,
        } = self;
        let state = mem::replace(&mut visit.state, state);
        let order = mem::replace(&mut visit.order, order);
        let target = mem::replace(&mut visit.run.target, target);
        let at = mem::replace(&mut visit.at, at);
        VisitParts {
            state,
            order,
            target,
            at,
        }
    }

    // Puts the parts of a visit back.
    fn put_back(self, stage: &mut Stage<T>)
        requires visits { IsVisit stage.old }
        requires fits { ∥ ((instance : InstanceKey) ×
            IsVisitOf instance (option_map (with_parts self) (seen_stage stage.old))) ∥₁ }
        ensures { seen_stage stage.new ≡ option_map (with_parts self) (seen_stage stage.old) }
    {
        match stage {
            Stage::Visits(visit) => {
                let _visited = self.replace(visit);
            }
            Stage::NotBegun | Stage::Over(_) => unreachable!(),
        }
    }
}

impl<T> FormerVisit<T> {
    // Puts the visit back.
    fn put_back(self, stage: &mut Stage<T>)
        requires { ∥ ((instance : InstanceKey) ×
            IsVisitOf instance (visit_before stage.old self)) ∥₁ }
        ensures { seen_stage stage.new ≡ visit_before stage.old self }
    {
        match self {
            FormerVisit::Whole(before) => *stage = before,
            FormerVisit::Parts(parts) => parts.put_back(stage),
        }
    }
}

/// The body of the run of a stage stands here now. Where it stood is given back. This takes no
/// memory.
pub fn replace_body<T>(stage: &mut Stage<T>, at: RunState<T>) -> RunState<T>
    requires visits { IsVisit stage.old }
    requires fits { ∥ ((instance : InstanceKey) ×
        IsVisitOf instance (body_before stage.old at)) ∥₁ }
    ensures now { seen_stage stage.new ≡ body_before stage.old at }
    ensures before { body_before stage.new result ≡ seen_stage stage.old }
{
    match stage {
        Stage::Visits(visit) => replace_at(visit, at),
        Stage::NotBegun | Stage::Over(_) => unreachable!(),
    }
}

fn replace_at<T>(visit: &mut Visit<T>, at: RunState<T>) -> RunState<T>
    requires { run_in visit.old.run at ≡ visit.old.run }
    ensures now { seen_visit visit.new ≡ with_at at (seen_visit visit.old) }
    ensures before { with_at result (seen_visit visit.new) ≡ seen_visit visit.old }
{
    mem::replace(&mut visit.at, at)
}

impl<T: CountedTools> Former<T> {
    /// Puts everything back into the request, which stands then as before the answer. This takes
    /// no memory.
    pub fn put_back<'a>(self, request: &mut Request<'a, T>)
        requires { ∥ IsFormer request.old.key.instance request.old.stage self ∥₁ }
        ensures stands { request_position T.calls request.new
            ≡ position_before T.calls request.old self }
        ensures begun { has_begun request.new.stage ≡ had_begun self }
        ensures world { request.new.world ≡ request.old.world }
    {
        match self {
            Former::NotBegun => request.stage = Stage::NotBegun,
            Former::Body(at, journal) => {
                let _now = replace_body(&mut request.stage, at);
                request.journal = journal;
            }
            Former::Visit(visit, journal, runs) => {
                visit.put_back(&mut request.stage);
                request.journal = journal;
                request.runs = runs;
            }
        }
    }
}

/// What the last answer of a walk has replaced, and how often it had asked before.
pub struct FormerWalk<T> {
    pub former: Former<T>,
    pub asked: u64,
}

// A drop that is written out is proved here alone.
impl<T> Drop for FormerWalk<T> {
    fn drop(self) {
        let FormerWalk {
            former: _,
            asked: _,
        } = self;
    }
}

impl<T: CountedTools> FormerWalk<T> {
    /// Puts back what was replaced, and says how often the walk had asked.
    pub fn put_back<'a>(self, request: &mut Request<'a, T>) -> u64
        requires { ∥ IsBefore request.old self ∥₁ }
        ensures stands { request_position T.calls request.new
            ≡ position_before T.calls request.old self.former }
        ensures asked { result ≡ self.asked }
        ensures begun { has_begun request.new.stage ≡ not (self.asked == 0) }
        ensures world { request.new.world ≡ request.old.world }
    {
        let FormerWalk { former, asked } = self;
        former.put_back(request);
        asked
    }
}
