ghost use Rattle.std.specs.Prelude.{◌≡◌, IfOk};
ghost use Rattle.target_order.specs.declared.visits.Asked.TheVariants.{Body as ForBody};
ghost use Rattle.request_machine.specs.Runs.{run_in};

use crate::reply::Reply;
use crate::shared::SharedList;
use crate::snapshots::Snapshots;
use build_scheduler::Ask;
use msb_instance::InstanceRef;
use msb_values::{Copied, NoMemory, Scope};
use result_cache::{RecordRef, Returned, RunId, RunRef};
use std::alloc::Global;
use std::marker::Model;
use target_body::Body;
use target_order::OrderWalk;

/// Where a request stands between its runs: the scope with their changes, and what they have
/// returned.
pub struct RequestScope {
    pub scope: Scope,
    pub returned: SharedList<Returned>,
}

// A drop that is written out is proved here alone.
impl Drop for RequestScope {
    fn drop(self) {
        let RequestScope {
            scope: _,
            returned: _,
        } = self;
    }
}

impl Model for RequestScope {
    ghost use Rattle.request_machine.specs.Walk.{RequestScope as Told};

    ghost Value = { Told };

    ghost view = { λ s. record { scope = s.scope; returned = s.returned } };
}

impl RequestScope {
    /// The scope with the changes of its runs.
    pub fn scope(&self) -> &Scope
        ensures { result.now ≡ self.now.scope }
    {
        &self.scope
    }
}

/// How far a request has come.
pub enum Stage<T> {
    /// Nothing was answered yet.
    NotBegun,
    Visits(Visit<T>),
    Over(Reply),
}

// A drop that is written out is proved here alone.
impl<T> Drop for Stage<T> {
    fn drop(self) {
        match self {
            Stage::NotBegun => {}
            Stage::Visits(_) => {}
            Stage::Over(_) => {}
        }
    }
}

impl<T> Stage<T> {
    ghost use Rattle.std.specs.Prelude.{◌≡◌, IfOk, true};
    ghost use Rattle.request_machine.specs.Stages.{ended_stage, is_between_runs};
    ghost use Rattle.request_machine.specs.Asks.{AsksAt};

    /// What a request asks that has made or used these runs, and wants another one or is over.
    pub fn ask(&self, alloc: Global, runs: &SharedList<RunRef>) -> Result<Ask, NoMemory>
        requires { is_between_runs self.now ≡ true }
        ensures { IfOk result (AsksAt runs.now self.now) }
    {
        match self {
            Stage::Visits(visit) => Ok(Ask::Want(visit.run.copy()?)),
            Stage::Over(reply) => Ok(Ask::Done(reply.result(alloc, runs)?)),
            Stage::NotBegun => unreachable!(),
        }
    }

    /// How a request stands that is over. In the body of a run it is over only where its project
    /// has no such target, and has failed then.
    pub fn copy_end(&self, alloc: Global) -> Result<Stage<T>, NoMemory>
        ensures { IfOk result (λ stage. stage ≡ ended_stage self.now) }
    {
        match self {
            Stage::Over(reply) => Ok(Stage::Over(reply.copy()?)),
            Stage::NotBegun | Stage::Visits(_) => Ok(Stage::Over(Reply::failure(alloc, None))),
        }
    }
}

/// The calls of tools before and after each step of a body, for contracts alone.
pub type Uses<T> = Snapshots<Snapshots<T, u8>, Snapshots<T, u8>>;

/// Where the run of a target stands.
pub enum RunState<T> {
    /// It is wanted, and no answer has come: it is made here, or another request makes it.
    Wanted,
    /// Its body has called requests, and waits for their results.
    Called(HeldBody, Uses<T>),
    /// Its body is over, and this is its record.
    Made(RecordRef, Uses<T>),
}

// A drop that is written out is proved here alone.
impl<T> Drop for RunState<T> {
    fn drop(self) {
        match self {
            RunState::Wanted => {}
            RunState::Called(_, _) => {}
            RunState::Made(_, _) => {}
        }
    }
}

/// A request of an evaluated project that wants the run of a target, or makes it. (Target build
/// order.)
pub struct Visit<T> {
    pub instance: InstanceRef,
    pub state: RequestScope,
    /// It has asked for the body of the run's target.
    pub order: OrderWalk,
    pub run: RunId,
    pub at: RunState<T>,
    ghost asks_body: { order.asked ≡ ForBody },
    ghost own_body: { run_in run at ≡ run },
}

// A drop that is written out is proved here alone.
impl<T> Drop for Visit<T> {
    fn drop(self) {
        let Visit {
            instance: _,
            state: _,
            order: _,
            run: _,
            at: _,
        } = self;
    }
}

/// The body of a run, which is kept apart from what waits with it.
pub struct HeldBody {
    body: Box<Body>,
}

// A drop that is written out is proved here alone.
impl Drop for HeldBody {
    fn drop(self) {
        let HeldBody { body: _ } = self;
    }
}

impl Model for HeldBody {
    ghost use Rattle.target_body.specs.declared.body.Body.{Body};

    ghost Value = { Body };

    ghost view = { λ held. held.body.value };
}

impl HeldBody {
    pub fn of(alloc: Global, body: Body) -> Result<HeldBody, NoMemory>
        ensures { IfOk result (λ held. held ≡ body) }
    {
        Ok(HeldBody {
            body: Box::new(alloc, body)?,
        })
    }

    /// A copy of the body, which goes on apart from it.
    pub fn copy(&self) -> Result<Body, NoMemory>
        ensures { IfOk result (λ copy. copy ≡ self.now) }
    {
        (*self.body).copy()
    }
}
