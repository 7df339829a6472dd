ghost use Rattle.std.specs.Prelude.{◌≡◌, not, drop, take};
ghost use Rattle.std.specs.List.{list_any};

use msb_values::{List, Note, Shared};
use result_cache::{RequestKey, RequestResult};

/// What the MSBuild task is to do. (MSBuild task.)
pub struct Plan {
    /// The requests that it calls, in order; they may be many, and copies of the plan share them.
    pub calls: Shared<List<RequestKey>>,
    /// Whether they are called at once.
    pub parallel: bool,
    /// Whether no call is made behind one that fails; never where they are called at once.
    pub stop_first: bool,
    /// What is said before the first call.
    pub notes: List<Note>,
    /// False where the task fails, whatever its calls give.
    pub ok: bool,
}

// A drop that is written out is proved here alone.
impl Drop for Plan {
    fn drop(self) {
        let Plan {
            calls: _,
            parallel: _,
            stop_first: _,
            notes: _,
            ok: _,
        } = self;
    }
}

impl Plan {
    ghost use Rattle.task_msbuild.specs.Plans.{has_stopped, next_calls};

    /// The calls that are made next, when these are the results of the first ones: all at once, or
    /// one after the other. Where there is none, the results are to be [gathered](crate::gather).
    /// It takes no memory.
    pub fn next(&self, results: &List<RequestResult>) -> &[RequestKey]
        ensures { result.now ≡ next_calls self.now results.now }
    {
        let waiting = self.waiting(results.len());
        if self.parallel {
            waiting
        } else if self.has_stopped(results.as_slice()) {
            &[]
        } else {
            first_of(waiting)
        }
    }

    fn waiting(&self, answered: usize) -> &[RequestKey]
        ensures { result.now ≡ drop answered self.now.calls }
    {
        let calls = self.calls.get().as_slice();
        if answered < calls.len() {
            &calls[answered..]
        } else {
            &[]
        }
    }

    fn has_stopped(&self, results: &[RequestResult]) -> bool
        ensures { result ≡ has_stopped self.now results.now }
    {
        self.stop_first && any_failed(results)
    }
}

fn first_of(calls: &[RequestKey]) -> &[RequestKey]
    ensures { result.now ≡ take 1 calls.now }
{
    match calls {
        [] => &[],
        [_, ..] => &calls[..1],
    }
}

fn any_failed(results: &[RequestResult]) -> bool
    ensures { result ≡ list_any (λ given. not given.ok) results.now }
{
    results.iter().any(|given| !given.ok)
}
