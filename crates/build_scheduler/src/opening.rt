//! What a core has of its root, whatever the root asks for.

ghost use Rattle.std.specs.Prelude.{◌≡◌, ◌==◌, ◌∷◌, ℕ, [], None, IfOk};
ghost use Rattle.build_scheduler.specs.Numbers.{among};

use crate::history::History;
use crate::request_set::RequestSet;
use msb_values::NoMemory;
use result_cache::RunId;
use std::alloc::Global;

/// A history without events that has room for the root's Assign and Done, the root among the
/// requests that are ready, and that it is in no body and nobody waits for it.
pub(crate) struct Opening {
    history: History,
    ready: RequestSet,
    making: Vec<Option<RunId>>,
    waiting: Vec<RequestSet>,
}

// A drop that is written out is proved here alone.
impl Drop for Opening {
    fn drop(self) {
        let Opening {
            history: _,
            ready: _,
            making: _,
            waiting: _,
        } = self;
    }
}

impl Opening {
    pub(crate) fn new(alloc: Global) -> Result<Opening, NoMemory>
        ensures events { IfOk result (λ opening. opening.history.events ≡ []) }
        ensures room { IfOk result (λ opening. opening.history.room ≡ 2) }
        ensures nodes { IfOk result (λ opening. opening.history.nodes ≡ 1) }
        ensures ready { IfOk result (λ opening. (n : ℕ)
            → among n opening.ready.numbers ≡ (0 == n)) }
        ensures making { IfOk result (λ opening. opening.making.items ≡ None ∷ []) }
        ensures waiting { IfOk result (λ opening. opening.waiting.items
            ≡ (record { numbers = []; room = 0 }) ∷ []) }
    {
        let history = empty_history(alloc)?;
        let ready = root_alone(alloc)?;
        let making = alone(alloc, None)?;
        let waiting = alone(alloc, RequestSet::new(alloc))?;
        Ok(Opening {
            history,
            ready,
            making,
            waiting,
        })
    }

    pub(crate) fn parts(self) -> (History, RequestSet, Vec<Option<RunId>>, Vec<RequestSet>)
        ensures history { result.0 ≡ self.history }
        ensures ready { result.1 ≡ self.ready }
        ensures making { result.2 ≡ self.making }
        ensures waiting { result.3 ≡ self.waiting }
    {
        let Opening {
            history,
            ready,
            making,
            waiting,
        } = self;
        (history, ready, making, waiting)
    }
}

fn empty_history(alloc: Global) -> Result<History, NoMemory>
    ensures events { IfOk result (λ history. history.events ≡ []) }
    ensures room { IfOk result (λ history. history.room ≡ 2) }
    ensures nodes { IfOk result (λ history. history.nodes ≡ 1) }
{
    let mut history = History::new(alloc)?;
    history.reserve(2)?;
    Ok(history)
}

fn root_alone(alloc: Global) -> Result<RequestSet, NoMemory>
    ensures { IfOk result (λ ready. (n : ℕ) → among n ready.numbers ≡ (0 == n)) }
{
    let mut ready = RequestSet::new(alloc);
    ready.reserve(1)?;
    ready.insert(0);
    Ok(ready)
}

/// A list of one entry.
pub(crate) fn alone<T: Drop>(alloc: Global, entry: T) -> Result<Vec<T>, NoMemory>
    ensures { IfOk result (λ list. list.items ≡ entry ∷ []) }
{
    let mut list = Vec::new(alloc);
    list.push(entry)?;
    Ok(list)
}
