ghost use Rattle.std.specs.Prelude.{◌≡◌, ◌<◌, ◌^◌, ◌∷◌, ℕ, [], true, length, Some, IfOk, OnOk};
ghost use Rattle.result_cache.specs.Lists.{In};
ghost use Rattle.build_meaning.specs.Lists.{at};
ghost use Rattle.build_scheduler.specs.Dependents.{
  AreBackward,
  AreBounded,
  AreBroughtIn,
  AreCallersThere,
  AreOverAdded,
  IsAddedTo,
  IsLookedAt,
  IsMaking,
  IsCycleOver,
  IsRunAdded,
  TellsDependent,
  TellsDependentFrom,
};
ghost use Rattle.build_scheduler.specs.Numbers.{among};

use crate::done::parent_of;
use crate::request_set::RequestSet;
use crate::slot::Origin;
use indexmap::IndexSet;
use msb_values::{Copied, List, NoMemory};
use result_cache::RunId;
use std::alloc::Global;

/// The requests whose runs need the run that a request would wait for.
pub(crate) struct Dependents {
    /// Each once; the one that calls the request comes first.
    requests: IndexSet<u64>,
    /// For each of the others the place of one before it whose run its own needs.
    needs: Vec<usize>,
}

// A drop that is written out is proved here alone.
impl Drop for Dependents {
    fn drop(self) {
        let Dependents {
            requests: _,
            needs: _,
        } = self;
    }
}

/// A request among those that need the run, and its place.
pub(crate) struct Dependent {
    dependents: Dependents,
    place: usize,
}

// A drop that is written out is proved here alone.
impl Drop for Dependent {
    fn drop(self) {
        let Dependent {
            dependents: _,
            place: _,
        } = self;
    }
}

impl Dependents {
    fn new(alloc: Global, first: u64) -> Result<Dependents, NoMemory>
        ensures requests { IfOk result (λ dependents. dependents.requests.keys ≡ first ∷ []) }
        ensures needs { IfOk result (λ dependents. dependents.needs.items ≡ 0 ∷ []) }
    {
        let mut requests = IndexSet::new(alloc);
        requests.insert(first)?;
        let mut needs = Vec::new(alloc);
        needs.push(0)?;
        Ok(Dependents { requests, needs })
    }

    fn len(&self) -> usize
        ensures len { result ≡ length self.now.requests.keys }
        ensures small { result < 2 ^ 63 }
    {
        self.requests.len()
    }

    /// Adds a request whose run needs that of the one at a place, unless it is there.
    fn add(&mut self, request: u64, place: usize) -> Result<(), NoMemory>
        ensures { OnOk result
            (IsAddedTo self.old.requests.keys self.old.needs.items request place
            self.new.requests.keys self.new.needs.items) }
    {
        if self.requests.insert(request)? {
            self.needs.push(place)?;
        }
        Ok(())
    }

    /// Adds the request that calls this one, if there is one.
    fn add_caller(
        &mut self,
        origins: &Vec<Origin>,
        request: u64,
        place: usize,
    ) -> Result<(), NoMemory>
        requires { request < length origins.now.items }
        ensures { OnOk result
            (AreBroughtIn origins.now.items (request ∷ []) place self.old.requests.keys
            self.old.needs.items self.new.requests.keys self.new.needs.items) }
    {
        match parent_of(origins, request) {
            None => Ok(()),
            Some(caller) => self.add(caller, place),
        }
    }

    /// Adds the requests that call these.
    fn add_callers(
        &mut self,
        origins: &Vec<Origin>,
        requests: &RequestSet,
        place: usize,
    ) -> Result<(), NoMemory>
        requires { (request : ℕ) → In request requests.now.numbers
            → request < length origins.now.items }
        ensures { OnOk result
            (AreBroughtIn origins.now.items requests.now.numbers place self.old.requests.keys
            self.old.needs.items self.new.requests.keys self.new.needs.items) }
    {
        for at in 0..requests.len() {
            self.add_caller(origins, requests.number_at(at), place)?;
        }
        Ok(())
    }

    /// Adds the requests whose runs need that of the one at a place: the one that calls it, and
    /// those that call one that waits for its run.
    fn look(
        &mut self,
        origins: &Vec<Origin>,
        waiting: &Vec<RequestSet>,
        place: usize,
    ) -> Result<(), NoMemory>
        requires within { place < length self.old.requests.keys }
        requires there { (i request : ℕ) → at self.old.requests.keys i ≡ Some request
            → request < length origins.now.items }
        requires waiting { AreBounded waiting.now.items (length origins.now.items) }
        ensures { OnOk result
            (IsLookedAt origins.now.items waiting.now.items place self.old.requests.keys
            self.old.needs.items self.new.requests.keys self.new.needs.items) }
    {
        let request = self.requests[place];
        self.add_caller(origins, request, place)?;
        self.add_callers(origins, &waiting[request as usize], place)
    }
}

impl Dependent {
    /// The runs of the cycle that a wait would close: from the run that is wanted, over those that
    /// need it, back to it.
    pub(crate) fn runs(
        &self,
        making: &Vec<Option<RunId>>,
        run: &RunId,
    ) -> Result<List<RunId>, NoMemory>
        requires within { self.now.place < length self.now.dependents.requests.keys }
        requires backward { AreBackward self.now.dependents.requests.keys
            self.now.dependents.needs.items }
        requires making { (request : ℕ) → among request self.now.dependents.requests.keys ≡ true
            → IsMaking (at making.now.items request) }
        ensures { IfOk result
            (λ runs. IsCycleOver self.now.dependents.requests.keys self.now.dependents.needs.items
            making.now.items self.now.place run.now runs) }
    {
        let mut runs = Vec::new(*making.allocator());
        runs.push(run.copy()?)?;
        self.push_runs(&mut runs, making)?;
        runs.push(run.copy()?)?;
        Ok(List::from(runs))
    }

    /// Adds the runs of those that the request was found by.
    fn push_runs(&self, runs: &mut Vec<RunId>, making: &Vec<Option<RunId>>) -> Result<(), NoMemory>
        requires within { self.now.place < length self.now.dependents.requests.keys }
        requires backward { AreBackward self.now.dependents.requests.keys
            self.now.dependents.needs.items }
        requires making { (request : ℕ) → among request self.now.dependents.requests.keys ≡ true
            → IsMaking (at making.now.items request) }
        ensures { OnOk result
            (AreOverAdded self.now.dependents.requests.keys self.now.dependents.needs.items
            making.now.items self.now.place runs.old.items runs.new.items) }
    {
        let mut place = self.place;
        while place > 0 {
            place = self.dependents.needs[place];
            push_run(runs, making, self.dependents.requests[place])?;
        }
        Ok(())
    }
}

/// Adds the run in whose body a request is.
fn push_run(
    runs: &mut Vec<RunId>,
    making: &Vec<Option<RunId>>,
    request: u64,
) -> Result<(), NoMemory>
    requires { IsMaking (at making.now.items request) }
    ensures { OnOk result (IsRunAdded (at making.now.items request) runs.old.items runs.new.items) }
{
    match &making[request as usize] {
        Some(run) => {
            runs.push(run.copy()?)?;
            Ok(())
        }
        None => unreachable!(),
    }
}

/// Finds this request among those whose runs need the run that another one would wait for.
pub(crate) fn find_dependent(
    origins: &Vec<Origin>,
    waiting: &Vec<RequestSet>,
    id: u64,
    by: u64,
) -> Result<Option<Dependent>, NoMemory>
    requires there { id < length origins.now.items }
    requires callers { AreCallersThere origins.now.items }
    requires waiting { AreBounded waiting.now.items (length origins.now.items) }
    ensures { IfOk result
        (λ dependent. TellsDependent origins.now.items waiting.now.items id by dependent) }
{
    match parent_of(origins, id) {
        None => Ok(None),
        Some(first) => search(origins, waiting, first, by),
    }
}

/// Looks for a request from the one that calls another, on to those whose runs need the runs of
/// those that were found.
fn search(
    origins: &Vec<Origin>,
    waiting: &Vec<RequestSet>,
    first: u64,
    by: u64,
) -> Result<Option<Dependent>, NoMemory>
    requires there { first < length origins.now.items }
    requires callers { AreCallersThere origins.now.items }
    requires waiting { AreBounded waiting.now.items (length origins.now.items) }
    ensures { IfOk result
        (λ dependent. TellsDependentFrom origins.now.items waiting.now.items first by dependent) }
{
    let mut dependents = Dependents::new(*origins.allocator(), first)?;
    let mut place = 0;
    while place < dependents.len() {
        if dependents.requests[place] == by {
            return Ok(Some(Dependent { dependents, place }));
        }
        dependents.look(origins, waiting, place)?;
        place += 1;
    }
    Ok(None)
}
