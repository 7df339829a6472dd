ghost use Rattle.std.specs.Prelude.{
  ◌≡◌,
  ◌+◌,
  ◌*◌,
  ◌^◌,
  ◌<◌,
  ◌≤◌,
  ◌++◌,
  ◌&&◌,
  ◌||◌,
  ℕ,
  None,
  Some,
  false,
  nat_le,
  nat_lt,
  length,
  map,
  take,
  vec_len,
  vec_capacity,
  IfOk,
  IfErr,
  OnOk,
};
ghost use Rattle.build_meaning.specs.Lists.{at, put, Paired};
ghost use Rattle.build_meaning.specs.Meaning.{deepest};
ghost use Rattle.build_scheduler.specs.declared.walker.Ask.TheVariants.{Call};
ghost use Rattle.build_scheduler.specs.declared.slot.Slot.TheVariants.{Calling};
ghost use Rattle.build_scheduler.specs.Children.{
  HasDepth,
  IsChildSlot,
  child_origin,
  empty_set,
  no_run,
};
ghost use Rattle.build_scheduler.specs.Chain.{
  AreKeysDown,
  AreUpward,
  IsDeepFault,
  IsFurther,
  IsThere,
};
ghost use Rattle.build_scheduler.specs.Entered.{AreEntered, AreNew};
ghost use Rattle.build_scheduler.specs.Numbers.{among};
ghost use Rattle.build_scheduler.specs.Own.{IsOwn};
ghost use Rattle.build_scheduler.specs.Position.{ask_of};
ghost use Rattle.build_scheduler.specs.Requests.{HasSpare, IsRefused, IsRequested};
ghost use Rattle.build_scheduler.specs.Shown.{AreNested, unready};

use crate::children::{child_origins, child_slots, empty_sets, no_results, no_runs};
use crate::instances::InstanceFault;
use crate::request_set::RequestSet;
use crate::slot::{Calls, Origin, Slot};
use crate::{Core, Walker};
use build_meaning::Event;
use msb_values::{Copied, InstanceKey, List, NoMemory};
use result_cache::{RequestKey, RequestResult, RunId};
use std::alloc::Global;

/// Why calls are not made. (MSBuild task.)
#[derive(Drop)]
pub enum RequestFault {
    /// They are nested too deep: the requests from the root to the one that calls, and the first
    /// call.
    TooDeep(List<RequestKey>),
    /// With the instance of one of them there would be too many.
    TooMany(InstanceKey),
    Memory,
}

/// The requests of calls, before they are entered.
pub(crate) struct Children<W> {
    pub(crate) origins: Vec<Origin>,
    pub(crate) slots: Vec<Slot<W>>,
    pub(crate) making: Vec<Option<RunId>>,
    pub(crate) waiting: Vec<RequestSet>,
    pub(crate) results: Vec<RequestResult>,
}

// A drop that is written out is proved here alone.
impl<W: Drop> Drop for Children<W> {
    fn drop(self) {
        let Children {
            origins: _,
            slots: _,
            making: _,
            waiting: _,
            results: _,
        } = self;
    }
}

/// The request that calls, with its walk.
#[derive(Drop)]
struct Caller<W> {
    id: u64,
    walk: W,
}

impl<W: Drop> Children<W> {
    /// Puts the walk of a caller away, and enters its children behind the other requests.
    fn enter_all(
        self,
        origins: &mut Vec<Origin>,
        slots: &mut Vec<Slot<W>>,
        making: &mut Vec<Option<RunId>>,
        waiting: &mut Vec<RequestSet>,
        caller: Caller<W>,
    )
        requires there { caller.id < length slots.old.items }
        requires origin_room { vec_len origins.old + length self.origins.items
            ≤ vec_capacity origins.old }
        requires slot_room { vec_len slots.old + length self.slots.items ≤ vec_capacity slots.old }
        requires making_room { vec_len making.old + length self.making.items
            ≤ vec_capacity making.old }
        requires waiting_room { vec_len waiting.old + length self.waiting.items
            ≤ vec_capacity waiting.old }
        ensures origins { origins.new.items ≡ origins.old.items ++ self.origins.items }
        ensures slots { AreEntered slots.old.items slots.new.items caller.id caller.walk self }
        ensures making { making.new.items ≡ making.old.items ++ self.making.items }
        ensures waiting { waiting.new.items ≡ waiting.old.items ++ self.waiting.items }
    {
        let Children {
            origins: mut new_origins,
            slots: mut new_slots,
            making: mut new_making,
            waiting: mut new_waiting,
            results,
        } = self;
        let Caller { id, walk } = caller;
        let calls = Calls {
            walk,
            first: slots.len() as u64,
            open: new_slots.len(),
            results,
        };
        put_calls(slots, id, calls);
        append(origins, &mut new_origins);
        append(slots, &mut new_slots);
        append(making, &mut new_making);
        append(waiting, &mut new_waiting);
    }
}

/// So many requests may be nested, the root counted.
const DEEPEST: usize = 128;

/// A call list has fewer calls than this.
const MOST_CALLS: usize = 1 << 60;

impl<W: Walker> Core<W> {
    /// Makes the requests that the body of a request with a node calls at once: they are ready, and
    /// its walk is put away until all of them are done. Where they are refused, the walk is handed
    /// back, and nothing has changed. (MSBuild task, BuildInParallel.)
    pub(crate) fn request(
        &mut self,
        id: u64,
        walk: W,
        calls: List<RequestKey>,
    ) -> Result<(), (W, RequestFault)>
        requires running { self.old.end ≡ None }
        requires own { ∥ IsOwn (W.world_of self.old.world) self.old.history.events
            self.old.table.finished id (W.seen walk) ∥₁ }
        requires asks { ask_of (W.seen walk).position ≡ Call calls }
        ensures world { W.world_of self.new.world ≡ W.world_of self.old.world }
        ensures table { self.new.table ≡ self.old.table }
        ensures end { self.new.end ≡ self.old.end }
        ensures nodes { self.new.history.nodes ≡ self.old.history.nodes }
        ensures requested { IsRequested (W.world_of self.old.world) self.old.history.events
            self.new.history.events id calls walk result }
    {
        match self.children(id, &walk, calls.as_slice()) {
            Ok(children) => self.enter(id, walk, calls, children),
            Err(fault) => Err((walk, fault)),
        }
    }

    /// The children of calls, with room for them and for their events.
    fn children(
        &mut self,
        id: u64,
        walk: &W,
        calls: &[RequestKey],
    ) -> Result<Children<W>, RequestFault>
        requires own { ∥ IsOwn (W.world_of self.old.world) self.old.history.events
            self.old.table.finished id (W.seen walk.now) ∥₁ }
        requires asks { ask_of (W.seen walk.now).position ≡ Call calls.now }
        ensures world { W.world_of self.new.world ≡ W.world_of self.old.world }
        ensures table { self.new.table ≡ self.old.table }
        ensures end { self.new.end ≡ self.old.end }
        ensures nodes { self.new.history.nodes ≡ self.old.history.nodes }
        ensures history { self.new.history.events ≡ self.old.history.events }
        ensures fault { IfErr result
            (λ fault. IsRefused (W.world_of self.old.world) self.old.history.events id calls.now
            fault) }
        ensures children { IfOk result (λ children. AreNew W.seen (W.seen walk.now) id calls.now
            self.new.origins.items children) }
        ensures origin_room { OnOk result (vec_len self.new.origins + length calls.now
            ≤ vec_capacity self.new.origins) }
        ensures slot_room { OnOk result (vec_len self.new.slots + length calls.now
            ≤ vec_capacity self.new.slots) }
        ensures making_room { OnOk result (vec_len self.new.making + length calls.now
            ≤ vec_capacity self.new.making) }
        ensures waiting_room { OnOk result (vec_len self.new.waiting + length calls.now
            ≤ vec_capacity self.new.waiting) }
        ensures ready_room { OnOk result (unready self.new.slots.items + length calls.now
            ≤ self.new.ready.room) }
        ensures spare { OnOk result
            ∥ HasSpare (W.world_of self.new.world) self.new.history (2 + 2 * length calls.now) ∥₁ }
    {
        let depth = self.depth_for(id, walk, calls)?;
        let alloc = *self.slots.allocator();
        let children = children_of(alloc, id, walk, depth + 1, calls)?;
        self.take_room(calls.len())?;
        Ok(children)
    }

    /// How many requests call each other down to the one that calls, where its calls may be nested.
    fn depth_for(&self, id: u64, walk: &W, calls: &[RequestKey]) -> Result<usize, RequestFault>
        requires own { ∥ IsOwn (W.world_of self.now.world) self.now.history.events
            self.now.table.finished id (W.seen walk.now) ∥₁ }
        requires asks { ask_of (W.seen walk.now).position ≡ Call calls.now }
        ensures depth { IfOk result (λ depth. HasDepth (at self.now.origins.items id) depth
            × (depth + 1 < deepest)) }
        ensures fault { IfErr result
            (λ fault. IsRefused (W.world_of self.now.world) self.now.history.events id calls.now
            fault) }
    {
        let depth = depth_of(&self.origins, id);
        if depth < DEEPEST - 1 {
            Ok(depth)
        } else {
            Err(too_deep(&self.origins, id, calls))
        }
    }

    /// Takes room for so many more requests and their events.
    fn take_room(&mut self, count: usize) -> Result<(), NoMemory>
        ensures world { W.world_of self.new.world ≡ W.world_of self.old.world }
        ensures table { self.new.table ≡ self.old.table }
        ensures end { self.new.end ≡ self.old.end }
        ensures nodes { self.new.history.nodes ≡ self.old.history.nodes }
        ensures history { self.new.history.events ≡ self.old.history.events }
        ensures origins { self.new.origins.items ≡ self.old.origins.items }
        ensures origin_room { OnOk result (vec_len self.new.origins + count
            ≤ vec_capacity self.new.origins) }
        ensures slot_room { OnOk result (vec_len self.new.slots + count
            ≤ vec_capacity self.new.slots) }
        ensures making_room { OnOk result (vec_len self.new.making + count
            ≤ vec_capacity self.new.making) }
        ensures waiting_room { OnOk result (vec_len self.new.waiting + count
            ≤ vec_capacity self.new.waiting) }
        ensures ready_room { OnOk result (unready self.new.slots.items + count
            ≤ self.new.ready.room) }
        ensures spare { OnOk result
            ∥ HasSpare (W.world_of self.new.world) self.new.history (2 + 2 * count) ∥₁ }
    {
        let events = events_of(count)?;
        reserve_all(
            &mut self.origins,
            &mut self.slots,
            &mut self.making,
            &mut self.waiting,
            count,
        )?;
        self.ready.reserve(count)?;
        self.kept.reserve(count)?;
        self.history.reserve(events)?;
        Ok(())
    }

    /// Enters the children of calls, unless there would be too many instances.
    fn enter(
        &mut self,
        id: u64,
        walk: W,
        calls: List<RequestKey>,
        children: Children<W>,
    ) -> Result<(), (W, RequestFault)>
        requires running { self.old.end ≡ None }
        requires own { ∥ IsOwn (W.world_of self.old.world) self.old.history.events
            self.old.table.finished id (W.seen walk) ∥₁ }
        requires asks { ask_of (W.seen walk).position ≡ Call calls }
        requires children { AreNew W.seen (W.seen walk) id calls self.old.origins.items children }
        requires origin_room { vec_len self.old.origins + length calls
            ≤ vec_capacity self.old.origins }
        requires slot_room { vec_len self.old.slots + length calls ≤ vec_capacity self.old.slots }
        requires making_room { vec_len self.old.making + length calls
            ≤ vec_capacity self.old.making }
        requires waiting_room { vec_len self.old.waiting + length calls
            ≤ vec_capacity self.old.waiting }
        requires ready_room { unready self.old.slots.items + length calls ≤ self.old.ready.room }
        requires spare { ∥ HasSpare (W.world_of self.old.world) self.old.history
            (2 + 2 * length calls) ∥₁ }
        ensures world { W.world_of self.new.world ≡ W.world_of self.old.world }
        ensures table { self.new.table ≡ self.old.table }
        ensures end { self.new.end ≡ self.old.end }
        ensures nodes { self.new.history.nodes ≡ self.old.history.nodes }
        ensures requested { IsRequested (W.world_of self.old.world) self.old.history.events
            self.new.history.events id calls walk result }
    {
        match self.instances.add(calls.as_slice()) {
            Err(InstanceFault::TooMany(instance)) => Err((walk, RequestFault::TooMany(instance))),
            Err(InstanceFault::Memory) => Err((walk, RequestFault::Memory)),
            Ok(()) => {
                self.kept.count(&self.instances, calls.as_slice());
                list_new(&mut self.ready, self.slots.len() as u64, calls.len());
                self.preferred.open(&self.kept.places, self.slots.len());
                self.history.push(Event::Request(id, calls));
                children.enter_all(
                    &mut self.origins,
                    &mut self.slots,
                    &mut self.making,
                    &mut self.waiting,
                    Caller { id, walk },
                );
                Ok(())
            }
        }
    }
}

/// Puts calls into the slot of the request that makes them.
fn put_calls<W: Drop>(slots: &mut Vec<Slot<W>>, id: u64, calls: Calls<W>)
    requires { id < length slots.old.items }
    ensures slots { slots.new.items ≡ put slots.old.items id (Calling calls) }
    ensures len { vec_len slots.new ≡ vec_len slots.old }
    ensures capacity { vec_capacity slots.new ≡ vec_capacity slots.old }
{
    slots[id as usize] = Slot::Calling(calls);
}

/// Puts a list behind another, which has room for it.
fn append<T: Drop>(list: &mut Vec<T>, more: &mut Vec<T>)
    requires { vec_len list.old + length more.old.items ≤ vec_capacity list.old }
    ensures { list.new.items ≡ list.old.items ++ more.old.items }
{
    match list.append(more) {
        Ok(()) => {}
        Err(_) => unreachable!(),
    }
}

/// How many events so many new requests need: the call, the next Assign of the caller, and an
/// Assign and a Done of each.
fn events_of(count: usize) -> Result<usize, NoMemory>
    ensures { IfOk result (λ events. events ≡ 2 + 2 * count) }
{
    if count > MOST_CALLS {
        return Err(NoMemory);
    }
    Ok(2 + 2 * count)
}

/// The refusal of calls that would be nested too deep.
fn too_deep(origins: &Vec<Origin>, id: u64, calls: &[RequestKey]) -> RequestFault
    requires nested { ∥ AreNested origins.now.items ∥₁ }
    requires there { id < length origins.now.items }
    ensures { IsDeepFault origins.now.items id calls.now result }
{
    match keys_down(origins, id, calls) {
        Ok(keys) => RequestFault::TooDeep(keys),
        Err(NoMemory) => RequestFault::Memory,
    }
}

/// The requests from the root to this one, and the first call.
fn keys_down(
    origins: &Vec<Origin>,
    id: u64,
    calls: &[RequestKey],
) -> Result<List<RequestKey>, NoMemory>
    requires nested { ∥ AreNested origins.now.items ∥₁ }
    requires there { id < length origins.now.items }
    ensures { IfOk result (λ keys. AreKeysDown origins.now.items id calls.now keys) }
{
    let mut keys = keys_up(origins, id)?;
    keys.reverse();
    push_first(&mut keys, calls)?;
    Ok(List::from(keys))
}

/// The requests from this one up to the root.
fn keys_up(origins: &Vec<Origin>, id: u64) -> Result<Vec<RequestKey>, NoMemory>
    requires nested { ∥ AreNested origins.now.items ∥₁ }
    requires there { id < length origins.now.items }
    ensures { IfOk result (λ keys. AreUpward origins.now.items id keys.items) }
{
    let mut keys = Vec::new(*origins.allocator());
    let mut next = Some(id);
    for level in 0..DEEPEST {
        next = push_key(&mut keys, origins, next)?;
    }
    Ok(keys)
}

/// Adds the key of a request, if there is one, and gives its caller.
fn push_key(
    keys: &mut Vec<RequestKey>,
    origins: &Vec<Origin>,
    id: Option<u64>,
) -> Result<Option<u64>, NoMemory>
    requires { IsThere origins.now.items id }
    ensures { IfOk result
        (λ next. IsFurther origins.now.items keys.old.items keys.new.items id next) }
{
    match id {
        None => Ok(None),
        Some(id) => {
            let origin = &origins[id as usize];
            keys.push(origin.key.copy()?)?;
            Ok(origin.parent)
        }
    }
}

/// Adds the first call.
fn push_first(keys: &mut Vec<RequestKey>, calls: &[RequestKey]) -> Result<(), NoMemory>
    ensures { OnOk result (keys.new.items ≡ keys.old.items ++ take 1 calls.now) }
{
    match calls.first() {
        None => Ok(()),
        Some(first) => {
            keys.push(first.copy()?)?;
            Ok(())
        }
    }
}

impl From<NoMemory> for RequestFault {
    ghost use Rattle.std.specs.Prelude.{◌≡◌};
    ghost use Rattle.build_scheduler.specs.declared.request.RequestFault.TheVariants.{Memory};

    ghost from_gives = { λ _ fault. fault ≡ Memory };

    fn from(_: NoMemory) -> Self {
        RequestFault::Memory
    }
}

fn children_of<W: Walker>(
    alloc: Global,
    id: u64,
    walk: &W,
    depth: usize,
    calls: &[RequestKey],
) -> Result<Children<W>, NoMemory>
    requires { ask_of (W.seen walk.now).position ≡ Call calls.now }
    ensures origins { IfOk result (λ children. children.origins.items
        ≡ map (child_origin id depth) calls.now) }
    ensures slots { IfOk result (λ children. Paired (IsChildSlot W.seen (W.seen walk.now))
        children.slots.items calls.now) }
    ensures making { IfOk result (λ children. children.making.items ≡ map no_run calls.now) }
    ensures waiting { IfOk result (λ children. children.waiting.items ≡ map empty_set calls.now) }
    ensures results { IfOk result (λ children. length children.results.items ≡ length calls.now) }
{
    Ok(Children {
        origins: child_origins(alloc, id, depth, calls)?,
        slots: child_slots(alloc, walk, calls)?,
        making: no_runs(alloc, calls)?,
        waiting: empty_sets(alloc, calls)?,
        results: no_results(alloc, calls)?,
    })
}

/// How many requests call each other down to this one.
fn depth_of(origins: &Vec<Origin>, id: u64) -> usize
    requires { id < length origins.now.items }
    ensures { HasDepth (at origins.now.items id) result }
{
    origins[id as usize].depth
}

/// Takes room for so many more requests.
fn reserve_all<W: Drop>(
    origins: &mut Vec<Origin>,
    slots: &mut Vec<Slot<W>>,
    making: &mut Vec<Option<RunId>>,
    waiting: &mut Vec<RequestSet>,
    count: usize,
) -> Result<(), NoMemory>
    ensures origins { origins.new.items ≡ origins.old.items }
    ensures slots { slots.new.items ≡ slots.old.items }
    ensures making { making.new.items ≡ making.old.items }
    ensures waiting { waiting.new.items ≡ waiting.old.items }
    ensures origin_room { OnOk result (vec_len origins.new + count ≤ vec_capacity origins.new) }
    ensures slot_room { OnOk result (vec_len slots.new + count ≤ vec_capacity slots.new) }
    ensures making_room { OnOk result (vec_len making.new + count ≤ vec_capacity making.new) }
    ensures waiting_room { OnOk result (vec_len waiting.new + count ≤ vec_capacity waiting.new) }
{
    origins.reserve(count)?;
    slots.reserve(count)?;
    making.reserve(count)?;
    waiting.reserve(count)?;
    Ok(())
}

/// Lists new requests as ready.
fn list_new(ready: &mut RequestSet, first: u64, count: usize)
    requires room { count ≤ ready.old.room }
    requires absent { (n : ℕ) → first ≤ n → among n ready.old.numbers ≡ false }
    requires fits { first + count < 2 ^ 64 }
    ensures numbers { (n : ℕ) → among n ready.new.numbers
        ≡ ((nat_le first n && nat_lt n (first + count)) || among n ready.old.numbers) }
    ensures room { ready.old.room ≡ ready.new.room + count }
{
    for i in 0..count {
        ready.insert(first + i as u64);
    }
}
