ghost use Rattle.std.specs.Prelude.{
  ◌≡◌,
  ◌<◌,
  [],
  ◌∷◌,
  ◌++◌,
  None,
  Some,
  IsSome,
  IfOk,
  length,
  reverse,
  slice_get,
  OnErr,
  OnOk,
};
ghost use Rattle.indexmap.specs.IndexMap.{index_map_len, get, spare, IsUnique};
ghost use Rattle.indexmap.specs.Layout.{set_value_at};
ghost use Rattle.std.specs.Option.{option_map};
ghost use Rattle.result_cache.specs.declared.run.RunId.{RunId};
ghost use Rattle.result_cache.specs.Found.{FoundIn, seen_finished};
ghost use Rattle.result_cache.specs.Same.{same_run};
ghost use Rattle.result_cache.specs.Table.{found, request_of, without, HasEachOnce};

use crate::finished::Finished;
use crate::{RecordRef, RunId, RunProbe, RunRef};
use indexmap::IndexMap;
use msb_values::{Copied, NoMemory};
use std::alloc::Global;
use std::marker::Model;
use std::mem;

/// A run that is begun and not finished: the request that has begun it, and its name for those that
/// will find its record.
struct Begin {
    by: u64,
    run: RunRef,
}

// A drop that is written out is proved here alone.
impl Drop for Begin {
    fn drop(self) {
        let Begin { by: _, run: _ } = self;
    }
}

impl Begin {
    fn into_run(self) -> RunRef
        ensures { result ≡ self.run }
    {
        let Begin { by: _, run } = self;
        run
    }
}

/// What a table says of a run.
#[derive(Drop)]
pub enum Found<'a> {
    /// Nobody has begun it.
    Absent,
    /// This request has begun it, and it is not finished.
    Begun(u64),
    /// It is finished, and this is its record.
    Done(&'a RecordRef),
}

/// The runs that are finished, with their records, and those that are begun. (MSBuild task: a
/// target is run once.)
///
/// A run is begun by one request, and is finished once. Contracts see the finished runs and the
/// begun ones as two lists, each with the last one first.
pub struct Table {
    finished: Finished,
    /// All runs in the order of their beginnings; nothing is kept of one that is finished.
    begun: IndexMap<RunRef, Option<Begin>>,
}

// A drop that is written out is proved here alone.
impl Drop for Table {
    fn drop(self) {
        let Table {
            finished: _,
            begun: _,
        } = self;
    }
}

impl Model for Table {
    ghost use Rattle.std.specs.Prelude.{reverse};
    ghost use Rattle.result_cache.specs.Table.{TableRuns};
    ghost use Rattle.result_cache.specs.Slots.{begun_in, AreSlots};

    ghost Value = { TableRuns };

    ghost view = { λ t. record {
      finished = reverse t.finished.records;
      begun = begun_in t.begun.entries;
    } };

    ghost invariant = { λ t. AreSlots t.finished t.begun.entries };
}

impl Table {
    pub fn new(alloc: Global) -> Table
        ensures finished { result.finished ≡ [] }
        ensures begun { result.begun ≡ [] }
    {
        Table {
            finished: Finished::new(alloc),
            begun: IndexMap::new(alloc),
        }
    }

    /// The finished runs alone. A copy takes a time that grows with the logarithm of their number.
    pub fn learnt(&self) -> Result<Table, NoMemory>
        ensures finished { IfOk result (λ learnt. learnt.finished ≡ self.now.finished) }
        ensures begun { IfOk result (λ learnt. learnt.begun ≡ []) }
    {
        let alloc = *self.begun.allocator();
        Ok(Table {
            finished: self.finished.copy()?,
            begun: IndexMap::new(alloc),
        })
    }

    /// Enters a run that a request begins, with the room that its record will need. Where there is
    /// no memory, nothing changes.
    pub fn begin(&mut self, run: &RunId, request: u64) -> Result<(), NoMemory>
        requires unfinished { found self.old.finished run.now ≡ None }
        requires unbegun { request_of self.old.begun run.now ≡ None }
        ensures finished { self.new.finished ≡ self.old.finished }
        ensures begun { OnOk result (self.new.begun
            ≡ record { run = run.now; by = request } ∷ self.old.begun) }
        ensures err { OnErr result (self.new.begun ≡ self.old.begun) }
    {
        let alloc = *self.begun.allocator();
        let name = RunRef::new(alloc, run)?;
        let begin = Begin {
            by: request,
            run: name.copy()?,
        };
        self.begun.reserve(1)?;
        self.finished.reserve_one()?;
        put_begin(&mut self.begun, name, begin);
        Ok(())
    }

    /// Gives a begun run its record: it is finished. This needs no memory.
    pub fn finish(&mut self, run: &RunId, made: RecordRef)
        requires { IsSome (request_of self.old.begun run.now) }
        ensures finished { self.new.finished ≡ record { run = run.now; made = made }
            ∷ self.old.finished }
        ensures begun { self.new.begun ≡ without run.now self.old.begun }
    {
        let probe = RunProbe::of(run);
        let Some((at, _, _)) = self.begun.get_full(&probe) else {
            unreachable!()
        };
        let Some(begin) = take_begin(&mut self.begun, at) else {
            unreachable!()
        };
        self.finished.push(made.name_or(begin.into_run()), made);
    }

    /// What is known of a run. This takes no memory, and hardly more time in a larger table.
    pub fn find(&self, run: &RunId) -> Found<'_>
        ensures { FoundIn self.now run.now result }
    {
        self.find_by(&RunProbe::of(run))
    }

    /// The same of a run whose hash is there.
    pub fn find_ref(&self, run: &RunRef) -> Found<'_>
        ensures { FoundIn self.now run.now result }
    {
        self.find_by(&RunProbe::of_ref(run))
    }

    fn find_by(&self, run: &RunProbe<'_>) -> Found<'_>
        ensures { FoundIn self.now run.now result }
    {
        if let Some(made) = self.finished.find(run) {
            return Found::Done(made);
        }
        match self.begun.get(run) {
            Some(Some(begin)) => Found::Begun(begin.by),
            Some(None) => Found::Absent,
            None => Found::Absent,
        }
    }

    /// How many runs are finished.
    pub fn finished_count(&self) -> usize
        ensures { result ≡ length self.now.finished }
    {
        self.finished.len()
    }

    /// The run that was finished at this place, from 0 in finishing order, and its record.
    pub fn finished_at(&self, at: usize) -> Option<(&RunId, &RecordRef)>
        ensures { option_map seen_finished result ≡ slice_get (reverse self.now.finished) at }
    {
        match self.finished.at(at) {
            Some((run, made)) => Some((run.get(), made)),
            None => None,
        }
    }

    /// Each run is in the table once.
    pub fn each_once(&self)
        ensures { HasEachOnce self.now }
    {
        let _ = self.begun.len();
    }
}

/// Adds a run that is not there, for which room was taken.
fn put_begin(begun: &mut IndexMap<RunRef, Option<Begin>>, run: RunRef, begin: Begin)
    requires absent { get same_run begun.old run ≡ None }
    requires room { 0 < spare begun.old }
    ensures entries { begun.new.entries ≡ begun.old.entries ++ (run, Some begin) ∷ [] }
    ensures unique { IsUnique same_run begun.new }
{
    match begun.insert(run, Some(begin)) {
        Ok(_) => {}
        Err(_) => unreachable!(),
    }
}

/// Takes what is kept of the run at this place.
fn take_begin(begun: &mut IndexMap<RunRef, Option<Begin>>, at: usize) -> Option<Begin>
    requires { at < index_map_len begun.old }
    ensures taken { (run : RunId) × (slice_get begun.old.entries at ≡ Some (run, result)) }
    ensures entries { begun.new.entries ≡ set_value_at begun.old.entries at None }
{
    let (_, begin) = begun.pair_mut(at);
    mem::replace(begin, None)
}
