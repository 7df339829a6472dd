ghost use Rattle.std.specs.Prelude.{◌≡◌, IfOk};

use crate::{Record, RunId, RunRef};
use msb_values::{Copied, NoMemory, Shared};
use std::alloc::Global;
use std::marker::Model;

/// A record that its copies share, in any threads.
pub struct RecordRef {
    shared: Shared<Kept>,
}

// A drop that is written out is proved here alone.
impl Drop for RecordRef {
    fn drop(self) {
        let RecordRef { shared: _ } = self;
    }
}

/// A record, and the name of its run, for those that put the run in a journal.
struct Kept {
    made: Record,
    run: Option<RunRef>,
}

// A drop that is written out is proved here alone.
impl Drop for Kept {
    fn drop(self) {
        let Kept { made: _, run: _ } = self;
    }
}

impl Model for RecordRef {
    ghost use Rattle.result_cache.specs.declared.record.Record.{Record};
    ghost use Rattle.result_cache.specs.declared.record_ref.Kept.{Kept};

    ghost Value = { Record };

    ghost view = { λ r. r.shared.made };
}

impl RecordRef {
    pub fn new(alloc: Global, made: Record) -> Result<RecordRef, NoMemory>
        ensures { IfOk result (λ r. r ≡ made) }
    {
        RecordRef::keep(alloc, Kept { made, run: None })
    }

    /// The record of this run, which shares the run's name with all that put it in a journal.
    pub fn of_run(alloc: Global, run: &RunRef, made: Record) -> Result<RecordRef, NoMemory>
        ensures { IfOk result (λ r. r ≡ made) }
    {
        let run = Some(run.copy()?);
        RecordRef::keep(alloc, Kept { made, run })
    }

    fn keep(alloc: Global, kept: Kept) -> Result<RecordRef, NoMemory>
        ensures { IfOk result (λ r. r ≡ kept.made) }
    {
        Ok(RecordRef {
            shared: Shared::new(alloc, kept)?,
        })
    }

    pub fn get(&self) -> &Record
        ensures { result.now ≡ self.now }
    {
        &self.shared.get().made
    }

    /// The kept name, if it is that of this run, else this one.
    pub fn name_or(&self, run: RunRef) -> RunRef
        ensures { result ≡ run }
    {
        match &self.shared.get().run {
            Some(kept) if *kept == run => match kept.copy() {
                Ok(kept) => kept,
                Err(NoMemory) => run,
            },
            _ => run,
        }
    }

    /// The name of a run: the one that is kept, if it is that run's, else a copy.
    pub fn name(&self, alloc: Global, run: &RunId) -> Result<RunRef, NoMemory>
        ensures { IfOk result (λ r. r ≡ run.now) }
    {
        match &self.shared.get().run {
            Some(kept) if *kept.get() == *run => kept.copy(),
            _ => RunRef::new(alloc, run),
        }
    }
}

impl Copied for RecordRef {
    fn copy(&self) -> Result<RecordRef, NoMemory> {
        Ok(RecordRef {
            shared: self.shared.copy()?,
        })
    }
}
