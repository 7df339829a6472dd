ghost use Rattle.std.specs.Prelude.{
  ◌≡◌,
  [],
  ◌∷◌,
  ◌++◌,
  None,
  length,
  OnOk,
  option_copied,
  slice_get,
  option_map,
};
ghost use Rattle.result_cache.specs.Found.{seen_finished};
ghost use Rattle.result_cache.specs.Kept.{runs_of};
ghost use Rattle.result_cache.specs.Same.{AreDistinct};
ghost use Rattle.result_cache.specs.Table.{found};

use crate::{RecordRef, RunProbe, RunRef};
use indexmap::IndexMap;
use msb_values::{Copied, NoMemory};
use std::alloc::Global;
use std::marker::Model;

/// Runs that were finished one after the other, with their records.
pub(crate) struct Layer {
    index: IndexMap<RunRef, RecordRef>,
}

// A drop that is written out is proved here alone.
impl Drop for Layer {
    fn drop(self) {
        let Layer { index: _ } = self;
    }
}

impl Model for Layer {
    ghost use Rattle.result_cache.specs.Kept.{records_of};
    ghost use Rattle.result_cache.specs.Table.{Records};

    ghost Value = { Records };

    ghost view = { λ l. records_of l.index.entries };
}

impl Layer {
    pub(crate) fn new(alloc: Global) -> Layer
        ensures { result ≡ [] }
    {
        Layer {
            index: IndexMap::new(alloc),
        }
    }

    pub(crate) fn len(&self) -> usize
        ensures { result ≡ length self.now }
    {
        self.index.len()
    }

    /// The record of a run.
    pub(crate) fn find(&self, run: &RunProbe<'_>) -> Option<&RecordRef>
        ensures { option_copied result ≡ found self.now run.now }
    {
        self.index.get(run)
    }

    /// The run at a place, in finishing order.
    pub(crate) fn at(&self, at: usize) -> Option<(&RunRef, &RecordRef)>
        ensures { option_map seen_finished result ≡ slice_get self.now at }
    {
        self.index.get_index(at)
    }

    /// Adds a run that is not there.
    pub(crate) fn push(&mut self, run: &RunRef, made: &RecordRef) -> Result<(), NoMemory>
        requires { found self.old run.now ≡ None }
        ensures { OnOk result
            (self.new ≡ self.old ++ record { run = run.now; made = made.now } ∷ []) }
    {
        self.index.insert(run.copy()?, made.copy()?)?;
        Ok(())
    }

    /// Adds all runs of a later layer.
    pub(crate) fn push_all(&mut self, more: &Layer) -> Result<(), NoMemory>
        requires { AreDistinct (runs_of (self.old ++ more.now)) }
        ensures { OnOk result (self.new ≡ self.old ++ more.now) }
    {
        self.index.reserve(more.len())?;
        for at in 0..more.len() {
            let Some((run, made)) = more.at(at) else {
                unreachable!()
            };
            self.push(run, made)?;
        }
        Ok(())
    }
}
