ghost use Rattle.std.specs.Prelude.{
  ◌≡◌,
  ◌<◌,
  [],
  ◌∷◌,
  length,
  reverse,
  slice_get,
  IfOk,
  OnOk,
  OnErr,
  Some,
  map,
  option_copied,
};
ghost use Rattle.std.specs.List.{list_any};
ghost use Rattle.msb_values.specs.Acts.{act_path};
ghost use Rattle.result_cache.specs.Journal.{acted, ended, end_of, has, add};
ghost use Rattle.msb_files.specs.Below.{has_file_below};
ghost use Rattle.msb_files.specs.Indices.{last_act};
ghost use Rattle.msb_files.specs.Seen.{entry_shown};
ghost use Rattle.msb_files.specs.Views.{acts_of, with_paths};

use crate::FileView;
use crate::entry::{Entry, JView};
use crate::layer::Layer;
use crate::layers::{entry_at, has_mark, is_any_below, last_act, with_new};
use crate::mark::Mark;
use crate::part::Part;
use msb_values::{Act, Copied, List, NoMemory, Shared, Text};
use result_cache::{RecordRef, RunRef};
use std::alloc::Global;
use std::collections::BTreeSet;
use std::marker::Model;

/// How many entries a settled journal may hold in front of its layers, where each copy of it copies
/// them.
const MOST: usize = 16;

/// What a request knows of what runs have done to files and of the runs that have ended. (MSBuild
/// targets; MSBuild task.)
///
/// A copy takes a time and room that grow with the logarithm of the number of entries, and shares
/// the rest. So does the time of a look for a run, which takes no memory; one for the last act on a
/// path, or for files below a folder, takes the square. All this is so of a settled journal: until
/// `settle`, a copy copies each entry that `take_runs` has put there, and a look for an act on a
/// path goes through them.
pub struct Journal {
    /// The newest entries, which no other journal shares.
    part: Part,
    /// The newest first.
    layers: List<Shared<Layer>>,
    count: usize,
}

// A drop that is written out is proved here alone.
impl Drop for Journal {
    fn drop(self) {
        let Journal {
            part: _,
            layers: _,
            count: _,
        } = self;
    }
}

impl Model for Journal {
    ghost use Rattle.std.specs.Prelude.{◌≡◌, ◌++◌, length};
    ghost use Rattle.result_cache.specs.Journal.{Journal};
    ghost use Rattle.msb_files.specs.Layers.{all_of};

    ghost Value = { Journal };

    ghost view = { λ j. j.part ++ all_of j.layers };

    ghost invariant = { λ j. j.count ≡ length (j.part ++ all_of j.layers) };
}

impl Journal {
    pub fn new(alloc: Global) -> Result<Journal, NoMemory>
        ensures { IfOk result (λ j. j ≡ []) }
    {
        Ok(Journal {
            part: Part::new(alloc),
            layers: List::new(alloc),
            count: 0,
        })
    }

    /// What a run has done to a path, with its place among the segments of the run's record; an act
    /// that is there by run and place is not taken again. Want of memory leaves the journal as it
    /// was. (Delete task.)
    pub fn add_act(
        &mut self,
        alloc: Global,
        run: &RunRef,
        number: u64,
        act: Act,
    ) -> Result<(), NoMemory>
        ensures ok { OnOk result (self.new ≡ add self.old (acted run.now number act)) }
        ensures err { OnErr result (self.new ≡ self.old) }
    {
        if self.has(&Mark::act_of(run, number)) {
            return Ok(());
        }
        self.enter(alloc, Entry::of_act(alloc, run.copy()?, number, act)?)
    }

    /// A run that has ended, with its record; a run that has ended before is not taken again. Want
    /// of memory leaves the journal as it was.
    pub fn add_end(
        &mut self,
        alloc: Global,
        run: &RunRef,
        run_record: RecordRef,
    ) -> Result<(), NoMemory>
        ensures ok { OnOk result (self.new ≡ add self.old (ended run.now run_record)) }
        ensures err { OnErr result (self.new ≡ self.old) }
    {
        if self.has_ended(run) {
            return Ok(());
        }
        self.enter(alloc, Entry::of_end(run.copy()?, run_record))
    }

    pub fn has_ended(&self, run: &RunRef) -> bool
        ensures { result ≡ has (end_of run.now) self.now }
    {
        self.has(&Mark::end_of(run))
    }

    /// How many entries there are.
    pub fn count(&self) -> usize
        ensures { result ≡ length self.now }
    {
        self.count
    }

    /// The entry at a place, from the oldest on.
    pub fn entry(&self, at: usize) -> JView<'_>
        requires { at < length self.now }
        ensures { slice_get (reverse self.now) at ≡ Some (entry_shown result) }
    {
        self.newest(self.count() - 1 - at).view()
    }

    /// The same entries, of which few stand in front of the layers, so that copies take little.
    /// Want of memory drops the journal, so a caller who needs it then copies it before. (MSBuild
    /// task.)
    pub fn settle(self, alloc: Global) -> Result<Journal, NoMemory>
        ensures { IfOk result (λ j. j ≡ self) }
    {
        if self.part.len() < MOST {
            return Ok(self);
        }
        let Journal {
            part,
            layers,
            count,
        } = self;
        let newest = Layer::of_part(alloc, part)?;
        let layers = with_new(alloc, layers.as_slice(), newest)?;
        Ok(Journal {
            part: Part::new(alloc),
            layers,
            count,
        })
    }
}

impl Journal {
    // The last act on a path.
    pub(crate) fn last_act(&self, path: &str) -> Option<&Act>
        ensures { option_copied result ≡ last_act self.now path.now }
    {
        match self.part.last_act(path) {
            Some(act) => Some(act),
            None => last_act(self.layers.as_slice(), path),
        }
    }

    // Whether there is an act on a path below a folder at which the view has a file.
    pub(crate) fn is_any_below(&self, view: &FileView<'_>, folder: &str) -> bool
        ensures { result ≡ list_any (λ act. has_file_below view.now folder.now (act_path act))
            (acts_of self.now) }
    {
        self.part.is_any_below(view, folder) || is_any_below(self.layers.as_slice(), view, folder)
    }

    // Puts the paths of all acts among others, in byte order.
    pub(crate) fn add_paths(&self, alloc: Global, all: &mut BTreeSet<Text>) -> Result<(), NoMemory>
        ensures { OnOk result
            (all.new.keys ≡ with_paths (map act_path (acts_of self.now)) all.old.keys) }
    {
        let count = self.count();
        for at in 0..count {
            if let Some(act) = self.newest(at).act() {
                all.insert(Text::of(alloc, act.get().path())?)?;
            }
        }
        Ok(())
    }

    // Whether there is an entry with this mark.
    fn has(&self, mark: &Mark<'_>) -> bool
        ensures { result ≡ has mark.now self.now }
    {
        self.part.has(mark) || has_mark(self.layers.as_slice(), mark)
    }

    // The entry at a place, from the newest on.
    pub(crate) fn newest(&self, at: usize) -> &Entry
        requires { at < length self.now }
        ensures { slice_get self.now at ≡ Some result.now }
    {
        let len = self.part.len();
        if at < len {
            return self.part.entry(at);
        }
        match entry_at(self.layers.as_slice(), at - len) {
            Some(entry) => entry,
            None => unreachable!(),
        }
    }

    // Puts an entry in front, unless there is one with its mark.
    pub(crate) fn add(&mut self, entry: Entry) -> Result<(), NoMemory>
        ensures ok { OnOk result (self.new ≡ add self.old entry) }
        ensures err { OnErr result (self.new ≡ self.old) }
    {
        if self.has(&entry.mark()) {
            return Ok(());
        }
        self.push(entry)
    }

    // Puts an entry in front.
    pub(crate) fn push(&mut self, entry: Entry) -> Result<(), NoMemory>
        ensures ok { OnOk result (self.new ≡ entry ∷ self.old) }
        ensures err { OnErr result (self.new ≡ self.old) }
    {
        let Some(count) = self.count.checked_add(1) else {
            return Err(NoMemory);
        };
        self.part.push(entry)?;
        self.count = count;
        Ok(())
    }

    // Puts an entry in front, where the entries in front of the layers stay few.
    fn enter(&mut self, alloc: Global, entry: Entry) -> Result<(), NoMemory>
        ensures ok { OnOk result (self.new ≡ entry ∷ self.old) }
        ensures err { OnErr result (self.new ≡ self.old) }
    {
        if self.part.len() < MOST {
            return self.push(entry);
        }
        let mut settled = self.copy()?.settle(alloc)?;
        settled.push(entry)?;
        *self = settled;
        Ok(())
    }
}

impl Copied for Journal {
    fn copy(&self) -> Result<Journal, NoMemory> {
        Ok(Journal {
            part: self.part.copy()?,
            layers: self.layers.copy()?,
            count: self.count,
        })
    }
}
