ghost use Rattle.std.specs.Prelude.{◌≡◌, [], ◌∷◌, IfOk, IfSome, IsSome, option_copied};
ghost use Rattle.std.specs.List.{list_any};
ghost use Rattle.msb_values.specs.Acts.{act_path};
ghost use Rattle.result_cache.specs.Journal.{acted, ended, mark};
ghost use Rattle.msb_files.specs.Below.{has_file_below};
ghost use Rattle.msb_files.specs.Indices.{last_act};
ghost use Rattle.msb_files.specs.Places.{path_in};
ghost use Rattle.msb_files.specs.Recorded.{act_at};
ghost use Rattle.msb_files.specs.Seen.{entry_shown, act_in};
ghost use Rattle.msb_files.specs.Views.{acts_of};

use crate::FileView;
use crate::mark::{KeptMark, Mark};
use crate::shared::ActRef;
use file_store::is_below;
use msb_values::{Act, Copied, NoMemory};
use result_cache::{Record, RecordRef, RunId, RunRef};
use std::alloc::Global;
use std::marker::Model;

/// An entry of a journal, as a report reads it: a file that a run has written, with its place among
/// the segments of the run's record, its path and its bytes; a file that a run has removed, with
/// its place and its path; or a run that has ended, with its record. (Delete task.)
pub enum JView<'a> {
    Wrote(&'a RunId, u64, &'a str, &'a [u8]),
    Removed(&'a RunId, u64, &'a str),
    Ended(&'a RunId, &'a Record),
}

/// An entry of a journal. Its copies share the run, the act and the record.
pub(crate) struct Entry {
    kept: JEntry,
}

// A drop that is written out is proved here alone.
impl Drop for Entry {
    fn drop(self) {
        let Entry { kept: _ } = self;
    }
}

enum JEntry {
    Acted(RunRef, u64, ActRef),
    Ended(RunRef, RecordRef),
}

// A drop that is written out is proved here alone.
impl Drop for JEntry {
    fn drop(self) {
        match self {
            JEntry::Acted(_, _, _) => {}
            JEntry::Ended(_, _) => {}
        }
    }
}

impl Model for Entry {
    ghost use Rattle.result_cache.specs.Journal.{Entry};
    ghost use Rattle.msb_files.specs.Entries.{entry_of};

    ghost Value = { Entry };

    ghost view = { λ e. entry_of e.kept };
}

impl Entry {
    pub(crate) fn of_act(
        alloc: Global,
        run: RunRef,
        number: u64,
        act: Act,
    ) -> Result<Entry, NoMemory>
        ensures { IfOk result (λ e. e ≡ acted run number act) }
    {
        let act = ActRef::new(alloc, act)?;
        Ok(Entry {
            kept: JEntry::Acted(run, number, act),
        })
    }

    /// The act of a segment of a run's record.
    pub(crate) fn of_record(
        run: &RunRef,
        run_record: &RecordRef,
        number: usize,
    ) -> Result<Entry, NoMemory>
        requires { IsSome (act_at run_record.now number) }
        ensures { IfOk result
            (λ e. IfSome (act_at run_record.now number) (λ act. e ≡ acted run.now number act)) }
    {
        let run = run.copy()?;
        let act = ActRef::of_record(run_record, number)?;
        Ok(Entry {
            kept: JEntry::Acted(run, number as u64, act),
        })
    }

    pub(crate) fn of_end(run: RunRef, run_record: RecordRef) -> Entry
        ensures { result ≡ ended run run_record }
    {
        Entry {
            kept: JEntry::Ended(run, run_record),
        }
    }

    /// The act, if it is that of one.
    pub(crate) fn act(&self) -> Option<&ActRef>
        ensures { option_copied result ≡ act_in self.now }
    {
        match &self.kept {
            JEntry::Acted(_, _, act) => Some(act),
            JEntry::Ended(_, _) => None,
        }
    }

    /// The path of the act, or none where it is that of no act.
    pub(crate) fn path(&self) -> &str
        ensures { result.now ≡ path_in self.now }
    {
        match &self.kept {
            JEntry::Acted(_, _, act) => act.get().path(),
            JEntry::Ended(_, _) => "",
        }
    }

    /// The act, if it is one on this path.
    pub(crate) fn act_on(&self, path: &str) -> Option<&Act>
        ensures { option_copied result ≡ last_act (self.now ∷ []) path.now }
    {
        let act = self.act()?.get();
        if act.path() == path {
            return Some(act);
        }
        None
    }

    /// Whether it is an act on a path below a folder at which the view has a file.
    pub(crate) fn is_below(&self, view: &FileView<'_>, folder: &str) -> bool
        ensures { result ≡ list_any (λ act. has_file_below view.now folder.now (act_path act))
            (acts_of (self.now ∷ [])) }
    {
        match self.act() {
            Some(act) => {
                let path = act.get().path();
                is_below(path, folder) && view.content(path).is_some()
            }
            None => false,
        }
    }

    pub(crate) fn mark(&self) -> Mark<'_>
        ensures { result ≡ mark self.now }
    {
        match &self.kept {
            JEntry::Acted(run, number, _) => Mark::act_of(run, *number),
            JEntry::Ended(run, _) => Mark::end_of(run),
        }
    }

    /// The mark, as an index keeps it.
    pub(crate) fn kept_mark(&self) -> Result<KeptMark, NoMemory>
        ensures { IfOk result (λ kept. kept ≡ mark self.now) }
    {
        match &self.kept {
            JEntry::Acted(run, number, _) => Ok(KeptMark {
                run: run.copy()?,
                number: Some(*number),
            }),
            JEntry::Ended(run, _) => Ok(KeptMark {
                run: run.copy()?,
                number: None,
            }),
        }
    }

    pub(crate) fn view(&self) -> JView<'_>
        ensures { entry_shown result ≡ self.now }
    {
        match &self.kept {
            JEntry::Acted(run, number, act) => match act.get() {
                Act::Write(put) => {
                    let bytes = put.bytes.get().as_bytes();
                    JView::Wrote(run.get(), *number, put.path.as_str(), bytes)
                }
                Act::Remove(path) => JView::Removed(run.get(), *number, path.as_str()),
            },
            JEntry::Ended(run, record) => JView::Ended(run.get(), record.get()),
        }
    }
}

impl Copied for Entry {
    fn copy(&self) -> Result<Entry, NoMemory> {
        let kept = match &self.kept {
            JEntry::Acted(run, number, act) => JEntry::Acted(run.copy()?, *number, act.copy()?),
            JEntry::Ended(run, record) => JEntry::Ended(run.copy()?, record.copy()?),
        };
        Ok(Entry { kept })
    }
}
