ghost use Rattle.std.specs.Prelude.{◌≡◌, Some, OnOk, OnErr, IsSome, false, map};
ghost use Rattle.result_cache.specs.Journal.{end_of, has};
ghost use Rattle.result_cache.specs.Replay.{effects_of, replay, replay_all, replays, replays_run};
ghost use Rattle.msb_files.specs.Before.{before};

use crate::Journal;
use crate::entry::Entry;
use msb_values::{Copied, NoMemory};
use result_cache::{Found, RecordRef, RunRef, Segment, Table};
use std::alloc::Global;

impl Journal {
    /// Uses the record of a run: puts what the journal lacks of it behind the entries, in the
    /// record's order, with what it lacks of the records of the runs that its calls made or used,
    /// and then the run's end. A run that has ended in the journal adds nothing. Every record that
    /// is taken has to be in the table before the one that calls for it. Want of memory leaves the
    /// journal as it was. (MSBuild task.)
    pub fn replay(&mut self, alloc: Global, table: &Table, run: &RunRef) -> Result<(), NoMemory>
        requires { IsSome (replay table.now.finished run.now self.old) }
        ensures ok { OnOk result (replay table.now.finished run.now self.old ≡ Some self.new) }
        ensures err { OnErr result (self.new ≡ self.old) }
    {
        if self.has_ended(run) {
            return Ok(());
        }
        let mut grown = self.copy()?;
        take_run(&mut grown, table, run)?;
        *self = grown.settle(alloc)?;
        Ok(())
    }

    /// Uses the records of runs, in order and in place, as `replay` uses that of each; a journal
    /// that is copied later is settled first. Want of memory leaves a journal of which nothing is
    /// promised: some of the new entries may be there, and those of a run without its end. A caller
    /// who wants the old journal copies it before. (MSBuild task.)
    pub fn take_runs(&mut self, table: &Table, runs: &[RunRef]) -> Result<(), NoMemory>
        requires { IsSome (replay_all table.now.finished runs.now self.old) }
        ensures { OnOk result (replay_all table.now.finished runs.now self.old ≡ Some self.new) }
    {
        for run in runs {
            if !self.has_ended(run) {
                take_run(self, table, run)?;
            }
        }
        Ok(())
    }
}

// Where there is no memory, these put in some of the entries.

#[cycle(replaying)]
fn take_run(journal: &mut Journal, table: &Table, run: &RunRef) -> Result<(), NoMemory>
    requires goes_on { has (end_of run.now) journal.old ≡ false }
    requires defined { IsSome (replay table.now.finished run.now journal.old) }
    ensures { OnOk result (replay table.now.finished run.now journal.old ≡ Some journal.new) }
{
    table.each_once();
    match table.find_ref(run) {
        Found::Done(record) => {
            take_record(journal, table, run, record)?;
            // The records before that of a run don't end the run, so its end is not there yet.
            journal.push(Entry::of_end(run.copy()?, record.copy()?))
        }
        Found::Absent | Found::Begun(_) => unreachable!(),
    }
}

#[cycle(replaying)]
fn take_record(
    journal: &mut Journal,
    table: &Table,
    run: &RunRef,
    run_record: &RecordRef,
) -> Result<(), NoMemory>
    requires { IsSome
        (replays (replay (before run.now table.now.finished)) (effects_of run.now run_record.now)
        journal.old) }
    ensures { OnOk result
        (replays (replay (before run.now table.now.finished)) (effects_of run.now run_record.now)
        journal.old ≡ Some journal.new) }
{
    for (number, segment) in run_record.get().segments.as_slice().iter().enumerate() {
        match segment {
            Segment::File(_) => journal.add(Entry::of_record(run, run_record, number)?)?,
            Segment::Call(_, runs) => take_called(journal, table, run, runs.as_slice())?,
        }
    }
    Ok(())
}

// The runs of a call that the outer run has made, of which each stands in the table before it.
#[cycle(replaying)]
fn take_called(
    journal: &mut Journal,
    table: &Table,
    outer: &RunRef,
    runs: &[RunRef],
) -> Result<(), NoMemory>
    requires { IsSome
        (replays (replay (before outer.now table.now.finished)) (map replays_run runs.now)
        journal.old) }
    ensures { OnOk result
        (replays (replay (before outer.now table.now.finished)) (map replays_run runs.now)
        journal.old ≡ Some journal.new) }
{
    table.each_once();
    for run in runs {
        if !journal.has_ended(run) {
            take_run(journal, table, run)?;
        }
    }
    Ok(())
}
