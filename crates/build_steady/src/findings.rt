ghost use Rattle.std.specs.Prelude.{◌≡◌, ◌++◌, ◌∷◌, List, [], IfOk, OnOk, OnErr, Some};
ghost use Rattle.result_cache.specs.declared.run.RunId.{RunId};
ghost use Rattle.result_cache.specs.Table.{found};
ghost use Rattle.build_scheduler.specs.Instances.{with_instance};
ghost use Rattle.build_steady.specs.Findings.{Shows, Tells, AreUnlessSaid, with_record};
ghost use Rattle.build_steady.specs.Order.{DemandEvent, is_reached, body_begins, body_ends};
ghost use Rattle.build_steady.specs.Verdicts.{if_differs};

use crate::Verdict;
use indexmap::IndexSet;
use msb_values::{Copied, InstanceKey, NoMemory};
use result_cache::{Found, RecordRef, RunId, Table};
use std::alloc::Global;

/// What a check has found so far: the record of each run, the instances, and how many bodies there
/// are.
pub struct Findings {
    pub(crate) records: Table,
    pub(crate) instances: IndexSet<InstanceKey>,
    pub(crate) bodies: u32,
}

// A drop that is written out is proved here alone.
impl Drop for Findings {
    fn drop(self) {
        let Findings {
            records: _,
            instances: _,
            bodies: _,
        } = self;
    }
}

/// A build has no more instances than this.
const MOST_INSTANCES: usize = 4096;

/// A check makes no more bodies than this.
const MOST_BODIES: u32 = 100_000;

impl Findings {
    pub(crate) fn new(alloc: Global) -> Findings
        ensures shows { Shows result [] }
        ensures records { result.records.finished ≡ [] }
    {
        Findings {
            records: Table::new(alloc),
            instances: IndexSet::new(alloc),
            bodies: 0,
        }
    }

    /// A request for this instance is reached.
    pub(crate) fn reach(&mut self, instance: &InstanceKey) -> Result<Option<Verdict>, NoMemory>
        ensures told { (before : List DemandEvent) → Shows self.old before →
            IfOk result (Tells before (is_reached instance.now) self.new) }
        ensures records { self.new.records ≡ self.old.records }
    {
        insert(&mut self.instances, instance)?;
        if self.instances.len() > MOST_INSTANCES {
            return Ok(Some(Verdict::TooMany(instance.copy()?)));
        }
        Ok(None)
    }

    /// The body of a run begins.
    pub(crate) fn begin(&mut self) -> Option<Verdict>
        ensures told { (before : List DemandEvent) (run : RunId) → Shows self.old before →
            Tells before (body_begins run) self.new result }
        ensures records { self.new.records ≡ self.old.records }
    {
        if self.bodies >= MOST_BODIES {
            return Some(Verdict::Spent(MOST_BODIES));
        }
        self.bodies += 1;
        None
    }

    /// The body of a run ends with this record.
    pub(crate) fn end(
        &mut self,
        run: &RunId,
        run_record: RecordRef,
    ) -> Result<Option<Verdict>, NoMemory>
        requires unbegun { self.old.records.begun ≡ [] }
        ensures told { (before : List DemandEvent) → Shows self.old before →
            IfOk result (Tells before (body_ends run.now run_record) self.new) }
        ensures records { IfOk result (AreUnlessSaid self.new.records.finished
            (with_record (found self.old.records.finished run.now) run.now run_record
            self.old.records.finished)) }
    {
        match self.records.find(run) {
            Found::Done(first) => differs(run, first, run_record),
            Found::Absent => {
                self.records.begin(run, 0)?;
                self.records.finish(run, run_record);
                Ok(None)
            }
            Found::Begun(_) => unreachable!(),
        }
    }
}

fn insert(instances: &mut IndexSet<InstanceKey>, instance: &InstanceKey) -> Result<(), NoMemory>
    ensures { OnOk result (instances.new.keys ≡ with_instance instances.old.keys instance.now) }
{
    instances.insert(instance.copy()?)?;
    Ok(())
}

/// What is said of a body whose run has ended with this first record.
fn differs(
    run: &RunId,
    first: &RecordRef,
    run_record: RecordRef,
) -> Result<Option<Verdict>, NoMemory>
    ensures { IfOk result (λ said. said ≡ if_differs (Some first.now) run.now run_record) }
{
    if first.get() == run_record.get() {
        return Ok(None);
    }
    Ok(Some(Verdict::Differs(run.copy()?, first.copy()?, run_record)))
}
