//! What the copies of a journal share.

ghost use Rattle.std.specs.Prelude.{◌≡◌, Some, IfOk, IsSome};
ghost use Rattle.msb_files.specs.Recorded.{act_at};

use msb_values::{Act, Copied, NoMemory, Shared};
use result_cache::{RecordRef, Segment};
use std::alloc::Global;
use std::marker::Model;

/// What a run has done to a path, which all journals that have it share, with the record of the run
/// where the run has ended.
pub(crate) struct ActRef {
    kept: KeptAct,
}

// A drop that is written out is proved here alone.
impl Drop for ActRef {
    fn drop(self) {
        let ActRef { kept: _ } = self;
    }
}

enum KeptAct {
    Own(Shared<Act>),
    /// The segment of this number in the record.
    Recorded(RecordRef, usize),
}

// A drop that is written out is proved here alone.
impl Drop for KeptAct {
    fn drop(self) {
        match self {
            KeptAct::Own(_) => {}
            KeptAct::Recorded(_, _) => {}
        }
    }
}

impl Model for ActRef {
    ghost use Rattle.msb_values.specs.declared.act.Act.{Act};
    ghost use Rattle.msb_files.specs.Kept.{act_kept, IsKept};

    ghost Value = { Act };

    ghost view = { λ a. act_kept a.kept };

    ghost invariant = { λ a. IsKept a.kept };
}

impl ActRef {
    pub(crate) fn new(alloc: Global, act: Act) -> Result<ActRef, NoMemory>
        ensures { IfOk result (λ a. a ≡ act) }
    {
        Ok(ActRef {
            kept: KeptAct::Own(Shared::new(alloc, act)?),
        })
    }

    /// The act of a segment of a record.
    pub(crate) fn of_record(run_record: &RecordRef, number: usize) -> Result<ActRef, NoMemory>
        requires { IsSome (act_at run_record.now number) }
        ensures { IfOk result (λ a. act_at run_record.now number ≡ Some a) }
    {
        Ok(ActRef {
            kept: KeptAct::Recorded(run_record.copy()?, number),
        })
    }

    pub(crate) fn get(&self) -> &Act
        ensures { result.now ≡ self.now }
    {
        match &self.kept {
            KeptAct::Own(act) => act.get(),
            KeptAct::Recorded(record, number) => match &record.get().segments.as_slice()[*number] {
                Segment::File(act) => act,
                Segment::Call(_, _) => unreachable!(),
            },
        }
    }
}

impl Copied for ActRef {
    fn copy(&self) -> Result<ActRef, NoMemory> {
        let kept = match &self.kept {
            KeptAct::Own(act) => KeptAct::Own(act.copy()?),
            KeptAct::Recorded(record, number) => KeptAct::Recorded(record.copy()?, *number),
        };
        Ok(ActRef { kept })
    }
}
