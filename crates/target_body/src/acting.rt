//! Files that a run writes and removes. (MSBuild tasks; Delete task.)

ghost use Rattle.std.specs.Prelude.{◌≡◌, ◌+◌, ◌++◌, ◌∷◌, [], ℕ, List, length, OnOk};
ghost use Rattle.result_cache.specs.Journal.{acted, add};
ghost use Rattle.result_cache.specs.declared.record.Segment.TheVariants.{File};
ghost use Rattle.task_trait.specs.Tools.{act_size};
ghost use Rattle.task_trait.specs.declared.tools.ToolAnswer.{ToolAnswer};
ghost use Rattle.task_trait.specs.declared.tools.ToolInput.{ToolInput};
ghost use Rattle.target_body.specs.Answers.{all_acted};
ghost use Rattle.target_body.specs.Moments.{done_at, moment, player, state_at};
ghost use Rattle.target_body.specs.Played.{over, played};

use crate::state::State;
use msb_files::Journal;
use msb_values::{Act, Copied, NoMemory};
use result_cache::{RunRef, Segment};
use std::alloc::Global;

impl State {
    /// Does these acts in order.
    pub(crate) fn act_all(
        &mut self,
        alloc: Global,
        run: &RunRef,
        acts: Vec<Act>,
        journal: &mut Journal,
    ) -> Result<(), NoMemory>
        ensures { OnOk result
            ((answer : List ℕ → ToolInput → ToolAnswer) (tools : List (List ℕ × ToolInput)) →
            let before = moment self.old journal.old tools in
            let after = moment self.new journal.new tools in
            played (player run.now answer) (all_acted acts.items (state_at before)) (done_at before)
            ≡ over (state_at after) (done_at after)) }
    {
        for act in acts {
            self.act(alloc, run, act, journal)?;
        }
        Ok(())
    }

    fn act(
        &mut self,
        alloc: Global,
        run: &RunRef,
        act: Act,
        journal: &mut Journal,
    ) -> Result<(), NoMemory>
        ensures state { OnOk result (self.new ≡ record self.old {
          written = self.old.written + act_size act;
          segments = self.old.segments ++ File act ∷ [];
        }) }
        ensures journal { OnOk result (journal.new ≡
            add journal.old (acted run.now (length self.old.segments) act)) }
    {
        let Some(written) = self.written.checked_add(size_of(&act)) else {
            return Err(NoMemory);
        };
        let number = self.segments.len() as u64;
        journal.add_act(alloc, run, number, act.copy()?)?;
        self.segments.push(Segment::File(act))?;
        self.written = written;
        Ok(())
    }
}

// The number of bytes that an act writes.
fn size_of(act: &Act) -> u64
    ensures { result ≡ act_size act.now }
{
    match act {
        Act::Write(put) => put.bytes.get().len() as u64,
        Act::Remove(_) => 0,
    }
}
