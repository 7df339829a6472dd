ghost use Rattle.std.specs.Prelude.{◌≡◌, ◌+◌, ◌<◌, ◌^◌, true, Some, Result, Err, IfOk};
ghost use Rattle.msb_values.specs.Keys.{key_of};
ghost use Rattle.task_trait.specs.Tools.{act_size};
ghost use Rattle.task_trait.specs.declared.failures.Failure.TheVariants.{TooLarge, Memory};
ghost use Rattle.task_trait.specs.declared.failures.Failure.{Failure};
ghost use Rattle.task_kit.specs.declared.progress.TaskProgress.{TaskProgress};
ghost use Rattle.task_kit.specs.Progress.{
  Acts,
  Makes,
  fits,
  has_room,
  made_in,
  output_with,
  started,
  succeeded,
  with_act,
  with_file,
};

use msb_values::{Act, Item, List, Name, NoMemory, Put, Text};
use std::alloc::Global;
use task_trait::{Failure, Param, TaskOutput};

/// The bytes of the largest file that a task may write.
const FILE_LIMIT: u64 = 16_777_216;

/// The bytes that one run may write.
const RUN_LIMIT: u64 = 67_108_864;

/// What a task has done so far.
pub(crate) struct TaskProgress {
    /// The bytes that the run has written, with what it wrote before this task.
    pub(crate) written: u64,
    /// The files that it has written and removed, in order.
    pub(crate) acts: List<Act>,
    /// The items that the task gives.
    pub(crate) items: List<Item>,
}

// A drop that is written out is proved here alone.
impl Drop for TaskProgress {
    fn drop(self) {
        let TaskProgress {
            written: _,
            acts: _,
            items: _,
        } = self;
    }
}

impl TaskProgress {
    /// Nothing yet, in a run that has written this much before.
    pub(crate) fn new(alloc: Global, written: u64) -> TaskProgress
        ensures { result ≡ started written }
    {
        TaskProgress {
            written,
            acts: List::new(alloc),
            items: List::new(alloc),
        }
    }

    fn into_acts(self) -> List<Act>
        ensures { result ≡ self.acts }
    {
        let TaskProgress {
            written: _,
            acts,
            items: _,
        } = self;
        acts
    }

    /// Writes a file, unless it is too large; `text` is its path as the task was handed it.
    pub(crate) fn write(&mut self, alloc: Global, text: &str, put: Put) -> Result<(), Failure>
        ensures { Acts result self.old self.new (with_file text.now put self.old) }
    {
        self.act(alloc, text, Act::Write(put))
    }

    /// Writes a file, unless it is too large, or removes one; `text` is its path as the task was
    /// handed it.
    pub(crate) fn act(&mut self, alloc: Global, text: &str, act: Act) -> Result<(), Failure>
        ensures { Acts result self.old self.new (with_act text.now act self.old) }
    {
        if !fits(&act, self.written) {
            return Err(Failure::TooLarge(Text::of(alloc, text)?));
        }
        let size = act_size(&act);
        self.acts.push(act)?;
        self.written += size;
        Ok(())
    }
}

/// Whether an act writes no more than it may; a removal always does.
fn fits(act: &Act, written: u64) -> bool
    ensures room { result ≡ fits act.now written }
    ensures small { result ≡ true → written + act_size act.now < 2 ^ 64 }
{
    match act {
        Act::Write(put) => has_room(written, put.bytes.get().len() as u64),
        Act::Remove(_) => true,
    }
}

/// The bytes that an act writes.
fn act_size(act: &Act) -> u64
    ensures { result ≡ act_size act.now }
{
    match act {
        Act::Write(put) => put.bytes.get().len() as u64,
        Act::Remove(_) => 0,
    }
}

fn has_room(written: u64, size: u64) -> bool
    ensures room { result ≡ has_room written size }
    ensures fits { result ≡ true → written + size < 2 ^ 64 }
{
    size <= FILE_LIMIT && written <= RUN_LIMIT - size
}

/// An output of this name, which is in lower case.
pub(crate) fn output(
    alloc: Global,
    name: &'static str,
    items: List<Item>,
) -> Result<Param, NoMemory>
    requires { key_of name.now ≡ Some name.now }
    ensures { IfOk result (λ param. param ≡ record { name = name.now; items = items }) }
{
    match Name::look_up(alloc, name)? {
        Some(name) => Ok(Param { name, items }),
        None => unreachable!(),
    }
}

/// The output of a task that does what it is to do.
pub(crate) fn success(alloc: Global, outputs: List<Param>) -> TaskOutput
    ensures { result ≡ succeeded outputs }
{
    TaskOutput {
        ok: true,
        outputs,
        acts: List::new(alloc),
        notes: List::new(alloc),
    }
}

/// An output with what was done to files; where the work has failed the task fails, with its note
/// behind the others.
pub(crate) fn output_with(
    alloc: Global,
    task: &str,
    output: TaskOutput,
    progress: TaskProgress,
    work: Result<(), Failure>,
) -> Result<TaskOutput, NoMemory>
    ensures output { IfOk result (λ whole. (answer : Result TaskProgress (TaskProgress × Failure))
        → Makes work progress answer → whole ≡ output_with task.now output answer) }
    ensures progress { IfOk result (λ _. (answer : Result TaskProgress (TaskProgress × Failure))
        → Makes work progress answer → made_in answer ≡ progress) }
{
    match work {
        Ok(()) => Ok(TaskOutput {
            ok: output.ok,
            outputs: output.outputs,
            acts: progress.into_acts(),
            notes: output.notes,
        }),
        Err(failure) => failed_output(alloc, task, output, progress, &failure),
    }
}

fn failed_output(
    alloc: Global,
    task: &str,
    output: TaskOutput,
    progress: TaskProgress,
    failure: &Failure,
) -> Result<TaskOutput, NoMemory>
    ensures told { IfOk result (λ _. failure.now ≡ Memory → ⊥) }
    ensures output { IfOk result (λ whole. whole
        ≡ output_with task.now output (Err (progress, failure.now))) }
{
    let mut notes = output.notes;
    notes.push(failure.note(alloc, task)?)?;
    Ok(TaskOutput {
        ok: false,
        outputs: output.outputs,
        acts: progress.into_acts(),
        notes,
    })
}
