ghost use Rattle.std.specs.Prelude.{◌≡◌, ◌++◌, ◌∷◌, [], None, IfOk, OnOk, unwrap_or};
ghost use Rattle.msb_values.specs.Pairs.{all_put};
ghost use Rattle.msb_values.specs.declared.cause.Cause.TheVariants.{Memory};
ghost use Rattle.msb_values.specs.declared.note.Note.TheVariants.{Fail};
ghost use Rattle.build_meaning.specs.SoFar.{called};
ghost use Rattle.build_world.specs.Faults.{fault_text};
ghost use Rattle.result_cache.specs.Journal.{Journal};
ghost use Rattle.target_texts.specs.Answered.{Pushes};
ghost use Rattle.target_texts.specs.Made.{Made};
ghost use Rattle.target_body.specs.Seen.{call_segment, ended, seen_state};
ghost use Rattle.target_body.specs.States.{begun, settled, taken};

use crate::scopes::apply_to_own;
use crate::steps::Ending;
use build_world::EvalFault;
use msb_expand::Bucket;
use msb_items::KeyedItems;
use msb_values::{Cause, Change, Copied, List, Lists, NoMemory, Note, Scope};
use result_cache::{Decision, RequestKey, RequestResult, Segment};
use std::alloc::Global;
use std::mem;

/// What a run has come to, besides the journal of files. (Target element.)
pub(crate) struct State {
    /// The scope of the bucket at hand.
    pub(crate) scope: Scope,
    /// The scope that its tasks see, where they run on a part of a list.
    pub(crate) task_scope: Option<Scope>,
    /// The changes of the task element at hand, which the scopes have not yet.
    pub(crate) unseen: List<Change>,
    /// How many bytes the run itself has written.
    pub(crate) written: u64,
    pub(crate) decisions: List<Decision>,
    /// The items that are returned.
    pub(crate) items: KeyedItems,
    pub(crate) changes: List<Change>,
    pub(crate) notes: List<Note>,
    /// The run's own acts on files and its calls, in order.
    pub(crate) segments: List<Segment>,
}

// A drop that is written out is proved here alone.
impl Drop for State {
    fn drop(self) {
        let State {
            scope: _,
            task_scope: _,
            unseen: _,
            written: _,
            decisions: _,
            items: _,
            changes: _,
            notes: _,
            segments: _,
        } = self;
    }
}

// After want of memory nothing is claimed of a state.
impl State {
    /// At the beginning of a run.
    pub(crate) fn new(alloc: Global, scope: Scope) -> State
        ensures state { (journal : Journal) → seen_state result journal ≡ begun scope journal }
        ensures segments { result.segments ≡ [] }
    {
        State {
            scope,
            task_scope: None,
            unseen: List::new(alloc),
            written: 0,
            decisions: List::new(alloc),
            items: KeyedItems::new(alloc),
            changes: List::new(alloc),
            notes: List::new(alloc),
            segments: List::new(alloc),
        }
    }

    /// A bucket begins: it sees of the batched lists only its own items, in the scope as the target
    /// found it. (MSBuild batching.)
    pub(crate) fn enter(
        &mut self,
        alloc: Global,
        found: &Scope,
        bucket: &Bucket,
    ) -> Result<(), NoMemory>
        ensures { OnOk result
            (self.new
            ≡ record self.old {
              scope = record found.now { items = all_put found.now.items bucket.now.lists };
              task_scope =
                  None;
              unseen = [];
            }) }
    {
        let mut scope = found.copy()?;
        put_lists(&mut scope.items, &bucket.lists)?;
        self.scope = scope;
        self.task_scope = None;
        self.unseen = List::new(alloc);
        Ok(())
    }

    /// The scope that the tasks of the bucket see.
    pub(crate) fn task_scope(&self) -> &Scope
        ensures { result.now ≡ unwrap_or self.entry.now.task_scope self.entry.now.scope }
    {
        match &self.task_scope {
            Some(own) => own,
            None => &self.scope,
        }
    }

    /// Changes of the task element at hand, which stay out of the scopes until it is over.
    pub(crate) fn add_changes(&mut self, more: List<Change>) -> Result<(), NoMemory>
        ensures { OnOk result
            (self.new
            ≡ record self.old
            { unseen = self.old.unseen ++ more; changes = self.old.changes ++ more }) }
    {
        self.unseen.append(more.copy()?)?;
        self.changes.append(more)
    }

    pub(crate) fn add_notes(&mut self, notes: List<Note>) -> Result<(), NoMemory>
        ensures { OnOk result (self.new ≡ record self.old { notes = self.old.notes ++ notes }) }
    {
        self.notes.append(notes)
    }

    pub(crate) fn add_decision(&mut self, decision: Decision) -> Result<(), NoMemory>
        ensures { OnOk result
            (self.new ≡ record self.old { decisions = self.old.decisions ++ decision ∷ [] }) }
    {
        self.decisions.push(decision)
    }

    /// The calls that have been made, with the runs of their results.
    pub(crate) fn add_calls(
        &mut self,
        keys: &[RequestKey],
        results: &[RequestResult],
    ) -> Result<(), NoMemory>
        ensures { OnOk result
            (self.new
            ≡ record self.old { segments = self.old.segments ++ called keys.now results.now }) }
    {
        push_calls(&mut self.segments, keys, results)
    }

    /// A fault is noted as an error; one that is want of memory is no fault.
    pub(crate) fn note_fault(&mut self, alloc: Global, fault: &EvalFault) -> Result<(), NoMemory>
        ensures noted { OnOk result (self.new
            ≡ record self.old { notes = self.old.notes ++ Fail (fault_text fault.now) ∷ [] }) }
        ensures cause { OnOk result (fault.now.cause ≡ Memory → ⊥) }
    {
        match &fault.cause {
            Cause::Memory => Err(NoMemory),
            _ => self.notes.push(Note::Fail(fault.to_text(alloc)?)),
        }
    }

    /// What was made is kept, also up to a fault, which is noted and stops the run.
    pub(crate) fn take(
        &mut self,
        alloc: Global,
        more: List<Change>,
        end: Result<(), EvalFault>,
    ) -> Result<Ending, NoMemory>
        ensures taken { IfOk result (λ ending. (journal : Journal) (all : Made)
            → Pushes end [] more all → ended ending (seen_state self.new journal)
            ≡ taken all (seen_state self.old journal)) }
        ensures kept { OnOk result (self.new.segments ≡ self.old.segments) }
    {
        self.add_changes(more)?;
        match end {
            Ok(()) => Ok(Ending::Fine),
            Err(fault) => {
                self.note_fault(alloc, &fault)?;
                Ok(Ending::Faulted)
            }
        }
    }

    /// The child at hand is over: the scopes get its changes.
    pub(crate) fn settle(&mut self, alloc: Global) -> Result<(), NoMemory>
        ensures settled { OnOk result ((journal : Journal)
            → seen_state self.new journal ≡ settled (seen_state self.old journal)) }
        ensures kept { OnOk result (self.new.segments ≡ self.old.segments) }
    {
        let unseen = mem::replace(&mut self.unseen, List::new(alloc));
        apply_to_own(alloc, &mut self.task_scope, unseen.as_slice())?;
        self.scope.apply_all(alloc, unseen.as_slice())
    }

    /// What its record says.
    pub(crate) fn parts(self) -> Parts
        ensures decisions { result.0 ≡ self.decisions }
        ensures items { result.1 ≡ self.items }
        ensures changes { result.2 ≡ self.changes }
        ensures notes { result.3 ≡ self.notes }
        ensures segments { result.4 ≡ self.segments }
    {
        let State {
            scope: _,
            task_scope: _,
            unseen: _,
            written: _,
            decisions,
            items,
            changes,
            notes,
            segments,
        } = self;
        (decisions, items, changes, notes, segments)
    }

    // A copy of the tasks' own scope, where they have one.
    fn copy_task_scope(&self) -> Result<Option<Scope>, NoMemory>
        ensures { IfOk result (λ copy. copy ≡ self.now.task_scope) }
    {
        match &self.task_scope {
            Some(own) => Ok(Some(own.copy()?)),
            None => Ok(None),
        }
    }

    // Copies of what was decided, and of the items and the changes.
    fn copy_results(&self) -> Result<(List<Decision>, KeyedItems, List<Change>), NoMemory>
        ensures decisions { IfOk result (λ copies. copies.0 ≡ self.now.decisions) }
        ensures items { IfOk result (λ copies. copies.1 ≡ self.now.items) }
        ensures changes { IfOk result (λ copies. copies.2 ≡ self.now.changes) }
    {
        let decisions = self.decisions.copy()?;
        let items = self.items.copy()?;
        Ok((decisions, items, self.changes.copy()?))
    }

    // Copies of the changes that the scope has not yet, of the notes and of the segments.
    fn copy_lists(&self) -> Result<(List<Change>, List<Note>, List<Segment>), NoMemory>
        ensures unseen { IfOk result (λ copies. copies.0 ≡ self.now.unseen) }
        ensures notes { IfOk result (λ copies. copies.1 ≡ self.now.notes) }
        ensures segments { IfOk result (λ copies. copies.2 ≡ self.now.segments) }
    {
        let unseen = self.unseen.copy()?;
        let notes = self.notes.copy()?;
        Ok((unseen, notes, self.segments.copy()?))
    }
}

/// What was decided of each bucket, the items, the changes, the notes and the segments of a run.
pub(crate) type Parts = (
    List<Decision>,
    KeyedItems,
    List<Change>,
    List<Note>,
    List<Segment>,
);

fn push_calls(
    segments: &mut List<Segment>,
    keys: &[RequestKey],
    results: &[RequestResult],
) -> Result<(), NoMemory>
    ensures { OnOk result (segments.new ≡ segments.old ++ called keys.now results.now) }
{
    for (key, given) in keys.iter().zip(results) {
        push_call(segments, key, given)?;
    }
    Ok(())
}

fn push_call(
    segments: &mut List<Segment>,
    key: &RequestKey,
    given: &RequestResult,
) -> Result<(), NoMemory>
    ensures { OnOk result (segments.new ≡ segments.old ++ call_segment (key.now, given.now)) }
{
    segments.push(Segment::Call(key.copy()?, given.runs.copy()?))
}

// Puts lists into others, in place of those of the same types.
fn put_lists(lists: &mut Lists, more: &Lists) -> Result<(), NoMemory>
    ensures { OnOk result (lists.new ≡ all_put lists.old more.now) }
{
    for (kind, items) in more.iter() {
        lists.insert(kind.copy()?, items.copy()?)?;
    }
    Ok(())
}

impl Copied for State {
    fn copy(&self) -> Result<State, NoMemory> {
        let (decisions, items, changes) = self.copy_results()?;
        let (unseen, notes, segments) = self.copy_lists()?;
        let task_scope = self.copy_task_scope()?;
        Ok(State {
            scope: self.scope.copy()?,
            task_scope,
            unseen,
            written: self.written,
            decisions,
            items,
            changes,
            notes,
            segments,
        })
    }
}
