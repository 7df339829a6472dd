ghost use Rattle.std.specs.Prelude.{◌≡◌, IfOk, true};
ghost use Rattle.build_world.specs.Elements.{seen_element};
ghost use Rattle.element_texts.specs.Contexts.{in_bucket};
ghost use Rattle.target_texts.specs.Answered.{Pushes};
ghost use Rattle.target_texts.specs.Inferred.{inference, inference_if, inferred_at, task_of};
ghost use Rattle.target_texts.specs.Made.{up_to_fault};
ghost use Rattle.target_texts.specs.Seen.{seen_context};

use crate::on_error::OnError;
use crate::outputs::push_outputs;
use crate::parameters::TaskElement;
use build_world::{EvalFault, PlacedElement};
use element_texts::ElementContext;
use msb_expand::Bucket;
use msb_files::FileView;
use msb_values::{Change, List, NoMemory, Text};
use std::alloc::Global;

/// The name of the task that an element calls, in lower case. (Task element.)
pub fn task_of(alloc: Global, element: &PlacedElement<'_>) -> Result<Text, NoMemory>
    ensures { IfOk result (λ task. task ≡ task_of (seen_element element.now)) }
{
    Ok(Text::from(element.element.name().to_ascii_lowercase(alloc)?))
}

/// What the Outputs of a task element change where the task is not called, bucket by bucket, is put
/// behind the changes: all of it, or what stands ahead of the first fault. An Output is then the
/// task's parameter of the same name; the task's other texts are expanded all the same. The context
/// is one without a bucket. (How to build incrementally, output inference.)
pub fn push_inferred(
    alloc: Global,
    context: &ElementContext<'_, FileView<'_>>,
    element: &PlacedElement<'_>,
    changes: &mut List<Change>,
) -> Result<(), EvalFault>
    ensures { Pushes result changes.old changes.new
        (inferred_at (seen_context context.now) (seen_element element.now)) }
{
    let task = task_of(alloc, element)?;
    let task = TaskElement {
        context: *context,
        element: *element,
        task: task.as_str(),
    };
    let buckets = task.buckets(alloc)?;
    push_each(alloc, &task, buckets.as_slice(), changes)
}

// Bucket by bucket.
fn push_each<'b>(
    alloc: Global,
    task: &'b TaskElement<'_>,
    buckets: &'b [Bucket],
    changes: &mut List<Change>,
) -> Result<(), EvalFault>
    ensures { Pushes result changes.old changes.new
        (up_to_fault
        (λ bucket. inference (in_bucket (seen_context task.now.context) bucket)
        (seen_element task.now.element) task.now.task.now) buckets.now) }
{
    for bucket in buckets {
        push_in_bucket(alloc, &task.in_bucket(bucket), changes)?;
    }
    Ok(())
}

fn push_in_bucket(
    alloc: Global,
    task: &TaskElement<'_>,
    changes: &mut List<Change>,
) -> Result<(), EvalFault>
    ensures { Pushes result changes.old changes.new
        (inference (seen_context task.now.context) (seen_element task.now.element)
        task.now.task.now) }
{
    if task.context.element_holds(alloc, &task.element)? {
        return push_held(alloc, task, changes);
    }
    Ok(())
}

// Where the Condition of the element holds.
fn push_held(
    alloc: Global,
    task: &TaskElement<'_>,
    changes: &mut List<Change>,
) -> Result<(), EvalFault>
    ensures { Pushes result changes.old changes.new
        (inference_if true (seen_context task.now.context) (seen_element task.now.element)
        task.now.task.now) }
{
    OnError::at(alloc, &task.context, &task.element)?;
    let params = task.params(alloc)?;
    push_outputs(alloc, &task.context, &params, &task.element, changes)
}
