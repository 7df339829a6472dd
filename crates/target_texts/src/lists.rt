ghost use Rattle.std.specs.Prelude.{◌≡◌, IfOk, Some, codes, option_map};
ghost use Rattle.std.specs.Result.{result_ok};
ghost use Rattle.msb_laws.specs.Results.{all_ok};
ghost use Rattle.msb_values.specs.Caused.{GivesCause};
ghost use Rattle.msb_expression.specs.Reading.{reading};
ghost use Rattle.build_world.specs.Answers.{GivesFault};
ghost use Rattle.build_world.specs.Elements.{attribute_of, seen_element};
ghost use Rattle.msb_items.specs.Items.{list_of};
ghost use Rattle.target_texts.specs.Lists.{lists_by, path_of, paths_at, type_read, typed_items};
ghost use Rattle.target_texts.specs.Returned.{in_target};
ghost use Rattle.target_texts.specs.Seen.{seen_lists, seen_context};

use crate::bucket::without_lists;
use crate::target::TargetElement;
use build_world::EvalFault;
use msb_expand::{Bucket, folder_of};
use msb_expression::{Expr, ExprFault, parse};
use msb_paths::{NormalFault, normal_path};
use msb_values::{Cause, Item, List, Name, NoMemory, Scope, Text, unescape};
use std::alloc::Global;
use target_incremental::item_type;

/// The paths of Inputs and Outputs of a target in a bucket, and, where the target takes its items
/// one by one, their type and those that the bucket has. (How to build incrementally.)
#[derive(Drop)]
pub struct Lists {
    pub inputs: List<Text>,
    pub outputs: List<Text>,
    pub items: Option<(Name, List<Item>)>,
}

impl Lists {
    /// The lists of a target that has both Inputs and Outputs, in a bucket of the target of whose
    /// lists the scope has what the children have left. An entry that can't be made a normal path
    /// is a fault of the element: Inputs' entries come first, then Outputs'.
    pub fn of(
        alloc: Global,
        target: &TargetElement<'_>,
        bucket: &Bucket,
    ) -> Result<Option<Lists>, EvalFault>
        ensures { GivesFault (option_map seen_lists) result
            (lists_by (in_target (seen_context target.now.context) bucket.now)
            (seen_element target.now.element)
            (attribute_of (codes "Inputs") (seen_element target.now.element))
            (attribute_of (codes "Outputs") (seen_element target.now.element))) }
    {
        let inputs = target.element.element.attribute("Inputs");
        let outputs = target.element.element.attribute("Outputs");
        match (inputs, outputs) {
            (Some(inputs), Some(outputs)) => {
                Lists::in_bucket(alloc, target, bucket, inputs, outputs)
            }
            _ => Ok(None),
        }
    }

    fn in_bucket(
        alloc: Global,
        target: &TargetElement<'_>,
        bucket: &Bucket,
        inputs: &str,
        outputs: &str,
    ) -> Result<Option<Lists>, EvalFault>
        ensures { GivesFault (option_map seen_lists) result
            (lists_by (in_target (seen_context target.now.context) bucket.now)
            (seen_element target.now.element) (Some inputs.now) (Some outputs.now)) }
    {
        let bucket = without_lists(alloc, bucket)?;
        Ok(Some(Lists::of_texts(alloc, &target.in_bucket(&bucket), inputs, outputs)?))
    }

    fn of_texts(
        alloc: Global,
        target: &TargetElement<'_>,
        inputs: &str,
        outputs: &str,
    ) -> Result<Lists, EvalFault>
        ensures { GivesFault (λ lists. Some (seen_lists lists)) result
            (lists_by (seen_context target.now.context) (seen_element target.now.element)
            (Some inputs.now) (Some outputs.now)) }
    {
        let input_paths = paths(alloc, target, inputs)?;
        let output_paths = paths(alloc, target, outputs)?;
        let items = typed_items(alloc, target.context.scope, inputs, outputs)?;
        Ok(Lists {
            inputs: input_paths,
            outputs: output_paths,
            items,
        })
    }
}

// The entries of a text as normal paths on the project's folder.
fn paths(alloc: Global, target: &TargetElement<'_>, written: &str) -> Result<List<Text>, EvalFault>
    ensures { GivesFault (λ paths. paths) result
        (paths_at (seen_context target.now.context) (seen_element target.now.element) written.now) }
{
    let items = target.context.list(alloc, &target.element, written)?;
    match paths_of(alloc, target.context.project, items.as_slice()) {
        Ok(paths) => Ok(paths),
        Err(cause) => Err(target.element.fault(alloc, cause)),
    }
}

fn paths_of(alloc: Global, project: &str, items: &[Item]) -> Result<List<Text>, Cause>
    ensures { GivesCause result (all_ok (path_of project.now) items.now) }
{
    let mut paths = List::new(alloc);
    for item in items {
        let path = path_of(alloc, project, item)?;
        paths.push(path)?;
    }
    Ok(paths)
}

fn path_of(alloc: Global, project: &str, item: &Item) -> Result<Text, Cause>
    ensures { GivesCause result (path_of project.now item.now) }
{
    let text = unescape(alloc, item.ident.as_str())?;
    match normal_path(alloc, folder_of(project), text.as_str()) {
        Ok(path) => Ok(Text::of(alloc, path.as_str())?),
        Err(NormalFault::Memory) => Err(Cause::Memory),
        Err(_) => Err(Cause::BadPath(text)),
    }
}

// The type and the items of a target that takes its items one by one.
fn typed_items(
    alloc: Global,
    scope: &Scope,
    inputs: &str,
    outputs: &str,
) -> Result<Option<(Name, List<Item>)>, NoMemory>
    ensures { IfOk result (λ items. items ≡ typed_items scope.now inputs.now outputs.now) }
{
    match read_type(alloc, inputs, outputs)? {
        Some(kind) => {
            let items = items_of(alloc, scope, &kind)?;
            Ok(Some((kind, items)))
        }
        None => Ok(None),
    }
}

// The type, where both texts have a reading.
fn read_type(alloc: Global, inputs: &str, outputs: &str) -> Result<Option<Name>, NoMemory>
    ensures { IfOk result (λ kind. kind ≡ type_read (reading inputs.now) (reading outputs.now)) }
{
    match (read(alloc, inputs)?, read(alloc, outputs)?) {
        (Some(inputs), Some(outputs)) => item_type(alloc, &inputs, &outputs),
        _ => Ok(None),
    }
}

fn read(alloc: Global, text: &str) -> Result<Option<Expr>, NoMemory>
    ensures { IfOk result (λ read. option_map (λ expr. expr.parts) read
        ≡ result_ok (reading text.now)) }
{
    match parse(alloc, text) {
        Ok(expr) => Ok(Some(expr)),
        Err(ExprFault::Memory) => Err(NoMemory),
        Err(_) => Ok(None),
    }
}

fn items_of(alloc: Global, scope: &Scope, kind: &Name) -> Result<List<Item>, NoMemory>
    ensures { IfOk result (λ items. items ≡ list_of scope.now kind.now) }
{
    match scope.items.get(kind) {
        Some(items) => List::of(alloc, items.as_slice()),
        None => Ok(List::new(alloc)),
    }
}
