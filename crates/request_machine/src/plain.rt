//! Which conditions ask for files, and which requests ask alike between their runs, whatever their
//! journals are. (MSBuild conditions, Exists.)

ghost use Rattle.std.specs.Prelude.{◌≡◌, List, ℕ, map, IfOk, ◌≢◌, Option, false, option_copied};
ghost use Rattle.std.specs.List.{list_any};
ghost use Rattle.msb_elements.specs.View.{view};
ghost use Rattle.build_world.specs.Instances.{seen_instance, seen_target};
ghost use Rattle.build_world.specs.declared.world.World.{World as Given};
ghost use Rattle.result_cache.specs.declared.request.RequestKey.{RequestKey};
ghost use Rattle.task_trait.specs.declared.tools.ToolAnswer.{ToolAnswer};
ghost use Rattle.task_trait.specs.declared.tools.ToolInput.{ToolInput};
ghost use Rattle.build_meaning.specs.Plain.{IsPlain};
ghost use Rattle.request_machine.specs.Plain.{
  IsPlainProject,
  element_asks,
  error_asks,
  project_asks,
  target_asks,
};
ghost use Rattle.request_machine.specs.Worlds.{world_of};
ghost use Rattle.request_machine.specs.ConditionFiles.{
  condition_asks,
  is_exists,
  operand_asks,
  reading_asks,
  tree_asks,
};
ghost use Rattle.msb_condition.specs.Reading.{condition_of};
ghost use Rattle.msb_condition.specs.Truth.{View};
ghost use Rattle.msb_condition.specs.View.{operand_of, tree_of};
ghost use Rattle.msb_condition.specs.Written.{condition_holds};
ghost use Rattle.msb_condition.specs.declared.faults.CondFault.TheVariants.{Memory};

use build_world::{Instance, UsedTarget};
use msb_condition::{Cond, CondFault, Function, Operand, parse};
use msb_elements::Element;
use msb_values::NoMemory;
use std::alloc::Global;

/// Whether a request of this project may ask for files between its runs: whether a Condition of a
/// target or of an OnError element has Exists. (MSBuild conditions; OnError element.)
pub fn project_asks(alloc: Global, instance: &Instance) -> Result<bool, NoMemory>
    ensures { IfOk result (λ asks. asks ≡ project_asks (seen_instance instance.now)) }
{
    any_target_asks(alloc, instance.targets.as_slice())
}

fn any_target_asks(alloc: Global, targets: &[UsedTarget]) -> Result<bool, NoMemory>
    ensures { IfOk result (λ asks.
        asks ≡ list_any target_asks (map seen_target targets.now)) }
{
    for target in targets {
        if target_asks(alloc, target)? {
            return Ok(true);
        }
    }
    Ok(false)
}

fn target_asks(alloc: Global, target: &UsedTarget) -> Result<bool, NoMemory>
    ensures { IfOk result (λ asks. asks ≡ target_asks (seen_target target.now)) }
{
    let element = &target.at.element;
    if element_asks(alloc, element)? {
        return Ok(true);
    }
    any_error_asks(alloc, element.children())
}

fn any_error_asks(alloc: Global, elements: &[Element]) -> Result<bool, NoMemory>
    ensures { IfOk result (λ asks. asks ≡ list_any error_asks (map view elements.now)) }
{
    for element in elements {
        if error_asks(alloc, element)? {
            return Ok(true);
        }
    }
    Ok(false)
}

// Of a child of a target, where it is an OnError element.
fn error_asks(alloc: Global, element: &Element) -> Result<bool, NoMemory>
    ensures { IfOk result (λ asks. asks ≡ error_asks (view element.now)) }
{
    if element.name() == "OnError" {
        element_asks(alloc, element)
    } else {
        Ok(false)
    }
}

fn element_asks(alloc: Global, element: &Element) -> Result<bool, NoMemory>
    ensures { IfOk result (λ asks. asks ≡ element_asks (view element.now)) }
{
    condition_asks(alloc, element.attribute("Condition"))
}

/// The requests of a project are plain where no Condition of its targets and their OnError elements
/// has Exists: texts see properties and items, which records tell, and Exists alone sees files.
pub fn plain_projects_ask_alike()
    ensures { (answer : List ℕ → ToolInput → ToolAnswer) (w : Given) (key : RequestKey) →
        IsPlainProject w.tree.files key → IsPlain (world_of answer w) key }
{}

/// Whether a Condition, as it is written, has `Exists`. An absent one has not, nor has one that
/// can't be read. (MSBuild conditions.)
pub fn condition_asks(alloc: Global, written: Option<&str>) -> Result<bool, NoMemory>
    ensures { IfOk result (λ asks. asks ≡ condition_asks (option_copied written.entry)) }
{
    match written {
        Some(written) => text_asks(alloc, written),
        None => Ok(false),
    }
}

fn text_asks(alloc: Global, written: &str) -> Result<bool, NoMemory>
    ensures { IfOk result (λ asks. asks ≡ reading_asks (condition_of written.now)) }
{
    match parse(alloc, written) {
        Ok(condition) => Ok(asks_files(&condition)),
        Err(fault) => ask_nothing(&fault),
    }
}

fn ask_nothing(fault: &CondFault) -> Result<bool, NoMemory>
    ensures asks { IfOk result (λ asks. asks ≡ false) }
    ensures cause { IfOk result (λ _. fault.now ≢ Memory) }
{
    if let CondFault::Memory = fault {
        return Err(NoMemory);
    }
    Ok(false)
}

/// Whether a condition has `Exists`.
#[cycle(asks_files)]
pub fn asks_files(condition: &Cond) -> bool
    ensures { result ≡ tree_asks (tree_of condition.now) }
{
    match condition {
        Cond::Empty => false,
        Cond::Or(first, others) => asks_files(first) || any_asks(others),
        Cond::And(first, others) => asks_files(first) || any_asks(others),
        Cond::Not(inner) => asks_files(inner),
        Cond::Compare(_, left, right) => operand_asks(left) || operand_asks(right),
        Cond::Truth(operand) => operand_asks(operand),
    }
}

/// Whether any of several conditions has `Exists`.
#[cycle(asks_files)]
fn any_asks(conditions: &[Cond]) -> bool
    ensures { result ≡ list_any tree_asks (map tree_of conditions.now) }
{
    for condition in conditions {
        if asks_files(condition) {
            return true;
        }
    }
    false
}

/// Whether an operand has `Exists`.
fn operand_asks(operand: &Operand) -> bool
    ensures { result ≡ operand_asks (operand_of operand.now) }
{
    match operand {
        Operand::Text(_) => false,
        Operand::Call(function, inner) => is_exists(*function) || operand_asks(inner),
    }
}

fn is_exists(function: Function) -> bool
    ensures { result ≡ is_exists function }
{
    match function {
        Function::Exists => true,
        Function::HasTrailingSlash => false,
    }
}

/// A condition without `Exists` has one truth in a scope, or one fault, whatever the files are.
pub fn conditions_see_files_by_exists()
    ensures { (first other : View) (written : Option (List ℕ)) → condition_asks written ≡ false →
        first.scene ≡ other.scene → condition_holds first written ≡ condition_holds other written }
{}
