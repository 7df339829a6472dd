ghost use Rattle.std.specs.Prelude.{◌≡◌, ◌<◌, length, IfOk, option_copied};
ghost use Rattle.target_incremental.specs.Decisions.{
  by_pairs,
  by_shape,
  decision,
  of_items,
  old_items,
};

use crate::ages::{any_is_old, pair_is_old};
use msb_files::FileView;
use msb_values::{Copied, Item, List, Mode, NoMemory, Text};
use std::alloc::Global;

/// What is done with a bucket of a target. (How to build incrementally.)
#[derive(Drop)]
pub enum Choice {
    /// Its outputs are out of date: all of it runs.
    Run,
    /// It is up to date: its tasks are not called.
    Skip,
    /// It has no inputs or no outputs: there is nothing to do.
    Nothing,
    /// Its tasks run on these items, which are out of date.
    Part(List<Item>),
}

/// What is done with a bucket of a target that has these inputs and outputs, which are normal
/// paths. `shape` has the items of the bucket where the target takes them one by one.
///
/// Where either list is empty there is nothing to do, and a clean build runs all else. Item by
/// item, if inputs and outputs are as many as the items, those run of which the own output is out
/// of date. Otherwise one output that is out of date against any input is enough to run. It takes a
/// time that grows with the number of inputs and outputs together. (How to build incrementally.)
pub fn decide(
    alloc: Global,
    view: &FileView<'_>,
    inputs: &List<Text>,
    outputs: &List<Text>,
    shape: Option<&List<Item>>,
    mode: Mode,
) -> Result<Choice, NoMemory>
    ensures { IfOk result
        (λ choice. choice ≡ decision view.now inputs.now outputs.now (option_copied shape.entry)
        mode) }
{
    if inputs.is_empty() || outputs.is_empty() {
        return Ok(Choice::Nothing);
    }
    match mode {
        Mode::Clean => Ok(Choice::Run),
        Mode::Incremental => by_shape(alloc, view, inputs.as_slice(), outputs.as_slice(), shape),
    }
}

fn by_shape(
    alloc: Global,
    view: &FileView<'_>,
    inputs: &[Text],
    outputs: &[Text],
    shape: Option<&List<Item>>,
) -> Result<Choice, NoMemory>
    requires { 0 < length inputs.now }
    ensures { IfOk result
        (λ choice. choice ≡ by_shape view.now inputs.now outputs.now (option_copied shape.entry)) }
{
    match shape {
        Some(items) if inputs.len() == items.len() && outputs.len() == items.len() => {
            let old = old_items(alloc, view, inputs, outputs, items.as_slice())?;
            Ok(of_items(old, items.len()))
        }
        _ => Ok(by_pairs(view, inputs, outputs)),
    }
}

fn by_pairs(view: &FileView<'_>, inputs: &[Text], outputs: &[Text]) -> Choice
    requires { 0 < length inputs.now }
    ensures { result ≡ by_pairs view.now inputs.now outputs.now }
{
    if any_is_old(view, inputs, outputs) {
        Choice::Run
    } else {
        Choice::Skip
    }
}

// The items whose own output is out of date.
fn old_items(
    alloc: Global,
    view: &FileView<'_>,
    inputs: &[Text],
    outputs: &[Text],
    items: &[Item],
) -> Result<List<Item>, NoMemory>
    ensures { IfOk result (λ old. old ≡ old_items view.now inputs.now outputs.now items.now) }
{
    let mut old = List::new(alloc);
    for ((input, output), item) in inputs.iter().zip(outputs).zip(items) {
        if pair_is_old(view, input.as_str(), output.as_str()) {
            old.push(item.copy()?)?;
        }
    }
    Ok(old)
}

fn of_items(old: List<Item>, all: usize) -> Choice
    ensures { result ≡ of_items old all }
{
    match old.len() {
        0 => Choice::Skip,
        number if number == all => Choice::Run,
        _ => Choice::Part(old),
    }
}
