ghost use Rattle.std.specs.Prelude.{◌≡◌, ◌++◌, IfOk, OnOk, string_bytes};
ghost use Rattle.std.specs.List.{flat_map};
ghost use Rattle.build_report.specs.Refused.{
  circular_text,
  circle_line,
  too_deep_text,
  request_line,
  too_many_text,
  instance_line,
};

use crate::lines::{push_line, push_name};
use msb_values::{InstanceKey, List, NoMemory, Text8};
use result_cache::{RequestKey, RunId};
use std::alloc::Global;

/// What is printed of a build in which runs wait for each other: these runs, from the one that was
/// claimed on.
///
/// (MSBuild command-line reference; MSBuild task.)
pub fn show_circular(alloc: Global, runs: &List<RunId>) -> Result<Text8, NoMemory>
    ensures { IfOk result (λ t. t ≡ circular_text runs.now) }
{
    let mut shown = String::from_str(alloc, "circular request\n")?;
    push_circle(alloc, &mut shown, runs.as_slice())?;
    Ok(Text8::from(shown.into_bytes()))
}

/// What is printed of a build whose calls are nested too deep: the instances of the requests of
/// this chain, of which each has called the next.
///
/// (MSBuild command-line reference; MSBuild task.)
pub fn show_too_deep(alloc: Global, keys: &List<RequestKey>) -> Result<Text8, NoMemory>
    ensures { IfOk result (λ t. t ≡ too_deep_text keys.now) }
{
    let mut shown = String::from_str(alloc, "too deep\n")?;
    push_chain(alloc, &mut shown, keys.as_slice())?;
    Ok(Text8::from(shown.into_bytes()))
}

/// What is printed of a build of too many instances: the one that went past their number.
///
/// (MSBuild command-line reference; MSBuild task.)
pub fn show_too_many(alloc: Global, key: &InstanceKey) -> Result<Text8, NoMemory>
    ensures { IfOk result (λ t. t ≡ too_many_text key.now) }
{
    let mut shown = String::from_str(alloc, "too many instances\n")?;
    push_instance(alloc, &mut shown, key)?;
    Ok(Text8::from(shown.into_bytes()))
}

fn push_circle(alloc: Global, shown: &mut String, runs: &[RunId]) -> Result<(), NoMemory>
    ensures { OnOk result (string_bytes shown.new
        ≡ string_bytes shown.old ++ flat_map circle_line runs.now) }
{
    for run in runs {
        shown.push_str("  ")?;
        push_name(alloc, shown, run)?;
        shown.push('\n')?;
    }
    Ok(())
}

fn push_chain(alloc: Global, shown: &mut String, keys: &[RequestKey]) -> Result<(), NoMemory>
    ensures { OnOk result (string_bytes shown.new
        ≡ string_bytes shown.old ++ flat_map request_line keys.now) }
{
    for key in keys {
        push_instance(alloc, shown, &key.instance)?;
    }
    Ok(())
}

fn push_instance(alloc: Global, shown: &mut String, key: &InstanceKey) -> Result<(), NoMemory>
    ensures { OnOk result (string_bytes shown.new
        ≡ string_bytes shown.old ++ instance_line key.now) }
{
    let key = key.to_text(alloc)?;
    push_line(shown, "  ", key.as_str())
}
