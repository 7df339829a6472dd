ghost use Rattle.std.specs.Prelude.{◌≡◌, ◌++◌, IfOk, OnOk, string_bytes};
ghost use Rattle.build_report.specs.Checked.{
  steady_text,
  body_lines,
  differs_text,
  circular_run_text,
  deep_instance_text,
  crowding_instance_text,
  spent_text,
};

use crate::lines::{push_line, push_name};
use crate::run::{push_decisions, push_notes};
use msb_values::{InstanceKey, NoMemory, Text8};
use result_cache::{Record, RunId};
use std::alloc::Global;

/// What is printed of a set of projects that is whole and steady: how many bodies a check has made.
///
/// (This engine's own action.)
pub fn show_steady(alloc: Global, bodies: u32) -> Result<Text8, NoMemory>
    ensures { IfOk result (λ t. t ≡ steady_text bodies) }
{
    let text = format!(in alloc; "steady\nbodies {bodies}\n")?;
    Ok(Text8::from(text.into_bytes()))
}

/// What is printed of a run of which two bodies differ: what became of each, with its notes but
/// those of low importance.
///
/// (This engine's own action.)
pub fn show_differs(
    alloc: Global,
    run: &RunId,
    first: &Record,
    second: &Record,
) -> Result<Text8, NoMemory>
    ensures { IfOk result (λ t. t ≡ differs_text run.now first.now second.now) }
{
    let mut shown = String::from_str(alloc, "differs ")?;
    push_name(alloc, &mut shown, run)?;
    shown.push('\n')?;
    push_body(&mut shown, "first", first)?;
    push_body(&mut shown, "second", second)?;
    Ok(Text8::from(shown.into_bytes()))
}

/// What is printed of a run that is wanted in its own body.
///
/// (This engine's own action.)
pub fn show_circular_run(alloc: Global, run: &RunId) -> Result<Text8, NoMemory>
    ensures { IfOk result (λ t. t ≡ circular_run_text run.now) }
{
    let mut shown = String::from_str(alloc, "not whole: circular ")?;
    push_name(alloc, &mut shown, run)?;
    shown.push('\n')?;
    Ok(Text8::from(shown.into_bytes()))
}

/// What is printed of an instance whose request is nested too deep.
///
/// (This engine's own action.)
pub fn show_deep_instance(alloc: Global, key: &InstanceKey) -> Result<Text8, NoMemory>
    ensures { IfOk result (λ t. t ≡ deep_instance_text key.now) }
{
    let mut shown = String::new(alloc);
    let key = key.to_text(alloc)?;
    push_line(&mut shown, "not whole: too deep ", key.as_str())?;
    Ok(Text8::from(shown.into_bytes()))
}

/// What is printed of the instance that is one too many.
///
/// (This engine's own action.)
pub fn show_crowding_instance(alloc: Global, key: &InstanceKey) -> Result<Text8, NoMemory>
    ensures { IfOk result (λ t. t ≡ crowding_instance_text key.now) }
{
    let mut shown = String::new(alloc);
    let key = key.to_text(alloc)?;
    push_line(&mut shown, "not whole: too many instances ", key.as_str())?;
    Ok(Text8::from(shown.into_bytes()))
}

/// What is printed of a check that has made as many bodies as it makes.
///
/// (This engine's own action.)
pub fn show_spent(alloc: Global, bodies: u32) -> Result<Text8, NoMemory>
    ensures { IfOk result (λ t. t ≡ spent_text bodies) }
{
    let text = format!(in alloc; "spent {bodies}\n")?;
    Ok(Text8::from(text.into_bytes()))
}

fn push_body(shown: &mut String, which: &str, run_record: &Record) -> Result<(), NoMemory>
    ensures { OnOk result (string_bytes shown.new ≡ string_bytes shown.old
        ++ body_lines which.now run_record.now) }
{
    shown.push_str(which)?;
    shown.push(' ')?;
    push_decisions(shown, run_record.decisions.as_slice())?;
    shown.push('\n')?;
    push_notes(shown, run_record.notes.as_slice(), false)
}
