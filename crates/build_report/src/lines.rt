ghost use Rattle.std.specs.Prelude.{◌≡◌, ◌++◌, OnOk, string_bytes};
ghost use Rattle.build_report.specs.Line.{line};
ghost use Rattle.build_report.specs.Runs.{run_text};

use msb_values::NoMemory;
use result_cache::RunId;
use std::alloc::Global;

/// A line of a text, with some words before it.
pub fn push_line(shown: &mut String, before: &str, text: &str) -> Result<(), NoMemory>
    ensures { OnOk result (string_bytes shown.new
        ≡ string_bytes shown.old ++ line (before.now ++ text.now)) }
{
    shown.push_str(before)?;
    shown.push_str(text)?;
    Ok(shown.push('\n')?)
}

/// A run: its instance and its target.
pub fn push_name(alloc: Global, shown: &mut String, run: &RunId) -> Result<(), NoMemory>
    ensures { OnOk result (string_bytes shown.new ≡ string_bytes shown.old ++ run_text run.now) }
{
    let instance = run.instance.to_text(alloc)?;
    shown.push_str(instance.as_str())?;
    shown.push_str(" : ")?;
    Ok(shown.push_str(run.target.key())?)
}
