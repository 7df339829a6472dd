ghost use Rattle.std.specs.Prelude.{option_copied};
ghost use Rattle.msb_values.specs.Caused.{GivesCause};
ghost use Rattle.msb_condition.specs.Answers.{view_of};
ghost use Rattle.msb_condition.specs.Reading.{condition_of};
ghost use Rattle.msb_condition.specs.Written.{condition_holds, read_holds};

use crate::{holds, parse};
use msb_expand::Lens;
use msb_paths::Present;
use msb_values::Cause;
use std::alloc::Global;

/// Whether a Condition holds where it stands; an absent one does. (MSBuild conditions.)
pub fn condition_holds<F: Present>(
    alloc: Global,
    lens: &Lens<'_>,
    files: &F,
    written: Option<&str>,
) -> Result<bool, Cause>
    ensures { GivesCause result
        (condition_holds (view_of lens.now (F.files files.now)) (option_copied written.entry)) }
{
    match written {
        Some(written) => text_holds(alloc, lens, files, written),
        None => Ok(true),
    }
}

fn text_holds<F: Present>(
    alloc: Global,
    lens: &Lens<'_>,
    files: &F,
    written: &str,
) -> Result<bool, Cause>
    ensures { GivesCause result
        (read_holds (view_of lens.now (F.files files.now)) (condition_of written.now)) }
{
    let condition = parse(alloc, written)?;
    Ok(holds(alloc, lens, files, &condition)?)
}
