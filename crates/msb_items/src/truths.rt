ghost use Rattle.msb_values.specs.Caused.{GivesCause};
ghost use Rattle.msb_items.specs.Truths.{truth_or};

use msb_values::{Cause, Text, truth_of};
use std::alloc::Global;

/// The truth value that a text is, without case, or the one that an empty text stands for; any
/// other text is refused as [`Cause::NotBoolean`]. (MSBuild conditions.)
pub fn truth_or(alloc: Global, default: bool, text: &str) -> Result<bool, Cause>
    ensures { GivesCause result (truth_or default text.now) }
{
    if text.is_empty() {
        return Ok(default);
    }
    match truth_of(text) {
        Some(truth) => Ok(truth),
        None => Err(Cause::NotBoolean(Text::of(alloc, text)?)),
    }
}
