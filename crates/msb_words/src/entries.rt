ghost use Rattle.msb_words.specs.Answers.{Reads};
ghost use Rattle.msb_words.specs.Values.{entries_in};

use crate::WordFault;
use msb_values::{List, Text, split_list};
use std::alloc::Global;

/// The entries of a list that has one or more.
pub(crate) fn entries_in(alloc: Global, value: &str) -> Result<List<Text>, WordFault>
    ensures { Reads (entries_in value.now) result }
{
    let entries = split_list(alloc, value)?;
    if entries.is_empty() {
        return Err(WordFault::Usage);
    }
    Ok(entries)
}
