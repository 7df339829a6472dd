ghost use Rattle.std.specs.Prelude.{◌≡◌, Some, IfOk, option_copied};
ghost use Rattle.build_world.specs.Answers.{GivesFault};
ghost use Rattle.build_world.specs.Elements.{seen_element};
ghost use Rattle.build_world.specs.Instances.{seen_target};
ghost use Rattle.target_texts.specs.Returned.{
  keeps_if,
  keeps_repeats,
  less_repeats,
  listed_items,
  returned_items,
  returns_of,
};
ghost use Rattle.target_texts.specs.Seen.{seen_context};

use crate::bucket::without_lists;
use crate::target::TargetElement;
use build_world::{EvalFault, UsedTarget};
use msb_expand::Bucket;
use msb_items::{KeyedItems, truth_or};
use msb_values::{Item, List, NoMemory, unescape};
use std::alloc::Global;

/// The text of the items that a target returns: Returns, or where no Target element of its file has
/// one, Outputs. (Target element, Returns.)
pub fn returns_of(target: &UsedTarget) -> Option<&str>
    ensures { option_copied result ≡ returns_of (seen_target target.now) }
{
    let element = &target.at.element;
    match element.attribute("Returns") {
        Some(returns) => Some(returns),
        None if target.file_has_returns => None,
        None => element.attribute("Outputs"),
    }
}

impl<'a> TargetElement<'a> {
    /// The items that a bucket of the target returns beside those that are there, after its
    /// children: KeepDuplicateOutputs is read first, which sees no bucket, and then the text, which
    /// is that of Returns or Outputs. (Target element, Returns.)
    pub fn returned_items(
        &self,
        alloc: Global,
        bucket: &Bucket,
        there: &KeyedItems,
        written: &str,
    ) -> Result<List<Item>, EvalFault>
        ensures { GivesFault (λ items. items) result
            (returned_items (seen_context self.now.context) bucket.now
            (seen_element self.now.element) there.now written.now) }
    {
        let keeps = self.keeps_repeats(alloc)?;
        let bucket = without_lists(alloc, bucket)?;
        self.in_bucket(&bucket)
            .listed_items(alloc, keeps, there, written)
    }

    // Whether the target returns items again that are returned before. (Target element,
    // KeepDuplicateOutputs.)
    fn keeps_repeats(&self, alloc: Global) -> Result<bool, EvalFault>
        ensures { GivesFault (λ keeps. keeps) result
            (keeps_repeats (seen_context self.now.context) (seen_element self.now.element)) }
    {
        match self.element.element.attribute("KeepDuplicateOutputs") {
            Some(written) => self.keeps_by_text(alloc, written),
            None => Ok(false),
        }
    }

    fn keeps_by_text(&self, alloc: Global, written: &str) -> Result<bool, EvalFault>
        ensures { GivesFault (λ keeps. keeps) result
            (keeps_if (seen_context self.now.context) (seen_element self.now.element)
            (Some written.now)) }
    {
        let text = self.context.text(alloc, &self.element, written)?;
        let text = unescape(alloc, text.as_str())?;
        match truth_or(alloc, false, text.as_str()) {
            Ok(keeps) => Ok(keeps),
            Err(cause) => Err(self.element.fault(alloc, cause)),
        }
    }

    // The items of a text of the target where it stands, less the repeats of those that are there
    // and of each other unless the target keeps them.
    fn listed_items(
        &self,
        alloc: Global,
        keeps: bool,
        there: &KeyedItems,
        written: &str,
    ) -> Result<List<Item>, EvalFault>
        ensures { GivesFault (λ items. items) result
            (listed_items (seen_context self.now.context) (seen_element self.now.element) keeps
            there.now written.now) }
    {
        let items = self.context.list(alloc, &self.element, written)?;
        Ok(remove_repeats(alloc, keeps, there, items)?)
    }
}

fn remove_repeats(
    alloc: Global,
    keeps: bool,
    there: &KeyedItems,
    items: List<Item>,
) -> Result<List<Item>, NoMemory>
    ensures { IfOk result (λ kept. kept ≡ less_repeats keeps there.now items) }
{
    if keeps {
        return Ok(items);
    }
    there.without_repeats(alloc, items)
}
