ghost use Rattle.std.specs.Prelude.{◌≡◌};
ghost use Rattle.build_world.specs.Answers.{GivesFault};
ghost use Rattle.build_world.specs.Elements.{seen_element};
ghost use Rattle.element_texts.specs.Contexts.{in_bucket};
ghost use Rattle.target_texts.specs.Batched.{target_buckets};
ghost use Rattle.target_texts.specs.Seen.{seen_context};

use build_world::{EvalFault, PlacedElement};
use element_texts::ElementContext;
use msb_expand::Bucket;
use msb_files::FileView;
use msb_items::own_buckets;
use msb_values::List;
use std::alloc::Global;

/// A Target element, with what its texts see. (Target element.)
#[derive(Clone, Copy)]
pub struct TargetElement<'a> {
    pub context: ElementContext<'a, FileView<'a>>,
    pub element: PlacedElement<'a>,
}

impl<'a> TargetElement<'a> {
    /// The same element in one of its buckets.
    pub(crate) fn in_bucket<'s>(&'s self, bucket: &'s Bucket) -> TargetElement<'s>
        ensures context { seen_context result.context
            ≡ in_bucket (seen_context self.now.context) bucket.now }
        ensures element { seen_element result.element ≡ seen_element self.now.element }
    {
        TargetElement {
            context: self.context.in_bucket(bucket),
            element: self.element,
        }
    }

    /// The buckets of the target, by its Inputs, Outputs and Returns, which are read first, in byte
    /// order of their names. The context is one without a bucket. (MSBuild batching.)
    pub fn buckets(&self, alloc: Global) -> Result<List<Bucket>, EvalFault>
        ensures { GivesFault (λ buckets. buckets) result
            (target_buckets (seen_context self.now.context) (seen_element self.now.element)) }
    {
        let ignored = [
            "AfterTargets",
            "BeforeTargets",
            "Condition",
            "DependsOnTargets",
            "KeepDuplicateOutputs",
            "Label",
            "Name",
        ];
        let lens = self.context.lens(self.element.file);
        own_buckets(alloc, &lens, &ignored, &self.element)
    }
}
