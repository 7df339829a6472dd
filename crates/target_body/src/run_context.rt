ghost use Rattle.std.specs.Prelude.{◌≡◌};
ghost use Rattle.msb_expand.specs.Reserved.{folder_of};
ghost use Rattle.build_world.specs.Elements.{seen_element};
ghost use Rattle.msb_files.specs.Views.{paths};
ghost use Rattle.element_texts.specs.Contexts.{in_bucket, item_context};
ghost use Rattle.target_texts.specs.Seen.{seen_context};
ghost use Rattle.target_body.specs.Seen.{child_at, seen_run};

use build_world::{PlacedElement, UsedTarget, World};
use element_texts::ElementContext;
use msb_expand::{Bucket, Use, folder_of};
use msb_files::FileView;
use msb_values::{Pairs, Scope};
use result_cache::RunRef;
use std::alloc::Global;

/// The run at hand: the world that it is part of, its name, and the element that is used of its
/// target; and the allocator for all that it does.
#[derive(Clone, Copy)]
pub(crate) struct RunContext<'a> {
    pub(crate) alloc: Global,
    pub(crate) world: &'a World,
    pub(crate) id: &'a RunRef,
    pub(crate) target: &'a UsedTarget,
}

impl<'a> RunContext<'a> {
    /// The path of the project.
    pub(crate) fn project(&self) -> &'a str
        ensures { result.now ≡ self.now.id.now.instance.path }
    {
        self.id.get().instance.path.as_str()
    }

    /// The folder of the project, from which paths start.
    pub(crate) fn folder(&self) -> &'a str
        ensures { result.now ≡ folder_of self.now.id.now.instance.path }
    {
        folder_of(self.project())
    }

    /// The global properties of the project.
    pub(crate) fn globals(&self) -> &'a Pairs
        ensures { result.now ≡ self.now.id.now.instance.globals }
    {
        &self.id.get().instance.globals
    }

    /// A child of the target by its place; at no child's place, the target itself.
    pub(crate) fn child(&self, place: usize) -> PlacedElement<'a>
        ensures { seen_element result ≡ child_at (seen_run self.now) place }
    {
        let target = PlacedElement::of(&self.target.at);
        match target.element.child(place) {
            Some(child) => target.child(child),
            None => target,
        }
    }
}

/// What a text of a task element sees in one of its buckets. (MSBuild batching.)
pub(crate) fn context_in_bucket<'x>(
    files: &'x FileView<'x>,
    project: &'x str,
    scope: &'x Scope,
    bucket: &'x Bucket,
) -> ElementContext<'x, FileView<'x>>
    ensures { seen_context result ≡ in_bucket
        (item_context (paths files.entry.now) project.entry.now scope.entry.now) bucket.entry.now }
{
    ElementContext {
        files,
        project,
        scope,
        usage: Use::Batched,
        own: None,
        bucket: Some(bucket),
    }
}
