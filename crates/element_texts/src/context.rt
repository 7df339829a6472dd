ghost use Rattle.std.specs.Prelude.{◌≡◌, option_map, option_copied};
ghost use Rattle.msb_values.specs.Caused.{GivesCause};
ghost use Rattle.msb_expand.specs.Scenes.{scene_of};
ghost use Rattle.msb_condition.specs.Answers.{view_of};
ghost use Rattle.build_world.specs.Answers.{GivesFault};
ghost use Rattle.build_world.specs.Elements.{seen_element};
ghost use Rattle.element_texts.specs.Contexts.{
  definition_context,
  element_holds,
  entries_at,
  holds_at,
  holds_from,
  in_bucket,
  item_context,
  items_seen,
  list_at,
  metadata_context,
  metadata_usage,
  names_at,
  names_if,
  text_at,
  view_in,
};
ghost use Rattle.element_texts.specs.Seen.{context_of};

use build_world::{EvalFault, PlacedElement};
use msb_condition::condition_holds;
use msb_expand::{
    Bucket, Entry, Lens, Use, expand_entries, expand_list, expand_names, expand_text, folder_of,
};
use msb_paths::Present;
use msb_values::{Cause, Item, List, Name, Scope, Text};
use std::alloc::{AllocError, Global};

/// What the texts of an element see.
pub struct ElementContext<'a, F> {
    pub files: &'a F,
    /// The path of the project's root file, on whose folder the files are that a text names.
    pub project: &'a str,
    pub scope: &'a Scope,
    /// What may stand in the texts.
    pub usage: Use,
    /// The item at hand and its type.
    pub own: Option<(&'a Name, &'a Item)>,
    /// The bucket of an element in a target. (MSBuild batching.)
    pub bucket: Option<&'a Bucket>,
}

impl<'a, F> Clone for ElementContext<'a, F> {
    fn clone(&self) -> Result<ElementContext<'a, F>, AllocError> {
        Ok(*self)
    }
}

impl<'a, F> Copy for ElementContext<'a, F> {}

impl<'a, F: Present> ElementContext<'a, F> {
    /// Of item definitions. (Item definitions.)
    pub fn of_definitions(files: &'a F, project: &'a str, scope: &'a Scope) -> ElementContext<'a, F>
        ensures { context_of F.files result ≡ definition_context (F.files files.now) project.now
            scope.now }
    {
        ElementContext {
            files,
            project,
            scope,
            usage: Use::Definition,
            own: None,
            bucket: None,
        }
    }

    /// Of items outside targets, and of what a target says in no bucket of it.
    pub fn of_items(files: &'a F, project: &'a str, scope: &'a Scope) -> ElementContext<'a, F>
        ensures { context_of F.files result ≡ item_context (F.files files.now) project.now
            scope.now }
    {
        ElementContext {
            files,
            project,
            scope,
            usage: Use::All,
            own: None,
            bucket: None,
        }
    }

    /// Of the metadata that are given to an item. (Item metadata.)
    pub fn of_metadata<'s>(&'s self, kind: &'s Name, item: &'s Item) -> ElementContext<'s, F>
        ensures { context_of F.files result
            ≡ metadata_context (context_of F.files self.now) kind.now item.now }
    {
        ElementContext {
            files: self.files,
            project: self.project,
            scope: self.scope,
            usage: metadata_usage(self.usage),
            own: Some((kind, item)),
            bucket: self.bucket,
        }
    }

    /// The same in one of the buckets of an element in a target. (MSBuild batching.)
    pub fn in_bucket<'s>(&'s self, bucket: &'s Bucket) -> ElementContext<'s, F>
        ensures { context_of F.files result ≡ in_bucket (context_of F.files self.now) bucket.now }
    {
        ElementContext {
            files: self.files,
            project: self.project,
            scope: self.scope,
            usage: Use::Batched,
            own: self.own(),
            bucket: Some(bucket),
        }
    }

    /// The items of a type that are seen.
    pub fn items<'s>(&'s self, kind: &Name) -> &'s [Item]
        ensures { result.now ≡ items_seen (context_of F.files self.now) kind.now }
    {
        self.lens("").items(kind)
    }

    /// What a text sees that stands in a file.
    pub fn lens<'s>(&'s self, file: &'s str) -> Lens<'s>
        ensures { view_of result (F.files self.now.files.now)
            ≡ view_in (context_of F.files self.now) file.now }
    {
        Lens {
            scope: self.scope,
            dir: folder_of(self.project),
            project: self.project,
            file,
            usage: self.usage,
            own: self.own(),
            bucket: self.bucket,
        }
    }

    fn own<'s>(&'s self) -> Option<(&'s Name, &'s Item)>
        ensures { option_map (λ p. (p.0.now, p.1.now)) result ≡ (context_of F.files self.now).own }
    {
        match self.own {
            Some((kind, item)) => Some((kind, item)),
            None => None,
        }
    }

    /// Whether a Condition of an element holds; an absent one does. (MSBuild conditions.)
    pub fn holds(
        &self,
        alloc: Global,
        element: &PlacedElement<'_>,
        condition: Option<&str>,
    ) -> Result<bool, EvalFault>
        ensures { GivesFault (λ holds. holds) result
            (holds_at (context_of F.files self.now) (seen_element element.now)
            (option_copied condition.entry)) }
    {
        self.holds_from(alloc, element, condition, folder_of(self.project))
    }

    /// Whether a Condition of an element holds, where Exists starts from this folder and not from
    /// the project's.
    pub fn holds_from(
        &self,
        alloc: Global,
        element: &PlacedElement<'_>,
        condition: Option<&str>,
        folder: &str,
    ) -> Result<bool, EvalFault>
        ensures { GivesFault (λ holds. holds) result
            (holds_from folder.now (context_of F.files self.now) (seen_element element.now)
            (option_copied condition.entry)) }
    {
        let lens = Lens {
            dir: folder,
            ..self.lens(element.file)
        };
        match condition_holds(alloc, &lens, self.files, condition) {
            Ok(holds) => Ok(holds),
            Err(cause) => Err(element.fault(alloc, cause)),
        }
    }

    /// Whether the element's own Condition holds.
    pub fn element_holds(
        &self,
        alloc: Global,
        element: &PlacedElement<'_>,
    ) -> Result<bool, EvalFault>
        ensures { GivesFault (λ holds. holds) result
            (element_holds (context_of F.files self.now) (seen_element element.now)) }
    {
        self.holds(alloc, element, element.element.attribute("Condition"))
    }

    /// What a text of the element denotes.
    pub fn text(
        &self,
        alloc: Global,
        element: &PlacedElement<'_>,
        written: &str,
    ) -> Result<Text, EvalFault>
        ensures { GivesFault (λ text. text) result
            (text_at (context_of F.files self.now) (seen_element element.now) written.now) }
    {
        let lens = self.lens(element.file);
        match expand_text(alloc, &lens, written) {
            Ok(text) => Ok(text),
            Err(cause) => Err(element.fault(alloc, cause)),
        }
    }

    /// The items that a text of the element denotes as a list. (MSBuild items.)
    pub fn list(
        &self,
        alloc: Global,
        element: &PlacedElement<'_>,
        written: &str,
    ) -> Result<List<Item>, EvalFault>
        ensures { GivesFault (λ items. items) result
            (list_at (context_of F.files self.now) (seen_element element.now) written.now) }
    {
        let lens = self.lens(element.file);
        match expand_list(alloc, &lens, written) {
            Ok(items) => Ok(items),
            Err(cause) => Err(element.fault(alloc, cause)),
        }
    }

    /// The targets that a list of the element names; an absent list names none. (Target build
    /// order.)
    pub fn names(
        &self,
        alloc: Global,
        element: &PlacedElement<'_>,
        written: Option<&str>,
    ) -> Result<List<Name>, EvalFault>
        ensures { GivesFault (λ names. names) result
            (names_at (context_of F.files self.now) (seen_element element.now)
            (option_copied written.entry)) }
    {
        let lens = self.lens(element.file);
        match names_if(alloc, &lens, written) {
            Ok(names) => Ok(names),
            Err(cause) => Err(element.fault(alloc, cause)),
        }
    }

    /// The entries that a text of the element denotes as a list.
    pub fn entries(
        &self,
        alloc: Global,
        element: &PlacedElement<'_>,
        written: &str,
    ) -> Result<List<Entry>, EvalFault>
        ensures { GivesFault (λ entries. entries) result
            (entries_at (context_of F.files self.now) (seen_element element.now) written.now) }
    {
        let lens = self.lens(element.file);
        match expand_entries(alloc, &lens, written) {
            Ok(entries) => Ok(entries),
            Err(cause) => Err(element.fault(alloc, cause)),
        }
    }
}

fn names_if(alloc: Global, lens: &Lens<'_>, written: Option<&str>) -> Result<List<Name>, Cause>
    ensures { GivesCause result (names_if (scene_of lens.now) (option_copied written.entry)) }
{
    match written {
        Some(written) => expand_names(alloc, lens, written),
        None => Ok(List::new(alloc)),
    }
}

fn metadata_usage(usage: Use) -> Use
    ensures { result ≡ metadata_usage usage }
{
    match usage {
        Use::All => Use::Metadata,
        _ => usage,
    }
}
