ghost use Rattle.std.specs.Prelude.{◌≡◌, option_copied};
ghost use Rattle.msb_expand.specs.Scenes.{
  scene_of,
  scene_at,
  with_own,
  with_bucket,
  list_in,
  list_or,
};
ghost use Rattle.msb_expand.specs.Reserved.{folder_of};

use msb_reserved::folder_of;
use msb_values::{Item, List, Lists, Name, Scope, SharedItems, Text};

/// Where an expression stands, which says what its references are.
#[derive(Clone, Copy, Debug, PartialEq, Eq)]
pub enum Use {
    /// A property's value in evaluation: item and metadata references stay text.
    Properties,
    /// Where no item reference may stand: the conditions and lists of the property pass, and item
    /// definitions. With an item type at hand a metadata reference is that type's default so far,
    /// else it may not stand there.
    Definition,
    /// Metadata of an item in evaluation, where a metadata reference is the item's own.
    Metadata,
    /// Where item references have values and no metadata reference may stand.
    All,
    /// In a target, where a metadata reference is the bucket's.
    Batched,
}

/// The items of the batched lists that have the same metadata, and this metadata. (MSBuild
/// batching.)
#[derive(Drop)]
pub struct Bucket {
    /// The value of each metadata reference, with the item type that qualifies it, if one does.
    pub values: List<(Option<Name>, Name, Text)>,
    /// The items of each batched list.
    pub lists: Lists,
}

/// What an expression sees, and where it stands.
#[derive(Clone, Copy)]
pub struct Lens<'a> {
    pub scope: &'a Scope,
    /// The folder from which the function Exists of a condition starts.
    pub dir: &'a str,
    /// The path of the root file of the project, on whose folder identities are paths.
    pub project: &'a str,
    /// The path of the file that holds the element.
    pub file: &'a str,
    pub usage: Use,
    /// The item at hand and its type.
    pub own: Option<(&'a Name, &'a Item)>,
    pub bucket: Option<&'a Bucket>,
}

impl<'a> Lens<'a> {
    /// In a file of a project, where no item is at hand and nothing is batched. Exists starts from
    /// the project's folder.
    pub fn new(scope: &'a Scope, project: &'a str, file: &'a str, usage: Use) -> Lens<'a>
        ensures scene { scene_of result ≡ scene_at scope.entry.now project.entry.now file.entry.now
            usage }
        ensures folder { result.dir.now ≡ folder_of project.entry.now }
    {
        Lens {
            scope,
            dir: folder_of(project),
            project,
            file,
            usage,
            own: None,
            bucket: None,
        }
    }

    /// The same with an item of this type at hand.
    pub fn with_own(self, kind: &'a Name, item: &'a Item) -> Lens<'a>
        ensures scene { scene_of result ≡ with_own (scene_of self.entry) kind.entry.now
            item.entry.now }
        ensures folder { result.dir.now ≡ self.entry.dir.now }
    {
        Lens {
            own: Some((kind, item)),
            ..self
        }
    }

    /// The same in a bucket of an element. (MSBuild batching.)
    pub fn with_bucket(self, bucket: &'a Bucket) -> Lens<'a>
        ensures scene { scene_of result ≡ with_bucket (scene_of self.entry) bucket.entry.now }
        ensures folder { result.dir.now ≡ self.entry.dir.now }
    {
        Lens {
            bucket: Some(bucket),
            ..self
        }
    }

    /// The items of a type, as they stand in the scope: the bucket's, where it holds this list,
    /// else all.
    pub fn items(&self, kind: &Name) -> &'a [Item]
        ensures { result.now ≡ list_in (option_copied self.now.bucket) self.now.scope.now.items
            kind.now }
    {
        let all = items_or(self.scope.items.get(kind), &[]);
        match self.bucket {
            Some(bucket) => items_or(bucket.lists.get(kind), all),
            None => all,
        }
    }
}

fn items_or<'a>(list: Option<&'a SharedItems>, other: &'a [Item]) -> &'a [Item]
    ensures { result.now ≡ list_or (option_copied list.entry) other.now }
{
    match list {
        Some(list) => list.as_slice(),
        None => other,
    }
}
