ghost use Rattle.std.specs.Prelude.{◌≡◌, ℕ, List, map, filter, nat_eq, IsSorted};
ghost use Rattle.std.specs.List.{starts_with};
ghost use Rattle.std.specs.Ordering.{nat_cmp};
ghost use Rattle.std.specs.Cmp.Lexicographic.{slice_cmp};
ghost use Rattle.file_store.specs.Files.{paths_of};

use file_store::{File, Tree};
use msb_values::Text;
use std::marker::Model;

/// An entry of a list in which patterns are looked up.
pub trait HasPath {
    /// Its path.
    ghost path: { Self → List ℕ };

    /// Its path.
    fn path(&self) -> &str
        ensures { result.now ≡ path self.now };
}

impl HasPath for Text {
    ghost path = { λ text. text };

    fn path(&self) -> &str {
        self.as_str()
    }
}

impl HasPath for File {
    ghost path = { λ file. file.path };

    fn path(&self) -> &str {
        self.path.as_str()
    }
}

/// Paths in byte order, so that those which begin alike are found by halves. Equal ones may stand
/// side by side.
#[derive(Drop)]
pub struct SortedPaths<'a, P: HasPath> {
    entries: &'a [P],
}

impl<'a, P: HasPath> Model for SortedPaths<'a, P> {
    ghost use Rattle.std.specs.Prelude.{ℕ, List, map, IsSorted};
    ghost use Rattle.std.specs.Ordering.{nat_cmp};
    ghost use Rattle.std.specs.Cmp.Lexicographic.{slice_cmp};

    ghost Value = { List (List ℕ) };

    ghost view = { λ s. map P.path s.entries.now };

    ghost invariant = { λ s. IsSorted (slice_cmp nat_cmp) (map P.path s.entries.now) };
}

impl<'a, P: HasPath> SortedPaths<'a, P> {
    fn of(entries: &'a [P]) -> SortedPaths<'a, P>
        requires { IsSorted (slice_cmp nat_cmp) (map P.path entries.now) }
        ensures { result ≡ map P.path entries.now }
    {
        SortedPaths { entries }
    }

    /// The entries whose paths begin with a text. They stand together, so that their ends are found
    /// by halves.
    pub(crate) fn beginning_with(&self, front: &str) -> &'a [P]
        ensures whole { map P.path result.now
            ≡ filter (λ path. starts_with nat_eq path front.now) self.now }
        ensures in_order { IsSorted (slice_cmp nat_cmp) self.now }
    {
        let entries = self.entries;
        let first = entries.partition_point(|entry| entry.path() < front);
        let rest = &entries[first..];
        let end = rest.partition_point(|entry| begins_with(entry, front));
        &rest[..end]
    }
}

impl<'a> SortedPaths<'a, File> {
    /// The paths of a tree. Nothing is compared or copied, since its files stand in byte order.
    pub fn of_tree(tree: &'a Tree) -> SortedPaths<'a, File>
        ensures { result ≡ paths_of tree.now.files }
    {
        SortedPaths::of(tree.files.as_slice())
    }
}

impl<'a> SortedPaths<'a, Text> {
    /// These paths, which are known to stand in byte order. Nothing is compared or copied.
    pub fn of_texts(texts: &'a [Text]) -> SortedPaths<'a, Text>
        requires { IsSorted (slice_cmp nat_cmp) texts.now }
        ensures { result ≡ texts.now }
    {
        SortedPaths::of(texts)
    }
}

fn begins_with<P: HasPath>(entry: &P, front: &str) -> bool
    ensures { result ≡ starts_with nat_eq (P.path entry.now) front.now }
{
    entry.path().starts_with(front)
}
