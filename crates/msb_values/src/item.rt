ghost use Rattle.std.specs.Prelude.{◌≡◌};

use crate::{Copied, NoMemory, Pairs, Text};

/// An item of a list: its identity and metadata. (MSBuild items.)
#[derive(PartialEq, Eq, PartialOrd, Ord, Hash)]
pub struct Item {
    pub ident: Text,
    /// What the first `**` of the pattern stood for that the item came from, else empty.
    pub recursive: Text,
    /// The item's own metadata.
    pub meta: Pairs,
}

// A drop that is written out is proved here alone.
impl Drop for Item {
    fn drop(self) {
        let Item {
            ident: _,
            recursive: _,
            meta: _,
        } = self;
    }
}

impl Item {
    /// Its identity, what the first `**` of the pattern stood for, and its own metadata.
    pub fn parts(self) -> (Text, Text, Pairs)
        ensures ident { result.0 ≡ self.ident }
        ensures recursive { result.1 ≡ self.recursive }
        ensures meta { result.2 ≡ self.meta }
    {
        let Item {
            ident,
            recursive,
            meta,
        } = self;
        (ident, recursive, meta)
    }
}

impl Copied for Item {
    fn copy(&self) -> Result<Item, NoMemory> {
        Ok(Item {
            ident: self.ident.copy()?,
            recursive: self.recursive.copy()?,
            meta: self.meta.copy()?,
        })
    }
}
