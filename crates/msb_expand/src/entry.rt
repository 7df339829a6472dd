use msb_values::Item;

/// An entry of a list: its item, and how it came. (MSBuild items.)
#[derive(Drop)]
pub struct Entry {
    pub item: Item,
    /// Whether it was written as text, into which properties and metadata are put; else a reference
    /// gave it, and its identity is no pattern.
    pub written: bool,
}
