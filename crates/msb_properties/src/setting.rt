use file_store::Tree;
use msb_values::InstanceKey;

/// What the evaluation of an instance works with.
#[derive(Clone, Copy)]
pub(crate) struct Setting<'a> {
    pub tree: &'a Tree,
    pub key: &'a InstanceKey,
}
