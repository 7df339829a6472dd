ghost use Rattle.std.specs.Prelude.{◌≡◌, map};
ghost use Rattle.build_world.specs.Elements.{seen_placed};
ghost use Rattle.msb_items.specs.Definitions.{project_path};

use build_world::Placed;
use file_store::File;
use msb_glob::SortedPaths;
use msb_paths::Present;

/// A view of the files, and the path of the root file of the project.
#[derive(Drop)]
pub(crate) struct ProjectFiles<'a, F> {
    pub(crate) files: &'a F,
    pub(crate) project: &'a str,
}

/// What does not change in the item pass: the files, and their paths in order, in which patterns
/// are looked up.
#[derive(Drop)]
pub(crate) struct ItemFiles<'a, F: Present> {
    pub(crate) source: ProjectFiles<'a, F>,
    pub(crate) paths: SortedPaths<'a, File>,
    pub(crate) ghost all: { paths ≡ F.files source.files.now },
}

/// The path of the root file, which is that of the first element.
pub(crate) fn project_path(elements: &[Placed]) -> &str
    ensures { result.now ≡ project_path (map seen_placed elements.now) }
{
    match elements {
        [first, ..] => first.file.as_str(),
        [] => "",
    }
}
