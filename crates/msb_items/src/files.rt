ghost use Rattle.std.specs.Prelude.{◌≡◌, IfOk, IsSorted};
ghost use Rattle.std.specs.Ordering.{nat_cmp};
ghost use Rattle.std.specs.Cmp.Lexicographic.{slice_cmp};

use msb_files::FileView;
use msb_paths::Present;
use msb_values::{List, NoMemory, Text};
use std::alloc::Global;

/// A view of files that tells their paths in byte order.
pub(crate) trait ListedFiles: Present {
    fn paths(&self, alloc: Global) -> Result<List<Text>, NoMemory>
        ensures listed { IfOk result (λ paths. paths ≡ Self.files self.now) }
        ensures in_order { IfOk result (λ paths. IsSorted (slice_cmp nat_cmp) paths) };
}

impl<'a> ListedFiles for FileView<'a> {
    fn paths(&self, alloc: Global) -> Result<List<Text>, NoMemory> {
        FileView::paths(self, alloc)
    }
}
