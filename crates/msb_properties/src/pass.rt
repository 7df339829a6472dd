ghost use Rattle.std.specs.Prelude.{[], IsSome, OnOk};
ghost use Rattle.file_store.specs.Files.{file_at};
ghost use Rattle.build_world.specs.Answers.{GivesFault};
ghost use Rattle.msb_properties.specs.Settings.{setting};
ghost use Rattle.msb_properties.specs.Laid.{lay_within};
ghost use Rattle.msb_properties.specs.Passed.{passed, with_targets, seen_layout};
ghost use Rattle.msb_properties.specs.Seen.{seen_setting, seen_properties, seen_laid, IsKept};

use crate::laying::lay_file;
use crate::layout::Layout;
use crate::properties::Properties;
use crate::setting::Setting;
use crate::targets::{default_targets, initial_targets};
use crate::trees::ElementTrees;
use build_world::{EvalFault, LaidOut};
use file_store::Tree;
use msb_values::{InstanceKey, List};
use std::alloc::Global;
use std::mem;

/// Lays out the project of an instance, and takes its properties in order; or its first fault, with
/// the file and the place of its element. (How MSBuild builds projects, evaluation phase.)
///
/// No file is read whose tree is kept, and the trees of those that are imported are kept.
pub fn property_pass(
    alloc: Global,
    tree: &Tree,
    key: &InstanceKey,
    trees: &mut ElementTrees,
) -> Result<LaidOut, EvalFault>
    requires { IsSome (file_at key.now.path tree.now.files) }
    ensures { GivesFault seen_layout result (passed (setting tree.now.files key.now)) }
{
    let setting = Setting { tree, key };
    let properties = Properties::first(alloc, &setting)?;
    let mut layout = Layout {
        properties,
        elements: Vec::new(alloc),
        files: msb_import::LaidOut::new(alloc),
        duplicates: List::new(alloc),
        trees: take_trees(alloc, trees),
    };
    lay_own(alloc, &setting, &mut layout, trees)?;
    with_targets(alloc, &setting, layout)
}

/// Lays out the project's own file, and hands back the trees that are kept then, also where there
/// is a fault.
fn lay_own(
    alloc: Global,
    setting: &Setting<'_>,
    layout: &mut Layout,
    trees: &mut ElementTrees,
) -> Result<(), EvalFault>
    requires { IsKept (seen_setting setting.now) layout.old }
    ensures laid { GivesFault (λ _. seen_laid layout.new) result
        (lay_within 64 (seen_setting setting.now) [] setting.now.key.now.path
        (seen_laid layout.old)) }
    ensures kept { OnOk result (IsKept (seen_setting setting.now) layout.new) }
{
    let chain = List::new(alloc);
    let laid = lay_file(alloc, setting, layout, &chain, &setting.key.path);
    *trees = take_trees(alloc, &mut layout.trees);
    laid
}

/// The trees, with none left in their place.
fn take_trees(alloc: Global, trees: &mut ElementTrees) -> ElementTrees {
    mem::replace(trees, ElementTrees::new(alloc))
}

/// What is laid out, with the targets that it names.
fn with_targets(alloc: Global, setting: &Setting<'_>, layout: Layout) -> Result<LaidOut, EvalFault>
    requires { IsKept (seen_setting setting.now) layout }
    ensures { GivesFault seen_layout result
        (with_targets (seen_setting setting.now) (seen_laid layout)
        (seen_properties layout.properties)) }
{
    let elements = layout.elements.as_slice();
    let initial = initial_targets(alloc, setting, &layout.properties, elements)?;
    let default = default_targets(alloc, setting, &layout.properties, elements)?;
    let (properties, elements, duplicates) = layout.parts();
    Ok(LaidOut {
        elements,
        props: properties.into_values(),
        duplicates,
        initial,
        default,
    })
}
