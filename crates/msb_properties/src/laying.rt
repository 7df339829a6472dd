ghost use Rattle.std.specs.Prelude.{◌≡◌, ◌<◌, ◌-◌, [], ◌∷◌, ◌++◌, length, IfOk, OnOk};
ghost use Rattle.msb_elements.specs.View.{view, views};
ghost use Rattle.build_world.specs.Answers.{GivesFault};
ghost use Rattle.build_world.specs.Elements.{seen_element};
ghost use Rattle.msb_elements.specs.Nodes.{name_of};
ghost use Rattle.msb_properties.specs.declared.part.Part.TheVariants.{Grouped};
ghost use Rattle.msb_properties.specs.Laid.{
  import_text,
  imported_as,
  lay_import,
  lay,
  part_of,
  lay_all,
  lay_chosen,
  lay_project,
  lay_within,
};
ghost use Rattle.msb_properties.specs.Seen.{
  seen_setting,
  seen_properties,
  seen_laid,
  IsPlain,
  IsKept,
};

use crate::layout::Layout;
use crate::part::Part;
use crate::properties::Properties;
use crate::setting::Setting;
use build_world::{EvalFault, PlacedElement};
use msb_elements::Element;
use msb_expand::Use;
use msb_import::{ImportFault, resolve};
use msb_values::{Cause, Copied, List, NoMemory, Text, unescape};
use std::alloc::Global;

/// A file that is laid out, and what it is laid out with.
#[derive(Clone, Copy)]
struct FileContext<'a> {
    /// What the evaluation works with.
    setting: Setting<'a>,
    /// The paths of the files that import one another, from the project's own to this one.
    chain: &'a List<Text>,
    /// The path of the file.
    file: &'a Text,
}

/// Lays out the file at a path, which the last of the chain imports. (How MSBuild builds projects,
/// evaluation phase.)
#[cycle(laying)]
pub(crate) fn lay_file(
    alloc: Global,
    setting: &Setting<'_>,
    layout: &mut Layout,
    chain: &List<Text>,
    path: &Text,
) -> Result<(), EvalFault>
    requires short { length chain.now < 64 }
    requires kept { IsKept (seen_setting setting.now) layout.old }
    ensures laid { GivesFault (λ _. seen_laid layout.new) result
        (lay_within (64 - length chain.now) (seen_setting setting.now) chain.now path.now
        (seen_laid layout.old)) }
    ensures kept { OnOk result (IsKept (seen_setting setting.now) layout.new) }
{
    let Some(file) = setting.tree.find(path.as_str()) else {
        return Ok(());
    };
    let longer = with_file(chain, path)?;
    let root = layout.trees.read(alloc, file)?;
    let context = FileContext {
        setting: *setting,
        chain: &longer,
        file: &file.path,
    };
    lay_project(alloc, &context, layout, root)
}

/// The chain with one more file.
fn with_file(chain: &List<Text>, file: &Text) -> Result<List<Text>, NoMemory>
    ensures { IfOk result (λ longer. longer ≡ chain.now ++ file.now ∷ []) }
{
    let mut longer = chain.copy()?;
    longer.push(file.copy()?)?;
    Ok(longer)
}

/// A file: its Project element, and then the children of this.
#[cycle(laying)]
fn lay_project(
    alloc: Global,
    context: &FileContext<'_>,
    layout: &mut Layout,
    root: Element,
) -> Result<(), EvalFault>
    requires { IsKept (seen_setting context.now.setting) layout.old }
    ensures laid { GivesFault (λ _. seen_laid layout.new) result
        (lay_project
        (lay_within (64 - length context.now.chain.now) (seen_setting context.now.setting))
        (seen_setting context.now.setting) context.now.chain.now context.now.file.now
        (seen_laid layout.old) (view root)) }
    ensures kept { OnOk result (IsKept (seen_setting context.now.setting) layout.new) }
{
    let (element, children) = root.split(alloc);
    layout.add_file(context.file)?;
    layout.extend(alloc, &context.setting, context.file, element)?;
    lay_all(alloc, context, layout, children)
}

/// Each of some elements in turn.
#[cycle(laying)]
fn lay_all(
    alloc: Global,
    context: &FileContext<'_>,
    layout: &mut Layout,
    children: Vec<Element>,
) -> Result<(), EvalFault>
    requires { IsKept (seen_setting context.now.setting) layout.old }
    ensures laid { GivesFault (λ _. seen_laid layout.new) result
        (lay_all (lay_within (64 - length context.now.chain.now) (seen_setting context.now.setting))
        (seen_setting context.now.setting) context.now.chain.now context.now.file.now
        (seen_laid layout.old) (views children.items)) }
    ensures kept { OnOk result (IsKept (seen_setting context.now.setting) layout.new) }
{
    for child in children {
        lay_one(alloc, context, layout, child)?;
    }
    Ok(())
}

#[cycle(laying)]
fn lay_one(
    alloc: Global,
    context: &FileContext<'_>,
    layout: &mut Layout,
    child: Element,
) -> Result<(), EvalFault>
    requires { IsKept (seen_setting context.now.setting) layout.old }
    ensures laid { GivesFault (λ _. seen_laid layout.new) result
        (lay (lay_within (64 - length context.now.chain.now) (seen_setting context.now.setting))
        (seen_setting context.now.setting) context.now.chain.now context.now.file.now
        (seen_laid layout.old) (view child)) }
    ensures kept { OnOk result (IsKept (seen_setting context.now.setting) layout.new) }
{
    match Part::of(child.name()) {
        Part::Imported => {
            let element = PlacedElement {
                file: context.file.as_str(),
                element: &child,
            };
            lay_import(alloc, context, layout, &element)
        }
        Part::Grouped => lay_group(alloc, context, layout, child),
        Part::Chosen => {
            let (_, choices) = child.split(alloc);
            lay_chosen(alloc, context, layout, choices)
        }
        Part::PassedOver => Ok(()),
        Part::LaidOut => layout.extend(alloc, &context.setting, context.file, child),
    }
}

/// The imports of an ImportGroup whose Condition holds. (ImportGroup element.)
#[cycle(laying)]
fn lay_group(
    alloc: Global,
    context: &FileContext<'_>,
    layout: &mut Layout,
    group: Element,
) -> Result<(), EvalFault>
    requires group { part_of (name_of (view group)) ≡ Grouped }
    requires kept { IsKept (seen_setting context.now.setting) layout.old }
    ensures laid { GivesFault (λ _. seen_laid layout.new) result
        (lay (lay_within (64 - length context.now.chain.now) (seen_setting context.now.setting))
        (seen_setting context.now.setting) context.now.chain.now context.now.file.now
        (seen_laid layout.old) (view group)) }
    ensures kept { OnOk result (IsKept (seen_setting context.now.setting) layout.new) }
{
    let element = PlacedElement {
        file: context.file.as_str(),
        element: &group,
    };
    if layout
        .properties
        .holds_in_file(alloc, &context.setting, &element)?
    {
        let (_, imports) = group.split(alloc);
        return lay_all(alloc, context, layout, imports);
    }
    Ok(())
}

/// The first of the children of a Choose whose Condition holds; an Otherwise has none. (Choose
/// element.)
#[cycle(laying)]
fn lay_chosen(
    alloc: Global,
    context: &FileContext<'_>,
    layout: &mut Layout,
    choices: Vec<Element>,
) -> Result<(), EvalFault>
    requires { IsKept (seen_setting context.now.setting) layout.old }
    ensures laid { GivesFault (λ _. seen_laid layout.new) result
        (lay_chosen
        (lay_within (64 - length context.now.chain.now) (seen_setting context.now.setting))
        (seen_setting context.now.setting) context.now.chain.now context.now.file.now
        (seen_laid layout.old) (views choices.items)) }
    ensures kept { OnOk result (IsKept (seen_setting context.now.setting) layout.new) }
{
    for choice in choices {
        let element = PlacedElement {
            file: context.file.as_str(),
            element: &choice,
        };
        if layout
            .properties
            .holds_in_project(alloc, &context.setting, &element)?
        {
            let (_, children) = choice.split(alloc);
            return lay_all(alloc, context, layout, children);
        }
    }
    Ok(())
}

/// An Import whose Condition holds brings in a file. (Import element.)
#[cycle(laying)]
fn lay_import(
    alloc: Global,
    context: &FileContext<'_>,
    layout: &mut Layout,
    element: &PlacedElement<'_>,
) -> Result<(), EvalFault>
    requires { IsKept (seen_setting context.now.setting) layout.old }
    ensures laid { GivesFault (λ _. seen_laid layout.new) result
        (lay_import
        (lay_within (64 - length context.now.chain.now) (seen_setting context.now.setting))
        (seen_setting context.now.setting) context.now.chain.now (seen_laid layout.old)
        (seen_element element.now)) }
    ensures kept { OnOk result (IsKept (seen_setting context.now.setting) layout.new) }
{
    if !layout
        .properties
        .holds_in_file(alloc, &context.setting, element)?
    {
        return Ok(());
    }
    let text = import_text(alloc, &context.setting, &layout.properties, element)?;
    let found = resolve(
        alloc,
        context.setting.tree,
        context.chain,
        &layout.files,
        text.as_str(),
    );
    lay_found(alloc, context, layout, element, found)
}

/// What an import brings in, or why it brings in nothing. A file that was laid out before is noted
/// and ignored.
#[cycle(laying)]
fn lay_found(
    alloc: Global,
    context: &FileContext<'_>,
    layout: &mut Layout,
    element: &PlacedElement<'_>,
    found: Result<Text, ImportFault>,
) -> Result<(), EvalFault>
    requires short { IfOk found (λ _. length context.now.chain.now < 64) }
    requires kept { IsKept (seen_setting context.now.setting) layout.old }
    ensures laid { GivesFault (λ _. seen_laid layout.new) result
        (imported_as
        (lay_within (64 - length context.now.chain.now) (seen_setting context.now.setting))
        context.now.chain.now (seen_laid layout.old) (seen_element element.now) found) }
    ensures kept { OnOk result (IsKept (seen_setting context.now.setting) layout.new) }
{
    match found {
        Ok(path) => lay_file(alloc, &context.setting, layout, context.chain, &path),
        Err(ImportFault::Duplicate(path)) => layout.add_duplicate(path),
        Err(ImportFault::Missing(path)) => Err(element.fault(alloc, Cause::MissingImport(path))),
        Err(ImportFault::ImportDepth) => Err(element.fault(alloc, Cause::ImportDepth)),
        Err(ImportFault::Path(text)) => Err(element.fault(alloc, Cause::BadPath(text))),
        Err(ImportFault::Memory) => Err(EvalFault::from(NoMemory)),
    }
}

/// The text of an import's Project, unescaped.
fn import_text(
    alloc: Global,
    setting: &Setting<'_>,
    properties: &Properties,
    element: &PlacedElement<'_>,
) -> Result<Text, EvalFault>
    requires { IsPlain (seen_setting setting.now) properties.now }
    ensures { GivesFault (λ text. text) result
        (import_text (seen_setting setting.now) (seen_properties properties.now)
        (seen_element element.now)) }
{
    let written = match element.element.attribute("Project") {
        Some(written) => written,
        None => "",
    };
    let text = properties.text(alloc, setting, element, Use::Definition, written)?;
    Ok(unescape(alloc, text.as_str())?)
}
