ghost use Rattle.std.specs.Prelude.{◌≡◌, Some, IfOk};
ghost use Rattle.file_store.specs.Files.{paths_of};
ghost use Rattle.build_world.specs.Answers.{GivesFault};
ghost use Rattle.build_world.specs.Elements.{seen_element};
ghost use Rattle.element_texts.specs.Contexts.{list_at, names_at, text_at};
ghost use Rattle.element_texts.specs.Seen.{context_of};
ghost use Rattle.msb_expand.specs.declared.lens.Use.TheVariants.{Definition};
ghost use Rattle.msb_properties.specs.Settings.{context_at};
ghost use Rattle.msb_properties.specs.Propertied.{
  holds_from,
  holds_in_file,
  holds_in_project,
  first_properties,
};
ghost use Rattle.msb_properties.specs.Seen.{seen_setting, seen_properties, IsPlain};

use crate::setting::Setting;
use build_world::{EvalFault, PlacedElement};
use element_texts::ElementContext;
use file_store::Tree;
use msb_expand::{Use, folder_of};
use msb_values::{Copied, Defaults, Item, List, Lists, Name, NoMemory, Pairs, Scope, Text};
use std::alloc::Global;

/// The properties so far, and the global ones that a file has made its own.
pub(crate) struct Properties {
    /// The global properties and the properties; no item is seen.
    pub scope: Scope,
    pub local: List<Name>,
}

// A drop that is written out is proved here alone.
impl Drop for Properties {
    fn drop(self) {
        let Properties { scope: _, local: _ } = self;
    }
}

impl Properties {
    /// They begin as the global ones.
    pub(crate) fn first(alloc: Global, setting: &Setting<'_>) -> Result<Properties, NoMemory>
        ensures plain { IfOk result (λ p. IsPlain (seen_setting setting.now) p) }
        ensures first { IfOk result (λ p. seen_properties p
            ≡ first_properties (seen_setting setting.now)) }
    {
        Ok(Properties {
            scope: Scope {
                globals: setting.key.globals.copy()?,
                props: setting.key.globals.copy()?,
                items: Lists::new(alloc),
                defaults: Defaults::new(alloc),
            },
            local: List::new(alloc),
        })
    }

    /// The value of each property.
    pub(crate) fn into_values(self) -> Pairs
        ensures { result ≡ self.scope.props }
    {
        let Properties { scope, local: _ } = self;
        let (_, props, _, _) = scope.parts();
        props
    }

    /// What the texts of an element see.
    fn context<'a>(&'a self, setting: &'a Setting<'a>, usage: Use) -> ElementContext<'a, Tree>
        requires { IsPlain (seen_setting setting.now) self.now }
        ensures { context_of (λ tree. paths_of tree.files) result
            ≡ context_at (seen_setting setting.now) (seen_properties self.now) usage }
    {
        ElementContext {
            files: setting.tree,
            project: setting.key.path.as_str(),
            scope: &self.scope,
            usage,
            own: None,
            bucket: None,
        }
    }

    /// The text of an element's attribute or of its body, with values put in.
    pub(crate) fn text(
        &self,
        alloc: Global,
        setting: &Setting<'_>,
        element: &PlacedElement<'_>,
        usage: Use,
        written: &str,
    ) -> Result<Text, EvalFault>
        requires { IsPlain (seen_setting setting.now) self.now }
        ensures { GivesFault (λ text. text) result
            (text_at
            (context_at (seen_setting setting.now) (seen_properties self.now) usage)
            (seen_element element.now) written.now) }
    {
        self.context(setting, usage).text(alloc, element, written)
    }

    /// The items that an element's attribute names as a list.
    pub(crate) fn list(
        &self,
        alloc: Global,
        setting: &Setting<'_>,
        element: &PlacedElement<'_>,
        written: &str,
    ) -> Result<List<Item>, EvalFault>
        requires { IsPlain (seen_setting setting.now) self.now }
        ensures { GivesFault (λ items. items) result
            (list_at
            (context_at (seen_setting setting.now) (seen_properties self.now) Definition)
            (seen_element element.now) written.now) }
    {
        self.context(setting, Use::Definition)
            .list(alloc, element, written)
    }

    /// The targets that an element's attribute names.
    pub(crate) fn names(
        &self,
        alloc: Global,
        setting: &Setting<'_>,
        element: &PlacedElement<'_>,
        written: &str,
    ) -> Result<List<Name>, EvalFault>
        requires { IsPlain (seen_setting setting.now) self.now }
        ensures { GivesFault (λ names. names) result
            (names_at
            (context_at (seen_setting setting.now) (seen_properties self.now) Definition)
            (seen_element element.now) (Some written.now)) }
    {
        self.context(setting, Use::Definition)
            .names(alloc, element, Some(written))
    }

    /// Whether the Condition of an element holds, whose Exists starts from this folder.
    fn holds_from(
        &self,
        alloc: Global,
        setting: &Setting<'_>,
        element: &PlacedElement<'_>,
        folder: &str,
    ) -> Result<bool, EvalFault>
        requires { IsPlain (seen_setting setting.now) self.now }
        ensures { GivesFault (λ holds. holds) result
            (holds_from folder.now (seen_setting setting.now) (seen_properties self.now)
            (seen_element element.now)) }
    {
        let condition = element.element.attribute("Condition");
        self.context(setting, Use::Definition)
            .holds_from(alloc, element, condition, folder)
    }

    /// Of a PropertyGroup, an Import or an ImportGroup, where the folder is that of its file.
    pub(crate) fn holds_in_file(
        &self,
        alloc: Global,
        setting: &Setting<'_>,
        element: &PlacedElement<'_>,
    ) -> Result<bool, EvalFault>
        requires { IsPlain (seen_setting setting.now) self.now }
        ensures { GivesFault (λ holds. holds) result
            (holds_in_file (seen_setting setting.now) (seen_properties self.now)
            (seen_element element.now)) }
    {
        self.holds_from(alloc, setting, element, folder_of(element.file))
    }

    /// Of any other element, where it is the project's folder.
    pub(crate) fn holds_in_project(
        &self,
        alloc: Global,
        setting: &Setting<'_>,
        element: &PlacedElement<'_>,
    ) -> Result<bool, EvalFault>
        requires { IsPlain (seen_setting setting.now) self.now }
        ensures { GivesFault (λ holds. holds) result
            (holds_in_project (seen_setting setting.now) (seen_properties self.now)
            (seen_element element.now)) }
    {
        self.holds_from(
            alloc,
            setting,
            element,
            folder_of(setting.key.path.as_str()),
        )
    }
}
