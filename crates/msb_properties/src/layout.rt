ghost use Rattle.std.specs.Prelude.{◌≡◌, [], ◌∷◌, ◌++◌, Ok, OnOk};
ghost use Rattle.build_world.specs.Answers.{GivesFault};
ghost use Rattle.build_world.specs.Elements.{at};
ghost use Rattle.msb_elements.specs.View.{view};

use crate::properties::Properties;
use crate::setting::Setting;
use crate::taking::take_element;
use crate::trees::ElementTrees;
use build_world::{EvalFault, Placed, PlacedElement};
use msb_elements::Element;
use msb_import::LaidOut;
use msb_values::{Copied, List, NoMemory, Text};
use std::alloc::Global;

/// The elements so far with the properties that they give, the files that they come from, and the
/// imports that were ignored; and the trees of files that are kept meanwhile, of which no contract
/// speaks.
pub(crate) struct Layout {
    pub properties: Properties,
    pub elements: Vec<Placed>,
    pub files: LaidOut,
    pub duplicates: List<Text>,
    pub trees: ElementTrees,
}

// A drop that is written out is proved here alone.
impl Drop for Layout {
    fn drop(self) {
        let Layout {
            properties: _,
            elements: _,
            files: _,
            duplicates: _,
            trees: _,
        } = self;
    }
}

impl Layout {
    ghost use Rattle.msb_properties.specs.Settings.{Setting as Given};
    ghost use Rattle.msb_properties.specs.Laid.{extended, with_file, with_duplicate};
    ghost use Rattle.msb_properties.specs.Seen.{seen_setting, seen_laid, IsKept};

    /// The properties, the elements, and the imports that were ignored.
    pub(crate) fn parts(self) -> (Properties, Vec<Placed>, List<Text>)
        ensures properties { result.0 ≡ self.properties }
        ensures elements { result.1 ≡ self.elements }
        ensures duplicates { result.2 ≡ self.duplicates }
    {
        let Layout {
            properties,
            elements,
            files: _,
            duplicates,
            trees: _,
        } = self;
        (properties, elements, duplicates)
    }

    /// Adds an element of a file, with what it changes of the properties.
    pub(crate) fn extend(
        &mut self,
        alloc: Global,
        setting: &Setting<'_>,
        file: &Text,
        element: Element,
    ) -> Result<(), EvalFault>
        requires { IsKept (seen_setting setting.now) self.old }
        ensures laid { GivesFault (λ _. seen_laid self.new) result
            (extended (seen_setting setting.now) (seen_laid self.old)
            (at file.now (view element))) }
        ensures kept { OnOk result (IsKept (seen_setting setting.now) self.new) }
    {
        let placed = PlacedElement {
            file: file.as_str(),
            element: &element,
        };
        take_element(alloc, setting, &mut self.properties, &placed)?;
        let file = file.copy()?;
        Ok(push_element(&mut self.elements, Placed { file, element })?)
    }

    /// Notes that a file is laid out.
    pub(crate) fn add_file(&mut self, file: &Text) -> Result<(), EvalFault>
        ensures laid { GivesFault (λ _. seen_laid self.new) result
            (Ok (with_file (seen_laid self.old) file.now)) }
        ensures kept { (s : Given) → IsKept s self.old → OnOk result (IsKept s self.new) }
    {
        self.files.push(file)?;
        Ok(())
    }

    /// Notes an import that is ignored.
    pub(crate) fn add_duplicate(&mut self, file: Text) -> Result<(), EvalFault>
        ensures laid { GivesFault (λ _. seen_laid self.new) result
            (Ok (with_duplicate (seen_laid self.old) file)) }
        ensures kept { (s : Given) → IsKept s self.old → OnOk result (IsKept s self.new) }
    {
        self.duplicates.push(file)?;
        Ok(())
    }
}

fn push_element(elements: &mut Vec<Placed>, placed: Placed) -> Result<(), NoMemory>
    ensures { OnOk result (elements.new.items ≡ elements.old.items ++ placed ∷ []) }
{
    elements.push(placed)?;
    Ok(())
}
