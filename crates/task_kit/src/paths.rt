ghost use Rattle.task_trait.specs.Answers.{Gives};
ghost use Rattle.task_kit.specs.Paths.{path_in};

use msb_paths::{NormalFault, normal_path};
use msb_values::Text;
use std::alloc::Global;
use task_trait::{Failure, bad_parameter};

/// The normal path of a text of the parameter of this name, from the folder of the project.
pub(crate) fn path_in(alloc: Global, dir: &str, name: &str, text: &str) -> Result<Text, Failure>
    ensures { Gives result (path_in dir.now name.now text.now) }
{
    match normal_path(alloc, dir, text) {
        Ok(path) => Ok(Text::of(alloc, path.as_str())?),
        Err(NormalFault::Memory) => Err(Failure::Memory),
        Err(NormalFault::AboveRoot) => Err(bad_parameter(alloc, name)?),
        Err(NormalFault::Empty) => Err(bad_parameter(alloc, name)?),
        Err(NormalFault::ControlCharacter) => Err(bad_parameter(alloc, name)?),
    }
}
