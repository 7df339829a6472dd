ghost use Rattle.std.specs.Prelude.{◌≡◌, option_copied};
ghost use Rattle.target_incremental.specs.Inferred.{inferred};

use msb_values::{Item, List, Name};
use task_trait::Param;

/// What an Output of a task is taken to be where the task is not called: the task's parameter of
/// the same name, or nothing, if it is given none. It takes no memory. (How to build incrementally,
/// output inference.)
pub fn infer<'a>(params: &'a List<Param>, output: &Name) -> Option<&'a List<Item>>
    ensures { option_copied result ≡ inferred params.entry.now output.now }
{
    match params.as_slice().iter().find(|param| param.name == *output) {
        Some(param) => Some(&param.items),
        None => None,
    }
}
