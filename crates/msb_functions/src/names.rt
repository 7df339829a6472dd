ghost use Rattle.std.specs.Prelude.{◌≡◌, IfOk, codes};
ghost use Rattle.std.specs.Str.{bytes_eq, str_to_ascii_lowercase};
ghost use Rattle.msb_functions.specs.Names.{at_name, named, text_functions, build_functions};

use crate::NoRoom;
use std::alloc::Global;

/// A function of a text, that is called with parentheses.
#[derive(Clone, Copy)]
pub enum TextFunction {
    Replace,
    Substring,
    StartsWith,
    EndsWith,
    Contains,
    Trim,
}

impl TextFunction {
    /// The function of this name, in whatever case.
    pub(crate) fn find(alloc: Global, name: &str) -> Result<Option<TextFunction>, NoRoom>
        ensures { IfOk result (λ function. function ≡ named text_functions name.now) }
    {
        let key = name.to_ascii_lowercase(alloc)?;
        Ok(TextFunction::of_key(key.as_str()))
    }

    fn of_key(key: &str) -> Option<TextFunction>
        ensures { result ≡ at_name key.now text_functions }
    {
        match key {
            "replace" => Some(TextFunction::Replace),
            "substring" => Some(TextFunction::Substring),
            "startswith" => Some(TextFunction::StartsWith),
            "endswith" => Some(TextFunction::EndsWith),
            "contains" => Some(TextFunction::Contains),
            "trim" => Some(TextFunction::Trim),
            _ => None,
        }
    }
}

/// A function of `[MSBuild]`.
#[derive(Clone, Copy)]
pub enum BuildFunction {
    Add,
    Subtract,
    Multiply,
    ValueOrDefault,
}

impl BuildFunction {
    /// The function of this name, in whatever case.
    pub(crate) fn find(alloc: Global, name: &str) -> Result<Option<BuildFunction>, NoRoom>
        ensures { IfOk result (λ function. function ≡ named build_functions name.now) }
    {
        let key = name.to_ascii_lowercase(alloc)?;
        Ok(BuildFunction::of_key(key.as_str()))
    }

    fn of_key(key: &str) -> Option<BuildFunction>
        ensures { result ≡ at_name key.now build_functions }
    {
        match key {
            "add" => Some(BuildFunction::Add),
            "subtract" => Some(BuildFunction::Subtract),
            "multiply" => Some(BuildFunction::Multiply),
            "valueordefault" => Some(BuildFunction::ValueOrDefault),
            _ => None,
        }
    }
}

/// Whether this is the name of the length of a text.
pub(crate) fn is_length(alloc: Global, name: &str) -> Result<bool, NoRoom>
    ensures { IfOk result (λ is. is ≡ bytes_eq (str_to_ascii_lowercase name.now) (codes "length")) }
{
    let key = name.to_ascii_lowercase(alloc)?;
    Ok(key.as_str() == "length")
}
