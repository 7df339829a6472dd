ghost use Rattle.std.specs.Prelude.{◌++◌};
ghost use Rattle.msb_expand.specs.Answers.{GivesAs};
ghost use Rattle.msb_expand.specs.Limits.{if_short};

use crate::ExpandFault;
use msb_values::Text;

/// How many bytes an expansion may have: 4 MiB.
pub(crate) const LIMIT: usize = 4_194_304;

/// Puts more behind a text, where what comes of it is not too long.
pub(crate) fn grow(text: &mut Text, more: &str) -> Result<(), ExpandFault>
    ensures { GivesAs (λ _. text.new) result (if_short (text.old ++ more.now)) }
{
    if text.as_str().len().saturating_add(more.len()) > LIMIT {
        return Err(ExpandFault::TooLong);
    }
    Ok(text.push_str(more)?)
}
