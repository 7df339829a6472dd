ghost use Rattle.std.specs.Prelude.{◌++◌, map};
ghost use Rattle.msb_expand.specs.Answers.{GivesAs};
ghost use Rattle.msb_expand.specs.Joins.{each_behind};
ghost use Rattle.msb_expand.specs.Limits.{if_short};
ghost use Rattle.msb_expand.specs.Seen.{seen_item};
ghost use Rattle.msb_expand.specs.Values.{joined};

use crate::ExpandFault;
use crate::limits::grow;
use crate::seen::Seen;
use msb_values::Text;

/// Puts identities behind a text, with the separator between each two, where what comes of it is
/// not too long.
pub(crate) fn push_joined(
    text: &mut Text,
    items: &[Seen<'_>],
    separator: &str,
) -> Result<(), ExpandFault>
    ensures { GivesAs (λ _. text.new) result
        (if_short (text.old ++ joined separator.now (map seen_item items.now))) }
{
    match items {
        // Nothing comes of no items, but the text alone may be too long.
        [] => grow(text, ""),
        [first, others @ ..] => {
            grow(text, first.ident.as_str())?;
            push_each(text, others, separator)
        }
    }
}

/// Puts identities behind a text, each behind a separator.
fn push_each(text: &mut Text, items: &[Seen<'_>], separator: &str) -> Result<(), ExpandFault>
    ensures { GivesAs (λ _. text.new) result
        (if_short (text.old ++ each_behind separator.now (map seen_item items.now))) }
{
    for item in items {
        grow(text, separator)?;
        grow(text, item.ident.as_str())?;
    }
    grow(text, "")
}
