ghost use Rattle.std.specs.Prelude.{◌≡◌, ◌++◌, length, IfOk, OnOk, string_bytes};
ghost use Rattle.std.specs.List.{flat_map};
ghost use Rattle.build_report.specs.Shown.{
  error_lines,
  items_returned,
  item_line,
  returned_lines,
  last_line,
  end_lines,
};

use crate::lines::push_line;
use msb_values::{Item, NoMemory, Text, unescape};
use result_cache::{RequestResult, Returned};
use std::alloc::Global;

/// What the root request gives: its error text, the items it returns, and how it ended.
pub fn push_end(alloc: Global, shown: &mut String, root: &RequestResult) -> Result<(), NoMemory>
    ensures { OnOk result (string_bytes shown.new ≡ string_bytes shown.old ++ end_lines root.now) }
{
    push_error(shown, &root.error)?;
    push_returned(alloc, shown, root.returned.as_slice())?;
    Ok(shown.push_str(last_line(root.ok))?)
}

fn push_error(shown: &mut String, error: &Option<Text>) -> Result<(), NoMemory>
    ensures { OnOk result (string_bytes shown.new
        ≡ string_bytes shown.old ++ error_lines error.now) }
{
    match error {
        Some(error) => push_line(shown, "error: ", error.as_str()),
        None => Ok(()),
    }
}

fn push_returned(alloc: Global, shown: &mut String, returned: &[Returned]) -> Result<(), NoMemory>
    ensures { OnOk result (string_bytes shown.new
        ≡ string_bytes shown.old ++ returned_lines (items_returned returned.now)) }
{
    let count = count_items(returned)?;
    write!(shown, "returned {count}\n")?;
    push_lists(alloc, shown, returned)
}

/// How many items the targets have returned.
fn count_items(returned: &[Returned]) -> Result<usize, NoMemory>
    ensures { IfOk result (λ n. n ≡ length (items_returned returned.now)) }
{
    let mut count: usize = 0;
    for one in returned {
        count = count.checked_add(one.items.len()).ok_or(NoMemory)?;
    }
    Ok(count)
}

fn push_lists(alloc: Global, shown: &mut String, returned: &[Returned]) -> Result<(), NoMemory>
    ensures { OnOk result (string_bytes shown.new
        ≡ string_bytes shown.old ++ flat_map item_line (items_returned returned.now)) }
{
    for one in returned {
        push_items(alloc, shown, one.items.as_slice())?;
    }
    Ok(())
}

fn push_items(alloc: Global, shown: &mut String, items: &[Item]) -> Result<(), NoMemory>
    ensures { OnOk result (string_bytes shown.new
        ≡ string_bytes shown.old ++ flat_map item_line items.now) }
{
    for item in items {
        let ident = unescape(alloc, item.ident.as_str())?;
        push_line(shown, "  ", ident.as_str())?;
    }
    Ok(())
}

fn last_line(ok: bool) -> &'static str
    ensures { result.now ≡ last_line ok }
{
    if ok {
        "build succeeded\n"
    } else {
        "build failed\n"
    }
}
