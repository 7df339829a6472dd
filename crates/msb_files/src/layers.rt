//! The layers of a journal, the newest first.

ghost use Rattle.std.specs.Prelude.{◌≡◌, ◌++◌, IfOk, slice_get, option_copied};
ghost use Rattle.std.specs.List.{list_any};
ghost use Rattle.msb_values.specs.Acts.{act_path};
ghost use Rattle.result_cache.specs.Journal.{has};
ghost use Rattle.msb_files.specs.Below.{has_file_below};
ghost use Rattle.msb_files.specs.Indices.{last_act};
ghost use Rattle.msb_files.specs.Layers.{all_of};
ghost use Rattle.msb_files.specs.Views.{acts_of};

use crate::FileView;
use crate::entry::Entry;
use crate::layer::Layer;
use crate::mark::Mark;
use msb_values::{Act, List, NoMemory, Shared};
use std::alloc::Global;

/// The layers with a new one over them, which takes in those that are no larger than itself: so
/// each layer is larger than the one over it, and there are no more of them than the logarithm of
/// the number of entries.
pub(crate) fn with_new(
    alloc: Global,
    layers: &[Shared<Layer>],
    newest: Layer,
) -> Result<List<Shared<Layer>>, NoMemory>
    ensures { IfOk result (λ all. all_of all ≡ newest ++ all_of layers.now) }
{
    let mut newest = newest;
    let mut taken = 0;
    while taken < layers.len() {
        let older = layers[taken].get();
        if older.len() > newest.len() {
            break;
        }
        newest = newest.over(alloc, older)?;
        taken += 1;
    }
    let mut all = List::new(alloc);
    all.push(Shared::new(alloc, newest)?)?;
    all.append(List::of(alloc, &layers[taken..])?)?;
    Ok(all)
}

/// The last act on a path.
pub(crate) fn last_act<'a>(layers: &'a [Shared<Layer>], path: &str) -> Option<&'a Act>
    ensures { option_copied result ≡ last_act (all_of layers.now) path.now }
{
    for layer in layers {
        if let Some(act) = layer.get().last_act(path) {
            return Some(act);
        }
    }
    None
}

/// Whether there is an act on a path below a folder at which the view has a file.
pub(crate) fn is_any_below(layers: &[Shared<Layer>], view: &FileView<'_>, folder: &str) -> bool
    ensures { result ≡ list_any (λ act. has_file_below view.now folder.now (act_path act))
        (acts_of (all_of layers.now)) }
{
    for layer in layers {
        if layer.get().is_any_below(view, folder) {
            return true;
        }
    }
    false
}

/// Whether there is an entry with this mark. The oldest layer, which has the most entries, is asked
/// first.
pub(crate) fn has_mark(layers: &[Shared<Layer>], mark: &Mark<'_>) -> bool
    ensures { result ≡ has mark.now (all_of layers.now) }
{
    let count = layers.len();
    for at in 0..count {
        let place = count - 1 - at;
        if layers[place].get().has(mark) {
            return true;
        }
    }
    false
}

/// The entry at a place, from the newest on.
pub(crate) fn entry_at(layers: &[Shared<Layer>], at: usize) -> Option<&Entry>
    ensures { option_copied result ≡ slice_get (all_of layers.now) at }
{
    let mut left = at;
    for layer in layers {
        let len = layer.get().len();
        if left < len {
            return Some(layer.get().entry(left));
        }
        left -= len;
    }
    None
}
