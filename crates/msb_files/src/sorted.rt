//! The places of acts in byte order of their paths, which are searched by halves.

ghost use Rattle.std.specs.Prelude.{
  ◌≡◌,
  ◌+◌,
  ◌++◌,
  map,
  reverse,
  slice_get,
  IfOk,
  OnOk,
  option_copied,
};
ghost use Rattle.std.specs.List.{list_any};
ghost use Rattle.msb_values.specs.Acts.{act_path};
ghost use Rattle.msb_files.specs.Below.{has_file_below};
ghost use Rattle.msb_files.specs.Indices.{IsByPath, IsOrdered, act_on, last_act};
ghost use Rattle.msb_files.specs.Places.{path_at, places_of};
ghost use Rattle.msb_files.specs.Views.{acts_of};

use crate::FileView;
use crate::entry::Entry;
use file_store::{is_ahead, is_below};
use msb_values::{Act, NoMemory};
use std::alloc::Global;

/// The places of the acts of entries that stand oldest first, in byte order of their paths.
pub(crate) fn by_path(alloc: Global, entries: &[Entry]) -> Result<Vec<usize>, NoMemory>
    ensures { IfOk result (λ places. IsByPath entries.now places.items) }
{
    let places = places_of(alloc, entries)?;
    order(entries, places)
}

/// The places of newer acts, which so many entries precede, and of older ones: where both are in
/// byte order of their paths, they are merged.
pub(crate) fn merge(
    alloc: Global,
    entries: &[Entry],
    newer: &[usize],
    older: &[usize],
    shift: usize,
) -> Result<Vec<usize>, NoMemory>
    ensures { IfOk result (λ places.
        IsOrdered entries.now (map (λ at. at + shift) newer.now ++ older.now) places.items) }
{
    let mut places = Vec::new(alloc);
    push_shifted(&mut places, newer, shift)?;
    places.extend_from_slice(older)?;
    order(entries, places)
}

fn push_shifted(places: &mut Vec<usize>, newer: &[usize], shift: usize) -> Result<(), NoMemory>
    ensures { OnOk result
        (places.new.items ≡ places.old.items ++ map (λ at. at + shift) newer.now) }
{
    for at in newer {
        let Some(place) = at.checked_add(shift) else {
            return Err(NoMemory);
        };
        places.push(place)?;
    }
    Ok(())
}

// The newest first.
fn places_of(alloc: Global, entries: &[Entry]) -> Result<Vec<usize>, NoMemory>
    ensures { IfOk result (λ places. places.items ≡ places_of (reverse entries.now)) }
{
    let len = entries.len();
    let mut places = Vec::new(alloc);
    for at in 0..len {
        let place = len - 1 - at;
        if let Some(_) = entries[place].act() {
            places.push(place)?;
        }
    }
    Ok(places)
}

// The sort finds parts that are in order already, and merges them.
fn order(entries: &[Entry], places: Vec<usize>) -> Result<Vec<usize>, NoMemory>
    ensures { IfOk result (λ sorted. IsOrdered entries.now places.items sorted.items) }
{
    let mut places = places;
    places.sort_by(|a, b| path_at(entries, *a).cmp(path_at(entries, *b)))?;
    Ok(places)
}

fn entry_at(entries: &[Entry], at: usize) -> Option<&Entry>
    ensures { option_copied result ≡ slice_get entries.now at }
{
    entries.get(at)
}

// The path of the act at a place.
fn path_at(entries: &[Entry], at: usize) -> &str
    ensures { result.now ≡ path_at entries.now at }
{
    match entry_at(entries, at) {
        Some(entry) => entry.path(),
        None => "",
    }
}

// The act at a place, if it is one on this path.
fn act_on<'a>(entries: &'a [Entry], at: usize, path: &str) -> Option<&'a Act>
    ensures { option_copied result ≡ act_on (slice_get entries.now at) path.now }
{
    match entry_at(entries, at) {
        Some(entry) => entry.act_on(path),
        None => None,
    }
}

/// The newest act on a path.
pub(crate) fn last_act<'a>(entries: &'a [Entry], places: &[usize], path: &str) -> Option<&'a Act>
    requires { IsByPath entries.now places.now }
    ensures { option_copied result ≡ last_act (reverse entries.now) path.now }
{
    let first = places.partition_point(|at| path_at(entries, *at) < path);
    if first == places.len() {
        return None;
    }
    act_on(entries, places[first], path)
}

/// Whether one of the acts is on a path below a folder at which the view has a file.
pub(crate) fn is_any_below(
    entries: &[Entry],
    places: &[usize],
    view: &FileView<'_>,
    folder: &str,
) -> bool
    requires { IsByPath entries.now places.now }
    ensures { result ≡ list_any (λ act. has_file_below view.now folder.now (act_path act))
        (acts_of (reverse entries.now)) }
{
    let first = places.partition_point(|at| is_ahead(path_at(entries, *at), folder));
    for at in first..places.len() {
        let path = path_at(entries, places[at]);
        if !is_below(path, folder) {
            return false;
        }
        if view.content(path).is_some() {
            return true;
        }
    }
    false
}
