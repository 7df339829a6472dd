ghost use Rattle.std.specs.Prelude.{
  ◌≡◌,
  ◌<◌,
  ◌+◌,
  ◌++◌,
  ◌∷◌,
  [],
  ℕ,
  length,
  map,
  IfOk,
  OnOk,
  ◌==◌,
  slice_index_or,
  slice_set,
  if◌then◌else◌,
};
ghost use Rattle.target_order.specs.Visit.{first_rows, keep as keep_row};
ghost use Rattle.target_order.specs.Table.{side_of, names_in, AreDistinct, AreHooks, AreHooked};

use crate::TargetRow;
use crate::numbers::Numbers;
use msb_values::{Copied, List, Name, NoMemory};
use std::alloc::Global;

/// Which of its lists of targets to hook on a row has.
#[derive(Clone, Copy)]
pub enum Side {
    Before,
    After,
}

impl Side {
    fn list(self, row: &TargetRow) -> &List<Name>
        ensures { result.now ≡ side_of self row.now }
    {
        match self {
            Side::Before => &row.before,
            Side::After => &row.after,
        }
    }
}

/// The rows that count, of several with one name the first, and their names.
pub fn firsts_of<'a>(
    alloc: Global,
    rows: &'a [TargetRow],
) -> Result<(Vec<&'a TargetRow>, Numbers), NoMemory>
    ensures rows { IfOk result (λ r. map (λ x. x.now) r.0.items ≡ first_rows [] rows.now) }
    ensures names { IfOk result (λ r. r.1 ≡ names_in (first_rows [] rows.now)) }
    ensures distinct { IfOk result (λ r. AreDistinct r.1) }
{
    let mut firsts = Vec::new(alloc);
    let mut numbers = Numbers::new(alloc);
    for row in rows {
        keep(&mut firsts, &mut numbers, row)?;
    }
    Ok((firsts, numbers))
}

/// Keeps a row whose name is new.
fn keep<'a>(
    firsts: &mut Vec<&'a TargetRow>,
    numbers: &mut Numbers,
    row: &'a TargetRow,
) -> Result<(), NoMemory>
    requires names { numbers.old ≡ names_in (map (λ x. x.now) firsts.old.items) }
    requires distinct { AreDistinct numbers.old }
    ensures firsts { OnOk result (map (λ x. x.now) firsts.new.items
        ≡ keep_row (map (λ x. x.now) firsts.old.items) row.now) }
    ensures names { OnOk result (numbers.new ≡ names_in (map (λ x. x.now) firsts.new.items)) }
    ensures distinct { OnOk result (AreDistinct numbers.new) }
{
    if numbers.find(&row.name).is_some() {
        return Ok(());
    }
    firsts.push(row)?;
    numbers.add(&row.name)?;
    Ok(())
}

/// Of each target by its number, the names of the rows that name it on this side.
pub fn hooks(
    alloc: Global,
    rows: &[&TargetRow],
    numbers: &Numbers,
    side: Side,
) -> Result<Vec<List<Name>>, NoMemory>
    requires { AreDistinct numbers.now }
    ensures { IfOk result
        (λ lists. AreHooks side (map (λ x. x.now) rows.now) numbers.now lists.items) }
{
    let mut hooks = HookLists::new(alloc, numbers.len())?;
    for at in 0..rows.len() {
        let row = rows[at];
        hooks.add(at + 1, numbers, &row.name, side.list(row).as_slice())?;
    }
    Ok(hooks.lists)
}

/// What the rows read so far hook on each target, by its number.
#[derive(Drop)]
struct HookLists {
    /// The names of the rows that name the target.
    lists: Vec<List<Name>>,
    /// The turn of the last row that names the target: the first row's is 1, and none's is 0.
    turns: Vec<usize>,
}

impl HookLists {
    fn new(alloc: Global, count: usize) -> Result<HookLists, NoMemory>
        ensures lists { IfOk result (λ hooks. length hooks.lists.items ≡ count) }
        ensures turns { IfOk result (λ hooks. length hooks.turns.items ≡ count) }
        ensures empty { IfOk result (λ hooks. (k : ℕ) → k < count
            → slice_index_or hooks.lists.items k [] ≡ []) }
        ensures unnamed { IfOk result (λ hooks. (k : ℕ) → k < count
            → slice_index_or hooks.turns.items k 0 ≡ 0) }
    {
        Ok(HookLists {
            lists: empty_lists(alloc, count)?,
            turns: vec![in alloc; 0usize; count]?,
        })
    }

    /// Adds the row's name, once, to the list of each target that it names.
    fn add(
        &mut self,
        turn: usize,
        numbers: &Numbers,
        row: &Name,
        named: &[Name],
    ) -> Result<(), NoMemory>
        requires distinct { AreDistinct numbers.now }
        requires len { length self.old.lists.items ≡ length numbers.now }
        requires turns { length self.old.turns.items ≡ length numbers.now }
        requires past { (k : ℕ) → k < length numbers.now
            → slice_index_or self.old.turns.items k 0 < turn }
        ensures { OnOk result
            (AreHooked turn row.now named.now numbers.now self.old.lists.items
            self.new.lists.items self.new.turns.items) }
    {
        for name in named {
            match numbers.find(name) {
                Some(target) => self.add_to(target, turn, row)?,
                None => {}
            }
        }
        Ok(())
    }

    /// Adds the row's name to the list of this target, unless that was done in this turn.
    fn add_to(&mut self, target: usize, turn: usize, row: &Name) -> Result<(), NoMemory>
        requires list { target < length self.old.lists.items }
        requires turn { target < length self.old.turns.items }
        ensures lists { OnOk result (self.new.lists.items
            ≡ (if slice_index_or self.old.turns.items target 0 == turn
            then self.old.lists.items else slice_set self.old.lists.items target
            (slice_index_or self.old.lists.items target [] ++ row.now ∷ []))) }
        ensures turns { OnOk result
            (self.new.turns.items ≡ slice_set self.old.turns.items target turn) }
    {
        if self.turns[target] == turn {
            return Ok(());
        }
        self.lists[target].push(row.copy()?)?;
        self.turns[target] = turn;
        Ok(())
    }
}

fn empty_lists(alloc: Global, count: usize) -> Result<Vec<List<Name>>, NoMemory>
    ensures len { IfOk result (λ lists. length lists.items ≡ count) }
    ensures each { IfOk result (λ lists. (k : ℕ) → k < count
        → slice_index_or lists.items k [] ≡ []) }
{
    let mut lists = Vec::with_capacity(alloc, count)?;
    for _k in 0..count {
        lists.push(List::new(alloc))?;
    }
    Ok(lists)
}
