ghost use Rattle.std.specs.Prelude.{◌≡◌, ◌++◌, [], ◌∷◌, map, IfOk, OnOk, if◌then◌else◌};
ghost use Rattle.std.specs.List.{position_or_len};
ghost use Rattle.indexmap.specs.IndexSet.{insert_key};
ghost use Rattle.msb_values.specs.Folded.{folded_bytes};
ghost use Rattle.msb_batching.specs.Buckets.{is_same_tuple};
ghost use Rattle.msb_batching.specs.Numbers.{
  tuples_in,
  IsKeyed,
  with_rows,
  with_batches,
  numbered_of,
  numbered_list_of,
  numbered_from,
  lists_from,
};
ghost use Rattle.msb_batching.specs.Rows.{row_of, pairs_of};

use crate::numbered::{Numbered, NumberedList};
use crate::rows::{Batch, Row};
use indexmap::IndexSet;
use msb_values::{Folded, List, NoMemory, Text};
use std::alloc::Global;

/// The tuples that the items of batched lists have, each once, in order of first appearance and in
/// their first spelling.
#[derive(Drop)]
pub(crate) struct Tuples {
    /// The tuples folded, so that each is found without comparing it with all.
    keys: IndexSet<Vec<Folded>>,
    pub(crate) spelled: Vec<List<Text>>,
}

impl Tuples {
    pub(crate) fn new(alloc: Global) -> Tuples
        ensures keyed { IsKeyed result }
        ensures none { tuples_in result ≡ [] }
    {
        Tuples {
            keys: IndexSet::new(alloc),
            spelled: Vec::new(alloc),
        }
    }

    /// The number of a tuple, which is put behind the others if it is a new one.
    fn number(&mut self, alloc: Global, tuple: List<Text>) -> Result<usize, NoMemory>
        requires { IsKeyed self.old }
        ensures keyed { OnOk result (IsKeyed self.new) }
        ensures tuples { OnOk result (tuples_in self.new
            ≡ insert_key is_same_tuple (tuples_in self.old) tuple) }
        ensures number { IfOk result
            (λ n. n ≡ position_or_len (is_same_tuple tuple) (tuples_in self.old)) }
    {
        let (number, is_new) = self.keys.insert_full(fold_texts(alloc, tuple.as_slice())?)?;
        self.spell_if(is_new, tuple)?;
        Ok(number)
    }

    /// Puts a tuple behind the others, if it is a new one.
    fn spell_if(&mut self, is_new: bool, tuple: List<Text>) -> Result<(), NoMemory>
        ensures keys { self.new.keys ≡ self.old.keys }
        ensures tuples { OnOk result (tuples_in self.new
            ≡ (if is_new then tuples_in self.old ++ tuple ∷ [] else tuples_in self.old)) }
    {
        if is_new {
            self.spelled.push(tuple)?;
        }
        Ok(())
    }

    /// The items of some rows with the numbers of their tuples.
    fn number_rows(&mut self, alloc: Global, rows: Vec<Row>) -> Result<Vec<Numbered>, NoMemory>
        requires { IsKeyed self.old }
        ensures keyed { OnOk result (IsKeyed self.new) }
        ensures tuples { OnOk result (tuples_in self.new
            ≡ with_rows (tuples_in self.old) (map row_of rows.items)) }
        ensures numbers { IfOk result (λ items. map numbered_of items.items
            ≡ numbered_from (tuples_in self.old) (map row_of rows.items)) }
    {
        let mut items = Vec::new(alloc);
        for row in rows {
            let number = self.number(alloc, row.tuple)?;
            items.push(Numbered {
                item: row.item,
                number,
            })?;
        }
        Ok(items)
    }

    /// Batched lists with the numbers of their items' tuples.
    pub(crate) fn number_lists(
        &mut self,
        alloc: Global,
        batches: Vec<Batch>,
    ) -> Result<Vec<NumberedList>, NoMemory>
        requires { IsKeyed self.old }
        ensures tuples { OnOk result (tuples_in self.new
            ≡ with_batches (tuples_in self.old) (map pairs_of batches.items)) }
        ensures numbers { IfOk result (λ lists. map numbered_list_of lists.items
            ≡ lists_from (tuples_in self.old) (map pairs_of batches.items)) }
    {
        let mut lists = Vec::new(alloc);
        for batch in batches {
            let items = self.number_rows(alloc, batch.rows)?;
            lists.push(NumberedList {
                kind: batch.kind,
                items,
            })?;
        }
        Ok(lists)
    }
}

fn fold_texts(alloc: Global, texts: &[Text]) -> Result<Vec<Folded>, NoMemory>
    ensures { IfOk result (λ key. key.items ≡ map folded_bytes texts.now) }
{
    let mut key = Vec::new(alloc);
    for text in texts {
        key.push(Folded::of(alloc, text.as_str())?)?;
    }
    Ok(key)
}
