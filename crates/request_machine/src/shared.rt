//! Lists whose copies share their entries.

ghost use Rattle.std.specs.Prelude.{◌≡◌, [], ◌∷◌, ◌++◌, length, IfOk, OnOk, OnErr};
ghost use Rattle.request_machine.specs.Layers.{joined};

use msb_values::{Copied, List, NoMemory, Shared};
use std::alloc::Global;
use std::marker::Model;

/// A list that grows at its end. Its copies share its entries: a copy takes a time and room that
/// grow with the logarithm of the length, and so does a push, if one takes the mean of many.
pub struct SharedList<T> {
    /// In order; each is larger than the next one.
    layers: List<Shared<List<Shared<T>>>>,
    /// How many entries there are in all of them.
    count: usize,
}

// A drop that is written out is proved here alone.
impl<T: Drop> Drop for SharedList<T> {
    fn drop(self) {
        let SharedList {
            layers: _,
            count: _,
        } = self;
    }
}

impl<T> Model for SharedList<T> {
    ghost use Rattle.std.specs.Prelude.{◌≡◌, List, length};
    ghost use Rattle.request_machine.specs.Layers.{joined};

    ghost Value = { List T };

    ghost view = { λ l. joined l.layers };

    ghost invariant = { λ l. l.count ≡ length (joined l.layers) };
}

impl<T> SharedList<T> {
    pub fn new(alloc: Global) -> SharedList<T>
        ensures { result ≡ [] }
    {
        SharedList {
            layers: List::new(alloc),
            count: 0,
        }
    }
}

impl<T: Drop> SharedList<T> {
    /// Adds an entry at the end; where there is no memory, the list stays as it was, and the entry
    /// is dropped.
    pub fn push(&mut self, alloc: Global, entry: T) -> Result<(), NoMemory>
        ensures ok { OnOk result (self.new ≡ self.old ++ entry ∷ []) }
        ensures err { OnErr result (self.new ≡ self.old) }
    {
        // Where they can't be counted, there is no memory for them either.
        let Some(count) = self.count.checked_add(1) else {
            return Err(NoMemory);
        };
        let mut newest = List::new(alloc);
        newest.push(Shared::new(alloc, entry)?)?;
        let layers = with_last(alloc, self.layers.as_slice(), newest)?;
        *self = SharedList { layers, count };
        Ok(())
    }

    /// How many entries there are. This takes no memory.
    pub fn len(&self) -> usize
        ensures { result ≡ length self.now }
    {
        self.count
    }

    /// The entries in order.
    pub fn entries(&self, alloc: Global) -> Result<List<Shared<T>>, NoMemory>
        ensures { IfOk result (λ l. l ≡ self.now) }
    {
        all_of(alloc, self.layers.as_slice())
    }
}

impl<T: Copied + Drop> SharedList<T> {
    /// Copies of the entries in order.
    pub fn to_list(&self, alloc: Global) -> Result<List<T>, NoMemory>
        ensures { IfOk result (λ l. l ≡ self.now) }
    {
        let entries = self.entries(alloc)?;
        copies_of(alloc, entries.as_slice())
    }
}

impl<T: Drop> Copied for SharedList<T> {
    fn copy(&self) -> Result<SharedList<T>, NoMemory> {
        Ok(SharedList {
            layers: self.layers.copy()?,
            count: self.count,
        })
    }
}

fn all_of<T: Drop>(
    alloc: Global,
    layers: &[Shared<List<Shared<T>>>],
) -> Result<List<Shared<T>>, NoMemory>
    ensures { IfOk result (λ all. all ≡ joined layers.now) }
{
    let mut all = List::new(alloc);
    for layer in layers {
        all.append(layer.get().copy()?)?;
    }
    Ok(all)
}

fn copies_of<T: Copied + Drop>(alloc: Global, entries: &[Shared<T>]) -> Result<List<T>, NoMemory>
    ensures { IfOk result (λ copies. copies ≡ entries.now) }
{
    let mut copies = Vec::with_capacity(alloc, entries.len())?;
    for entry in entries {
        copies.push(entry.get().copy()?)?;
    }
    Ok(List::from(copies))
}

// The layers with entries behind them, which take in the last layers that are no larger: so each
// layer is larger than the next one, and there are no more of them than the logarithm of the number
// of entries.
fn with_last<T: Drop>(
    alloc: Global,
    layers: &[Shared<List<Shared<T>>>],
    last: List<Shared<T>>,
) -> Result<List<Shared<List<Shared<T>>>>, NoMemory>
    ensures { IfOk result (λ all. joined all ≡ joined layers.now ++ last) }
{
    let mut last = last;
    let mut kept = layers.len();
    while kept > 0 && layers[kept - 1].get().len() <= last.len() {
        kept -= 1;
        last = join(layers[kept].get(), last)?;
    }
    let mut all = List::of(alloc, &layers[..kept])?;
    all.push(Shared::new(alloc, last)?)?;
    Ok(all)
}

fn join<T: Drop>(
    first: &List<Shared<T>>,
    last: List<Shared<T>>,
) -> Result<List<Shared<T>>, NoMemory>
    ensures { IfOk result (λ all. all ≡ first.now ++ last) }
{
    let mut all = first.copy()?;
    all.append(last)?;
    Ok(all)
}
