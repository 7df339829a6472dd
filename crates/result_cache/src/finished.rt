ghost use Rattle.std.specs.Prelude.{
  ◌≡◌,
  ◌+◌,
  ◌<◌,
  ◌≤◌,
  [],
  ◌∷◌,
  ◌++◌,
  length,
  IfOk,
  OnOk,
  OnErr,
  option_copied,
  slice_get,
  option_map,
};
ghost use Rattle.result_cache.specs.Found.{seen_finished};
ghost use Rattle.result_cache.specs.Kept.{runs_of, all_of};
ghost use Rattle.result_cache.specs.Same.{AreDistinct};
ghost use Rattle.result_cache.specs.Table.{found};

use crate::layer::Layer;
use crate::{RecordRef, RunProbe, RunRef};
use msb_values::{Copied, List, NoMemory, Shared};
use std::alloc::Global;
use std::marker::Model;

/// So many runs behind the layers are put into a layer: a copy of a table copies them.
const MOST: usize = 16;

/// A layer is at least so many times as large as all that is behind it when it stays as it is.
const GROWTH: usize = 4;

/// A run that is finished, with its record.
struct Finish {
    run: RunRef,
    made: RecordRef,
}

// A drop that is written out is proved here alone.
impl Drop for Finish {
    fn drop(self) {
        let Finish { run: _, made: _ } = self;
    }
}

impl Model for Finish {
    ghost use Rattle.result_cache.specs.Table.{FinishedRun};

    ghost Value = { FinishedRun };

    ghost view = { λ f. record { run = f.run; made = f.made } };
}

impl Copied for Finish {
    fn copy(&self) -> Result<Finish, NoMemory> {
        Ok(Finish {
            run: self.run.copy()?,
            made: self.made.copy()?,
        })
    }
}

/// The runs that are finished, with their records. Copies share all but the last few.
pub(crate) struct Finished {
    /// The oldest first, which is the largest.
    layers: List<Shared<Layer>>,
    /// Those that were finished last, in order.
    recent: Vec<Finish>,
    count: usize,
    /// For how many more there is room.
    room: usize,
}

// A drop that is written out is proved here alone.
impl Drop for Finished {
    fn drop(self) {
        let Finished {
            layers: _,
            recent: _,
            count: _,
            room: _,
        } = self;
    }
}

impl Model for Finished {
    ghost use Rattle.std.specs.Prelude.{◌++◌, length, vec_len, vec_capacity};
    ghost use Rattle.result_cache.specs.Kept.{KeptRuns, HasRoom, all_of};

    ghost Value = { KeptRuns };

    ghost view = { λ f. record { records = all_of f.layers ++ f.recent.items; room = f.room } };

    ghost invariant = { λ f. HasRoom (length (all_of f.layers ++ f.recent.items)) f.count f.room
        (vec_len f.recent) (vec_capacity f.recent) };
}

impl Finished {
    pub(crate) fn new(alloc: Global) -> Finished
        ensures records { result.records ≡ [] }
        ensures room { result.room ≡ 0 }
    {
        Finished {
            layers: List::new(alloc),
            recent: Vec::new(alloc),
            count: 0,
            room: 0,
        }
    }

    pub(crate) fn len(&self) -> usize
        ensures { result ≡ length self.now.records }
    {
        self.count
    }

    /// Takes room for one more run.
    pub(crate) fn reserve_one(&mut self) -> Result<(), NoMemory>
        ensures records { self.new.records ≡ self.old.records }
        ensures ok { OnOk result (self.new.room ≡ self.old.room + 1) }
        ensures err { OnErr result (self.new.room ≡ self.old.room) }
    {
        if self.room >= usize::MAX - self.count {
            return Err(NoMemory);
        }
        self.recent.reserve(self.room + 1)?;
        self.room += 1;
        Ok(())
    }

    /// Adds a run that is not there, for which room was taken.
    pub(crate) fn push(&mut self, run: RunRef, made: RecordRef)
        requires room { 0 < self.old.room }
        requires distinct { AreDistinct
            (runs_of (self.old.records ++ record { run = run; made = made } ∷ [])) }
        ensures records { self.new.records
            ≡ self.old.records ++ record { run = run; made = made } ∷ [] }
        ensures room { self.old.room ≡ self.new.room + 1 }
    {
        self.room -= 1;
        match self.recent.push(Finish { run, made }) {
            Ok(()) => self.count += 1,
            Err(_) => unreachable!(),
        }
        // Where there is no memory for a layer, they stay behind the layers.
        let _ = self.settle();
    }

    /// The record of a run. Most are in the oldest layer.
    pub(crate) fn find(&self, run: &RunProbe<'_>) -> Option<&RecordRef>
        ensures { option_copied result ≡ found self.now.records run.now }
    {
        match find_in(self.layers.as_slice(), run) {
            Some(made) => Some(made),
            None => find_recent(&self.recent, run),
        }
    }

    /// The run at a place, in finishing order.
    pub(crate) fn at(&self, at: usize) -> Option<(&RunRef, &RecordRef)>
        ensures { option_map seen_finished result ≡ slice_get self.now.records at }
    {
        run_at(self.layers.as_slice(), &self.recent, at)
    }

    /// The same runs, with no room for others.
    pub(crate) fn copy(&self) -> Result<Finished, NoMemory>
        ensures records { IfOk result (λ copy. copy.records ≡ self.now.records) }
        ensures room { IfOk result (λ copy. copy.room ≡ 0) }
    {
        let recent = List::of(*self.recent.allocator(), &self.recent)?;
        Ok(Finished {
            layers: self.layers.copy()?,
            recent: recent.into_vec(),
            count: self.count,
            room: 0,
        })
    }

    // Puts those behind the layers into a layer, where they are many.
    fn settle(&mut self) -> Result<(), NoMemory>
        requires { AreDistinct (runs_of self.old.records) }
        ensures { self.new ≡ self.old }
    {
        if self.recent.len() < MOST {
            return Ok(());
        }
        let alloc = *self.recent.allocator();
        self.layers = with_layer_of(alloc, self.layers.as_slice(), &self.recent)?;
        self.recent.clear();
        Ok(())
    }
}

fn find_in<'a>(layers: &'a [Shared<Layer>], run: &RunProbe<'_>) -> Option<&'a RecordRef>
    ensures { option_copied result ≡ found (all_of layers.now) run.now }
{
    for layer in layers {
        if let Some(made) = layer.get().find(run) {
            return Some(made);
        }
    }
    None
}

fn find_recent<'a>(recent: &'a [Finish], run: &RunProbe<'_>) -> Option<&'a RecordRef>
    ensures { option_copied result ≡ found recent.now run.now }
{
    for finish in recent {
        if run.is(&finish.run) {
            return Some(&finish.made);
        }
    }
    None
}

fn run_at<'a>(
    layers: &'a [Shared<Layer>],
    recent: &'a [Finish],
    at: usize,
) -> Option<(&'a RunRef, &'a RecordRef)>
    ensures { option_map seen_finished result ≡ slice_get (all_of layers.now ++ recent.now) at }
{
    let mut left = at;
    for layer in layers {
        let len = layer.get().len();
        if left < len {
            return layer.get().at(left);
        }
        left -= len;
    }
    recent_at(recent, left)
}

fn recent_at(recent: &[Finish], at: usize) -> Option<(&RunRef, &RecordRef)>
    ensures { option_map seen_finished result ≡ slice_get recent.now at }
{
    if at < recent.len() {
        let finish = &recent[at];
        return Some((&finish.run, &finish.made));
    }
    None
}

/// The layers with these runs in a layer behind them, which takes in those that are small beside
/// it.
fn with_layer_of(
    alloc: Global,
    layers: &[Shared<Layer>],
    recent: &[Finish],
) -> Result<List<Shared<Layer>>, NoMemory>
    requires { AreDistinct (runs_of (all_of layers.now ++ recent.now)) }
    ensures { IfOk result (λ all. all_of all ≡ all_of layers.now ++ recent.now) }
{
    let kept = how_many_stay(layers, recent.len());
    let last = join(alloc, &layers[kept..], recent)?;
    let mut all = List::of(alloc, &layers[..kept])?;
    all.push(Shared::new(alloc, last)?)?;
    Ok(all)
}

/// How many layers stay as they are where so many runs come behind them.
fn how_many_stay(layers: &[Shared<Layer>], more: usize) -> usize
    ensures { result ≤ length layers.now }
{
    let mut size = more;
    for behind in 0..layers.len() {
        let len = layers[layers.len() - 1 - behind].get().len();
        if len / GROWTH >= size {
            return layers.len() - behind;
        }
        size = size.saturating_add(len);
    }
    0
}

/// The runs of the layers and these in one.
fn join(alloc: Global, layers: &[Shared<Layer>], recent: &[Finish]) -> Result<Layer, NoMemory>
    requires { AreDistinct (runs_of (all_of layers.now ++ recent.now)) }
    ensures { IfOk result (λ layer. layer ≡ all_of layers.now ++ recent.now) }
{
    let mut all = join_layers(alloc, layers)?;
    push_recent(&mut all, recent)?;
    Ok(all)
}

fn join_layers(alloc: Global, layers: &[Shared<Layer>]) -> Result<Layer, NoMemory>
    requires { AreDistinct (runs_of (all_of layers.now)) }
    ensures { IfOk result (λ layer. layer ≡ all_of layers.now) }
{
    let mut all = Layer::new(alloc);
    for layer in layers {
        all.push_all(layer.get())?;
    }
    Ok(all)
}

fn push_recent(layer: &mut Layer, recent: &[Finish]) -> Result<(), NoMemory>
    requires { AreDistinct (runs_of (layer.old ++ recent.now)) }
    ensures { OnOk result (layer.new ≡ layer.old ++ recent.now) }
{
    for finish in recent {
        layer.push(&finish.run, &finish.made)?;
    }
    Ok(())
}
