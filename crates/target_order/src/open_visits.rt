ghost use Rattle.std.specs.Prelude.{
  ◌≡◌,
  ◌<◌,
  ◌≤◌,
  ◌-◌,
  [],
  ◌∷◌,
  ◌++◌,
  length,
  take,
  slice_set,
  IfOk,
  OnOk,
  OnErr,
};
ghost use Rattle.target_order.specs.Chunks.{joined, AreOf};
ghost use Rattle.target_order.specs.OpenVisits.{width};
ghost use Rattle.target_order.specs.Search.{visit_at};
ghost use Rattle.target_order.specs.Steps.{noted};

use crate::visits::{OpenVisit, Step};
use msb_values::{Copied, List, NoMemory, Shared};
use std::alloc::Global;
use std::marker::Model;
use std::mem;

/// How many visits stand in a chunk.
const WIDTH: usize = 32;

/// The open visits of a walk, innermost last. A copy shares all but the last `2 * WIDTH` of them.
pub struct OpenVisits {
    /// The outer visits.
    outer: Shared<List<Shared<List<OpenVisit>>>>,
    /// The visits inside them: some, unless no visit is open.
    inner: Vec<OpenVisit>,
    /// How many there are of both.
    count: usize,
}

// A drop that is written out is proved here alone.
impl Drop for OpenVisits {
    fn drop(self) {
        let OpenVisits {
            outer: _,
            inner: _,
            count: _,
        } = self;
    }
}

impl Model for OpenVisits {
    ghost use Rattle.std.specs.Prelude.{List, ◌++◌};
    ghost use Rattle.target_order.specs.declared.visits.OpenVisit.{OpenVisit};
    ghost use Rattle.target_order.specs.Chunks.{joined};
    ghost use Rattle.target_order.specs.OpenVisits.{AreOpen};

    ghost Value = { List OpenVisit };

    ghost view = { λ v. joined v.outer ++ v.inner.items };

    ghost invariant = { λ v. AreOpen v.outer v.inner.items v.count };
}

impl OpenVisits {
    pub fn new(alloc: Global) -> Result<OpenVisits, NoMemory>
        ensures { IfOk result (λ visits. visits ≡ []) }
    {
        Ok(OpenVisits {
            outer: Shared::new(alloc, List::new(alloc))?,
            inner: Vec::new(alloc),
            count: 0,
        })
    }

    pub fn len(&self) -> usize
        ensures { result ≡ length self.now }
    {
        self.count
    }

    /// The visit at this place, from 0 on for the outermost one.
    pub fn get(&self, at: usize) -> &OpenVisit
        requires { at < length self.now }
        ensures { result.now ≡ visit_at self.now at }
    {
        let outer = self.count - self.inner.len();
        if at < outer {
            &self.outer.get().as_slice()[at / WIDTH].get().as_slice()[at % WIDTH]
        } else {
            &self.inner[at - outer]
        }
    }

    /// The outer visits, so many.
    pub fn through(&self, alloc: Global, depth: usize) -> Result<OpenVisits, NoMemory>
        requires { depth ≤ length self.now }
        ensures { IfOk result (λ visits. visits ≡ take depth self.now) }
    {
        let outer = self.count - self.inner.len();
        if depth == 0 {
            OpenVisits::new(alloc)
        } else if depth > outer {
            Ok(OpenVisits {
                outer: self.outer.copy()?,
                inner: List::of(alloc, &self.inner[..depth - outer])?.into_vec(),
                count: depth,
            })
        } else {
            through_chunks(alloc, self.outer.get().as_slice(), depth)
        }
    }

    /// Opens a visit inside the others; where there is no memory, they stay.
    pub fn push(&mut self, alloc: Global, visit: OpenVisit) -> Result<(), NoMemory>
        ensures ok { OnOk result (self.new ≡ self.old ++ visit ∷ []) }
        ensures err { OnErr result (self.new ≡ self.old) }
    {
        // Where they can't be counted, there is no memory for them either.
        let Some(count) = self.count.checked_add(1) else {
            return Err(NoMemory);
        };
        self.fill_chunk(alloc)?;
        self.inner.push(visit)?;
        self.count = count;
        Ok(())
    }

    /// Puts the first of the inner visits into a chunk, where there are enough for two.
    fn fill_chunk(&mut self, alloc: Global) -> Result<(), NoMemory>
        ensures { self.new ≡ self.old }
    {
        if self.inner.len() < 2 * WIDTH {
            return Ok(());
        }
        let (first, rest) = self.inner.split_at(WIDTH);
        let rest = List::of(alloc, rest)?.into_vec();
        let mut outer = self.outer.get().copy()?;
        outer.push(Shared::new(alloc, List::of(alloc, first)?)?)?;
        self.outer = Shared::new(alloc, outer)?;
        self.inner = rest;
        Ok(())
    }

    /// Replaces the innermost visit, which is handed out.
    pub fn replace_last(&mut self, visit: OpenVisit) -> OpenVisit
        requires { 0 < length self.old }
        ensures replaced { self.new ≡ slice_set self.old (length self.old - 1) visit }
        ensures before { result ≡ visit_at self.old (length self.old - 1) }
    {
        let last = self.inner.len() - 1;
        mem::replace(&mut self.inner[last], visit)
    }

    /// Notes where the innermost visit stands, if there is one.
    pub fn note(&mut self, step: Step, passed: usize)
        ensures { self.new ≡ noted self.old (length self.old) step passed }
    {
        if self.count > 0 {
            let last = self.inner.len() - 1;
            let visit = &mut self.inner[last];
            visit.step = step;
            visit.passed = passed;
        }
    }
}

impl Copied for OpenVisits {
    fn copy(&self) -> Result<OpenVisits, NoMemory> {
        Ok(OpenVisits {
            outer: self.outer.copy()?,
            inner: List::of(*self.inner.allocator(), &self.inner)?.into_vec(),
            count: self.count,
        })
    }
}

/// The first visits of these chunks, so many.
fn through_chunks(
    alloc: Global,
    chunks: &[Shared<List<OpenVisit>>],
    depth: usize,
) -> Result<OpenVisits, NoMemory>
    requires full { AreOf width chunks.now }
    requires some { 0 < depth }
    requires deep { depth ≤ length (joined chunks.now) }
    ensures { IfOk result (λ visits. visits ≡ take depth (joined chunks.now)) }
{
    let last = (depth - 1) / WIDTH;
    let inner = &chunks[last].get().as_slice()[..depth - last * WIDTH];
    Ok(OpenVisits {
        outer: Shared::new(alloc, List::of(alloc, &chunks[..last])?)?,
        inner: List::of(alloc, inner)?.into_vec(),
        count: depth,
    })
}
