//! Ends of requests that are kept for other requests of the same keys. (MSBuild task: a target is
//! run once.)

ghost use Rattle.std.specs.Prelude.{
  ◌≡◌,
  ◌↔◌,
  [],
  ◌∷◌,
  IfOk,
  IsSome,
  IsTrue,
  None,
  option_copied,
};
ghost use Rattle.build_meaning.specs.Lists.{at};
ghost use Rattle.build_scheduler.specs.KeptEnds.{
  AreFewer,
  IsPut,
  IsWanted,
  instance_of,
  kept_for,
};

use crate::instances::Instances;
use msb_values::NoMemory;
use result_cache::{RequestKey, RequestResult};
use std::alloc::Global;
use std::mem;

/// The end of a request, for others of its key: its number, its result and its walk, which is over.
pub struct Kept<W> {
    pub id: u64,
    pub result: RequestResult,
    pub walk: W,
    /// Whether it began with an empty journal: then those that do end with the same journal, too.
    pub from_nothing: bool,
    /// Whether requests of its key are plain: then all of them have the same result.
    pub plain: bool,
}

// A drop that is written out is proved here alone.
impl<W: Drop> Drop for Kept<W> {
    fn drop(self) {
        let Kept {
            id: _,
            result: _,
            walk: _,
            from_nothing: _,
            plain: _,
        } = self;
    }
}

/// How one of the requests of an instance has ended, while another one is not done.
pub struct InstanceEnd<W> {
    /// How many requests of the instance are not done.
    pub(crate) open_requests: usize,
    pub(crate) kept: Option<Kept<W>>,
}

// A drop that is written out is proved here alone.
impl<W: Drop> Drop for InstanceEnd<W> {
    fn drop(self) {
        let InstanceEnd {
            open_requests: _,
            kept: _,
        } = self;
    }
}

impl<W: Drop> InstanceEnd<W> {
    ghost use Rattle.build_scheduler.specs.KeptEnds.{IsNoOther};

    // One more request.
    fn open(&mut self)
        ensures { self.new.kept ≡ self.old.kept }
    {
        self.open_requests = self.open_requests.saturating_add(1);
    }

    // One of the requests is over. Where it was the last one, nothing is kept for others: what was
    // kept is handed out.
    fn close(&mut self) -> Option<Kept<W>>
        ensures { IsNoOther self.old self.new }
    {
        self.open_requests = self.open_requests.saturating_sub(1);
        if self.open_requests > 0 {
            return None;
        }
        mem::replace(&mut self.kept, None)
    }
}

/// For each instance how one of its requests has ended, while another one is not done.
pub struct KeptEnds<W> {
    /// For each request the place of its instance.
    pub(crate) places: Vec<usize>,
    pub(crate) instances: Vec<InstanceEnd<W>>,
}

// A drop that is written out is proved here alone.
impl<W: Drop> Drop for KeptEnds<W> {
    fn drop(self) {
        let KeptEnds {
            places: _,
            instances: _,
        } = self;
    }
}

impl<W: Drop> KeptEnds<W> {
    /// Nothing is kept for the root's instance.
    pub(crate) fn new(alloc: Global) -> Result<KeptEnds<W>, NoMemory>
        ensures { IfOk result (λ kept. kept.instances.items
            ≡ record { open_requests = 1; kept = None } ∷ []) }
    {
        let mut places = Vec::new(alloc);
        places.push(0)?;
        let mut instances = Vec::new(alloc);
        instances.push(InstanceEnd {
            open_requests: 1,
            kept: None,
        })?;
        Ok(KeptEnds { places, instances })
    }

    /// Takes room for so many more requests.
    pub(crate) fn reserve(&mut self, more: usize) -> Result<(), NoMemory>
        ensures places { self.new.places.items ≡ self.old.places.items }
        ensures instances { self.new.instances.items ≡ self.old.instances.items }
    {
        self.places.reserve(more)?;
        self.instances.reserve(more)?;
        Ok(())
    }

    /// Counts new requests, for which room was taken. This takes no memory.
    pub(crate) fn count(&mut self, instances: &Instances, calls: &[RequestKey])
        ensures { AreFewer self.old.instances.items self.new.instances.items }
    {
        for call in calls {
            self.count_one(instances, call);
        }
    }

    fn count_one(&mut self, instances: &Instances, call: &RequestKey)
        ensures { AreFewer self.old.instances.items self.new.instances.items }
    {
        if let Some(place) = instances.place(&call.instance) {
            self.count_at(place);
        }
    }

    // A request of the instance at a place, which is new where nothing stands there.
    fn count_at(&mut self, place: usize)
        ensures { AreFewer self.old.instances.items self.new.instances.items }
    {
        let _ = self.places.push(place);
        match self.instances.get_mut(place) {
            Some(instance) => instance.open(),
            None => self.enter(),
        }
    }

    // An instance that is new, with one request.
    fn enter(&mut self)
        ensures { AreFewer self.old.instances.items self.new.instances.items }
    {
        let _ = self.push_new();
    }

    fn push_new(&mut self) -> Result<(), NoMemory>
        ensures { AreFewer self.old.instances.items self.new.instances.items }
    {
        self.instances.push(InstanceEnd {
            open_requests: 1,
            kept: None,
        })?;
        Ok(())
    }

    /// Counts a request that is over. Where it was the last of its instance, what was kept for
    /// others is handed out. This takes no memory.
    pub(crate) fn count_done(&mut self, id: u64) -> Option<Kept<W>>
        ensures { AreFewer self.old.instances.items self.new.instances.items }
    {
        match self.place(id) {
            Some(place) => self.close_at(place),
            None => None,
        }
    }

    fn close_at(&mut self, place: usize) -> Option<Kept<W>>
        ensures { AreFewer self.old.instances.items self.new.instances.items }
    {
        match self.instances.get_mut(place) {
            Some(instance) => instance.close(),
            None => None,
        }
    }

    /// Whether another request of its instance is not done.
    pub(crate) fn is_wanted(&self, id: u64) -> bool
        ensures { IsTrue result ↔ IsWanted self.now id }
    {
        match self.instance(id) {
            Some(instance) => instance.open_requests > 1,
            None => false,
        }
    }

    /// What is kept for the instance of a request.
    pub(crate) fn find(&self, id: u64) -> Option<&Kept<W>>
        ensures { option_copied result ≡ kept_for self.now id }
    {
        self.instance(id)?.kept.as_ref()
    }

    /// Keeps this for the instance of its request.
    pub(crate) fn put(&mut self, kept: Kept<W>)
        requires { IsSome (instance_of self.old kept.id) }
        ensures { IsPut self.old self.new kept }
    {
        let place = self.places[kept.id as usize];
        self.instances[place].kept = Some(kept);
    }

    fn instance(&self, id: u64) -> Option<&InstanceEnd<W>>
        ensures { option_copied result ≡ instance_of self.now id }
    {
        self.instances.get(self.place(id)?)
    }

    pub(crate) fn place(&self, id: u64) -> Option<usize>
        ensures { result ≡ at self.now.places.items id }
    {
        match self.places.get(id as usize) {
            Some(place) => Some(*place),
            None => None,
        }
    }
}
