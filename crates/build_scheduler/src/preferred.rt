//! In which order nodes take requests that are ready.

ghost use Rattle.std.specs.Prelude.{◌≡◌, true, IfSome};
ghost use Rattle.build_meaning.specs.Lists.{at};
ghost use Rattle.build_scheduler.specs.Shown.{is_ready};

use crate::request_set::RequestSet;
use crate::slot::Slot;
use std::alloc::Global;
use std::mem;

/// Requests that became ready, the next one last, without those that are held back.
///
/// The one that became ready last is the next: most often the node that takes it has just made it
/// ready, as a call of its request or as the caller of one that is over, and has at hand what it
/// needs. So calls are followed in depth, and few requests are begun and not over. A new request is
/// held back while an earlier one of its instance is not over, since it is most often over at once
/// by what that one gives. Nodes that find nothing else to do take it sooner. So this is advice: no
/// contract goes by it, and where there is no memory, a request is not listed. (MSBuild task: a
/// target is run once.)
pub struct Preferred {
    numbers: Vec<u64>,
    /// By the places of the instances.
    instances: Vec<InstanceRequests>,
}

// A drop that is written out is proved here alone.
impl Drop for Preferred {
    fn drop(self) {
        let Preferred {
            numbers: _,
            instances: _,
        } = self;
    }
}

/// The requests of an instance.
struct InstanceRequests {
    /// Whether one of them has been listed, and none has been over since.
    goes_ahead: bool,
    held_back: Vec<u64>,
}

// A drop that is written out is proved here alone.
impl Drop for InstanceRequests {
    fn drop(self) {
        let InstanceRequests {
            goes_ahead: _,
            held_back: _,
        } = self;
    }
}

impl InstanceRequests {
    // Whether a new request is held back.
    fn hold(&mut self, number: u64) -> bool {
        if self.goes_ahead {
            return self.held_back.push(number).is_ok();
        }
        self.goes_ahead = true;
        false
    }

    // Those that were held back, when another one is over.
    fn take_held(&mut self, alloc: Global) -> Vec<u64> {
        self.goes_ahead = !self.held_back.is_empty();
        mem::replace(&mut self.held_back, Vec::new(alloc))
    }
}

impl Preferred {
    pub(crate) fn new(alloc: Global) -> Preferred {
        Preferred {
            numbers: Vec::new(alloc),
            instances: Vec::new(alloc),
        }
    }

    /// Lists a request that has become ready.
    pub(crate) fn list(&mut self, number: u64) {
        let _ = self.numbers.push(number);
    }

    /// Lists the requests of a set, which become ready.
    pub(crate) fn list_all(&mut self, set: Option<&RequestSet>) {
        if let Some(set) = set {
            for place in 0..set.len() {
                self.list(set.number_at(place));
            }
        }
    }

    /// Lists a request if it is ready.
    pub(crate) fn list_ready<W>(&mut self, slots: &Vec<Slot<W>>, number: u64) {
        if is_ready(slots, number) {
            self.list(number);
        }
    }

    /// Lists new requests, from this number on, or holds them back, by the places of the instances
    /// of all requests.
    pub(crate) fn open(&mut self, places: &Vec<usize>, first: usize) {
        for number in first..places.len() {
            self.open_one(places[number], number as u64);
        }
    }

    fn open_one(&mut self, place: usize, number: u64) {
        self.reach(place);
        let held = match self.instances.get_mut(place) {
            Some(instance) => instance.hold(number),
            None => false,
        };
        if !held {
            self.list(number);
        }
    }

    // Takes room for the instance at a place.
    fn reach(&mut self, place: usize) {
        let alloc = *self.instances.allocator();
        for _ in self.instances.len()..place.saturating_add(1) {
            let _ = self.instances.push(InstanceRequests {
                goes_ahead: false,
                held_back: Vec::new(alloc),
            });
        }
    }

    /// Lists what is held back of the instance at a place, one of whose requests is over.
    pub(crate) fn close(&mut self, place: Option<usize>) {
        let alloc = *self.instances.allocator();
        let held_back = match place {
            None => return,
            Some(place) => match self.instances.get_mut(place) {
                None => return,
                Some(instance) => instance.take_held(alloc),
            },
        };
        for number in held_back {
            self.list(number);
        }
    }

    /// The next request that is listed and ready.
    pub(crate) fn next<W>(&mut self, slots: &Vec<Slot<W>>) -> Option<u64>
        ensures { IfSome result (λ id. is_ready (at slots.now.items id) ≡ true) }
    {
        for _ in 0..self.numbers.len() {
            let number = self.numbers.pop()?;
            if is_ready(slots, number) {
                return Some(number);
            }
        }
        None
    }
}

// Whether a request is ready.
fn is_ready<W>(slots: &Vec<Slot<W>>, number: u64) -> bool
    ensures { result ≡ is_ready (at slots.now.items number) }
{
    match slots.get(number as usize) {
        Some(slot) => slot.is_ready(),
        None => false,
    }
}
