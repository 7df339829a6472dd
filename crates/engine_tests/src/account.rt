//! An account of the requests of a build, which is kept by its events alone.
use build_scheduler::{ClaimKind, Core, End, Event, Walker};
use msb_values::{Copied, NoMemory};
use result_cache::{Found, RecordRef, RunId, Table};
use std::alloc::Global;

/// Where a request is.
#[derive(Clone, Copy)]
enum Place {
    Ready,
    WithNode,
    /// It waits for the run of this number.
    Waiting(usize),
    /// So many of its calls are open.
    Calling(usize),
    Over,
}

#[derive(Clone, Copy)]
struct Request {
    place: Place,
    caller: Option<u64>,
    /// The number of the run in whose body it is.
    making: Option<usize>,
}

/// A run that was begun: who makes it, and its record once it is finished.
#[derive(Drop)]
struct Begun {
    run: RunId,
    maker: u64,
    record: Option<RecordRef>,
}

/// What is known of a build by its events.
#[derive(Drop)]
pub struct Account {
    events: usize,
    /// Each run has its place here as its number.
    runs: Vec<Begun>,
    requests: Vec<Request>,
    /// The first rule that was broken; empty where none was.
    pub broken: &'static str,
    /// How many requests were over at once.
    pub repeats: u64,
}

impl Account {
    /// The root request is there, and is ready.
    pub fn new(alloc: Global) -> Result<Account, NoMemory> {
        let mut account = Account {
            events: 0,
            runs: Vec::new(alloc),
            requests: Vec::new(alloc),
            broken: "",
            repeats: 0,
        };
        account.add_requests(None, 1)?;
        Ok(account)
    }

    pub fn rule(&mut self, holds: bool, text: &'static str) {
        if !holds && self.broken.is_empty() {
            self.broken = text;
        }
    }

    /// Looks at a core that is at most one event later than when it was looked at last, or later by
    /// the events of one request that is over at once.
    pub fn look<W: Walker>(&mut self, core: &Core<W>) -> Result<(), NoMemory> {
        let before = self.events;
        let events = core.history();
        self.events = events.len();
        if self.events > before.saturating_add(1) {
            self.rule(is_repeat(events, before), "one event at a time");
            self.repeats = self.repeats.saturating_add(1);
        }
        for at in before..events.len() {
            self.see(&events[at], core.table())?;
        }
        self.compare(core.table(), core.ready(), core.end());
        Ok(())
    }

    /// The event is legal, and changes what is known.
    fn see(&mut self, event: &Event, table: &Table) -> Result<(), NoMemory> {
        match event {
            Event::Assign(id, _) => self.assign(*id),
            Event::Claim(id, run, kind) => return self.claim(*id, run, kind),
            Event::Request(id, calls) => {
                let request = self.with_node(*id, true);
                self.put(*id, Place::Calling(calls.len()), request.making);
                return self.add_requests(Some(*id), calls.len());
            }
            Event::Result(id, run) => return self.finish(*id, run, table),
            Event::Done(id) => self.end(*id),
            Event::Retire(id, _) => self.retire(*id),
        }
        Ok(())
    }

    fn assign(&mut self, id: u64) {
        let request = self.request(id);
        let is_ready = matches!(request.place, Place::Ready);
        self.rule(is_ready, "a ready request is assigned");
        self.put(id, Place::WithNode, request.making);
    }

    /// The request goes back from its node, and stays in the body in which it is.
    fn retire(&mut self, id: u64) {
        let request = self.request(id);
        let is_with_node = matches!(request.place, Place::WithNode);
        self.rule(is_with_node, "a request goes back from a node");
        self.put(id, Place::Ready, request.making);
    }

    fn claim(&mut self, id: u64, run: &RunId, kind: &ClaimKind) -> Result<(), NoMemory> {
        self.with_node(id, false);
        let number = self.number_of(run);
        let is_made = matches!(
            self.runs.get(number),
            Some(Begun {
                record: Some(_),
                ..
            })
        );
        let is_begun = matches!(self.runs.get(number), Some(Begun { record: None, .. }));
        match kind {
            ClaimKind::Go => {
                self.rule(!is_made && !is_begun, "a run is made once");
                self.put(id, Place::WithNode, Some(number));
                return self.begin(run.copy()?, id);
            }
            ClaimKind::Use => self.rule(is_made, "a record is used that is there"),
            ClaimKind::Wait => {
                self.rule(is_begun, "a run is waited for that another request makes");
                self.put(id, Place::Waiting(number), None);
            }
        }
        Ok(())
    }

    fn begin(&mut self, run: RunId, maker: u64) -> Result<(), NoMemory> {
        self.runs.push(Begun {
            run,
            maker,
            record: None,
        })?;
        Ok(())
    }

    /// The run has its record, and everybody that waits for it goes on.
    fn finish(&mut self, id: u64, run: &RunId, table: &Table) -> Result<(), NoMemory> {
        let number = self.number_of(run);
        let request = self.with_node(id, true);
        self.rule(
            request.making == Some(number),
            "a run is finished by its maker",
        );
        self.put(id, Place::WithNode, None);
        for request in &mut self.requests {
            if matches!(request.place, Place::Waiting(other) if other == number) {
                request.place = Place::Ready;
            }
        }
        let last = table.finished_at(table.finished_count().saturating_sub(1));
        if let (Some(begun), Some((_, made))) = (self.runs.get_mut(number), last) {
            begun.record = Some(made.copy()?);
        }
        Ok(())
    }

    /// The request is over. The last open call makes its caller ready.
    fn end(&mut self, id: u64) {
        let request = self.with_node(id, false);
        self.put(id, Place::Over, None);
        let Some(id) = request.caller else {
            return;
        };
        let caller = self.request(id);
        match caller.place {
            Place::Calling(0 | 1) => self.put(id, Place::Ready, caller.making),
            Place::Calling(open) => self.put(id, Place::Calling(open - 1), caller.making),
            _ => self.rule(false, "a caller waits for its calls"),
        }
    }

    /// A request that has to be with a node, and in the body of a run or in none.
    fn with_node(&mut self, id: u64, in_body: bool) -> Request {
        let request = self.request(id);
        let is_with_node = matches!(request.place, Place::WithNode);
        self.rule(is_with_node, "a request with a node moves");
        let is_in_place = request.making.is_some() == in_body;
        self.rule(
            is_in_place,
            "calls and finishes come in bodies, claims and ends in none",
        );
        request
    }

    /// A request; one that isn't there counts as over.
    fn request(&self, id: u64) -> Request {
        match self.requests.get(id as usize) {
            Some(request) => *request,
            None => Request {
                place: Place::Over,
                caller: None,
                making: None,
            },
        }
    }

    fn put(&mut self, id: u64, place: Place, making: Option<usize>) {
        if let Some(request) = self.requests.get_mut(id as usize) {
            request.place = place;
            request.making = making;
        }
    }

    fn add_requests(&mut self, caller: Option<u64>, count: usize) -> Result<(), NoMemory> {
        for _ in 0..count {
            self.requests.push(Request {
                place: Place::Ready,
                caller,
                making: None,
            })?;
        }
        Ok(())
    }

    /// The number of a run, or of the next one that is begun.
    fn number_of(&self, run: &RunId) -> usize {
        for number in 0..self.runs.len() {
            if self.runs[number].run == *run {
                return number;
            }
        }
        self.runs.len()
    }

    /// The core tells the same runs, the same least ready request and the same end; and somebody
    /// can go on until then.
    fn compare(&mut self, table: &Table, ready: Option<u64>, end: Option<&End>) {
        self.rule(
            self.agrees(table),
            "the table has the runs, their makers and records",
        );
        self.rule(
            self.least_ready() == ready,
            "the least ready request is told",
        );
        let is_over = matches!(self.request(0).place, Place::Over);
        let is_told = matches!(end, Some(End::Root(_)));
        self.rule(is_told == is_over, "the end of the root is told");
        self.rule(end.is_some() || self.goes_on(), "somebody can go on");
    }

    /// Whether the table has each run with its maker, or with the record that it got, and no other
    /// record.
    fn agrees(&self, table: &Table) -> bool {
        let mut finished = 0usize;
        for begun in &self.runs {
            let is_told = match (&begun.record, table.find(&begun.run)) {
                (Some(record), Found::Done(made)) => *made.get() == *record.get(),
                (None, Found::Begun(by)) => by == begun.maker,
                _ => false,
            };
            if !is_told {
                return false;
            }
            finished = finished.saturating_add(usize::from(begun.record.is_some()));
        }
        table.finished_count() == finished
    }

    fn least_ready(&self) -> Option<u64> {
        for id in 0..self.requests.len() {
            if matches!(self.requests[id].place, Place::Ready) {
                return Some(id as u64);
            }
        }
        None
    }

    fn goes_on(&self) -> bool {
        for request in &self.requests {
            if matches!(request.place, Place::Ready | Place::WithNode) {
                return true;
            }
        }
        false
    }
}

/// Whether the events from this place on are those of one request that is assigned, uses records,
/// and is over.
fn is_repeat(events: &[Event], from: usize) -> bool {
    let (Some(Event::Assign(id, _)), Some(Event::Done(over))) = (events.get(from), events.last())
    else {
        return false;
    };
    id == over && are_uses(events, from.saturating_add(1), *id)
}

/// Whether the events from this place to the one ahead of the last are of a request that uses
/// records.
fn are_uses(events: &[Event], from: usize, id: u64) -> bool {
    for at in from..events.len().saturating_sub(1) {
        let is_use = matches!(
            events.get(at),
            Some(Event::Claim(by, _, ClaimKind::Use)) if *by == id
        );
        if !is_use {
            return false;
        }
    }
    true
}
