ghost use Rattle.std.specs.Prelude.{
  ◌≡◌,
  [],
  Err,
  Ok,
  Some,
  true,
  false,
  IfErr,
  IfNone,
  IfOk,
  IfSome,
};
ghost use Rattle.once_table.specs.Looked.{AllFit, IfMade};

use crate::Fits;
use crate::values::{Look, Values};
use indexmap::IndexMap;
use msb_values::{Copied, NoMemory, Shared};
use std::alloc::Global;
use std::hash::Hash;
use std::marker::Model;
use std::snapshot::Snapshot;
use std::thread;
use turn_board::{Board, Seat, Taken};

/// A thread's access to values by keys, which it shares with other threads. Contracts see the world
/// in which the values fit their keys.
///
/// No clause says that a value is made once, nor that a thread gets on.
pub struct OnceTable<K: Eq + Hash + Drop, V: Drop, W, F: Fits<K, V, W>> {
    board: Shared<Board<Values<K, V, W, F>>>,
    seat: Seat<Values<K, V, W, F>>,
    world: Snapshot<W>,
    /// How many more threads may be given access by this one.
    left: u32,
}

// A drop that is written out is proved here alone.
impl<K: Eq + Hash + Drop, V: Drop, W, F: Fits<K, V, W>> Drop for OnceTable<K, V, W, F> {
    fn drop(self) {
        let OnceTable {
            board: _,
            seat: _,
            world: _,
            left: _,
        } = self;
    }
}

impl<K: Eq + Hash + Drop, V: Drop, W, F: Fits<K, V, W>> Model for OnceTable<K, V, W, F> {
    ghost use Rattle.std.specs.Prelude.{◌≡◌, ◌+◌, Some, false};

    ghost Value = { W };

    ghost view = { λ t. t.world.value };

    ghost invariant = { λ t. (t.seat.board ≡ t.board) × (t.seat.has_state ≡ false)
        × (t.seat.world ≡ Some t.world.value) × (t.seat.share ≡ t.left + 1) };
}

/// How many threads the thread that opens a table may give access to.
const MOST_OTHERS: u32 = 127;

impl<
    K: Eq + Hash + Copied + Drop + Send,
    V: Copied + Drop + Send,
    W,
    F: Fits<K, V, W> + Send,
> OnceTable<K, V, W, F> {
    /// A table of no values, for this world. The error is want of memory.
    pub fn open(alloc: Global, world: &W) -> Result<OnceTable<K, V, W, F>, NoMemory>
        ensures { IfOk result (λ table. table ≡ world.now) }
    {
        match Board::open(alloc, Values::new(alloc, world)) {
            Ok((board, seat)) => Ok(OnceTable {
                board: Shared::new(alloc, board)?,
                seat,
                world: Snapshot::of(world),
                left: MOST_OTHERS,
            }),
            Err(refused) => {
                drop(refused);
                Err(NoMemory)
            }
        }
    }

    /// Access for another thread; none where no more can be given. The error is want of memory:
    /// then nothing changes.
    pub fn split(&mut self, world: &W) -> Result<Option<OnceTable<K, V, W, F>>, NoMemory>
        requires { world.now ≡ self.old }
        ensures other { IfOk result (λ other. IfSome other (λ table. table ≡ self.old)) }
        ensures kept { self.new ≡ self.old }
    {
        if self.left == 0 {
            return Ok(None);
        }
        let board = self.board.copy()?;
        let seat = board.get().split(&mut self.seat);
        self.left -= 1;
        Ok(Some(OnceTable {
            board,
            seat,
            world: Snapshot::of(world),
            left: 0,
        }))
    }

    /// The value of a key; where there is none yet, this thread makes it for all. Where another
    /// thread makes it just now, this call waits for that. Where the value cannot be made or cannot
    /// be put, the key is given up, so that the next thread that asks makes it.
    ///
    /// `make` must not ask the table for the same key: it would wait for itself.
    ///
    /// The inner error is that of `make`, the outer one want of memory to find or to put the value.
    pub fn find_or_make<E: Drop, M: FnOnce() -> Result<V, E>>(
        &mut self,
        key: &K,
        make: M,
    ) -> Result<Result<V, E>, NoMemory>
    where
        M: Drop,
        requires may_call { M.pre make }
        requires fits { (value : V) → M.post make (Ok value) → F.fits self.old key.now value }
        ensures fits { IfOk result
            (λ made. IfOk made (λ value. ∥ F.fits self.old key.now value ∥₁)) }
        ensures fails { IfOk result (λ made. IfErr made (λ error. M.post make (Err error))) }
        ensures kept { self.new ≡ self.old }
    {
        if let Some(value) = self.find(key)? {
            return Ok(Ok(value));
        }
        let made = make();
        match &made {
            Ok(value) => self.put(key, value)?,
            Err(_) => self.give_up(key),
        }
        Ok(made)
    }

    /// The value of a key, or nothing: then this thread is the one that makes it, and has to put it
    /// or to give it up. Where another thread makes it just now, this call waits for that. The
    /// error is want of memory: then nothing changes.
    fn find(&mut self, key: &K) -> Result<Option<V>, NoMemory>
        ensures fits { IfOk result
            (λ found. IfSome found (λ value. ∥ F.fits self.old key.now value ∥₁)) }
        ensures kept { self.new ≡ self.old }
    {
        for _ in 0..u64::MAX {
            match self.look(key)? {
                Look::Made(value) => return Ok(Some(value)),
                Look::Missing => return Ok(None),
                Look::Making => pause(),
            }
        }
        Ok(None)
    }

    fn look(&mut self, key: &K) -> Result<Look<V>, NoMemory>
        ensures fits { IfOk result (IfMade (λ value. ∥ F.fits self.old key.now value ∥₁)) }
        ensures kept { self.new ≡ self.old }
    {
        let Some(mut values) = take(self.board.get(), &mut self.seat) else {
            return Ok(Look::Making);
        };
        let look = values.look(key);
        self.board.get().give(&mut self.seat, values);
        look
    }

    /// Puts the values of all keys of a map. The error is want of memory: then the first of them
    /// are put.
    pub fn put_all(&mut self, values: &IndexMap<K, V>) -> Result<(), NoMemory>
        requires { AllFit (F.fits self.old) values.now.entries }
        ensures { self.new ≡ self.old }
    {
        for (key, value) in values {
            self.put(key, value)?;
        }
        Ok(())
    }

    /// Puts the value of a key, which this thread has made. The error is want of memory: then the
    /// key is given up.
    fn put(&mut self, key: &K, value: &V) -> Result<(), NoMemory>
        requires { F.fits self.old key.now value.now }
        ensures { self.new ≡ self.old }
    {
        let Some(mut values) = take(self.board.get(), &mut self.seat) else {
            return Ok(());
        };
        let put = values.put(key, value);
        self.board.get().give(&mut self.seat, values);
        put
    }

    /// Leaves it to others to make the value of a key.
    fn give_up(&mut self, key: &K)
        ensures { self.new ≡ self.old }
    {
        if let Some(mut values) = take(self.board.get(), &mut self.seat) {
            values.give_up(key);
            self.board.get().give(&mut self.seat, values);
        }
    }
}

/// Takes the values, once no other thread has them. Nothing comes only after 2^64 takes in vain.
fn take<K: Eq + Hash + Copied + Drop + Send, V: Copied + Drop + Send, W, F: Fits<K, V, W> + Send>(
    board: &Board<Values<K, V, W, F>>,
    seat: &mut Seat<Values<K, V, W, F>>,
) -> Option<Values<K, V, W, F>>
    requires board { seat.old.board ≡ board.now }
    requires home { seat.old.has_state ≡ false }
    ensures same { (seat.new.board ≡ seat.old.board) × (seat.new.world ≡ seat.old.world)
        × (seat.new.share ≡ seat.old.share) }
    ensures home { IfNone result (seat.new.has_state ≡ false) }
    ensures out { IfSome result (λ values. (seat.new.has_state ≡ true)
        × (seat.old.world ≡ Some values.world.value) × (seat.new.seen ≡ [])) }
{
    for _ in 0..u64::MAX {
        match board.take(seat) {
            Taken::State(values) => return Some(values),
            Taken::Held => thread::yield_now(),
        }
    }
    None
}

/// How often a thread that waits for a value lets others go first before it looks again.
const YIELDS: u32 = 32;

fn pause() {
    for _ in 0..YIELDS {
        thread::yield_now();
    }
}
