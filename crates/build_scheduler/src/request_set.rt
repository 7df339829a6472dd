ghost use Rattle.std.specs.Prelude.{
  ◌≡◌,
  ◌+◌,
  ◌<◌,
  ◌==◌,
  ◌||◌,
  ◌&&◌,
  ℕ,
  [],
  not,
  true,
  false,
  get_or,
  length,
  OnOk,
  OnErr,
};
ghost use Rattle.build_scheduler.specs.Numbers.{among, IsLeast, IsPopped};

use msb_values::NoMemory;
use std::alloc::Global;
use std::collections::VecDeque;
use std::marker::Model;

/// A set of numbers, with the room that is taken for those to come.
pub struct RequestSet {
    /// They rise. The least one is taken away most, which moves no other.
    numbers: VecDeque<u64>,
    room: usize,
}

// A drop that is written out is proved here alone.
impl Drop for RequestSet {
    fn drop(self) {
        let RequestSet {
            numbers: _,
            room: _,
        } = self;
    }
}

impl Model for RequestSet {
    ghost use Rattle.std.specs.Prelude.{◌+◌, ◌≤◌};
    ghost use Rattle.std.specs.VecDeque.{deque_capacity, deque_len};
    ghost use Rattle.build_scheduler.specs.Numbers.{AreRising, Numbered};

    ghost Value = { Numbered };

    ghost view = { λ n. record { numbers = n.numbers.items; room = n.room } };

    ghost invariant = { λ n. AreRising n.numbers.items
        × (deque_len n.numbers + n.room ≤ deque_capacity n.numbers) };
}

impl RequestSet {
    pub fn new(alloc: Global) -> RequestSet
        ensures numbers { result.numbers ≡ [] }
        ensures room { result.room ≡ 0 }
    {
        RequestSet {
            numbers: VecDeque::new(alloc),
            room: 0,
        }
    }

    /// How many numbers there are.
    pub fn len(&self) -> usize
        ensures { result ≡ length self.now.numbers }
    {
        self.numbers.len()
    }

    /// The number at a place. They rise.
    pub fn number_at(&self, place: usize) -> u64
        requires { place < length self.now.numbers }
        ensures { result ≡ get_or self.now.numbers place 0 }
    {
        self.numbers[place]
    }

    /// The least number.
    pub fn least(&self) -> Option<u64>
        ensures { IsLeast self.now.numbers result }
    {
        self.numbers.front().copied()
    }

    /// Takes room for so many more numbers.
    pub fn reserve(&mut self, more: usize) -> Result<(), NoMemory>
        ensures numbers { self.new.numbers ≡ self.old.numbers }
        ensures ok { OnOk result (self.new.room ≡ self.old.room + more) }
        ensures err { OnErr result (self.new.room ≡ self.old.room) }
    {
        match self.room.checked_add(more) {
            Some(room) => {
                self.numbers.reserve(room)?;
                self.room = room;
                Ok(())
            }
            None => Err(NoMemory),
        }
    }

    /// Adds a number, for which room was taken. This takes no memory.
    pub fn insert(&mut self, number: u64)
        requires room { 0 < self.old.room }
        requires absent { among number self.old.numbers ≡ false }
        ensures numbers { (n : ℕ) → among n self.new.numbers
            ≡ (number == n || among n self.old.numbers) }
        ensures room { self.old.room ≡ self.new.room + 1 }
    {
        match self.numbers.binary_search(&number) {
            Ok(_) => unreachable!(),
            Err(at) => {
                self.room -= 1;
                match self.numbers.insert(at, number) {
                    Ok(()) => {}
                    Err(_) => unreachable!(),
                }
            }
        }
    }

    /// Takes a number away, whose room stays.
    pub fn remove(&mut self, number: u64)
        requires present { among number self.old.numbers ≡ true }
        ensures numbers { (n : ℕ) → among n self.new.numbers
            ≡ (not (number == n) && among n self.old.numbers) }
        ensures room { self.new.room ≡ self.old.room + 1 }
    {
        match self.numbers.binary_search(&number) {
            Ok(at) => match self.numbers.remove(at) {
                Some(_) => self.room += 1,
                None => unreachable!(),
            },
            Err(_) => unreachable!(),
        }
    }

    /// Takes the greatest number away.
    pub fn pop(&mut self) -> Option<u64>
        ensures { IsPopped self.old.numbers self.new.numbers result }
    {
        self.numbers.pop_back()
    }
}
