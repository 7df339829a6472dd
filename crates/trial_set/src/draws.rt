ghost use Rattle.std.specs.Prelude.{◌≡◌, ◌≤◌, ◌<◌, ◌-◌, ◌+◌, ◌%◌, OnOk, IfOk};
ghost use Rattle.trial_set.specs.Draws.{
  next_state,
  answer_of,
  drawn,
  distinct,
  calls_drawn,
  calls_of,
};

use msb_values::NoMemory;
use std::alloc::Global;
use std::collections::BTreeSet;

/// The draws of a seed. (This engine's own generator.)
#[derive(Drop)]
pub(crate) struct Draws {
    pub(crate) state: u64,
}

impl Draws {
    /// The next draw, below 2^31.
    fn draw(&mut self) -> u64
        ensures state { self.new.state ≡ next_state self.old.state }
        ensures answer { result ≡ answer_of self.new.state }
    {
        self.state = self
            .state
            .wrapping_mul(6364136223846793005)
            .wrapping_add(1442695040888963407);
        self.state >> 33
    }

    /// The numbers of the projects that a project calls, which are before its own.
    pub(crate) fn calls(&mut self, alloc: Global, number: u64) -> Result<BTreeSet<u64>, NoMemory>
        requires { 1 ≤ number }
        ensures numbers { IfOk result (λ calls. calls.keys
            ≡ (calls_of number self.old.state).numbers) }
        ensures state { OnOk result (self.new.state ≡ (calls_of number self.old.state).state) }
    {
        if number == 1 {
            return Ok(BTreeSet::new(alloc));
        }
        let count = self.draw() % 4;
        self.numbers(alloc, number - 1, count)
    }

    /// So many numbers from 1 to the last one, each once.
    fn numbers(&mut self, alloc: Global, last: u64, count: u64) -> Result<BTreeSet<u64>, NoMemory>
        requires { 1 ≤ last }
        ensures numbers { IfOk result (λ numbers. numbers.keys
            ≡ distinct (drawn (last + 1) count self.old.state).numbers) }
        ensures state { OnOk result (self.new.state
            ≡ (drawn (last + 1) count self.old.state).state) }
    {
        let mut numbers = BTreeSet::new(alloc);
        let mut left = count;
        while left > 0 {
            numbers.insert(1 + self.draw() % last)?;
            left -= 1;
        }
        Ok(numbers)
    }
}
