//! Tools for tests of builds on several nodes.

ghost use Rattle.std.specs.Prelude.{◌≡◌};
ghost use Rattle.gate_tools.specs.Gates.{success};
ghost use Rattle.task_trait.specs.declared.tools.ToolAnswer.TheVariants.{Made};

use msb_values::{List, Name, NoMemory};
use std::alloc::Global;
use std::sync::atomic::{AtomicBool, AtomicU64, Ordering};
use task_trait::{TaskOutput, ToolAnswer, ToolInput, Tools};

/// How many turns the first call of `gate` waits at most.
const MOST_TURNS: u64 = 400_000_000;

/// Tools for tests: the tasks `gate` and `tally`, which succeed and make nothing.
///
/// The first call of `gate` returns once a second one has come, or after 400,000,000 turns of its
/// loop: so a test can tell whether two nodes work at the same time. No contract speaks of what was
/// met and counted.
#[derive(Drop)]
pub struct Gate {
    gates: AtomicU64,
    met: AtomicBool,
    tallied: AtomicU64,
}

impl Gate {
    /// Tools of which none was called yet.
    pub fn new() -> Gate {
        Gate {
            gates: AtomicU64::new(0),
            met: AtomicBool::new(false),
            tallied: AtomicU64::new(0),
        }
    }

    /// Whether the first call of `gate` has seen a second one.
    pub fn has_met(&self) -> bool {
        self.met.load(Ordering::SeqCst)
    }

    /// How often `tally` was called.
    pub fn tally(&self) -> u64 {
        self.tallied.load(Ordering::SeqCst)
    }

    fn pass(&self) {
        if self.gates.fetch_add(1, Ordering::SeqCst) == 0 {
            self.wait();
        }
    }

    fn wait(&self) {
        for _ in 0..MOST_TURNS {
            if self.gates.load(Ordering::SeqCst) > 1 {
                self.met.store(true, Ordering::SeqCst);
                return;
            }
        }
    }
}

impl Tools for Gate {
    ghost use Rattle.gate_tools.specs.Gates.{gate_answer};

    ghost answer = { gate_answer };

    fn call(&self, alloc: Global, name: &Name, _: &ToolInput) -> Result<ToolAnswer, NoMemory> {
        match name.key() {
            "gate" => {
                self.pass();
                Ok(success(alloc))
            }
            "tally" => {
                self.tallied.fetch_add(1, Ordering::SeqCst);
                Ok(success(alloc))
            }
            _ => Ok(ToolAnswer::Unknown),
        }
    }
}

fn success(alloc: Global) -> ToolAnswer
    ensures { result ≡ Made success }
{
    ToolAnswer::Made(TaskOutput {
        ok: true,
        outputs: List::new(alloc),
        acts: List::new(alloc),
        notes: List::new(alloc),
    })
}
