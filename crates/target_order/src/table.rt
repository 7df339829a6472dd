ghost use Rattle.std.specs.Prelude.{◌≡◌, ◌<◌, [], length, slice_index_or, IfOk, IfSome};
ghost use Rattle.target_order.specs.Visit.{first_rows};
ghost use Rattle.target_order.specs.Progress.{number_of};
ghost use Rattle.target_order.specs.Table.{names_in, AreDistinct, AreHooks};
ghost use Rattle.target_order.specs.declared.hooks.Side.TheVariants.{Before, After};

use crate::TargetRow;
use crate::hooks::{Side, firsts_of, hooks};
use crate::numbers::Numbers;
use msb_values::{Copied, List, Name, NoMemory, Shared};
use std::alloc::Global;
use std::marker::Model;

/// The targets of a project by their numbers, which the copies of a walk share.
pub struct SharedTable {
    targets: Shared<Targets>,
}

// A drop that is written out is proved here alone.
impl Drop for SharedTable {
    fn drop(self) {
        let SharedTable { targets: _ } = self;
    }
}

struct Targets {
    names: Numbers,
    /// Of each target, those that name it in BeforeTargets.
    before: Vec<List<Name>>,
    /// Of each target, those that name it in AfterTargets.
    after: Vec<List<Name>>,
}

// A drop that is written out is proved here alone.
impl Drop for Targets {
    fn drop(self) {
        let Targets {
            names: _,
            before: _,
            after: _,
        } = self;
    }
}

impl Model for SharedTable {
    ghost use Rattle.target_order.specs.Progress.{Table};
    ghost use Rattle.target_order.specs.Shared.{table};

    ghost Value = { Table };

    ghost view = { table };
}

impl SharedTable {
    /// The targets of these rows, of several with one name the first.
    pub fn of(alloc: Global, rows: &[TargetRow]) -> Result<SharedTable, NoMemory>
        ensures names { IfOk result (λ table. table.names ≡ names_in (first_rows [] rows.now)) }
        ensures distinct { IfOk result (λ table. AreDistinct table.names) }
        ensures before { IfOk result
            (λ table. AreHooks Before (first_rows [] rows.now) table.names table.before) }
        ensures after { IfOk result
            (λ table. AreHooks After (first_rows [] rows.now) table.names table.after) }
    {
        let (firsts, numbers) = firsts_of(alloc, rows)?;
        let before = hooks(alloc, &firsts, &numbers, Side::Before)?;
        let after = hooks(alloc, &firsts, &numbers, Side::After)?;
        Ok(SharedTable::share(alloc, numbers, before, after)?)
    }

    fn share(
        alloc: Global,
        names: Numbers,
        before: Vec<List<Name>>,
        after: Vec<List<Name>>,
    ) -> Result<SharedTable, NoMemory>
        ensures { IfOk result (λ table. table
            ≡ record { names = names; before = before.items; after = after.items }) }
    {
        let targets = Targets {
            names,
            before,
            after,
        };
        Ok(SharedTable {
            targets: Shared::new(alloc, targets)?,
        })
    }

    pub fn count(&self) -> usize
        ensures { result ≡ length self.now.names }
    {
        self.targets.get().names.len()
    }

    /// The number of the target with this name.
    pub fn find(&self, name: &Name) -> Option<usize>
        ensures value { result ≡ number_of self.now.names name.now }
        ensures within { IfSome result (λ k. k < length self.now.names) }
    {
        self.targets.get().names.find(name)
    }

    pub fn name(&self, number: usize) -> &Name
        requires { number < length self.now.names }
        ensures { result.now ≡ slice_index_or self.now.names number [] }
    {
        self.targets.get().names.name(number)
    }

    /// The targets that name this one in BeforeTargets.
    pub fn before(&self, number: usize) -> &[Name]
        requires { number < length self.now.before }
        ensures { result.now ≡ slice_index_or self.now.before number [] }
    {
        self.targets.get().before[number].as_slice()
    }

    /// The targets that name this one in AfterTargets.
    pub fn after(&self, number: usize) -> &[Name]
        requires { number < length self.now.after }
        ensures { result.now ≡ slice_index_or self.now.after number [] }
    {
        self.targets.get().after[number].as_slice()
    }
}

impl Copied for SharedTable {
    fn copy(&self) -> Result<SharedTable, NoMemory> {
        Ok(SharedTable {
            targets: self.targets.copy()?,
        })
    }
}
