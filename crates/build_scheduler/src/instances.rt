ghost use Rattle.std.specs.Prelude.{◌≡◌, ◌≤◌, [], ◌∷◌, length, IfOk, OnOk, OnErr};
ghost use Rattle.build_meaning.specs.Meaning.{most_instances};
ghost use Rattle.build_scheduler.specs.Instances.{
  IsAdded,
  IsBelowMost,
  IsGrown,
  IsGrownBy,
  with_instance,
};

use indexmap::IndexSet;
use msb_values::{Copied, InstanceKey, NoMemory};
use result_cache::RequestKey;
use std::alloc::Global;
use std::marker::Model;

/// Why instances are not added.
#[derive(Drop)]
pub(crate) enum InstanceFault {
    /// With this one there would be too many.
    TooMany(InstanceKey),
    Memory,
}

/// The instances that requests ask for.
pub struct Instances {
    seen: IndexSet<InstanceKey>,
}

// A drop that is written out is proved here alone.
impl Drop for Instances {
    fn drop(self) {
        let Instances { seen: _ } = self;
    }
}

/// A build has no more instances than this.
const MOST: usize = 4096;

impl Model for Instances {
    ghost use Rattle.std.specs.Prelude.{List};
    ghost use Rattle.msb_values.specs.declared.key.InstanceKey.{InstanceKey};

    ghost Value = { List InstanceKey };

    ghost view = { λ i. i.seen.keys };
}

impl Instances {
    /// The instance of the root.
    pub fn of(alloc: Global, root: &InstanceKey) -> Result<Instances, NoMemory>
        ensures { IfOk result (λ instances. instances ≡ root.now ∷ []) }
    {
        let mut seen = IndexSet::new(alloc);
        insert(&mut seen, root)?;
        Ok(Instances { seen })
    }

    /// The place of an instance, in the order in which they came. This takes no memory.
    pub(crate) fn place(&self, instance: &InstanceKey) -> Option<usize> {
        self.seen.get_index_of(instance)
    }

    /// Adds the instances of some calls. Where there would be too many, or no memory, nothing
    /// changes.
    pub(crate) fn add(&mut self, calls: &[RequestKey]) -> Result<(), InstanceFault>
        requires { length self.old ≤ most_instances }
        ensures { IsAdded self.old self.new calls.now result }
    {
        let before = self.seen.len();
        let added = add_all(&mut self.seen, calls);
        if added.is_err() {
            self.seen.truncate(before);
        }
        added
    }
}

fn add_all(seen: &mut IndexSet<InstanceKey>, calls: &[RequestKey]) -> Result<(), InstanceFault>
    requires { length seen.old.keys ≤ most_instances }
    ensures { IsGrown seen.old.keys seen.new.keys calls.now result }
{
    for call in calls {
        add_one(seen, &call.instance)?;
    }
    Ok(())
}

fn add_one(seen: &mut IndexSet<InstanceKey>, instance: &InstanceKey) -> Result<(), InstanceFault>
    requires { length seen.old.keys ≤ most_instances }
    ensures { IsGrownBy seen.old.keys seen.new.keys instance.now result }
{
    insert(seen, instance)?;
    below_most(seen.len(), instance)
}

fn insert(seen: &mut IndexSet<InstanceKey>, instance: &InstanceKey) -> Result<(), NoMemory>
    ensures ok { OnOk result (seen.new.keys ≡ with_instance seen.old.keys instance.now) }
    ensures err { OnErr result (seen.new.keys ≡ seen.old.keys) }
{
    seen.insert(instance.copy()?)?;
    Ok(())
}

fn below_most(count: usize, instance: &InstanceKey) -> Result<(), InstanceFault>
    ensures { IsBelowMost count instance.now result }
{
    if count > MOST {
        return Err(InstanceFault::TooMany(instance.copy()?));
    }
    Ok(())
}

impl From<NoMemory> for InstanceFault {
    ghost use Rattle.std.specs.Prelude.{◌≡◌};
    ghost use Rattle.build_scheduler.specs.declared.instances.InstanceFault.TheVariants.{Memory};

    ghost from_gives = { λ _ crowd. crowd ≡ Memory };

    fn from(_: NoMemory) -> Self {
        InstanceFault::Memory
    }
}
