//! What a build is given, once its project is evaluated.

ghost use Rattle.std.specs.Prelude.{◌≡◌};
ghost use Rattle.msb_instance.specs.Kept.{AreEvaluated};

use build_world::World;
use msb_instance::Instances;
use std::alloc::Global;
use std::marker::Model;

/// A world, with instances that are evaluated already by its files, so that its requests need not
/// evaluate them. (How MSBuild builds projects, evaluation phase.)
///
/// Contracts see the world.
pub struct WorldWithInstances {
    world: World,
    instances: Instances,
}

// A drop that is written out is proved here alone.
impl Drop for WorldWithInstances {
    fn drop(self) {
        let WorldWithInstances {
            world: _,
            instances: _,
        } = self;
    }
}

impl Model for WorldWithInstances {
    ghost use Rattle.build_world.specs.declared.world.World.{World};
    ghost use Rattle.msb_instance.specs.Kept.{AreEvaluated};

    ghost Value = { World };

    ghost view = { λ w. w.world };

    ghost invariant = { λ w. AreEvaluated w.world.tree.files w.instances };
}

impl WorldWithInstances {
    /// This world, with instances by its files.
    pub fn of(world: World, instances: Instances) -> WorldWithInstances
        requires { AreEvaluated world.tree.files instances }
        ensures { result ≡ world }
    {
        WorldWithInstances { world, instances }
    }

    /// This world; no instance is evaluated yet.
    pub fn of_world(alloc: Global, world: World) -> WorldWithInstances
        ensures { result ≡ world }
    {
        WorldWithInstances {
            world,
            instances: Instances::new(alloc),
        }
    }

    /// The world, and the instances.
    pub fn parts(self) -> (World, Instances)
        ensures world { result.0 ≡ self }
        ensures kept { AreEvaluated result.0.tree.files result.1 }
    {
        let WorldWithInstances { world, instances } = self;
        (world, instances)
    }
}
