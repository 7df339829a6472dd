ghost use Rattle.std.specs.Prelude.{◌≡◌, [], IfOk, IsSome, List, None, Ok, OnOk, Some};
ghost use Rattle.file_store.specs.Files.{file_at};
ghost use Rattle.file_store.specs.declared.tree.File.{File};
ghost use Rattle.build_world.specs.Answers.{GivesFault};
ghost use Rattle.msb_instance.specs.Evaluated.{evaluated, seen_instance};
ghost use Rattle.msb_instance.specs.Kept.{AllEvaluated, AreEvaluated, Keeps};

use crate::evaluation::evaluate_by;
use build_world::{EvalFault, Instance};
use file_store::{File, Tree};
use indexmap::IndexMap;
use msb_properties::ElementTrees;
use msb_values::{Copied, InstanceKey, List, NoMemory, Shared};
use once_table::{Fits, OnceTable};
use std::alloc::Global;
use std::marker::Model;

/// An evaluated project, which its copies share, in any threads.
pub struct InstanceRef {
    shared: Shared<Instance>,
}

// A drop that is written out is proved here alone.
impl Drop for InstanceRef {
    fn drop(self) {
        let InstanceRef { shared: _ } = self;
    }
}

impl Model for InstanceRef {
    ghost use Rattle.std.specs.Coded.{codes};
    ghost use Rattle.build_world.specs.declared.instance.Instance.{Instance};
    ghost use Rattle.msb_elements.specs.contracts.element.Element as element;

    ghost Value = { Instance };

    ghost coded = { Prim.hlevel (codes, element.the_row.coded) };

    ghost view = { λ i. i.shared };
}

impl InstanceRef {
    /// The instance. This takes no memory.
    pub fn get(&self) -> &Instance
        ensures { result.now ≡ self.now }
    {
        self.shared.get()
    }

    fn of(alloc: Global, instance: Instance) -> Result<InstanceRef, NoMemory>
        ensures { IfOk result (λ i. i ≡ instance) }
    {
        Ok(InstanceRef {
            shared: Shared::new(alloc, instance)?,
        })
    }
}

impl Copied for InstanceRef {
    fn copy(&self) -> Result<InstanceRef, NoMemory> {
        Ok(InstanceRef {
            shared: self.shared.copy()?,
        })
    }
}

type Files = List<File>;

/// An instance fits a key in some files if the key's project evaluates to it by these.
struct Evaluation;

impl Fits<InstanceKey, InstanceRef, Files> for Evaluation {
    ghost use Rattle.msb_instance.specs.Kept.{IsEvaluated};
    ghost use Rattle.msb_instance.specs.KeyEquality.{evaluated-same};

    ghost fits = { IsEvaluated };

    ghost equal_keys = { evaluated-same };
}

type SharedInstances = OnceTable<InstanceKey, InstanceRef, Files, Evaluation>;

/// Instances that were evaluated by the files of one tree, so that none is evaluated twice: those
/// that are kept here, and those that several nodes share. (How MSBuild builds projects, evaluation
/// phase.)
///
/// Contracts see those that are kept here, with their keys, and where there are others that nodes
/// share, the files by which these are evaluated.
pub struct Instances {
    kept: IndexMap<InstanceKey, InstanceRef>,
    shared: Option<SharedInstances>,
    /// So that no file is read twice that several of them need.
    trees: ElementTrees,
}

// A drop that is written out is proved here alone.
impl Drop for Instances {
    fn drop(self) {
        let Instances {
            kept: _,
            shared: _,
            trees: _,
        } = self;
    }
}

impl Model for Instances {
    ghost use Rattle.std.specs.Coded.{codes};
    ghost use Rattle.std.specs.Prelude.{List, Option};
    ghost use Rattle.file_store.specs.declared.tree.File.{File};
    ghost use Rattle.msb_values.specs.declared.key.InstanceKey.{InstanceKey};
    ghost use Rattle.build_world.specs.declared.instance.Instance.{Instance};
    ghost use Rattle.msb_elements.specs.contracts.element.Element as element;

    ghost Value = { List (InstanceKey × Instance) × Option (List File) };

    ghost coded = { Prim.hlevel (codes, element.the_row.coded) };

    ghost view = { λ i. (i.kept.entries, i.shared) };
}

impl Instances {
    /// No instance is kept.
    pub fn new(alloc: Global) -> Instances
        ensures { result ≡ ([], None) }
    {
        Instances {
            kept: IndexMap::new(alloc),
            shared: None,
            trees: ElementTrees::new(alloc),
        }
    }

    /// These instances, which `beside` shares with other nodes, as all that are evaluated from now
    /// on.
    pub fn sharing(self, alloc: Global, tree: &Tree) -> Result<Instances, NoMemory>
        requires { AreEvaluated tree.now.files self }
        ensures { IfOk result (AreEvaluated tree.now.files) }
    {
        let Instances {
            kept,
            shared: _,
            trees,
        } = self;
        let mut shared = OnceTable::open(alloc, &tree.files)?;
        shared.put_all(&kept)?;
        Ok(Instances {
            kept,
            shared: Some(shared),
            trees: trees.sharing(alloc)?,
        })
    }

    /// The instances of another node, which shares those that are shared here.
    pub fn beside(&mut self, alloc: Global, tree: &Tree) -> Result<Instances, NoMemory>
        requires { AreEvaluated tree.now.files self.old }
        ensures other { IfOk result (AreEvaluated tree.now.files) }
        ensures kept { self.new ≡ self.old }
    {
        let shared = match &mut self.shared {
            Some(shared) => shared.split(&tree.files)?,
            None => None,
        };
        Ok(Instances {
            kept: IndexMap::new(alloc),
            shared,
            trees: self.trees.beside(alloc)?,
        })
    }

    /// What `evaluate` gives. An instance is kept for those that ask for it later; where there is
    /// no memory to keep it, that is want of memory.
    pub fn get(
        &mut self,
        alloc: Global,
        tree: &Tree,
        key: &InstanceKey,
    ) -> Result<InstanceRef, EvalFault>
        requires file { IsSome (file_at key.now.path tree.now.files) }
        requires kept { AreEvaluated tree.now.files self.old }
        ensures gives { GivesFault seen_instance result (evaluated tree.now.files key.now) }
        ensures keeps { IfOk result (λ i. Keeps key.now i self.new.0) }
        ensures kept { AreEvaluated tree.now.files self.new }
    {
        if let Some(instance) = self.kept.get(key) {
            return Ok(instance.copy()?);
        }
        let instance = match &mut self.shared {
            Some(shared) => evaluate_once(alloc, tree, key, &mut self.trees, shared)?,
            None => evaluate_shared(alloc, tree, key, &mut self.trees)?,
        };
        put(&mut self.kept, key, &instance)?;
        Ok(instance)
    }
}

/// Keeps an instance under its key.
fn put(
    kept: &mut IndexMap<InstanceKey, InstanceRef>,
    key: &InstanceKey,
    instance: &InstanceRef,
) -> Result<(), NoMemory>
    ensures keeps { OnOk result (Keeps key.now instance.now kept.new.entries) }
    ensures kept { (files : List File) → AllEvaluated files kept.old.entries →
        evaluated files key.now ≡ Ok (seen_instance instance.now) →
        AllEvaluated files kept.new.entries }
{
    kept.insert(key.copy()?, instance.copy()?)?;
    Ok(())
}

/// The instance of a key, which is evaluated by the first node that needs it.
fn evaluate_once(
    alloc: Global,
    tree: &Tree,
    key: &InstanceKey,
    trees: &mut ElementTrees,
    shared: &mut SharedInstances,
) -> Result<InstanceRef, EvalFault>
    requires file { IsSome (file_at key.now.path tree.now.files) }
    requires files { shared.old ≡ tree.now.files }
    ensures gives { GivesFault seen_instance result (evaluated tree.now.files key.now) }
    ensures kept { shared.new ≡ shared.old }
{
    shared.find_or_make(key, || evaluate_shared(alloc, tree, key, trees))?
}

/// Evaluates an instance, which its copies share.
fn evaluate_shared(
    alloc: Global,
    tree: &Tree,
    key: &InstanceKey,
    trees: &mut ElementTrees,
) -> Result<InstanceRef, EvalFault>
    requires { IsSome (file_at key.now.path tree.now.files) }
    ensures { GivesFault seen_instance result (evaluated tree.now.files key.now) }
{
    let instance = evaluate_by(alloc, tree, key, trees)?;
    Ok(InstanceRef::of(alloc, instance)?)
}
