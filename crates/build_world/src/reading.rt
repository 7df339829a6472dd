ghost use Rattle.std.specs.Prelude.{◌≡◌, Err};
ghost use Rattle.msb_elements.specs.View.{view};
ghost use Rattle.build_world.specs.Answers.{GivesFault};
ghost use Rattle.build_world.specs.Readings.{
  place_of_fault,
  cause_of_fault,
  project_of,
  project_or_fault,
};

use crate::EvalFault;
use file_store::File;
use msb_elements::{Place, Project, ReadFault, read_project};
use msb_values::{Cause, Copied};
use std::alloc::Global;

/// Reads a project file, or says which element of it has the first fault. (MSBuild project file
/// schema reference.)
pub fn read_file(alloc: Global, file: &File) -> Result<Project, EvalFault>
    ensures { GivesFault (λ project. view project.root) result (project_of file.now) }
{
    match read_project(alloc, file.bytes.as_bytes()) {
        Ok(project) => Ok(project),
        Err(fault) => Err(fault_of(alloc, file, fault)),
    }
}

// A refused file as a fault; want of memory for its path is want of memory.
fn fault_of(alloc: Global, file: &File, fault: ReadFault) -> EvalFault
    ensures { GivesFault (λ node. node) (Err result) (project_or_fault file.now.path (Err fault)) }
{
    let (place, cause) = place_and_cause(alloc, fault);
    match file.path.copy() {
        Ok(path) => EvalFault::at(path, place, cause),
        Err(no_memory) => EvalFault::from(no_memory),
    }
}

fn place_and_cause(alloc: Global, fault: ReadFault) -> (Place, Cause)
    ensures { result ≡ (place_of_fault fault, cause_of_fault fault) }
{
    match fault {
        ReadFault::NotJson => (Place::root(alloc), Cause::NotJson),
        ReadFault::NotElement(place) => (place, Cause::NotElement),
        ReadFault::UnknownElement(place) => (place, Cause::UnknownElement),
        ReadFault::Misplaced(place) => (place, Cause::Misplaced),
        ReadFault::MissingAttribute(place, name) => (place, Cause::MissingAttribute(name)),
        ReadFault::BothAttributes(place, one, other) => (place, Cause::BothAttributes(one, other)),
        ReadFault::BadName(place, at) => (place, Cause::BadName(at)),
        ReadFault::Memory => (Place::root(alloc), Cause::Memory),
    }
}
