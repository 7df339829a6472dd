ghost use Rattle.std.specs.Prelude.{◌≡◌, ◌++◌, IfOk, Some, OnOk, option_copied};
ghost use Rattle.request_machine.specs.Requests.{
  failed,
  unevaluated,
  all_targets,
  asked_targets,
  if_returned,
  once,
  returned_of,
  succeeded,
};
ghost use Rattle.request_machine.specs.Walk.{circle_text, unknown_text};
ghost use Rattle.build_meaning.specs.SoFar.{result_of};
ghost use Rattle.std.specs.List.{find, flat_map, list_any};
ghost use Rattle.std.specs.Str.{bytes_eq};
ghost use Rattle.build_world.specs.Instances.{seen_instance};
ghost use Rattle.request_machine.specs.Each.{returned_unless};
ghost use Rattle.request_machine.specs.Seen.{seen_project};

use crate::context::RequestContext;
use crate::shared::SharedList;
use build_world::Instance;
use msb_values::{Copied, List, Name, NoMemory, Shared, Text};
use result_cache::{RequestKey, RequestResult, Returned, RunRef};
use std::alloc::Global;
use std::marker::Model;

/// What a request answers besides its runs. (MSBuild task, TargetOutputs.)
pub struct Reply {
    pub ok: bool,
    /// False exactly where the instance was not evaluated.
    pub evaluated: bool,
    pub returned: List<Returned>,
    pub error: Option<Text>,
}

// A drop that is written out is proved here alone.
impl Drop for Reply {
    fn drop(self) {
        let Reply {
            ok: _,
            evaluated: _,
            returned: _,
            error: _,
        } = self;
    }
}

impl Model for Reply {
    ghost use Rattle.build_meaning.specs.Walk.{Reply as Told};

    ghost Value = { Told };

    ghost view = { λ r.
        record { ok = r.ok; evaluated = r.evaluated; returned = r.returned; error = r.error } };
}

impl Reply {
    /// A request that failed, with its error text.
    pub fn failure(alloc: Global, error: Option<Text>) -> Reply
        ensures { result ≡ failed error }
    {
        Reply {
            ok: false,
            evaluated: true,
            returned: List::new(alloc),
            error,
        }
    }

    /// A request whose project has this fault, and was not evaluated.
    pub fn of_fault(alloc: Global, fault: Text) -> Reply
        ensures { result ≡ unevaluated fault }
    {
        Reply {
            ok: false,
            evaluated: false,
            returned: List::new(alloc),
            error: Some(fault),
        }
    }

    /// A request that wants a target inside the target's own visit. (Target build order.)
    pub fn circle(alloc: Global, names: &List<Name>) -> Result<Reply, NoMemory>
        ensures { IfOk result (λ r. r ≡ failed (Some (circle_text names.now))) }
    {
        let text = circle_text(alloc, names.as_slice())?;
        Ok(Reply::failure(alloc, Some(text)))
    }

    /// A request that wants a target which the project has not. (Target build order.)
    pub fn unknown(alloc: Global, name: &Name) -> Result<Reply, NoMemory>
        ensures { IfOk result (λ r. r ≡ failed (Some (unknown_text name.now))) }
    {
        let name = name.key();
        let text = Text::from(format!(in alloc; "unknown target {name}")?);
        Ok(Reply::failure(alloc, Some(text)))
    }

    /// An equal reply.
    pub fn copy(&self) -> Result<Reply, NoMemory>
        ensures { IfOk result (λ reply. reply ≡ self.now) }
    {
        Ok(Reply {
            ok: self.ok,
            evaluated: self.evaluated,
            returned: self.returned.copy()?,
            error: copy_error(&self.error)?,
        })
    }

    /// The result of a request that answers so, by the runs that it made or used.
    pub fn result(
        &self,
        alloc: Global,
        runs: &SharedList<RunRef>,
    ) -> Result<RequestResult, NoMemory>
        ensures { IfOk result (λ r. r ≡ result_of self.now runs.now) }
    {
        Ok(RequestResult {
            ok: self.ok,
            evaluated: self.evaluated,
            returned: self.returned.copy()?,
            runs: runs.to_list(alloc)?,
            error: copy_error(&self.error)?,
        })
    }
}

fn copy_error(error: &Option<Text>) -> Result<Option<Text>, NoMemory>
    ensures { IfOk result (λ copy. copy ≡ error.now) }
{
    match error {
        Some(error) => Ok(Some(error.copy()?)),
        None => Ok(None),
    }
}

fn circle_text(alloc: Global, names: &[Name]) -> Result<Text, NoMemory>
    ensures { IfOk result (λ text. text ≡ circle_text names.now) }
{
    let mut text = Text::of(alloc, "circular targets")?;
    for name in names {
        text.push_str(" ")?;
        text.push_str(name.key())?;
    }
    Ok(text)
}

impl<'a> RequestContext<'a> {
    /// A request whose targets were all visited: it returns the items of the targets asked for, in
    /// their order, each name once. (MSBuild task, TargetOutputs.)
    pub fn success(&self, alloc: Global) -> Result<Reply, NoMemory>
        ensures { IfOk result (λ reply. reply
            ≡ succeeded (seen_project self.now.project).instance self.now.key.now
            self.now.state.now.returned) }
    {
        let names = asked_targets(self.project.instance.get(), self.key);
        let state = self.state;
        let returned = state.returned.entries(alloc)?;
        Ok(Reply {
            ok: true,
            evaluated: true,
            returned: collect_returned(alloc, returned.as_slice(), names)?,
            error: None,
        })
    }
}

/// The targets of a request: the initial ones, and then those that are named, or the default ones.
pub fn all_targets(instance: &Instance, key: &RequestKey) -> Result<List<Name>, NoMemory>
    ensures { IfOk result (λ names. names ≡ all_targets (seen_instance instance.now) key.now) }
{
    let mut names = instance.initial.copy()?;
    add_all(&mut names, asked_targets(instance, key))?;
    Ok(names)
}

fn asked_targets<'a>(instance: &'a Instance, key: &'a RequestKey) -> &'a [Name]
    ensures { result.now ≡ asked_targets (seen_instance instance.entry.now) key.entry.now }
{
    if key.named {
        key.targets.as_slice()
    } else {
        instance.default.as_slice()
    }
}

/// Puts names behind others.
pub fn add_all(names: &mut List<Name>, more: &[Name]) -> Result<(), NoMemory>
    ensures { OnOk result (names.new ≡ names.old ++ more.now) }
{
    for name in more {
        names.push(name.copy()?)?;
    }
    Ok(())
}

// What the targets of these names have returned, each name once.
fn collect_returned(
    alloc: Global,
    returned: &[Shared<Returned>],
    names: &[Name],
) -> Result<List<Returned>, NoMemory>
    ensures { IfOk result (λ by. by ≡ flat_map (returned_of returned.now) (once names.now)) }
{
    let mut by = List::new(alloc);
    for at in 0..names.len() {
        push_returned(&mut by, returned, &names[..at], &names[at])?;
    }
    Ok(by)
}

// What the target of a name has returned, unless the name is among those ahead of it.
fn push_returned(
    by: &mut List<Returned>,
    returned: &[Shared<Returned>],
    ahead: &[Name],
    name: &Name,
) -> Result<(), NoMemory>
    ensures { OnOk result
        (by.new ≡ by.old ++ returned_unless (list_any (bytes_eq name.now) ahead.now) returned.now
        name.now) }
{
    if is_among(ahead, name) {
        return Ok(());
    }
    push_found(by, find_returned(returned, name))
}

fn is_among(names: &[Name], name: &Name) -> bool
    ensures { result ≡ list_any (bytes_eq name.now) names.now }
{
    names.iter().any(|other| *name == *other)
}

fn push_found(by: &mut List<Returned>, found: Option<&Shared<Returned>>) -> Result<(), NoMemory>
    ensures { OnOk result (by.new ≡ by.old ++ if_returned (option_copied found.entry)) }
{
    if let Some(found) = found {
        by.push(found.get().copy()?)?;
    }
    Ok(())
}

fn find_returned<'a>(returned: &'a [Shared<Returned>], name: &Name) -> Option<&'a Shared<Returned>>
    ensures { option_copied result ≡ find (λ r. bytes_eq r.target name.now) returned.entry.now }
{
    returned.iter().find(|found| found.get().target == *name)
}
