//! Requests that are over at once by what another one of their key has given, step by step.
ghost use Rattle.std.specs.Prelude.{◌≡◌, []};
ghost use Rattle.build_scheduler.specs.Position.{begins};

use crate::any_order::AnyOrder;
use crate::orders::world;
use crate::runs::{is_text, tree};
use build_scheduler::{ClaimKind, Core, Event, Walker};
use build_world::World;
use gate_tools::Gate;
use msb_instance::Instances;
use msb_values::NoMemory;
use request_machine::{NodeContext, Walk, root_key};
use result_cache::RequestKey;
use std::alloc::{AllocError, Global};
use std::fmt::Write;
use std::test::Fail;
use task_trait::{Counted, CountedTools};

/// A project that calls another one twice at once.
const CALLER: &str = r#"{"e":"Project","c":[{"e":"Target","a":{"Name":"T"},"c":[
{"e":"MSBuild","a":{"Projects":"p1;p1","BuildInParallel":"true"}}]}]}"#;

/// The project that is called, with two targets.
const CALLED: &str = r#"{"e":"Project","a":{"DefaultTargets":"A;B"},"c":[
{"e":"Target","a":{"Name":"A"}},{"e":"Target","a":{"Name":"B"}}]}"#;

/// A project that calls two others at once.
const TWO_CALLERS: &str = r#"{"e":"Project","c":[{"e":"Target","a":{"Name":"T"},"c":[
{"e":"MSBuild","a":{"Projects":"p2;p3","BuildInParallel":"true"}}]}]}"#;

/// A project that writes a file before it calls another project.
const WRITES_ONE: &str = r#"{"e":"Project","c":[{"e":"Target","a":{"Name":"T"},"c":[
{"e":"WriteLinesToFile","a":{"File":"one.txt","Lines":"one"}},
{"e":"MSBuild","a":{"Projects":"p1"}}]}]}"#;

/// The same with another file.
const WRITES_TWO: &str = r#"{"e":"Project","c":[{"e":"Target","a":{"Name":"T"},"c":[
{"e":"WriteLinesToFile","a":{"File":"two.txt","Lines":"two"}},
{"e":"MSBuild","a":{"Projects":"p1"}}]}]}"#;

/// A project with two targets, the second one where a file is there.
const SEES_A_FILE: &str = r#"{"e":"Project","a":{"DefaultTargets":"A;B"},"c":[
{"e":"Target","a":{"Name":"A"}},
{"e":"Target","a":{"Name":"B","Condition":"Exists('two.txt')"}}]}"#;

/// More turns than the build has.
const TURNS: usize = 200;

#[test]
fn the_first_request_of_a_key_is_not_over_at_once(rt: HostRuntime) -> Result<(), Fail> {
    let steps = try_repeat(rt.alloc(), &[("p0", CALLER), ("p1", CALLED)], 1)?;
    is_text(&rt, steps.as_bytes(), "false\n", "the first request");
    Ok(())
}

#[test]
fn the_second_request_of_a_key_is_over_at_once(rt: HostRuntime) -> Result<(), Fail> {
    let steps = try_repeat(rt.alloc(), &[("p0", CALLER), ("p1", CALLED)], 2)?;
    let want = "assign 2 5\nclaim 2 a use\nclaim 2 b use\ndone 2\ntrue\n";
    is_text(&rt, steps.as_bytes(), want, "the second request");
    Ok(())
}

#[test]
fn a_plain_request_is_over_at_once_whatever_its_caller_has_done(
    rt: HostRuntime,
) -> Result<(), Fail> {
    let steps = try_repeat(rt.alloc(), &called_by_two(CALLED), 4)?;
    let want = "assign 4 5\nclaim 4 a use\nclaim 4 b use\ndone 4\ntrue\n";
    is_text(
        &rt,
        steps.as_bytes(),
        want,
        "the second request of another caller",
    );
    Ok(())
}

#[test]
fn a_request_that_sees_files_is_not_over_at_once(rt: HostRuntime) -> Result<(), Fail> {
    let steps = try_repeat(rt.alloc(), &called_by_two(SEES_A_FILE), 4)?;
    is_text(
        &rt,
        steps.as_bytes(),
        "false\n",
        "a request whose target asks for a file",
    );
    Ok(())
}

/// A project that two others call, each of which has written a file of its own.
fn called_by_two(called: &str) -> [(&str, &str); 4] {
    [
        ("p0", TWO_CALLERS),
        ("p1", called),
        ("p2", WRITES_ONE),
        ("p3", WRITES_TWO),
    ]
}

/// The steps of the call that tries to end this request at once, and what it answers.
fn try_repeat(alloc: Global, files: &[(&str, &str)], id: u64) -> Result<String, Fail> {
    let world = world(alloc, tree(alloc, files)?)?;
    let tools = Gate::new();
    let mut counted = Counted::new(alloc, &tools)?;
    Ok(try_repeat_in(alloc, &world, &mut counted, id)?)
}

fn try_repeat_in<'a, T: CountedTools + 'a>(
    alloc: Global,
    world: &'a World,
    tools: &'a mut T,
    id: u64,
) -> Result<String, NoMemory> {
    let key = root_key(world)?;
    let walk = Walk::start(alloc, world)?;
    let mut site = NodeContext {
        world,
        tools: &mut *tools,
        instances: Instances::new(alloc),
    };
    try_repeat_at(alloc, key, walk, &mut site, id)
}

fn try_repeat_at<W: Walker>(
    alloc: Global,
    key: RequestKey,
    walk: W,
    place: &mut W::Place,
    id: u64,
) -> Result<String, NoMemory>
    requires key { key ≡ (W.seen walk).world.root }
    requires begins { (W.seen walk).position ≡ begins (W.seen walk).world key [] }
    requires asked { (W.seen walk).asked ≡ 0 }
    requires learnt { (W.seen walk).learnt ≡ [] }
    requires place { W.Fits place.old (W.seen walk).world }
{
    let core = Core::new(alloc, key, walk)?;
    let mut build = AnyOrder::new(alloc, core);
    play_until(&mut build, place, id)?;
    let mut core = build.into_core();
    let before = core.history().len();
    let repeated = repeat_least(&mut core, 5)?;
    Ok(show_steps(alloc, core.history(), before, repeated)?)
}

/// The build goes on as on one node, until this request is the next one.
fn play_until<W: Walker>(
    build: &mut AnyOrder<W>,
    place: &mut W::Place,
    id: u64,
) -> Result<(), NoMemory>
    requires { W.Fits place.old (W.world_of build.old.core.world) }
{
    for _ in 0..TURNS {
        if build.is_next(id) {
            return Ok(());
        }
        build.turn(place, 0)?;
    }
    Ok(())
}

/// Tries to end the least request that is ready at once.
fn repeat_least<W: Walker>(core: &mut Core<W>, node: u32) -> Result<bool, NoMemory> {
    if core.end().is_some() {
        return Ok(false);
    }
    match core.ready() {
        Some(id) => core.repeat(id, node),
        None => Ok(false),
    }
}

/// The events from this place on, and the answer.
fn show_steps(
    alloc: Global,
    events: &[Event],
    from: usize,
    answer: bool,
) -> Result<String, AllocError> {
    let mut text = String::new(alloc);
    for at in from..events.len() {
        if let Some(event) = events.get(at) {
            push_event(&mut text, event)?;
        }
    }
    text.push_str(if answer { "true\n" } else { "false\n" })?;
    Ok(text)
}

fn push_event(text: &mut String, event: &Event) -> Result<(), AllocError> {
    match event {
        Event::Assign(id, node) => write!(text, "assign {id} {node}\n"),
        Event::Claim(id, run, ClaimKind::Use) => {
            let target = run.target.key();
            write!(text, "claim {id} {target} use\n")
        }
        Event::Claim(id, _, _) => write!(text, "claim {id}\n"),
        Event::Request(id, _) => write!(text, "request {id}\n"),
        Event::Result(id, _) => write!(text, "result {id}\n"),
        Event::Done(id) => write!(text, "done {id}\n"),
        Event::Retire(id, _) => write!(text, "retire {id}\n"),
    }
}
