//! Sets of projects that look random, the same for the same seed.
use crate::runs::file;
use file_store::Tree;
use msb_values::List;
use std::alloc::{AllocError, Global};
use std::fmt::Write;
use std::ops::Range;
use std::test::Fail;

/// Numbers that look random.
#[derive(Clone, Copy)]
pub struct Random {
    state: u64,
}

impl Random {
    pub fn new(seed: u64) -> Random {
        Random {
            state: seed.wrapping_mul(0x9e37_79b9_7f4a_7c15),
        }
    }

    pub fn next(&mut self) -> u64 {
        self.state = self
            .state
            .wrapping_mul(6_364_136_223_846_793_005)
            .wrapping_add(1_442_695_040_888_963_407);
        self.state >> 33
    }
}

/// Three to six projects with two targets each, `p0`, `p1` and so on. A target calls some of the
/// projects behind its own, or of all where it may, with one target or both, tallies, and writes
/// what they return.
pub fn set(alloc: Global, seed: u64, may_call_all: bool) -> Result<Tree, Fail> {
    let mut random = Random::new(seed);
    let projects = (random.next() % 4).saturating_add(3);
    let mut files = List::new(alloc);
    for number in 0..projects {
        let first = if may_call_all { 0 } else { number + 1 };
        let text = project(alloc, &mut random, number, first..projects)?;
        let path = format!(in alloc; "p{number}")?;
        files.push(file(alloc, path.as_str(), text.as_str())?)?;
    }
    Ok(Tree::of(files).ok_or("the paths are in order")?)
}

fn project(
    alloc: Global,
    random: &mut Random,
    number: u64,
    callable: Range<u64>,
) -> Result<String, AllocError> {
    let mut text = String::from_str(
        alloc,
        r#"{"e":"Project","a":{"DefaultTargets":"T0;T1"},"c":["#,
    )?;
    for target in 0..2u64 {
        text.push_str(if target == 0 { "" } else { "," })?;
        push_target(&mut text, random, (number, target), &callable)?;
    }
    text.push_str("]}")?;
    Ok(text)
}

fn push_target(
    text: &mut String,
    random: &mut Random,
    (project, target): (u64, u64),
    callable: &Range<u64>,
) -> Result<(), AllocError> {
    let called = match random.next() % 3 {
        0 => "T0",
        1 => "T1",
        _ => "T0;T1",
    };
    write!(
        text,
        "{{\"e\":\"Target\",\"a\":{{\"Name\":\"T{target}\",\"Outputs\":\"p{project}t{target}\"}},
\"c\":[{{\"e\":\"Tally\"}},
{{\"e\":\"MSBuild\",\"a\":{{\"BuildInParallel\":\"true\",\"Targets\":\"{called}\",\"Projects\":\""
    )?;
    push_projects(text, random, callable)?;
    write!(
        text,
        "\"}},
\"c\":[{{\"e\":\"Output\",
\"a\":{{\"TaskParameter\":\"TargetOutputs\",\"ItemName\":\"O{target}\"}}}}]}},
{{\"e\":\"WriteLinesToFile\",\"a\":{{\"File\":\"p{project}t{target}\",\"Overwrite\":\"true\",
\"Lines\":\"p{project}t{target};@(O{target})\"}}}}]}}"
    )
}

fn push_projects(
    text: &mut String,
    random: &mut Random,
    callable: &Range<u64>,
) -> Result<(), AllocError> {
    let most = callable.end.saturating_sub(callable.start).max(3);
    for project in callable.start..callable.end {
        if random.next() % most < 2 {
            write!(text, "p{project};")?;
        }
    }
    Ok(())
}
