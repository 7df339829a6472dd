//! Calls that the program makes nowhere.
use crate::runs::is_so;
use file_store::Tree;
use msb_elements::{Element, Project, read_project};
use msb_expand::{Lens, Use};
use msb_files::{FileView, Journal};
use msb_glob::{Match, Pattern, expand};
use msb_items::in_target;
use msb_values::{Change, Defaults, List, Lists, Name, NameFault, Pairs, Scope, Text};
use std::alloc::Global;
use std::test::Fail;

/// A target with one group.
const PROJECT: &[u8] = br#"{"e":"Project","c":[{"e":"Target","a":{"Name":"T"},"c":[
{"e":"PropertyGroup","c":[{"e":"Q","t":"$(P)1"}]}]}]}"#;

fn group(project: &Project) -> Option<&Element> {
    project.root.child(0)?.child(0)
}

/// A scope in which P is `p`.
fn scope(alloc: Global) -> Result<Scope, NameFault> {
    let mut props = Pairs::new(alloc);
    props.insert(Name::read(alloc, "P")?, Text::of(alloc, "p")?)?;
    Ok(Scope {
        globals: Pairs::new(alloc),
        props,
        items: Lists::new(alloc),
        defaults: Defaults::new(alloc),
    })
}

/// Whether the group sets Q to `p1`, and does nothing else.
fn sets_q(alloc: Global, group: &Element, scope: &Scope) -> Result<bool, Fail> {
    let tree = Tree::of(List::new(alloc)).ok_or("no paths are in order")?;
    let journal = Journal::new(alloc)?;
    let lens = Lens::new(scope, "a.proj", "a.proj", Use::All);
    Ok(
        match in_target(alloc, &FileView::of(&tree, &journal), &lens, group) {
            Ok(changes) => is_q_alone(changes.as_slice()),
            Err(_) => false,
        },
    )
}

fn is_q_alone(changes: &[Change]) -> bool {
    match changes {
        [Change::SetProp(name, value)] => name.key() == "q" && value.as_str() == "p1",
        _ => false,
    }
}

#[test]
fn a_group_in_a_target_tells_its_changes(rt: HostRuntime) -> Result<(), Fail> {
    let alloc = rt.alloc();
    let scope = scope(alloc)?;
    match read_project(alloc, PROJECT) {
        Ok(project) => {
            let group = group(&project).ok_or("there is a group")?;
            is_so(&rt, sets_q(alloc, group, &scope)?, "set q=p1");
        }
        Err(_) => is_so(&rt, false, "the project is read"),
    }
    Ok(())
}

/// What a pattern stands for among paths that are in no order.
fn matches(alloc: Global) -> Option<List<Match>> {
    let mut paths = List::new(alloc);
    for path in &["src/x/b.c", "src/a.c"] {
        paths.push(Text::of(alloc, path).ok()?).ok()?;
    }
    let pattern = Pattern::parse(alloc, "", "src/**/*.c").ok()?;
    expand(alloc, &paths, &pattern).ok()
}

fn is_match(found: &Match, ident: &str, recursive: &str) -> bool {
    found.ident.as_str() == ident && found.recursive.as_str() == recursive
}

#[test]
fn a_pattern_finds_paths_in_any_order(rt: HostRuntime) -> Result<(), Fail> {
    let found = matches(rt.alloc()).ok_or("the pattern is read")?;
    let is_found = match found.as_slice() {
        [first, second] => is_match(first, "src/a.c", "") && is_match(second, "src/x/b.c", "x/"),
        _ => false,
    };
    is_so(&rt, is_found, "src/a.c and src/x/b.c");
    Ok(())
}
