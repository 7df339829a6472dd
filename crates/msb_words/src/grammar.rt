ghost use Rattle.std.specs.Prelude.{◌≡◌, IfOk, false, codes};
ghost use Rattle.clap.specs.Words.{app_of, rule_of, new_app};
ghost use Rattle.clap.specs.Simple.{on_top};
ghost use Rattle.msb_words.specs.Grammar.{flag, grammar, plain, positional, option};

use clap::{Arg, ArgAction, Command};
use std::alloc::{AllocError, Global};

/// The command: an action, a project, options with a value each, and a flag.
pub(crate) fn grammar<'a>(alloc: Global) -> Result<Command<'a>, AllocError>
    ensures { IfOk result (λ command. app_of command ≡ grammar) }
{
    bare(alloc)
        .arg(positional(alloc, "action"))?
        .arg(positional(alloc, "project"))?
        .arg(option(alloc, "target"))?
        .arg(option(alloc, "property"))?
        .arg(option(alloc, "nodes"))?
        .arg(option(alloc, "show"))?
        .arg(option(alloc, "size"))?
        .arg(flag(alloc, "clean"))
}

// The words are those behind the program's name, and none of them asks for help.
fn bare<'a>(alloc: Global) -> Command<'a>
    ensures { app_of result ≡ on_top plain (new_app (codes "msb")) }
{
    Command::new(alloc, "msb")
        .no_binary_name(true)
        .disable_help_flag(true)
}

fn positional<'a>(alloc: Global, name: &'a str) -> Arg<'a>
    ensures rule { rule_of result ≡ positional name.entry.now }
    ensures local { result.global ≡ false }
{
    Arg::new(alloc, name).required(true)
}

fn option<'a>(alloc: Global, name: &'a str) -> Arg<'a>
    ensures rule { rule_of result ≡ option name.entry.now }
    ensures local { result.global ≡ false }
{
    Arg::new(alloc, name).long(name)
}

fn flag<'a>(alloc: Global, name: &'a str) -> Arg<'a>
    ensures rule { rule_of result ≡ flag name.entry.now }
    ensures local { result.global ≡ false }
{
    Arg::new(alloc, name).long(name).action(ArgAction::SetTrue)
}
