//! The program `msb`: its words, the current folder and standard output, handed to the top call.
#![tactic(auto)]

use host_files::{DirStore, OutSink};
use msb_program::run;
use msb_words::{Action, read_words};
use std::alloc::Global;
use std::process::ExitCode;
use std::rt::Env;
use std::thread::{self, Threads};
use std::{env, io};
use task_trait::NoTools;

/// The status where the words of the command line can't be got.
const NO_WORDS: u8 = 11;

/// The status for want of memory.
const NO_MEMORY: u8 = 7;

/// The stack that the first thread takes before it begins: so many blocks of so many bytes, which
/// is more than any build needs.
const BLOCKS: usize = 32;

const BLOCK: usize = 16 * 1024;

fn main(rt: HostRuntime) -> ExitCode {
    let alloc = rt.alloc();
    let Ok(words) = words(&rt, alloc) else {
        return ExitCode::from(NO_WORDS);
    };
    if take_stack(BLOCKS, words.len()) > 1 {
        return ExitCode::from(NO_MEMORY);
    }
    let Ok(mut store) = DirStore::new(&rt, alloc, ".") else {
        return ExitCode::from(NO_MEMORY);
    };
    let threads = reading_threads(&rt, alloc, &words);
    if threads > 1 {
        store.read_ahead(alloc, threads);
    }
    let mut sink = OutSink::new(&rt);
    ExitCode::from(run(&rt, alloc, &words, &mut store, &mut sink, &NoTools))
}

// Takes so many blocks of the stack, and gives them back: the kernel ends a program whose stack
// can't grow since its address space is used up, where it refuses an allocation. The answer is 0 or
// 1. Each block is read where the ones below say, so that no compiler leaves it out.
#[inline(never)]
fn take_stack(blocks: usize, at: usize) -> usize {
    let mut block = [0u8; BLOCK];
    block[at % BLOCK] = 1;
    let below = if blocks == 0 {
        at / 2
    } else {
        take_stack(blocks - 1, at)
    };
    usize::from(block[below % BLOCK])
}

// How many threads read the folder: as many as the words ask for nodes, and no more than there are
// processors. A trial reads no file.
fn reading_threads(rt: &impl Threads, alloc: Global, words: &[String]) -> usize {
    let nodes = match read_words(alloc, words) {
        Ok(options) if !matches!(options.action, Action::Trial) => options.nodes as usize,
        _ => return 1,
    };
    match thread::available_parallelism(rt) {
        Ok(processors) => nodes.min(processors.get()),
        Err(_) => 1,
    }
}

// The words after the program's name.
fn words(rt: &(impl Env + AllocGlobal), alloc: Global) -> io::Result<Vec<String>> {
    let mut words = Vec::new(alloc);
    for word in env::args(rt)?.skip(1) {
        words.push(word)?;
    }
    Ok(words)
}
