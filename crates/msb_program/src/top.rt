ghost use Rattle.std.specs.Prelude.{
  ◌≡◌,
  ◌++◌,
  ◌⊎◌,
  map,
  string_bytes,
  IfOk,
  codes,
};
ghost use Rattle.file_store.specs.declared.loading.LoadFault.TheVariants.{Memory};
ghost use Rattle.result_cache.specs.declared.request.RequestResult.{RequestResult};
ghost use Rattle.task_trait.specs.Tools.{BeginsWith};
ghost use Rattle.task_trait.specs.declared.tools.ToolInput.{ToolInput};
ghost use Rattle.build_meaning.specs.Meaning.{Given};
ghost use Rattle.msb_words.specs.Options.{options_in};
ghost use Rattle.build_report.specs.Line.{line};
ghost use Rattle.build_engine.specs.Statuses.{IsCompletion};
ghost use Rattle.build_outcome.specs.declared.outcome.Outcome.{Outcome as TheOutcome};
ghost use Rattle.request_machine.specs.Walk.{Site};
ghost use Rattle.msb_outcomes.specs.Outcomes.{
  HasProject,
  IsUnfinished,
  load_fault_text,
  fault_status,
};
ghost use Rattle.msb_program.specs.Answered.{IsAnswered};
ghost use Rattle.msb_program.specs.Answers.{AsksForRuns, AsksForTrial};
ghost use Rattle.msb_program.specs.Calls.{
  AreMeantCalls,
  ComesOfHistory,
  ComesOfNodes,
  IsUndone,
};
ghost use Rattle.msb_program.specs.Endings.{
  Ends,
  EndsMade,
  EndsTrial,
  Printed,
  PrintedAll,
  PrintedFront,
  Silent,
  SinkFailed,
  sink_change,
  store_change,
};
ghost use Rattle.msb_program.specs.Invocation.{invocation};
ghost use Rattle.msb_program.specs.Meanings.{Means};
ghost use Rattle.msb_program.specs.NextBuilds.{AreCallsOfOthers, MeansUpToDate};
ghost use Rattle.msb_program.specs.Prepared.{IsLeft, IsPrepared};

use build_outcome::Outcome;
use file_store::{CommitFault, LoadFault, Sink, SinkError, Store, Tree, commit, load};
use msb_outcomes::{Work, outcome_alone, outcome_on, trial_alone, trial_on, work_within};
use msb_values::{NoMemory, Text, Text8};
use msb_words::{Action, Options, WordFault, read_words};
use std::alloc::Global;
use std::sync::Wait;
use std::thread::Threads;
use task_trait::{CountedTools, Tools};

const USAGE: &str = concat!(
    "usage: msb ACTION PROJECT [--target LIST] [--property LIST] [--nodes N] [--clean]",
    " [--show low] [--size N]\n"
);

/// Does what the words ask for: reads them, loads the store's files, evaluates the project, builds,
/// checks or shows it, writes files to the store, and prints to the sink.
///
/// `words` are those after the program's name. The answer is the program's status: 0 where it was
/// done, 1 where the build failed or a check does not find the set steady, 2 where the words are
/// outside the grammar, 3 where the project is refused, 4 where its build is, 5 where the store
/// failed, 6 where the sink failed and nothing else did, 7 for want of memory, 8 where the files
/// pass a limit, and 9 where a check has made as many bodies as it makes. Files are written and
/// removed with status 0, 1 and 6, and up to some place of the list with 5 and 7.
///
/// A build takes as many nodes as the words tell, each in a thread of its own, and waits for them;
/// over one node it starts no thread. A trial builds its set so too, and on one node first, whose
/// numbers it prints; it touches neither the store nor the tools. (MSBuild command-line reference,
/// -maxCpuCount.)
///
/// A build that may be trusted to skip what is up to date ends as a build with `--clean` would:
/// with its status, the items that it returns, and the bytes that it leaves at each path. If it is
/// settled, and the clean build is repeated over the tree that it leaves, the next build may be
/// trusted as well. A build that finds no output older than its inputs skips each piece, and prints
/// so, and no history that leads to its outcome uses a tool for one. (Incremental builds.)
///
/// Whatever the world, a build comes of a legal history of as many nodes as the words tell, one of
/// which does not retire, also where its files are not all written or its text is not printed;
/// unless its files are not loaded, or memory is wanted before.
pub fn run<R: Threads + Wait + Sync, S: Store, K: Sink, T: Tools + Sync>(
    rt: &R,
    alloc: Global,
    words: &[String],
    store: &mut S,
    sink: &mut K,
    tools: &T,
) -> u8
    ensures answer { IsAnswered T.answer (invocation S.seen K.seen words.now
        store.old store.new sink.old sink.new) result }
    ensures nodes { ComesOfNodes T.answer (invocation S.seen K.seen words.now
        store.old store.new sink.old sink.new) result }
    ensures untouched { AsksForTrial (options_in (map string_bytes words.now)) →
        store.new ≡ store.old }
{
    match prepare(alloc, words, store, sink) {
        Prepared::Ended(status) => status,
        Prepared::Trial(options) => end_trial(trial_on(rt, alloc, &options), sink),
        Prepared::Ready(options, work) => {
            let outcome = outcome_on(rt, alloc, &options, work, tools);
            end(alloc, outcome, store, sink)
        }
    }
}

/// The same on one node, whatever the number of nodes that the words tell. It starts no thread and
/// always returns. A build that is done, of a whole and steady world, has called the tools for each
/// run of its meaning as one body of that run does, in order; where no calls are made at once, a
/// run has one body alone, so they were called as often as in the meaning. Where each piece is
/// skipped, no tool is called for it. Whatever the world, a build comes of the history in which the
/// node takes the least ready request each time, and the calls are that history's, also where its
/// files are not all written or its text is not printed; unless its files are not loaded, or memory
/// is wanted before. For want of memory, too, the calls begin with those of before.
pub fn run_alone<S: Store, K: Sink, T: CountedTools>(
    alloc: Global,
    words: &[String],
    store: &mut S,
    sink: &mut K,
    tools: &mut T,
) -> u8
    ensures answer { IsAnswered T.answer (invocation S.seen K.seen words.now
        store.old store.new sink.old sink.new) result }
    ensures history { ComesOfHistory T.answer (invocation S.seen K.seen words.now
        store.old store.new sink.old sink.new) (T.calls tools.old) (T.calls tools.new) result }
    ensures calls { (meant : TheOutcome)
        (m : Means T.answer (map string_bytes words.now) (S.seen store.old).tree meant) →
        IsCompletion result → ∥ AreMeantCalls m.out (T.calls tools.old) (T.calls tools.new) ∥₁ }
    ensures idle { (clean : Given Site ToolInput RequestResult)
        (m : MeansUpToDate T.answer (map string_bytes words.now) (S.seen store.old).tree clean) →
        IsCompletion result →
        ∥ AreCallsOfOthers T.answer m.means.given (T.calls tools.old) (T.calls tools.new) ∥₁ }
    ensures uncalled { (AsksForRuns (options_in (map string_bytes words.now)) → ⊥) →
        T.calls tools.new ≡ T.calls tools.old }
    ensures begun { BeginsWith (T.calls tools.old) (T.calls tools.new) }
    ensures untouched { AsksForTrial (options_in (map string_bytes words.now)) →
        store.new ≡ store.old }
{
    match prepare(alloc, words, store, sink) {
        Prepared::Ended(status) => status,
        Prepared::Trial(options) => end_trial(trial_alone(alloc, &options), sink),
        Prepared::Ready(options, work) => {
            let outcome = outcome_alone(alloc, &options, work, tools);
            end(alloc, outcome, store, sink)
        }
    }
}

/// What is left to do once the words are read, and where they ask for a project the files loaded
/// and it evaluated.
#[derive(Drop)]
enum Prepared {
    /// Nothing: this is the status.
    Ended(u8),
    /// This trial, which has no project.
    Trial(Options),
    /// This work.
    Ready(Options, Work),
}

// Reads the words, loads the files and evaluates the project. What fails is printed.
fn prepare<S: Store, K: Sink>(
    alloc: Global,
    words: &[String],
    store: &mut S,
    sink: &mut K,
) -> Prepared
    ensures prepared { IsPrepared (invocation S.seen K.seen words.now
        store.old store.new sink.old sink.new) result }
    ensures undone { IsUndone (invocation S.seen K.seen words.now
        store.old store.new sink.old sink.new) result }
    ensures untouched { AsksForTrial (options_in (map string_bytes words.now)) →
        store.new ≡ store.old }
{
    let options = match read_words(alloc, words) {
        Ok(options) => options,
        Err(WordFault::Usage) => {
            print(sink, USAGE.as_bytes());
            return Prepared::Ended(2);
        }
        Err(WordFault::Memory) => return Prepared::Ended(7),
    };
    if let Action::Trial = options.action {
        return Prepared::Trial(options);
    }
    match load(alloc, store) {
        Ok(tree) => work_left(alloc, options, tree),
        Err(fault) => Prepared::Ended(print_load_fault(alloc, &fault, sink)),
    }
}

// What is left to do for a project over the files of a tree.
fn work_left(alloc: Global, options: Options, tree: Tree) -> Prepared
    requires { HasProject options }
    ensures { IsLeft options tree.files result }
{
    match work_within(alloc, &options, tree) {
        Ok(work) => Prepared::Ready(options, work),
        Err(NoMemory) => Prepared::Ended(7),
    }
}

// Ends what comes of the work: its acts are done, and then its text is printed.
fn end<S: Store, K: Sink>(
    alloc: Global,
    outcome: Result<Outcome, NoMemory>,
    store: &mut S,
    sink: &mut K,
) -> u8
    requires { IfOk outcome (λ o. IsCompletion o.status ⊎ IsUnfinished o.status) }
    ensures { EndsMade outcome (store_change S.seen store.old store.new)
        (sink_change K.seen sink.old sink.new) result }
{
    match outcome {
        Ok(outcome) => commit_and_print(alloc, &outcome, store, sink),
        Err(NoMemory) => 7,
    }
}

// Ends a trial: its text is printed.
fn end_trial<K: Sink>(text: Result<Text8, NoMemory>, sink: &mut K) -> u8
    ensures { EndsTrial text (sink_change K.seen sink.old sink.new) result }
{
    match text {
        Ok(text) => tell(sink, 0, text.as_bytes()),
        Err(NoMemory) => 7,
    }
}

// Does the acts of an outcome, and then prints its text; a refusal is printed alone.
fn commit_and_print<S: Store, K: Sink>(
    alloc: Global,
    outcome: &Outcome,
    store: &mut S,
    sink: &mut K,
) -> u8
    requires { IsCompletion outcome.now.status ⊎ IsUnfinished outcome.now.status }
    ensures { Ends outcome.now (store_change S.seen store.old store.new)
        (sink_change K.seen sink.old sink.new) result }
{
    if outcome.status > 1 {
        print(sink, outcome.text.as_bytes());
        return outcome.status;
    }
    match commit(alloc, store, &outcome.commit) {
        Ok(()) => tell(sink, outcome.status, outcome.text.as_bytes()),
        Err(CommitFault::Writing(place)) => {
            print_write_fault(
                alloc,
                outcome.commit.as_slice()[place as usize].path(),
                sink,
            )
        }
        Err(CommitFault::Memory(_)) => 7,
    }
}

// Prints the text of an outcome whose acts are done.
fn tell<K: Sink>(sink: &mut K, status: u8, text: &[u8]) -> u8
    ensures { ((result ≡ status) × PrintedAll (sink_change K.seen sink.old sink.new) text.now)
        ⊎ ((result ≡ 6) × SinkFailed (sink_change K.seen sink.old sink.new)
        × PrintedFront (sink_change K.seen sink.old sink.new) text.now) }
{
    match sink.write(text) {
        Ok(()) => status,
        Err(SinkError::Failed) => 6,
    }
}

// Prints a text whose status stands, whatever the sink does.
fn print<K: Sink>(sink: &mut K, text: &[u8])
    ensures { Printed (sink_change K.seen sink.old sink.new) text.now }
{
    let _ = sink.write(text);
}

// Prints which file the store failed to write or to remove.
fn print_write_fault<K: Sink>(alloc: Global, path: &str, sink: &mut K) -> u8
    ensures { ((result ≡ 5) × Printed (sink_change K.seen sink.old sink.new)
        (line (codes "store fault " ++ path.now)))
        ⊎ ((result ≡ 7) × Silent (sink_change K.seen sink.old sink.new)) }
{
    match path_line(alloc, "store fault ", path) {
        Ok(text) => {
            print(sink, text.as_bytes());
            5
        }
        Err(NoMemory) => 7,
    }
}

// Prints why the store's files are not loaded.
fn print_load_fault<K: Sink>(alloc: Global, fault: &LoadFault, sink: &mut K) -> u8
    ensures { ((result ≡ fault_status fault.now) × (fault.now ≡ Memory → ⊥)
        × Printed (sink_change K.seen sink.old sink.new) (line (load_fault_text fault.now)))
        ⊎ ((result ≡ 7) × Silent (sink_change K.seen sink.old sink.new)) }
{
    match fault_text(alloc, fault) {
        Ok(text) => {
            print(sink, text.as_bytes());
            fault_status(fault)
        }
        Err(NoMemory) => 7,
    }
}

// How a load failed, or which limit the listing passes.
fn fault_text(alloc: Global, fault: &LoadFault) -> Result<String, NoMemory>
    ensures text { IfOk result (λ text. string_bytes text ≡ line (load_fault_text fault.now)) }
    ensures cause { IfOk result (λ _. fault.now ≡ Memory → ⊥) }
{
    match fault {
        LoadFault::Listing => Ok(String::from_str(alloc, "store fault\n")?),
        LoadFault::Reading(path) => path_line(alloc, "store fault ", path.as_str()),
        LoadFault::Files(number) => Ok(format!(in alloc; "too large: {number} files\n")?),
        LoadFault::Bytes(total) => Ok(format!(in alloc; "too large: {total} bytes\n")?),
        LoadFault::Large(path) => path_line(alloc, "too large: ", path.as_str()),
        LoadFault::BadPath(path) => path_line(alloc, "bad path: ", path.as_str()),
        LoadFault::Memory => Err(NoMemory),
    }
}

fn path_line(alloc: Global, words: &str, path: &str) -> Result<String, NoMemory>
    ensures { IfOk result (λ text. string_bytes text ≡ line (words.now ++ path.now)) }
{
    Ok(format!(in alloc; "{words}{path}\n")?)
}

fn fault_status(fault: &LoadFault) -> u8
    ensures { result ≡ fault_status fault.now }
{
    match fault {
        LoadFault::Listing | LoadFault::Reading(_) => 5,
        LoadFault::Files(_) | LoadFault::Bytes(_) | LoadFault::Large(_) | LoadFault::BadPath(_) =>
            8,
        LoadFault::Memory => 7,
    }
}
