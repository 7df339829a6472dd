//! Laws of the definitions that the contracts of journals cite. They run no code: their contracts
//! are what is proved.

ghost use Rattle.std.specs.Prelude.{◌≡◌, ℕ, List, [], ◌++◌, Some, IsSome, is_some, true};
ghost use Rattle.std.specs.List.{list_any};
ghost use Rattle.std.specs.Option.{option_or};
ghost use Rattle.std.specs.Str.{bytes_eq};
ghost use Rattle.file_store.specs.Commits.{AreDone, HasContents};
ghost use Rattle.file_store.specs.Paths.{are_rising};
ghost use Rattle.file_store.specs.declared.tree.File.{File};
ghost use Rattle.result_cache.specs.declared.run.RunId.{RunId};
ghost use Rattle.result_cache.specs.Journal.{Journal, Entry, add, merge, content};
ghost use Rattle.result_cache.specs.Replay.{replay};
ghost use Rattle.result_cache.specs.Table.{Records, found};
ghost use Rattle.msb_files.specs.FinalTree.{commit_list, IsFinalTree};
ghost use Rattle.msb_files.specs.Growth.{AreOnce, news, Grows};
ghost use Rattle.msb_files.specs.Ordered.{IsOrdered};
ghost use Rattle.msb_files.specs.Views as views;
ghost use Rattle.msb_files.specs.Views.{View, paths};

/// A whole commit leaves the final tree: each path has what the journal has for it, and else what
/// it had before.
pub fn commits_leave_the_final_tree()
    ensures done { (journal : Journal) (before after : List File)
        → AreDone (commit_list journal) before after → IsFinalTree before journal after }
    ensures contents { (journal : Journal) (before after : List File)
        → HasContents (commit_list journal) before after → IsFinalTree before journal after }
{}

/// Each entry is in a journal once, by its run and place.
pub fn entries_stay_once()
    ensures empty { AreOnce [] }
    ensures added { (journal : Journal) (e : Entry) → AreOnce journal → AreOnce (add journal e) }
    ensures merged { (journal other : Journal) → AreOnce journal → AreOnce (merge journal other) }
    ensures replayed { (table : Records) (run : RunId) (journal after : Journal) → AreOnce journal
        → replay table run journal ≡ Some after → AreOnce after }
{}

/// What a path has after a merge: what the entries have for it that are new, and else what it had
/// before. The entries of the other journal that are there already change nothing, also where they
/// are the last there.
pub fn merges_put_news_in_front()
    ensures merged { (journal other : Journal) → AreOnce other
        → merge journal other ≡ news journal other ++ journal }
    ensures content { (journal other : Journal) (path : List ℕ) → AreOnce other
        → content (merge journal other) path ≡ option_or (content (news journal other) path)
        (content journal path) }
{}

/// What a path has after a run was replayed: what the entries have for it that the journal has
/// gained, and else what it had before.
pub fn replays_put_news_in_front()
    ensures replayed { (table : Records) (run : RunId) (journal after : Journal)
        → replay table run journal ≡ Some after → Grows journal after }
    ensures content { (gained journal : Journal) (path : List ℕ)
        → content (gained ++ journal) path ≡ option_or (content gained path)
        (content journal path) }
{}

/// A finished run can be replayed in every journal where each record of the table calls for runs
/// that were finished before it.
pub fn replays_are_defined()
    ensures { (table : Records) (run : RunId) (journal : Journal) → IsOrdered table
        → IsSome (found table run) → IsSome (replay table run journal) }
{}

/// The paths of a view stand in byte order, and are just those that have content.
pub fn paths_have_content()
    ensures in_order { (view : View) → are_rising (paths view) ≡ true }
    ensures there { (view : View) (path : List ℕ)
        → list_any (bytes_eq path) (paths view) ≡ is_some (views.content view path) }
{}
