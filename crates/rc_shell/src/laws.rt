//! Laws of a run, each the contract of a function that does nothing.

ghost use Rattle.std.specs.Prelude.{◌≡◌, ℕ, ◌+◌, List, Option, Some, All, false, IfSome, length};
ghost use Rattle.rc_outside.specs.Files.{Files};
ghost use Rattle.rc_shell.specs.Run.{Ran};
ghost use Rattle.rc_shell.specs.Step.{StoreView, LineStep, EndsRun, LeavesStore, MayHaveAsked, start_moment};
ghost use Rattle.rc_shell.specs.Words.{segments_of};
ghost use Rattle.rc_shell.specs.Lines.{IsLine, BeginsWithLines};
ghost use Rattle.rc_shell.specs.Holding.{OfLines, HoldsFlushed, IsWithinBounds, tells_damage};
ghost use Rattle.rc_shell.specs.declared.status.Status.{Status};
ghost use Rattle.rc_shell.specs.declared.words.Words.{Words};

/// The whole lines of the bytes that were taken, and the unfinished rest behind them, are determined by the bytes: so it does
/// not matter in which pieces they came.
pub fn lines_are_determined()
    ensures { (bytes : List ℕ) (lines others : List (List ℕ)) (rest more : List ℕ) → BeginsWithLines bytes lines rest → IsLine rest → BeginsWithLines bytes others more → IsLine more → (lines ≡ others) × (rest ≡ more) }
{}

/// A run answers some first lines of the bytes that it takes, and writes their texts and perhaps a last line, up to where the output fails. Each reply
/// that tells a fault of the store, and the status of a fault of the store, has a rise of its own in the store's count of faults, up to the
/// count's end: so there are at most as many as the count rose.
pub fn runs_answer_lines()
    ensures { (words : Words) (before after : StoreView) (limit : ℕ) (status : Status) (left left2 written written2 : Option (List ℕ)) (input input2 output output2 : ℕ)
        (r : Ran LineStep EndsRun LeavesStore words (start_moment words before) limit status left left2 written written2 after input input2 output output2) → OfLines words before after status r.taken r.text }
{}

/// What the files hold after a run: those that were there, and one for each flush; each file that was not there before is the text of a table of the
/// schema that says, at each place of each of its partitions, exactly what the writes say that were flushed to it. Where the store tells its files.
pub fn files_hold_what_was_flushed()
    ensures { (words : Words) (before after : StoreView) (status : Status) (taken written : List ℕ) (files files2 : Files) (l : OfLines words before after status taken written) →
        before.0 ≡ Some files → after.0 ≡ Some files2 → HoldsFlushed l.lines l.texts files files2 }
{}

/// Where the store tells its files no reply tells a damaged table.
pub fn told_files_are_never_damaged()
    ensures { (words : Words) (before after : StoreView) (status : Status) (taken written : List ℕ) (files : Files) (l : OfLines words before after status taken written) →
        before.0 ≡ Some files → All (λ text. tells_damage text ≡ false) l.texts }
{}

/// Over a run the store is asked for at most as many ranges as the lines that were answered may ask for (`asks`), and one more, which was not answered:
/// two for each table; before the schema line, where the store tells its files, as many as the check of each may ask for.
pub fn asks_are_bounded()
    ensures { (words : Words) (before after : StoreView) (status : Status) (taken written : List ℕ) (l : OfLines words before after status taken written) →
        MayHaveAsked l.end.stage (before.2 + l.end.bound) after.2 }
{}

/// The figures that the last `stats` line of a run told: segments that are free and that are not are the run's budget, no more `open` and `read` lines
/// were answered than there were lines, and no more ranges were asked for than these may ask for.
pub fn figures_are_within_bounds()
    ensures { (words : Words) (before after : StoreView) (status : Status) (taken written : List ℕ) (l : OfLines words before after status taken written) →
        IfSome l.end.told.last (IsWithinBounds (length l.lines) (segments_of words) l.end.bound) }
{}
