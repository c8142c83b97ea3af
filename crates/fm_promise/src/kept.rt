//! What the checks promise of the statements of each text that they accept: each keeps the limits
//! of the language. These functions do nothing: the law of each is its contract.
ghost use Rattle.std.specs.Prelude.{◌≡◌, ℕ, List};
ghost use Rattle.fm_grammar.specs.Score.{Score as Tree};
ghost use Rattle.fm_meaning.specs.Resolve.{resolved};
ghost use Rattle.fm_meaning.specs.Places.{outermost};
ghost use Rattle.fm_meaning.specs.Verdict.{Means};
ghost use Rattle.std.specs.List.{AllByRecursion};
ghost use Rattle.fm_promise.specs.Kept.{KeptIn};
ghost use Rattle.fm_promise.specs.Lists.{EntryListsKept};

/// Each statement of an accepted text keeps the limits of the language: its numbers lie in their
/// ranges, its lists have entries and not too many, its expressions read registers and loops that
/// are there, and it stands not too deep.
pub fn accepted_statements_keep_limits()
    ensures { (text : List ℕ) (s : Tree) → Means text s → KeptIn outermost (resolved s).passage }
{}

/// Each list that an accepted text writes out, in a phrase that nothing brings in too, has entries
/// and not too many: 1 to 16 pitches of a note, 1 to 256 durations, percentages or velocities.
pub fn accepted_lists_have_entries()
    ensures { (text : List ℕ) (s : Tree) → Means text s → AllByRecursion EntryListsKept s.entries }
{}
