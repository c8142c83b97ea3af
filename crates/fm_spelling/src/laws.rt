//! What is true of each text and its file. These functions do nothing: the law of each is its
//! contract.
ghost use Rattle.std.specs.Prelude.{◌≡◌, ◌↔◌, ℕ, List};
ghost use Rattle.fm_grammar.specs.Score.{Score};
ghost use Rattle.fm_lex.specs.Tokens.{tokens};
ghost use Rattle.fm_meaning.specs.Lines.{played_end, played_piece};
ghost use Rattle.fm_meaning.specs.Resolve.{resolved};
ghost use Rattle.fm_meaning.specs.Rules.{profile_of};
ghost use Rattle.fm_meaning.specs.Verdict.{Means};
ghost use Rattle.fm_smf.specs.File.{file};
ghost use Rattle.fm_spelling.specs.FileOf.{IsFileOf};
ghost use Rattle.fm_spelling.specs.Says.{ScoreSays};

/// A text is at most one file.
pub fn each_text_is_one_file()
    ensures { (text a b : List ℕ) → IsFileOf text a → IsFileOf text b → a ≡ b }
{}

/// An accepted text says what the score plays that it means, and is exactly the file of that score.
pub fn accepted_texts_say_their_scores()
    ensures says { (text : List ℕ) (score : Score) → Means text score
        → ScoreSays (tokens text) (profile_of score) (resolved score) }
    ensures whole { (text bytes : List ℕ) (score : Score) → Means text score
        → (IsFileOf text bytes
        ↔ bytes ≡ file (profile_of score) (played_piece (resolved score)) (played_end (resolved score))) }
{}
