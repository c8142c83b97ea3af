//! What is true of the grammar and of every text.

ghost use Rattle.std.specs.Prelude.{◌≡◌, ◌↔◌, List, None, Some};
ghost use Rattle.fm_lex.specs.Tokens.{Lexed, tokens};
ghost use Rattle.fm_grammar.specs.Score.{Score as Tree};
ghost use Rattle.fm_grammar.specs.Within.{Limits, limits};
ghost use Rattle.fm_grammar.specs.Reads.{Reads, Begins, Trips, Fault, TripsWith, Verdict};
ghost use Rattle.fm_grammar.specs.Table.{first_fault};

/// Tokens read as at most one score, within any limits.
pub fn reads_once()
    ensures { (most : Limits) (ts : List Lexed) (a b : Tree)
        → Reads most ts a → Reads most ts b → a ≡ b }
{}

/// Tokens that read as a score trip nowhere.
pub fn reading_never_trips()
    ensures { (ts before : List Lexed) (at : Lexed) (score : Tree)
        → Reads limits ts score → Trips ts before at → ⊥ }
{}

/// Tokens trip at one token at most, and with one fault.
pub fn trips_once()
    ensures place { (ts b c : List Lexed) (x y : Lexed)
        → Trips ts b x → Trips ts c y → (b ≡ c) × (x ≡ y) }
    ensures fault { (ts : List Lexed) (f g : Fault) → TripsWith ts f → TripsWith ts g → f ≡ g }
{}

/// Each text reads as a score or trips with a fault.
pub fn text_reads_or_trips(text: &[u8])
    ensures { Verdict (tokens text.now) }
{
    let _ = text;
}

/// The table for one token of look-ahead goes on exactly where some text of the grammar within the
/// limits does, and refuses with the fault with which the tokens trip.
pub fn table_is_the_grammar()
    ensures goes { (ts : List Lexed) → (first_fault ts ≡ None) ↔ Begins limits ts }
    ensures trips { (ts : List Lexed) (f : Fault) → (first_fault ts ≡ Some f) ↔ TripsWith ts f }
{}
