//! The rules of the command line, for whoever reads them. These functions do nothing: the law of
//! each is its contract.
ghost use Rattle.std.specs.Prelude.{◌≡◌, List, None, true, false, map, string_bytes};
ghost use Rattle.fm_words.specs.Asked.{options, settings_by_rules};
ghost use Rattle.fm_words.specs.Follows.{FollowsRules};
ghost use Rattle.fm_words.specs.Rules.{Choice, is_table, keeps_rules, parts_of};
ghost use Rattle.fm_words.specs.Settings.{settings_of};

/// What words ask for is what they ask for by the rules, and they are refused exactly where they
/// break one.
pub fn words_obey_rules(words: &[String])
    ensures settings { settings_of (map string_bytes words.now)
        ≡ settings_by_rules (map string_bytes words.now) }
    ensures refused { settings_of (map string_bytes words.now) ≡ None
        → keeps_rules options (parts_of options (map string_bytes words.now)) ≡ false }
    ensures taken { keeps_rules options (parts_of options (map string_bytes words.now)) ≡ false
        → settings_of (map string_bytes words.now) ≡ None }
{}

/// The command of any table of options finds a fault exactly in words that break a rule other than
/// that of the ranges, and finds in all others the names, the texts of the numbers and the flags.
pub fn tables_obey_rules(words: &[String])
    ensures { (table : List Choice) → is_table table ≡ true →
        FollowsRules table (map string_bytes words.now) }
{}
