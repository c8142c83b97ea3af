//! Laws of the definitions, for whoever reads them. Their bodies are empty.
ghost use Rattle.std.specs.Prelude.{◌≡◌, ◌++◌, ◌&&◌, ℕ, Bool, List, count_by, map, Ok};
ghost use Rattle.std.specs.List.{flat_map};
ghost use Rattle.fm_msg.specs.Event.{TimedMessage};
ghost use Rattle.fm_msg.specs.declared.msg.Msg.{Msg};
ghost use Rattle.fm_msg.specs.declared.msg.TheConstants.{CHANNELS};
ghost use Rattle.fm_msg.specs.declared.profile.Profile.{Profile};
ghost use Rattle.fm_read.specs.Files.{Contents, contents, tracks};
ghost use Rattle.fm_read.specs.Written.{AreInRange, as_message};
ghost use Rattle.fm_read.specs.WrittenFile.{IsFileOf};
ghost use Rattle.fm_parts.specs.Format1.{format1, is_on_channel, on_channel, numbers};
ghost use Rattle.fm_parts.specs.ReadBack.{parts_contents, heard, all_heard};

/// A channel's track has exactly the messages of that channel, each as often as the list has it,
/// in the order of the list. All tracks together have each message as often as the list.
pub fn each_event_has_its_track()
    ensures own { (c : ℕ) (test : ℕ × Msg → Bool) (list : List (ℕ × Msg))
        → count_by test (on_channel c list)
        ≡ count_by (λ x. is_on_channel c x && test x) list }
    ensures order { (c : ℕ) (xs ys : List (ℕ × Msg))
        → on_channel c (xs ++ ys) ≡ on_channel c xs ++ on_channel c ys }
    ensures once { (test : ℕ × Msg → Bool) (events : List TimedMessage) → AreInRange events
        → let list = map as_message events in
        count_by test (flat_map (λ c. on_channel c list) (numbers CHANNELS))
        ≡ count_by test list }
{}

/// The parts of a file are read back: a file of format 1 and the same division, with a track of the
/// tempo that has no message, and a track for each channel that has one. Each has the messages of
/// its channel, each at its tick, and ends at the end of the file that was split.
pub fn parts_are_read_back()
    ensures read { (profile : Profile) (events : List TimedMessage) (end : ℕ) (c : Contents)
        → IsFileOf profile events end c → let list = map as_message events in
        contents (format1 profile.division list end)
        ≡ Ok (parts_contents profile.division list end) }
    ensures tracks { (profile : Profile) (events : List TimedMessage) (end : ℕ) (c : Contents)
        → IsFileOf profile events end c → let list = map as_message events in
        map heard (tracks (parts_contents profile.division list end).parts)
        ≡ all_heard list end }
{}
