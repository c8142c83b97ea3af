//! Laws of excerpts, for whoever reads the definitions. Their bodies are empty.
ghost use Rattle.std.specs.Prelude.{◌≡◌, ◌+◌, ◌-◌, ◌<◌, ◌≤◌, ◌++◌, ℕ, List, [], length, map};
ghost use Rattle.std.specs.Prelude.{Option, Some, None, IfSome, true};
ghost use Rattle.fm_msg.specs.Event.{TimedMessage};
ghost use Rattle.fm_msg.specs.declared.msg.Msg.{Msg};
ghost use Rattle.fm_msg.specs.declared.msg.TheConstants.{CHANNELS, DATA_VALUES};
ghost use Rattle.fm_msg.specs.declared.profile.Profile.{Profile};
ghost use Rattle.fm_read.specs.Files.{Contents};
ghost use Rattle.fm_read.specs.Written.{AreInRange, as_message};
ghost use Rattle.fm_read.specs.WrittenFile.{IsFileOf, written_contents};
ghost use Rattle.fm_read.specs.declared.limits.TheConstants.{MAX_FILE};
ghost use Rattle.fm_smf.specs.File.{file};
ghost use Rattle.fm_smf.specs.Track.{NeverFalls, last_time};
ghost use Rattle.fm_smf.specs.declared.limits.TheConstants.{MAX_TIME};
ghost use Rattle.fm_excerpt.specs.Excerpt.{excerpt, excerpt_end, excerpt_events};
ghost use Rattle.fm_excerpt.specs.Excerpt.{is_inside, message_at, sounding, start_of, window_of};
ghost use Rattle.fm_excerpt.specs.Notes.{AreBegun, AreEnded, note_ons, of_key, later_by};
ghost use Rattle.fm_excerpt.specs.Values.{program_at, control_at, bend_at};
ghost use Rattle.fm_excerpt.specs.Written.{HasExcerpts};

/// Where each note-off has a note that sounds and each note ends, the excerpt of the whole range
/// has the list's own messages and its end, and so it is the same file.
pub fn whole_range()
    ensures own { (list : List (ℕ × Msg)) (end : ℕ) → AreBegun [] list → AreEnded list
        → excerpt 0 None list end ≡ list }
    ensures end { (end : ℕ) → excerpt_end 0 None end ≡ end }
    ensures file { (profile : Profile) (events : List TimedMessage) (end : ℕ)
        → let list = map as_message events in AreBegun [] list → AreEnded list
        → file profile (excerpt_events 0 None events end) (excerpt_end 0 None end)
        ≡ file profile events end }
{}

/// Each note-on has its note-off, whatever an excerpt is made of: each channel and key has as many
/// note-offs as note-ons, and each note-off has a note that sounds. A pedal may hold it longer.
pub fn each_note_on_has_its_note_off()
    ensures begun { (begin : ℕ) (until : Option ℕ) (list : List (ℕ × Msg)) (end : ℕ)
        → AreBegun [] (excerpt begin until list end) }
    ensures ended { (begin : ℕ) (until : Option ℕ) (list : List (ℕ × Msg)) (end : ℕ)
        → AreEnded (excerpt begin until list end) }
{}

/// Two excerpts that meet, placed one behind the other, have together the notes of the whole: its
/// note-ons, each once; and of each key of which no note is cut where they meet, also its
/// note-offs. Where no note at all is cut there, their windows are the whole window.
pub fn excerpts_that_meet()
    ensures starts { (begin mid : ℕ) (until : Option ℕ) (events : List TimedMessage) (end : ℕ)
        → begin ≤ mid → IfSome until (λ u. mid ≤ u) → NeverFalls 0 events
        → let list = map as_message events in
        note_ons (excerpt begin until list end)
        ≡ note_ons (excerpt begin (Some mid) list end)
        ++ later_by (excerpt_end begin (Some mid) end) (note_ons (excerpt mid until list end)) }
    ensures keys { (c k begin mid : ℕ) (until : Option ℕ) (events : List TimedMessage) (end : ℕ)
        → begin ≤ mid → IfSome until (λ u. mid ≤ u) → NeverFalls 0 events
        → let list = map as_message events in
        sounding c k (map message_at (window_of begin (Some mid) list end)) ≡ 0
        → of_key c k (window_of begin until list end)
        ≡ of_key c k (window_of begin (Some mid) list end)
        ++ later_by (excerpt_end begin (Some mid) end)
        (of_key c k (window_of mid until list end)) }
    ensures joined { (begin mid : ℕ) (until : Option ℕ) (events : List TimedMessage) (end : ℕ)
        → begin ≤ mid → IfSome until (λ u. mid ≤ u) → NeverFalls 0 events → AreInRange events
        → let list = map as_message events in AreEnded (window_of begin (Some mid) list end)
        → window_of begin until list end ≡ window_of begin (Some mid) list end
        ++ later_by (excerpt_end begin (Some mid) end) (window_of mid until list end) }
    ensures ends { (begin mid : ℕ) (until : Option ℕ) (end : ℕ)
        → begin ≤ mid → IfSome until (λ u. mid ≤ u)
        → excerpt_end begin until end
        ≡ excerpt_end begin (Some mid) end + excerpt_end mid until end }
{}

/// At each tick of the window an excerpt has set what the whole has set there: of each channel the
/// last program, the last value of each controller and the last bend, and none that the whole has
/// not set. Nothing is said of the order in which they were set.
pub fn excerpts_set_what_was_set()
    ensures programs { (c begin t : ℕ) (until : Option ℕ) (events : List TimedMessage) (end : ℕ)
        → c < CHANNELS → is_inside begin until t ≡ true → NeverFalls 0 events
        → let list = map as_message events in
        program_at c (t - start_of begin end) (excerpt begin until list end)
        ≡ program_at c t list }
    ensures controls { (c k begin t : ℕ) (until : Option ℕ) (events : List TimedMessage) (end : ℕ)
        → c < CHANNELS → k < DATA_VALUES → is_inside begin until t ≡ true → NeverFalls 0 events
        → let list = map as_message events in
        control_at c k (t - start_of begin end) (excerpt begin until list end)
        ≡ control_at c k t list }
    ensures bends { (c begin t : ℕ) (until : Option ℕ) (events : List TimedMessage) (end : ℕ)
        → c < CHANNELS → is_inside begin until t ≡ true → NeverFalls 0 events
        → let list = map as_message events in
        bend_at c (t - start_of begin end) (excerpt begin until list end) ≡ bend_at c t list }
{}

/// An excerpt of a file is a file again: its messages are in range, its times never fall, and its
/// end is not before the last of them. Where it has at most `MAX_FILE` bytes it is read as what it
/// was made of, and so can be listed, split and cut again.
pub fn excerpts_are_files()
    ensures range { (begin : ℕ) (until : Option ℕ) (events : List TimedMessage) (end : ℕ)
        → AreInRange events → AreInRange (excerpt_events begin until events end) }
    ensures order { (begin : ℕ) (until : Option ℕ) (events : List TimedMessage) (end : ℕ)
        → NeverFalls 0 events → last_time 0 events ≤ end
        → NeverFalls 0 (excerpt_events begin until events end) }
    ensures last { (begin : ℕ) (until : Option ℕ) (events : List TimedMessage) (end : ℕ)
        → NeverFalls 0 events → last_time 0 events ≤ end
        → last_time 0 (excerpt_events begin until events end) ≤ excerpt_end begin until end }
    ensures read { (profile : Profile) (events : List TimedMessage) (end : ℕ) (c : Contents)
        (begin : ℕ) (until : Option ℕ) → IsFileOf profile events end c
        → let cut = excerpt_events begin until events end in
        length (file profile cut (excerpt_end begin until end)) ≤ MAX_FILE
        → IsFileOf profile cut (excerpt_end begin until end)
        (written_contents profile cut (excerpt_end begin until end)) }
    ensures again { (profile : Profile) (events : List TimedMessage) (end : ℕ) (c : Contents)
        (begin : ℕ) (until : Option ℕ) → IsFileOf profile events end c → end ≤ MAX_TIME
        → let cut = excerpt_events begin until events end in
        length (file profile cut (excerpt_end begin until end)) ≤ MAX_FILE
        → HasExcerpts profile (written_contents profile cut (excerpt_end begin until end)) }
{}
