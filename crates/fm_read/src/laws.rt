//! Laws of reading what is written, for whoever reads the definitions. Their bodies are empty.
ghost use Rattle.std.specs.Prelude.{◌≡◌, ◌≤◌, ◌<◌, ◌^◌, ℕ, List, [], ◌∷◌, Option, Ok, Err, Some};
ghost use Rattle.std.specs.Prelude.{true, length, map, drop};
ghost use Rattle.fm_msg.specs.declared.msg.Msg.{Msg as Message};
ghost use Rattle.fm_msg.specs.declared.profile.Profile.{Profile};
ghost use Rattle.fm_msg.specs.Event.{TimedMessage};
ghost use Rattle.fm_msg.specs.Message.{is_in_range, message_bytes};
ghost use Rattle.fm_smf.specs.Track.{track, status_of, last_time, NeverFalls};
ghost use Rattle.fm_smf.specs.File.{file};
ghost use Rattle.fm_smf.specs.declared.limits.TheConstants.{MAX_TRACK};
ghost use Rattle.fm_read.specs.declared.fault.Stop.{Stop as Halt};
ghost use Rattle.fm_read.specs.Reading.{Pair};
ghost use Rattle.fm_read.specs.Tracks.{entries, joined_entries};
ghost use Rattle.fm_read.specs.Form.{IsTrack};
ghost use Rattle.fm_read.specs.FaultForm.{NoBody};
ghost use Rattle.fm_read.specs.FileForm.{IsFile};
ghost use Rattle.fm_read.specs.FileFaultForm.{NoFile};
ghost use Rattle.fm_read.specs.Decoded.{message_from, decoded};
ghost use Rattle.fm_read.specs.Written.{AreInRange, track_entries};
ghost use Rattle.fm_read.specs.Written.{messages, time_after, as_bytes, as_message};
ghost use Rattle.fm_read.specs.WrittenFile.{written_contents};
ghost use Rattle.fm_read.specs.Files.{Contents, contents, tracks};
ghost use Rattle.fm_read.specs.Kept.{bytes_of};

/// A track has no more entries than its body has bytes.
pub fn entries_are_few()
    ensures { (running : Option ℕ) (body : List ℕ) (es : List Pair)
        → entries running body ≡ Ok es → length es ≤ length body }
{}

/// A body is no track exactly where one of its faults is there, in the words of the format: at
/// the position of the fault the bytes end too early, or stands a byte that can't stand there.
pub fn track_faults_have_their_form()
    ensures form { (running : Option ℕ) (body : List ℕ) (s : Halt)
        → entries running body ≡ Err s → NoBody running body s }
    ensures read { (running : Option ℕ) (body : List ℕ) (s : Halt)
        → NoBody running body s → entries running body ≡ Err s }
{}

/// Bytes are read as a file exactly where it has the form of a file and its header and chunks, one
/// after another, are the bytes.
pub fn files_have_their_form()
    ensures form { (bytes : List ℕ) (c : Contents) → contents bytes ≡ Ok c → IsFile c }
    ensures same { (bytes : List ℕ) (c : Contents) → contents bytes ≡ Ok c → bytes_of c ≡ bytes }
    ensures read { (c : Contents) → IsFile c → contents (bytes_of c) ≡ Ok c }
{}

/// A body is read as a track's entries exactly where they have the form of a track and their bytes,
/// one after another, are the body.
pub fn tracks_have_their_form()
    ensures form { (running : Option ℕ) (body : List ℕ) (es : List Pair)
        → entries running body ≡ Ok es → IsTrack running es }
    ensures same { (running : Option ℕ) (body : List ℕ) (es : List Pair)
        → entries running body ≡ Ok es → joined_entries es ≡ body }
    ensures read { (running : Option ℕ) (es : List Pair)
        → IsTrack running es → entries running (joined_entries es) ≡ Ok es }
{}

/// Bytes are no file exactly where one of the faults of a file is there, in the words of the
/// format.
pub fn file_faults_have_their_form()
    ensures form { (bytes : List ℕ) (s : Halt) → contents bytes ≡ Err s → NoFile bytes s }
    ensures read { (bytes : List ℕ) (s : Halt) → NoFile bytes s → contents bytes ≡ Err s }
{}

/// A message in range comes back from its bytes, with its status byte or without it.
pub fn messages_come_back()
    ensures whole { (m : Message) → is_in_range m ≡ true
        → message_from (status_of m) (message_bytes m) ≡ Some m }
    ensures data { (m : Message) → is_in_range m ≡ true
        → message_from (status_of m) (drop 1 (message_bytes m)) ≡ Some m }
{}

/// A written file is read, with running status and without it, whatever its division. Its one
/// track gives the tempo, the events, the fillers and the end, and so gives back the messages at
/// their times, and the end.
pub fn files_read_back()
    ensures read { (profile : Profile) (events : List TimedMessage) (end : ℕ)
        → AreInRange events → profile.division < 2 ^ 15
        → length (track profile events end) ≤ MAX_TRACK
        → contents (file profile events end) ≡ Ok (written_contents profile events end) }
    ensures track { (profile : Profile) (events : List TimedMessage) (end : ℕ) → AreInRange events
        → tracks (written_contents profile events end).parts
        ≡ track_entries profile events end ∷ [] }
    ensures bytes { (profile : Profile) (events : List TimedMessage) (end : ℕ)
        → AreInRange events → NeverFalls 0 events
        → messages 0 (track_entries profile events end) ≡ map as_bytes events }
    ensures messages { (profile : Profile) (events : List TimedMessage) (end : ℕ)
        → AreInRange events → NeverFalls 0 events
        → decoded 0 (track_entries profile events end) ≡ map as_message events }
    ensures end { (profile : Profile) (events : List TimedMessage) (end : ℕ)
        → NeverFalls 0 events → last_time 0 events ≤ end
        → time_after 0 (track_entries profile events end) ≡ end }
{}
