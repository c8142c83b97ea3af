//! A law of the listing, for whoever reads the definitions. Its body is empty.
ghost use Rattle.std.specs.Prelude.{◌≡◌, ◌≤◌, ◌<◌, ◌^◌, ℕ, List, Ok, length};
ghost use Rattle.fm_msg.specs.declared.profile.Profile.{Profile};
ghost use Rattle.fm_msg.specs.Event.{TimedMessage};
ghost use Rattle.fm_smf.specs.Track.{track, last_time, NeverFalls};
ghost use Rattle.fm_smf.specs.File.{file};
ghost use Rattle.fm_smf.specs.declared.limits.TheConstants.{MAX_TRACK};
ghost use Rattle.fm_read.specs.Files.{Contents, contents};
ghost use Rattle.fm_read.specs.Written.{AreInRange};
ghost use Rattle.fm_listing.specs.Listing.{listing};
ghost use Rattle.fm_listing.specs.WrittenListing.{written_listing};

/// The listing of a file that is written, of whatever profile, has the header, the tempo at tick
/// 0, each event of the list once, in its order, at its time and with its status byte, the
/// fillers, and End of Track at its end, and nothing else.
pub fn written_files_are_listed()
    ensures { (profile : Profile) (events : List TimedMessage) (end : ℕ) (c : Contents)
        → AreInRange events → NeverFalls 0 events → last_time 0 events ≤ end
        → profile.division < 2 ^ 15 → length (track profile events end) ≤ MAX_TRACK
        → contents (file profile events end) ≡ Ok c
        → listing c ≡ written_listing profile.division events end }
{}
