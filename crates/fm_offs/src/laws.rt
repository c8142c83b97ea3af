//! What holds of sounds while note-offs wait. The function does nothing: its contract is the law.
ghost use Rattle.std.specs.Prelude.{◌≡◌, ◌≤◌, ℕ, List, [], ◌∷◌, ◌++◌, length, true, false};
ghost use Rattle.fm_line.specs.Runs.{BeginsFrom};
ghost use Rattle.fm_line.specs.Sounds.{Sound, come_out_after, is_note_off, most_waiting, ons_ahead};
ghost use Rattle.fm_offs.specs.Stack.{HasRoom, LetsOut};

/// What comes out of the sounds of a process, one at a time: before a sound that begins at a tick,
/// one that waits, or where there is room the sound itself; one that is due, before anything is
/// known of what follows; at the end of the process, all that waits. A note-off joins those that
/// wait.
pub fn sounds_come_out_one_at_a_time()
    ensures before { (t e : ℕ) (s : Sound) (xs ws left : List Sound) (x : Sound)
        → is_note_off s.msg ≡ false → s.time ≡ t → LetsOut t (ons_ahead (s ∷ xs)) ws left x
        → come_out_after ws (s ∷ xs) e ≡ x ∷ come_out_after left (s ∷ xs) e }
    ensures sound { (t e : ℕ) (s : Sound) (xs ws : List Sound)
        → is_note_off s.msg ≡ false → s.time ≡ t → HasRoom t (ons_ahead (s ∷ xs)) ws
        → come_out_after ws (s ∷ xs) e ≡ s ∷ come_out_after ws xs e }
    ensures due { (t e : ℕ) (xs ws left : List Sound) (x : Sound)
        → length ws ≤ most_waiting → BeginsFrom t e xs → LetsOut t 0 ws left x
        → come_out_after ws xs e ≡ x ∷ come_out_after left xs e }
    ensures joins { (e : ℕ) (s : Sound) (xs ws : List Sound) → is_note_off s.msg ≡ true
        → come_out_after ws (s ∷ xs) e ≡ come_out_after (ws ++ s ∷ []) xs e }
    ensures end { (e : ℕ) (ws left : List Sound) (x : Sound) → LetsOut e most_waiting ws left x
        → come_out_after ws [] e ≡ x ∷ come_out_after left [] e }
    ensures ended { (e : ℕ) (ws : List Sound) → HasRoom e most_waiting ws
        → (ws ≡ []) × (come_out_after ws [] e ≡ []) }
{}
