//! Where a process is in time.
ghost use Rattle.std.specs.Prelude.{◌≡◌, ◌≤◌, ◌<◌, ◌+◌, ◌*◌, [], ◌∷◌, ◌++◌, List, length, All};
ghost use Rattle.fm_tick.specs.declared.tick.TheConstants.{MAX_TICK};
ghost use Rattle.fm_warp.specs.declared.side.Side.TheVariants.{Ending, Onset};
ghost use Rattle.fm_nest.specs.declared.frame.Frame.{Frame};
ghost use Rattle.fm_nest.specs.declared.nest.TheConstants.{MAX_LEVELS};
ghost use Rattle.fm_program.specs.declared.op.TheConstants.{MAX_LENGTH};
ghost use Rattle.fm_nest.specs.Nesting.{far_composed, framed, frames_of, lifted, most_behind, padded_origins};
ghost use Rattle.fm_nest.specs.Readiness.{ReadyFrom};

use fm_nest::{Nest, Place};
use fm_warp::Warp;

#[derive(Drop)]
pub(crate) struct Timeline {
    nest: Nest,
    /// The position in the innermost level.
    position: u64,
    /// The tick of the outermost level at which that position lies.
    tick: u64,
}

impl Timeline {
    ghost use Rattle.fm_player.specs.Timing.{IsInTime, IsTimed};

    /// At a place, in these levels.
    pub(crate) fn new(warps: &[Warp], levels: &[u32], place: &Place) -> Self
        requires depth { length levels.now ≡ place.now.depth }
        requires room { place.now.depth ≤ MAX_LEVELS }
        requires limited { All (λ origin. origin ≤ MAX_TICK) place.now.origins }
        requires fits { IsInTime warps.now (framed levels.now place.now.origins)
            place.now.position }
        ensures timed { IsTimed warps.now result }
        ensures frames { frames_of result.nest ≡ framed levels.now place.now.origins }
        ensures position { result.position ≡ place.now.position }
    {
        let mut nest = Nest::resume(levels, place);
        let tick = nest.onset(warps, place.position);
        Timeline {
            nest,
            position: place.position,
            tick,
        }
    }

    pub(crate) fn position(&self) -> u64
        ensures { result ≡ self.now.position }
    {
        self.position
    }

    /// The tick of the position.
    pub(crate) fn tick(&self) -> u64
        ensures { result ≡ self.now.tick }
    {
        self.tick
    }

    pub(crate) fn place(&self) -> Place
        ensures depth { result.depth ≡ length (frames_of self.now.nest) }
        ensures origins { result.origins ≡ padded_origins (frames_of self.now.nest) }
        ensures position { result.position ≡ self.now.position }
    {
        Place {
            depth: self.nest.depth(),
            origins: self.nest.origins(),
            position: self.position,
        }
    }

    /// Moves the position on over a note that ends at the position `end`, which may lie before or
    /// behind the new one, and gives the tick of that end.
    pub(crate) fn sound(&mut self, warps: &[Warp], end: u64, ticks: u32) -> u64
        requires timed { IsTimed warps.now self.old }
        requires from { self.old.position ≤ end }
        requires to { end ≤ self.old.position + 4 * ticks }
        requires short { ticks ≤ MAX_LENGTH }
        requires fits { IsInTime warps.now (frames_of self.old.nest) (self.old.position + ticks) }
        ensures ending { result ≡ far_composed warps.now (frames_of self.old.nest) end }
        ensures timed { IsTimed warps.now self.new }
        ensures frames { frames_of self.new.nest ≡ frames_of self.old.nest }
        ensures position { self.new.position ≡ self.old.position + ticks }
    {
        let next = self.position + u64::from(ticks);
        let ending = self.ending(warps, end, next);
        self.position = next;
        self.tick = self.nest.onset(warps, next);
        ending
    }

    // The tick of the end of a note before the position `next`. Ends up to there never fall, so
    // cursors go on with them; one behind it may be followed by earlier ones.
    fn ending(&mut self, warps: &[Warp], end: u64, next: u64) -> u64
        requires timed { IsTimed warps.now self.old }
        requires from { self.old.position ≤ end }
        requires later { self.old.position ≤ next }
        requires limited { end ≤ MAX_TICK + most_behind }
        requires fits { IsInTime warps.now (frames_of self.old.nest) next }
        ensures value { result ≡ far_composed warps.now (frames_of self.old.nest) end }
        ensures onsets { ReadyFrom Onset warps.now self.new.nest self.old.position }
        ensures endings { ReadyFrom Ending warps.now self.new.nest next }
        ensures frames { frames_of self.new.nest ≡ frames_of self.old.nest }
        ensures position { self.new.position ≡ self.old.position }
    {
        if end <= next {
            self.nest.ending(warps, end)
        } else {
            self.nest.far(warps, end)
        }
    }

    /// Moves the position on.
    pub(crate) fn advance(&mut self, warps: &[Warp], ticks: u32)
        requires timed { IsTimed warps.now self.old }
        requires fits { IsInTime warps.now (frames_of self.old.nest) (self.old.position + ticks) }
        ensures timed { IsTimed warps.now self.new }
        ensures frames { frames_of self.new.nest ≡ frames_of self.old.nest }
        ensures position { self.new.position ≡ self.old.position + ticks }
    {
        self.position += u64::from(ticks);
        self.tick = self.nest.onset(warps, self.position);
    }

    /// Opens a level.
    pub(crate) fn enter(&mut self, warps: &[Warp], warp: u32)
        requires timed { IsTimed warps.now self.old }
        requires room { length (frames_of self.old.nest) < MAX_LEVELS }
        requires fits { IsInTime warps.now
            (frames_of self.old.nest ++ record { warp = warp; origin = self.old.position } ∷ []) 0 }
        ensures timed { IsTimed warps.now self.new }
        ensures frames { frames_of self.new.nest
            ≡ frames_of self.old.nest ++ record { warp = warp; origin = self.old.position } ∷ [] }
        ensures position { self.new.position ≡ 0 }
    {
        self.nest.enter(warp, self.position);
        self.position = 0;
        self.tick = self.nest.onset(warps, 0);
    }

    /// Closes the innermost level.
    pub(crate) fn leave(&mut self, warps: &[Warp])
        requires timed { IsTimed warps.now self.old }
        requires open { 0 < length (frames_of self.old.nest) }
        ensures timed { IsTimed warps.now self.new }
        ensures frames { (outer : List Frame) (inner : Frame) →
            frames_of self.old.nest ≡ outer ++ inner ∷ [] → frames_of self.new.nest ≡ outer }
        ensures position { (outer : List Frame) (inner : Frame) →
            frames_of self.old.nest ≡ outer ++ inner ∷ [] →
            self.new.position ≡ lifted Onset warps.now inner self.old.position }
    {
        self.position = self.nest.leave(warps, self.position);
        self.tick = self.nest.onset(warps, self.position);
    }
}
