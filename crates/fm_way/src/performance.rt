//! A plan, and how it is played.
ghost use Rattle.std.specs.Prelude.{◌≡◌, ◌<◌, true, length};
ghost use Rattle.fm_words.specs.View.{HasRanges, options_view};
ghost use Rattle.fm_way.specs.Ways.{CanPlay, is_alone, way_of};
ghost use Rattle.fm_way.specs.declared.way.Way.TheVariants.{Alone};

use crate::way::{Way, way_of};
use fm_program::Plan;
use fm_words::Options;

/// A plan, and how it is played.
#[derive(Drop)]
pub struct Performance {
    pub plan: Plan,
    pub way: Way,
    /// How many events each process may be ahead.
    pub room: u32,
    /// How many ticks each process may be ahead of the slowest one.
    pub lead: u64,
}

impl Performance {
    /// A plan that is played in the way that the options ask for.
    pub fn asked(plan: Plan, options: &Options) -> Performance
        requires ranges { HasRanges (options_view options.now) }
        ensures value { result ≡ record {
          plan = plan;
          way = way_of (options_view options.now) plan;
          room = options.now.room;
          lead = options.now.lead;
        } }
        ensures can { CanPlay result.way result.room result.lead }
        ensures none { options.now.workers ≡ 0 → is_alone result.way ≡ true }
        ensures single { length plan.programs < 2 → is_alone result.way ≡ true }
    {
        let way = way_of(options, &plan);
        in_way(plan, way, options)
    }

    /// A plan that the calling thread plays, however many workers are asked for.
    pub fn alone(plan: Plan, options: &Options) -> Performance
        requires ranges { HasRanges (options_view options.now) }
        ensures value { result ≡ record {
          plan = plan;
          way = Alone;
          room = options.now.room;
          lead = options.now.lead;
        } }
        ensures can { CanPlay result.way result.room result.lead }
    {
        in_way(plan, Way::Alone, options)
    }

    /// Whether the calling thread plays it alone.
    pub fn is_alone(&self) -> bool
        ensures { result ≡ is_alone self.now.way }
    {
        match self.way {
            Way::Alone | Way::Conductor => true,
            Way::Rounds { .. } | Way::Crew { .. } => false,
        }
    }
}

// A plan that is played in this way, with the room and the lead that the options ask for.
fn in_way(plan: Plan, way: Way, options: &Options) -> Performance
    ensures { result ≡ record {
      plan = plan;
      way = way;
      room = options.now.room;
      lead = options.now.lead;
    } }
{
    Performance {
        plan,
        way,
        room: options.room,
        lead: options.lead,
    }
}
