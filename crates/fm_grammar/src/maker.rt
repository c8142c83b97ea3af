//! What is made of a text while it is read.

ghost use Rattle.std.specs.Prelude.{map, vec_items};
ghost use Rattle.fm_lex.specs.declared.spot.Spot.{Spot};
ghost use Rattle.fm_grammar.specs.Making.{AreForked, AreMade};
ghost use Rattle.fm_grammar.specs.Score as tree;
ghost use Rattle.fm_grammar.specs.Score.{Body, Branches, Entry, Leaf, Postfix};
ghost use Rattle.fm_grammar.specs.Opening.{Opening as Before, filled};
ghost use Rattle.fm_grammar.specs.View.{PlacedStmt, amount_view, duration_view, expr_view};
ghost use Rattle.fm_grammar.specs.View.{name_view, opening_view, pitch_view, placed};

use crate::amount::Amount;
use crate::duration::Duration;
use crate::name::Name;
use crate::number::Number;
use crate::opening::Opening;
use crate::part_text::PartText;
use crate::pitch::Pitch;
use fm_lex::Spot;
use fm_value::Expr;
use std::alloc::Global;

/// What a reader of a text tells of each statement and of each entry. Where a call can't do its
/// work, the maker remembers why, and the reader goes on.
pub trait Maker<'s> {
    /// What is made of a statement.
    type Made: Drop;
    /// What is made of what a statement says before its one block.
    type Opened: Drop;
    /// What is made of the expression of a choice.
    type Tested: Drop;

    /// Of a statement this was made.
    ghost is_made: { Self → PlacedStmt → Self.Made → Self → Type 0 };

    /// Of what stands at a spot before a block this was made.
    ghost is_opened: { Self → Spot → Before → Self.Opened → Self → Type 0 };

    /// Of the expression of a choice at a spot this was made.
    ghost is_tested: { Self → Spot → Postfix → Self.Tested → Self → Type 0 };

    /// The name of a phrase was told.
    ghost is_named: { Self → Leaf → Self → Type 0 };

    /// An entry was told.
    ghost is_entered: { Self → Entry → Self → Type 0 };

    /// A note.
    fn note(
        &mut self,
        alloc: Global,
        spot: Spot,
        pitches: Vec<Pitch>,
        duration: Duration,
    ) -> Self::Made
        ensures { is_made self.old (placed spot
            (tree.note (map pitch_view pitches.items) (duration_view duration))) result self.new };

    /// A note of the rhythm's duration.
    fn play(&mut self, alloc: Global, spot: Spot, pitches: Vec<Pitch>) -> Self::Made
        ensures { is_made self.old (placed spot (tree.play (map pitch_view pitches.items)))
            result self.new };

    /// A rest.
    fn rest(&mut self, alloc: Global, spot: Spot, duration: Duration) -> Self::Made
        ensures { is_made self.old (placed spot (tree.rest (duration_view duration)))
            result self.new };

    /// A rest of the rhythm's duration.
    fn skip(&mut self, spot: Spot) -> Self::Made
        ensures { is_made self.old (placed spot tree.skip) result self.new };

    /// A control change.
    fn control(
        &mut self,
        alloc: Global,
        spot: Spot,
        controller: Number,
        amount: Amount,
    ) -> Self::Made
        ensures { is_made self.old (placed spot (tree.control controller (amount_view amount)))
            result self.new };

    /// A program change.
    fn program(&mut self, alloc: Global, spot: Spot, amount: Amount) -> Self::Made
        ensures { is_made self.old (placed spot (tree.program (amount_view amount)))
            result self.new };

    /// A pitch bend.
    fn bend(&mut self, alloc: Global, spot: Spot, amount: Amount) -> Self::Made
        ensures { is_made self.old (placed spot (tree.bend (amount_view amount)))
            result self.new };

    /// A register that takes a value.
    fn set(&mut self, alloc: Global, spot: Spot, register: u8, value: Expr) -> Self::Made
        ensures { is_made self.old (placed spot (tree.set register (expr_view value)))
            result self.new };

    /// The call of a phrase.
    fn call(&mut self, spot: Spot, name: Name<'s>) -> Self::Made
        ensures { is_made self.old (placed spot (tree.call (name_view name.entry)))
            result self.new };

    /// What a statement says before its one block, which is read next.
    fn open(&mut self, alloc: Global, spot: Spot, opening: Opening<'s>) -> Self::Opened
        ensures { is_opened self.old spot (opening_view opening.entry) result self.new };

    /// The statement with its block.
    fn enclose(&mut self, opened: Self::Opened, body: Vec<Self::Made>) -> Self::Made
        ensures { (before inside : Self) (spot : Spot) (o : Before) (b : Body) →
            is_opened before spot o opened inside →
            AreMade is_made inside b body.items self.old →
            is_made before (placed spot (filled o b)) result self.new };

    /// The expression of a choice, whose blocks are read next.
    fn test(&mut self, alloc: Global, spot: Spot, test: Expr) -> Self::Tested
        ensures { is_tested self.old spot (expr_view test) result self.new };

    /// A choice with its two blocks.
    fn choose(
        &mut self,
        tested: Self::Tested,
        yes: Vec<Self::Made>,
        no: Vec<Self::Made>,
    ) -> Self::Made
        ensures { (before inside between : Self) (spot : Spot) (test : Postfix) (y n : Body) →
            is_tested before spot test tested inside →
            AreMade is_made inside y yes.items between →
            AreMade is_made between n no.items self.old →
            is_made before (placed spot (tree.choice test y n)) result self.new };

    /// A fork with its branches.
    fn fork(&mut self, spot: Spot, branches: Vec<Vec<Self::Made>>) -> Self::Made
        ensures { (before : Self) (bs : Branches) →
            AreForked is_made before bs (map vec_items branches.items) self.old →
            is_made before (placed spot (tree.par bs)) result self.new };

    /// A definition of a shape.
    fn shape(&mut self, alloc: Global, name: Name<'s>, parts: Vec<PartText>)
        ensures { is_entered self.old (tree.shape (name_view name.entry) parts.items) self.new };

    /// The name of a phrase, whose block is read next.
    fn name(&mut self, name: &Name<'s>)
        ensures { is_named self.old (name_view name.now) self.new };

    /// A definition of a phrase.
    fn phrase(&mut self, name: Name<'s>, body: Vec<Self::Made>)
        ensures { (before inside : Self) (b : Body) →
            is_named before (name_view name.entry) inside →
            AreMade is_made inside b body.items self.old →
            is_entered before (tree.phrase (name_view name.entry) b) self.new };

    /// A statement that is played.
    fn enter(&mut self, made: Self::Made)
        ensures { (before : Self) (stmt : PlacedStmt) → is_made before stmt made self.old →
            is_entered before (tree.plays stmt.spot stmt.what) self.new };
}
