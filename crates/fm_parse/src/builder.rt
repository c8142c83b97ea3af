//! The tree of a score, made while its text is read.

ghost use Rattle.std.specs.Prelude.{◌≡◌, [], false, IfOk, IfErr, map, vec_items};
ghost use Rattle.fm_grammar.specs.Making.{AreForked, AreMade};
ghost use Rattle.fm_grammar.specs.Score.{Body, Branches, Postfix, choice, par, phrase};
ghost use Rattle.fm_grammar.specs.Opening.{Opening as Before, filled};
ghost use Rattle.fm_grammar.specs.View.{entry_view, item_view, name_view, placed, score_of, score_view};
ghost use Rattle.fm_grammar.proofs.StatementViews.{seen};
ghost use Rattle.fm_lex.specs.declared.spot.Spot.{Spot};
ghost use Rattle.fm_parse.specs.Building.{IsGrown, IsSame, IsSameOpening, IsSameTest};
ghost use Rattle.fm_parse.specs.declared.builder.Builder.{Builder};
ghost use Rattle.fm_terms.specs.declared.fault.ParseFault.TheVariants.{Memory};

use crate::opening::Opened;
use fm_grammar::{
    Amount, Duration, Entry, Head, Item, Maker, Name, Number, Opening, PartText, Pitch, Score, What,
};
use fm_lex::Spot;
use fm_terms::{ParseFault, push};
use fm_value::Expr;
use std::alloc::Global;

/// The expression of a choice, with the spot of its word.
#[derive(Drop)]
pub(crate) struct Tested {
    spot: Spot,
    test: Expr,
}

/// The entries of a score so far.
#[derive(Drop)]
pub(crate) struct Builder<'s> {
    entries: Vec<Entry<'s>>,
    // Whether memory was wanting for an entry.
    is_short: bool,
}

impl<'s> Builder<'s> {
    /// No entries.
    pub(crate) fn new(alloc: Global) -> Builder<'s>
        ensures entries { result.entries.items ≡ [] }
        ensures short { result.is_short ≡ false }
    {
        Builder {
            entries: Vec::new(alloc),
            is_short: false,
        }
    }

    // Puts an entry behind the others.
    fn push(&mut self, entry: Entry<'s>)
        ensures { IsGrown self.old (entry_view entry.entry) self.new }
    {
        if push(&mut self.entries, entry).is_err() {
            self.is_short = true;
        }
    }

    /// The score with this head and these entries.
    pub(crate) fn score(self, head: Head) -> Result<Score<'s>, ParseFault>
        ensures score { IfOk result (λ s. score_view s
            ≡ score_of head (map entry_view self.entry.entries.items)) }
        ensures whole { IfOk result (λ _. self.entry.is_short ≡ false) }
        ensures memory { IfErr result (λ e. e ≡ Memory) }
    {
        if self.is_short {
            return Err(ParseFault::Memory);
        }
        Ok(Score {
            head,
            entries: self.entries,
        })
    }
}

impl<'s> Maker<'s> for Builder<'s> {
    type Made = Item<'s>;

    type Opened = Opened<'s>;

    type Tested = Tested;

    ghost is_made = { IsSame };

    ghost is_opened = { IsSameOpening };

    ghost is_tested = { IsSameTest };

    ghost is_named = { λ before name behind. before ≡ behind };

    ghost is_entered = { IsGrown };

    fn note(
        &mut self,
        _alloc: Global,
        spot: Spot,
        pitches: Vec<Pitch>,
        duration: Duration,
    ) -> Item<'s> {
        item(spot, What::Note { pitches, duration })
    }

    fn play(&mut self, _alloc: Global, spot: Spot, pitches: Vec<Pitch>) -> Item<'s> {
        item(spot, What::Play { pitches })
    }

    fn rest(&mut self, _alloc: Global, spot: Spot, duration: Duration) -> Item<'s> {
        item(spot, What::Rest { duration })
    }

    fn skip(&mut self, spot: Spot) -> Item<'s> {
        item(spot, What::Skip)
    }

    fn control(
        &mut self,
        _alloc: Global,
        spot: Spot,
        controller: Number,
        amount: Amount,
    ) -> Item<'s> {
        item(spot, What::Control { controller, amount })
    }

    fn program(&mut self, _alloc: Global, spot: Spot, amount: Amount) -> Item<'s> {
        item(spot, What::Program { amount })
    }

    fn bend(&mut self, _alloc: Global, spot: Spot, amount: Amount) -> Item<'s> {
        item(spot, What::Bend { amount })
    }

    fn set(&mut self, _alloc: Global, spot: Spot, register: u8, value: Expr) -> Item<'s> {
        item(spot, What::Set { register, value })
    }

    fn call(&mut self, spot: Spot, name: Name<'s>) -> Item<'s> {
        item(spot, What::Do { name })
    }

    fn open(&mut self, _alloc: Global, spot: Spot, opening: Opening<'s>) -> Opened<'s> {
        Opened { spot, opening }
    }

    fn enclose(&mut self, opened: Opened<'s>, body: Vec<Item<'s>>) -> Item<'s>
        ensures { (before inside : Builder) (spot : Spot) (o : Before) (b : Body) →
            IsSameOpening before spot o opened.entry inside →
            AreMade IsSame inside b body.entry.items self.old →
            IsSame before (placed spot (filled o b)) result self.new }
    {
        let Opened { spot, opening } = opened;
        item(spot, What::Block { opening, body })
    }

    fn test(&mut self, _alloc: Global, spot: Spot, test: Expr) -> Tested {
        Tested { spot, test }
    }

    fn choose(&mut self, tested: Tested, yes: Vec<Item<'s>>, no: Vec<Item<'s>>) -> Item<'s>
        ensures { (before inside between : Builder) (spot : Spot) (test : Postfix)
            (y n : Body) → IsSameTest before spot test tested inside →
            AreMade IsSame inside y yes.entry.items between →
            AreMade IsSame between n no.entry.items self.old →
            IsSame before (placed spot (choice test y n)) result self.new }
    {
        let Tested { spot, test } = tested;
        item(spot, What::If { test, yes, no })
    }

    fn fork(&mut self, spot: Spot, branches: Vec<Vec<Item<'s>>>) -> Item<'s>
        ensures { (before : Builder) (bs : Branches) →
            AreForked IsSame before bs (map vec_items branches.entry.items) self.old →
            IsSame before (placed spot (par bs)) result self.new }
    {
        item(spot, What::Par { branches })
    }

    fn shape(&mut self, _alloc: Global, name: Name<'s>, parts: Vec<PartText>) {
        self.push(Entry::Shape { name, parts });
    }

    fn name(&mut self, _name: &Name<'s>) {}

    fn phrase(&mut self, name: Name<'s>, body: Vec<Item<'s>>)
        ensures { (before inside : Builder) (b : Body) → before ≡ inside →
            AreMade IsSame inside b body.entry.items self.old →
            IsGrown before (phrase (name_view name.entry) b) self.new }
    {
        self.push(Entry::Phrase { name, body });
    }

    fn enter(&mut self, item: Item<'s>) {
        self.push(Entry::Play { item });
    }
}

// A statement at a spot.
fn item<'s>(spot: Spot, what: What<'s>) -> Item<'s>
    ensures { item_view result ≡ seen spot what.entry }
{
    Item { spot, what }
}
