//! A reader, and the maker that is told of what it reads.

ghost use Rattle.std.specs.Prelude.{◌≡◌, map, vec_items};
ghost use Rattle.fm_lex.specs.declared.spot.Spot.{Spot};
ghost use Rattle.fm_grammar.specs.Making.{AreForked, AreMade};
ghost use Rattle.fm_grammar.specs.Score.{Body, Branches, Postfix, choice, par};
ghost use Rattle.fm_grammar.specs.Opening.{Opening, filled};
ghost use Rattle.fm_grammar.specs.View.{placed};

use crate::opening::{Opened, read_opening};
use crate::reading::Reading;
use crate::simple::read_plain;
use fm_grammar::Maker;
use fm_lex::{Keyword, Kind, Spot};
use fm_terms::{ParseFault, Reader, check_limit, expect, read_expr};
use std::alloc::Global;

/// The tokens of a text that are left, and the maker.
#[derive(Drop)]
pub(crate) struct Relay<'s, M> {
    pub(crate) rest: Reader<'s>,
    pub(crate) maker: M,
}

impl<'s, M: Maker<'s>> Reading for Relay<'s, M> {
    type Made = M::Made;

    type Opened = M::Opened;

    type Tested = M::Tested;

    type Receiver = M;

    ghost left = { λ w. w.rest };

    ghost told = { λ w. w.maker };

    ghost is_made = { M.is_made };

    ghost is_opened = { M.is_opened };

    ghost is_tested = { M.is_tested };

    fn kind(&self) -> Kind {
        self.rest.kind()
    }

    fn next_is(&self, kind: Kind) -> bool {
        self.rest.next_is(kind)
    }

    fn check(&self, needed: u32, most: u32) -> Result<(), ParseFault> {
        check_limit(&self.rest, needed, most)
    }

    #[inline(always)]
    fn expect(&mut self, kind: Kind) -> Result<Spot, ParseFault> {
        expect(&mut self.rest, kind)
    }

    #[inline(never)]
    fn plain(&mut self, alloc: Global, word: Keyword) -> Result<M::Made, ParseFault> {
        read_plain(alloc, self, word)
    }

    fn opened(&mut self, alloc: Global, word: Keyword) -> Result<M::Opened, ParseFault> {
        let Opened { spot, opening } = read_opening(alloc, &mut self.rest, word)?;
        Ok(self.maker.open(alloc, spot, opening))
    }

    fn tested(&mut self, alloc: Global, spot: Spot) -> Result<M::Tested, ParseFault> {
        let test = read_expr(alloc, &mut self.rest)?;
        Ok(self.maker.test(alloc, spot, test))
    }

    fn enclose(&mut self, opened: M::Opened, body: Vec<M::Made>) -> M::Made
        ensures made { (before inside : M) (spot : Spot) (o : Opening) (b : Body) →
            M.is_opened before spot o opened inside →
            AreMade M.is_made inside b body.items self.old.maker →
            M.is_made before (placed spot (filled o b)) result self.new.maker }
        ensures left { self.new.rest ≡ self.old.rest }
    {
        self.maker.enclose(opened, body)
    }

    fn choose(&mut self, tested: M::Tested, yes: Vec<M::Made>, no: Vec<M::Made>) -> M::Made
        ensures made { (before inside between : M) (spot : Spot) (test : Postfix) (y n : Body) →
            M.is_tested before spot test tested inside →
            AreMade M.is_made inside y yes.items between →
            AreMade M.is_made between n no.items self.old.maker →
            M.is_made before (placed spot (choice test y n)) result self.new.maker }
        ensures left { self.new.rest ≡ self.old.rest }
    {
        self.maker.choose(tested, yes, no)
    }

    fn fork(&mut self, spot: Spot, branches: Vec<Vec<M::Made>>) -> M::Made
        ensures made { (before : M) (bs : Branches) →
            AreForked M.is_made before bs (map vec_items branches.items) self.old.maker →
            M.is_made before (placed spot (par bs)) result self.new.maker }
        ensures left { self.new.rest ≡ self.old.rest }
    {
        self.maker.fork(spot, branches)
    }
}
