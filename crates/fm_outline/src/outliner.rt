//! The outline of a score, made while its text is read.

ghost use Rattle.std.specs.Prelude.{◌≡◌, [], IfOk, OnOk, Some, None, map, vec_items};
ghost use Rattle.fm_grammar.specs.Making.{AreForked, AreMade};
ghost use Rattle.fm_grammar.specs.Opening.{Opening as Before, filled};
ghost use Rattle.fm_grammar.specs.Score.{Body, Branches, Postfix, Score as Tree, Stmt};
ghost use Rattle.fm_grammar.specs.Score.{choice, par, phrase};
ghost use Rattle.fm_grammar.specs.View.{PlacedStmt, name_view, placed, score_of};
ghost use Rattle.fm_meaning.specs.Faults.{first_found};
ghost use Rattle.fm_meaning.specs.Ranges.{second_walk};
ghost use Rattle.fm_meaning.specs.Resolve.{resolved};
ghost use Rattle.fm_rules.specs.Why.{fault_at};
ghost use Rattle.fm_expansion.specs.Numbering.{Catalogue};
ghost use Rattle.fm_expansion.specs.Outline.{Tables as PlainTables};
ghost use Rattle.fm_outline.specs.declared.outliner.Outliner.{Outliner};
ghost use Rattle.fm_outline.specs.Answered.{Answers};
ghost use Rattle.fm_outline.specs.Forking.{CanMark, MarksStep};
ghost use Rattle.fm_outline.specs.Knows.{Knows, KnowsNeeds};
ghost use Rattle.fm_outline.specs.OfScore.{IsOutlineOf, passage_of_outline};
ghost use Rattle.fm_outline.specs.Outlining.{IsEntered, IsNamed, IsOpened, IsOutlined};
ghost use Rattle.fm_outline.specs.Outlining.{IsTested, SoFar, with_tables};
ghost use Rattle.fm_outline.specs.Phrases.{PhrasesStand};
ghost use Rattle.fm_outline.specs.Refusal.{Refuses};
ghost use Rattle.fm_outline.specs.View.{Look, tables_view};

use crate::asking::{beat_at, step_at};
use crate::leaf;
use crate::opened::{Opened, Tested};
use crate::opening::{outline_opening, outline_test};
use crate::outline::Outline;
use crate::refusal::{answered, lacking};
use crate::sketch::Sketch;
use crate::step::{Instruction, Step};
use fm_grammar::{Amount, Duration, Head, Maker, Name, Number, Opening, PartText, Pitch};
use fm_lex::Spot;
use fm_ranges::check_head;
use fm_rules::CheckFault;
use fm_value::Expr;
use std::alloc::Global;

/// The outline of a score as far as it was told. It remembers its first fault, and ignores what it
/// is told behind that.
#[derive(Drop)]
pub struct Outliner<'s> {
    sketch: Sketch<'s>,
    fault: Option<CheckFault>,
}

impl<'s> Outliner<'s> {
    /// Begins with the head of a score. No entry of the score is read.
    pub fn open(alloc: Global, head: Head) -> Outliner<'s>
        ensures { SoFar result (score_of head []) }
    {
        let fault = answered(check_head(head)).err();
        let sketch = Sketch::begin(alloc, head);
        Outliner { sketch, fault }
    }

    /// The outline of all that was told, or its first fault.
    pub fn close(self) -> Result<Outline, CheckFault>
        ensures outline { IfOk result (λ o. (s : Tree) → SoFar self.entry s → IsOutlineOf o s) }
        ensures passage { IfOk result (λ o. (s : Tree) → SoFar self.entry s →
            passage_of_outline o ≡ (resolved s).passage) }
        ensures phrases { IfOk result (λ o. (s : Tree) → SoFar self.entry s → PhrasesStand o) }
        ensures faultless { OnOk result ((s : Tree) → SoFar self.entry s → second_walk s ≡ []) }
        ensures refused { Refuses result (λ spot why. (s : Tree) → SoFar self.entry s →
            first_found (second_walk s) ≡ Some (fault_at spot why)) }
    {
        match self.fault {
            None => Ok(self.sketch.close()),
            Some(fault) => Err(fault),
        }
    }

    // A statement at its spot, from what is known so far.
    fn step(&self, spot: Spot, what: Instruction) -> Step
        ensures spot { result.spot ≡ spot }
        ensures what { result.what ≡ what }
        ensures asking { MarksStep (tables_view self.now.sketch.walk.tables)
            self.now.sketch.walk.known.needs.items what result }
    {
        let walk = &self.sketch.walk;
        step_at(spot, what, &walk.known.needs, &walk.tables)
    }

    // The step of a statement without a block, or its fault. A rest stands in the place of one that
    // is not outlined.
    fn finish(&mut self, spot: Spot, made: Result<Instruction, CheckFault>) -> Step
        ensures { (before : Outliner) (stmt : Stmt) →
            before.fault ≡ None → self.old.fault ≡ None →
            self.old.sketch ≡ with_tables before.sketch self.old.sketch.walk.tables →
            ((k : Catalogue) (look : Look) → Knows before.sketch.walk.known look k →
            Answers k look stmt (tables_view before.sketch.walk.tables)
            (tables_view self.old.sketch.walk.tables) made) →
            ((look : Look) (v : PlainTables) → KnowsNeeds before.sketch.walk.known v look →
            IfOk made (CanMark before.sketch.walk.known.needs.items v look)) →
            IsOutlined before (placed spot stmt) result self.new }
    {
        match made {
            Ok(what) => self.step(spot, what),
            Err(fault) => {
                self.fault = Some(fault);
                beat_at(spot)
            }
        }
    }
}

impl<'s> Maker<'s> for Outliner<'s> {
    type Made = Step;

    type Opened = Opened;

    type Tested = Tested;

    ghost is_made = { IsOutlined };

    ghost is_opened = { IsOpened };

    ghost is_tested = { IsTested };

    ghost is_named = { IsNamed };

    ghost is_entered = { IsEntered };

    fn note(&mut self, alloc: Global, spot: Spot, pitches: Vec<Pitch>, duration: Duration) -> Step {
        if self.fault.is_some() {
            return beat_at(spot);
        }
        let walk = &mut self.sketch.walk;
        let made = leaf::note(alloc, walk.known.whole, pitches, duration, &mut walk.tables);
        self.finish(spot, made)
    }

    fn play(&mut self, alloc: Global, spot: Spot, pitches: Vec<Pitch>) -> Step {
        if self.fault.is_some() {
            return beat_at(spot);
        }
        let walk = &mut self.sketch.walk;
        let made = leaf::play(alloc, pitches, &mut walk.tables);
        self.finish(spot, made)
    }

    fn rest(&mut self, alloc: Global, spot: Spot, duration: Duration) -> Step {
        if self.fault.is_some() {
            return beat_at(spot);
        }
        let walk = &mut self.sketch.walk;
        let made = leaf::rest(alloc, walk.known.whole, duration, &mut walk.tables);
        self.finish(spot, made)
    }

    fn skip(&mut self, spot: Spot) -> Step {
        beat_at(spot)
    }

    fn control(&mut self, alloc: Global, spot: Spot, controller: Number, amount: Amount) -> Step {
        if self.fault.is_some() {
            return beat_at(spot);
        }
        let walk = &mut self.sketch.walk;
        let made = leaf::control(alloc, controller, amount, &mut walk.tables);
        self.finish(spot, made)
    }

    fn program(&mut self, alloc: Global, spot: Spot, amount: Amount) -> Step {
        if self.fault.is_some() {
            return beat_at(spot);
        }
        let walk = &mut self.sketch.walk;
        let made = leaf::program(alloc, amount, &mut walk.tables);
        self.finish(spot, made)
    }

    fn bend(&mut self, alloc: Global, spot: Spot, amount: Amount) -> Step {
        if self.fault.is_some() {
            return beat_at(spot);
        }
        let walk = &mut self.sketch.walk;
        let made = leaf::bend(alloc, amount, &mut walk.tables);
        self.finish(spot, made)
    }

    fn set(&mut self, alloc: Global, spot: Spot, register: u8, value: Expr) -> Step {
        if self.fault.is_some() {
            return beat_at(spot);
        }
        let walk = &mut self.sketch.walk;
        let made = leaf::set(alloc, register, value, &mut walk.tables);
        self.finish(spot, made)
    }

    fn call(&mut self, spot: Spot, name: Name<'s>) -> Step {
        if self.fault.is_some() {
            return beat_at(spot);
        }
        let walk = &mut self.sketch.walk;
        let made = leaf::call(&name, &walk.known);
        self.finish(spot, made)
    }

    fn open(&mut self, alloc: Global, spot: Spot, opening: Opening<'s>) -> Opened {
        if self.fault.is_some() {
            return Opened { spot, shell: None };
        }
        let walk = &mut self.sketch.walk;
        match outline_opening(alloc, opening, &walk.known, &mut walk.tables) {
            Ok(shell) => Opened {
                spot,
                shell: Some(shell),
            },
            Err(fault) => {
                self.fault = Some(fault);
                Opened { spot, shell: None }
            }
        }
    }

    fn enclose(&mut self, opened: Opened, body: Vec<Step>) -> Step
        ensures { (before inside : Outliner) (spot : Spot) (o : Before) (b : Body) →
            IsOpened before spot o opened inside →
            AreMade IsOutlined inside b body.items self.old →
            IsOutlined before (placed spot (filled o b)) result self.new }
    {
        match opened.shell {
            Some(shell) => {
                let what = shell.round(body);
                let walk = &self.sketch.walk;
                step_at(opened.spot, what, &walk.known.needs, &walk.tables)
            }
            None => beat_at(opened.spot),
        }
    }

    fn test(&mut self, alloc: Global, spot: Spot, test: Expr) -> Tested {
        if self.fault.is_some() {
            return Tested { spot, expr: None };
        }
        match outline_test(alloc, test, &mut self.sketch.walk.tables) {
            Ok(expr) => Tested {
                spot,
                expr: Some(expr),
            },
            Err(fault) => {
                self.fault = Some(fault);
                Tested { spot, expr: None }
            }
        }
    }

    fn choose(&mut self, tested: Tested, yes: Vec<Step>, no: Vec<Step>) -> Step
        ensures { (before inside between : Outliner) (spot : Spot) (test : Postfix) (y n : Body) →
            IsTested before spot test tested inside →
            AreMade IsOutlined inside y yes.items between →
            AreMade IsOutlined between n no.items self.old →
            IsOutlined before (placed spot (choice test y n)) result self.new }
    {
        match tested.expr {
            Some(expr) => {
                let what = Instruction::Choice { expr, yes, no };
                let walk = &self.sketch.walk;
                step_at(tested.spot, what, &walk.known.needs, &walk.tables)
            }
            None => beat_at(tested.spot),
        }
    }

    fn fork(&mut self, spot: Spot, branches: Vec<Vec<Step>>) -> Step
        ensures { (before : Outliner) (bs : Branches) →
            AreForked IsOutlined before bs (map vec_items branches.items) self.old →
            IsOutlined before (placed spot (par bs)) result self.new }
    {
        let what = Instruction::Par { branches };
        self.step(spot, what)
    }

    fn shape(&mut self, alloc: Global, name: Name<'s>, parts: Vec<PartText>) {
        if self.fault.is_none() {
            self.fault = self.sketch.walk.add_shape(alloc, &name, &parts).err();
        }
    }

    fn name(&mut self, name: &Name<'s>) {
        if self.fault.is_none() {
            self.fault = self.sketch.walk.known.check_new(name).err();
        }
    }

    fn phrase(&mut self, name: Name<'s>, body: Vec<Step>)
        ensures { (before inside : Outliner) (b : Body) →
            IsNamed before (name_view name.entry) inside →
            AreMade IsOutlined inside b body.items self.old →
            IsEntered before (phrase (name_view name.entry) b) self.new }
    {
        if self.fault.is_none() {
            self.fault = lacking(self.sketch.walk.define(&name, body));
        }
    }

    fn enter(&mut self, made: Step) {
        if self.fault.is_none() {
            self.fault = lacking(self.sketch.walk.append_step(made));
        }
    }
}
