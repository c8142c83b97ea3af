//! What the operations of a process draw from: registers, the generator, and open lists and loops.
ghost use Rattle.std.specs.Prelude.{◌≡◌, ◌≤◌, ◌<◌, ◌-◌, ◌+◌, ℕ, ℤ, pos, ◌≤ℤ◌, neg_ℤ, ◌^◌, List, [], ◌∷◌, length, map, All, true, replicate, slice_set, if◌then◌else◌};
ghost use Rattle.std.specs.List.{list_all};
ghost use Rattle.fm_value.specs.declared.registers.TheConstants.{REGISTERS};
ghost use Rattle.fm_value.specs.Operation.{IsWithin};
ghost use Rattle.fm_msg.specs.declared.msg.TheConstants.{DATA_VALUES};
ghost use Rattle.fm_program.specs.declared.op.TheConstants.{MAX_FRAMES, MAX_INDEX, MAX_LENGTH, MAX_PITCHES};
ghost use Rattle.fm_program.specs.Parts.{stock_parts};
ghost use Rattle.fm_program.specs.Action.{amount_of, chord_at, duration_of, expr_at, list_at, repeats_of, scope_at};
ghost use Rattle.fm_program.specs.Needs.{loops_back};
ghost use Rattle.fm_program.specs.State.{OpenFrame, Standing, counting, cycle_entry, cycle_moved, cycling, duration_drawn, entry_drawn, expr_drawn, index_at, nearest_to as nearest, number_drawn, pitches_drawn, repeats_drawn, slot_index, turn_drawn};
ghost use Rattle.fm_program.specs.Process.{cycles_opened};
ghost use Rattle.fm_program.specs.Run.{round_over};
ghost use Rattle.fm_program.specs.Fit.{count_fits, draw_fits, expr_fits, loops_of, slot_fits, span_fits, stock_fits};
ghost use Rattle.fm_player.specs.Drawing.{FramesStand, IsFrame};

use crate::frame::Frame;
use arrayvec::ArrayVec;
use fm_pattern::Cursor;
use fm_program::{Count, Draw, MAX_FRAMES, MAX_LOOPS, MAX_PITCHES, Slot, Span, Stock, Turn};
use fm_value::{Dice, Registers, value};

#[derive(Drop)]
pub(crate) struct Draws {
    registers: Registers,
    dice: Dice,
    /// What is open, the outermost first.
    frames: ArrayVec<Frame, MAX_FRAMES>,
}

/// What a note draws.
#[derive(Drop)]
pub(crate) struct Note {
    pub(crate) keys: ArrayVec<u8, MAX_PITCHES>,
    /// Its duration in ticks.
    pub(crate) ticks: u32,
    /// Its articulation in percent of the duration.
    pub(crate) percent: u32,
    pub(crate) velocity: u32,
}

impl Draws {
    ghost use Rattle.fm_player.specs.Drawing.{DrawsStand, DrawsTo, IsNumber, NoteDrawn};

    /// Registers of 0, a generator in this state, and these lists open at their first entries.
    pub(crate) fn new(stock: &Stock, state: u64, lists: &[u32]) -> Self
        requires stock { stock_fits (stock_parts stock.now) ≡ true }
        requires few { length lists.now ≤ MAX_FRAMES }
        requires named { All (λ l. l < length (stock_parts stock.now).lists) lists.now }
        ensures frames { All (IsFrame (stock_parts stock.now)) result.frames.items }
        ensures stands { (s : Standing) → s.registers ≡ replicate REGISTERS (pos 0) → s.dice ≡ state
            → s.frames ≡ cycles_opened (stock_parts stock.now) lists.now []
            → DrawsStand (stock_parts stock.now) result s }
    {
        let mut frames = ArrayVec::new();
        for list in lists {
            frames.push(Frame::Cycling {
                list: *list,
                cursor: Cursor::new(),
            });
        }
        Draws {
            registers: Registers::new(),
            dice: Dice::new(state),
            frames,
        }
    }

    /// The value of an expression.
    pub(crate) fn value(&mut self, stock: &Stock, expr: u32, scope: u32) -> i64
        requires stock { stock_fits (stock_parts stock.now) ≡ true }
        requires frames { All (IsFrame (stock_parts stock.now)) self.old.frames.items }
        requires scope { scope < length (stock_parts stock.now).scopes }
        requires expr { expr_fits (stock_parts stock.now)
            (loops_of (stock_parts stock.now) scope) expr ≡ true }
        ensures draws { let t = stock_parts stock.now in
            DrawsTo t self.old self.new result (expr_drawn (expr_at t expr) (scope_at t scope)) }
        ensures frames { self.new.frames ≡ self.old.frames }
        ensures within { IsWithin result }
    {
        let mut indices = ArrayVec::new();
        self.put_indices(stock, scope, &mut indices);
        value(
            &stock.exprs[expr as usize],
            &self.registers,
            &mut self.dice,
            indices.as_slice(),
        )
    }

    // Puts the indices of the slots of a scope into an empty list, in turn.
    #[inline(always)]
    fn put_indices(&self, stock: &Stock, scope: u32, indices: &mut ArrayVec<u32, MAX_LOOPS>)
        requires stock { stock_fits (stock_parts stock.now) ≡ true }
        requires frames { All (IsFrame (stock_parts stock.now)) self.now.frames.items }
        requires scope { scope < length (stock_parts stock.now).scopes }
        requires empty { indices.old.items ≡ [] }
        ensures count { length indices.new.items ≡ loops_of (stock_parts stock.now) scope }
        ensures within { All (λ i. i < MAX_INDEX) indices.new.items }
        ensures indices { (s : Standing) → DrawsStand (stock_parts stock.now) self.now s
            → indices.new.items ≡ map (slot_index s.frames)
            (scope_at (stock_parts stock.now) scope) }
    {
        let mut rest = scope;
        while let Some((slot, outer)) = stock.scopes.innermost(rest) {
            indices.push(self.index(stock, slot));
            rest = outer;
        }
    }

    // The index that a slot gives.
    fn index(&self, stock: &Stock, slot: Slot) -> u32
        requires frames { All (IsFrame (stock_parts stock.now)) self.now.frames.items }
        requires slot { slot_fits slot ≡ true }
        ensures within { result < MAX_INDEX }
        ensures index { (s : Standing) → DrawsStand (stock_parts stock.now) self.now s
            → result ≡ slot_index s.frames slot }
    {
        match slot {
            Slot::Fixed { value } => value,
            Slot::Frame { frame } => shown_index(self.frames.as_slice(), stock, frame),
        }
    }

    // The next entry of the list that a frame is.
    fn entry(&mut self, stock: &Stock, frame: u32) -> u32
        requires stock { stock_fits (stock_parts stock.now) ≡ true }
        requires frames { All (IsFrame (stock_parts stock.now)) self.old.frames.items }
        ensures draws { DrawsTo (stock_parts stock.now) self.old self.new result
            (entry_drawn frame) }
        ensures frames { All (IsFrame (stock_parts stock.now)) self.new.frames.items }
    {
        next_entry(self.frames.as_mut_slice(), stock, frame)
    }

    /// A number of a message before it is clamped.
    pub(crate) fn number(&mut self, stock: &Stock, draw: Draw, scope: u32) -> i64
        requires stock { stock_fits (stock_parts stock.now) ≡ true }
        requires frames { All (IsFrame (stock_parts stock.now)) self.old.frames.items }
        requires scope { scope < length (stock_parts stock.now).scopes }
        requires draw { let t = stock_parts stock.now in IsNumber t (loops_of t scope) draw }
        ensures draws { let t = stock_parts stock.now in DrawsTo t self.old self.new result
            (number_drawn (amount_of t draw) (scope_at t scope)) }
        ensures frames { self.new.frames ≡ self.old.frames }
        ensures low { neg_ℤ (pos (2 ^ 31)) ≤ℤ result }
        ensures high { result ≤ℤ pos (2 ^ 31) }
    {
        match draw {
            Draw::Fixed { value } => i64::from(value),
            Draw::Drawn { expr } => self.value(stock, expr, scope),
        }
    }

    /// The keys of a note, its duration, its articulation and its velocity, in this order.
    pub(crate) fn note(
        &mut self,
        stock: &Stock,
        chord: u32,
        span: Span,
        gate: Turn,
        loud: Turn,
        scope: u32,
    ) -> Note
        requires stock { stock_fits (stock_parts stock.now) ≡ true }
        requires frames { All (IsFrame (stock_parts stock.now)) self.old.frames.items }
        requires chord { chord < length (stock_parts stock.now).chords }
        requires scope { scope < length (stock_parts stock.now).scopes }
        requires keys { let t = stock_parts stock.now in
            list_all (draw_fits t (loops_of t scope) (pos 0) (pos (DATA_VALUES - 1)))
            (chord_at t chord) ≡ true }
        requires span { let t = stock_parts stock.now in
            span_fits t (loops_of t scope) span ≡ true }
        ensures drawn { NoteDrawn (stock_parts stock.now) self.old self.new
            chord span gate loud scope result }
        ensures frames { All (IsFrame (stock_parts stock.now)) self.new.frames.items }
        ensures keys { All (λ key. key < DATA_VALUES) result.keys.items }
        ensures count { length result.keys.items ≤ MAX_PITCHES }
    {
        let keys = self.keys(stock, stock.chords[chord as usize].as_slice(), scope);
        let ticks = self.duration(stock, span, scope);
        let percent = self.turn(stock, gate);
        let velocity = self.turn(stock, loud);
        Note {
            keys,
            ticks,
            percent,
            velocity,
        }
    }

    // The keys of a note, from left to right.
    fn keys(&mut self, stock: &Stock, pitches: &[Draw], scope: u32) -> ArrayVec<u8, MAX_PITCHES>
        requires stock { stock_fits (stock_parts stock.now) ≡ true }
        requires frames { All (IsFrame (stock_parts stock.now)) self.old.frames.items }
        requires scope { scope < length (stock_parts stock.now).scopes }
        requires few { length pitches.now ≤ MAX_PITCHES }
        requires pitches { let t = stock_parts stock.now in
            All (IsNumber t (loops_of t scope)) pitches.now }
        ensures draws { let t = stock_parts stock.now in DrawsTo t self.old self.new result.items
            (pitches_drawn (map (amount_of t) pitches.now) (scope_at t scope)) }
        ensures frames { self.new.frames ≡ self.old.frames }
        ensures keys { All (λ key. key < DATA_VALUES) result.items }
        ensures count { length result.items ≡ length pitches.now }
    {
        let mut keys = ArrayVec::new();
        for pitch in pitches {
            let value = self.number(stock, *pitch, scope);
            keys.push(nearest_to(127, value) as u8);
        }
        keys
    }

    /// A duration in ticks.
    pub(crate) fn duration(&mut self, stock: &Stock, span: Span, scope: u32) -> u32
        requires stock { stock_fits (stock_parts stock.now) ≡ true }
        requires frames { All (IsFrame (stock_parts stock.now)) self.old.frames.items }
        requires scope { scope < length (stock_parts stock.now).scopes }
        requires span { let t = stock_parts stock.now in
            span_fits t (loops_of t scope) span ≡ true }
        ensures draws { let t = stock_parts stock.now in DrawsTo t self.old self.new result
            (duration_drawn (duration_of t span) (scope_at t scope)) }
        ensures frames { All (IsFrame (stock_parts stock.now)) self.new.frames.items }
    {
        match span {
            Span::Ticks { ticks } => ticks,
            Span::Drawn { expr, most } => nearest_to(most, self.value(stock, expr, scope)),
            Span::Cycle { frame } => self.entry(stock, frame),
        }
    }

    /// An articulation in percent, or a velocity.
    pub(crate) fn turn(&mut self, stock: &Stock, turn: Turn) -> u32
        requires stock { stock_fits (stock_parts stock.now) ≡ true }
        requires frames { All (IsFrame (stock_parts stock.now)) self.old.frames.items }
        ensures draws { DrawsTo (stock_parts stock.now) self.old self.new result (turn_drawn turn) }
        ensures frames { All (IsFrame (stock_parts stock.now)) self.new.frames.items }
    {
        match turn {
            Turn::Steady { value } => value,
            Turn::Cycle { frame } => self.entry(stock, frame),
        }
    }

    /// How often a loop goes round.
    pub(crate) fn count(&mut self, stock: &Stock, count: Count, scope: u32) -> u32
        requires stock { stock_fits (stock_parts stock.now) ≡ true }
        requires frames { All (IsFrame (stock_parts stock.now)) self.old.frames.items }
        requires scope { scope < length (stock_parts stock.now).scopes }
        requires count { let t = stock_parts stock.now in
            count_fits t (loops_of t scope) count ≡ true }
        ensures draws { let t = stock_parts stock.now in DrawsTo t self.old self.new result
            (repeats_drawn (repeats_of t count) (scope_at t scope)) }
        ensures frames { self.new.frames ≡ self.old.frames }
        ensures most { result ≤ MAX_LENGTH }
    {
        match count {
            Count::Fixed { count } => count,
            Count::Drawn { expr, most } => nearest_to(most, self.value(stock, expr, scope)),
        }
    }

    /// Gives a register the value of an expression.
    pub(crate) fn set(&mut self, stock: &Stock, register: u8, expr: u32, scope: u32)
        requires stock { stock_fits (stock_parts stock.now) ≡ true }
        requires frames { All (IsFrame (stock_parts stock.now)) self.old.frames.items }
        requires scope { scope < length (stock_parts stock.now).scopes }
        requires expr { expr_fits (stock_parts stock.now)
            (loops_of (stock_parts stock.now) scope) expr ≡ true }
        requires register { register < REGISTERS }
        ensures stands { (s : Standing) → let t = stock_parts stock.now in DrawsStand t self.old s
            → let v = expr_drawn (expr_at t expr) (scope_at t scope) s in DrawsStand t self.new
            (record v.after { registers = slice_set s.registers register v.value }) }
        ensures frames { self.new.frames ≡ self.old.frames }
    {
        let value = self.value(stock, expr, scope);
        self.registers.set(u32::from(register), value);
    }

    /// Opens a loop with so many rounds after the first one.
    pub(crate) fn open_loop(&mut self, stock: &Stock, left: u32, back: usize)
        requires room { length self.old.frames.items < MAX_FRAMES }
        requires frames { All (IsFrame (stock_parts stock.now)) self.old.frames.items }
        requires left { left < MAX_INDEX }
        ensures stands { (s : Standing) → DrawsStand (stock_parts stock.now) self.old s
            → DrawsStand (stock_parts stock.now) self.new
            (record s { frames = counting 0 left back ∷ s.frames }) }
        ensures frames { All (IsFrame (stock_parts stock.now)) self.new.frames.items }
    {
        self.frames.push(Frame::Counting {
            index: 0,
            left,
            back,
        });
    }

    /// Opens a list at its first entry.
    pub(crate) fn open_list(&mut self, stock: &Stock, list: u32)
        requires stock { stock_fits (stock_parts stock.now) ≡ true }
        requires room { length self.old.frames.items < MAX_FRAMES }
        requires frames { All (IsFrame (stock_parts stock.now)) self.old.frames.items }
        requires list { list < length (stock_parts stock.now).lists }
        ensures stands { (s : Standing) → let t = stock_parts stock.now in DrawsStand t self.old s
            → DrawsStand t self.new (record s { frames = cycling (list_at t list) 0 ∷ s.frames }) }
        ensures frames { All (IsFrame (stock_parts stock.now)) self.new.frames.items }
    {
        self.frames.push(Frame::Cycling {
            list,
            cursor: Cursor::new(),
        });
    }

    /// Closes the innermost frame.
    pub(crate) fn close(&mut self, stock: &Stock)
        requires frames { All (IsFrame (stock_parts stock.now)) self.old.frames.items }
        ensures stands { (s : Standing) (f : OpenFrame) (fs : List OpenFrame) → s.frames ≡ f ∷ fs
            → DrawsStand (stock_parts stock.now) self.old s
            → DrawsStand (stock_parts stock.now) self.new (record s { frames = fs }) }
        ensures frames { All (IsFrame (stock_parts stock.now)) self.new.frames.items }
    {
        self.frames.pop();
    }

    /// Whether a further round of the innermost loop follows; else that loop is closed.
    pub(crate) fn goes_round(&mut self, stock: &Stock) -> bool
        requires few { length self.old.frames.items ≤ MAX_FRAMES }
        requires frames { All (IsFrame (stock_parts stock.now)) self.old.frames.items }
        ensures stands { (s : Standing) (back : ℕ) → DrawsStand (stock_parts stock.now) self.old s
            → loops_back back s.frames ≡ true
            → DrawsStand (stock_parts stock.now) self.new (round_over back s s.frames) }
        ensures operation { (s : Standing) (back : ℕ)
            → DrawsStand (stock_parts stock.now) self.old s
            → loops_back back s.frames ≡ true
            → (round_over back s s.frames).operation ≡ if result then back else s.operation + 1 }
        ensures frames { All (IsFrame (stock_parts stock.now)) self.new.frames.items }
    {
        match self.frames.pop() {
            Some(Frame::Counting { index, left, back }) => {
                if left == 0 {
                    return false;
                }
                self.frames.push(Frame::Counting {
                    index: index + 1,
                    left: left - 1,
                    back,
                });
                true
            }
            Some(Frame::Cycling { .. }) => false,
            None => false,
        }
    }
}

// The index of the loop that a frame is, counted from the outermost; 0 where it is none.
fn shown_index(frames: &[Frame], stock: &Stock, frame: u32) -> u32
    requires { All (IsFrame (stock_parts stock.now)) frames.now }
    ensures within { result < MAX_INDEX }
    ensures index { (fs : List OpenFrame) → FramesStand (stock_parts stock.now) frames.now fs
        → result ≡ index_at frame fs }
{
    let at = frame as usize;
    if at < frames.len() {
        frames[at].index(stock)
    } else {
        0
    }
}

// The next entry of the list that a frame is, counted from the outermost; 0 where it is none.
fn next_entry(frames: &mut [Frame], stock: &Stock, frame: u32) -> u32
    requires stock { stock_fits (stock_parts stock.now) ≡ true }
    requires frames { All (IsFrame (stock_parts stock.now)) frames.old }
    ensures frames { All (IsFrame (stock_parts stock.now)) frames.new }
    ensures entry { (fs : List OpenFrame) → FramesStand (stock_parts stock.now) frames.old fs
        → result ≡ cycle_entry frame fs }
    ensures moved { (fs : List OpenFrame) → FramesStand (stock_parts stock.now) frames.old fs
        → FramesStand (stock_parts stock.now) frames.new (cycle_moved frame fs) }
{
    let at = frame as usize;
    if at < frames.len() {
        frames[at].next(stock)
    } else {
        0
    }
}

/// The number from 0 to the greatest one that is nearest.
pub(crate) fn nearest_to(most: u32, value: i64) -> u32
    ensures value { result ≡ nearest most value }
    ensures most { result ≤ most }
{
    if value < 0 {
        0
    } else if value < i64::from(most) {
        value as u32
    } else {
        most
    }
}
