//! Programs that are being made.

ghost use Rattle.std.specs.Prelude.{◌≡◌, ◌<◌, [], ◌∷◌, length, slice_index_or, IfOk};
ghost use Rattle.fm_expansion.specs.Expansion.{with_ops, with_scopes, nothing_made};
ghost use Rattle.fm_plan.specs.Made.{patched, next_begun};
ghost use Rattle.fm_plan.specs.Seen.{emitting_of, Makes};

use crate::inside::as_index;
use fm_program::{Op, Program, Scopes, Slot};
use std::alloc::{AllocError, Global};
use std::mem;

/// The programs that are whole, the one that grows, the scopes of all, and the lists and
/// deformations that are open, the outermost first.
#[derive(Drop)]
pub(crate) struct Emitter {
    pub(crate) alloc: Global,
    pub(crate) finished: Vec<Program>,
    pub(crate) current: Program,
    pub(crate) scopes: Scopes,
    pub(crate) cycles: Vec<u32>,
    pub(crate) levels: Vec<u32>,
}

impl Emitter {
    /// Before the first statement: one program, and the scope without loops. There is room for so
    /// many programs.
    pub(crate) fn new(alloc: Global, programs: u32) -> Result<Emitter, AllocError>
        ensures programs { IfOk result (λ m. emitting_of m ≡ nothing_made) }
        ensures cycles { IfOk result (λ m. m.cycles.items ≡ []) }
        ensures levels { IfOk result (λ m. m.levels.items ≡ []) }
    {
        let finished = Vec::with_capacity(alloc, programs as usize)?;
        Ok(Emitter {
            alloc,
            finished,
            current: Program {
                ops: Vec::new(alloc),
                cycles: Vec::new(alloc),
                levels: Vec::new(alloc),
                predecessors: Vec::new(alloc),
            },
            scopes: Scopes::new(alloc),
            cycles: Vec::new(alloc),
            levels: Vec::new(alloc),
        })
    }

    /// An operation at the end of the program that grows.
    pub(crate) fn push(&mut self, op: Op) -> Result<(), AllocError>
        ensures { IfOk result (λ _. Makes self.old self.new
            (with_ops (op ∷ []) (emitting_of self.old))) }
    {
        self.current.ops.push(op)?;
        Ok(())
    }

    /// Another operation at an index of the program that grows, where there is one.
    pub(crate) fn set(&mut self, at: usize, op: Op)
        ensures { Makes self.old self.new (patched at op (emitting_of self.old)) }
    {
        if at < self.current.ops.len() {
            self.current.ops[at] = op;
        }
    }

    /// How many operations the program that grows has.
    pub(crate) fn size(&self) -> usize
        ensures { result ≡ length (emitting_of self.now).current.ops }
    {
        self.current.ops.len()
    }

    /// The index of the next operation.
    pub(crate) fn next(&self) -> Result<u32, AllocError>
        ensures { IfOk result (λ k. k ≡ length (emitting_of self.now).current.ops) }
    {
        as_index(self.current.ops.len())
    }

    /// A scope of one loop more than another, and its index.
    pub(crate) fn add_scope(&mut self, parent: u32, slot: Slot) -> Result<u32, AllocError>
        ensures number { IfOk result (λ k. k ≡ length (emitting_of self.old).scopes) }
        ensures programs { IfOk result (λ _. Makes self.old self.new
            (with_scopes ((slot ∷ slice_index_or (emitting_of self.old).scopes parent []) ∷ [])
            (emitting_of self.old))) }
    {
        self.scopes.push(slot, parent)
    }

    /// The program that grows is whole, and one begins that waits for these.
    pub(crate) fn next_program(&mut self, predecessors: Vec<u32>) -> Result<(), AllocError>
        ensures { IfOk result (λ _. Makes self.old self.new
            (next_begun (record {
              ops = [];
              cycles = self.old.cycles.items;
              levels = self.old.levels.items;
              predecessors = predecessors.items;
            }) (emitting_of self.old))) }
    {
        let next = Program {
            ops: Vec::new(self.alloc),
            cycles: copy(&self.cycles)?,
            levels: copy(&self.levels)?,
            predecessors,
        };
        let mut whole = mem::replace(&mut self.current, next);
        // Programs may be many: none keeps room for operations that it does not have.
        whole.ops.shrink_to_fit();
        self.finished.push(whole)?;
        Ok(())
    }
}

fn copy(list: &Vec<u32>) -> Result<Vec<u32>, AllocError>
    ensures { IfOk result (λ l. l.items ≡ list.now.items) }
{
    list.clone()
}
