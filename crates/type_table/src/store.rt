//! A store of frames of types that share what they have in common.

ghost use Rattle.std.specs.Prelude.{◌≡◌, ◌≤◌, ◌^◌, ℕ, [], None, IfOk, length, slice_get, take};
ghost use Rattle.std.specs.List.{list_any};
ghost use Rattle.class_tree.specs.Tree.{Gathers};
ghost use Rattle.jvm_model.specs.TypesFrames.{IsKnownFrame};
ghost use Rattle.jvm_model.specs.TypesRules.{changed as changed_frame, is_same_object};
ghost use Rattle.type_table.specs.Frames.{frame_of, IsDeep, IsFrame, Grows};
ghost use Rattle.type_table.specs.Chains.{chain_at};
ghost use Rattle.type_table.specs.Changes.{entered_with, meant, started, IsFound};
ghost use Rattle.type_table.specs.Merges.{AreOperands, IsMergeOf};

use crate::change::Change;
use crate::merged::{Merged, grown};
use crate::merged_locals::merged_tree;
use crate::merged_operands::merged_operands;
use crate::operands::{Chain, changed_operands, has_object, operand_at, push_class, top_values};
use crate::trees::{Trees, changed_locals, filled, first_locals, local_at};
use body_form::{VFrame, VType};
use class_tree::ClassSet;
use item_list::Items;
use std::alloc::{AllocError, Global};
use std::marker::Model;

/// Want of memory.
pub type Memory = AllocError;

/// The most entries of a kind that a store takes; one more is answered as want of memory.
pub(crate) const MOST_ENTRIES: usize = 16_777_216;

/// An operand, the entry of the one below it, and whether an object that is not yet constructed may be among the two
/// and those below.
#[derive(Clone, Copy, Debug, PartialEq, Eq)]
pub struct Cell {
    pub value: VType,
    pub below: u32,
    pub unconstructed: bool,
}

/// The two halves of a tree of locals, and whether an object that is not yet constructed may be in them.
#[derive(Clone, Copy, Debug, PartialEq, Eq)]
pub struct Branch {
    pub left: u32,
    pub right: u32,
    pub unconstructed: bool,
}

/// A frame of a store: how many operands it has, the entry of the top one, the tree of its locals, and whether a
/// constructor has yet to call another one.
#[derive(Clone, Copy, Debug, PartialEq, Eq)]
pub struct FrameId {
    pub height: u32,
    pub operands: u32,
    pub locals: u32,
    pub pending: bool,
}

impl FrameId {
    /// Its operands.
    pub(crate) fn chain(self) -> Chain
        ensures { result ≡ chain_at self }
    {
        Chain {
            height: self.height,
            top: self.operands,
        }
    }
}

/// Frames of one method, each with so many locals. A frame that is there stays what it is, whatever is added. A store
/// takes at most 16,777,216 operands, as many leaves and as many branches of trees of locals; one more is answered as
/// want of memory.
#[derive(Debug, Drop)]
pub struct Store {
    alloc: Global,
    cells: Vec<Cell>,
    trees: Trees,
    depth: u32,
    locals: u16,
}

impl Model for Store {
    ghost use Rattle.std.specs.Prelude.{◌≤◌, ◌^◌};
    ghost use Rattle.type_table.specs.Frames.{Stored};

    ghost Value = { Stored };

    ghost view = { λ store. record { cells = store.cells.items; leaves = store.trees.leaves.items; branches = store.trees.branches.items; depth = store.depth; locals = store.locals } };

    ghost invariant = { λ store. (store.locals ≤ 2 ^ store.depth) × (store.depth ≤ 16) };
}

/// How deep a tree of so many locals is.
fn depth_for(locals: u16) -> u32
    ensures deep { locals ≤ 2 ^ result }
    ensures most { result ≤ 16 }
    ensures least { (depth : ℕ) → locals ≤ 2 ^ depth → result ≤ depth }
{
    let mut depth = 0;
    while 1 << depth < u32::from(locals) {
        depth += 1;
    }
    depth
}

impl Store {
    /// A store without frames, for frames of so many locals; takes no memory.
    pub fn new(alloc: Global, locals: u16) -> Store
        ensures empty { (result.cells ≡ []) × (result.leaves ≡ []) × (result.branches ≡ []) }
        ensures locals { result.locals ≡ locals }
        ensures deep { IsDeep result }
        ensures least { (depth : ℕ) → locals ≤ 2 ^ depth → result.depth ≤ depth }
    {
        Store {
            alloc,
            cells: Vec::new(alloc),
            trees: Trees {
                leaves: Vec::new(alloc),
                branches: Vec::new(alloc),
            },
            depth: depth_for(locals),
            locals,
        }
    }

    /// How many locals each frame has.
    pub fn local_count(&self) -> u16
        ensures count { result ≡ self.now.locals }
        ensures deep { IsDeep self.now }
    {
        self.locals
    }

    /// The operand at a position, the top one at 0.
    pub fn operand(&self, frame: FrameId, position: u32) -> Option<VType>
        requires { IsFrame self.now frame }
        ensures { result ≡ slice_get (frame_of self.now frame).stack position }
    {
        operand_at(self.cells.as_slice(), frame.chain(), position)
    }

    /// The local at an index.
    pub fn local(&self, frame: FrameId, index: u16) -> Option<VType>
        requires { IsFrame self.now frame }
        ensures { result ≡ slice_get (frame_of self.now frame).locals index }
    {
        if index < self.locals {
            Some(local_at(&self.trees, self.depth, frame.locals, usize::from(index)))
        } else {
            None
        }
    }

    /// Whether an object that is not yet constructed is among the operands.
    pub fn has_operand(&self, frame: FrameId, object: VType) -> bool
        requires { IsFrame self.now frame }
        ensures { result ≡ list_any (is_same_object object) (frame_of self.now frame).stack }
    {
        has_object(self.cells.as_slice(), frame.chain(), object)
    }

    /// The operands of all frames.
    pub(crate) fn cells(&self) -> &[Cell]
        ensures { result.now ≡ self.now.cells }
    {
        self.cells.as_slice()
    }

    /// The top so many operands of a frame, the top first; all where it has fewer.
    pub fn top_operands(
        &self,
        alloc: Global,
        frame: FrameId,
        count: usize,
    ) -> Result<Vec<VType>, Memory>
        requires { IsFrame self.now frame }
        ensures { IfOk result (λ values. values.items ≡ take count (frame_of self.now frame).stack) }
    {
        let count = count.min(frame.height as usize) as u32;
        top_values(alloc, self.cells.as_slice(), frame.chain(), count)
    }

    /// A frame, copied out.
    pub fn frame(&self, alloc: Global, frame: FrameId) -> Result<VFrame, Memory>
        requires { IsFrame self.now frame }
        ensures { IfOk result (λ copy. copy ≡ frame_of self.now frame) }
    {
        let locals = first_locals(
            alloc,
            &self.trees,
            self.depth,
            frame.locals,
            usize::from(self.locals),
        )?;
        let stack = top_values(alloc, self.cells.as_slice(), frame.chain(), frame.height)?;
        Ok(VFrame {
            locals: Items::from_vec(locals),
            stack: Items::from_vec(stack),
            pending: frame.pending,
        })
    }

    /// A frame with these first locals and no operands; nothing is known of its other locals.
    pub fn start(&mut self, locals: &[VType], pending: bool) -> Result<FrameId, Memory>
        requires { length locals.now ≤ self.old.locals }
        ensures grows { Grows self.old self.new }
        ensures started { IfOk result (λ id. IsFound self.new id (started self.old.locals locals.now pending)) }
    {
        let locals = filled(&mut self.trees, self.depth, locals)?;
        Ok(FrameId {
            height: 0,
            operands: 0,
            locals,
            pending,
        })
    }

    /// The frame in which a handler is entered with an object of a class (JVMS 4.10.1.6): the locals stay, and the
    /// object is the one operand.
    pub fn entered(&mut self, frame: FrameId, class: u16) -> Result<FrameId, Memory>
        requires { IsFrame self.old frame }
        ensures grows { Grows self.old self.new }
        ensures entered { IfOk result (λ id. IsFound self.new id (entered_with class (frame_of self.old frame))) }
    {
        let operands = push_class(&mut self.cells, class)?;
        Ok(FrameId {
            height: operands.height,
            operands: operands.top,
            locals: frame.locals,
            pending: frame.pending,
        })
    }

    /// The frame after a change.
    pub fn changed(&mut self, frame: FrameId, change: &Change) -> Result<FrameId, Memory>
        requires frame { IsFrame self.old frame }
        requires pops { change.now.pops ≤ frame.height }
        ensures grows { Grows self.old self.new }
        ensures changed { IfOk result (λ id. IsFound self.new id (changed_frame (meant change.now) (frame_of self.old frame))) }
    {
        let operands = changed_operands(self.alloc, &mut self.cells, frame.chain(), change)?;
        let locals = changed_locals(
            &mut self.trees,
            self.depth,
            usize::from(self.locals),
            frame.locals,
            change,
        )?;
        Ok(FrameId {
            height: operands.height,
            operands: operands.top,
            locals,
            pending: change.pending,
        })
    }

    /// The merge of two frames (JVMS 4.10.2.2). Where the upper frame says no less than the lower one it stays; else the
    /// other one keeps the entries of the upper frame that stay.
    pub fn merged(
        &mut self,
        set: &ClassSet,
        upper: FrameId,
        lower: FrameId,
    ) -> Result<Merged, Memory>
        requires gathered { Gathers set.now None }
        requires upper { IsFrame self.old upper }
        requires lower { IsFrame self.old lower }
        requires known_upper { IsKnownFrame set.now (frame_of self.old upper) }
        requires known_lower { IsKnownFrame set.now (frame_of self.old lower) }
        requires operands { AreOperands (frame_of self.old upper).stack }
        ensures grows { Grows self.old self.new }
        ensures merged { IfOk result (IsMergeOf set.now self.new (frame_of self.old upper) (frame_of self.old lower)) }
    {
        let operands = merged_operands(
            self.alloc,
            set,
            &mut self.cells,
            upper.chain(),
            lower.chain(),
        )?;
        let locals = merged_tree(
            set,
            &mut self.trees,
            self.depth,
            usize::from(self.locals),
            upper.locals,
            lower.locals,
        )?;
        Ok(grown(upper, operands, locals, upper.pending | lower.pending))
    }
}
