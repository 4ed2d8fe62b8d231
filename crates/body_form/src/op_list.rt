//! The instructions of a body.

ghost use Rattle.std.specs.Prelude.{◌≡◌, ◌<◌, ◌↔◌, IfSome, IsNone, IsTrue, length};
ghost use Rattle.code_reach.specs.Reached.{RisesFrom};
ghost use Rattle.body_form.specs.Flow.{IsStart, pc_at};

use crate::op::Op;
use std::marker::Model;

/// The instructions of a method's code as families, each with its pc. The pcs rise.
#[derive(Debug, Drop)]
pub struct OpList {
    ops: Vec<(u32, Op)>,
}

impl Model for OpList {
    ghost use Rattle.code_reach.specs.Reached.{RisesFrom};
    ghost use Rattle.body_form.specs.Flow.{Ops};

    ghost Value = { Ops };

    ghost view = { λ list. list.ops.items };

    ghost invariant = { λ list. RisesFrom 0 list.ops.items };
}

impl OpList {
    /// The instructions of a vector, in which the pcs rise.
    pub fn from_vec(ops: Vec<(u32, Op)>) -> OpList
        requires { RisesFrom 0 ops.items }
        ensures { result ≡ ops.items }
    {
        OpList { ops }
    }

    /// The instructions as a vector, without taking memory.
    pub fn into_vec(self) -> Vec<(u32, Op)>
        ensures all { result.items ≡ self }
        ensures rise { RisesFrom 0 self }
    {
        let OpList { ops } = self;
        ops
    }

    /// The instructions in order.
    pub fn as_slice(&self) -> &[(u32, Op)]
        ensures all { result.now ≡ self.now }
        ensures rise { RisesFrom 0 self.now }
    {
        self.ops.as_slice()
    }

    /// Whether an instruction is at a pc.
    #[tactic(auto, using(crate::proofs::Starts::start_found))]
    pub fn is_start(&self, pc: u32) -> bool
        ensures { IsTrue result ↔ IsStart self.now pc }
    {
        self.position_of(pc).is_some()
    }

    /// The position of the instruction at a pc.
    pub fn position_of(&self, pc: u32) -> Option<usize>
        ensures found { IfSome result (λ i. (i < length self.now) × (pc_at self.now i ≡ pc)) }
        ensures none { IsNone result → IsStart self.now pc → ⊥ }
    {
        match self.ops.binary_search_by_key(&pc, |x| x.0) {
            Ok(position) => Some(position),
            Err(_) => None,
        }
    }
}
