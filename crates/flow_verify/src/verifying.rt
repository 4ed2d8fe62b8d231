//! The verification of a body.

ghost use Rattle.std.specs.Prelude.{◌≡◌, ◌⊎◌, ℕ, Err, None, IfOk, IfErr, IsOkUnless};
ghost use Rattle.class_tree.specs.Tree.{Gathers};
ghost use Rattle.jvm_model.specs.TypesNames.{IsOfSet};
ghost use Rattle.jvm_model.specs.TypesRight.{Table, IsLeast, IsRight};
ghost use Rattle.jvm_model.specs.TypesRounds.{IsFailing};
ghost use Rattle.type_table.specs.Types.{table_of};
ghost use Rattle.flow_verify.specs.Verified.{AreReached, HasNoTypes, IsUnverified};

use crate::rounds::{Outcome, infer};
use crate::rows::types_of;
use body_form::Body;
use class_tree::ClassSet;
use std::alloc::Global;
use type_table::Types;

/// Why a body is not verified.
#[derive(Clone, Copy, Debug, PartialEq, Eq)]
pub enum VerifyRefusal {
    /// The body of a method, by its position in its class, has no right table: the inference of its types fails at
    /// the instruction at a pc (JVMS 4.10.2).
    Unverified { method: u16, pc: u32 },
    /// There was no memory for the types.
    Memory,
}

/// The types before each instruction of a body that is reached, in order of pc: those of the least right table. A
/// body without a right table is refused at its failing pc, the lowest at which the first round that fails does so.
/// Memory is taken by the number of instructions and by what the rounds add to a store of frames.
pub fn verify(alloc: Global, set: &ClassSet, body: &Body) -> Result<Types, VerifyRefusal>
    requires closed { Gathers set.now None }
    requires names { IsOfSet set.now body.now }
    ensures least { IfOk result (λ types. IsLeast set.now body.now (table_of types)) }
    ensures rows { IfOk result (AreReached body.now) }
    ensures refused { IfErr result (IsUnverified set.now body.now) }
    ensures none { IfErr result (HasNoTypes set.now body.now) }
    ensures right { (table : Table) → IsRight set.now body.now table → IsOkUnless result VerifyRefusal.Memory }
    ensures failing { (pc : ℕ) → IsFailing set.now body.now pc → (result ≡ Err (VerifyRefusal.Unverified body.now.method pc)) ⊎ (result ≡ Err VerifyRefusal.Memory) }
{
    match infer(alloc, set, body) {
        Ok(Outcome::Quiet(frames)) => match types_of(alloc, body, frames) {
            Ok(types) => Ok(types),
            Err(_) => Err(VerifyRefusal::Memory),
        },
        Ok(Outcome::Failing(pc)) => Err(VerifyRefusal::Unverified {
            method: body.method,
            pc,
        }),
        Err(_) => Err(VerifyRefusal::Memory),
    }
}
