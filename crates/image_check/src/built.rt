//! The instructions that the machine runs so far.

ghost use Rattle.std.specs.Prelude.{◌≡◌, true, IfNone, IfSome};
ghost use Rattle.std.specs.List.{AllByRecursion};
ghost use Rattle.image_check.specs.Code.{CodeIs};
ghost use Rattle.image_check.specs.Built.{is_built as is_built_of, is_plain as is_plain_of, is_static_call as is_static_call_of};
ghost use Rattle.image_check.specs.Refused.{IsUnbuiltAt};

use image_form::Method;
use image_instr::MInsn;
use library::FIRST_OWN;

/// Whether the instruction is of whole numbers, locals, operands, jumps or statics.
fn is_plain(insn: MInsn) -> bool
    ensures { result ≡ is_plain_of insn }
{
    matches!(
        insn,
        MInsn::Const1 { .. }
            | MInsn::Const2 { .. }
            | MInsn::Small1 { .. }
            | MInsn::Small2 { .. }
            | MInsn::Mid2 { .. }
            | MInsn::Null
            | MInsn::Load { .. }
            | MInsn::Store { .. }
            | MInsn::RClear { .. }
            | MInsn::Inc { .. }
            | MInsn::RDupX { .. }
            | MInsn::DupX { .. }
            | MInsn::RPop { .. }
            | MInsn::Pop { .. }
            | MInsn::RSwap
            | MInsn::Swap { .. }
            | MInsn::Drop { .. }
            | MInsn::Bin { .. }
            | MInsn::Neg { .. }
            | MInsn::Sx
            | MInsn::Zx
            | MInsn::Sb
            | MInsn::Bit
            | MInsn::Jz { .. }
            | MInsn::JCmp { .. }
            | MInsn::RJ { .. }
            | MInsn::Goto { .. }
            | MInsn::Switch { .. }
            | MInsn::Table { .. }
            | MInsn::GetS { .. }
            | MInsn::PutS { .. }
    )
}

/// Whether the instruction returns, or calls a static method: one with code, or write, read or print.
fn is_static_call(insn: MInsn) -> bool
    ensures { result ≡ is_static_call_of insn }
{
    match insn {
        MInsn::Ret { .. } => true,
        MInsn::CallS { method } => FIRST_OWN <= method || 1 <= method,
        _ => false,
    }
}

/// Whether the machine runs the instruction.
fn is_built(insn: MInsn) -> bool
    ensures { result ≡ is_built_of insn }
{
    is_plain(insn) || is_static_call(insn)
}

/// The offset of the first instruction that the machine does not run.
pub(crate) fn first_unbuilt(method: &Method, insns: &[(u16, MInsn)]) -> Option<u16>
    requires { CodeIs method.now.code insns.now }
    ensures none { IfNone result (AllByRecursion (λ x. is_built_of x.1 ≡ true) insns.now) }
    ensures some { IfSome result (IsUnbuiltAt method.now) }
{
    for x in insns {
        if !is_built(x.1) {
            return Some(x.0);
        }
    }
    None
}
