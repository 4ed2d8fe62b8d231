//! The instructions of a code as a list, each with its offset.

ghost use Rattle.std.specs.Prelude.{◌≡◌, ◌≤◌, length, IfOk, IfErr};
ghost use Rattle.image_form.specs.declared.record.Image.{Image};
ghost use Rattle.image_check.specs.Code.{CodeIs};
ghost use Rattle.image_check.specs.Listing.{Rises, is_start as is_start_of};
ghost use Rattle.image_check.specs.Refused.{IsFault};

use crate::refusal::{CheckCause, Fault};
use image_form::Method;
use image_instr::{MInsn, decode_at};
use std::alloc::Global;

/// The instructions of a method, one after the other from offset 0.
pub(crate) fn list_insns(alloc: Global, method: &Method) -> Result<Vec<(u16, MInsn)>, Fault>
    requires { length method.now.code ≤ 65535 }
    ensures code { IfOk result (λ insns. CodeIs method.now.code insns.items) }
    ensures rises { IfOk result (λ insns. Rises insns.items) }
    ensures refused { (image : Image) → IfErr result (λ fault. IsFault image method.now fault.cause fault.pc) }
{
    let code = method.code.as_slice();
    let mut insns = Vec::new(alloc);
    let mut pc = 0;
    while pc < code.len() {
        match decode_at(code, pc) {
            Some((insn, size)) => {
                insns.push((pc as u16, insn))?;
                pc += size;
            }
            None => {
                return Err(Fault {
                    cause: CheckCause::BadCode,
                    pc: pc as u16,
                });
            }
        }
    }
    Ok(insns)
}

/// Whether an instruction is at the offset.
pub(crate) fn is_start(insns: &[(u16, MInsn)], pc: u16) -> bool
    requires { Rises insns.now }
    ensures { result ≡ is_start_of insns.now pc }
{
    insns.binary_search_by_key(&pc, |x| x.0).is_ok()
}
