//! The targets of an instruction, read in place, and whether each is a start.

ghost use Rattle.std.specs.Prelude.{◌≡◌, ◌<◌, ◌≤◌, ◌+◌, drop, length, slice_index, IfErr, OnOk};
ghost use Rattle.std.specs.List.{list_all, AllByRecursion};
ghost use Rattle.byteorder.specs.Endian.{big_number};
ghost use Rattle.image_form.specs.declared.record.Image.{Image};
ghost use Rattle.image_check.specs.Code.{CodeIs, JumpsToStarts, targets_at};
ghost use Rattle.image_check.specs.Listing.{Rises, is_start as is_start_of};
ghost use Rattle.image_check.specs.Targets.{target_count as target_count_of, HoldsAt};
ghost use Rattle.image_check.specs.Refused.{IsFault};

use crate::listing::is_start;
use crate::refusal::{CheckCause, Fault};
use byteorder::{BigEndian, ByteOrder};
use image_form::Method;
use image_instr::MInsn;

/// How many targets an instruction has.
pub(crate) fn target_count(insn: MInsn) -> usize
    ensures value { result ≡ target_count_of insn }
    ensures most { result ≤ 65536 }
{
    match insn {
        MInsn::Jz { .. } | MInsn::JCmp { .. } | MInsn::RJ { .. } | MInsn::Goto { .. } => 1,
        MInsn::Switch { count, .. } | MInsn::Table { count, .. } => usize::from(count) + 1,
        _ => 0,
    }
}

/// The target that stands in two bytes of the code.
fn target_in(code: &[u8], place: usize) -> u16
    requires { place + 2 ≤ length code.now }
    ensures { result ≡ big_number 2 (drop place code.now) }
{
    BigEndian::read_u16(&code[place..])
}

/// A target of the instruction that is at the offset. The default of a switch comes first, and then
/// the targets of its rows.
pub(crate) fn target(code: &[u8], pc: u16, insn: MInsn, index: usize) -> u16
    requires holds { HoldsAt code.now pc insn }
    requires index { index < target_count_of insn }
    ensures { result ≡ slice_index (targets_at code.now (pc, insn)) index }
{
    let pc = usize::from(pc);
    match insn {
        MInsn::Jz { target, .. }
        | MInsn::JCmp { target, .. }
        | MInsn::RJ { target, .. }
        | MInsn::Goto { target } => target,
        MInsn::Switch { default, .. } => {
            if index == 0 {
                default
            } else {
                target_in(code, pc + 9 + 6 * (index - 1))
            }
        }
        MInsn::Table { default, .. } => {
            if index == 0 {
                default
            } else {
                target_in(code, pc + 9 + 2 * (index - 1))
            }
        }
        _ => unreachable!(),
    }
}

/// Whether each target of the instruction that is at the offset is a start.
fn jumps_to_starts(code: &[u8], insns: &[(u16, MInsn)], pc: u16, insn: MInsn) -> bool
    requires rises { Rises insns.now }
    requires holds { HoldsAt code.now pc insn }
    ensures { result ≡ list_all (is_start_of insns.now) (targets_at code.now (pc, insn)) }
{
    for index in 0..target_count(insn) {
        if !is_start(insns, target(code, pc, insn, index)) {
            return false;
        }
    }
    true
}

/// Tests that each instruction jumps to starts alone.
pub(crate) fn test_targets(method: &Method, insns: &[(u16, MInsn)]) -> Result<(), Fault>
    requires code { CodeIs method.now.code insns.now }
    requires rises { Rises insns.now }
    ensures kept { OnOk result (AllByRecursion (JumpsToStarts method.now.code insns.now) insns.now) }
    ensures refused { (image : Image) → IfErr result (λ fault. IsFault image method.now fault.cause fault.pc) }
{
    let code = method.code.as_slice();
    for x in insns {
        if !jumps_to_starts(code, insns, x.0, x.1) {
            return Err(Fault {
                cause: CheckCause::BadTarget,
                pc: x.0,
            });
        }
    }
    Ok(())
}
