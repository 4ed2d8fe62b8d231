//! The instruction that is at a place of the code.

ghost use Rattle.std.specs.Prelude.{◌≡◌, ℕ, Some, List, drop, IfSome, IfNone, IsSome};
ghost use Rattle.image_instr.specs.Reading.{insn_at, rows_at};
ghost use Rattle.image_instr.specs.Insn.{HoldsAt};
ghost use Rattle.image_instr.specs.declared.insn.SwitchRow.{SwitchRow};
ghost use Rattle.image_instr.specs.declared.insn.MInsn.{MInsn};

use crate::group::insn;
use crate::insn::MInsn;
use crate::known::known;

/// The instruction at the prefix of the bytes.
#[inline(always)]
fn prefix(bytes: &[u8]) -> Option<(MInsn, usize)>
    ensures { result ≡ insn_at bytes.now }
{
    let (opcode, operands) = bytes.split_first()?;
    insn(*opcode, operands)
}

/// The instruction at the prefix of what stands from a place on.
#[inline(always)]
fn found_at(code: &[u8], pc: usize) -> Option<(MInsn, usize)>
    ensures { result ≡ insn_at (drop pc code.now) }
{
    if code.len() < pc {
        return None;
    }
    prefix(&code[pc..])
}

/// The instruction that is at a place of the code, and its size: how many bytes it has, its rows
/// among them. The next instruction follows so many bytes. None where no instruction stands,
/// and where the place is not in the code.
pub fn decode_at(code: &[u8], pc: usize) -> Option<(MInsn, usize)>
    // What is found is encoded there, with its rows.
    ensures found { let bytes = drop pc code.now in
        IfSome result (λ found. HoldsAt code.now pc found.0 (rows_at found.0 bytes) found.1) }
    // What is encoded there is found, and its rows are the only ones.
    ensures only { (insn : MInsn) (rows : List SwitchRow) (size : ℕ) →
        HoldsAt code.now pc insn rows size →
        (result ≡ Some (insn, size)) × (rows ≡ rows_at insn (drop pc code.now)) }
    // Where nothing is found, no instruction is encoded.
    ensures none { IfNone result ((insn : MInsn) (rows : List SwitchRow) (size : ℕ) →
        ¬ HoldsAt code.now pc insn rows size) }
    // The same as a function of the bytes.
    ensures exact { result ≡ insn_at (drop pc code.now) }
{
    found_at(code, pc)
}

/// The instruction that is known to be at the prefix of what stands from a place on.
#[inline(always)]
fn known_at(code: &[u8], pc: usize) -> (MInsn, usize)
    requires { IsSome (insn_at (drop pc code.now)) }
    ensures { insn_at (drop pc code.now) ≡ Some result }
{
    known(code[pc], &code[pc + 1..])
}

/// The instruction that is at a place of the code, and its size, where one is known to be: as
/// `decode_at`, but in a time that does not depend on the rows of a switch.
#[inline(always)]
pub fn decode_known(code: &[u8], pc: usize) -> (MInsn, usize)
    // An instruction stands there.
    requires { IsSome (insn_at (drop pc code.now)) }
    // What is answered is encoded there, with its rows.
    ensures found { HoldsAt code.now pc result.0 (rows_at result.0 (drop pc code.now)) result.1 }
    // It is what `decode_at` finds.
    ensures exact { insn_at (drop pc code.now) ≡ Some result }
{
    known_at(code, pc)
}
