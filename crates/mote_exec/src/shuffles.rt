//! Operands that are moved and doubled: cells, and references.

ghost use Rattle.image_instr.specs.declared.insn.MInsn.TheVariants as insns;
ghost use Rattle.split_safety.specs.Ready.{Shown};
ghost use Rattle.mote_exec.specs.Steps.{IsStep, GoesTo};

use mote_model::{State, Turn};

/// Makes `.. K J K` of the cells `.. J K`, where K has m cells and J has n.
pub fn duplicate(mote: &mut State, next: u16, m: u8, n: u8) -> Turn
    ghost shown: { Shown }

    requires { IsStep shown mote.old (insns.DupX m n) next }
    ensures { GoesTo shown mote.old mote.new result }
{
    mote.region.dupx(false, u16::from(m), u16::from(n));
    mote.region.set_pc(next);
    Turn::On
}

/// Makes `.. K J K` of the references `.. J K`, where K has m references and J has n.
pub fn duplicate_refs(mote: &mut State, next: u16, m: u8, n: u8) -> Turn
    ghost shown: { Shown }

    requires { IsStep shown mote.old (insns.RDupX m n) next }
    ensures { GoesTo shown mote.old mote.new result }
{
    mote.region.dupx(true, u16::from(m), u16::from(n));
    mote.region.set_pc(next);
    Turn::On
}

/// Makes `.. K J` of the cells `.. J K`, where K has m cells and J has n.
pub fn swap(mote: &mut State, next: u16, m: u8, n: u8) -> Turn
    ghost shown: { Shown }

    requires { IsStep shown mote.old (insns.Swap m n) next }
    ensures { GoesTo shown mote.old mote.new result }
{
    mote.region.swap(false, u16::from(m), u16::from(n));
    mote.region.set_pc(next);
    Turn::On
}

/// Exchanges the two references on top.
pub fn swap_refs(mote: &mut State, next: u16) -> Turn
    ghost shown: { Shown }

    requires { IsStep shown mote.old insns.RSwap next }
    ensures { GoesTo shown mote.old mote.new result }
{
    mote.region.swap(true, 1, 1);
    mote.region.set_pc(next);
    Turn::On
}
