//! The instructions that have operands, each with its size.

ghost use Rattle.std.specs.Prelude.{◌≡◌, Some, option_map};
ghost use Rattle.image_instr.specs.Reading.{load_in, store_in, rclear_in, inc_in, rdupx_in, dupx_in, rpop_in, pop_in, swap_in, drop_in, u2_in, rj_in, get_static_in, put_static_in, get_field_in, put_field_in, multi_in, calli_in, new_array_in};
ghost use Rattle.image_instr.specs.declared.insn.MInsn.TheVariants.{Bin, Jz, JCmp, ALoad, AStore};

use crate::insn::{Condition, Element, Kind, MInsn, Operation, RefTest, Width};
use crate::operand::{halves, i2, index, u1, u2};

#[inline(always)]
pub(crate) fn load(kind: Kind, operands: &[u8]) -> Option<(MInsn, usize)>
    ensures { result ≡ load_in kind operands.now }
{
    let (local, size) = index(operands)?;
    Some((MInsn::Load { kind, local }, size))
}

#[inline(always)]
pub(crate) fn store(kind: Kind, operands: &[u8]) -> Option<(MInsn, usize)>
    ensures { result ≡ store_in kind operands.now }
{
    let (local, size) = index(operands)?;
    Some((MInsn::Store { kind, local }, size))
}

#[inline(always)]
pub(crate) fn rclear(operands: &[u8]) -> Option<(MInsn, usize)>
    ensures { result ≡ rclear_in operands.now }
{
    let (local, size) = index(operands)?;
    Some((MInsn::RClear { local }, size))
}

#[inline(always)]
pub(crate) fn inc(width: Width, operands: &[u8]) -> Option<(MInsn, usize)>
    ensures { result ≡ inc_in width operands.now }
{
    let (local, size) = index(operands)?;
    let amount = i2(&operands[size - 1..])?;
    let insn = MInsn::Inc {
        width,
        local,
        amount,
    };
    Some((insn, size + 2))
}

#[inline(always)]
pub(crate) fn rdupx(operands: &[u8]) -> Option<(MInsn, usize)>
    ensures { result ≡ rdupx_in operands.now }
{
    let (m, n) = halves(operands)?;
    (1 <= m && m <= 2 && n <= 2).then_some((MInsn::RDupX { m, n }, 2))
}

#[inline(always)]
pub(crate) fn dupx(operands: &[u8]) -> Option<(MInsn, usize)>
    ensures { result ≡ dupx_in operands.now }
{
    let (m, n) = halves(operands)?;
    (1 <= m && m <= 4 && n <= 4).then_some((MInsn::DupX { m, n }, 2))
}

#[inline(always)]
pub(crate) fn rpop(operands: &[u8]) -> Option<(MInsn, usize)>
    ensures { result ≡ rpop_in operands.now }
{
    let count = u1(operands)?;
    (1 <= count && count <= 4).then_some((MInsn::RPop { count }, 2))
}

#[inline(always)]
pub(crate) fn pop(operands: &[u8]) -> Option<(MInsn, usize)>
    ensures { result ≡ pop_in operands.now }
{
    let count = u1(operands)?;
    (1 <= count && count <= 4).then_some((MInsn::Pop { count }, 2))
}

#[inline(always)]
pub(crate) fn swap(operands: &[u8]) -> Option<(MInsn, usize)>
    ensures { result ≡ swap_in operands.now }
{
    let (m, n) = halves(operands)?;
    (1 <= m && m <= 2 && (1 <= n && n <= 2)).then_some((MInsn::Swap { m, n }, 2))
}

#[inline(always)]
pub(crate) fn drop_cell(operands: &[u8]) -> Option<(MInsn, usize)>
    ensures { result ≡ drop_in operands.now }
{
    let (above, size) = index(operands)?;
    Some((MInsn::Drop { above }, size))
}

#[inline(always)]
pub(crate) fn jz(width: Width, condition: Condition, operands: &[u8]) -> Option<(MInsn, usize)>
    ensures { result ≡ option_map (λ target. (Jz width condition target, 3)) (u2_in operands.now) }
{
    let target = u2(operands)?;
    let insn = MInsn::Jz {
        width,
        condition,
        target,
    };
    Some((insn, 3))
}

#[inline(always)]
pub(crate) fn jcmp(width: Width, condition: Condition, operands: &[u8]) -> Option<(MInsn, usize)>
    ensures { result ≡ option_map (λ target. (JCmp width condition target, 3)) (u2_in operands.now) }
{
    let target = u2(operands)?;
    let insn = MInsn::JCmp {
        width,
        condition,
        target,
    };
    Some((insn, 3))
}

#[inline(always)]
pub(crate) fn rj(test: RefTest, operands: &[u8]) -> Option<(MInsn, usize)>
    ensures { result ≡ rj_in test operands.now }
{
    let target = u2(operands)?;
    Some((MInsn::RJ { test, target }, 3))
}

#[inline(always)]
pub(crate) fn get_static(kind: Kind, operands: &[u8]) -> Option<(MInsn, usize)>
    ensures { result ≡ get_static_in kind operands.now }
{
    let (place, size) = index(operands)?;
    Some((MInsn::GetS { kind, place }, size))
}

#[inline(always)]
pub(crate) fn put_static(kind: Kind, operands: &[u8]) -> Option<(MInsn, usize)>
    ensures { result ≡ put_static_in kind operands.now }
{
    let (place, size) = index(operands)?;
    Some((MInsn::PutS { kind, place }, size))
}

#[inline(always)]
pub(crate) fn get_field(kind: Kind, operands: &[u8]) -> Option<(MInsn, usize)>
    ensures { result ≡ get_field_in kind operands.now }
{
    let (place, size) = index(operands)?;
    Some((MInsn::GetF { kind, place }, size))
}

#[inline(always)]
pub(crate) fn put_field(kind: Kind, operands: &[u8]) -> Option<(MInsn, usize)>
    ensures { result ≡ put_field_in kind operands.now }
{
    let (place, size) = index(operands)?;
    Some((MInsn::PutF { kind, place }, size))
}

#[inline(always)]
pub(crate) fn multi(operands: &[u8]) -> Option<(MInsn, usize)>
    ensures { result ≡ multi_in operands.now }
{
    let id = u2(operands)?;
    let dims = u1(&operands[2..])?;
    Some((MInsn::Multi { id, dims }, 4))
}

#[inline(always)]
pub(crate) fn calli(operands: &[u8]) -> Option<(MInsn, usize)>
    ensures { result ≡ calli_in operands.now }
{
    let selector = u2(operands)?;
    let id = u2(&operands[2..])?;
    Some((MInsn::CallI { selector, id }, 5))
}

#[inline(always)]
pub(crate) fn bin(width: Width, operation: Operation) -> Option<(MInsn, usize)>
    ensures { result ≡ Some (Bin width operation, 1) }
{
    Some((MInsn::Bin { width, operation }, 1))
}

#[inline(always)]
pub(crate) fn new_array(width: Width, operands: &[u8]) -> Option<(MInsn, usize)>
    ensures { result ≡ new_array_in width operands.now }
{
    let id = u2(operands)?;
    Some((MInsn::NewArr { width, id }, 3))
}

#[inline(always)]
pub(crate) fn load_element(element: Element, width: Width) -> Option<(MInsn, usize)>
    ensures { result ≡ Some (ALoad element width, 1) }
{
    Some((MInsn::ALoad { element, width }, 1))
}

#[inline(always)]
pub(crate) fn store_element(element: Element, width: Width) -> Option<(MInsn, usize)>
    ensures { result ≡ Some (AStore element width, 1) }
{
    Some((MInsn::AStore { element, width }, 1))
}
