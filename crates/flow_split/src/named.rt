//! The local that an instruction names, and how many operands it looks at.

ghost use Rattle.std.specs.Prelude.{◌≡◌, ◌<◌, ℕ, map, get_or, IfSome};
ghost use Rattle.std.specs.List.{range_with_len};
ghost use Rattle.image_instr.specs.declared.insn.Width.{Width as Wide};
ghost use Rattle.image_instr.specs.declared.insn.Width.TheVariants as width;
ghost use Rattle.expansion.specs.Seen.{looked_at as looked_at_of};
ghost use Rattle.flow_split.specs.Around.{local_named as local_named_of, HasWidth};

use body_form::Op;
use image_instr::Width;

/// The local that an instruction names, if it names one.
fn local_named(op: &Op) -> Option<u16>
    ensures { result ≡ local_named_of op.now }
{
    match op {
        Op::Load(_, local) | Op::Store(_, local) => Some(*local),
        Op::Inc { local, .. } => Some(*local),
        _ => None,
    }
}

/// The width at an index, two cells where there is none.
fn width_at(widths: &[Width], index: u16) -> Width
    ensures { result ≡ get_or widths.now index width.Two }
{
    widths
        .get(usize::from(index))
        .copied()
        .unwrap_or(Width::Two)
}

/// The width of the local that an instruction names, by the widths of all locals; any width where it names none.
pub(crate) fn named_width(op: &Op, widths: &[Width]) -> Width
    ensures { (of : ℕ → Wide) (count : ℕ) → widths.now ≡ map of (range_with_len 0 count) → IfSome (local_named_of op.now) (λ local. local < count) → HasWidth of op.now result }
{
    match local_named(op) {
        Some(local) => width_at(widths, local),
        None => Width::Two,
    }
}

/// How many operands an instruction looks at.
pub(crate) fn looked_at(op: &Op) -> usize
    ensures { result ≡ looked_at_of op.now }
{
    match op {
        Op::Stack(_) => 4,
        Op::CallStatic(used)
        | Op::CallVirtual(used)
        | Op::CallSpecial(used)
        | Op::CallInterface(used) => used.descriptor.params.len(),
        _ => 2,
    }
}
