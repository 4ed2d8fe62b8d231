//! What a call moves.

ghost use Rattle.std.specs.Prelude.{◌≡◌, ◌≤◌, ◌<◌, ◌^◌, ◌&&◌, ◌+◌, ◌*◌, ◌++◌, [], List, cond, length, filter, map, reverse, IfSome};
ghost use Rattle.std.specs.List.{sum_by};
ghost use Rattle.std.specs.Option.{option_map_or};
ghost use Rattle.image_instr.specs.declared.insn.MInsn.{MInsn};
ghost use Rattle.image_instr.specs.declared.insn.MInsn.TheVariants as insns;
ghost use Rattle.image_instr.specs.declared.signature.Sig.{Sig};
ghost use Rattle.image_instr.specs.Effect.{called as called_of, effect_of};
ghost use Rattle.jvm_model.specs.Initialisers.{is_reference_kind};
ghost use Rattle.jvm_model.specs.ImageExpansion.{Emitted, alone, alone_where, is_two as is_two_of, cut_arguments, read_as as read_as_of};
ghost use Rattle.jvm_model.specs.WidthsSlots.{passed_cells as passed_cells_of, is_small as is_small_of};
ghost use Rattle.jvm_model.specs.WidthsFrame.{most_operands, signature_used};
ghost use Rattle.flow_split.specs.Moves.{move_of, moving};
ghost use Rattle.flow_split.specs.Peaks.{most_emitted};

use crate::kinds::{is_small, is_two, kind_in, read_as, shape_cells};
use crate::moves::{Move, STILL};
use crate::peaks::{Peak, most_cells, moved};
use body_form::MethodUse;
use class_pool::Kind;
use image_instr::Kind as Shape;

/// In how many cells a parameter is passed, a reference in none.
pub(crate) fn passed_cells(kind: &Kind) -> u64
    ensures is { result ≡ passed_cells_of kind.now }
    ensures small { result ≤ 2 }
{
    match kind {
        Kind::Int => 2,
        Kind::Byte | Kind::Char | Kind::Short | Kind::Boolean => 1,
        _ => 0,
    }
}

/// How many operand cells an argument takes.
fn argument_cells(kind: &Kind) -> u64
    ensures is { result ≡ cond (is_reference_kind kind.now) 1 0 + passed_cells_of kind.now }
    ensures small { result ≤ 2 }
{
    match kind {
        Kind::Int => 2,
        Kind::Long | Kind::Float | Kind::Double => 0,
        _ => 1,
    }
}

/// How many operand cells all arguments take.
fn all_argument_cells(kinds: &[Kind]) -> u64
    ensures is { result ≡ length (filter is_reference_kind kinds.now) + sum_by passed_cells_of kinds.now }
    ensures small { result ≤ 2 * length kinds.now }
{
    let mut cells = 0;
    for kind in kinds {
        cells += argument_cells(kind);
    }
    cells
}

/// How many operand cells the object takes that a method is called on.
fn object_cells(instance: bool) -> u64
    ensures { result ≡ cond instance 1 0 }
{
    u64::from(instance)
}

/// The call itself, and how its result is read.
fn called(instance: bool, used: &MethodUse, after: Shape) -> [Move; 3]
    ensures { (insn : MInsn) → effect_of insn (signature_used instance used.now) ≡ called_of (signature_used instance used.now) → moving result ≡ moving (map (move_of (signature_used instance used.now)) (alone insn ++ option_map_or (λ result. read_as_of result after) used.now.descriptor.result [])) }
{
    let pops = object_cells(instance) + all_argument_cells(used.descriptor.params.as_slice());
    match &used.descriptor.result {
        Some(kind) => {
            let pushes = shape_cells(kind_in(kind));
            [Move { pops, pushes }, read_as(kind, after), STILL]
        }
        None => [Move { pops, pushes: 0 }, STILL, STILL],
    }
}

/// An argument of a small type that has two cells is cut; so many cells stand above it.
fn cut_one(peak: Peak, kind: &Kind, shape: Shape, above: u64) -> Option<Peak>
    requires { above < 2 ^ 63 }
    ensures { IfSome result (λ after. (sig : Sig) (rest : List Emitted) → most_emitted sig after rest ≡ most_emitted sig peak (alone_where (is_small_of kind.now && is_two_of shape) (insns.Drop above) ++ rest)) }
{
    if is_small(kind) && is_two(shape) {
        let dropped = Move {
            pops: above + 1,
            pushes: above,
        };
        moved(peak, dropped)
    } else {
        Some(peak)
    }
}

/// The arguments of small types that have two cells are cut, from the last to the first; so many cells of later
/// arguments stand above each.
fn cut(peak: Peak, kinds: &[Kind], shapes: &[Shape]) -> Option<Peak>
    ensures { IfSome result (λ after. (sig : Sig) (rest : List Emitted) → most_emitted sig after rest ≡ most_emitted sig peak (cut_arguments 0 (reverse kinds.now) shapes.now ++ rest)) }
{
    let mut after = peak;
    let mut above = 0;
    for position in 0..kinds.len().min(shapes.len()) {
        let kind = &kinds[kinds.len() - 1 - position];
        after = match cut_one(after, kind, shapes[position], above) {
            Some(after) => after,
            None => return None,
        };
        above += passed_cells(kind);
    }
    Some(after)
}

/// The greatest number of operand cells at a call, from so many cells before it; `None` where a number does not fit.
pub(crate) fn most_of_call(
    height: u64,
    instance: bool,
    used: &MethodUse,
    before: &[Shape],
    after: Shape,
) -> Option<u64>
    ensures { IfSome result (λ most. (insn : MInsn) → effect_of insn (signature_used instance used.now) ≡ called_of (signature_used instance used.now) → most ≡ most_operands (signature_used instance used.now) height (cut_arguments 0 (reverse used.now.descriptor.params) before.now ++ (alone insn ++ option_map_or (λ result. read_as_of result after) used.now.descriptor.result []))) }
{
    let start = Peak {
        height,
        most: height,
    };
    match cut(start, used.descriptor.params.as_slice(), before) {
        Some(peak) => most_cells(peak, &called(instance, used, after)),
        None => None,
    }
}
