//! What operands are kept in, and how much of it.

ghost use Rattle.std.specs.Prelude.{◌≡◌, ◌≤◌, ◌*◌, length, take, drop};
ghost use Rattle.image_instr.specs.Effect.{refs_of as refs_kept, cells_of as cells_kept};
ghost use Rattle.jvm_model.specs.WidthsShapes.{kind_of_width as kind_with_width};
ghost use Rattle.jvm_model.specs.ImageExpansion.{is_one as is_one_cell, is_two as is_two_cells, width_of as width_kept, top_of as top_kept, second_of as second_kept, refs_in as refs_kept_in, cells_in as cells_kept_in};

use image_instr::{Kind, Width};

pub(crate) fn is_one(shape: Kind) -> bool
    ensures { result ≡ is_one_cell shape }
{
    match shape {
        Kind::One => true,
        Kind::Ref | Kind::Two => false,
    }
}

pub(crate) fn is_two(shape: Kind) -> bool
    ensures { result ≡ is_two_cells shape }
{
    match shape {
        Kind::Two => true,
        Kind::Ref | Kind::One => false,
    }
}

/// The width of a whole number.
pub(crate) fn width_of(shape: Kind) -> Width
    ensures { result ≡ width_kept shape }
{
    match shape {
        Kind::One => Width::One,
        Kind::Ref | Kind::Two => Width::Two,
    }
}

/// What holds a whole number of a width.
pub(crate) fn kind_of_width(width: Width) -> Kind
    ensures { result ≡ kind_with_width width }
{
    match width {
        Width::One => Kind::One,
        Width::Two => Kind::Two,
    }
}

/// The top of the operands.
pub(crate) fn top_of(shapes: &[Kind]) -> Kind
    ensures { result ≡ top_kept shapes.now }
{
    match shapes.first() {
        Some(shape) => *shape,
        None => Kind::Ref,
    }
}

/// The operand below the top.
pub(crate) fn second_of(shapes: &[Kind]) -> Kind
    ensures { result ≡ second_kept shapes.now }
{
    match shapes.get(1) {
        Some(shape) => *shape,
        None => Kind::Ref,
    }
}

fn refs_of(shape: Kind) -> u8
    ensures value { result ≡ refs_kept shape }
    ensures most { result ≤ 1 }
{
    match shape {
        Kind::Ref => 1,
        Kind::One | Kind::Two => 0,
    }
}

pub(crate) fn cells_of(shape: Kind) -> u8
    ensures value { result ≡ cells_kept shape }
    ensures most { result ≤ 2 }
{
    match shape {
        Kind::Ref => 0,
        Kind::One => 1,
        Kind::Two => 2,
    }
}

/// The operands of which some are above, as many as there are and no more than the count.
#[tactic(auto, using(crate::proofs::Windows::window_is, crate::proofs::Windows::window_length))]
pub(crate) fn window(shapes: &[Kind], above: usize, count: usize) -> &[Kind]
    requires { count ≤ 2 }
    ensures value { result.now ≡ take count (drop above shapes.now) }
    ensures most { length result.now ≤ 2 }
{
    let from = above.min(shapes.len());
    let rest = &shapes[from..];
    &rest[..count.min(rest.len())]
}

/// How many operands are references.
pub(crate) fn refs_in(shapes: &[Kind]) -> u8
    requires { length shapes.now ≤ 2 }
    ensures { result ≡ refs_kept_in shapes.now }
{
    let mut refs = 0;
    for shape in shapes {
        refs += refs_of(*shape);
    }
    refs
}

/// How many cells the others take.
pub(crate) fn cells_in(shapes: &[Kind]) -> u8
    requires { length shapes.now ≤ 2 }
    ensures { result ≡ cells_kept_in shapes.now }
{
    let mut cells = 0;
    for shape in shapes {
        cells += cells_of(*shape);
    }
    cells
}
