//! What declared types are kept in.

ghost use Rattle.std.specs.Prelude.{◌≡◌, ◌≤◌};
ghost use Rattle.jvm_model.specs.WidthsSlots.{passed_cells as cells_passed, is_small as is_small_kind};
ghost use Rattle.jvm_model.specs.ImageExpansion.{kind_in as kept_in};

use class_pool::Kind as DeclaredKind;
use image_instr::Kind;

/// The cells in which a value of a type is passed and kept: two of an int, one of a small type, none of a reference.
pub fn passed_cells(kind: &DeclaredKind) -> u16
    ensures value { result ≡ cells_passed kind.now }
    ensures most { result ≤ 2 }
{
    match kind {
        DeclaredKind::Int => 2,
        DeclaredKind::Byte | DeclaredKind::Char | DeclaredKind::Short | DeclaredKind::Boolean => 1,
        DeclaredKind::Double
        | DeclaredKind::Float
        | DeclaredKind::Long
        | DeclaredKind::Class(_)
        | DeclaredKind::Array { .. } => 0,
    }
}

/// A byte, a char, a short or a boolean.
pub fn is_small(kind: &DeclaredKind) -> bool
    ensures { result ≡ is_small_kind kind.now }
{
    passed_cells(kind) == 1
}

/// What a value of a type is kept in.
pub fn kind_in(kind: &DeclaredKind) -> Kind
    ensures { result ≡ kept_in kind.now }
{
    match kind {
        DeclaredKind::Int => Kind::Two,
        DeclaredKind::Byte | DeclaredKind::Char | DeclaredKind::Short | DeclaredKind::Boolean => {
            Kind::One
        }
        DeclaredKind::Double
        | DeclaredKind::Float
        | DeclaredKind::Long
        | DeclaredKind::Class(_)
        | DeclaredKind::Array { .. } => Kind::Ref,
    }
}
