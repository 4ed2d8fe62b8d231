//! What static fields hold before main starts.

ghost use Rattle.std.specs.Prelude.{◌≡◌, ◌++◌, true, nat_eq, option_map, OnOk, IfOk};
ghost use Rattle.std.specs.Option.{option_or};
ghost use Rattle.class_tree.specs.Members.{in_file};
ghost use Rattle.jvm_model.specs.Initialisers.{is_whole_kind};
ghost use Rattle.jvm_model.specs.InitialStatics.{narrowed as narrowed_of, constant_of, kept};
ghost use Rattle.jvm_model.specs.ImageNumbering.{cells_of_value};
ghost use Rattle.jvm_model.specs.State.{Whole};
ghost use Rattle.jvm_model.specs.WidthsSlots.{passed_cells};
ghost use Rattle.infuse_ids.specs.Writes.{last_set, pushed_of};

use crate::pushed::Pushed;
use crate::texts::text_at;
use crate::writes::LastWrites;
use cell_num::{Conv, convert, low, split};
use class_file::Member;
use class_pool::{Kind, Pool};
use std::alloc::{AllocError, Global};

/// What a write to a field of a type keeps of a number.
fn narrowed(kind: &Kind, number: i32) -> i32
    ensures { result ≡ narrowed_of kind.now number }
{
    match kind {
        Kind::Byte => convert(Conv::Byte, number),
        Kind::Char => convert(Conv::Char, number),
        Kind::Short => convert(Conv::Short, number),
        Kind::Boolean => (number.cast_unsigned() % 2) as i32,
        _ => number,
    }
}

/// The constant of a field, where it has one.
fn constant(pool: &Pool, field: &Member) -> Option<Pushed>
    ensures { option_map pushed_of result ≡ constant_of pool.now field.now }
{
    Some(Pushed::Number(pool.integer(field.constant?)?))
}

/// What a field of a whole number keeps of what it is set to.
#[tactic(auto, using(crate::proofs::KeptNumbers::kept_none, crate::proofs::KeptNumbers::kept_null, crate::proofs::KeptNumbers::kept_some))]
fn kept_number(kind: &Kind, pushed: Option<Pushed>) -> i32
    requires { is_whole_kind kind.now ≡ true }
    ensures { kept kind.now (option_map pushed_of pushed) ≡ Whole result }
{
    match pushed {
        Some(Pushed::Number(number)) => narrowed(kind, number),
        _ => 0,
    }
}

/// What a field is set to last: by the initialiser, or else by its constant.
fn last_pushed(
    alloc: Global,
    pool: &Pool,
    field: &Member,
    writes: &LastWrites,
) -> Result<Option<Pushed>, AllocError>
    ensures { IfOk result (λ found. option_map pushed_of found ≡ option_or (last_set writes.now (in_file pool.now field.now).name (in_file pool.now field.now).descriptor) (constant_of pool.now field.now)) }
{
    match writes.of(
        alloc,
        text_at(pool, field.name),
        text_at(pool, field.descriptor),
    )? {
        Some(pushed) => Ok(Some(pushed)),
        None => Ok(constant(pool, field)),
    }
}

/// A number in a field of this type takes two cells.
fn has_two(kind: &Kind) -> bool
    ensures { result ≡ nat_eq (passed_cells kind.now) 2 }
{
    matches!(kind, Kind::Int)
}

/// Adds the cells of a number in a field of a type: two of an int, one of a small type.
#[tactic(auto, using(crate::proofs::KeptNumbers::two_cells, crate::proofs::KeptNumbers::one_cell))]
fn add_cells(kind: &Kind, number: i32, cells: &mut Vec<u16>) -> Result<(), AllocError>
    ensures { OnOk result (cells.new.items ≡ cells.old.items ++ cells_of_value kind.now (Whole number)) }
{
    if has_two(kind) {
        let (first, second) = split(number);
        cells.push(first)?;
        cells.push(second)?;
        return Ok(());
    }
    cells.push(low(number))?;
    Ok(())
}

/// Adds the cells of a static field of a whole number.
pub(crate) fn add_static(
    alloc: Global,
    pool: &Pool,
    kind: &Kind,
    field: &Member,
    writes: &LastWrites,
    cells: &mut Vec<u16>,
) -> Result<(), AllocError>
    requires { is_whole_kind kind.now ≡ true }
    ensures { OnOk result (cells.new.items ≡ cells.old.items ++ cells_of_value kind.now (kept kind.now (option_or (last_set writes.now (in_file pool.now field.now).name (in_file pool.now field.now).descriptor) (constant_of pool.now field.now)))) }
{
    match last_pushed(alloc, pool, field, writes) {
        Ok(pushed) => match add_cells(kind, kept_number(kind, pushed), cells) {
            Ok(()) => Ok(()),
            Err(why) => Err(why),
        },
        Err(why) => Err(why),
    }
}
