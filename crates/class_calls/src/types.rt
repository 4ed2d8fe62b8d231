//! The types of bodies of a set: what is known before each instruction, by pc.

ghost use Rattle.std.specs.Prelude.{IfOk};
ghost use Rattle.code_reach.specs.Reached.{RisesFrom};

use body_form::VType;
use body_make::bodies;
use class_file::{ClassFile, CodeAttr, HandlerRow};
use class_make::{ClassDraft, DraftRefusal};
use class_pool::{Const, TypeBase, TypeRef};
use class_tree::gather;
use flow_verify::verify;
use item_list::Items;
use std::alloc::{AllocError, Global};
use std::test::*;
use type_table::Types;

/// ACC_PUBLIC, and ACC_STATIC beside it (JVMS table 4.6-A).
const PUBLIC: u16 = 0x0001;

const PUBLIC_STATIC: u16 = 0x0009;

const OBJECT: &[u8] = b"java/lang/Object";

// ---- classes

/// The index of a text in the pool of a draft.
fn text(alloc: Global, draft: &mut ClassDraft, bytes: &[u8]) -> Result<u16, DraftRefusal> {
    let text = Items::from_vec(Vec::from_slice(alloc, bytes)?);
    draft.constant(alloc, Const::Utf8(text))
}

/// The index of a class in the pool of a draft.
fn class(alloc: Global, draft: &mut ClassDraft, name: &[u8]) -> Result<u16, DraftRefusal> {
    let name = text(alloc, draft, name)?;
    draft.constant(alloc, Const::Class(name))
}

/// Code of two operands and four locals at most.
fn code(alloc: Global, bytes: &[u8], rows: &[HandlerRow]) -> Result<CodeAttr, AllocError> {
    Ok(CodeAttr {
        max_stack: 2,
        max_locals: 4,
        code: Items::from_vec(Vec::from_slice(alloc, bytes)?),
        handlers: Items::from_vec(Vec::from_slice(alloc, rows)?),
    })
}

/// The first or the second argument, as the third says, is stored in local 3. Then the second one is stored over the
/// first, with a handler of `java/lang/Exception` at that instruction alone.
const PICK: &[u8] = &[
    0x1c, 0x99, 0x00, 0x07, 0x2a, 0xa7, 0x00, 0x04, 0x2b, 0x4e, 0x2b, 0x4b, 0x2d, 0xb0, 0x57, 0x2a,
    0xb0,
];

/// The class `Main`, of main and of `pick`.
fn main_class(alloc: Global) -> Result<ClassFile, DraftRefusal> {
    let mut draft = ClassDraft::new(alloc, b"Main", OBJECT)?;
    draft.add_method(
        alloc,
        PUBLIC_STATIC,
        b"main",
        b"()V",
        code(alloc, &[0xb1], &[])?,
    )?;
    let row = HandlerRow {
        start: 11,
        end: 12,
        target: 14,
        catch_type: class(alloc, &mut draft, b"java/lang/Exception")?,
    };
    draft.add_method(
        alloc,
        PUBLIC_STATIC,
        b"pick",
        b"(LLeft;LRight;I)LBase;",
        code(alloc, PICK, &[row])?,
    )?;
    draft.finish(alloc)
}

/// The class `Base`, with a constructor that calls that of Object.
fn base_class(alloc: Global) -> Result<ClassFile, DraftRefusal> {
    let mut draft = ClassDraft::new(alloc, b"Base", OBJECT)?;
    let owner = class(alloc, &mut draft, OBJECT)?;
    let name = text(alloc, &mut draft, b"<init>")?;
    let descriptor = text(alloc, &mut draft, b"()V")?;
    let member = draft.constant(alloc, Const::NameAndType(name, descriptor))?;
    let called = draft.constant(alloc, Const::Method(owner, member))?;
    let [high, low] = called.to_be_bytes();
    draft.add_method(
        alloc,
        PUBLIC,
        b"<init>",
        b"()V",
        code(alloc, &[0x2a, 0xb7, high, low, 0xb1], &[])?,
    )?;
    draft.finish(alloc)
}

/// `Main`, `Base`, and the classes `Left` and `Right` below it: the classes of the numbers from 32 on.
fn files(alloc: Global) -> Result<Vec<ClassFile>, DraftRefusal> {
    let mut files = Vec::new(alloc);
    files.push(main_class(alloc)?)?;
    files.push(base_class(alloc)?)?;
    for name in [b"Left".as_slice(), b"Right".as_slice()] {
        files.push(ClassDraft::new(alloc, name, b"Base")?.finish(alloc)?)?;
    }
    Ok(files)
}

/// The types of the body at a position among those of the set.
fn types_of(alloc: Global, files: Vec<ClassFile>, position: usize) -> Result<Types, Fail>
    ensures { IfOk result (RisesFrom 0) }
{
    let Ok(set) = gather(alloc, files) else {
        return Err("the classes are a set".into());
    };
    let Ok(bodies) = bodies(alloc, &set) else {
        return Err("the classes stand together".into());
    };
    let Some(body) = bodies.get(position) else {
        return Err("a body is at the position".into());
    };
    match verify(alloc, &set, body) {
        Ok(types) => Ok(types),
        Err(_) => Err("the body has types".into()),
    }
}

// ---- what is known

/// A reference to an object of `java/lang/Exception`.
const CAUGHT: VType = VType::Ref(TypeRef {
    dims: 0,
    base: TypeBase::Class(2),
});

const BASE: VType = VType::Ref(TypeRef {
    dims: 0,
    base: TypeBase::Class(33),
});

const LEFT: VType = VType::Ref(TypeRef {
    dims: 0,
    base: TypeBase::Class(34),
});

const RIGHT: VType = VType::Ref(TypeRef {
    dims: 0,
    base: TypeBase::Class(35),
});

const AT_START: &[VType] = &[LEFT, RIGHT, VType::Int, VType::Top];

const PICKED: &[VType] = &[LEFT, RIGHT, VType::Int, BASE];

const STORED: &[VType] = &[RIGHT, RIGHT, VType::Int, BASE];

/// The first local is what it is before or after the store.
const HANDLED: &[VType] = &[BASE, RIGHT, VType::Int, BASE];

const UNCALLED: &[VType] = &[VType::This, VType::Top, VType::Top, VType::Top];

const CALLED: &[VType] = &[BASE, VType::Top, VType::Top, VType::Top];

const NONE: &[VType] = &[];

const ONE_INT: &[VType] = &[VType::Int];

const ONE_LEFT: &[VType] = &[LEFT];

const ONE_RIGHT: &[VType] = &[RIGHT];

const ONE_BASE: &[VType] = &[BASE];

const ONE_CAUGHT: &[VType] = &[CAUGHT];

const ONE_THIS: &[VType] = &[VType::This];

/// A pc, and what is known there: the locals, the operands, and whether a constructor has yet to call another one.
type Row = (u32, &'static [VType], &'static [VType], bool);

const OF_PICK: &[Row] = &[
    (0, AT_START, NONE, false),
    (1, AT_START, ONE_INT, false),
    (4, AT_START, NONE, false),
    (5, AT_START, ONE_LEFT, false),
    (8, AT_START, NONE, false),
    (9, AT_START, ONE_BASE, false),
    (10, PICKED, NONE, false),
    (11, PICKED, ONE_RIGHT, false),
    (12, STORED, NONE, false),
    (13, STORED, ONE_BASE, false),
    (14, HANDLED, ONE_CAUGHT, false),
    (15, HANDLED, NONE, false),
    (16, HANDLED, ONE_BASE, false),
];

const OF_CONSTRUCTOR: &[Row] = &[
    (0, UNCALLED, NONE, true),
    (1, UNCALLED, ONE_THIS, true),
    (4, CALLED, NONE, false),
];

/// The row at an index is this one.
fn has_row(alloc: Global, types: &Types, index: usize, want: &Row) -> Result<bool, AllocError> {
    match types.frame_at(alloc, index)? {
        Some(frame) => {
            Ok(
                types.pc_at(index) == Some(want.0)
                    && frame.locals.as_slice() == want.1
                    && frame.stack.as_slice() == want.2
                    && frame.pending == want.3,
            )
        }
        None => Ok(false),
    }
}

/// The rows are these.
fn has_rows(alloc: Global, types: &Types, rows: &[Row]) -> Result<bool, AllocError> {
    for (index, row) in rows.iter().enumerate() {
        if !has_row(alloc, types, index, row)? {
            return Ok(false);
        }
    }
    Ok(types.len() == rows.len())
}

#[test]
fn knows_the_types_of_a_merge_and_of_a_handler(rt: HostRuntime) -> Result<(), Fail> {
    let types = types_of(rt.alloc(), files(rt.alloc())?, 1)?;
    assert!(rt; has_rows(rt.alloc(), &types, OF_PICK)?);
    let handler = types
        .frame(rt.alloc(), 14)?
        .ok_or("the handler is reached")?;
    assert_eq!(rt; handler.locals.as_slice(), HANDLED);
    assert!(rt; types.frame(rt.alloc(), 2)?.is_none());
    Ok(())
}

#[test]
fn knows_when_a_constructor_has_called_another_one(rt: HostRuntime) -> Result<(), Fail> {
    let types = types_of(rt.alloc(), files(rt.alloc())?, 2)?;
    assert!(rt; has_rows(rt.alloc(), &types, OF_CONSTRUCTOR)?);
    Ok(())
}
