//! Bodies of a set of classes, and a refusal of what its code names.

use body_form::{Body, FieldUse, Guard, MethodUse, Op};
use body_make::{LinkCause, LinkRefusal, bodies};
use class_file::{ClassFile, CodeAttr, HandlerRow};
use class_make::{ClassDraft, DraftRefusal};
use class_pool::{Const, Kind, MemberId};
use class_tree::gather;
use insn_form::StackForm;
use item_list::Items;
use std::alloc::Global;
use std::test::*;

/// ACC_PUBLIC and ACC_STATIC.
const PUBLIC_STATIC: u16 = 0x0009;

const OBJECT: &[u8] = b"java/lang/Object";

/// The index of a text in the pool of a draft.
fn text(alloc: Global, draft: &mut ClassDraft, bytes: &[u8]) -> Result<u16, DraftRefusal> {
    let text = Items::from_vec(Vec::from_slice(alloc, bytes)?);
    draft.constant(alloc, Const::Utf8(text))
}

/// The index of a class in the pool of a draft.
fn class(alloc: Global, draft: &mut ClassDraft, name: &[u8]) -> Result<u16, DraftRefusal> {
    let name = text(alloc, draft, name)?;
    draft.constant(alloc, Const::Class(name))
}

/// The index of a name and a descriptor in the pool of a draft.
fn named(
    alloc: Global,
    draft: &mut ClassDraft,
    name: &[u8],
    descriptor: &[u8],
) -> Result<u16, DraftRefusal> {
    let name = text(alloc, draft, name)?;
    let descriptor = text(alloc, draft, descriptor)?;
    draft.constant(alloc, Const::NameAndType(name, descriptor))
}

/// The low and the high byte of an index, the high one first.
fn two(index: u16) -> [u8; 2] {
    index.to_be_bytes()
}

/// `getstatic B.size`, `invokestatic B.take`, these three bytes, a getstatic that names a method, `pop`, `return`;
/// with a handler of `java/lang/Exception` at the pop.
fn main_code(
    alloc: Global,
    draft: &mut ClassDraft,
    between: &[u8],
) -> Result<CodeAttr, DraftRefusal> {
    let owner = class(alloc, draft, b"B")?;
    let size = named(alloc, draft, b"size", b"I")?;
    let take = named(alloc, draft, b"take", b"(I)V")?;
    let size = draft.constant(alloc, Const::Field(owner, size))?;
    let take = draft.constant(alloc, Const::Method(owner, take))?;
    let caught = class(alloc, draft, b"java/lang/Exception")?;
    let mut code = Vec::new(alloc);
    code.push(0xb2)?;
    code.extend_from_slice(&two(size))?;
    code.push(0xb8)?;
    code.extend_from_slice(&two(take))?;
    code.extend_from_slice(between)?;
    code.push(0xb2)?;
    code.extend_from_slice(&two(take))?;
    code.extend_from_slice(&[0x57, 0xb1])?;
    let rows = [HandlerRow {
        start: 0,
        end: 6,
        target: 12,
        catch_type: caught,
    }];
    Ok(CodeAttr {
        max_stack: 1,
        max_locals: 0,
        code: Items::from_vec(code),
        handlers: Items::from_vec(Vec::from_slice(alloc, &rows)?),
    })
}

/// The class `A` of main.
fn main_class(alloc: Global, between: &[u8]) -> Result<ClassFile, DraftRefusal> {
    let mut draft = ClassDraft::new(alloc, b"A", OBJECT)?;
    let code = main_code(alloc, &mut draft, between)?;
    draft.add_method(alloc, PUBLIC_STATIC, b"main", b"()V", code)?;
    draft.finish(alloc)
}

/// The class `B` of the field and of the method.
fn other_class(alloc: Global) -> Result<ClassFile, DraftRefusal> {
    let mut draft = ClassDraft::new(alloc, b"B", OBJECT)?;
    draft.add_field(alloc, PUBLIC_STATIC, b"size", b"I")?;
    let code = CodeAttr {
        max_stack: 0,
        max_locals: 1,
        code: Items::from_vec(Vec::from_slice(alloc, &[0xb1])?),
        handlers: Items::empty(alloc),
    };
    draft.add_method(alloc, PUBLIC_STATIC, b"take", b"(I)V", code)?;
    draft.finish(alloc)
}

/// What `bodies` answers for both classes, where they are a set.
fn answer(
    alloc: Global,
    between: &[u8],
) -> Result<Option<Result<Vec<Body>, LinkRefusal>>, DraftRefusal> {
    let mut files = Vec::new(alloc);
    files.push(main_class(alloc, between)?)?;
    files.push(other_class(alloc)?)?;
    match gather(alloc, files) {
        Ok(set) => Ok(Some(bodies(alloc, &set))),
        Err(_) => Ok(None),
    }
}

/// The member at position 0 of `B`.
const FIRST: MemberId = MemberId {
    class: 33,
    member: 0,
};

/// The field that main reads.
fn is_field(field: &FieldUse) -> bool {
    field.field == FIRST && field.class == 33 && matches!(field.kind, Kind::Int)
}

/// The method that main calls.
fn is_call(call: &MethodUse) -> bool {
    call.method == FIRST
        && call.class == 33
        && !call.private
        && call.name.as_slice() == b"take".as_slice()
        && call.descriptor.params.len() == 1
}

/// The instructions of main, of which that at 9 is not reached.
fn has_main_ops(body: &Body) -> bool {
    match body.ops.as_slice() {
        [
            (read, Op::GetStatic(field)),
            (called, Op::CallStatic(call)),
            (left, Op::Goto(target)),
            (skipped, Op::Nop),
            (caught, Op::Stack(StackForm::Pop)),
            (last, Op::Return(None)),
        ] => {
            [*read, *called, *left, *skipped, *caught, *last] == [0, 3, 6, 9, 12, 13]
                && *target == 13
                && is_field(field)
                && is_call(call)
        }
        _ => false,
    }
}

const GUARD: Guard = Guard {
    start: 0,
    end: 6,
    target: 12,
    class: Some(2),
};

/// A body by its class, its method, its locals and how many parameters it has.
fn stands_at(body: &Body, class: u16, max_locals: u16, params: usize) -> bool {
    body.class == class
        && body.method == 0
        && !body.instance
        && body.max_locals == max_locals
        && body.params.len() == params
        && body.result.is_none()
}

fn are_both(bodies: &[Body]) -> bool {
    match bodies {
        [first, second] => {
            stands_at(first, 32, 0, 0)
                && has_main_ops(first)
                && first.handlers.as_slice() == [GUARD].as_slice()
                && stands_at(second, 33, 1, 1)
                && second.ops.as_slice().len() == 1
        }
        _ => false,
    }
}

#[test]
fn makes_the_bodies_of_two_classes(rt: HostRuntime) -> Result<(), Fail> {
    let Ok(Some(Ok(bodies))) = answer(rt.alloc(), &[0xa7, 0x00, 0x07]) else {
        return Err("the classes stand together".into());
    };
    assert!(rt; are_both(bodies.as_slice()));
    Ok(())
}

/// Three nops reach what the jump leaves out.
#[test]
fn refuses_a_method_as_a_field(rt: HostRuntime) -> Result<(), Fail> {
    let Ok(Some(Err(why))) = answer(rt.alloc(), &[0x00, 0x00, 0x00]) else {
        return Err("the classes are a set, and a field is no method".into());
    };
    assert_eq!(rt;
        why,
        LinkRefusal {
            cause: LinkCause::WrongKind,
            file: 0,
            member: 0,
            pc: 9,
            value: 0,
        }
    );
    Ok(())
}
