//! Closed sets of classes: what they tell, and what files are refused for.

ghost use Rattle.std.specs.Prelude.{◌≡◌};
ghost use Rattle.class_pool.specs.declared.types.TypeBase.TheVariants.{Class};

use class_file::ClassFile;
use class_make::{ClassDraft, DraftRefusal};
use class_pool::{Const, TypeBase, TypeRef};
use class_tree::{ClassSet, TreeRefusal, gather, is_subtype};
use item_list::Items;
use std::alloc::Global;
use std::test::*;

/// ACC_PUBLIC and ACC_SUPER.
const CLASS: u16 = 0x0021;

/// ACC_PUBLIC, ACC_INTERFACE and ACC_ABSTRACT.
const INTERFACE: u16 = 0x0601;

/// ACC_PUBLIC, ACC_FINAL and ACC_SUPER.
const FINAL: u16 = 0x0031;

/// A class: its flags, its name, its superclass, a superinterface where it is not empty, and the descriptor
/// of its one field.
#[derive(Clone, Copy)]
struct Row(
    u16,
    &'static [u8],
    &'static [u8],
    &'static [u8],
    &'static [u8],
);

const OBJECT: &[u8] = b"java/lang/Object";

/// The record of a class.
fn file_of(alloc: Global, row: Row) -> Result<ClassFile, DraftRefusal> {
    let Row(flags, name, superclass, interface, descriptor) = row;
    let mut draft = ClassDraft::new(alloc, name, superclass)?;
    draft.add_field(alloc, 0x0001, b"f", descriptor)?;
    let mut interfaces = Vec::new(alloc);
    if !interface.is_empty() {
        let text = Items::from_vec(Vec::from_slice(alloc, interface)?);
        let text = draft.constant(alloc, Const::Utf8(text))?;
        let index = draft.constant(alloc, Const::Class(text))?;
        interfaces.push(index)?;
    }
    let mut file = draft.finish(alloc)?;
    file.flags = flags;
    file.interfaces = Items::from_vec(interfaces);
    Ok(file)
}

/// The set of these classes.
fn set_of(alloc: Global, rows: &[Row]) -> Result<Result<ClassSet, TreeRefusal>, DraftRefusal> {
    let mut files = Vec::new(alloc);
    for row in rows {
        files.push(file_of(alloc, *row)?)?;
    }
    Ok(gather(alloc, files))
}

/// What these classes are refused for.
fn refusal_of(alloc: Global, rows: &[Row]) -> Result<Option<TreeRefusal>, DraftRefusal> {
    match set_of(alloc, rows)? {
        Ok(_) => Ok(None),
        Err(why) => Ok(Some(why)),
    }
}

fn class(class: u16) -> TypeRef
    ensures { result ≡ record { dims = 0; base = Class class } }
{
    TypeRef {
        dims: 0,
        base: TypeBase::Class(class),
    }
}

fn array(base: TypeBase) -> TypeRef
    ensures { result ≡ record { dims = 1; base = base } }
{
    TypeRef { dims: 1, base }
}

#[test]
fn tells_the_classes_of_a_set(rt: HostRuntime) -> Result<(), Fail> {
    let rows = [
        Row(CLASS, b"a/Base", OBJECT, b"", b"I"),
        Row(INTERFACE, b"a/Named", OBJECT, b"", b"[B"),
        Row(CLASS, b"Leaf", b"a/Base", b"a/Named", b"[La/Base;"),
    ];
    let Ok(set) = set_of(rt.alloc(), &rows)? else {
        return Err("the set is closed".into());
    };
    assert_eq!(rt; set.file_count(), 3);
    assert_eq!(rt; set.number_of(b"Leaf"), Some(34));
    assert_eq!(rt; set.number_of(b"mote/Console"), Some(14));
    assert_eq!(rt; set.number_of(b"Absent"), None);
    assert_eq!(rt; set.name_of(33), b"a/Named".as_slice());
    assert_eq!(rt;
        set.name_of(10),
        b"java/lang/ArrayIndexOutOfBoundsException".as_slice()
    );
    assert_eq!(rt; set.file(33).flags, INTERFACE);
    assert!(rt; is_subtype(&set, class(34), class(32)) && is_subtype(&set, class(34), class(33)));
    assert!(rt; is_subtype(&set, class(34), class(0)) && !is_subtype(&set, class(32), class(34)));
    assert!(rt; is_subtype(&set, array(TypeBase::Class(34)), array(TypeBase::Class(33))));
    assert!(rt; is_subtype(&set, array(TypeBase::Int), class(0)));
    assert!(rt; !is_subtype(&set, array(TypeBase::Int), array(TypeBase::Class(0))));
    Ok(())
}

#[test]
fn refuses_what_is_no_closed_set(rt: HostRuntime) -> Result<(), Fail> {
    let base = Row(CLASS, b"A", OBJECT, b"", b"I");
    let face = Row(INTERFACE, b"F", OBJECT, b"", b"I");
    let last = Row(FINAL, b"Z", OBJECT, b"", b"I");
    let cases = [
        ([base, base], TreeRefusal::Duplicate { file: 1 }),
        (
            [base, Row(CLASS, b"java/B", OBJECT, b"", b"I")],
            TreeRefusal::Reserved { file: 1 },
        ),
        (
            [base, Row(CLASS, b"B", b"Absent", b"", b"I")],
            TreeRefusal::MissingClass {
                file: 1,
                member: 0,
                value: 0,
            },
        ),
        (
            [face, Row(CLASS, b"B", b"F", b"", b"I")],
            TreeRefusal::BadSuper { file: 1 },
        ),
        (
            [last, Row(CLASS, b"B", b"Z", b"", b"I")],
            TreeRefusal::BadSuper { file: 1 },
        ),
        (
            [base, Row(CLASS, b"B", OBJECT, b"A", b"I")],
            TreeRefusal::BadSuper { file: 1 },
        ),
        (
            [base, Row(INTERFACE, b"G", b"A", b"", b"I")],
            TreeRefusal::BadSuper { file: 1 },
        ),
        (
            [base, Row(CLASS, b"B", b"B", b"", b"I")],
            TreeRefusal::Circular { file: 1 },
        ),
        (
            [
                Row(CLASS, b"C", b"D", b"", b"I"),
                Row(CLASS, b"D", b"C", b"", b"I"),
            ],
            TreeRefusal::Circular { file: 0 },
        ),
        (
            [base, Row(CLASS, b"B", OBJECT, b"", b"[LAbsent;")],
            TreeRefusal::MissingClass {
                file: 1,
                member: 0,
                value: 1,
            },
        ),
        (
            [base, Row(CLASS, b"B", OBJECT, b"", b"[[J")],
            TreeRefusal::WideType {
                file: 1,
                member: 0,
                value: 1,
            },
        ),
    ];
    for (rows, want) in &cases {
        assert_eq!(rt; refusal_of(rt.alloc(), rows)?, Some(*want));
    }
    Ok(())
}
