//! Class files that are written and drafted, and records of none.

ghost use Rattle.std.specs.Prelude.{IfOk};
ghost use Rattle.class_file.specs.Relation.{IsRecord};

use class_file::{ClassFile, CodeAttr, HandlerRow, read_class};
use class_make::{ClassDraft, DraftRefusal, write_class};
use class_pool::Const;
use item_list::Items;
use std::alloc::{AllocError, Global};
use std::test::*;

/// A class `Hi` whose main writes two letters.
const HI: &[u8] = &[
    0xca, 0xfe, 0xba, 0xbe, 0x00, 0x00, 0x00, 0x34, 0x00, 0x0e, 0x01, 0x00, 0x02, 0x48, 0x69, 0x07,
    0x00, 0x01, 0x01, 0x00, 0x10, 0x6a, 0x61, 0x76, 0x61, 0x2f, 0x6c, 0x61, 0x6e, 0x67, 0x2f, 0x4f,
    0x62, 0x6a, 0x65, 0x63, 0x74, 0x07, 0x00, 0x03, 0x01, 0x00, 0x0c, 0x6d, 0x6f, 0x74, 0x65, 0x2f,
    0x43, 0x6f, 0x6e, 0x73, 0x6f, 0x6c, 0x65, 0x07, 0x00, 0x05, 0x01, 0x00, 0x05, 0x77, 0x72, 0x69,
    0x74, 0x65, 0x01, 0x00, 0x04, 0x28, 0x49, 0x29, 0x56, 0x0c, 0x00, 0x07, 0x00, 0x08, 0x0a, 0x00,
    0x06, 0x00, 0x09, 0x01, 0x00, 0x04, 0x6d, 0x61, 0x69, 0x6e, 0x01, 0x00, 0x03, 0x28, 0x29, 0x56,
    0x01, 0x00, 0x04, 0x43, 0x6f, 0x64, 0x65, 0x00, 0x21, 0x00, 0x02, 0x00, 0x04, 0x00, 0x00, 0x00,
    0x00, 0x00, 0x01, 0x00, 0x09, 0x00, 0x0b, 0x00, 0x0c, 0x00, 0x01, 0x00, 0x0d, 0x00, 0x00, 0x00,
    0x17, 0x00, 0x01, 0x00, 0x00, 0x00, 0x00, 0x00, 0x0b, 0x10, 0x48, 0xb8, 0x00, 0x0a, 0x10, 0x69,
    0xb8, 0x00, 0x0a, 0xb1, 0x00, 0x00, 0x00, 0x00, 0x00, 0x00,
];

/// ACC_PUBLIC, and ACC_STATIC beside it (JVMS table 4.6-A).
const PUBLIC: u16 = 1;

const PUBLIC_STATIC: u16 = 9;

fn text(alloc: Global, bytes: &[u8]) -> Result<Const, AllocError> {
    Ok(Const::Utf8(Items::from_vec(Vec::from_slice(alloc, bytes)?)))
}

/// Code without handlers.
fn code(alloc: Global, bytes: &[u8]) -> Result<CodeAttr, AllocError> {
    Ok(CodeAttr {
        max_stack: 1,
        max_locals: 1,
        code: Items::from_vec(Vec::from_slice(alloc, bytes)?),
        handlers: Items::empty(alloc),
    })
}

fn read(alloc: Global, bytes: &[u8]) -> Result<ClassFile, Fail> {
    match read_class(alloc, bytes) {
        Ok(file) => Ok(file),
        Err(_) => Err("the bytes are a class file".into()),
    }
}

/// The two records are alike in all that they have.
fn is_same_class(alloc: Global, a: &ClassFile, b: &ClassFile) -> Result<bool, AllocError> {
    let a = format!(in alloc; "{a:?}")?;
    let b = format!(in alloc; "{b:?}")?;
    Ok(a.as_str() == b.as_str())
}

/// The index of a method of a class, which is added with all that it names.
fn method_index(
    alloc: Global,
    draft: &mut ClassDraft,
    class: &[u8],
    name: &[u8],
    descriptor: &[u8],
) -> Result<u16, DraftRefusal> {
    let class = draft.constant(alloc, text(alloc, class)?)?;
    let class = draft.constant(alloc, Const::Class(class))?;
    let name = draft.constant(alloc, text(alloc, name)?)?;
    let descriptor = draft.constant(alloc, text(alloc, descriptor)?)?;
    let member = draft.constant(alloc, Const::NameAndType(name, descriptor))?;
    draft.constant(alloc, Const::Method(class, member))
}

#[test]
fn writes_the_bytes_that_were_read(rt: HostRuntime) -> Result<(), Fail> {
    let Ok(file) = read_class(rt.alloc(), HI) else {
        return Err("the bytes are a class file".into());
    };
    let bytes = write_class(rt.alloc(), &file)?;
    assert_eq!(rt; bytes.as_slice(), HI);
    Ok(())
}

#[test]
fn drafts_the_class_that_is_read(rt: HostRuntime) -> Result<(), Fail> {
    let alloc = rt.alloc();
    let mut draft = ClassDraft::new(alloc, b"Hi", b"java/lang/Object")?;
    assert_eq!(rt;
        method_index(alloc, &mut draft, b"mote/Console", b"write", b"(I)V")?,
        10
    );
    let main = [
        0x10, 0x48, 0xb8, 0x00, 0x0a, 0x10, 0x69, 0xb8, 0x00, 0x0a, 0xb1,
    ];
    let body = CodeAttr {
        max_stack: 1,
        max_locals: 0,
        code: Items::from_vec(Vec::from_slice(alloc, &main)?),
        handlers: Items::empty(alloc),
    };
    draft.add_method(alloc, PUBLIC_STATIC, b"main", b"()V", body)?;
    let file = draft.finish(alloc)?;
    assert!(rt; is_same_class(alloc, &file, &read(alloc, HI)?)?);
    Ok(())
}

/// A class with a field and three methods, of which one has a handler.
fn three_methods(alloc: Global) -> Result<ClassFile, DraftRefusal>
    ensures { IfOk result IsRecord }
{
    let mut draft = ClassDraft::new(alloc, b"Three", b"java/lang/Object")?;
    draft.add_field(alloc, PUBLIC, b"count", b"I")?;
    let parent = method_index(alloc, &mut draft, b"java/lang/Object", b"<init>", b"()V")?;
    let [high, low] = parent.to_be_bytes();
    draft.add_method(
        alloc,
        PUBLIC,
        b"<init>",
        b"()V",
        code(alloc, &[0x2a, 0xb7, high, low, 0xb1])?,
    )?;
    draft.add_method(alloc, PUBLIC, b"same", b"(I)I", code(alloc, &[0x1b, 0xac])?)?;
    let row = HandlerRow {
        start: 0,
        end: 1,
        target: 2,
        catch_type: 0,
    };
    let handled = CodeAttr {
        max_stack: 2,
        max_locals: 3,
        code: Items::from_vec(Vec::from_slice(alloc, &[0x00, 0xb1, 0xbf])?),
        handlers: Items::from_vec(Vec::from_slice(alloc, &[row])?),
    };
    draft.add_method(alloc, PUBLIC_STATIC, b"main", b"()V", handled)?;
    draft.finish(alloc)
}

#[test]
fn reads_three_methods_again(rt: HostRuntime) -> Result<(), Fail> {
    let alloc = rt.alloc();
    let file = three_methods(alloc)?;
    assert_eq!(rt; (file.major, file.minor, file.flags), (52, 0, 0x21));
    assert_eq!(rt; (file.fields.len(), file.methods.len()), (1, 3));
    let bytes = write_class(alloc, &file)?;
    assert!(rt; is_same_class(alloc, &file, &read(alloc, bytes.as_slice())?)?);
    Ok(())
}

#[test]
fn shares_constants(rt: HostRuntime) -> Result<(), Fail> {
    let alloc = rt.alloc();
    let mut draft = ClassDraft::new(alloc, b"Same", b"Same")?;
    assert_eq!(rt; draft.constant(alloc, text(alloc, b"Same")?)?, 1);
    assert_eq!(rt; draft.constant(alloc, Const::Class(1))?, 2);
    assert_eq!(rt; draft.constant(alloc, Const::Long(7))?, 3);
    assert_eq!(rt; draft.constant(alloc, Const::Double(7))?, 5);
    assert_eq!(rt; draft.constant(alloc, Const::Integer(7))?, 7);
    assert_eq!(rt; draft.constant(alloc, Const::Long(7))?, 3);
    Ok(())
}

/// Adds a new constant for each index from this one to 65,533, and answers whether each call answered
/// its index.
fn fills_but_one(alloc: Global, draft: &mut ClassDraft, first: u16) -> Result<bool, DraftRefusal> {
    for index in first..65_534 {
        if draft.constant(alloc, Const::Integer(i32::from(index)))? != index {
            return Ok(false);
        }
    }
    Ok(true)
}

#[test]
fn refuses_a_constant_too_many(rt: HostRuntime) -> Result<(), Fail> {
    let alloc = rt.alloc();
    let mut draft = ClassDraft::new(alloc, b"Full", b"Full")?;
    assert!(rt; fills_but_one(alloc, &mut draft, 3)?);
    // One place is left: for a constant of one place, and for none of two.
    assert_eq!(rt;
        draft.constant(alloc, Const::Long(1)),
        Err(DraftRefusal::Full)
    );
    assert_eq!(rt; draft.constant(alloc, Const::Float(1)), Ok(65_534));
    assert_eq!(rt;
        draft.constant(alloc, Const::Float(2)),
        Err(DraftRefusal::Full)
    );
    assert_eq!(rt; draft.constant(alloc, Const::Integer(3)), Ok(3));
    Ok(())
}

#[test]
fn takes_back_what_a_refused_member_added(rt: HostRuntime) -> Result<(), Fail> {
    let alloc = rt.alloc();
    let mut draft = ClassDraft::new(alloc, b"Full", b"Full")?;
    assert!(rt; fills_but_one(alloc, &mut draft, 3)?);
    // The name would fit, and the descriptor does not.
    assert_eq!(rt;
        draft.add_field(alloc, PUBLIC, b"count", b"I"),
        Err(DraftRefusal::Full)
    );
    assert_eq!(rt; draft.constant(alloc, text(alloc, b"other")?)?, 65_534);
    assert_eq!(rt; draft.constant(alloc, text(alloc, b"Full")?)?, 1);
    Ok(())
}

#[test]
fn refuses_a_record_of_no_class_file(rt: HostRuntime) -> Result<(), Fail> {
    let alloc = rt.alloc();
    let shapes: [(&[u8], &[u8], &[u8]); 5] = [
        (b"main", b"()V", b""),
        (b"main", b"()", b"\xb1"),
        (b"<other>", b"()V", b"\xb1"),
        (b"twice", b"()V", b"\xb1"),
        (b"\xff", b"()V", b"\xb1"),
    ];
    for (name, descriptor, bytes) in shapes {
        let mut draft = ClassDraft::new(alloc, b"Bad", b"java/lang/Object")?;
        draft.add_method(alloc, PUBLIC, b"twice", b"()V", code(alloc, b"\xb1")?)?;
        draft.add_method(alloc, PUBLIC, name, descriptor, code(alloc, bytes)?)?;
        let refused = matches!(draft.finish(alloc), Err(DraftRefusal::BadShape));
        assert!(rt; refused, "{name:?}");
    }
    Ok(())
}
