//! Members that are found in a set of classes, who may use them, and what a call selects.

ghost use Rattle.std.specs.Prelude.{◌≡◌, true};
ghost use Rattle.class_tree.specs.Set.{IsClass};

use class_file::{ClassFile, Member};
use class_find::{allowed, find_field, find_interface_method, find_method, select};
use class_make::{ClassDraft, DraftRefusal};
use class_pool::{Const, MemberId};
use class_tree::{ClassSet, gather};
use item_list::Items;
use std::alloc::Global;
use std::test::*;

/// ACC_PUBLIC and ACC_SUPER.
const CLASS: u16 = 0x0021;

/// ACC_PUBLIC, ACC_INTERFACE and ACC_ABSTRACT.
const INTERFACE: u16 = 0x0601;

const OBJECT: &[u8] = b"java/lang/Object";

/// A field or a method: its flags, its name and its descriptor.
type Declared = (u16, &'static [u8], &'static [u8]);

/// A class: its flags, its name, its superclass, its superinterfaces, its fields and its methods.
struct Row(
    u16,
    &'static [u8],
    &'static [u8],
    &'static [&'static [u8]],
    &'static [Declared],
    &'static [Declared],
);

const NONE: &[Declared] = &[];

const NO_INTERFACES: &[&[u8]] = &[];

const SHAPE: &[&[u8]] = &[b"a/Shape"];

const LEFT_AND_RIGHT: &[&[u8]] = &[b"a/Left", b"a/Right"];

const SHAPE_FIELDS: &[Declared] = &[(0x0019, b"MAX", b"I")];

const SHAPE_METHODS: &[Declared] = &[(0x0401, b"area", b"()I")];

const LEFT_METHODS: &[Declared] = &[(0x0401, b"left", b"()V")];

const RIGHT_FIELDS: &[Declared] = &[(0x0019, b"MAX", b"B"), (0x0019, b"size", b"I")];

const BASE_FIELDS: &[Declared] = &[(0x0002, b"key", b"I"), (0x0004, b"size", b"I")];

const BASE_METHODS: &[Declared] = &[
    (0x0001, b"<init>", b"()V"),
    (0x0002, b"hidden", b"()V"),
    (0x0001, b"run", b"()V"),
    (0x0009, b"count", b"()V"),
];

const LEAF_METHODS: &[Declared] = &[(0x0002, b"run", b"()V")];

/// The classes of the numbers from 32 on. Both interfaces of `b/Leaf` extend `a/Shape`.
const ROWS: &[Row] = &[
    Row(
        INTERFACE,
        b"a/Shape",
        OBJECT,
        NO_INTERFACES,
        SHAPE_FIELDS,
        SHAPE_METHODS,
    ),
    Row(INTERFACE, b"a/Left", OBJECT, SHAPE, NONE, LEFT_METHODS),
    Row(INTERFACE, b"a/Right", OBJECT, SHAPE, RIGHT_FIELDS, NONE),
    Row(
        CLASS,
        b"a/Base",
        OBJECT,
        NO_INTERFACES,
        BASE_FIELDS,
        BASE_METHODS,
    ),
    Row(
        CLASS,
        b"b/Leaf",
        b"a/Base",
        LEFT_AND_RIGHT,
        NONE,
        LEAF_METHODS,
    ),
    Row(CLASS, b"a/Other", OBJECT, NO_INTERFACES, NONE, NONE),
    Row(CLASS, b"c/Far", OBJECT, NO_INTERFACES, NONE, NONE),
];

/// The index of a text in the pool of a draft.
fn text(alloc: Global, draft: &mut ClassDraft, bytes: &[u8]) -> Result<u16, DraftRefusal> {
    let text = Items::from_vec(Vec::from_slice(alloc, bytes)?);
    draft.constant(alloc, Const::Utf8(text))
}

fn member(alloc: Global, draft: &mut ClassDraft, row: &Declared) -> Result<Member, DraftRefusal> {
    let name = text(alloc, draft, row.1)?;
    let descriptor = text(alloc, draft, row.2)?;
    Ok(Member {
        flags: row.0,
        name,
        descriptor,
        constant: None,
        code: None,
    })
}

fn members(
    alloc: Global,
    draft: &mut ClassDraft,
    rows: &[Declared],
) -> Result<Items<Member>, DraftRefusal> {
    let mut members = Vec::new(alloc);
    for row in rows {
        members.push(member(alloc, draft, row)?)?;
    }
    Ok(Items::from_vec(members))
}

fn interfaces(
    alloc: Global,
    draft: &mut ClassDraft,
    names: &[&[u8]],
) -> Result<Items<u16>, DraftRefusal> {
    let mut indexes = Vec::new(alloc);
    for name in names {
        let name = text(alloc, draft, name)?;
        indexes.push(draft.constant(alloc, Const::Class(name))?)?;
    }
    Ok(Items::from_vec(indexes))
}

/// The record of a class. Methods have no code here: no lookup asks for it.
fn file_of(alloc: Global, row: &Row) -> Result<ClassFile, DraftRefusal> {
    let mut draft = ClassDraft::new(alloc, row.1, row.2)?;
    let interfaces = interfaces(alloc, &mut draft, row.3)?;
    let fields = members(alloc, &mut draft, row.4)?;
    let methods = members(alloc, &mut draft, row.5)?;
    let mut file = draft.finish(alloc)?;
    file.flags = row.0;
    file.interfaces = interfaces;
    file.fields = fields;
    file.methods = methods;
    Ok(file)
}

/// The set of the classes of `ROWS`.
fn set_of(alloc: Global) -> Result<Option<ClassSet>, DraftRefusal> {
    let mut files = Vec::new(alloc);
    for row in ROWS {
        files.push(file_of(alloc, row)?)?;
    }
    Ok(gather(alloc, files).ok())
}

/// A class, a name and a descriptor, and the member that is to be found: its class and its position.
type Want = (u16, &'static [u8], &'static [u8], Option<(u16, u16)>);

/// The number is that of a class of the set.
fn is_class(set: &ClassSet, class: u16) -> bool
    ensures { result ≡ true → IsClass set.now class }
{
    class < 15 || class >= 32 && class - 32 < set.file_count()
}

/// The member is that of this class and this position.
fn is_member(found: Option<MemberId>, want: Option<(u16, u16)>) -> bool {
    found.map(|id| (id.class, id.member)) == want
}

const FIELDS: &[Want] = &[
    (35, b"size", b"I", Some((35, 1))),
    (36, b"size", b"I", Some((34, 1))),
    (36, b"MAX", b"I", Some((32, 0))),
    (36, b"MAX", b"B", Some((34, 0))),
    (36, b"key", b"I", Some((35, 0))),
    (36, b"key", b"B", None),
];

fn finds_each_field(set: &ClassSet) -> bool {
    FIELDS.iter().all(|want| {
        is_class(set, want.0) && is_member(find_field(set, want.0, want.1, want.2), want.3)
    })
}

const METHODS: &[Want] = &[
    (36, b"run", b"()V", Some((36, 0))),
    (36, b"hidden", b"()V", Some((35, 1))),
    (36, b"left", b"()V", Some((33, 0))),
    (36, b"area", b"()I", Some((32, 0))),
    (35, b"<init>", b"()V", Some((35, 0))),
    (36, b"<init>", b"()V", None),
    (14, b"print", b"(I)V", Some((14, 2))),
    (9, b"<init>", b"()V", Some((9, 0))),
];

fn finds_each_method(set: &ClassSet) -> bool {
    METHODS.iter().all(|want| {
        is_class(set, want.0) && is_member(find_method(set, want.0, want.1, want.2), want.3)
    })
}

const INTERFACE_METHODS: &[Want] = &[
    (33, b"left", b"()V", Some((33, 0))),
    (34, b"area", b"()I", Some((32, 0))),
    (33, b"<init>", b"()V", Some((0, 0))),
    (33, b"area", b"()V", None),
];

fn finds_each_interface_method(set: &ClassSet) -> bool {
    INTERFACE_METHODS.iter().all(|want| {
        is_class(set, want.0)
            && is_member(find_interface_method(set, want.0, want.1, want.2), want.3)
    })
}

const SELECTED: &[Want] = &[
    (36, b"run", b"()V", Some((35, 2))),
    (36, b"hidden", b"()V", None),
    (36, b"count", b"()V", None),
    (36, b"left", b"()V", None),
];

fn selects_each(set: &ClassSet) -> bool {
    SELECTED.iter().all(|want| {
        is_class(set, want.0) && is_member(select(set, want.0, want.1, want.2), want.3)
    })
}

/// A class, the name of a field of `a/Base`, and whether the class may use it.
type Use = (u16, &'static [u8], bool);

const USES: &[Use] = &[
    (36, b"size", true),
    (37, b"size", true),
    (38, b"size", false),
    (35, b"key", true),
    (36, b"key", false),
    (37, b"key", false),
];

/// The class may use the field of this name of `a/Base`.
fn may_use(set: &ClassSet, from: u16, name: &[u8]) -> Option<bool> {
    if !is_class(set, from) || !is_class(set, 35) {
        return None;
    }
    let field = find_field(set, 35, name, b"I")?;
    Some(allowed(set, from, field, true))
}

fn allows_each(set: &ClassSet) -> bool {
    USES.iter()
        .all(|want| may_use(set, want.0, want.1) == Some(want.2))
}

#[test]
fn finds_members(rt: HostRuntime) -> Result<(), Fail> {
    let set = set_of(rt.alloc())?.ok_or("the set is closed")?;
    assert!(rt; finds_each_field(&set));
    assert!(rt; finds_each_method(&set));
    assert!(rt; finds_each_interface_method(&set));
    Ok(())
}

#[test]
fn selects_methods_and_tells_access(rt: HostRuntime) -> Result<(), Fail> {
    let set = set_of(rt.alloc())?.ok_or("the set is closed")?;
    assert!(rt; selects_each(&set));
    assert!(rt; allows_each(&set));
    Ok(())
}
