//! A class that is drafted call by call.

ghost use Rattle.std.specs.Prelude.{◌≡◌, ◌≤◌, [], ◌∷◌, ◌++◌, Option, Some, None, Err, length, take, IfOk, IfErr, OnOk, OnErr, IsErr};
ghost use Rattle.class_pool.specs.declared.pool.Const.TheVariants.{Utf8};
ghost use Rattle.class_pool.specs.Pool.{entry_at};
ghost use Rattle.class_make.specs.declared.refusal.DraftRefusal.TheVariants.{Full, Memory};
ghost use Rattle.class_file.specs.Relation.{IsRecord};
ghost use Rattle.class_make.specs.Entries.{index_of, with_entry, text_index};
ghost use Rattle.class_make.specs.Draft.{new_class, member_in, with_field, with_method, with_constant, with_field_texts, with_method_texts, IsOver, IsUnplaced, IsInvalid};

use crate::constants::Constants;
use crate::refusal::DraftRefusal;
use crate::valid::test_record;
use class_file::{ClassFile, CodeAttr, Member};
use class_pool::{Const, Pool};
use item_list::Items;
use std::alloc::{AllocError, Global};
use std::marker::Model;

/// The flags of a drafted class (JVMS table 4.1-A).
const ACC_PUBLIC: u16 = 0x0001;

const ACC_SUPER: u16 = 0x0020;

/// A class in the making: version 52.0, public, without interfaces. Contracts see the record that was
/// drafted so far. Its constants stand in the order in which they were first seen, each once.
#[derive(Debug, Drop)]
pub struct ClassDraft {
    slots: Constants,
    this_class: u16,
    super_class: u16,
    fields: Vec<Member>,
    methods: Vec<Member>,
}

impl Model for ClassDraft {
    ghost use Rattle.std.specs.Prelude.{◌≤◌, [], length};
    ghost use Rattle.class_file.specs.declared.record.ClassFile.{ClassFile};

    ghost Value = { ClassFile };

    ghost view = { λ draft. record {
      minor = 0;
      major = 52;
      pool = draft.slots;
      flags = 33;
      this_class = draft.this_class;
      super_class = draft.super_class;
      interfaces = [];
      fields = draft.fields.items;
      methods = draft.methods.items;
    } };

    ghost invariant = { λ draft. length draft.slots ≤ 65534 };
}

/// Adds a field to the fields, and its texts to the places.
fn push_field(
    alloc: Global,
    slots: &mut Constants,
    fields: &mut Vec<Member>,
    flags: u16,
    name: &[u8],
    descriptor: &[u8],
) -> Result<(), DraftRefusal>
    ensures placed { OnOk result (slots.new ≡ with_field_texts slots.old name.now descriptor.now) }
    ensures added { OnOk result (fields.new.items ≡ fields.old.items ++ member_in slots.new flags name.now descriptor.now None ∷ []) }
    ensures unchanged { OnErr result (fields.new.items ≡ fields.old.items) }
    ensures begins { take (length slots.old) slots.new ≡ slots.old }
    ensures stays_within { OnOk result (length slots.new ≤ 65534) }
    ensures refused { IfErr result (IsUnplaced (with_field_texts slots.old name.now descriptor.now)) }
{
    let texts = slots.slot_member_texts(alloc, name, descriptor)?;
    fields.push(Member {
        flags,
        name: texts.name,
        descriptor: texts.descriptor,
        constant: None,
        code: None,
    })?;
    Ok(())
}

/// Adds a method with code to the methods, and its texts to the places.
fn push_method(
    alloc: Global,
    slots: &mut Constants,
    methods: &mut Vec<Member>,
    flags: u16,
    name: &[u8],
    descriptor: &[u8],
    code: CodeAttr,
) -> Result<(), DraftRefusal>
    ensures placed { OnOk result (slots.new ≡ with_method_texts slots.old name.now descriptor.now) }
    ensures added { OnOk result (methods.new.items ≡ methods.old.items ++ member_in slots.new flags name.now descriptor.now (Some code) ∷ []) }
    ensures unchanged { OnErr result (methods.new.items ≡ methods.old.items) }
    ensures begins { take (length slots.old) slots.new ≡ slots.old }
    ensures stays_within { OnOk result (length slots.new ≤ 65534) }
    ensures refused { IfErr result (IsUnplaced (with_method_texts slots.old name.now descriptor.now)) }
{
    let texts = slots.slot_member_texts(alloc, name, descriptor)?;
    slots.slot_text(alloc, b"Code")?;
    methods.push(Member {
        flags,
        name: texts.name,
        descriptor: texts.descriptor,
        constant: None,
        code: Some(code),
    })?;
    Ok(())
}

impl ClassDraft {
    /// A public class with this name and this superclass. Its constants are the name, its class, the
    /// name of the superclass and its class.
    pub fn new(alloc: Global, name: &[u8], parent: &[u8]) -> Result<ClassDraft, DraftRefusal>
        // What is drafted, unless memory runs out.
        ensures drafted { IfOk result (λ draft. draft ≡ new_class name.now parent.now) }
        ensures refused { IfErr result (λ why. why ≡ Memory) }
    {
        let mut slots = Constants::new(alloc);
        let this_class = slots.slot_class(alloc, name)?;
        let super_class = slots.slot_class(alloc, parent)?;
        Ok(ClassDraft {
            slots,
            this_class,
            super_class,
            fields: Vec::new(alloc),
            methods: Vec::new(alloc),
        })
    }

    /// Adds a field (JVMS 4.5). Its constants are its name and its descriptor.
    pub fn add_field(
        &mut self,
        alloc: Global,
        flags: u16,
        name: &[u8],
        descriptor: &[u8],
    ) -> Result<(), DraftRefusal>
        // One field more, or a draft as it was.
        ensures added { OnOk result (self.new ≡ with_field self.old flags name.now descriptor.now) }
        ensures unchanged { OnErr result (self.new ≡ self.old) }

        // Full exactly where the constants do not fit, unless memory runs out.
        ensures refused { IfErr result (IsUnplaced (with_field_texts self.old.pool name.now descriptor.now)) }
        ensures full { IsOver (with_field_texts self.old.pool name.now descriptor.now) → IsErr result }
    {
        let count = self.slots.count();
        let added = push_field(
            alloc,
            &mut self.slots,
            &mut self.fields,
            flags,
            name,
            descriptor,
        );
        if added.is_err() {
            self.slots.keep(count);
        }
        added
    }

    /// Adds a method with code (JVMS 4.6). Its constants are its name, its descriptor and `Code`.
    pub fn add_method(
        &mut self,
        alloc: Global,
        flags: u16,
        name: &[u8],
        descriptor: &[u8],
        code: CodeAttr,
    ) -> Result<(), DraftRefusal>
        // One method more, or a draft as it was.
        ensures added { OnOk result (self.new ≡ with_method self.old flags name.now descriptor.now code) }
        ensures unchanged { OnErr result (self.new ≡ self.old) }

        // Full exactly where the constants do not fit, unless memory runs out.
        ensures refused { IfErr result (IsUnplaced (with_method_texts self.old.pool name.now descriptor.now)) }
        ensures full { IsOver (with_method_texts self.old.pool name.now descriptor.now) → IsErr result }
    {
        let count = self.slots.count();
        let added = push_method(
            alloc,
            &mut self.slots,
            &mut self.methods,
            flags,
            name,
            descriptor,
            code,
        );
        if added.is_err() {
            self.slots.keep(count);
        }
        added
    }

    /// The index of a constant (JVMS 4.4), which is added where it is not there. What it names is not
    /// looked at.
    pub fn constant(&mut self, _alloc: Global, c: Const) -> Result<u16, DraftRefusal>
        // The constant is at the index, first of its kind; or the draft is as it was.
        ensures added { OnOk result (self.new ≡ with_constant self.old c) }
        ensures there { IfOk result (λ index. entry_at self.new.pool index ≡ Some c) }
        ensures index { IfOk result (λ index. index_of self.new.pool c ≡ Some index) }
        ensures unchanged { OnErr result (self.new ≡ self.old) }

        // Full exactly where a new constant does not fit, for which no memory is asked.
        ensures refused { IfErr result (IsUnplaced (with_entry self.old.pool c)) }
        ensures full { IsOver (with_entry self.old.pool c) → result ≡ Err Full }
    {
        self.slots.slot(c)
    }

    /// The drafted record. It is refused where no bytes are a class file with this record.
    pub fn finish(self, alloc: Global) -> Result<ClassFile, DraftRefusal>
        // The record that was drafted, which is that of a class file.
        ensures drafted { IfOk result (λ file. file ≡ self) }
        ensures valid { IfOk result IsRecord }

        // BadShape exactly where it is that of none, unless memory runs out.
        ensures refused { IfErr result (IsInvalid self) }
    {
        let file = self.into_file(alloc)?;
        test_record(alloc, &file)?;
        Ok(file)
    }

    /// The record that was drafted.
    fn into_file(self, alloc: Global) -> Result<ClassFile, AllocError>
        ensures { IfOk result (λ file. file ≡ self) }
    {
        let ClassDraft {
            slots,
            this_class,
            super_class,
            fields,
            methods,
        } = self;
        let slots = slots.into_slots(alloc)?;
        Ok(ClassFile {
            minor: 0,
            major: 52,
            pool: Pool::from_slots(slots),
            flags: ACC_PUBLIC | ACC_SUPER,
            this_class,
            super_class,
            interfaces: Items::empty(alloc),
            fields: Items::from_vec(fields),
            methods: Items::from_vec(methods),
        })
    }
}
