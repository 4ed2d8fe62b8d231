//! The closed set of classes that files are.

ghost use Rattle.std.specs.Prelude.{◌≡◌, ◌⊎◌, ◌<◌, ◌-◌, ◌≤◌, ℕ, None, Some, map, length, IfOk, IfErr, OnOk, slice_get, option_copied, IfSome, MatchBool};
ghost use Rattle.class_tree.specs.Subtypes.{IsSubclass};
ghost use Rattle.class_tree.specs.declared.refusal.TreeRefusal.TheVariants.{Memory};
ghost use Rattle.class_tree.specs.Set.{own_name as own_name_of, IsClass, name_of as name_of_class, number_of as number_of_class};
ghost use Rattle.class_tree.specs.Set.{file_of as file_of_class, flags_of as flags_of_class};
ghost use Rattle.class_tree.specs.Tree.{Gathers};
ghost use Rattle.class_tree.specs.DirectSupers.{superclass_of as superclass_of_class, superclasses_of, superinterfaces_of, all_supers_of};
ghost use Rattle.class_tree.specs.LookupWays.{LeadsUp, LeadsBeside};
ghost use Rattle.class_tree.specs.Members.{field_in as field_in_class, method_in as method_in_class, method_flags as method_flags_of, member_flags as member_flags_of};

use crate::above::above_of;
use crate::circles::{leads, test_circles};
use crate::descriptors::{saturated, test_descriptors};
use crate::lookup_ways::{LookupWays, lookup_ways};
use crate::member_index::{MemberIndex, field_indexes, method_indexes, position_at};
use crate::members::{are_positions, flags_at, member_of, native_flags, native_position};
use crate::names::{Names, names_of, own_name};
use crate::rank::ranks_of;
use crate::refusal::TreeRefusal;
use crate::supers::{flags_of, named, test_supers};
use crate::way::way_at;
use class_file::ClassFile;
use class_pool::MemberId;
use library::{FIRST_OWN, class_name, superclass_of as library_superclass};
use std::alloc::Global;
use std::marker::Model;

/// The most files of a set.
const MOST_FILES: usize = 512;

/// A closed set of classes: those of the library, which have the numbers 0 to 14, and those of the files,
/// whose numbers are 32 and those after it, in the order of the files. Contracts see the files.
#[derive(Debug, Drop)]
pub struct ClassSet {
    files: Vec<ClassFile>,
    names: Names,
    above: Vec<Vec<bool>>,
    ways: LookupWays,
    fields: Vec<MemberIndex>,
    methods: Vec<MemberIndex>,
}

impl Model for ClassSet {
    ghost use Rattle.std.specs.Prelude.{List, map};
    ghost use Rattle.class_file.specs.declared.record.ClassFile.{ClassFile as Record};
    ghost use Rattle.class_tree.specs.Kept.{IsKept};

    ghost Value = { List Record };

    ghost view = { λ set. set.files.items };

    ghost invariant = { λ set. IsKept set.files.items set.names (map (λ v. v.items) set.above.items) set.ways.both.items set.ways.superclasses.items set.ways.superinterfaces.items set.ways.beside.items set.fields.items set.methods.items };
}

/// The closed set that the files are. Its refusals are those of the phases in their order: the number of
/// files, names, what stands directly above a class, circles, and declared descriptors; in each the first
/// file decides. Records with more than 65,535 fields or methods, or with two of one name and one descriptor,
/// which no class file gives, are answered as want of memory.
pub fn gather(alloc: Global, files: Vec<ClassFile>) -> Result<ClassSet, TreeRefusal>
    ensures gathered { IfOk result (λ set. set ≡ files.items) }
    ensures passed { OnOk result (Gathers files.items None) }
    ensures refused { IfErr result (λ why. (why ≡ Memory) ⊎ Gathers files.items (Some why)) }
{
    if MOST_FILES < files.len() {
        return Err(TreeRefusal::TooMany {
            count: saturated(files.len()),
        });
    }
    let names = names_of(alloc, files.as_slice())?;
    test_supers(&names, files.as_slice())?;
    let above = above_of(alloc, &names, files.as_slice())?;
    test_circles(above.as_slice(), &names, files.as_slice())?;
    test_descriptors(alloc, &names, files.as_slice())?;
    let ranks = ranks_of(alloc, &names, files.as_slice(), above.as_slice())?;
    let ways = lookup_ways(alloc, &names, files.as_slice(), ranks.as_slice())?;
    if !are_positions(files.as_slice()) {
        return Err(TreeRefusal::Memory);
    }
    let fields = field_indexes(alloc, files.as_slice())?;
    let methods = method_indexes(alloc, files.as_slice())?;
    Ok(ClassSet {
        files,
        names,
        above,
        ways,
        fields,
        methods,
    })
}

impl ClassSet {
    /// The number of the class of this name, its parts with `/` between them. `None` where it is absent.
    pub fn number_of(&self, name: &[u8]) -> Option<u16>
        ensures { result ≡ number_of_class self.now name.now }
    {
        self.names.number_of(name)
    }

    /// The name of a class of the set.
    pub fn name_of(&self, class: u16) -> &[u8]
        requires { IsClass self.now class }
        ensures { result.now ≡ name_of_class self.now class }
    {
        if class < FIRST_OWN {
            return class_name(class).unwrap_or(&[]);
        }
        own_name(self.file(class))
    }

    /// How many files the set has.
    pub fn file_count(&self) -> u16
        ensures count { result ≡ length self.now }
        ensures most { result ≤ 512 }
    {
        self.files.len() as u16
    }

    /// The record of a class that has a file.
    pub fn file(&self, class: u16) -> &ClassFile
        requires own { 32 ≤ class }
        requires within { class - 32 < length self.now }
        ensures file { slice_get self.now (class - 32) ≡ Some result.now }
        ensures counted { (length result.now.fields ≤ 65535) × (length result.now.methods ≤ 65535) }
    {
        &self.files[usize::from(class - FIRST_OWN)]
    }

    /// The superclass of a class. `None` where the class is `java/lang/Object`.
    pub fn superclass_of(&self, class: u16) -> Option<u16>
        ensures superclass { result ≡ superclass_of_class self.now class }
        ensures within { IfSome result (IsClass self.now) }
    {
        if class < FIRST_OWN {
            return library_superclass(class);
        }
        let file = self.file_of(class)?;
        named(&self.names, file, file.super_class)
    }

    /// One class is another one, or is below it.
    pub fn is_subclass(&self, lower: u16, upper: u16) -> bool
        requires lower { IsClass self.now lower }
        requires upper { IsClass self.now upper }
        ensures { MatchBool result (IsSubclass self.now lower upper) (¬ IsSubclass self.now lower upper) }
    {
        lower == upper
            || leads(
                self.above.as_slice(),
                usize::from(lower),
                usize::from(upper),
            )
    }

    // ---- for lookups

    /// The classes that the lookup of a field visits from a class on: the class, its superinterfaces and its
    /// superclass, each with those above it, each class once.
    pub fn field_way(&self, class: u16) -> &[u16]
        requires { IsClass self.now class }
        ensures { LeadsUp self.now (all_supers_of self.now) class result.now }
    {
        way_at(self.ways.both.as_slice(), usize::from(class))
    }

    /// The class and its superclasses.
    pub fn superclass_way(&self, class: u16) -> &[u16]
        requires { IsClass self.now class }
        ensures { LeadsUp self.now (superclasses_of self.now) class result.now }
    {
        way_at(self.ways.superclasses.as_slice(), usize::from(class))
    }

    /// The class and its superinterfaces, each with those above it, each once.
    pub fn interface_way(&self, class: u16) -> &[u16]
        requires { IsClass self.now class }
        ensures { LeadsUp self.now (superinterfaces_of self.now) class result.now }
    {
        way_at(self.ways.superinterfaces.as_slice(), usize::from(class))
    }

    /// The superinterfaces of the class, and then those of its superclasses, each with those above it, each
    /// once.
    pub fn beside_way(&self, class: u16) -> &[u16]
        requires { IsClass self.now class }
        ensures { LeadsBeside self.now class result.now }
    {
        way_at(self.ways.beside.as_slice(), usize::from(class))
    }

    /// The file of a class, where it has one.
    fn file_of(&self, class: u16) -> Option<&ClassFile>
        ensures { option_copied result ≡ file_of_class self.now class }
    {
        if class < FIRST_OWN {
            return None;
        }
        self.files.get(usize::from(class - FIRST_OWN))
    }

    /// The field that a class declares with this name and this descriptor.
    pub fn field_in(&self, class: u16, name: &[u8], descriptor: &[u8]) -> Option<MemberId>
        ensures { result ≡ field_in_class self.now name.now descriptor.now class }
    {
        member_of(
            class,
            position_at(self.fields.as_slice(), class, name, descriptor),
        )
    }

    /// The method that a class declares with this name and this descriptor.
    pub fn method_in(&self, class: u16, name: &[u8], descriptor: &[u8]) -> Option<MemberId>
        ensures { result ≡ method_in_class self.now name.now descriptor.now class }
    {
        if class < FIRST_OWN {
            return member_of(class, native_position(class, name, descriptor));
        }
        member_of(
            class,
            position_at(self.methods.as_slice(), class, name, descriptor),
        )
    }

    /// The flags of a method; 0 where there is none.
    pub fn method_flags(&self, id: MemberId) -> u16
        ensures { result ≡ method_flags_of self.now id }
    {
        if id.class < FIRST_OWN {
            return native_flags(id.class, id.member);
        }
        match self.file_of(id.class) {
            Some(file) => flags_at(&file.pool, file.methods.as_slice(), id.member),
            None => 0,
        }
    }

    /// The flags of a field, or of a method; 0 where there is none.
    pub fn member_flags(&self, id: MemberId, field: bool) -> u16
        ensures { result ≡ member_flags_of self.now field id }
    {
        if !field {
            return self.method_flags(id);
        }
        match self.file_of(id.class) {
            Some(file) => flags_at(&file.pool, file.fields.as_slice(), id.member),
            None => 0,
        }
    }

    /// The flags of a class.
    pub fn class_flags(&self, class: u16) -> u16
        ensures { result ≡ flags_of_class self.now class }
    {
        flags_of(self.files.as_slice(), class)
    }
}
