//! Lists of what an image numbers, each item once and in the order in which it was first seen, found at the cost of a
//! look-up. Contracts see the lists.

ghost use Rattle.std.specs.Prelude.{◌≡◌, true, [], ◌∷◌, ◌++◌, length, position, OnOk, IfOk};
ghost use Rattle.jvm_model.specs.ImageNumbering.{is_type, is_member, with_type};

use class_pool::{MemberId, TypeRef};
use indexmap::IndexSet;
use std::alloc::{AllocError, Global};
use std::marker::Model;

/// The types of an image.
#[derive(Debug, Drop)]
pub struct TypeList {
    set: IndexSet<TypeRef>,
}

impl Model for TypeList {
    ghost use Rattle.std.specs.Prelude.{List};
    ghost use Rattle.class_pool.specs.declared.types.TypeRef.{TypeRef as Reference};

    ghost Value = { List Reference };

    ghost view = { λ list. list.set.keys };
}

impl TypeList {
    /// No types; takes no memory.
    pub fn new(alloc: Global) -> TypeList
        ensures { result ≡ [] }
    {
        TypeList {
            set: IndexSet::new(alloc),
        }
    }

    /// Adds a type after the others, where it is not there.
    pub fn add(&mut self, of: TypeRef) -> Result<(), AllocError>
        ensures { OnOk result (self.new ≡ with_type self.old of) }
    {
        self.set.insert(of)?;
        Ok(())
    }

    /// How many types there are.
    pub fn len(&self) -> usize
        ensures { result ≡ length self.now }
    {
        self.set.len()
    }

    /// The types in their order.
    pub fn as_slice(&self) -> &[TypeRef]
        ensures { result.now ≡ self.now }
    {
        self.set.as_slice()
    }

    /// The position of a type.
    pub fn position_of(&self, of: TypeRef) -> Option<usize>
        ensures { result ≡ position (is_type of) self.now }
    {
        self.set.get_index_of(&of)
    }
}

/// The methods of an image.
#[derive(Debug, Drop)]
pub struct MemberList {
    set: IndexSet<MemberId>,
}

impl Model for MemberList {
    ghost use Rattle.std.specs.Prelude.{List};
    ghost use Rattle.class_pool.specs.declared.types.MemberId.{MemberId as Member};

    ghost Value = { List Member };

    ghost view = { λ list. list.set.keys };
}

impl MemberList {
    /// No members; takes no memory.
    pub fn new(alloc: Global) -> MemberList
        ensures { result ≡ [] }
    {
        MemberList {
            set: IndexSet::new(alloc),
        }
    }

    /// Adds a member after the others, and tells whether it was not there.
    pub fn push(&mut self, member: MemberId) -> Result<bool, AllocError>
        ensures { IfOk result (λ new. new ≡ true → self.new ≡ self.old ++ member ∷ []) }
    {
        let new = self.set.insert(member)?;
        Ok(new)
    }

    /// How many members there are.
    pub fn len(&self) -> usize
        ensures { result ≡ length self.now }
    {
        self.set.len()
    }

    /// The members in their order.
    pub fn as_slice(&self) -> &[MemberId]
        ensures { result.now ≡ self.now }
    {
        self.set.as_slice()
    }

    /// The position of a member.
    pub fn position_of(&self, member: MemberId) -> Option<usize>
        ensures { result ≡ position (is_member member) self.now }
    {
        self.set.get_index_of(&member)
    }
}
