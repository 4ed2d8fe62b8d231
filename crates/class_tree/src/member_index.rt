//! The members of a class by their names and descriptors, at the cost of a look-up.

ghost use Rattle.std.specs.Prelude.{◌≡◌, ◌≤◌, ◌++◌, ◌∷◌, [], ℕ, List, length, map, position, IfOk, IfErr, OnOk};
ghost use Rattle.std.specs.List.{AllByRecursion};
ghost use Rattle.class_tree.specs.declared.refusal.TreeRefusal.TheVariants.{Memory};
ghost use Rattle.class_tree.specs.Members.{Declaration, in_file, is_called as is_called_so};
ghost use Rattle.std.specs.Option.{option_map_or};
ghost use Rattle.class_file.specs.declared.record.ClassFile.{ClassFile as Record};
ghost use Rattle.class_tree.specs.Set.{file_of};
ghost use Rattle.class_tree.specs.MemberIndex.{IsAmong, key_of as key_of_texts, member_key, IsIndexOf, own_fields, own_methods, AreIndexes};

use crate::members::text_at;
use crate::names::Names;
use crate::refusal::TreeRefusal;
use class_file::{ClassFile, Member};
use class_pool::Pool;
use indexmap::IndexSet;
use library::FIRST_OWN;
use std::alloc::{AllocError, Global};

/// A name and a descriptor, by their positions among the texts of an index.
#[derive(Clone, Copy, Debug, PartialEq, Eq, Hash)]
pub(crate) struct Key {
    name: usize,
    descriptor: usize,
}

/// The texts of the members, each once, and the keys of the members in their order.
#[derive(Debug, Drop)]
pub(crate) struct MemberIndex {
    texts: Names,
    keys: IndexSet<Key>,
}

/// The key of a name and a descriptor.
fn key_of(texts: &Names, name: &[u8], descriptor: &[u8]) -> Key
    ensures { result ≡ key_of_texts texts.now name.now descriptor.now }
{
    Key {
        name: texts.position_of(name),
        descriptor: texts.position_of(descriptor),
    }
}

/// The names and the descriptors of members.
fn texts_of(alloc: Global, pool: &Pool, members: &[Member]) -> Result<Names, AllocError>
    ensures { IfOk result (λ texts. AllByRecursion (IsAmong texts) (map (in_file pool.now) members.now)) }
{
    let mut texts = Names::new(alloc);
    for member in members {
        texts.add(alloc, text_at(pool, member.name))?;
        texts.add(alloc, text_at(pool, member.descriptor))?;
    }
    Ok(texts)
}

/// Adds a key that is not there. Two members of one name and one descriptor, which no class file has, are
/// answered as want of memory.
fn add_key(keys: &mut IndexSet<Key>, key: Key) -> Result<(), TreeRefusal>
    ensures added { OnOk result (keys.new.keys ≡ keys.old.keys ++ key ∷ []) }
    ensures refused { IfErr result (λ why. why ≡ Memory) }
{
    if !keys.insert(key)? {
        return Err(TreeRefusal::Memory);
    }
    Ok(())
}

/// The keys of members.
fn keys_of(
    alloc: Global,
    texts: &Names,
    pool: &Pool,
    members: &[Member],
) -> Result<IndexSet<Key>, TreeRefusal>
    ensures keyed { IfOk result (λ keys. keys.keys ≡ map (member_key texts.now) (map (in_file pool.now) members.now)) }
    ensures refused { IfErr result (λ why. why ≡ Memory) }
{
    let mut keys = IndexSet::new(alloc);
    for member in members {
        let key = key_of(
            texts,
            text_at(pool, member.name),
            text_at(pool, member.descriptor),
        );
        match add_key(&mut keys, key) {
            Ok(()) => {}
            Err(why) => return Err(why),
        }
    }
    Ok(keys)
}

impl MemberIndex {
    /// The index of members.
    pub(crate) fn of(
        alloc: Global,
        pool: &Pool,
        members: &[Member],
    ) -> Result<MemberIndex, TreeRefusal>
        ensures indexed { IfOk result (λ index. IsIndexOf (map (in_file pool.now) members.now) index.texts index.keys.keys) }
        ensures refused { IfErr result (λ why. why ≡ Memory) }
    {
        let texts = texts_of(alloc, pool, members)?;
        let keys = keys_of(alloc, &texts, pool, members)?;
        Ok(MemberIndex { texts, keys })
    }

    /// The position of the member of this name and this descriptor.
    pub(crate) fn position_of(&self, name: &[u8], descriptor: &[u8]) -> Option<usize>
        ensures { (members : List Declaration) → IsIndexOf members self.now.texts self.now.keys.keys → result ≡ position (is_called_so name.now descriptor.now) members }
    {
        self.keys
            .get_index_of(&key_of(&self.texts, name, descriptor))
    }
}

/// The index of the fields of each file.
pub(crate) fn field_indexes(
    alloc: Global,
    files: &[ClassFile],
) -> Result<Vec<MemberIndex>, TreeRefusal>
    ensures indexed { IfOk result (λ indexes. AreIndexes own_fields files.now indexes.items) }
    ensures refused { IfErr result (λ why. why ≡ Memory) }
{
    let mut indexes = Vec::new(alloc);
    for file in files {
        match MemberIndex::of(alloc, &file.pool, file.fields.as_slice()) {
            Ok(index) => indexes.push(index)?,
            Err(why) => return Err(why),
        }
    }
    Ok(indexes)
}

/// The index of the methods of each file.
pub(crate) fn method_indexes(
    alloc: Global,
    files: &[ClassFile],
) -> Result<Vec<MemberIndex>, TreeRefusal>
    ensures indexed { IfOk result (λ indexes. AreIndexes own_methods files.now indexes.items) }
    ensures refused { IfErr result (λ why. why ≡ Memory) }
{
    let mut indexes = Vec::new(alloc);
    for file in files {
        match MemberIndex::of(alloc, &file.pool, file.methods.as_slice()) {
            Ok(index) => indexes.push(index)?,
            Err(why) => return Err(why),
        }
    }
    Ok(indexes)
}

/// The position of the member of this name and this descriptor in the file of a class.
pub(crate) fn position_at(
    indexes: &[MemberIndex],
    class: u16,
    name: &[u8],
    descriptor: &[u8],
) -> Option<usize>
    ensures { (members : Record → List Declaration) (files : List Record) → AreIndexes members files indexes.now
        → result ≡ position (is_called_so name.now descriptor.now) (option_map_or members (file_of files class) []) }
{
    if class < FIRST_OWN {
        return None;
    }
    match indexes.get(usize::from(class - FIRST_OWN)) {
        Some(index) => index.position_of(name, descriptor),
        None => None,
    }
}
