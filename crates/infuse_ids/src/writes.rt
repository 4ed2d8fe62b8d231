//! What the initialiser of a class sets last, field by field.

ghost use Rattle.std.specs.Prelude.{◌≡◌, [], None, Some, if◌then◌else◌, option_map, option_copied, OnOk, IfOk, IfErr};
ghost use Rattle.class_tree.specs.Members.{Declaration, is_called};
ghost use Rattle.jvm_model.specs.InitialStatics.{writes_from, writes_in, writes_of, written_by, last_write};
ghost use Rattle.jvm_model.specs.Linking.{is_initialiser as is_initialiser_method};
ghost use Rattle.jvm_model.specs.CodeInsns.{insns_in};
ghost use Rattle.class_code.specs.Code.{decoded};
ghost use Rattle.infuse_ids.specs.declared.refusal.IdsRefusal.TheVariants.{Memory};
ghost use Rattle.infuse_ids.specs.Writes.{Sets, last_set, pushed_of};

use crate::pushed::{Pushed, is_plain_return, pushed_by, target};
use crate::refusal::IdsRefusal;
use class_code::{CodeList, CodeRefusal, Insn, decode};
use class_file::{CodeAttr, Member};
use class_pool::{Pool, Text};
use indexmap::IndexMap;
use item_list::Items;
use std::alloc::{AllocError, Global};

/// The name of the initialiser of a class (JVMS 2.9).
const INITIALISER: &[u8] = b"<clinit>";

/// A name and a descriptor.
#[derive(Debug, Drop, PartialEq, Eq, Hash)]
pub(crate) struct Called {
    name: Text,
    descriptor: Text,
}

/// What fields were set to last, by their names and descriptors.
#[derive(Debug, Drop)]
pub(crate) struct LastWrites {
    map: IndexMap<Called, Pushed>,
}

/// A text of its own.
fn text_of(alloc: Global, bytes: &[u8]) -> Result<Text, AllocError>
    ensures { IfOk result (λ text. text ≡ bytes.now) }
{
    Ok(Items::from_vec(Vec::from_slice(alloc, bytes)?))
}

/// A name and a descriptor as a key.
fn key_of(alloc: Global, name: &[u8], descriptor: &[u8]) -> Result<Called, AllocError>
    ensures { IfOk result (λ key. key ≡ record { name = name.now; descriptor = descriptor.now }) }
{
    Ok(Called {
        name: text_of(alloc, name)?,
        descriptor: text_of(alloc, descriptor)?,
    })
}

impl LastWrites {
    /// Nothing was set; takes no memory.
    fn new(alloc: Global) -> LastWrites
        ensures { result.map.entries ≡ [] }
    {
        LastWrites {
            map: IndexMap::new(alloc),
        }
    }

    /// Sets the field of this name and this descriptor.
    #[tactic(auto, using(crate::proofs::LastWrites::view_either))]
    fn set(
        &mut self,
        alloc: Global,
        name: &[u8],
        descriptor: &[u8],
        pushed: Pushed,
    ) -> Result<(), AllocError>
        ensures { OnOk result ((field : Declaration) → last_set self.new field.name field.descriptor ≡ (if is_called name.now descriptor.now field then Some (pushed_of pushed) else last_set self.old field.name field.descriptor)) }
    {
        let key = key_of(alloc, name, descriptor)?;
        self.map.insert(key, pushed)?;
        Ok(())
    }

    /// What the field of this name and this descriptor was set to last.
    pub(crate) fn of(
        &self,
        alloc: Global,
        name: &[u8],
        descriptor: &[u8],
    ) -> Result<Option<Pushed>, AllocError>
        ensures { IfOk result (λ found. option_map pushed_of found ≡ last_set self.now name.now descriptor.now) }
    {
        let key = key_of(alloc, name, descriptor)?;
        Ok(self.map.get(&key).copied())
    }
}

/// Writes what is pushed to the field that the instruction names.
fn write(
    alloc: Global,
    pool: &Pool,
    pushed: Pushed,
    insn: &Insn,
    writes: &mut LastWrites,
) -> Result<(), AllocError>
    ensures { OnOk result (Sets (written_by pool.now (pushed_of pushed) insn.now) writes.old writes.new) }
{
    match target(pool, insn) {
        Some(named) => match writes.set(alloc, named.name, named.descriptor, pushed) {
            Ok(()) => Ok(()),
            Err(why) => Err(why),
        },
        None => Ok(()),
    }
}

/// Adds the writes of these pairs up to the return.
fn add_writes(
    alloc: Global,
    pool: &Pool,
    insns: &[(u32, Insn)],
    writes: &mut LastWrites,
) -> Result<(), AllocError>
    ensures { OnOk result (Sets (writes_from pool.now None insns.now) writes.old writes.new) }
{
    let mut held = None;
    for x in insns {
        match held {
            Some(pushed) => {
                match write(alloc, pool, pushed, &x.1, writes) {
                    Ok(()) => held = None,
                    Err(why) => return Err(why),
                }
            }
            None => {
                if is_plain_return(&x.1) {
                    return Ok(());
                }
                held = pushed_by(pool, &x.1);
            }
        }
    }
    Ok(())
}

/// The instructions of some code, where it is code.
fn insns_of(alloc: Global, code: &CodeAttr) -> Result<Option<CodeList>, IdsRefusal>
    ensures found { IfOk result (λ list. list ≡ insns_in (decoded code.now.code)) }
    ensures memory { IfErr result (λ why. why ≡ Memory) }
{
    match decode(alloc, code.code.as_slice()) {
        Ok(list) => Ok(Some(list)),
        Err(CodeRefusal::Memory) => Err(IdsRefusal::Memory),
        Err(_) => Ok(None),
    }
}

/// Adds the writes of an initialiser's code.
fn add_code(
    alloc: Global,
    pool: &Pool,
    code: &CodeAttr,
    writes: &mut LastWrites,
) -> Result<(), IdsRefusal>
    ensures set { OnOk result (Sets (writes_in pool.now (Some code.now)) writes.old writes.new) }
    ensures memory { IfErr result (λ why. why ≡ Memory) }
{
    match insns_of(alloc, code) {
        Ok(Some(list)) => match add_writes(alloc, pool, list.as_slice(), writes) {
            Ok(()) => Ok(()),
            Err(_) => Err(IdsRefusal::Memory),
        },
        Ok(None) => Ok(()),
        Err(why) => Err(why),
    }
}

/// The method is the initialiser of its class.
fn is_initialiser(pool: &Pool, method: &Member) -> bool
    ensures { result ≡ is_initialiser_method pool.now method.now }
{
    match pool.utf8(method.name) {
        Some(name) => INITIALISER == name,
        None => false,
    }
}

/// The code of a method, where it is the initialiser of its class.
fn initialiser_code<'a>(pool: &Pool, method: &'a Member) -> Option<&'a CodeAttr>
    ensures { option_copied result ≡ (if is_initialiser_method pool.now method.now then method.now.code else None) }
{
    if is_initialiser(pool, method) {
        method.code.as_ref()
    } else {
        None
    }
}

/// Adds the writes of a method, where it is the initialiser of its class.
fn add_method(
    alloc: Global,
    pool: &Pool,
    method: &Member,
    writes: &mut LastWrites,
) -> Result<(), IdsRefusal>
    ensures set { OnOk result (Sets (if is_initialiser_method pool.now method.now then writes_in pool.now method.now.code else []) writes.old writes.new) }
    ensures memory { IfErr result (λ why. why ≡ Memory) }
{
    match initialiser_code(pool, method) {
        Some(code) => match add_code(alloc, pool, code, writes) {
            Ok(()) => Ok(()),
            Err(why) => Err(why),
        },
        None => Ok(()),
    }
}

/// What the initialiser among these methods sets last.
pub(crate) fn last_writes(
    alloc: Global,
    pool: &Pool,
    methods: &[Member],
) -> Result<LastWrites, IdsRefusal>
    ensures set { IfOk result (λ writes. (field : Declaration) → last_set writes field.name field.descriptor ≡ last_write field (writes_of pool.now methods.now)) }
    ensures memory { IfErr result (λ why. why ≡ Memory) }
{
    let mut writes = LastWrites::new(alloc);
    for method in methods {
        match add_method(alloc, pool, method, &mut writes) {
            Ok(()) => {}
            Err(why) => return Err(why),
        }
    }
    Ok(writes)
}
