//! The initialisers of classes: a run of pairs, each of which pushes a constant and sets a static field of the
//! class to it, and then a return.

ghost use Rattle.std.specs.Prelude.{◌≡◌, ◌⊎◌, ◌≤◌, ◌-◌, ◌&&◌, ℕ, List, None, Some, false, length, option_map, option_and_then, if◌then◌else◌, IfOk, OnOk, IfErr};
ghost use Rattle.std.specs.List.{list_any};
ghost use Rattle.std.specs.Option.{option_map_or};
ghost use Rattle.class_tree.specs.Set.{own_name as own_name_of};
ghost use Rattle.class_tree.specs.Members.{in_file, is_called as is_called_so};
ghost use Rattle.class_file.specs.declared.record.ClassFile.{ClassFile as File};
ghost use Rattle.class_code.specs.Code.{Insns};
ghost use Rattle.jvm_model.specs.Phases.{first_refusal};
ghost use Rattle.jvm_model.specs.Resolution.{field_name_at};
ghost use Rattle.jvm_model.specs.Initialisers.{has_kind as has_kind_at, pushed_by as pushed_by_insn, takes as takes_kind, is_target as is_target_of, names_target as names_target_of, sets as sets_by, is_plain_return as is_plain_return_insn, fails_after_return, fails_from};
ghost use Rattle.jvm_model.specs.Linking.{is_initialiser as is_initialiser_method, initialiser_fault as initialiser_fault_of, initialiser_refusal};
ghost use Rattle.body_make.specs.Refusals.{no_memory, refusal_of};
ghost use Rattle.body_make.specs.MemberUses.{name_of};
ghost use Rattle.body_make.specs.Pushes.{pushed_of, GoesOn, method_fault as method_fault_of};

use crate::fields::field_name;
use crate::kinds::{is_reference_kind, is_whole_kind, kind_at};
use crate::methods::{INITIALISER, text_at};
use crate::places::refusal_at;
use crate::refusal::{LinkCause, LinkRefusal, NO_MEMORY};
use class_code::{CodeRefusal, Insn, decode};
use class_file::{ClassFile, CodeAttr, Member, is_static};
use class_pool::{Kind, MemberName, Pool};
use std::alloc::Global;

/// What an initialiser has pushed.
#[derive(Clone, Copy, Debug, PartialEq, Eq)]
pub(crate) enum Pushed {
    Number(i32),
    Null,
}

/// What an instruction of an initialiser does.
#[derive(Clone, Copy, Debug, PartialEq, Eq)]
pub(crate) enum Next {
    /// It goes on, with what it pushed, or with nothing where it set a field.
    Holds(Option<Pushed>),
    /// It returns.
    Returns,
    /// No run of pairs and a return goes on with it.
    Fails,
}

// ---- pushes

/// What an instruction pushes, where it is a push of a constant.
fn pushed_by(pool: &Pool, insn: &Insn) -> Option<Pushed>
    ensures { option_map pushed_of result ≡ pushed_by_insn pool.now insn.now }
{
    match insn {
        Insn::Push(number) => Some(Pushed::Number(*number)),
        Insn::Ldc(index) => Some(Pushed::Number(pool.integer(*index)?)),
        Insn::Null => Some(Pushed::Null),
        _ => None,
    }
}

/// A field of the type takes what is pushed.
fn takes(pushed: Pushed, kind: &Kind) -> bool
    ensures { result ≡ takes_kind (pushed_of pushed) kind.now }
{
    match pushed {
        Pushed::Number(_) => is_whole_kind(kind),
        Pushed::Null => is_reference_kind(kind),
    }
}

// ---- fields

/// The type that the text at an index names takes what is pushed.
fn takes_at(alloc: Global, pool: &Pool, pushed: Pushed, index: u16) -> Result<bool, LinkRefusal>
    ensures found { IfOk result (λ is. is ≡ has_kind_at (takes_kind (pushed_of pushed)) pool.now index) }
    ensures memory { IfErr result (λ why. why ≡ no_memory) }
{
    match kind_at(alloc, pool, index) {
        Ok(Some(kind)) => Ok(takes(pushed, &kind)),
        Ok(None) => Ok(false),
        Err(why) => Err(why),
    }
}

/// The field is called so.
fn is_called(pool: &Pool, named: MemberName<'_>, field: &Member) -> bool
    ensures { result ≡ is_called_so (name_of named.entry).name (name_of named.entry).descriptor (in_file pool.now field.now) }
{
    named.name == text_at(pool, field.name) && named.descriptor == text_at(pool, field.descriptor)
}

/// The field is static, is called so, and takes what is pushed.
fn is_target(
    alloc: Global,
    pool: &Pool,
    pushed: Pushed,
    named: MemberName<'_>,
    field: &Member,
) -> Result<bool, LinkRefusal>
    ensures found { IfOk result (λ is. is ≡ is_target_of pool.now (pushed_of pushed) (name_of named.entry) field.now) }
    ensures memory { IfErr result (λ why. why ≡ no_memory) }
{
    if is_static(field.flags) && is_called(pool, named, field) {
        takes_at(alloc, pool, pushed, field.descriptor)
    } else {
        Ok(false)
    }
}

/// One of the fields is so.
fn has_target(
    alloc: Global,
    pool: &Pool,
    pushed: Pushed,
    named: MemberName<'_>,
    fields: &[Member],
) -> Result<bool, LinkRefusal>
    ensures found { IfOk result (λ is. is ≡ list_any (is_target_of pool.now (pushed_of pushed) (name_of named.entry)) fields.now) }
    ensures memory { IfErr result (λ why. why ≡ no_memory) }
{
    for field in fields {
        match is_target(alloc, pool, pushed, named, field) {
            Ok(true) => return Ok(true),
            Ok(false) => {}
            Err(why) => return Err(why),
        }
    }
    Ok(false)
}

/// The name of the class of a file.
fn own_name(file: &ClassFile) -> &[u8]
    ensures { result.now ≡ own_name_of file.now }
{
    match file.pool.class_name(file.this_class) {
        Some(name) => name,
        None => &[],
    }
}

/// The entry names a field of this class, which the class declares and which takes what is pushed.
fn names_target(
    alloc: Global,
    file: &ClassFile,
    pushed: Pushed,
    named: MemberName<'_>,
) -> Result<bool, LinkRefusal>
    ensures found { IfOk result (λ is. is ≡ names_target_of file.now (pushed_of pushed) (name_of named.entry)) }
    ensures memory { IfErr result (λ why. why ≡ no_memory) }
{
    if named.class == own_name(file) {
        has_target(alloc, &file.pool, pushed, named, file.fields.as_slice())
    } else {
        Ok(false)
    }
}

/// The entry at an index names such a field.
fn names_target_at(
    alloc: Global,
    file: &ClassFile,
    pushed: Pushed,
    index: u16,
) -> Result<bool, LinkRefusal>
    ensures found { IfOk result (λ is. is ≡ option_map_or (names_target_of file.now (pushed_of pushed)) (field_name_at file.now.pool index) false) }
    ensures memory { IfErr result (λ why. why ≡ no_memory) }
{
    match field_name(&file.pool, index) {
        Some(named) => names_target(alloc, file, pushed, named),
        None => Ok(false),
    }
}

/// The instruction writes what is pushed to such a field.
fn sets(alloc: Global, file: &ClassFile, pushed: Pushed, insn: &Insn) -> Result<bool, LinkRefusal>
    ensures found { IfOk result (λ is. is ≡ sets_by file.now (pushed_of pushed) insn.now) }
    ensures memory { IfErr result (λ why. why ≡ no_memory) }
{
    match insn {
        Insn::PutStatic(index) => names_target_at(alloc, file, pushed, *index),
        _ => Ok(false),
    }
}

/// The instruction is the return of a method without a result.
fn is_plain_return(insn: &Insn) -> bool
    ensures { result ≡ is_plain_return_insn insn.now }
{
    matches!(insn, Insn::Return(None))
}

// ---- the code of an initialiser

/// What an instruction does where no push waits for its field.
#[tactic(auto, using(crate::proofs::Initialised::goes_return, crate::proofs::Initialised::goes_push, crate::proofs::Initialised::goes_nowhere))]
fn first_of_pair(pool: &Pool, insn: &Insn) -> Next
    ensures { (file : File) (end pc : ℕ) (insns : Insns) → file.pool ≡ pool.now → GoesOn file end None (pc, insn.now) insns result }
{
    if is_plain_return(insn) {
        return Next::Returns;
    }
    match pushed_by(pool, insn) {
        Some(pushed) => Next::Holds(Some(pushed)),
        None => Next::Fails,
    }
}

/// What an instruction does where a push waits for its field.
#[tactic(auto, using(crate::proofs::Initialised::goes_set, crate::proofs::Initialised::goes_unset))]
fn second_of_pair(
    alloc: Global,
    file: &ClassFile,
    pushed: Pushed,
    insn: &Insn,
) -> Result<Next, LinkRefusal>
    ensures found { IfOk result (λ next. (end pc : ℕ) (insns : Insns) → GoesOn file.now end (Some (pushed_of pushed)) (pc, insn.now) insns next) }
    ensures memory { IfErr result (λ why. why ≡ no_memory) }
{
    match sets(alloc, file, pushed, insn) {
        Ok(true) => Ok(Next::Holds(None)),
        Ok(false) => Ok(Next::Fails),
        Err(why) => Err(why),
    }
}

/// What an instruction does, where this is held before it.
fn step_after(
    alloc: Global,
    file: &ClassFile,
    held: Option<Pushed>,
    insn: &Insn,
) -> Result<Next, LinkRefusal>
    ensures found { IfOk result (λ next. (end pc : ℕ) (insns : Insns) → GoesOn file.now end (option_map pushed_of held) (pc, insn.now) insns next) }
    ensures memory { IfErr result (λ why. why ≡ no_memory) }
{
    match held {
        Some(pushed) => second_of_pair(alloc, file, pushed, insn),
        None => Ok(first_of_pair(&file.pool, insn)),
    }
}

/// The first pc after a return, where there is one.
fn first_pc(insns: &[(u32, Insn)]) -> Option<u32>
    ensures { result ≡ fails_after_return insns.now }
{
    match insns.first() {
        Some(x) => Some(x.0),
        None => None,
    }
}

/// The lowest pc at which no run of pairs and then a return goes on. Code that ends before it fails at its
/// end.
fn fault_pc(
    alloc: Global,
    file: &ClassFile,
    end: u32,
    insns: &[(u32, Insn)],
) -> Result<Option<u32>, LinkRefusal>
    ensures found { IfOk result (λ pc. pc ≡ fails_from file.now end None insns.now) }
    ensures memory { IfErr result (λ why. why ≡ no_memory) }
{
    let mut held = None;
    for (index, x) in insns.iter().enumerate() {
        match step_after(alloc, file, held, &x.1) {
            Ok(Next::Holds(pushed)) => held = pushed,
            Ok(Next::Returns) => return Ok(first_pc(&insns[index + 1..])),
            Ok(Next::Fails) => return Ok(Some(x.0)),
            Err(why) => return Err(why),
        }
    }
    Ok(Some(end))
}

/// The first pc at which some code is of another form. Code of 4,294,967,296 bytes, which no class file has,
/// is answered as want of memory.
fn code_fault(alloc: Global, file: &ClassFile, code: &CodeAttr) -> Result<Option<u32>, LinkRefusal>
    ensures found { IfOk result (λ pc. pc ≡ initialiser_fault_of file.now code.now) }
    ensures memory { IfErr result (λ why. why ≡ no_memory) }
{
    match u32::try_from(code.code.len()) {
        Ok(end) => match decode(alloc, code.code.as_slice()) {
            Ok(list) => fault_pc(alloc, file, end, list.as_slice()),
            Err(CodeRefusal::Memory) => Err(NO_MEMORY),
            Err(_) => Ok(None),
        },
        Err(_) => Err(NO_MEMORY),
    }
}

/// The method is the initialiser of its class.
fn is_initialiser(pool: &Pool, method: &Member) -> bool
    ensures { result ≡ is_initialiser_method pool.now method.now }
{
    match pool.utf8(method.name) {
        Some(name) => INITIALISER == name,
        None => false,
    }
}

/// The first pc at which the code of a method is of another form, where it is the initialiser of its class.
fn method_fault(
    alloc: Global,
    file: &ClassFile,
    method: &Member,
) -> Result<Option<u32>, LinkRefusal>
    ensures found { IfOk result (λ pc. pc ≡ method_fault_of file.now method.now) }
    ensures memory { IfErr result (λ why. why ≡ no_memory) }
{
    if !is_initialiser(&file.pool, method) {
        return Ok(None);
    }
    match &method.code {
        Some(code) => code_fault(alloc, file, code),
        None => Ok(None),
    }
}

/// Tests the initialiser of a class among these methods of it.
pub(crate) fn test_initialisers(
    alloc: Global,
    class: u16,
    file: &ClassFile,
    methods: &[Member],
) -> Result<(), LinkRefusal>
    requires { 32 ≤ class }
    ensures passed { OnOk result (first_refusal (initialiser_refusal (class - 32) file.now) 0 methods.now ≡ None) }
    ensures refused { IfErr result (λ why. (why ≡ no_memory) ⊎ (first_refusal (initialiser_refusal (class - 32) file.now) 0 methods.now ≡ Some (refusal_of why))) }
{
    for (member, method) in methods.iter().enumerate() {
        match method_fault(alloc, file, method) {
            Ok(None) => {}
            Ok(Some(pc)) => return Err(refusal_at(LinkCause::BadInitialiser, class, member, pc, 0)),
            Err(why) => return Err(why),
        }
    }
    Ok(())
}
