//! The bodies of methods, or the first refusal of what their code names.

ghost use Rattle.std.specs.Prelude.{◌≡◌, ◌≤◌, ◌-◌, ◌++◌, None, IfOk, OnOk, IfErr};
ghost use Rattle.std.specs.Option.{option_to_list};
ghost use Rattle.class_tree.specs.Set.{IsClass};
ghost use Rattle.class_code.specs.Code.{RiseFrom, decoded};
ghost use Rattle.jvm_model.specs.FirstOf.{IfThere};
ghost use Rattle.jvm_model.specs.CodeInsns.{insns_in};
ghost use Rattle.jvm_model.specs.Linking.{CodeNames, MethodNames, is_initialiser as is_initialiser_of};
ghost use Rattle.jvm_model.specs.Bodies.{AreEach, IsBody, HasType, coded_of};
ghost use Rattle.body_make.specs.Refusals.{no_memory};
ghost use Rattle.body_make.specs.Names.{Refuses, Adds, with_code, code_in, coded_at};

use crate::code::{guards_of, ops_of};
use crate::methods::INITIALISER;
use crate::refusal::{LinkRefusal, NO_MEMORY};
use body_form::{Body, OpList};
use class_code::{CodeRefusal, Insn, decode};
use class_file::{ClassFile, CodeAttr, Member, is_static};
use class_pool::{Descriptor, Pool, read_descriptor};
use class_tree::ClassSet;
use item_list::Items;
use std::alloc::Global;

/// The type of a method by its descriptor. A text that is none, which no class file has there, is answered as
/// want of memory.
fn type_of(alloc: Global, pool: &Pool, method: &Member) -> Result<Descriptor, LinkRefusal>
    ensures found { IfOk result (HasType pool.now method.now) }
    ensures memory { IfErr result (λ why. why ≡ no_memory) }
{
    match pool.utf8(method.descriptor) {
        Some(text) => match read_descriptor(alloc, text) {
            Ok(descriptor) => Ok(descriptor),
            Err(_) => Err(NO_MEMORY),
        },
        None => Err(NO_MEMORY),
    }
}

/// The body of a method with these instructions.
fn insns_body(
    alloc: Global,
    set: &ClassSet,
    class: u16,
    member: u16,
    file: &ClassFile,
    method: &Member,
    code: &CodeAttr,
    insns: &[(u32, Insn)],
) -> Result<Body, LinkRefusal>
    requires own { 32 ≤ class }
    requires within { IsClass set.now class }
    requires rise { RiseFrom 0 insns.now }
    ensures names { OnOk result (CodeNames set.now (class - 32) file.now member code.now insns.now None) }
    ensures refused { IfErr result (Refuses (CodeNames set.now (class - 32) file.now member code.now insns.now)) }
    ensures body { IfOk result (IsBody set.now (with_code class file.now member method.now code.now insns.now)) }
{
    let handlers = code.handlers.as_slice();
    let ops = match ops_of(alloc, set, class, member, file, handlers, insns) {
        Ok(ops) => ops,
        Err(why) => return Err(why),
    };
    let guards = match guards_of(alloc, set, class, member, file, handlers) {
        Ok(guards) => guards,
        Err(why) => return Err(why),
    };
    let descriptor = type_of(alloc, &file.pool, method)?;
    Ok(Body {
        class,
        method: member,
        params: descriptor.params,
        result: descriptor.result,
        instance: !is_static(method.flags),
        max_stack: code.max_stack,
        max_locals: code.max_locals,
        ops: OpList::from_vec(ops),
        handlers: Items::from_vec(guards),
    })
}

/// The body of a method with this code. There is none where the code is none.
fn code_body(
    alloc: Global,
    set: &ClassSet,
    class: u16,
    member: u16,
    file: &ClassFile,
    method: &Member,
    code: &CodeAttr,
) -> Result<Option<Body>, LinkRefusal>
    requires own { 32 ≤ class }
    requires within { IsClass set.now class }
    ensures names { OnOk result (IfThere (CodeNames set.now (class - 32) file.now member code.now) (insns_in (decoded code.now.code)) None) }
    ensures refused { IfErr result (Refuses (IfThere (CodeNames set.now (class - 32) file.now member code.now) (insns_in (decoded code.now.code)))) }
    ensures body { IfOk result (λ body. AreEach (IsBody set.now) (option_to_list (code_in class file.now member method.now code.now)) (option_to_list body)) }
{
    match decode(alloc, code.code.as_slice()) {
        Ok(list) => {
            match insns_body(
                alloc,
                set,
                class,
                member,
                file,
                method,
                code,
                list.as_slice(),
            ) {
                Ok(body) => Ok(Some(body)),
                Err(why) => Err(why),
            }
        }
        Err(CodeRefusal::Memory) => Err(NO_MEMORY),
        Err(CodeRefusal::Unsupported { .. } | CodeRefusal::BadCode { .. }) => Ok(None),
    }
}

/// The body of a method, where it has code.
fn method_body(
    alloc: Global,
    set: &ClassSet,
    class: u16,
    member: u16,
    file: &ClassFile,
    method: &Member,
) -> Result<Option<Body>, LinkRefusal>
    requires own { 32 ≤ class }
    requires within { IsClass set.now class }
    ensures names { OnOk result (MethodNames set.now (class - 32) file.now member method.now None) }
    ensures refused { IfErr result (Refuses (MethodNames set.now (class - 32) file.now member method.now)) }
    ensures body { IfOk result (λ body. AreEach (IsBody set.now) (option_to_list (coded_at class file.now member method.now)) (option_to_list body)) }
{
    match &method.code {
        Some(code) => code_body(alloc, set, class, member, file, method, code),
        None => Ok(None),
    }
}

/// The method is the initialiser of its class.
fn is_initialiser(pool: &Pool, method: &Member) -> bool
    ensures { result ≡ is_initialiser_of pool.now method.now }
{
    match pool.utf8(method.name) {
        Some(name) => INITIALISER == name,
        None => false,
    }
}

/// Adds a body, where it is there.
fn add_body(bodies: &mut Vec<Body>, body: Option<Body>) -> Result<(), LinkRefusal>
    ensures added { OnOk result (bodies.new.items ≡ bodies.old.items ++ option_to_list body) }
    ensures memory { IfErr result (λ why. why ≡ no_memory) }
{
    match body {
        Some(body) => {
            bodies.push(body)?;
            Ok(())
        }
        None => Ok(()),
    }
}

/// Adds the body of a method that has code and is no initialiser. What the code of an initialiser names is
/// tested too.
pub(crate) fn add_method(
    alloc: Global,
    set: &ClassSet,
    class: u16,
    member: u16,
    file: &ClassFile,
    method: &Member,
    bodies: &mut Vec<Body>,
) -> Result<(), LinkRefusal>
    requires own { 32 ≤ class }
    requires within { IsClass set.now class }
    ensures names { OnOk result (MethodNames set.now (class - 32) file.now member method.now None) }
    ensures refused { IfErr result (Refuses (MethodNames set.now (class - 32) file.now member method.now)) }
    ensures added { OnOk result (Adds (IsBody set.now) (option_to_list (coded_of class file.now member method.now)) bodies.old.items bodies.new.items) }
{
    let body = method_body(alloc, set, class, member, file, method)?;
    if is_initialiser(&file.pool, method) {
        return Ok(());
    }
    add_body(bodies, body)
}
