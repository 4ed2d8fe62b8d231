//! What is known at first (JVMS 4.10.1.6): the arguments in the first locals, at pc 0.

ghost use Rattle.std.specs.Prelude.{◌≡◌, ◌<◌, ℕ, nat_eq, if◌then◌else◌, None, Some, length, get_or, map, replicate, IfOk};
ghost use Rattle.std.specs.List.{AllByRecursion, Contains};
ghost use Rattle.library.specs.Members.{methods_of as natives_of};
ghost use Rattle.class_tree.specs.Members.{in_file, in_library};
ghost use Rattle.class_tree.specs.Set.{IsClass};
ghost use Rattle.class_tree.specs.Tree.{Gathers};
ghost use Rattle.body_form.specs.Flow.{pc_at};
ghost use Rattle.jvm_model.specs.TypesFrames.{arguments_of, is_constructor as is_constructor_of, parameter_of, receiver_of, start_frame as start_frame_of};
ghost use Rattle.jvm_model.specs.TypesNames.{IsOfSet};
ghost use Rattle.type_table.specs.Changes.{IsFound};
ghost use Rattle.flow_verify.specs.Outcomes.{IsFirst};
ghost use Rattle.flow_verify.specs.Starting.{has_constructor, IsStored};

use crate::arriving::put;
use crate::constructors::CONSTRUCTOR;
use crate::frames::{Frames, Known};
use crate::kinds::value_of_kind;
use body_form::{Body, VType};
use class_file::ClassFile;
use class_pool::{Kind, TypeBase, TypeRef};
use class_tree::ClassSet;
use library::{FIRST_OWN, methods_of};
use std::alloc::{AllocError, Global};
use type_table::{FrameId, Memory, Store};

/// What is known before the first round, and its wave.
#[derive(Debug, Drop)]
pub(crate) struct First {
    pub(crate) frames: Frames,
    pub(crate) wave: Vec<usize>,
}

// ---- the start frame

/// The method at a position of a class of the library is a constructor.
fn is_native_constructor(class: u16, method: u16) -> bool
    ensures { result ≡ has_constructor (map in_library (natives_of class)) method }
{
    match methods_of(class).get(usize::from(method)) {
        Some(native) => native.name() == CONSTRUCTOR,
        None => false,
    }
}

/// The method at a position of a file is a constructor.
fn is_file_constructor(file: &ClassFile, method: u16) -> bool
    ensures { result ≡ has_constructor (map (in_file file.now.pool) file.now.methods) method }
{
    match file.methods.as_slice().get(usize::from(method)) {
        Some(member) => match file.pool.utf8(member.name) {
            Some(name) => name == CONSTRUCTOR,
            None => false,
        },
        None => false,
    }
}

/// The body is that of a constructor.
fn is_constructor(set: &ClassSet, body: &Body) -> bool
    requires { IsClass set.now body.now.class }
    ensures { result ≡ is_constructor_of set.now body.now }
{
    if body.class < FIRST_OWN {
        is_native_constructor(body.class, body.method)
    } else {
        is_file_constructor(set.file(body.class), body.method)
    }
}

/// The object that a method is called on, if it is on one.
fn receiver(alloc: Global, set: &ClassSet, body: &Body) -> Result<Vec<VType>, Memory>
    requires { IsClass set.now body.now.class }
    ensures { IfOk result (λ types. types.items ≡ receiver_of set.now body.now) }
{
    let mut types = Vec::new(alloc);
    if body.instance {
        let object = if is_constructor(set, body) {
            VType::This
        } else {
            VType::Ref(TypeRef {
                dims: 0,
                base: TypeBase::Class(body.class),
            })
        };
        types.push(object)?;
    }
    Ok(types)
}

/// What a parameter holds.
fn parameter(set: &ClassSet, kind: &Kind) -> VType
    ensures { result ≡ parameter_of set.now kind.now }
{
    match value_of_kind(set, kind) {
        Some(value) => value,
        None => VType::Top,
    }
}

/// What the first locals hold.
fn arguments(alloc: Global, set: &ClassSet, body: &Body) -> Result<Vec<VType>, Memory>
    requires { IsClass set.now body.now.class }
    ensures { IfOk result (λ types. types.items ≡ arguments_of set.now body.now) }
{
    let mut types = receiver(alloc, set, body)?;
    for kind in body.params.as_slice() {
        match types.push(parameter(set, kind)) {
            Ok(()) => {}
            Err(why) => return Err(why.into()),
        }
    }
    Ok(types)
}

/// A store with the frame that a method starts with. A method has 255 arguments at most (JVMS 4.3.3); where one had more
/// than 65,535, the answer would be want of memory.
fn start_frame(alloc: Global, set: &ClassSet, body: &Body) -> Result<(Store, FrameId), Memory>
    requires { IsClass set.now body.now.class }
    ensures { IfOk result (λ first. IsFound first.0 first.1 (start_frame_of set.now body.now)) }
{
    let arguments = arguments(alloc, set, body)?;
    let count = usize::from(body.max_locals).max(arguments.len());
    if usize::from(u16::MAX) < count {
        return Err(AllocError);
    }
    let mut store = Store::new(alloc, count as u16);
    let frame = store.start(arguments.as_slice(), is_constructor(set, body))?;
    Ok((store, frame))
}

// ---- the first table

/// So many entries without a frame.
fn no_entries(alloc: Global, count: usize) -> Result<Vec<Option<Known>>, Memory>
    ensures { IfOk result (λ known. known.items ≡ replicate count None) }
{
    vec![in alloc; None; count]
}

/// A frame of a store at pc 0, if an instruction is there.
fn at_first(alloc: Global, body: &Body, store: Store, frame: FrameId) -> Result<First, Memory>
    ensures { IfOk result (λ first. IsStored body.now.ops store frame first.frames first.wave.items) }
{
    let known = no_entries(alloc, body.ops.as_slice().len())?;
    let mut frames = Frames { store, known };
    let mut wave = Vec::new(alloc);
    match body.ops.position_of(0) {
        Some(position) => {
            put(&mut frames, position, frame, 0, &mut wave)?;
            Ok(First { frames, wave })
        }
        None => Ok(First { frames, wave }),
    }
}

/// The start frame is known at pc 0, and no other.
pub(crate) fn start(alloc: Global, set: &ClassSet, body: &Body) -> Result<First, Memory>
    requires closed { Gathers set.now None }
    requires names { IsOfSet set.now body.now }
    ensures { IfOk result (λ first. IsFirst set.now body.now first.frames first.wave.items) }
{
    let (store, frame) = start_frame(alloc, set, body)?;
    at_first(alloc, body, store, frame)
}
