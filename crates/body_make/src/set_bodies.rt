//! The bodies of a set of classes, or the first refusal of what the classes declare and name.

ghost use Rattle.std.specs.Prelude.{◌≡◌, ◌⊎◌, ◌<◌, ◌≤◌, ◌-◌, ℕ, List, None, Some, length, slice_get, OnOk, IfOk, IfErr};
ghost use Rattle.class_tree.specs.Set.{IsClass};
ghost use Rattle.jvm_model.specs.declared.refusal.Refusal.{Refusal};
ghost use Rattle.jvm_model.specs.FirstOf.{FirstOf};
ghost use Rattle.jvm_model.specs.Linking.{MethodNames, ClassLinks, Linking};
ghost use Rattle.jvm_model.specs.Entry.{entry_refusal};
ghost use Rattle.jvm_model.specs.Bodies.{IsBody, AreBodies, coded_from};
ghost use Rattle.body_make.specs.declared.refusal.LinkCause.TheVariants.{Memory};
ghost use Rattle.body_make.specs.Refusals.{refusal_of};
ghost use Rattle.body_make.specs.Names.{Refuses, Adds, IsUnlinked, GivesRefusal, GivesBodies};

use crate::declares::test_class;
use crate::entry::test_entry;
use crate::method::add_method;
use crate::refusal::LinkRefusal;
use body_form::Body;
use class_file::{ClassFile, Member};
use class_tree::ClassSet;
use library::FIRST_OWN;
use std::alloc::Global;

/// Adds the bodies of these methods of a class.
fn add_methods(
    alloc: Global,
    set: &ClassSet,
    class: u16,
    file: &ClassFile,
    methods: &[Member],
    bodies: &mut Vec<Body>,
) -> Result<(), LinkRefusal>
    requires own { 32 ≤ class }
    requires within { IsClass set.now class }
    requires counted { length methods.now ≤ 65535 }
    ensures names { OnOk result (FirstOf (MethodNames set.now (class - 32) file.now) 0 methods.now None) }
    ensures refused { IfErr result (Refuses (FirstOf (MethodNames set.now (class - 32) file.now) 0 methods.now)) }
    ensures added { OnOk result (Adds (IsBody set.now) (coded_from class file.now 0 methods.now) bodies.old.items bodies.new.items) }
{
    for (member, method) in methods.iter().enumerate() {
        match add_method(alloc, set, class, member as u16, file, method, bodies) {
            Ok(()) => {}
            Err(why) => return Err(why),
        }
    }
    Ok(())
}

/// Adds the bodies of the methods of a class with this file.
fn add_class(
    alloc: Global,
    set: &ClassSet,
    class: u16,
    file: &ClassFile,
    bodies: &mut Vec<Body>,
) -> Result<(), LinkRefusal>
    requires own { 32 ≤ class }
    requires within { class - 32 < length set.now }
    requires there { slice_get set.now (class - 32) ≡ Some file.now }
    requires counted { length file.now.methods ≤ 65535 }
    ensures linked { OnOk result (ClassLinks set.now (class - 32) file.now None) }
    ensures refused { IfErr result (Refuses (ClassLinks set.now (class - 32) file.now)) }
    ensures added { OnOk result (Adds (IsBody set.now) (coded_from class file.now 0 file.now.methods) bodies.old.items bodies.new.items) }
{
    match test_class(alloc, set, class) {
        Ok(()) => {}
        Err(why) => return Err(why),
    }
    match add_methods(alloc, set, class, file, file.methods.as_slice(), bodies) {
        Ok(()) => Ok(()),
        Err(why) => Err(why),
    }
}

/// The bodies of the methods of a set whose classes stand together.
fn linked_bodies(alloc: Global, set: &ClassSet) -> Result<Vec<Body>, LinkRefusal>
    ensures linked { OnOk result (Linking set.now None) }
    ensures refused { IfErr result (Refuses (Linking set.now)) }
    ensures bodies { IfOk result (λ v. AreBodies set.now v.items) }
{
    let mut bodies = Vec::new(alloc);
    for position in 0..set.file_count() {
        let class = FIRST_OWN + position;
        match add_class(alloc, set, class, set.file(class), &mut bodies) {
            Ok(()) => {}
            Err(why) => return Err(why),
        }
    }
    Ok(bodies)
}

/// The bodies of the methods of a set, in the order of its files and of their methods, without those of
/// initialisers. An instruction that is not reached is a nop. A refusal is the first one: class by class what it
/// declares and then what the code of its methods names, and after all classes that no file has an entry (JVMS
/// 4.7.3, 5.4.3 to 5.4.5, 6.5). A method whose code is none has no body, and a descriptor that is none is answered
/// as want of memory; no class file has them.
pub fn bodies(alloc: Global, set: &ClassSet) -> Result<Vec<Body>, LinkRefusal>
    // What is answered are the bodies of a set that is linked and has an entry, and those of such a set are answered.
    ensures linked { OnOk result (Linking set.now None) }
    ensures entry { OnOk result (entry_refusal set.now ≡ None) }
    ensures bodies { IfOk result (λ v. AreBodies set.now v.items) }
    ensures only { Linking set.now None → entry_refusal set.now ≡ None → GivesBodies result }

    // Which refusal it is.
    ensures refused { IfErr result (λ why. (why.cause ≡ Memory) ⊎ IsUnlinked set.now (refusal_of why)) }
    ensures refused_only { (why : Refusal) → IsUnlinked set.now why → GivesRefusal result why }
{
    let bodies = match linked_bodies(alloc, set) {
        Ok(bodies) => bodies,
        Err(why) => return Err(why),
    };
    match test_entry(set) {
        Ok(()) => Ok(bodies),
        Err(why) => Err(why),
    }
}
