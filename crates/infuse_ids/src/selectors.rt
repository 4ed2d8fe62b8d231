//! The selectors of a set, over its classes in the order of their ids.

ghost use Rattle.std.specs.Prelude.{◌≡◌, ◌≤◌, [], map, filter, OnOk, IfOk};
ghost use Rattle.std.specs.List.{AllByRecursion, fold, flat_map};
ghost use Rattle.class_tree.specs.Members.{in_file, methods_of};
ghost use Rattle.jvm_model.specs.ImageNumbering.{is_selected as is_selected_of, with_selector};

use crate::classes::file_of;
use crate::texts::text_at;
use class_file::{Member, is_private, is_static};
use class_pool::Pool;
use class_tree::ClassSet;
use jvm_model::SelectorList;
use std::alloc::{AllocError, Global};

/// The name of constructors (JVMS 2.9).
const CONSTRUCTOR: &[u8] = b"<init>";

/// The name of the initialisers of classes (JVMS 2.9).
const INITIALISER: &[u8] = b"<clinit>";

/// Calls select the method: it is neither static nor private, no constructor and no initialiser.
fn is_selected(pool: &Pool, method: &Member) -> bool
    ensures { result ≡ is_selected_of (in_file pool.now method.now) }
{
    !is_static(method.flags)
        && !is_private(method.flags)
        && text_at(pool, method.name) != CONSTRUCTOR
        && text_at(pool, method.name) != INITIALISER
}

/// Adds the selectors of these methods.
fn add_methods(
    alloc: Global,
    pool: &Pool,
    methods: &[Member],
    selectors: &mut SelectorList,
) -> Result<(), AllocError>
    ensures { OnOk result (selectors.new ≡ fold with_selector selectors.old (filter is_selected_of (map (in_file pool.now) methods.now))) }
{
    for method in methods {
        if is_selected(pool, method) {
            let name = text_at(pool, method.name);
            match selectors.add(alloc, name, text_at(pool, method.descriptor)) {
                Ok(()) => {}
                Err(why) => return Err(why),
            }
        }
    }
    Ok(())
}

/// Adds the selectors of a class.
fn add_class(
    alloc: Global,
    set: &ClassSet,
    class: u16,
    selectors: &mut SelectorList,
) -> Result<(), AllocError>
    requires { 32 ≤ class }
    ensures { OnOk result (selectors.new ≡ fold with_selector selectors.old (filter is_selected_of (methods_of set.now class))) }
{
    match file_of(set, class) {
        Some(file) => add_methods(alloc, &file.pool, file.methods.as_slice(), selectors),
        None => Ok(()),
    }
}

/// The selectors of a set, each at first sight.
pub(crate) fn selector_order(
    alloc: Global,
    set: &ClassSet,
    order: &[u16],
) -> Result<SelectorList, AllocError>
    requires { AllByRecursion (λ class. 32 ≤ class) order.now }
    ensures { IfOk result (λ selectors. selectors ≡ fold with_selector [] (filter is_selected_of (flat_map (methods_of set.now) order.now))) }
{
    let mut selectors = SelectorList::new(alloc);
    for class in order {
        match add_class(alloc, set, *class, &mut selectors) {
            Ok(()) => {}
            Err(why) => return Err(why),
        }
    }
    Ok(selectors)
}
