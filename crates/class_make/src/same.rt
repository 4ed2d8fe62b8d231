//! Two records of class files are the same.

ghost use Rattle.std.specs.Prelude.{◌≡◌, ◌↔◌, IsTrue};

use class_file::{ClassFile, CodeAttr, HandlerRow, Member};
use class_pool::Const;

fn is_same_slot(a: &Option<Const>, b: &Option<Const>) -> bool
    ensures { IsTrue result ↔ (a.now ≡ b.now) }
{
    match a {
        Some(x) => match b {
            Some(y) => x == y,
            None => false,
        },
        None => b.is_none(),
    }
}

fn are_same_slots(a: &[Option<Const>], b: &[Option<Const>]) -> bool
    ensures { IsTrue result ↔ (a.now ≡ b.now) }
{
    if a.len() != b.len() {
        return false;
    }
    for i in 0..a.len() {
        if !is_same_slot(&a[i], &b[i]) {
            return false;
        }
    }
    true
}

fn are_same_rows(a: &[HandlerRow], b: &[HandlerRow]) -> bool
    ensures { IsTrue result ↔ (a.now ≡ b.now) }
{
    a == b
}

fn is_same_attribute(a: &CodeAttr, b: &CodeAttr) -> bool
    ensures { IsTrue result ↔ (a.now ≡ b.now) }
{
    a.max_stack == b.max_stack
        && a.max_locals == b.max_locals
        && a.code.as_slice() == b.code.as_slice()
        && are_same_rows(a.handlers.as_slice(), b.handlers.as_slice())
}

fn is_same_code(a: &Option<CodeAttr>, b: &Option<CodeAttr>) -> bool
    ensures { IsTrue result ↔ (a.now ≡ b.now) }
{
    match a {
        Some(x) => match b {
            Some(y) => is_same_attribute(x, y),
            None => false,
        },
        None => b.is_none(),
    }
}

fn is_same_member(a: &Member, b: &Member) -> bool
    ensures { IsTrue result ↔ (a.now ≡ b.now) }
{
    a.flags == b.flags
        && a.name == b.name
        && a.descriptor == b.descriptor
        && a.constant == b.constant
        && is_same_code(&a.code, &b.code)
}

fn are_same_members(a: &[Member], b: &[Member]) -> bool
    ensures { IsTrue result ↔ (a.now ≡ b.now) }
{
    if a.len() != b.len() {
        return false;
    }
    for i in 0..a.len() {
        if !is_same_member(&a[i], &b[i]) {
            return false;
        }
    }
    true
}

/// The numbers and the pools of the records are the same.
fn is_same_prefix(a: &ClassFile, b: &ClassFile) -> bool
    ensures { IsTrue result
        ↔ ((a.now.minor ≡ b.now.minor) × (a.now.major ≡ b.now.major) × (a.now.pool ≡ b.now.pool)) }
{
    a.minor == b.minor && a.major == b.major && are_same_slots(a.pool.slots(), b.pool.slots())
}

/// What stands between the pools and the fields is the same.
fn is_same_head(a: &ClassFile, b: &ClassFile) -> bool
    ensures { IsTrue result
        ↔ ((a.now.flags ≡ b.now.flags) × (a.now.this_class ≡ b.now.this_class)
        × (a.now.super_class ≡ b.now.super_class) × (a.now.interfaces ≡ b.now.interfaces)) }
{
    a.flags == b.flags
        && a.this_class == b.this_class
        && a.super_class == b.super_class
        && a.interfaces.as_slice() == b.interfaces.as_slice()
}

pub(crate) fn is_same_class(a: &ClassFile, b: &ClassFile) -> bool
    ensures { IsTrue result ↔ (a.now ≡ b.now) }
{
    is_same_prefix(a, b)
        && is_same_head(a, b)
        && are_same_members(a.fields.as_slice(), b.fields.as_slice())
        && are_same_members(a.methods.as_slice(), b.methods.as_slice())
}
