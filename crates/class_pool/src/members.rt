//! What the references of the constant pool name.

ghost use Rattle.std.specs.Prelude.{◌≡◌, option_map};
ghost use Rattle.class_pool.specs.Members.{name_and_type_at, method_name_at};

use crate::pool::{Const, Pool};

/// A class's name, a member's name and its descriptor, as their texts encode them.
#[derive(Clone, Copy, Debug, PartialEq, Eq)]
pub struct MemberName<'a> {
    pub class: &'a [u8],
    pub name: &'a [u8],
    pub descriptor: &'a [u8],
}

/// What the method reference at an index names (JVMS 4.4.2). `None` where the entry is no method
/// reference, or names what is not there.
pub fn method_name(pool: &Pool, index: u16) -> Option<MemberName<'_>>
    ensures { option_map (λ m. record { class = m.class.now; name = m.name.now; descriptor = m.descriptor.now }) result
        ≡ method_name_at pool.now index }
{
    match pool.get(index)? {
        Const::Method(class, name_and_type) => {
            let class = pool.class_name(*class)?;
            let (name, descriptor) = name_and_type_in(pool, *name_and_type)?;
            Some(MemberName {
                class,
                name,
                descriptor,
            })
        }
        _ => None,
    }
}

/// The name and the descriptor that the entry at an index names (JVMS 4.4.6). `None` where it is no
/// name and type.
pub fn name_and_type_in(pool: &Pool, index: u16) -> Option<(&[u8], &[u8])>
    ensures { option_map (λ parts. (parts.0.now, parts.1.now)) result ≡ name_and_type_at pool.now index }
{
    match pool.get(index)? {
        Const::NameAndType(name, descriptor) => Some((pool.utf8(*name)?, pool.utf8(*descriptor)?)),
        _ => None,
    }
}
