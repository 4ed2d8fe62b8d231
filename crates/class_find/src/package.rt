//! The packages of classes.

ghost use Rattle.std.specs.Prelude.{◌≡◌};
ghost use Rattle.class_tree.specs.Set.{IsClass};
ghost use Rattle.class_tree.specs.Access.{package_of as package_of_name, is_same_package as is_same_package_of};

use class_tree::ClassSet;

/// The package of a name: what stands before its last `/`.
#[tactic(auto, using(crate::proofs::Packages::package_none, crate::proofs::Packages::slash_more, crate::proofs::Packages::other_more))]
fn package_of(name: &[u8]) -> &[u8]
    ensures { result.now ≡ package_of_name name.now }
{
    let mut end = 0;
    for (position, byte) in name.iter().enumerate() {
        if *byte == b'/' {
            end = position;
        }
    }
    &name[..end]
}

/// Two classes are of the same package.
pub(crate) fn is_same_package(set: &ClassSet, first: u16, second: u16) -> bool
    requires first { IsClass set.now first }
    requires second { IsClass set.now second }
    ensures { result ≡ is_same_package_of set.now first second }
{
    package_of(set.name_of(first)) == package_of(set.name_of(second))
}
