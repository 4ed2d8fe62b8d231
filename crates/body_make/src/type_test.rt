//! What is asked of a type that an instruction or an exception table names.

ghost use Rattle.std.specs.Prelude.{◌≡◌};
ghost use Rattle.class_tree.specs.Set.{IsClass};
ghost use Rattle.class_tree.specs.Subtypes.{IsBaseType};
ghost use Rattle.class_tree.specs.AccessTests.{is_subclass as is_subclass_of};
ghost use Rattle.jvm_model.specs.Instructions.{may_be_made_of, may_be_made as may_be_made_type, may_be_element as may_be_element_type, has_counted as has_counted_dims, throwable, may_be_caught_of, may_be_caught as may_be_caught_type};
ghost use Rattle.body_make.specs.TypeTests.{test_of};

use class_file::{is_abstract, is_interface};
use class_pool::{TypeBase, TypeRef};
use class_tree::ClassSet;

/// The number of `java/lang/Throwable`.
const THROWABLE: u16 = 1;

/// What is asked of a type.
#[derive(Clone, Copy, Debug, PartialEq, Eq)]
pub(crate) enum TypeTest {
    /// Nothing.
    Any,
    /// Objects of it may be made: it is a class, and neither an interface nor abstract.
    Made,
    /// Arrays of it may be made: it has fewer than 255 dimensions.
    Element,
    /// So many of its dimensions are counted, one at least.
    Counted(u8),
    /// It is `java/lang/Throwable` or a class below it.
    Caught,
}

/// One class is another one, or is below it.
#[tactic(auto, using(crate::proofs::TestedAccess::tested_subclass))]
pub(crate) fn is_subclass(set: &ClassSet, lower: u16, upper: u16) -> bool
    requires lower { IsClass set.now lower }
    requires upper { IsClass set.now upper }
    ensures { result ≡ is_subclass_of set.now lower upper }
{
    set.is_subclass(lower, upper)
}

/// Objects of the base may be made.
fn may_be_made_of(set: &ClassSet, base: TypeBase) -> bool
    ensures { result ≡ may_be_made_of set.now base }
{
    match base {
        TypeBase::Class(class) => {
            let flags = set.class_flags(class);
            !is_interface(flags) && !is_abstract(flags)
        }
        _ => false,
    }
}

/// Objects of the type may be made.
fn may_be_made(set: &ClassSet, kind: TypeRef) -> bool
    ensures { result ≡ may_be_made_type set.now kind }
{
    kind.dims == 0 && may_be_made_of(set, kind.base)
}

/// Exceptions of the base may be caught.
fn may_be_caught_of(set: &ClassSet, base: TypeBase) -> bool
    requires { IsBaseType set.now base }
    ensures { result ≡ may_be_caught_of set.now base }
{
    match base {
        TypeBase::Class(class) => is_subclass(set, class, THROWABLE),
        _ => false,
    }
}

/// Exceptions of the type may be caught.
fn may_be_caught(set: &ClassSet, kind: TypeRef) -> bool
    requires { IsBaseType set.now kind.base }
    ensures { result ≡ may_be_caught_type set.now kind }
{
    kind.dims == 0 && may_be_caught_of(set, kind.base)
}

impl TypeTest {
    /// Whether a type of the set passes.
    pub(crate) fn passes(self, set: &ClassSet, kind: TypeRef) -> bool
        requires { IsBaseType set.now kind.base }
        ensures { result ≡ test_of set.now self kind }
    {
        match self {
            TypeTest::Any => true,
            TypeTest::Made => may_be_made(set, kind),
            TypeTest::Element => kind.dims < 255,
            TypeTest::Counted(dims) => 1 <= dims && dims <= kind.dims,
            TypeTest::Caught => may_be_caught(set, kind),
        }
    }
}
