//! The flags of classes, fields and methods (JVMS tables 4.1-A, 4.5-A and 4.6-A).

ghost use Rattle.std.specs.Prelude.{◌≡◌};
ghost use Rattle.class_file.specs.Rules.{is_public, is_private, is_protected, is_static, is_final, is_native, is_interface, is_abstract, are_class_flags, has_one_access, fits_interface_field};

pub(crate) const ACC_PUBLIC: u16 = 0x0001;

const ACC_PRIVATE: u16 = 0x0002;

const ACC_PROTECTED: u16 = 0x0004;

pub(crate) const ACC_STATIC: u16 = 0x0008;

const ACC_FINAL: u16 = 0x0010;

const ACC_NATIVE: u16 = 0x0100;

const ACC_INTERFACE: u16 = 0x0200;

const ACC_ABSTRACT: u16 = 0x0400;

/// The flags have ACC_PUBLIC.
pub fn is_public(flags: u16) -> bool
    ensures { result ≡ is_public flags }
{
    flags & ACC_PUBLIC != 0
}

/// The flags have ACC_PRIVATE.
pub fn is_private(flags: u16) -> bool
    ensures { result ≡ is_private flags }
{
    flags & ACC_PRIVATE != 0
}

/// The flags have ACC_PROTECTED.
pub fn is_protected(flags: u16) -> bool
    ensures { result ≡ is_protected flags }
{
    flags & ACC_PROTECTED != 0
}

/// The flags have ACC_STATIC.
pub fn is_static(flags: u16) -> bool
    ensures { result ≡ is_static flags }
{
    flags & ACC_STATIC != 0
}

/// The flags have ACC_FINAL.
pub fn is_final(flags: u16) -> bool
    ensures { result ≡ is_final flags }
{
    flags & ACC_FINAL != 0
}

/// The flags have ACC_NATIVE.
pub(crate) fn is_native(flags: u16) -> bool
    ensures { result ≡ is_native flags }
{
    flags & ACC_NATIVE != 0
}

/// The flags have ACC_INTERFACE.
pub fn is_interface(flags: u16) -> bool
    ensures { result ≡ is_interface flags }
{
    flags & ACC_INTERFACE != 0
}

/// The flags have ACC_ABSTRACT.
pub fn is_abstract(flags: u16) -> bool
    ensures { result ≡ is_abstract flags }
{
    flags & ACC_ABSTRACT != 0
}

/// An interface is abstract, and a final class is not (JVMS 4.1).
pub(crate) fn are_class_flags(flags: u16) -> bool
    ensures { result ≡ are_class_flags flags }
{
    (is_abstract(flags) || !is_interface(flags)) && !(is_final(flags) && is_abstract(flags))
}

/// The flags have at most one of ACC_PUBLIC, ACC_PRIVATE and ACC_PROTECTED (JVMS 4.5, 4.6).
pub(crate) fn has_one_access(flags: u16) -> bool
    ensures { result ≡ has_one_access flags }
{
    !(is_public(flags) && is_private(flags))
        && !(is_public(flags) && is_protected(flags))
        && !(is_private(flags) && is_protected(flags))
}

/// A field of an interface is public, static and final (JVMS 4.5).
pub(crate) fn fits_interface_field(class_flags: u16, flags: u16) -> bool
    ensures { result ≡ fits_interface_field class_flags flags }
{
    !is_interface(class_flags) || (is_public(flags) && is_static(flags) && is_final(flags))
}
