//! The methods of the library, all of which are natives.

ghost use Rattle.std.specs.Prelude.{◌≡◌};
ghost use Rattle.library.specs.Natives.{number_of, native_of};
ghost use Rattle.library.specs.Members.{methods_of as methods_of_class, name_of as name_of_native, descriptor_of as descriptor_of_native, flags_of as flags_of_native};

/// The methods of each class but the console's.
const CONSTRUCTOR: &[Native] = &[Native::Construct];

/// The methods of `mote/Console`.
const CONSOLE_METHODS: &[Native] = &[Native::Write, Native::Read, Native::Print];

/// A method of the library.
#[derive(Clone, Copy, Debug, PartialEq, Eq)]
pub enum Native {
    /// The constructor of each class but the console's: `<init>()V`, which does nothing.
    Construct,
    /// `mote/Console.write(I)V` shows the low eight bits of its argument as one byte.
    Write,
    /// `mote/Console.read()I` gives the next byte of the input as 0 to 255, or -1 at the end of input.
    Read,
    /// `mote/Console.print(I)V` shows its argument in decimal.
    Print,
}

impl Native {
    /// The native of a method's number. `None` where the number is no native's.
    pub fn of_number(method: u16) -> Option<Native>
        ensures { result ≡ native_of method }
    {
        match method {
            0 => Some(Native::Construct),
            1 => Some(Native::Write),
            2 => Some(Native::Read),
            3 => Some(Native::Print),
            _ => None,
        }
    }

    /// The number of the method.
    pub fn number(self) -> u16
        ensures { result ≡ number_of self }
    {
        match self {
            Native::Construct => 0,
            Native::Write => 1,
            Native::Read => 2,
            Native::Print => 3,
        }
    }

    /// The name of the method.
    pub fn name(self) -> &'static [u8]
        ensures { result.now ≡ name_of_native self }
    {
        match self {
            Native::Construct => b"<init>",
            Native::Write => b"write",
            Native::Read => b"read",
            Native::Print => b"print",
        }
    }

    /// The descriptor of the method (JVMS 4.3.3).
    pub fn descriptor(self) -> &'static [u8]
        ensures { result.now ≡ descriptor_of_native self }
    {
        match self {
            Native::Construct => b"()V",
            Native::Write | Native::Print => b"(I)V",
            Native::Read => b"()I",
        }
    }

    /// The flags of the method (JVMS table 4.6-A): it is public and native, and a method of the console is
    /// static.
    pub fn flags(self) -> u16
        ensures { result ≡ flags_of_native self }
    {
        match self {
            Native::Construct => 0x0101,
            Native::Write | Native::Read | Native::Print => 0x0109,
        }
    }
}

/// The methods of a class of the library, that at position 0 first. There are none where the number names no
/// class.
pub fn methods_of(class: u16) -> &'static [Native]
    ensures { result.now ≡ methods_of_class class }
{
    match class {
        0..=13 => CONSTRUCTOR,
        14 => CONSOLE_METHODS,
        _ => &[],
    }
}
