/// Why a set of class files is refused, in the order of the tests.
#[derive(Clone, Copy, Debug, PartialEq, Eq)]
pub enum Cause {
    /// There are more than 512 files (member 0), or they have more than 16,777,216 bytes in all (member
    /// 1); the value is their number.
    TooMany,
    /// The file has more than 1,048,576 bytes; the value is their number.
    TooLarge,
    /// The first four bytes of the file are not `ca fe ba be`, or are not there.
    NotClass,
    /// A part does not end within the file; the value is the file's length in bytes.
    Truncated,
    /// The major version, which is the value, is not in 45 to 52.
    Version,
    /// An entry of the constant pool is none, or names none of its kind (JVMS 4.4); the value is its index.
    BadPool,
    /// A declared descriptor is none (JVMS 4.3); the value is its index in the constant pool.
    BadDescriptor,
    /// A rule on the shape of a class, a member or an attribute fails (JVMS 4.1, 4.5 to 4.7).
    BadShape,
    /// Bytes follow the class; the value is their number.
    Trailing,
    /// The first instruction that fails is one that is left out; the value is its opcode.
    Unsupported,
    /// No instruction is at the pc, or its target, or a bound or the handler of the handler that
    /// starts there, is no start of an instruction.
    BadCode,
    /// The class has the name of an earlier file's class.
    Duplicate,
    /// The name of the class begins with `java/` or `mote/`.
    Reserved,
    /// A class is absent that is named by the superclass or a superinterface, where the value is 0, or by the
    /// descriptor of a field, where it is 1, or of a method, where it is 2; the member is that field or method.
    MissingClass,
    /// The superclass is an interface or final, the superclass of an interface is not `java/lang/Object`, or a
    /// superinterface is a class.
    BadSuper,
    /// The class is above itself.
    Circular,
    /// The descriptor of a field, where the value is 1, or of a method, where it is 2, has a type of long,
    /// float or double; the member is that field or method.
    WideType,
    /// A method may not stand beside one above it: one of them alone is static, or the upper one is final, or
    /// is of another package alone, or the lower one is private; or a class selects one that is not public for a
    /// method of an interface (member 0).
    BadOverride,
    /// A class that is not abstract selects no method with code for an abstract method that it or a class or
    /// interface above it declares.
    MissingBody,
    /// The constant of a static field is none of its type (the member is the field, and the value is 1), or the
    /// initialiser of a class is no run of pairs and a return (the pc is the first at which none goes on).
    BadInitialiser,
    /// What an instruction or an exception table names is not there.
    Unresolved,
    /// What is named is not of the kind that is asked for.
    WrongKind,
    /// What is named may not be used from the class.
    Denied,
    /// No file declares `public static main()V`.
    NoMain,
    /// The method has no right table of types; the pc is the lowest at which the first round that fails does so.
    Unverified,
    /// The set is of no form that is built; the place is that of the first instruction that is reached and
    /// outside the form, if there is one.
    Unbuilt,
    /// A method's frame exceeds 32,767 cells; the value is their number.
    FrameTooLarge,
    /// A method's machine code exceeds 65,535 bytes; the value is their number.
    CodeTooLong,
    /// There was no memory.
    Memory,
}

/// Why a set of class files is refused, and where. A number that the cause does not use is 0, and one that
/// exceeds its field is the field's greatest number.
#[derive(Clone, Copy, Debug, PartialEq, Eq)]
pub struct Refusal {
    pub cause: Cause,
    /// The place of the file in the order of the loads, from 0.
    pub file: u32,
    /// The place of the method in its class, from 0, or of the field where the value says so, or what there is
    /// too much of where the cause says so.
    pub member: u32,
    /// The pc of the instruction, in bytes from the code's start.
    pub pc: u32,
    pub value: u32,
}
