//! The first tests of a set of class files: its size, the reading of each file, the code of each method,
//! and whether its classes are a closed set.

ghost use Rattle.std.specs.Prelude.{◌≡◌, ◌⊎◌, Some, None, map, min, IfOk, IfErr, OnOk};
ghost use Rattle.std.specs.List.{AllByRecursion};
ghost use Rattle.byte_read.specs.Bytes.{AreBytes};
ghost use Rattle.jvm_model.specs.declared.refusal.Cause.TheVariants as cause;
ghost use Rattle.jvm_model.specs.Phases.{saturated as saturated_of, first_refusal, total_bytes as total_bytes_of, too_many as too_many_of, size_refusal, refusal_of_file as refusal_of_file_of, refusal_of_reading as refusal_of_reading_of, reading_refusal, fault_of, refusal_of_insn as refusal_of_insn_of, refusal_of_code as refusal_of_code_of, method_refusal, class_refusal};
ghost use Rattle.jvm_model.specs.ClosedSet.{refusal_of_class as refusal_of_class_of, refusal_of_declared as refusal_of_declared_of, refusal_of_tree as refusal_of_tree_of, ClosedClasses};
ghost use Rattle.class_file.specs.Relation.{IsClassFile};
ghost use Rattle.class_code.specs.declared.refusal.CodeRefusal.TheVariants.{Memory as NoCodeMemory};
ghost use Rattle.infuse_link.specs.Sets.{AreRead, reading_said, testing_said, handlers_said};

use class_code::{CodeRefusal, decode, handlers_fit};
use class_file::{ClassFile, CodeAttr, Member, ReadRefusal, read_class};
use class_tree::{ClassSet, TreeRefusal, gather};
use jvm_model::{Cause, Refusal};
use std::alloc::Global;

/// The most files of a set.
const MOST_FILES: usize = 512;

/// The most bytes of a set.
const MOST_BYTES: usize = 16_777_216;

/// The number in the four bytes of its field, or the greatest one.
fn saturated(number: usize) -> u32
    ensures { result ≡ saturated_of number }
{
    u32::try_from(number).unwrap_or(u32::MAX)
}

/// The number of bytes of all files.
fn total_bytes(files: &[Vec<u8>]) -> usize
    ensures { result ≡ min (total_bytes_of (map (λ v. v.items) files.now)) 18446744073709551615 }
{
    let mut total = 0_usize;
    for bytes in files {
        total = total.saturating_add(bytes.len());
    }
    total
}

/// Too many files, or too many bytes.
fn too_many(kind: u32, count: usize) -> Refusal
    ensures { result ≡ too_many_of kind count }
{
    Refusal {
        cause: Cause::TooMany,
        file: 0,
        member: kind,
        pc: 0,
        value: saturated(count),
    }
}

/// Tests the number of the files and of their bytes.
pub(crate) fn test_size(files: &[Vec<u8>]) -> Result<(), Refusal>
    ensures size { OnOk result (size_refusal (map (λ v. v.items) files.now) ≡ None) }
    ensures refused { IfErr result (λ why. size_refusal (map (λ v. v.items) files.now) ≡ Some why) }
{
    if MOST_FILES < files.len() {
        return Err(too_many(0, files.len()));
    }
    let total = total_bytes(files);
    if MOST_BYTES < total {
        return Err(too_many(1, total));
    }
    Ok(())
}

/// The refusal of a file with a value.
fn refusal_of_file(cause: Cause, file: usize, value: u32) -> Refusal
    ensures { result ≡ refusal_of_file_of cause file value }
{
    Refusal {
        cause,
        file: saturated(file),
        member: 0,
        pc: 0,
        value,
    }
}

/// The refusal of a file of so many bytes that is not read.
fn refusal_of_reading(file: usize, size: usize, why: ReadRefusal) -> Refusal
    ensures { result ≡ refusal_of_reading_of file size why }
{
    match why {
        ReadRefusal::NotClass => refusal_of_file(Cause::NotClass, file, 0),
        ReadRefusal::Version { major } => refusal_of_file(Cause::Version, file, u32::from(major)),
        ReadRefusal::Truncated => refusal_of_file(Cause::Truncated, file, saturated(size)),
        ReadRefusal::TrailingBytes { count } => refusal_of_file(Cause::Trailing, file, count),
        ReadRefusal::BadPool { index } => refusal_of_file(Cause::BadPool, file, u32::from(index)),
        ReadRefusal::BadShape => refusal_of_file(Cause::BadShape, file, 0),
        ReadRefusal::BadDescriptor { index } => {
            refusal_of_file(Cause::BadDescriptor, file, u32::from(index))
        }
        ReadRefusal::TooLarge { length } => refusal_of_file(Cause::TooLarge, file, length),
        ReadRefusal::Memory => refusal_of_file(Cause::Memory, file, 0),
    }
}

/// What reading a file of so many bytes answers, as the set says it.
fn of_reading(
    file: usize,
    size: usize,
    read: Result<ClassFile, ReadRefusal>,
) -> Result<ClassFile, Refusal>
    ensures { result ≡ reading_said file size read }
{
    match read {
        Ok(class) => Ok(class),
        Err(why) => Err(refusal_of_reading(file, size, why)),
    }
}

/// Reads a file, which is told its place.
fn read_file(alloc: Global, file: usize, bytes: &[u8]) -> Result<ClassFile, Refusal>
    ensures read { IfOk result (IsClassFile bytes.now) }
    ensures bytes { OnOk result (AreBytes bytes.now) }
    ensures refused { IfErr result (λ why. (why.cause ≡ cause.Memory) ⊎ (reading_refusal file bytes.now ≡ Some why)) }
{
    of_reading(file, bytes.len(), read_class(alloc, bytes))
}

/// Reads each file.
pub(crate) fn read_files(alloc: Global, files: &[Vec<u8>]) -> Result<Vec<ClassFile>, Refusal>
    ensures read { IfOk result (λ classes. AreRead (map (λ v. v.items) files.now) classes.items) }
    ensures bytes { OnOk result (AllByRecursion AreBytes (map (λ v. v.items) files.now)) }
    ensures refused { IfErr result (λ why. (why.cause ≡ cause.Memory) ⊎ (first_refusal reading_refusal 0 (map (λ v. v.items) files.now) ≡ Some why)) }
{
    let mut classes = Vec::new(alloc);
    for (place, bytes) in files.iter().enumerate() {
        match read_file(alloc, place, bytes.as_slice()) {
            Ok(class) => match classes.push(class) {
                Ok(()) => {}
                Err(_) => return Err(refusal_of_file(Cause::Memory, place, 0)),
            },
            Err(why) => return Err(why),
        }
    }
    Ok(classes)
}

/// Handlers fit, unless the one that starts at this pc does not.
fn of_handlers(unfit: Option<u32>) -> Result<(), CodeRefusal>
    ensures { result ≡ handlers_said unfit }
{
    match unfit {
        Some(pc) => Err(CodeRefusal::BadCode { pc }),
        None => Ok(()),
    }
}

/// Tests that the code of a method is instructions, and that its handlers fit them.
fn test_code(alloc: Global, code: &CodeAttr) -> Result<(), CodeRefusal>
    ensures fits { OnOk result (fault_of code.now ≡ None) }
    ensures refused { IfErr result (λ why. (why ≡ NoCodeMemory) ⊎ (fault_of code.now ≡ Some why)) }
{
    let Ok(length) = u32::try_from(code.code.len()) else {
        return Err(CodeRefusal::Memory);
    };
    let list = decode(alloc, code.code.as_slice())?;
    of_handlers(handlers_fit(&list, code.handlers.as_slice(), length))
}

/// A refusal at a place of a method.
fn refusal_of_insn(cause: Cause, file: usize, member: usize, pc: u32, value: u32) -> Refusal
    ensures { result ≡ refusal_of_insn_of cause file member pc value }
{
    Refusal {
        cause,
        file: saturated(file),
        member: saturated(member),
        pc,
        value,
    }
}

/// The refusal of a method's code.
fn refusal_of_code(file: usize, member: usize, why: CodeRefusal) -> Refusal
    ensures { result ≡ refusal_of_code_of file member why }
{
    match why {
        CodeRefusal::Unsupported { pc, opcode } => {
            refusal_of_insn(Cause::Unsupported, file, member, pc, u32::from(opcode))
        }
        CodeRefusal::BadCode { pc } => refusal_of_insn(Cause::BadCode, file, member, pc, 0),
        CodeRefusal::Memory => refusal_of_insn(Cause::Memory, file, member, 0, 0),
    }
}

/// What testing the code of a method answers, as the set says it.
fn of_testing(file: usize, member: usize, tested: Result<(), CodeRefusal>) -> Result<(), Refusal>
    ensures { result ≡ testing_said file member tested }
{
    match tested {
        Ok(()) => Ok(()),
        Err(why) => Err(refusal_of_code(file, member, why)),
    }
}

/// Tests the code of a method, if it has code.
fn test_method(alloc: Global, file: usize, member: usize, method: &Member) -> Result<(), Refusal>
    ensures fits { OnOk result (method_refusal file member method.now ≡ None) }
    ensures refused { IfErr result (λ why. (why.cause ≡ cause.Memory) ⊎ (method_refusal file member method.now ≡ Some why)) }
{
    let Some(code) = &method.code else {
        return Ok(());
    };
    of_testing(file, member, test_code(alloc, code))
}

/// Tests the code of each method of a class.
fn test_class(alloc: Global, file: usize, class: &ClassFile) -> Result<(), Refusal>
    ensures fits { OnOk result (class_refusal file class.now ≡ None) }
    ensures refused { IfErr result (λ why. (why.cause ≡ cause.Memory) ⊎ (class_refusal file class.now ≡ Some why)) }
{
    for (member, method) in class.methods.as_slice().iter().enumerate() {
        match test_method(alloc, file, member, method) {
            Ok(()) => {}
            Err(why) => return Err(why),
        }
    }
    Ok(())
}

/// Tests the code of each method of each class.
pub(crate) fn test_classes(alloc: Global, classes: &[ClassFile]) -> Result<(), Refusal>
    ensures fits { OnOk result (first_refusal class_refusal 0 classes.now ≡ None) }
    ensures refused { IfErr result (λ why. (why.cause ≡ cause.Memory) ⊎ (first_refusal class_refusal 0 classes.now ≡ Some why)) }
{
    for (place, class) in classes.iter().enumerate() {
        match test_class(alloc, place, class) {
            Ok(()) => {}
            Err(why) => return Err(why),
        }
    }
    Ok(())
}

/// A refusal of a class.
fn refusal_of_class(cause: Cause, file: u32) -> Refusal
    ensures { result ≡ refusal_of_class_of cause file }
{
    Refusal {
        cause,
        file,
        member: 0,
        pc: 0,
        value: 0,
    }
}

/// A refusal of a declared member, or of what stands above a class.
fn refusal_of_declared(cause: Cause, file: u32, member: u32, value: u32) -> Refusal
    ensures { result ≡ refusal_of_declared_of cause file member value }
{
    Refusal {
        cause,
        file,
        member,
        pc: 0,
        value,
    }
}

/// The refusal of classes that are no closed set.
fn refusal_of_tree(why: TreeRefusal) -> Refusal
    ensures { result ≡ refusal_of_tree_of why }
{
    match why {
        TreeRefusal::Duplicate { file } => refusal_of_class(Cause::Duplicate, file),
        TreeRefusal::Reserved { file } => refusal_of_class(Cause::Reserved, file),
        TreeRefusal::MissingClass {
            file,
            member,
            value,
        } => refusal_of_declared(Cause::MissingClass, file, member, value),
        TreeRefusal::BadSuper { file } => refusal_of_class(Cause::BadSuper, file),
        TreeRefusal::Circular { file } => refusal_of_class(Cause::Circular, file),
        TreeRefusal::WideType {
            file,
            member,
            value,
        } => refusal_of_declared(Cause::WideType, file, member, value),
        TreeRefusal::TooMany { count } => too_many(0, count as usize),
        TreeRefusal::Memory => refusal_of_class(Cause::Memory, 0),
    }
}

/// The closed set that the classes are: each name stands once, what stands above a class is there, no class
/// is above itself, and the classes of declared descriptors are there.
pub(crate) fn closed_set(alloc: Global, classes: Vec<ClassFile>) -> Result<ClassSet, Refusal>
    ensures closed { IfOk result (λ set. set ≡ classes.items) }
    ensures passed { OnOk result (ClosedClasses classes.items None) }
    ensures refused { IfErr result (λ why. (why.cause ≡ cause.Memory) ⊎ ClosedClasses classes.items (Some why)) }
{
    match gather(alloc, classes) {
        Ok(set) => Ok(set),
        Err(why) => Err(refusal_of_tree(why)),
    }
}
