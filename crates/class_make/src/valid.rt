//! Whether some bytes are a class file with a record: what is written is read again.

ghost use Rattle.std.specs.Prelude.{◌≡◌, ◌⊎◌, true, IfErr, OnOk};
ghost use Rattle.class_file.specs.Layout.{encoding};
ghost use Rattle.class_make.specs.declared.refusal.DraftRefusal.TheVariants.{BadShape, Memory};
ghost use Rattle.class_file.specs.Relation.{IsRecord};
ghost use Rattle.class_make.specs.Written.{layout_of};
ghost use Rattle.class_make.specs.Draft.{refusal_of, IsInvalid};

use crate::fits::fits;
use crate::refusal::DraftRefusal;
use crate::same::is_same_class;
use crate::write::write_fitting;
use class_file::{ClassFile, ReadRefusal, read_class};
use std::alloc::Global;

/// The refusal of a record whose bytes were refused.
fn refusal_of(why: ReadRefusal) -> DraftRefusal
    ensures { result ≡ refusal_of why }
{
    match why {
        ReadRefusal::Memory => DraftRefusal::Memory,
        _ => DraftRefusal::BadShape,
    }
}

/// Tests that the bytes of a record are read as this record.
fn test_bytes(alloc: Global, file: &ClassFile, bytes: &[u8]) -> Result<(), DraftRefusal>
    requires { bytes.now ≡ encoding (layout_of file.now) }
    ensures valid { OnOk result (IsRecord file.now) }
    ensures refused { IfErr result (IsInvalid file.now) }
{
    match read_class(alloc, bytes) {
        Ok(read) => {
            if !is_same_class(&read, file) {
                return Err(DraftRefusal::BadShape);
            }
            Ok(())
        }
        Err(why) => Err(refusal_of(why)),
    }
}

/// Tests that some bytes are a class file with this record.
pub(crate) fn test_record(alloc: Global, file: &ClassFile) -> Result<(), DraftRefusal>
    ensures valid { OnOk result (IsRecord file.now) }
    ensures refused { IfErr result (IsInvalid file.now) }
{
    if !fits(file) {
        return Err(DraftRefusal::BadShape);
    }
    let bytes = write_fitting(alloc, file)?;
    test_bytes(alloc, file, bytes.as_slice())
}
