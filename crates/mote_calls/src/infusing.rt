//! Sets of files that are not one class.

use infuse_link::infuse;
use jvm_model::{Cause, Refusal};
use std::test::*;

/// The class `Hi`, whose main writes 72 and 105.
const HI: &[u8] = b"\xca\xfe\xba\xbe\x00\x00\x00\x34\x00\x0e\x01\x00\x02Hi\x07\x00\x01\
\x01\x00\x10java/lang/Object\x07\x00\x03\x01\x00\x0cmote/Console\x07\x00\x05\x01\x00\x05write\
\x01\x00\x04(I)V\x0c\x00\x07\x00\x08\x0a\x00\x06\x00\x09\x01\x00\x04main\x01\x00\x03()V\
\x01\x00\x04Code\x00\x21\x00\x02\x00\x04\x00\x00\x00\x00\x00\x01\x00\x09\x00\x0b\x00\x0c\x00\x01\
\x00\x0d\x00\x00\x00\x17\x00\x01\x00\x00\x00\x00\x00\x0b\x10\x48\xb8\x00\x0a\x10\x69\xb8\x00\x0a\xb1\
\x00\x00\x00\x00\x00\x00";

/// A refusal for a cause with a value.
fn refused(cause: Cause, value: u32) -> Refusal {
    Refusal {
        cause,
        file: 0,
        member: 0,
        pc: 0,
        value,
    }
}

#[test]
fn refuses_sets_that_are_not_one_class(rt: HostRuntime) -> Result<(), Fail> {
    let mut files = Vec::new(rt.alloc());
    let none = infuse(rt.alloc(), &files).err();
    assert_eq!(rt; none, Some(refused(Cause::NoMain, 0)));
    files.push(Vec::from_slice(rt.alloc(), HI)?)?;
    files.push(Vec::from_slice(rt.alloc(), HI)?)?;
    let two = infuse(rt.alloc(), &files).err();
    let second = Refusal {
        file: 1,
        ..refused(Cause::Duplicate, 0)
    };
    assert_eq!(rt; two, Some(second));
    files.push(Vec::from_slice(rt.alloc(), b"\xca\xfe\xba")?)?;
    let cut = infuse(rt.alloc(), &files).err();
    let third = Refusal {
        file: 2,
        ..refused(Cause::NotClass, 0)
    };
    assert_eq!(rt; cut, Some(third));
    Ok(())
}

#[test]
fn refuses_more_than_512_files(rt: HostRuntime) -> Result<(), Fail> {
    let mut files = Vec::new(rt.alloc());
    for _ in 0..513 {
        files.push(Vec::new(rt.alloc()))?;
    }
    let why = infuse(rt.alloc(), &files).err();
    assert_eq!(rt; why, Some(refused(Cause::TooMany, 513)));
    Ok(())
}
