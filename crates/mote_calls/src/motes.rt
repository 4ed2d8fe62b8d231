//! New motes.

ghost use Rattle.std.specs.Prelude.{IfOk};
ghost use Rattle.image_form.specs.Grammar.{IsImage};

use image_check::{Checked, check};
use image_form::{Image, read_image};
use mote_core::Mote;
use std::alloc::Global;
use std::test::*;

/// An infusion up to the cells of main's locals: a class Hi, and one method.
const HEAD: &[u8] = b"DJIN\0\x01\0\x01\0\0\0\0\0\0\0\0\0\0\0\0\0\x02Hi\0\0\0\x01\0\0\0\0\0\0";

/// The image of a class Hi of one method with this code, as its infusion says it.
fn image_of(alloc: Global, cell_locals: u16, body: u16, code: &[u8]) -> Result<Image, Fail>
    ensures { IfOk result IsImage }
{
    let length = u16::try_from(code.len()).ok().ok_or("long code")?;
    let mut bytes = Vec::from_slice(alloc, HEAD)?;
    bytes.extend_from_slice(&cell_locals.to_be_bytes())?;
    bytes.extend_from_slice(&body.to_be_bytes())?;
    bytes.extend_from_slice(&length.to_be_bytes())?;
    bytes.extend_from_slice(code)?;
    bytes.extend_from_slice(b"\0\0\0\0\0\0\0\x20")?;
    match read_image(alloc, bytes.as_slice()) {
        Ok(image) => Ok(image),
        Err(_) => Err(Fail::from("no infusion")),
    }
}

/// A mote with this code, and 64 cells of stack.
fn mote_of(alloc: Global, body: u16, code: &[u8]) -> Result<Mote, Fail> {
    let image = image_of(alloc, 0, body, code)?;
    let checked: Checked = check(alloc, image).ok().ok_or("refused")?;
    Ok(Mote::new(alloc, checked, 64, 64).ok().ok_or("no memory")?)
}

/// SMALL2 72, CALLS write, SMALL2 105, CALLS write, RET
const HI: &[u8] = &[0x04, 0x48, 0xb4, 0, 1, 0x04, 0x69, 0xb4, 0, 1, 0x79];

/// The stack has 64 cells: main's frame fills it, or exceeds it.
#[test]
fn a_new_mote_has_names_and_no_collection(rt: HostRuntime) -> Result<(), Fail> {
    let alloc = rt.alloc();
    let full = mote_of(alloc, 60, HI)?;
    assert_eq!(rt; full.collections(), 0);
    assert_eq!(rt; full.name_of(32), b"Hi".as_slice());
    let exceeded = mote_of(alloc, 61, HI)?;
    assert_eq!(rt; exceeded.collections(), 0);
    assert_eq!(rt;
        exceeded.name_of(4),
        b"java/lang/ArithmeticException".as_slice()
    );
    Ok(())
}
