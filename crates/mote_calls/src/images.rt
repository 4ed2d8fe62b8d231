//! What a checked image lends.

ghost use Rattle.std.specs.Prelude.{IfOk};
ghost use Rattle.image_form.specs.Grammar.{IsImage};

use image_check::check;
use image_form::{Image, read_image};
use std::alloc::Global;
use std::test::*;

/// An infusion up to the cells of main's locals: a class Hi, and one method.
const HEAD: &[u8] = b"DJIN\0\x01\0\x01\0\0\0\0\0\0\0\0\0\0\0\0\0\x02Hi\0\0\0\x01\0\0\0\0\0\0";

/// The image of a class Hi of one method with this code, as its infusion says it.
fn image_of(alloc: Global, cell_locals: u16, body: u16, code: &[u8]) -> Result<Image, Fail>
    ensures { IfOk result IsImage }
{
    let length = u16::try_from(code.len()).ok().ok_or("long code")?;
    let mut bytes = Vec::from_slice(alloc, HEAD)?;
    bytes.extend_from_slice(&cell_locals.to_be_bytes())?;
    bytes.extend_from_slice(&body.to_be_bytes())?;
    bytes.extend_from_slice(&length.to_be_bytes())?;
    bytes.extend_from_slice(code)?;
    bytes.extend_from_slice(b"\0\0\0\0\0\0\0\x20")?;
    match read_image(alloc, bytes.as_slice()) {
        Ok(image) => Ok(image),
        Err(_) => Err(Fail::from("no infusion")),
    }
}

#[test]
fn lends_the_code_and_the_names(rt: HostRuntime) -> Result<(), Fail> {
    let alloc = rt.alloc();
    let image = image_of(alloc, 0, 0, &[0x79])?;
    let checked = check(alloc, image).ok().ok_or("refused")?;
    assert_eq!(rt; checked.image().version, 1);
    assert_eq!(rt; checked.code(32), [0x79].as_slice());
    assert_eq!(rt; checked.name_of(0), b"java/lang/Object".as_slice());
    assert_eq!(rt; checked.name_of(14), b"mote/Console".as_slice());
    assert_eq!(rt; checked.image().types.len(), 1);
    assert_eq!(rt; checked.name_of(32), b"Hi".as_slice());
    Ok(())
}
