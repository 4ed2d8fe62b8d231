ghost use Rattle.image_form.specs.Grammar.{IsImage};

use image_check::check;
use image_form::{Image, read_image, write_image};
use image_instr::{MInsn, decode_at, switch_target};
use row_form::Reader;
use std::alloc::{AllocError, Global};

/// The readers of infusions and of their code, and the check.
pub(crate) struct ImageReader;

impl Reader for ImageReader {
    fn answer(
        &self,
        alloc: Global,
        question: &str,
        bytes: &[u8],
    ) -> Result<Option<String>, AllocError> {
        match question {
            "form" => Ok(Some(form(alloc, bytes)?)),
            "record" => Ok(Some(record(alloc, bytes)?)),
            "check" => Ok(Some(checked(alloc, bytes)?)),
            "code" => Ok(Some(code(alloc, bytes)?)),
            "switch" => Ok(Some(switch(alloc, bytes)?)),
            _ => Ok(None),
        }
    }
}

/// Why the bytes are no infusion, or whether what was read is written as these bytes.
fn form(alloc: Global, bytes: &[u8]) -> Result<String, AllocError> {
    match read_image(alloc, bytes) {
        Ok(image) => written(alloc, bytes, &image),
        Err(why) => format!(in alloc; "{why:?}"),
    }
}

/// Whether the image is written as these bytes.
fn written(alloc: Global, bytes: &[u8], image: &Image) -> Result<String, AllocError>
    requires { IsImage image.now }
{
    match write_image(alloc, image) {
        Ok(same) if same.as_slice() == bytes => String::from_str(alloc, "an infusion"),
        Ok(_) => String::from_str(alloc, "other bytes"),
        Err(_) => String::from_str(alloc, "Memory"),
    }
}

/// Why the bytes are no infusion, or the image that they say.
fn record(alloc: Global, bytes: &[u8]) -> Result<String, AllocError> {
    match read_image(alloc, bytes) {
        Ok(image) => format!(in alloc; "{image:?}"),
        Err(why) => format!(in alloc; "{why:?}"),
    }
}

/// What the check answers about the infusion.
fn checked(alloc: Global, bytes: &[u8]) -> Result<String, AllocError> {
    match read_image(alloc, bytes) {
        Ok(image) => verdict(alloc, image),
        Err(why) => format!(in alloc; "{why:?}"),
    }
}

/// What the check answers about the image: that it is checked, or the cause, the method and the pc.
fn verdict(alloc: Global, image: Image) -> Result<String, AllocError>
    requires { IsImage image }
{
    match check(alloc, image) {
        Ok(_) => String::from_str(alloc, "Ok"),
        Err((_, why)) => format!(in alloc; "{:?} {} {}", why.cause, why.method, why.pc),
    }
}

/// The instruction with which the bytes begin, and its size.
fn code(alloc: Global, bytes: &[u8]) -> Result<String, AllocError> {
    match decode_at(bytes, 0) {
        Some((insn, size)) => format!(in alloc; "{insn:?} in {size} bytes"),
        None => String::from_str(alloc, "none"),
    }
}

/// Where the switch that follows four bytes of a key jumps for it.
fn switch(alloc: Global, bytes: &[u8]) -> Result<String, AllocError> {
    let Some((key, code)) = bytes.split_first_chunk::<4>() else {
        return String::from_str(alloc, "no key");
    };
    match decode_at(code, 0) {
        Some((MInsn::Switch { .. } | MInsn::Table { .. }, _)) => {
            let target = switch_target(code, 0, i32::from_be_bytes(*key));
            format!(in alloc; "{target}")
        }
        _ => String::from_str(alloc, "no switch"),
    }
}
