ghost use Rattle.std.specs.Prelude.{◌≡◌};
ghost use Rattle.cell_num.specs.declared.conversions.Conv.TheVariants.{Byte};
ghost use Rattle.cell_num.specs.Conversions.{converted, IsOfType};

use crate::cells::{low, sext};

/// A smaller type to which an int is converted.
#[derive(Clone, Copy, Debug, PartialEq, Eq)]
pub enum Conv {
    Byte,
    Char,
    Short,
}

/// What is left of an int at a smaller type, as an int again: i2b, i2c and i2s of JVMS 6.5. A number
/// of the type stays as it is.
pub fn convert(conv: Conv, v: i32) -> i32
    ensures value { result ≡ converted conv v }
    ensures fits { IsOfType conv result }
    ensures kept { IsOfType conv v → result ≡ v }
{
    match conv {
        Conv::Byte => byte(v),
        Conv::Char => i32::from(low(v)),
        Conv::Short => sext(low(v)),
    }
}

/// i2b.
fn byte(v: i32) -> i32
    ensures value { result ≡ converted Byte v }
    ensures fits { IsOfType Byte result }
{
    let low_byte = (v.cast_unsigned() & 0xff) as u8;
    i32::from(low_byte.cast_signed())
}
