ghost use Rattle.std.specs.Prelude.{◌≡◌, FitsSigned};
ghost use Rattle.std.specs.Int.{w16};
ghost use Rattle.cell_num.specs.Cells.{sign_extended, low_cell, high_cell, joined_cells};

/// The number that one cell tells by itself: its sign extension, from -32768 to 32767.
pub fn sext(cell: u16) -> i32
    ensures value { result ≡ sign_extended cell }
    ensures small { FitsSigned w16 result }
    ensures cell_kept { low_cell result ≡ cell }
{
    i32::from(cell.cast_signed())
}

/// The low cell of a number. It tells the whole number where that has 16 bits with its sign.
pub fn low(v: i32) -> u16
    ensures value { result ≡ low_cell v }
    ensures small_kept { FitsSigned w16 v → sign_extended result ≡ v }
{
    (v.cast_unsigned() & 0xffff) as u16
}

/// The number of two cells, the low one first.
pub fn join(low: u16, high: u16) -> i32
    ensures value { result ≡ joined_cells low high }
    ensures low_kept { low_cell result ≡ low }
    ensures high_kept { high_cell result ≡ high }
{
    (u32::from(high) << 16 | u32::from(low)).cast_signed()
}

/// The two cells of a number, the low one first.
pub fn split(v: i32) -> (u16, u16)
    ensures low { result.0 ≡ low_cell v }
    ensures high { result.1 ≡ high_cell v }
    ensures number_kept { joined_cells result.0 result.1 ≡ v }
{
    (low(v), (v.cast_unsigned() >> 16) as u16)
}
