ghost use Rattle.std.specs.Prelude.{◌≡◌, ◌≤ℤ◌};
ghost use Rattle.cell_num.specs.Ranges.{AreInts, IsGreatestNotAbove, IsLeastNotBelow, are_ints, rounded_out, threshold_above, threshold_below, thresholds, whole_range};

/// The ints from `lo` to `hi`.
#[derive(Clone, Copy, Debug, PartialEq, Eq)]
pub struct Range {
    pub lo: i32,
    pub hi: i32,
}

/// The least range that holds the numbers from `lo` to `hi` and has thresholds as its ends: the ends
/// of the whole-number types, -1, 0 and 1. All ints where `lo` or `hi` is no int. So a range can grow
/// but a few times until it stays.
pub fn round_out(lo: i64, hi: i64) -> Range
    requires { lo ≤ℤ hi }
    ensures value { result ≡ rounded_out lo hi }
    ensures lower { AreInts lo hi → IsGreatestNotAbove thresholds lo result.lo }
    ensures upper { AreInts lo hi → IsLeastNotBelow thresholds hi result.hi }
    ensures ordered { result.lo ≤ℤ result.hi }
    ensures outside { ¬ (AreInts lo hi) → result ≡ whole_range }
{
    if are_ints(lo, hi) {
        Range {
            lo: down_to_threshold(lo),
            hi: up_to_threshold(hi),
        }
    } else {
        Range {
            lo: i32::MIN,
            hi: i32::MAX,
        }
    }
}

/// Whether both ends are ints.
fn are_ints(lo: i64, hi: i64) -> bool
    ensures { result ≡ are_ints lo hi }
{
    i64::from(i32::MIN) <= lo && hi <= i64::from(i32::MAX)
}

/// The greatest threshold that is not above a number, or the least one.
fn down_to_threshold(number: i64) -> i32
    ensures { result ≡ threshold_below number }
{
    if number < -32768 {
        i32::MIN
    } else if number < -128 {
        -32768
    } else if number < -1 {
        -128
    } else if number < 0 {
        -1
    } else if number < 1 {
        0
    } else if number < 127 {
        1
    } else if number < 255 {
        127
    } else if number < 32767 {
        255
    } else if number < 65535 {
        32767
    } else if number < 2147483647 {
        65535
    } else {
        i32::MAX
    }
}

/// The least threshold that is not below a number, or the greatest one.
fn up_to_threshold(number: i64) -> i32
    ensures { result ≡ threshold_above number }
{
    if number <= -2147483648 {
        i32::MIN
    } else if number <= -32768 {
        -32768
    } else if number <= -128 {
        -128
    } else if number <= -1 {
        -1
    } else if number <= 0 {
        0
    } else if number <= 1 {
        1
    } else if number <= 127 {
        127
    } else if number <= 255 {
        255
    } else if number <= 32767 {
        32767
    } else if number <= 65535 {
        65535
    } else {
        i32::MAX
    }
}
