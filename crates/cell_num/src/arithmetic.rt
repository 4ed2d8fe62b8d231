ghost use Rattle.std.specs.Prelude.{◌≡◌, ◌<◌, ◌↔◌, IfSome, IsNone, Some, pos};
ghost use Rattle.cell_num.specs.declared.arithmetic.BinOp.{BinOp};
ghost use Rattle.cell_num.specs.declared.arithmetic.BinOp.TheVariants.{Div, Rem, Shl, Shr, Ushr};
ghost use Rattle.cell_num.specs.Arithmetic.{operation_code, applied, shift_count, Divides};

/// An operation on two ints, in the order of the codes 0 to 10.
#[derive(Clone, Copy, Debug, PartialEq, Eq)]
pub enum BinOp {
    Add,
    Sub,
    Mul,
    Div,
    Rem,
    Shl,
    Shr,
    Ushr,
    And,
    Or,
    Xor,
}

impl BinOp {
    /// The operation of a code. There is none above 10.
    pub fn of_code(code: u8) -> Option<BinOp>
        ensures none { IsNone result ↔ (10 < code) }
        ensures code { IfSome result (λ op. operation_code op ≡ code) }
        ensures each { (op : BinOp) → operation_code op ≡ code → result ≡ Some op }
    {
        match code {
            0 => Some(BinOp::Add),
            1 => Some(BinOp::Sub),
            2 => Some(BinOp::Mul),
            3 => Some(BinOp::Div),
            4 => Some(BinOp::Rem),
            5 => Some(BinOp::Shl),
            6 => Some(BinOp::Shr),
            7 => Some(BinOp::Ushr),
            8 => Some(BinOp::And),
            9 => Some(BinOp::Or),
            10 => Some(BinOp::Xor),
            _ => None,
        }
    }
}

/// What an operation gives of two ints, as its instruction in JVMS 6.5 says: iadd, isub, imul, idiv,
/// irem, ishl, ishr, iushr, iand, ior, ixor. There is no result where 0 is to divide.
pub fn apply(op: BinOp, a: i32, b: i32) -> Option<i32>
    ensures value { result ≡ applied op a b }
    ensures none { IsNone result ↔ (Divides op × (b ≡ pos 0)) }
{
    match op {
        BinOp::Add => Some(a.wrapping_add(b)),
        BinOp::Sub => Some(a.wrapping_sub(b)),
        BinOp::Mul => Some(a.wrapping_mul(b)),
        BinOp::Div => quotient(a, b),
        BinOp::Rem => remainder(a, b),
        BinOp::Shl => Some(shifted_left(a, b)),
        BinOp::Shr => Some(shifted_right(a, b)),
        BinOp::Ushr => Some(shifted_right_unsigned(a, b)),
        BinOp::And => Some(a & b),
        BinOp::Or => Some(a | b),
        BinOp::Xor => Some(a ^ b),
    }
}

/// idiv: rounded toward zero. The least int by -1 is the least int again.
fn quotient(a: i32, b: i32) -> Option<i32>
    ensures { result ≡ applied Div a b }
{
    if b == 0 {
        None
    } else {
        Some(a.wrapping_div(b))
    }
}

/// irem: what idiv leaves, with the dividend's sign.
fn remainder(a: i32, b: i32) -> Option<i32>
    ensures { result ≡ applied Rem a b }
{
    if b == 0 {
        None
    } else {
        Some(a.wrapping_rem(b))
    }
}

/// How far a shift goes: the low five bits of its count.
fn low_five_bits(count: i32) -> u32
    ensures value { result ≡ shift_count count }
    ensures bound { result < 32 }
{
    count.cast_unsigned() & 0x1f
}

/// ishl.
fn shifted_left(a: i32, count: i32) -> i32
    ensures { Some result ≡ applied Shl a count }
{
    a.wrapping_shl(low_five_bits(count))
}

/// ishr: copies the sign.
fn shifted_right(a: i32, count: i32) -> i32
    ensures { Some result ≡ applied Shr a count }
{
    a >> low_five_bits(count)
}

/// iushr: fills with zeros.
fn shifted_right_unsigned(a: i32, count: i32) -> i32
    ensures { Some result ≡ applied Ushr a count }
{
    (a.cast_unsigned() >> low_five_bits(count)).cast_signed()
}
