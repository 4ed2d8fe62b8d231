ghost use Rattle.std.specs.Prelude.{◌≡◌, ◌↔◌, IsTrue};
ghost use Rattle.cell_num.specs.Conditions.{Holds, is_met};

/// How two ints are compared, in the order of the codes 0 to 5, which is that of the opcodes of
/// JVMS 6.5. A condition and its opposite stand side by side.
#[derive(Clone, Copy, Debug, PartialEq, Eq)]
pub enum Cond {
    Eq,
    Ne,
    Lt,
    Ge,
    Gt,
    Le,
}

/// Whether two ints, as signed numbers, stand to one another as a condition says.
pub fn holds(cond: Cond, a: i32, b: i32) -> bool
    ensures meaning { IsTrue result ↔ Holds cond a b }
    ensures test { result ≡ is_met cond a b }
{
    match cond {
        Cond::Eq => a == b,
        Cond::Ne => a != b,
        Cond::Lt => a < b,
        Cond::Ge => a >= b,
        Cond::Gt => a > b,
        Cond::Le => a <= b,
    }
}
