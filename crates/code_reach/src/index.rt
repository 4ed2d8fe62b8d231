ghost use Rattle.std.specs.Prelude.{◌≡◌};
ghost use Rattle.code_reach.specs.Reached.{RisesFrom};
ghost use Rattle.code_reach.specs.Visits.{pcs_of, index_of as index_of_pc};

/// The index of the instruction at a pc, or past the end where none is there.
pub(crate) fn index_of<F>(code: &[(u32, F)], pc: u32) -> usize
    requires { RisesFrom 0 code.now }
    ensures { result ≡ index_of_pc (pcs_of code.now) pc }
{
    code.binary_search_by_key(&pc, |x| x.0)
        .unwrap_or(code.len())
}
