//! What the bodies of a set keep to, where the phases of the set up to that of types have no refusal: their pcs rise, the
//! rows of their switches are as machine instructions ask, and what their instructions count is little, as are their
//! parameters. Where the image of a body keeps to its limits too, the numbers of the body's machine instructions are of
//! their types. The definitions are in specs/. This crate has no code of its own. It stands on `type_safety`,
//! `match_code`, `match_states`, `expansion` and `jvm_model`.
#![tactic(auto)]

ghost use Rattle.body_limits.specs.Limits.{CountsAreKept, NumbersAreInRange, ParametersAreFew, PcsRise, RowsAreKept};

use type_safety::typed_code_is_safe;

/// The bodies of a set that its phases accept keep to these limits.
pub fn bodies_keep_limits()
    ensures rise { PcsRise }
    ensures rows { RowsAreKept }
    ensures counts { CountsAreKept }
    ensures parameters { ParametersAreFew }
    ensures ranges { NumbersAreInRange }
{
    typed_code_is_safe();
}
