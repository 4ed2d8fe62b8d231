//! The lowest pc at which a round fails.

ghost use Rattle.std.specs.Prelude.{◌≡◌};
ghost use Rattle.flow_verify.specs.Lowest.{lower_of};

/// The lower of two pcs, where there are two.
pub(crate) fn lower(first: Option<u32>, second: Option<u32>) -> Option<u32>
    ensures { result ≡ lower_of first second }
{
    match (first, second) {
        (None, other) => other,
        (Some(pc), None) => Some(pc),
        (Some(pc), Some(other)) => Some(pc.min(other)),
    }
}
