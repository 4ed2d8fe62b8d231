//! What the merge of two frames is, by those of their operands and of their locals.

ghost use Rattle.type_table.specs.Merges.{IsGrown};

use crate::merged_operands::MergedChain;
use crate::store::FrameId;

/// What the merge of two frames is.
#[derive(Clone, Copy, Debug, PartialEq, Eq)]
pub enum Merged {
    /// The frames do not merge.
    Clash,
    /// The upper frame.
    Same,
    /// Another frame.
    Grown(FrameId),
}

/// The merge of two frames, by what their operands merge into, and their locals, where these are not those of the upper
/// frame.
pub(crate) fn grown(
    upper: FrameId,
    operands: MergedChain,
    locals: Option<u32>,
    pending: bool,
) -> Merged
    ensures { IsGrown upper locals pending result operands }
{
    let id = FrameId {
        height: upper.height,
        operands: upper.operands,
        locals: locals.unwrap_or(upper.locals),
        pending,
    };
    match operands {
        MergedChain::Clash => Merged::Clash,
        MergedChain::Same => {
            if locals.is_none() && pending == upper.pending {
                Merged::Same
            } else {
                Merged::Grown(id)
            }
        }
        MergedChain::Grown(chain) => Merged::Grown(FrameId {
            height: chain.height,
            operands: chain.top,
            ..id
        }),
    }
}
