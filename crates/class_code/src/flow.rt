//! Where instructions lead, and which of them are reached.

ghost use Rattle.std.specs.Prelude.{◌≡◌, ◌<◌, length, map, slice_index, IfOk};
ghost use Rattle.code_reach.specs.Reached.{TellReached};
ghost use Rattle.class_code.specs.Code.{RiseFrom, targets};
ghost use Rattle.class_code.specs.Flow.{goes_on as goes_on_of, insn_way, row_of, code_ways};

use crate::insn::Insn;
use class_file::HandlerRow;
use code_reach::{Flow, Row};
use std::alloc::{AllocError, Global};

/// How many targets an instruction has.
fn target_count(insn: &Insn) -> usize
    ensures { result ≡ length (targets insn.now) }
{
    match insn {
        Insn::If(..) | Insn::IfCmp(..) | Insn::IfRef(..) | Insn::Goto(_) => 1,
        Insn::Switch { rows, .. } => 1 + rows.as_slice().len(),
        _ => 0,
    }
}

/// One of the targets of an instruction.
fn target(insn: &Insn, index: usize) -> u32
    requires { index < length (targets insn.now) }
    ensures { result ≡ slice_index (targets insn.now) index }
{
    match insn {
        Insn::If(_, target)
        | Insn::IfCmp(_, target)
        | Insn::IfRef(_, target)
        | Insn::Goto(target) => *target,
        Insn::Switch { default, rows, .. } => match index {
            0 => *default,
            _ => rows.as_slice()[index - 1].target,
        },
        _ => 0,
    }
}

impl Flow for Insn {
    ghost way = { insn_way };

    fn goes_on(&self) -> bool {
        !matches!(
            self,
            Insn::Goto(_) | Insn::Switch { .. } | Insn::Return(_) | Insn::Throw
        )
    }

    fn target_count(&self) -> usize {
        target_count(self)
    }

    fn target(&self, index: usize) -> u32 {
        target(self, index)
    }
}

/// The rows of an exception table without the classes that they catch.
fn rows_of(alloc: Global, handlers: &[HandlerRow]) -> Result<Vec<Row>, AllocError>
    ensures { IfOk result (λ rows. rows.items ≡ map row_of handlers.now) }
{
    let mut rows = Vec::new(alloc);
    for row in handlers {
        rows.push(Row {
            start: u32::from(row.start),
            end: u32::from(row.end),
            target: u32::from(row.target),
        })?;
    }
    Ok(rows)
}

/// One flag for each instruction, in order: true exactly where it is reached from pc 0, by going on, by
/// targets, and by the handlers of the rows of this exception table that cover a reached pc.
pub fn reached(
    alloc: Global,
    insns: &[(u32, Insn)],
    handlers: &[HandlerRow],
) -> Result<Vec<bool>, AllocError>
    requires { RiseFrom 0 insns.now }
    ensures { IfOk result (λ flags. TellReached (code_ways handlers.now insns.now) flags.items) }
{
    let rows = rows_of(alloc, handlers)?;
    code_reach::reached(alloc, insns, rows.as_slice())
}
