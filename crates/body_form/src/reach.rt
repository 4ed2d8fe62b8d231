//! Which instructions of a body are reached.

ghost use Rattle.std.specs.Prelude.{◌≡◌, ◌<◌, IfOk, map, length, slice_index};
ghost use Rattle.code_reach.specs.Reached as ways;
ghost use Rattle.body_form.specs.Flow.{goes_on, targets};
ghost use Rattle.body_form.specs.Reach.{TellReached, way_of, row_of, ways_of};

use crate::body::{Body, Guard};
use crate::flow::{Memory, goes_on};
use crate::op::Op;
use code_reach::{Flow, Row, reached};
use std::alloc::Global;

/// How many targets the instruction names.
fn target_count(op: &Op) -> usize
    ensures { result ≡ length (targets op.now) }
{
    match op {
        Op::If(..) | Op::IfCmp(..) | Op::IfRef(..) | Op::Goto(_) => 1,
        Op::Switch { rows, .. } => 1 + rows.as_slice().len(),
        _ => 0,
    }
}

/// The target of the instruction with this index.
fn target(op: &Op, index: usize) -> u32
    requires { index < length (targets op.now) }
    ensures { result ≡ slice_index (targets op.now) index }
{
    match op {
        Op::If(_, target) | Op::IfCmp(_, target) | Op::IfRef(_, target) | Op::Goto(target) => {
            *target
        }
        Op::Switch { default, rows, .. } => match index {
            0 => *default,
            _ => rows.as_slice()[index - 1].target,
        },
        _ => 0,
    }
}

impl Flow for Op {
    ghost way = { way_of };

    fn goes_on(&self) -> bool {
        goes_on(self)
    }

    fn target_count(&self) -> usize {
        target_count(self)
    }

    fn target(&self, index: usize) -> u32 {
        target(self, index)
    }
}

/// The rows without the classes that they catch.
fn rows_of(alloc: Global, guards: &[Guard]) -> Result<Vec<Row>, Memory>
    ensures { IfOk result (λ v. v.items ≡ map row_of guards.now) }
{
    let mut rows = Vec::new(alloc);
    for guard in guards {
        let row = Row {
            start: guard.start,
            end: guard.end,
            target: guard.target,
        };
        match rows.push(row) {
            Ok(()) => {}
            Err(why) => return Err(why.into()),
        }
    }
    Ok(rows)
}

/// One flag for each instruction, in order: whether it is reached from pc 0, by going on, by targets, and by
/// the handlers of the rows whose range holds a reached pc.
pub fn reachable(alloc: Global, body: &Body) -> Result<Vec<bool>, Memory>
    ensures flags { IfOk result (λ v. TellReached body.now v.items) }
    ensures ways { IfOk result (λ v. ways.TellReached (ways_of body.now) v.items) }
{
    let rows = rows_of(alloc, body.handlers.as_slice())?;
    reached(alloc, body.ops.as_slice(), rows.as_slice())
}
