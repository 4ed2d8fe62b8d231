//! Where control goes in a body.

ghost use Rattle.std.specs.Prelude.{IfOk};
ghost use Rattle.code_reach.specs.Reached.{RisesFrom};

use body_form::{Body, Guard, Literal, Memory, Op, OpList, handlers_at, reachable, successors};
use cell_num::BinOp;
use insn_form::{SwitchForm, SwitchRow, ValueKind};
use item_list::Items;
use std::alloc::Global;
use std::test::*;

/// A switch of which two keys lead to one pc.
fn switch(alloc: Global) -> Result<Op, Memory> {
    let rows = [
        SwitchRow { key: 1, target: 28 },
        SwitchRow { key: 5, target: 28 },
    ];
    Ok(Op::Switch {
        form: SwitchForm::Lookup,
        default: 40,
        rows: Items::from_vec(Vec::from_slice(alloc, &rows)?),
    })
}

/// A switch, a division and a jump; then a loop that nothing leads to; then two handlers and a return.
fn ops(alloc: Global) -> Result<Vec<(u32, Op)>, Memory>
    ensures { IfOk result (λ v. RisesFrom 0 v.items) }
{
    let switch = switch(alloc)?;
    let mut ops = Vec::new(alloc);
    ops.push((0, Op::Load(ValueKind::Int, 0)))?;
    ops.push((1, switch))?;
    ops.push((28, Op::Const(Literal::Int(7))))?;
    ops.push((29, Op::Bin(BinOp::Div)))?;
    ops.push((30, Op::Goto(40)))?;
    ops.push((33, Op::Nop))?;
    ops.push((34, Op::Goto(33)))?;
    ops.push((37, Op::Throw))?;
    ops.push((38, Op::Throw))?;
    ops.push((40, Op::Return(None)))?;
    Ok(ops)
}

/// Two rows over the division, one of them from the start on, and one over the loop.
const GUARDS: &[Guard] = &[
    Guard {
        start: 29,
        end: 31,
        target: 37,
        class: None,
    },
    Guard {
        start: 33,
        end: 37,
        target: 38,
        class: Some(1),
    },
    Guard {
        start: 0,
        end: 30,
        target: 37,
        class: Some(4),
    },
];

fn body(alloc: Global) -> Result<Body, Memory> {
    let ops = OpList::from_vec(ops(alloc)?);
    Ok(Body {
        class: 32,
        method: 0,
        params: Items::empty(alloc),
        result: None,
        instance: false,
        max_stack: 2,
        max_locals: 1,
        ops,
        handlers: Items::from_vec(Vec::from_slice(alloc, GUARDS)?),
    })
}

/// Where the instruction at a pc leads.
fn leads(alloc: Global, body: &Body, at: u32) -> Result<Vec<u32>, Fail> {
    if !body.ops.is_start(at) {
        return Err("an instruction is at the pc".into());
    }
    Ok(successors(alloc, body, at)?)
}

#[test]
fn leads_to_the_next_instruction_and_to_targets(rt: HostRuntime) -> Result<(), Fail> {
    let body = body(rt.alloc())?;
    assert_eq!(rt; leads(rt.alloc(), &body, 0)?.as_slice(), [1].as_slice());
    assert_eq!(rt;
        leads(rt.alloc(), &body, 1)?.as_slice(),
        [40, 28, 28].as_slice()
    );
    assert_eq!(rt; leads(rt.alloc(), &body, 30)?.as_slice(), [40].as_slice());
    assert!(rt; leads(rt.alloc(), &body, 37)?.is_empty());
    assert!(rt; leads(rt.alloc(), &body, 40)?.is_empty());
    Ok(())
}

#[test]
fn finds_the_handlers_of_a_pc(rt: HostRuntime) -> Result<(), Fail> {
    let body = body(rt.alloc())?;
    assert_eq!(rt;
        handlers_at(rt.alloc(), &body, 29)?.as_slice(),
        [0, 2].as_slice()
    );
    assert_eq!(rt;
        handlers_at(rt.alloc(), &body, 30)?.as_slice(),
        [0].as_slice()
    );
    assert_eq!(rt;
        handlers_at(rt.alloc(), &body, 34)?.as_slice(),
        [1].as_slice()
    );
    assert!(rt; handlers_at(rt.alloc(), &body, 40)?.is_empty());
    Ok(())
}

#[test]
fn tells_what_is_reached(rt: HostRuntime) -> Result<(), Fail> {
    let body = body(rt.alloc())?;
    let flags = reachable(rt.alloc(), &body)?;
    assert_eq!(rt;
        flags.as_slice(),
        [
            true, true, true, true, true, false, false, true, false, true
        ]
        .as_slice()
    );
    Ok(())
}
