ghost use Rattle.std.specs.Prelude.{◌≡◌, ◌≤◌, [], ◌∷◌, IfOk};
ghost use Rattle.mote_stack.specs.Filled.{IsFilled};

use crate::{Region, StackWanted};
use std::test::Fail;

/// A region of 64 cells for methods with bodies of 8 and of 6 cells, and a frame of the first with
/// two references and two whole-number cells.
fn one_frame(rt: &HostRuntime) -> Result<Region, Fail>
    ensures { IfOk result (λ region. region ≡ record {
      size = 64;
      bodies = 8 ∷ 6 ∷ [];
      frames = record { method = 0; pc = 0; body = 8; refs = 0 ∷ 0 ∷ []; cells = 0 ∷ 0 ∷ [] } ∷ [];
    }) }
{
    let bodies = [8, 6].to_vec(rt.alloc())?;
    let mut region = Region::new(rt.alloc(), 64, bodies)?;
    match region.push_frame(0, 2, 2, 0, 0) {
        Ok(()) => Ok(region),
        Err(_) => unreachable!(),
    }
}

#[test]
fn no_more_fields(rt: HostRuntime) -> Result<(), Fail> {
    let Region {
        cells,
        bodies,
        used,
        count,
        youngest,
    } = one_frame(&rt)?;
    assert_eq!(rt; cells.len(), 64);
    assert_eq!(rt; bodies.len(), 2);
    assert_eq!(rt; used, 12);
    assert_eq!(rt; count, 1);
    assert_eq!(rt; youngest, 8);
    Ok(())
}

#[test]
fn references_are_a_list(rt: HostRuntime) -> Result<(), Fail> {
    let mut region = one_frame(&rt)?;
    region.push_ref(7);
    region.set_ref(0, 9);
    assert_eq!(rt; region.ref_at(0), 9);
    assert_eq!(rt; region.ref_depth(), 3);
    assert_eq!(rt; region.pop_ref(), 7);
    Ok(())
}

#[test]
fn whole_number_cells_are_a_list(rt: HostRuntime) -> Result<(), Fail> {
    let mut region = one_frame(&rt)?;
    region.push_cell(7);
    region.set_int(0, 9);
    assert_eq!(rt; region.int_at(0), 9);
    assert_eq!(rt; region.cell_depth(), 3);
    assert_eq!(rt; region.pop_cell(), 7);
    Ok(())
}

#[test]
fn a_call_takes_its_arguments(rt: HostRuntime) -> Result<(), Fail> {
    let mut region = one_frame(&rt)?;
    region.set_pc(5);
    region.set_ref(1, 7);
    region.set_int(1, 9);
    let called = region.push_frame(1, 2, 2, 1, 1);
    assert_eq!(rt; called, Ok(()));
    assert_eq!(rt; region.frame_count(), 2);
    assert_eq!(rt; region.used(), 22);
    assert_eq!(rt; region.method_at(0), 1);
    assert_eq!(rt; region.pc_at(1), 5);
    assert_eq!(rt; region.ref_at(0), 7);
    assert_eq!(rt; region.int_at(0), 9);
    region.pop_frame();
    assert_eq!(rt; region.ref_depth(), 1);
    assert_eq!(rt; region.cell_depth(), 1);
    Ok(())
}

#[test]
fn operands_are_shuffled(rt: HostRuntime) -> Result<(), Fail> {
    let mut region = one_frame(&rt)?;
    region.set_ref(0, 1);
    region.set_ref(1, 2);
    region.dupx(true, 1, 1);
    assert_eq!(rt; region.ref_at(0), 2);
    assert_eq!(rt; region.ref_at(2), 2);
    region.trim(2, 2);
    region.swap(true, 1, 1);
    assert_eq!(rt; region.ref_at(0), 1);
    Ok(())
}

#[test]
fn a_cell_is_dropped(rt: HostRuntime) -> Result<(), Fail> {
    let mut region = one_frame(&rt)?;
    region.set_int(1, 7);
    region.drop_at(1);
    assert_eq!(rt; region.int_at(0), 7);
    Ok(())
}

#[test]
fn roots_go_from_the_oldest_frame(rt: HostRuntime) -> Result<(), Fail> {
    let mut region = one_frame(&rt)?;
    region.set_ref(1, 7);
    let called = region.push_frame(1, 1, 0, 1, 0);
    assert_eq!(rt; called, Ok(()));
    assert_eq!(rt; region.root_count(), 2);
    assert_eq!(rt; region.root(1), 7);
    region.set_root(0, 9);
    assert_eq!(rt; region.root(0), 9);
    Ok(())
}

/// Fills the one frame of a region of this size from both ends, to the last cell.
fn fill(rt: &HostRuntime, size: u16) -> Result<Region, Fail>
    requires large { 64 ≤ size }
    requires small { size ≤ 32767 }
    ensures { IfOk result (λ region. IsFilled size region) }
{
    let body = size - 4;
    let bodies = [body].to_vec(rt.alloc())?;
    let mut region = Region::new(rt.alloc(), size, bodies)?;
    match region.push_frame(0, 0, 0, 0, 0) {
        Ok(()) => {}
        Err(_) => unreachable!(),
    }
    for at in 0..body {
        if at % 3 == 0 {
            region.push_ref(at);
        } else {
            region.push_cell(at);
        }
    }
    Ok(region)
}

#[test]
fn the_least_region_is_filled(rt: HostRuntime) -> Result<(), Fail> {
    let mut region = fill(&rt, 64)?;
    assert_eq!(rt; region.pop_ref(), 57);
    assert_eq!(rt; region.pop_cell(), 59);
    let refused = region.push_frame(0, 0, 0, 0, 0);
    assert_eq!(rt; refused, Err(StackWanted { need: 64, used: 64 }));
    Ok(())
}

#[test]
fn the_largest_region_is_filled(rt: HostRuntime) -> Result<(), Fail> {
    let mut region = fill(&rt, 32767)?;
    assert_eq!(rt; region.pop_ref(), 32760);
    assert_eq!(rt; region.pop_cell(), 32762);
    let refused = region.push_frame(0, 0, 0, 0, 0);
    assert_eq!(rt;
        refused,
        Err(StackWanted {
            need: 32767,
            used: 32767
        })
    );
    Ok(())
}
