//! Code as a list of instructions, and the rows of an exception table.

use class_code::{decode, handlers_fit, reached};
use class_file::HandlerRow;
use std::test::*;

#[test]
fn finds_the_first_row_that_does_not_fit(rt: HostRuntime) -> Result<(), Fail> {
    // Starts at 0, 2, 3 and 6; the length is 7.
    let list = decode(rt.alloc(), &[16, 1, 87, 167, 0, 3, 177])
        .ok()
        .ok_or("the bytes are code")?;
    let row = |start, end, target| HandlerRow {
        start,
        end,
        target,
        catch_type: 0,
    };
    assert_eq!(rt; handlers_fit(&list, &[], 7), None);
    assert_eq!(rt;
        handlers_fit(&list, &[row(0, 2, 3), row(2, 7, 6), row(6, 0, 0)], 7),
        None
    );
    assert_eq!(rt;
        handlers_fit(&list, &[row(0, 2, 3), row(2, 4, 6), row(1, 2, 3)], 7),
        Some(2)
    );
    assert_eq!(rt; handlers_fit(&list, &[row(1, 2, 3)], 7), Some(1));
    assert_eq!(rt; handlers_fit(&list, &[row(0, 3, 7)], 7), Some(0));
    assert_eq!(rt; handlers_fit(&list, &[row(3, 7, 3)], 6), Some(3));
    Ok(())
}

#[test]
fn tells_starts(rt: HostRuntime) -> Result<(), Fail> {
    let list = decode(rt.alloc(), &[0, 16, 1, 177])
        .ok()
        .ok_or("the bytes are code")?;
    assert!(rt; list.is_start(0) && list.is_start(1) && list.is_start(3));
    assert!(rt; !list.is_start(2) && !list.is_start(4) && !list.is_start(u32::MAX));
    assert_eq!(rt; list.into_vec().len(), 3);
    Ok(())
}

#[test]
fn tells_what_is_reached(rt: HostRuntime) -> Result<(), Fail> {
    // A jump from 0 to 4, a nop at 3, a return at 4, and throws from 5 to 8.
    let list = decode(rt.alloc(), &[167, 0, 4, 0, 177, 191, 191, 191, 191])
        .ok()
        .ok_or("the bytes are code")?;
    let row = |start, end, target| HandlerRow {
        start,
        end,
        target,
        catch_type: 0,
    };
    let rows = [row(3, 4, 5), row(0, 5, 6), row(6, 7, 8), row(4, 4, 7)];
    let flags = reached(rt.alloc(), list.as_slice(), &rows)
        .ok()
        .ok_or("there is memory")?;
    assert_eq!(rt;
        flags.as_slice(),
        [true, false, true, false, true, false, true].as_slice()
    );
    Ok(())
}
