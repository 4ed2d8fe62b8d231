//! Each status has its code.

use mote_top::{ImageCause, ImageRefusal, Status};
use std::process::Abort;

/// The status has this code.
fn has_code(rt: &impl Abort, status: Status, code: u8) {
    assert_eq!(rt; status.code(), code);
}

#[test]
fn each_status_has_its_code(rt: HostRuntime) {
    let refusal = ImageRefusal {
        cause: ImageCause::BadTable,
        a: 0,
        b: 0,
    };
    has_code(&rt, Status::Done, 0);
    has_code(&rt, Status::Words { place: 1 }, 2);
    has_code(&rt, Status::Infusion(refusal), 4);
    has_code(&rt, Status::Spent, 5);
    has_code(&rt, Status::HeapWanted { need: 2, live: 0 }, 6);
    has_code(&rt, Status::StackWanted { need: 4, used: 0 }, 7);
    has_code(&rt, Status::ConsoleFault, 8);
    has_code(&rt, Status::ShelfFault { word: 1 }, 9);
    has_code(
        &rt,
        Status::Misfit {
            class: 32,
            place: 0,
        },
        10,
    );
    has_code(&rt, Status::Memory, 11);
}
