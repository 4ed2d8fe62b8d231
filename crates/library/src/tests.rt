use crate::{CLASS_COUNT, FIRST_OWN, Native, class_name, superclass_of};
use std::test::*;

#[test]
fn knows_its_classes_and_natives(rt: HostRuntime) {
    assert!(rt; CLASS_COUNT < FIRST_OWN);
    assert_eq!(rt; class_name(14), Some(b"mote/Console".as_slice()));
    assert_eq!(rt; class_name(15), None);
    assert_eq!(rt; superclass_of(10), Some(9));
    assert_eq!(rt; superclass_of(0), None);
    assert_eq!(rt; Native::of_number(2), Some(Native::Read));
    assert_eq!(rt; Native::Print.number(), 3);
}
