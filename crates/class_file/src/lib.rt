//! From the bytes of a class file (JVMS chapter 4) to its record, exactly. The main call is
//! `read_class`. What stands between the bytes and the record is the class file relation, in
//! specs/Relation.antt: the bytes are the encoding of a layout, the layout keeps the rules, and the
//! record is that of the layout. Why other bytes are refused is in specs/Refused.antt, and the order in
//! which faults are found in specs/ReadingClass.antt. A table of the pool's texts, in specs/Texts.antt,
//! keeps the cost in proportion to the bytes. This crate stands on `class_pool`, `item_list` and the kit's
//! `byteorder`.
#![tactic(auto)]

mod attribute;
mod class;
mod code;
mod field;
mod flags;
mod head;
mod laws;
mod member;
mod names;
mod read;
mod record;
mod refusal;
mod rules;
mod seen;
mod texts;

pub use flags::{
    is_abstract, is_final, is_interface, is_private, is_protected, is_public, is_static,
};
pub use laws::{faults_say, prefixes_decide};
pub use read::read_class;
pub use record::{ClassFile, CodeAttr, HandlerRow, Member};
pub use refusal::ReadRefusal;
