//! The constant pool of a class file and the descriptors in it (JVMS 4.3, 4.4), exactly. The main
//! calls are `read_pool`, `read_descriptor` and `read_field_descriptor`. What the bytes of a pool
//! are is in specs/Pool.antt, why other bytes are refused in specs/PoolRefused.antt, and what a
//! descriptor is in specs/Descriptors.antt. This crate stands on `item_list` and on the kit's
//! `byteorder`.
#![tactic(auto)]

mod descriptor;
mod entry;
mod kinds;
mod laws;
mod members;
mod methods;
mod names;
mod pool;
mod refusal;
mod scan;
mod slots;
mod tag;
mod types;
mod utf8;

pub use descriptor::{Base, Descriptor, DescriptorRefusal, Kind};
pub use kinds::read_field_descriptor;
pub use laws::one_value;
pub use members::{MemberName, method_name, name_and_type_in};
pub use methods::read_descriptor;
pub use pool::{Const, Pool, Text};
pub use refusal::PoolRefusal;
pub use slots::read_pool;
pub use types::{MemberId, TypeBase, TypeRef};
