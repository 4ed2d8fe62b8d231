//! From a closed set of typed classes to its image, or to why it has none. The main call is `image_of`; what it answers
//! stands in `set_image`. This crate stands on `flow_split`, `infuse_ids`, `infuse_emit`, `infuse_tables` and `set_image`.
#![tactic(auto)]

mod code;
mod forms;
mod frames;
mod image;
mod laid;
mod refusals;
mod typed;

pub use image::image_of;
pub use typed::TypedBody;
