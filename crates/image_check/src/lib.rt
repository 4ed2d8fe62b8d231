//! The check of an image before it runs: `check` answers a `Checked` image exactly where each method
//! keeps the rules (specs/Checked.antt) and the machine runs each of its instructions. Which rule a
//! refusal names, and where it fails, is in specs/Refused.antt; what is kept while depths are followed,
//! in specs/Flow.antt. This crate stands on `library`, `image_form`, `image_instr`, `item_list` and the
//! kit's `byteorder`.
#![tactic(auto)]

mod built;
mod built_form;
mod depth;
mod dimensions;
mod flow;
mod ids;
mod jumps;
mod laws;
mod listing;
mod names;
mod refusal;
mod send;
mod verdict;
mod visit;

pub use laws::refused_images_are_not_checked;
pub use refusal::{CheckCause, CheckRefusal};
pub use verdict::{Checked, check};
