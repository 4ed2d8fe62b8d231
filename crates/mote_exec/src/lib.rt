//! Plain steps of the mote machine over the memory of a mote, which place nothing and call nothing: constants, arithmetic,
//! locals, operands, jumps, switches and statics. The main call is `step_plain`. What a step answers is said by the move of
//! the split machine (`mote_model`, in specs/Turns.antt), and what is asked before it stands in specs/Steps.antt. This
//! crate stands on `mote_model`, `mote_stack`, `split_safety`, `image_check`, `image_instr` and `cell_num`.
#![tactic(auto)]

mod constants;
mod halves;
mod jumps;
mod locals;
mod numbers;
mod operands;
mod reference_tests;
mod references;
mod shuffles;
mod small;
mod statics;
mod step;
mod switches;

pub use constants::constant;
pub use jumps::{goto, jump_if_compared, jump_if_zero};
pub use locals::{clear, increment, load, store};
pub use numbers::{binary, negate};
pub use operands::{drop_below, pop};
pub use reference_tests::jump_if_reference;
pub use references::{null, pop_refs};
pub use shuffles::{duplicate, duplicate_refs, swap, swap_refs};
pub use small::{extend_byte, extend_sign, extend_zero, keep_bit};
pub use statics::{get_static, put_static};
pub use step::step_plain;
pub use switches::choose;
