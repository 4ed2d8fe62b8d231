//! Calls of the infuser and of the machine by their public names, with ample memory: what a call lends is
//! looked at by patterns that name every field. What is data stands in `image_rows` and `top_rows`. This
//! crate has tests alone, and stands on `mote_top` and the crates below it that it calls.
#![tactic(auto)]

#[cfg(test)]
mod images;
#[cfg(test)]
mod infusing;
#[cfg(test)]
mod instructions;
#[cfg(test)]
mod motes;
#[cfg(test)]
mod statuses;
