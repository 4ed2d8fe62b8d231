//! The whole program as one call: `mote` reads the words of a command, does what the command says over
//! a shelf and a console, and answers a status. What each call promises is one screen,
//! specs/Promises.antt, over a call and what stands after it as values (specs/Call.antt); its words are in
//! specs/Headline.antt, and those of replies, from which each promise follows, in specs/Reply.antt. This
//! crate stands on `infuse_link`, which makes images of class files, `mote_core`, which runs them,
//! `image_form` and `image_check`, which read and check infusions, and `host_face`, which is the outside.
#![tactic(auto)]

mod laws;
mod machine;
mod note;
mod program;
mod status;
mod top;
mod words;

pub use laws::{
    calls_without_faults_answer, infusions_are_one_or_none, refused_sets_store_nothing,
    stored_sets_run,
};
pub use program::mote;
pub use status::{ImageCause, ImageRefusal, Status};
