ghost use Rattle.std.specs.Prelude.{map};
ghost use Rattle.std.specs.String.{string_bytes};
ghost use Rattle.mote_top.specs.Call.{shelved, spoken, call, after};
ghost use Rattle.mote_top.specs.Promises.{Promises};

use crate::status::Status;
use crate::top::replied;
use host_face::{Console, Shelf};
use set_outcome::accepted_sets_run;
use std::alloc::Global;

/// Does all that the program does: reads the words, which exclude the program's name, does what the
/// command says over the shelf and the console, and notes the line of the status.
///
/// The words are `infuse OUT CLASS CLASS ..`, `run INFUSION OPTIONS` or `go OPTIONS CLASS CLASS ..`, where
/// OPTIONS are `--stack N` and `--ticks N`, in any order, each once at most. The heap has 4,096 cells; the
/// stack has 1,024 and the budget is 100,000,000 ticks unless they are given.
///
/// What each call promises stands in `specs/Promises.antt`: what it replies, the headline, refusals of
/// sets, what `infuse` stores, what `run` does with bytes, words at fault, the causes of faults, and what
/// stays.
pub fn mote<S: Shelf, C: Console>(
    alloc: Global,
    words: &[String],
    shelf: &mut S,
    console: &mut C,
) -> Status
    ensures { Promises
        (call (map string_bytes words.now) (shelved S.kept S.load_faults S.store_faults shelf.old) (spoken C.left C.shown C.noted C.faults C.room console.old))
        (after (shelved S.kept S.load_faults S.store_faults shelf.new) (spoken C.left C.shown C.noted C.faults C.room console.new) result) }
{
    accepted_sets_run();
    replied(alloc, words, shelf, console)
}
