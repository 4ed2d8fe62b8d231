ghost use Rattle.std.specs.Prelude.{◌≡◌, ◌≤◌, None, Some, IfOk, IfErr};
ghost use Rattle.image_form.specs.Library.{name_of as name_in};
ghost use Rattle.mote_model.specs.declared.ending.Ending.{Ending as How};
ghost use Rattle.split_safety.specs.Ready.{Shown};
ghost use Rattle.run_loop.specs.Ran.{Ran, Stands, Start};
ghost use Rattle.mote_core.specs.Kept.{IsNew, Leaves, StandsFor, kept_after, start_of};

use crate::start::start;
use host_face::Console;
use image_check::Checked;
use mote_model::{Ending, State};
use run_loop::run_from;
use split_safety::checked_images_are_safe;
use std::alloc::Global;
use std::marker::Model;

/// A mote: a checked image, and the memory of its run.
#[derive(Drop)]
pub struct Mote {
    checked: Checked,
    heap: u16,
    state: State,
    ending: Option<Ending>,
}

impl Model for Mote {
    ghost use Rattle.std.specs.Prelude.{◌≤◌};
    ghost use Rattle.mote_core.specs.Kept.{Kept};

    ghost Value = { Kept };

    ghost view = { λ mote. record { image = mote.checked; heap = mote.heap; memory = mote.state; ending = mote.ending } };

    ghost invariant = { λ mote. 64 ≤ mote.heap };
}

/// The ending that a mote keeps after a run: none after one that is spent, so that another one goes on.
fn ending_to_keep(ending: Ending) -> Option<Ending>
    ensures { result ≡ kept_after ending }
{
    match ending {
        Ending::Spent => None,
        _ => Some(ending),
    }
}

/// Runs from the state that the memory stands for, within a heap of so many cells. No cell of the heap is taken so far, so
/// that its size is for the contract alone.
fn run_within<C: Console>(
    state: &mut State,
    checked: &Checked,
    _heap: u16,
    console: &mut C,
    ticks: u64,
) -> Ending
    ghost start: { Start }

    requires image { let at = start.at in at.image ≡ checked.now }
    requires stands { Stands start.at state.old }
    requires heap { start.heap ≡ _heap }
    requires least_heap { 64 ≤ _heap }
    ensures ran { Ran C.left C.shown C.noted C.faults C.room start ticks console.old console.new state.new result }
    ensures collections { state.new.collections ≡ state.old.collections }
{
    run_from(state, checked, console, ticks)
}

impl Mote {
    /// Takes all the memory of the runs: the cells of the stack, and those of the statics. `heap` and `stack` are in cells.
    /// Where main's frame has more cells than the stack, the mote keeps that want. Without memory the image comes back.
    pub fn new(alloc: Global, checked: Checked, heap: u16, stack: u16) -> Result<Mote, Checked>
        requires least_heap { 64 ≤ heap }
        requires greatest_heap { heap ≤ 32767 }
        requires least_stack { 64 ≤ stack }
        requires greatest_stack { stack ≤ 32767 }
        ensures ok { IfOk result (IsNew checked heap stack) }
        ensures err { IfErr result (λ back. back ≡ checked) }
    {
        checked_images_are_safe();
        match start(alloc, &checked, stack) {
            Ok((state, ending)) => Ok(Mote {
                checked,
                heap,
                state,
                ending,
            }),
            Err(_) => Err(checked),
        }
    }

    /// Runs from the state that the mote stands for, on a budget of ticks. After a run that is spent another one goes on
    /// where it stopped; any other ending is kept, and answered again. Takes no memory.
    pub fn run<C: Console>(&mut self, console: &mut C, ticks: u64) -> Ending
        ghost at: { Shown }

        requires stands { StandsFor at self.old }
        ensures kept { (how : How) → self.old.ending ≡ Some how → (result ≡ how) × (self.new ≡ self.old) × (console.new ≡ console.old) }
        ensures ran { self.old.ending ≡ None → Ran C.left C.shown C.noted C.faults C.room (start_of at self.old) ticks console.old console.new self.new.memory result }
        ensures keeps { self.old.ending ≡ None → self.new.ending ≡ kept_after result }
        ensures leaves { Leaves self.old self.new }
    {
        match self.ending {
            Some(ending) => ending,
            None => {
                let ending = run_within(&mut self.state, &self.checked, self.heap, console, ticks);
                self.ending = ending_to_keep(ending);
                ending
            }
        }
    }

    /// How many collections its runs had; once at the greatest number it stays there.
    pub fn collections(&self) -> u64
        ensures { result ≡ self.now.memory.collections }
    {
        self.state.collections
    }

    /// The bytes of the name of a class of the library or of the image; those of what is no class are none.
    pub fn name_of(&self, class: u16) -> &[u8]
        ensures { result.now ≡ name_in self.now.image class }
    {
        self.checked.name_of(class)
    }
}
