//! Frames that come and go, and what their headers say.

ghost use Rattle.std.specs.Prelude.{◌≡◌, ◌<◌, ◌≤◌, ◌+◌, ◌-◌, length, drop, MatchResult, slice_index, vec_len};
ghost use Rattle.mote_stack.specs.Frames.{Stack, nth_frame, youngest_frame, with_youngest, with_frame, without_frame, frame_need, cells_in_use};
ghost use Rattle.mote_stack.specs.Layout.{AreFrames, frames_below};
ghost use Rattle.mote_stack.specs.Moves.{LaysFrame, HandsOver};

use crate::region::{Region, StackWanted};

/// Where frame k of `count` frames ends, the youngest being 0.
fn end_of(cells: &Vec<u16>, bodies: &Vec<u16>, count: u16, used: u16, k: u16) -> u16
    requires frames { AreFrames bodies.now.items cells.now.items count used }
    requires within { used ≤ length cells.now.items }
    requires small { length cells.now.items ≤ 32767 }
    requires there { k < count }
    ensures frames { AreFrames bodies.now.items cells.now.items (count - k) result }
    ensures rest { drop k (frames_below bodies.now.items cells.now.items count used)
        ≡ frames_below bodies.now.items cells.now.items (count - k) result }
    ensures within { result ≤ used }
{
    let mut end = used;
    for _step in 0..k {
        let header = end - 4;
        end = header - bodies[usize::from(cells[usize::from(header)])];
    }
    end
}

/// Writes a frame without arguments: its header, and a body of zeros.
fn lay_frame(
    cells: &mut Vec<u16>,
    base: usize,
    header: usize,
    method: u16,
    ref_locals: u16,
    cell_locals: u16,
)
    requires order { base ≤ header }
    requires within { header + 4 ≤ length cells.old.items }
    requires small { length cells.old.items ≤ 32767 }
    ensures len { vec_len cells.new ≡ vec_len cells.old }
    ensures laid { LaysFrame cells.old.items cells.new.items base header method ref_locals cell_locals }
{
    for at in base..header {
        cells[at] = 0;
    }
    cells[header] = method;
    cells[header + 1] = 0;
    cells[header + 2] = ref_locals;
    cells[header + 3] = cell_locals;
}

/// Moves the arguments off the halves of the caller to the ends of the body from `base` to `header`.
fn hand_over(
    cells: &mut Vec<u16>,
    caller: usize,
    caller_base: usize,
    base: usize,
    header: usize,
    ref_args: u16,
    cell_args: u16,
)
    requires caller { caller + 4 ≤ base }
    requires room { base + ref_args + cell_args ≤ header }
    requires within { header ≤ length cells.old.items }
    requires small { length cells.old.items ≤ 32767 }
    requires halves { caller_base + slice_index cells.old.items (caller + 2) + slice_index cells.old.items (caller + 3) ≤ caller }
    requires ref_args { ref_args ≤ slice_index cells.old.items (caller + 2) }
    requires cell_args { cell_args ≤ slice_index cells.old.items (caller + 3) }
    ensures len { vec_len cells.new ≡ vec_len cells.old }
    ensures handed { HandsOver cells.old.items cells.new.items caller caller_base base header ref_args cell_args }
{
    let refs = cells[caller + 2] - ref_args;
    let nums = cells[caller + 3] - cell_args;
    let first_ref = caller_base + usize::from(refs);
    let last_num = caller - usize::from(nums);
    let first_num = last_num - usize::from(cell_args);
    cells.copy_within(first_ref..first_ref + usize::from(ref_args), base);
    cells.copy_within(first_num..last_num, header - usize::from(cell_args));
    cells[caller + 2] = refs;
    cells[caller + 3] = nums;
}

impl Region {
    /// Pushes a frame with pc 0. The last `ref_args` references and `cell_args` whole-number cells of
    /// the youngest frame become its first locals, in their order; all other locals are 0.
    pub fn push_frame(
        &mut self,
        method: u16,
        ref_locals: u16,
        cell_locals: u16,
        ref_args: u16,
        cell_args: u16,
    ) -> Result<(), StackWanted>
        requires method { method < length self.old.bodies }
        requires locals { ref_locals + cell_locals ≤ slice_index self.old.bodies method }
        requires ref_locals { ref_args ≤ ref_locals }
        requires cell_locals { cell_args ≤ cell_locals }
        requires ref_args { ref_args ≤ length (youngest_frame self.old).refs }
        requires cell_args { cell_args ≤ length (youngest_frame self.old).cells }
        ensures { MatchResult result
            (λ _. (cells_in_use self.old + frame_need self.old method ≤ self.old.size)
            × (self.new ≡ with_frame self.old method ref_locals cell_locals ref_args cell_args))
            (λ why. (self.old.size < cells_in_use self.old + frame_need self.old method)
            × (why ≡ record { need = frame_need self.old method; used = cells_in_use self.old })
            × (self.new ≡ self.old)) }
    {
        let body = self.bodies[usize::from(method)];
        let need = u32::from(body) + 4;
        let used = u32::from(self.used);
        if used + need > self.cells.len() as u32 {
            return Err(StackWanted { need, used });
        }
        let base = usize::from(self.used);
        let header = base + usize::from(body);
        lay_frame(
            &mut self.cells,
            base,
            header,
            method,
            ref_locals,
            cell_locals,
        );
        if self.count > 0 {
            let caller = usize::from(self.youngest);
            let caller_base = caller - usize::from(self.bodies[usize::from(self.cells[caller])]);
            hand_over(
                &mut self.cells,
                caller,
                caller_base,
                base,
                header,
                ref_args,
                cell_args,
            );
        }
        self.used = header as u16 + 4;
        self.count += 1;
        self.youngest = header as u16;
        Ok(())
    }

    /// Removes the youngest frame.
    pub fn pop_frame(&mut self)
        requires { 0 < length self.old.frames }
        ensures { self.new ≡ without_frame self.old }
    {
        let header = usize::from(self.youngest);
        let base = self.youngest - self.bodies[usize::from(self.cells[header])];
        self.used = base;
        self.count -= 1;
        self.youngest = base.saturating_sub(4);
    }

    /// The method of frame k, the youngest being 0.
    pub fn method_at(&self, k: u16) -> u16
        requires { k < length self.now.frames }
        ensures { result ≡ (nth_frame self.now k).method }
    {
        let end = end_of(&self.cells, &self.bodies, self.count, self.used, k);
        self.cells[usize::from(end) - 4]
    }

    /// The pc of frame k, the youngest being 0.
    pub fn pc_at(&self, k: u16) -> u16
        requires { k < length self.now.frames }
        ensures { result ≡ (nth_frame self.now k).pc }
    {
        let end = end_of(&self.cells, &self.bodies, self.count, self.used, k);
        self.cells[usize::from(end) - 3]
    }

    /// The number of references of the youngest frame.
    pub fn ref_depth(&self) -> u16
        requires { 0 < length self.now.frames }
        ensures { result ≡ length (youngest_frame self.now).refs }
    {
        self.cells[usize::from(self.youngest) + 2]
    }

    /// The number of whole-number cells of the youngest frame.
    pub fn cell_depth(&self) -> u16
        requires { 0 < length self.now.frames }
        ensures { result ≡ length (youngest_frame self.now).cells }
    {
        self.cells[usize::from(self.youngest) + 3]
    }

    /// Sets the pc of the youngest frame.
    pub fn set_pc(&mut self, pc: u16)
        requires { 0 < length self.old.frames }
        ensures { self.new ≡ with_youngest self.old (record (youngest_frame self.old) { pc = pc }) }
    {
        self.cells[usize::from(self.youngest) + 1] = pc;
    }
}
