//! The references of all frames, for a collection: no other cell is a root.

ghost use Rattle.std.specs.Prelude.{◌≡◌, ◌<◌, ◌≤◌, ◌+◌, ◌-◌, length, slice_index};
ghost use Rattle.mote_stack.specs.Roots.{refs_of, roots_of, with_root};
ghost use Rattle.mote_stack.specs.Layout.{AreFrames, frames_below, root_position};

use crate::region::Region;

impl Region {
    /// The number of references of all frames.
    pub fn root_count(&self) -> u32
        ensures { result ≡ length (roots_of self.now) }
    {
        let mut total = 0u32;
        let mut end = self.used;
        for _step in 0..self.count {
            let header = end - 4;
            total += u32::from(self.cells[usize::from(header) + 2]);
            end = header - self.bodies[usize::from(self.cells[usize::from(header)])];
        }
        total
    }

    /// Reference k of all frames, those of the oldest frame first.
    pub fn root(&self, k: u32) -> u16
        requires { k < length (roots_of self.now) }
        ensures { result ≡ slice_index (roots_of self.now) k }
    {
        let total = self.root_count();
        self.cells[position_of(&self.cells, &self.bodies, self.count, self.used, total, k)]
    }

    /// Writes reference k of all frames, those of the oldest frame first.
    pub fn set_root(&mut self, k: u32, v: u16)
        requires { k < length (roots_of self.old) }
        ensures { self.new ≡ with_root self.old k v }
    {
        let total = self.root_count();
        let at = position_of(&self.cells, &self.bodies, self.count, self.used, total, k);
        self.cells[at] = v;
    }
}

/// Where reference k of `total` references of `count` frames is. It takes a step a frame.
fn position_of(
    cells: &Vec<u16>,
    bodies: &Vec<u16>,
    count: u16,
    used: u16,
    total: u32,
    k: u32,
) -> usize
    requires frames { AreFrames bodies.now.items cells.now.items count used }
    requires within { used ≤ length cells.now.items }
    requires small { length cells.now.items ≤ 32767 }
    requires total { total ≡ length (refs_of (frames_below bodies.now.items cells.now.items count used)) }
    requires there { k < total }
    ensures value { result ≡ root_position bodies.now.items cells.now.items count used k }
    ensures within { result < used }
{
    let mut rest = total;
    let mut end = used;
    for _step in 0..count {
        let header = end - 4;
        let depth = u32::from(cells[usize::from(header) + 2]);
        let base = header - bodies[usize::from(cells[usize::from(header)])];
        if rest - depth <= k {
            return usize::from(base) + (k - (rest - depth)) as usize;
        }
        rest -= depth;
        end = base;
    }
    unreachable!()
}
