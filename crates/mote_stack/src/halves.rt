//! The two lists of the youngest frame, item by item.

ghost use Rattle.std.specs.Prelude.{◌≡◌, ◌++◌, ◌<◌, ◌-◌, [], ◌∷◌, length, slice_index, slice_set};
ghost use Rattle.mote_stack.specs.Frames.{youngest_frame, with_refs, with_cells, without_last, HasFreeCells};

use crate::region::Region;

impl Region {
    /// A reference of the youngest frame, locals first.
    pub fn ref_at(&self, n: u16) -> u16
        requires { n < length (youngest_frame self.now).refs }
        ensures { result ≡ slice_index (youngest_frame self.now).refs n }
    {
        let header = usize::from(self.youngest);
        let body = self.bodies[usize::from(self.cells[header])];
        self.cells[header - usize::from(body) + usize::from(n)]
    }

    /// A whole-number cell of the youngest frame, locals first.
    pub fn int_at(&self, n: u16) -> u16
        requires { n < length (youngest_frame self.now).cells }
        ensures { result ≡ slice_index (youngest_frame self.now).cells n }
    {
        self.cells[usize::from(self.youngest) - 1 - usize::from(n)]
    }

    /// Writes a reference of the youngest frame, locals first.
    pub fn set_ref(&mut self, n: u16, v: u16)
        requires { n < length (youngest_frame self.old).refs }
        ensures { self.new ≡ with_refs self.old (slice_set (youngest_frame self.old).refs n v) }
    {
        let header = usize::from(self.youngest);
        let body = self.bodies[usize::from(self.cells[header])];
        self.cells[header - usize::from(body) + usize::from(n)] = v;
    }

    /// Writes a whole-number cell of the youngest frame, locals first.
    pub fn set_int(&mut self, n: u16, v: u16)
        requires { n < length (youngest_frame self.old).cells }
        ensures { self.new ≡ with_cells self.old (slice_set (youngest_frame self.old).cells n v) }
    {
        let header = usize::from(self.youngest);
        self.cells[header - 1 - usize::from(n)] = v;
    }

    /// Pushes a reference.
    pub fn push_ref(&mut self, v: u16)
        requires { HasFreeCells self.old 1 }
        ensures { self.new ≡ with_refs self.old ((youngest_frame self.old).refs ++ v ∷ []) }
    {
        let header = usize::from(self.youngest);
        let body = self.bodies[usize::from(self.cells[header])];
        let depth = self.cells[header + 2];
        self.cells[header - usize::from(body) + usize::from(depth)] = v;
        self.cells[header + 2] = depth + 1;
    }

    /// Pushes a whole-number cell.
    pub fn push_cell(&mut self, v: u16)
        requires { HasFreeCells self.old 1 }
        ensures { self.new ≡ with_cells self.old ((youngest_frame self.old).cells ++ v ∷ []) }
    {
        let header = usize::from(self.youngest);
        let depth = self.cells[header + 3];
        self.cells[header - 1 - usize::from(depth)] = v;
        self.cells[header + 3] = depth + 1;
    }

    /// Pops a reference.
    pub fn pop_ref(&mut self) -> u16
        requires { 0 < length (youngest_frame self.old).refs }
        ensures value { let refs = (youngest_frame self.old).refs in result ≡ slice_index refs (length refs - 1) }
        ensures after { self.new ≡ with_refs self.old (without_last 1 (youngest_frame self.old).refs) }
    {
        let header = usize::from(self.youngest);
        let body = self.bodies[usize::from(self.cells[header])];
        let depth = self.cells[header + 2] - 1;
        let v = self.cells[header - usize::from(body) + usize::from(depth)];
        self.cells[header + 2] = depth;
        v
    }

    /// Pops a whole-number cell.
    pub fn pop_cell(&mut self) -> u16
        requires { 0 < length (youngest_frame self.old).cells }
        ensures value { let cells = (youngest_frame self.old).cells in result ≡ slice_index cells (length cells - 1) }
        ensures after { self.new ≡ with_cells self.old (without_last 1 (youngest_frame self.old).cells) }
    {
        let header = usize::from(self.youngest);
        let depth = self.cells[header + 3] - 1;
        let v = self.cells[header - 1 - usize::from(depth)];
        self.cells[header + 3] = depth;
        v
    }
}
