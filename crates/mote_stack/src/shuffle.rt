//! Shuffles of the operands of the youngest frame.

ghost use Rattle.std.specs.Prelude.{◌≡◌, ◌<◌, ◌≤◌, ◌+◌, ◌-◌, length, take, vec_len};
ghost use Rattle.mote_stack.specs.Frames.{youngest_frame, with_youngest, with_refs, with_cells, HasFreeCells};
ghost use Rattle.mote_stack.specs.Shuffles.{half, with_half, duplicated, exchanged, without_item, trimmed};
ghost use Rattle.mote_stack.specs.Moves.{Rotates};

use crate::region::Region;

impl Region {
    /// In the half of the references or of the whole-number cells, `.. J K` becomes `.. K J K`, where
    /// K has m cells and J has n.
    pub fn dupx(&mut self, refs: bool, m: u16, n: u16)
        requires there { m + n ≤ length (half refs (youngest_frame self.old)) }
        requires room { HasFreeCells self.old m }
        ensures { self.new ≡ with_half refs self.old (duplicated m n (half refs (youngest_frame self.old))) }
    {
        if m == 0 && n == 0 {
            return;
        }
        if refs {
            self.dupx_refs(m, n);
        } else {
            self.dupx_cells(m, n);
        }
    }

    fn dupx_refs(&mut self, m: u16, n: u16)
        requires some { 0 < m + n }
        requires there { m + n ≤ length (youngest_frame self.old).refs }
        requires room { HasFreeCells self.old m }
        ensures { self.new ≡ with_refs self.old (duplicated m n (youngest_frame self.old).refs) }
    {
        let header = usize::from(self.youngest);
        let body = self.bodies[usize::from(self.cells[header])];
        let depth = self.cells[header + 2];
        let end = header - usize::from(body) + usize::from(depth);
        let start = end - usize::from(m) - usize::from(n);
        self.cells.copy_within(start..end, start + usize::from(m));
        self.cells.copy_within(end..end + usize::from(m), start);
        self.cells[header + 2] = depth + m;
    }

    fn dupx_cells(&mut self, m: u16, n: u16)
        requires some { 0 < m + n }
        requires there { m + n ≤ length (youngest_frame self.old).cells }
        requires room { HasFreeCells self.old m }
        ensures { self.new ≡ with_cells self.old (duplicated m n (youngest_frame self.old).cells) }
    {
        let header = usize::from(self.youngest);
        let depth = self.cells[header + 3];
        let top = header - usize::from(depth);
        let end = top + usize::from(m) + usize::from(n);
        self.cells.copy_within(top..end, top - usize::from(m));
        self.cells
            .copy_within(top - usize::from(m)..top, end - usize::from(m));
        self.cells[header + 3] = depth + m;
    }

    /// In the half of the references or of the whole-number cells, `.. J K` becomes `.. K J`, where K
    /// has m cells and J has n.
    pub fn swap(&mut self, refs: bool, m: u16, n: u16)
        requires there { m + n ≤ length (half refs (youngest_frame self.old)) }
        ensures { self.new ≡ with_half refs self.old (exchanged m n (half refs (youngest_frame self.old))) }
    {
        if m == 0 && n == 0 {
            return;
        }
        if refs {
            self.swap_refs(m, n);
        } else {
            self.swap_cells(m, n);
        }
    }

    fn swap_refs(&mut self, m: u16, n: u16)
        requires some { 0 < m + n }
        requires there { m + n ≤ length (youngest_frame self.old).refs }
        ensures { self.new ≡ with_refs self.old (exchanged m n (youngest_frame self.old).refs) }
    {
        let header = usize::from(self.youngest);
        let body = self.bodies[usize::from(self.cells[header])];
        let depth = self.cells[header + 2];
        let end = header - usize::from(body) + usize::from(depth);
        let start = end - usize::from(m) - usize::from(n);
        rotate(&mut self.cells, start, end, usize::from(n));
    }

    fn swap_cells(&mut self, m: u16, n: u16)
        requires some { 0 < m + n }
        requires there { m + n ≤ length (youngest_frame self.old).cells }
        ensures { self.new ≡ with_cells self.old (exchanged m n (youngest_frame self.old).cells) }
    {
        let header = usize::from(self.youngest);
        let depth = self.cells[header + 3];
        let top = header - usize::from(depth);
        let moved = usize::from(m) + usize::from(n);
        rotate(&mut self.cells, top, top + moved, usize::from(m));
    }

    /// Removes the whole-number cell that has `depth` cells above it.
    pub fn drop_at(&mut self, depth: u16)
        requires { depth < length (youngest_frame self.old).cells }
        ensures { self.new ≡ with_cells self.old (without_item depth (youngest_frame self.old).cells) }
    {
        let header = usize::from(self.youngest);
        let count = self.cells[header + 3];
        let top = header - usize::from(count);
        self.cells
            .copy_within(top..top + usize::from(depth), top + 1);
        self.cells[header + 3] = count - 1;
    }

    /// Cuts the lists of the youngest frame to these lengths.
    pub fn trim(&mut self, refs: u16, cells: u16)
        requires refs { refs ≤ length (youngest_frame self.old).refs }
        requires cells { cells ≤ length (youngest_frame self.old).cells }
        ensures { self.new ≡ trimmed refs cells self.old }
    {
        let header = usize::from(self.youngest);
        self.cells[header + 2] = refs;
        self.cells[header + 3] = cells;
    }
}

/// Moves the cells from `start` to `end` down by `by`, those that fall off to their end.
fn rotate(cells: &mut Vec<u16>, start: usize, end: usize, by: usize)
    requires order { start + by ≤ end }
    requires within { end ≤ length cells.old.items }
    ensures len { vec_len cells.new ≡ vec_len cells.old }
    ensures rotated { Rotates cells.old.items cells.new.items start end by }
{
    cells[start..end].rotate_left(by);
}
