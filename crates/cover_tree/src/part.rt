//! Parts of a tree.

/// A part of a tree: where its nodes begin, and the cells that it stands for, `width` of them from `base` on.
#[derive(Clone, Copy)]
pub(crate) struct Part {
    pub at: usize,
    pub base: u32,
    pub width: u32,
}

impl Part {
    ghost use Rattle.std.specs.Prelude.{◌≡◌, ◌+◌};
    ghost use Rattle.cover_tree.specs.Parts.{IsSmall, root, left_half, right_half};

    pub fn root(cells: u32) -> Part
        ensures { result ≡ root cells }
    {
        Part {
            at: 0,
            base: 0,
            width: cells,
        }
    }

    pub fn left(self) -> Part
        requires { IsSmall self }
        ensures { result ≡ left_half self }
    {
        Part {
            at: self.at + 1,
            base: self.base,
            width: self.width / 2,
        }
    }

    pub fn right(self) -> Part
        requires { IsSmall self }
        ensures { result ≡ right_half self }
    {
        let half = self.width / 2;
        Part {
            at: self.at + 2 * half as usize,
            base: self.base + half,
            width: self.width - half,
        }
    }

    /// The cell past its last.
    pub fn end(self) -> u32
        requires { IsSmall self }
        ensures { result ≡ self.base + self.width }
    {
        self.base + self.width
    }
}
