// How large types are when they are written out.
ghost use Rattle.std.specs.Prelude.{◌≡◌, ◌≤◌, IsTrue};
ghost use Rattle.unique_programs.specs.Sizes.{Is_within};

/// The types of a program's numbers have no more parts together than this: more is want of memory. So pairs of pairs, which are
/// small in the graph however often they are paired, do not fill the machine when values are made of their types.
pub const MOST_PARTS: u64 = 67108864;

/// No type is deeper than this: it is gone down by calls.
pub const MOST_DEPTH: u32 = 4096;

/// How many parts a type has, with itself, and how deep they stand. What stands in an array does not count, since an array is
/// one component whatever its elements are.
#[derive(Clone, Copy)]
pub struct Size {
    pub parts: u64,
    pub depth: u32,
}

/// That of a type without parts.
pub const ONE: Size = Size { parts: 1, depth: 1 };

impl Size {
    /// With one part more, as far as numbers go.
    pub fn with_part(self, part: Size) -> Size
        ensures parts { self.parts ≤ result.parts }
        ensures depth { part.depth ≤ result.depth }
    {
        Size {
            parts: self.parts.saturating_add(part.parts),
            depth: self.depth.max(part.depth.saturating_add(1)),
        }
    }

    /// Whether it is within the limits.
    pub fn is_within(self) -> bool
        ensures { IsTrue result → Is_within self }
    {
        self.parts <= MOST_PARTS && self.depth <= MOST_DEPTH
    }
}
