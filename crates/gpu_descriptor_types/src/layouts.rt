//! One layout, a number of times.
ghost use Rattle.std.specs.Prelude.{◌≡◌};
ghost use Rattle.std.specs.Iterator.{YieldsFirst, item_count};
ghost use Rattle.gpu_descriptor_types.specs.Layouts.{layout as layout_of, left as left_of, to_come};

/// An iterator that yields the same layout for each set of a request.
#[derive(Debug, Drop)]
pub struct Layouts<'a, L> {
    layout: &'a L,
    left: u32,
}

impl<'a, L> Layouts<'a, L> {
    /// The layout, `count` times.
    pub fn new(layout: &'a L, count: u32) -> Self
        ensures layout { layout_of result ≡ layout.now }
        ensures left { left_of result ≡ count }
    {
        Layouts {
            layout,
            left: count,
        }
    }

    /// The layout.
    pub fn layout(&self) -> &'a L
        ensures { result.now ≡ layout_of self.now }
    {
        self.layout
    }

    /// How many are left.
    pub fn len(&self) -> u32
        ensures { result ≡ left_of self.now }
    {
        self.left
    }
}

impl<'a, L> Iterator for Layouts<'a, L> {
    type Item = &'a L;

    ghost next_gives = { YieldsFirst to_come };

    ghost remaining = { item_count to_come };

    fn next(&mut self) -> Option<&'a L> {
        if self.left == 0 {
            return None;
        }
        self.left -= 1;
        Some(self.layout)
    }
}
