//! A run: consecutive sets from one pool.
ghost use Rattle.std.specs.Prelude.{◌≡◌, ◌+◌};
ghost use Rattle.std.specs.Iterator.{count_map};
ghost use Rattle.std.specs.Option.{option_len};
ghost use Rattle.gpu_descriptor.specs.Inner.RunSteps.{RunStep};

use crate::set::DescriptorSet;

/// Yields the raw sets of one run: those of `source` up to the first from elsewhere, which stays in
/// `ahead`. The set that is in `ahead` at first is the run's first.
#[derive(Drop)]
pub(crate) struct Run<'a, 'b, I, S> {
    pub(crate) source: &'a mut I,
    pub(crate) ahead: &'b mut Option<DescriptorSet<S>>,

    /// The id of the key of the run's sets.
    pub(crate) id: u64,

    /// The number of their pool.
    pub(crate) number: u64,

    /// How many sets were yielded so far. A pool has fewer than 2^32.
    pub(crate) count: u32,
}

impl<S, I: Iterator<Item = DescriptorSet<S>>> Iterator for Run<'_, '_, I, S> {
    type Item = S;

    ghost can_next = { λ s. I.can_next s.source.now };

    ghost next_gives = { RunStep I.next_gives I.can_next I.remaining };

    ghost remaining = { λ s. count_map (λ n. n + option_len s.ahead.now)
        (I.remaining s.source.now) };

    #[inline]
    fn next(&mut self) -> Option<S> {
        let set = match self.ahead.take() {
            Some(set) => set,
            None => self.source.next()?,
        };
        if set.is_at(self.id, self.number) {
            self.count = self.count.wrapping_add(1);
            let DescriptorSet {
                raw,
                number: _,
                id: _,
                key: _,
            } = set;
            return Some(raw);
        }
        match self.ahead.replace(set) {
            None => None,
            Some(_) => unreachable!(),
        }
    }
}

impl<S, I: Iterator<Item = DescriptorSet<S>>> Run<'_, '_, I, S> {
    /// Ends the borrows, and returns how many sets were yielded.
    pub(crate) fn finish(self) -> u32
        ensures count { result ≡ self.entry.count }
        ensures source { self.exit.0.now ≡ self.entry.source.now }
        ensures ahead { self.exit.1.0.now ≡ self.entry.ahead.now }
    {
        self.count
    }
}
