//! Slots, and the lists that they are in.
ghost use Rattle.std.specs.Prelude.{◌≡◌, ◌≢◌, ℕ, ◌+◌, ◌-◌, ◌<◌, IsTrue, true};
ghost use Rattle.descriptor_table.specs.Slots.{frame_of, is_live, use_of, waits_for};

/// What a set is in use for.
#[derive(Clone, Copy)]
pub enum Use {
    /// It has a handle until it is freed.
    Held,

    /// It has a handle until this frame ends, and waits for the frame.
    InFrame(u64),

    /// It waits for this frame.
    Waits(u64),

    /// It is freed, and is kept for reuse.
    Kept,

    /// It returns to its pool.
    Going,

    /// A call has taken it, until it puts it to another use.
    Taken,

    /// There is no set.
    Vacant,
}

/// A set's use without its frame.
#[derive(Clone, Copy)]
pub enum State {
    Held,
    InFrame,
    Waits,
    Kept,
    Going,
    Taken,
    Vacant,
}

impl Use {
    /// This use without its frame.
    #[inline]
    pub(crate) fn state(self) -> State
        ensures { (frame : ℕ) → (waits_for (λ f. true) self ≡ true → frame ≡ frame_of self)
            → use_of frame result ≡ self }
    {
        match self {
            Use::Held => State::Held,
            Use::InFrame(_) => State::InFrame,
            Use::Waits(_) => State::Waits,
            Use::Kept => State::Kept,
            Use::Going => State::Going,
            Use::Taken => State::Taken,
            Use::Vacant => State::Vacant,
        }
    }

    /// The frame that a set in this use waits for, or 0.
    #[inline]
    pub(crate) fn frame(self) -> u64
        ensures { result ≡ frame_of self }
    {
        match self {
            Use::InFrame(frame) | Use::Waits(frame) => frame,
            Use::Held | Use::Kept | Use::Going | Use::Taken | Use::Vacant => 0,
        }
    }

    /// Whether a set in this use waits for a frame.
    #[inline]
    pub(crate) fn waits(self) -> bool
        ensures { result ≡ waits_for (λ frame. true) self }
    {
        match self {
            Use::InFrame(_) | Use::Waits(_) => true,
            Use::Held | Use::Kept | Use::Going | Use::Taken | Use::Vacant => false,
        }
    }

    /// Whether a set in this use returns to its pool.
    #[inline]
    pub(crate) fn goes(self) -> bool
        ensures { IsTrue result → self ≡ Use.Going }
    {
        match self {
            Use::Going => true,
            Use::Held | Use::InFrame(_) | Use::Waits(_) | Use::Kept | Use::Taken | Use::Vacant =>
                false,
        }
    }

    /// Whether the handle of a set in this use is valid, while `frame` is the open frame if `is_open`.
    #[inline]
    pub fn is_live(self, frame: u64, is_open: bool) -> bool
        ensures { result ≡ is_live frame is_open self }
    {
        match self {
            Use::Held => true,
            Use::InFrame(drawn) => is_open && drawn == frame,
            Use::Waits(_) | Use::Kept | Use::Going | Use::Taken | Use::Vacant => false,
        }
    }
}

/// A linked list of slots.
#[derive(Clone, Copy)]
pub struct Chain {
    pub(crate) first: u32,
    pub(crate) count: u32,
}

/// A linked list of slots that grows at its end, too.
#[derive(Clone, Copy)]
pub struct Queue {
    pub(crate) list: Chain,

    /// The last slot, if there is one.
    pub(crate) last: u32,
}

impl Chain {
    ghost use Rattle.descriptor_table.specs.Slots.{shown};

    /// A list without slots.
    pub(crate) const EMPTY: Self = Chain { first: 0, count: 0 };

    /// The list of a removed layout, in which no set is kept: it is never below a max.
    pub(crate) const REMOVED: Self = Chain {
        first: 0,
        count: u32::MAX,
    };

    /// The list, empty if it is that of a removed layout.
    #[inline]
    pub(crate) fn shown(self) -> Chain
        ensures { result ≡ shown self }
    {
        if self.count == u32::MAX {
            Chain::EMPTY
        } else {
            self
        }
    }

    /// Makes a slot the first of the list. Its next is to be the one that was first.
    #[inline]
    pub(crate) fn push(&mut self, place: u32)
        requires { self.old.count < 4294967295 }
        ensures { self.new ≡ record { first = place; count = self.old.count + 1 } }
    {
        self.first = place;
        self.count += 1;
    }

    /// Takes the first slot from the list, with the one that comes next.
    #[inline]
    pub(crate) fn pop(&mut self, next: u32)
        requires { self.old.count ≢ 0 }
        ensures { self.new ≡ record { first = next; count = self.old.count - 1 } }
    {
        self.first = next;
        self.count -= 1;
    }
}
