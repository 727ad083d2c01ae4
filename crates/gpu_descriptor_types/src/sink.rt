//! Where a device puts the sets that it allocates.
ghost use Rattle.std.specs.Prelude.{◌≡◌, ◌+◌, ◌<◌, [], ◌∷◌, ◌++◌};
ghost use Rattle.gpu_descriptor_types.specs.Ledger.{Sink};

/// Takes sets, as long as more fit.
pub trait SetSink<S> {
    /// What a sink keeps of a set.
    type Kept;

    /// The sets that were put, in order, as the sink keeps them; what it would keep of a set; and how
    /// many more fit.
    ghost sink: { Sink Self S Self.Kept };

    /// How many more sets fit.
    fn room(&self) -> usize
        ensures { result ≡ sink.room self.now };

    /// Appends a set.
    fn put(&mut self, set: S)
        // Of the borrowed sink that a device returns, its caller knows only what these clauses say. So
        // they say all: what is kept of each set, and that this stays.
        requires { 0 < sink.room self.old }
        ensures kept { sink.kept self.new ≡ sink.kept self.old ++ sink.kept_as self.old set ∷ [] }
        ensures alike { sink.kept_as self.new ≡ sink.kept_as self.old }
        ensures room { sink.room self.new + 1 ≡ sink.room self.old };
}
