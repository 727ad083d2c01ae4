//! How a run of the program ends.
ghost use Rattle.std.specs.Prelude.{◌≡◌};
ghost use Rattle.descriptor_lines.specs.Exit.{code_of};

/// How a run of the program ended.
#[derive(Clone, Copy, Debug, PartialEq, Eq)]
pub enum Exit {
    /// The input was at its end, and each line had its answer.
    Done,
    /// A line was faulty; the last line of its output says which and how.
    BadLine,
    /// A read failed, or the run made as many read calls as it may.
    ReadFault,
    /// A write failed or took nothing, or the device lost something that it was to write down.
    WriteFault,
    /// There was no memory for the buffers that are made at the start.
    NoMemory,
}

impl Exit {
    /// The exit code that the program ends with.
    pub fn code(&self) -> u8
        ensures { result ≡ code_of self.now }
    {
        match self {
            Exit::Done => 0,
            Exit::BadLine => 2,
            Exit::ReadFault => 3,
            Exit::WriteFault => 4,
            Exit::NoMemory => 5,
        }
    }
}
