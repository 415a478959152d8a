// How a program ends.

/// The exit statuses of the programs.
#[derive(Clone, Copy, Debug, PartialEq, Eq)]
pub enum Status {
    /// Everything was read and written.
    Done,
    /// A fault of the source.
    Source,
    /// The words are not taken.
    Usage,
    /// A limit is passed.
    Limit,
    /// The store, the input or the output failed, or a file is missing.
    Outside,
    /// Want of memory.
    Memory,
    /// The data section of a printed file is absent or not valid.
    Tables,
    /// A fault of the script.
    Script,
}

impl Status {
    ghost use Rattle.std.specs.Prelude.{◌≡◌};
    ghost use Rattle.rl_types.specs.Status.{code_of};

    /// Its number, 0 to 7 in the order of the variants.
    pub fn code(&self) -> u8
        ensures { result ≡ code_of self.now }
    {
        match self {
            Status::Done => 0,
            Status::Source => 1,
            Status::Usage => 2,
            Status::Limit => 3,
            Status::Outside => 4,
            Status::Memory => 5,
            Status::Tables => 6,
            Status::Script => 7,
        }
    }
}
