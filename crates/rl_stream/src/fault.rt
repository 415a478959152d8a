// Why an input is not run to its end.

/// Why an input was not run to its end.
#[derive(Clone, Copy, Debug, PartialEq, Eq)]
pub enum StreamFault {
    /// The source of the input failed, and counted it.
    InputFailed,
    /// The output failed, and counted it.
    OutputFailed,
    /// L12: the input has more than 1,099,511,627,776 bytes.
    TooLong,
    /// Want of memory.
    Memory,
}
