// Why there is no certificate.

/// Why a machine gets no certificate (this profile).
#[derive(Clone, Copy, Debug, PartialEq, Eq)]
pub enum CertFault {
    /// The machine has so many states besides Error, and more than 256.
    TooMany(u32),
    /// Want of memory.
    Memory,
}
