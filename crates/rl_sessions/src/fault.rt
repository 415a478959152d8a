// Why a call on sessions is refused.

/// Why a session can't be started, or why a call on one is refused (this profile).
#[derive(Clone, Copy, Debug, PartialEq, Eq)]
pub enum SessionFault {
    /// A session of the name was started before.
    Twice,
    /// 1,024 sessions are going, and none of them has the name.
    Full,
    /// No session that was not ended has the name.
    NoSession,
    /// Want of memory.
    Memory,
}
