// The status of each end.
ghost use Rattle.std.specs.Prelude.{◌≡◌};
ghost use Rattle.rl_ends.specs.Statuses.{status_by_section, status_by_script, status_of};

use crate::refusal::Refusal;
use rl_cread::TableFault;
use rl_replay::ScriptFault;
use rl_types::Status;

// The status of a section that is not right.
fn status_of_section(fault: &TableFault) -> Status
    ensures { result ≡ status_by_section fault.now }
{
    match fault {
        TableFault::NoSection => Status::Tables,
        TableFault::BadText { .. } => Status::Tables,
        TableFault::BadValue(_) => Status::Tables,
        TableFault::Memory => Status::Memory,
    }
}

// The status of a script with a fault.
fn status_of_script(fault: &ScriptFault) -> Status
    ensures { result ≡ status_by_script fault.now }
{
    match fault {
        ScriptFault::BadLine { .. } => Status::Script,
        ScriptFault::Twice { .. } => Status::Script,
        ScriptFault::NoSession { .. } => Status::Script,
        ScriptFault::NoEntry { .. } => Status::Script,
        ScriptFault::NoName { .. } => Status::Script,
        ScriptFault::Full { .. } => Status::Script,
        ScriptFault::Memory => Status::Memory,
    }
}

/// The status of an end: `Done` where nothing was refused; `Usage`; `Source` for a fault; `Limit`; `Outside` for a file that
/// is missing and for what failed; `Tables` and `Script` for a section and a script that are not right; and `Memory`, also
/// where a section or a script found none (this profile).
pub fn status_for(end: &Result<(), Refusal>) -> Status
    ensures { result ≡ status_of end.now }
{
    match end {
        Ok(()) => Status::Done,
        Err(Refusal::Usage) => Status::Usage,
        Err(Refusal::Fault(_, _)) => Status::Source,
        Err(Refusal::Limit(_, _)) => Status::Limit,
        Err(Refusal::Missing(_)) => Status::Outside,
        Err(Refusal::StoreFailed(_)) => Status::Outside,
        Err(Refusal::Section(fault, _)) => status_of_section(fault),
        Err(Refusal::Script(fault, _)) => status_of_script(fault),
        Err(Refusal::InputFailed) => Status::Outside,
        Err(Refusal::OutputFailed) => Status::Outside,
        Err(Refusal::Memory) => Status::Memory,
    }
}
