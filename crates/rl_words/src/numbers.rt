// Numbers of options.
ghost use Rattle.std.specs.Prelude.{◌≡◌, ◌<◌, ◌^◌};
ghost use Rattle.rl_run.specs.declared.sessions.Settings.{Settings};
ghost use Rattle.rl_words.specs.Runs.{number_or, settings_of};
ghost use Rattle.rl_words.specs.Told.{text_in, given_told};

use crate::given::Given;
use rl_run::Settings;
use rl_script::number_of;

// The number of an option, which is from low to high, or what it is without the option.
fn number_or(low: u64, high: u64, without: u32, text: Option<&str>) -> Option<u32>
    requires { high < 2 ^ 32 }
    ensures { result ≡ number_or low high without (text_in text.entry) }
{
    let Some(text) = text else {
        return Some(without);
    };
    match number_of(low, high, text.as_bytes()) {
        Some(n) => Some(n as u32),
        None => None,
    }
}

// The settings of sessions, if each has its number.
pub(crate) fn settings_of(given: &Given<'_>) -> Option<Settings>
    ensures { result ≡ settings_of (given_told given.now) }
{
    let stack = number_or(0, 1_024, 64, given.stack)?;
    let look = number_or(1, 4_096, 8, given.look)?;
    let token_max = number_or(1, 1_048_576, 65_536, given.token)?;
    Some(Settings {
        stack,
        look,
        token_max,
    })
}
