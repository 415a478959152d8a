// The state of a session.
ghost use Rattle.std.specs.Prelude.{◌≡◌};

use rl_run::Settings;

/// A session between two calls. The end of the stack is its top. The kept token list is that of a state.
#[derive(Drop)]
pub struct State {
    pub state: u32,
    pub next: u64,
    pub stack: Vec<u32>,
    pub ts: Option<u64>,
    pub te: Option<u64>,
    pub kept: Option<u32>,
    pub furthest: u64,
    pub backs: u32,
}

impl State {
    ghost use Rattle.std.specs.Prelude.{◌-◌, min, unwrap_or};

    /// The least position that may still be read.
    pub fn keep(&self, settings: &Settings) -> u64
        ensures { result ≡ min (unwrap_or self.now.ts self.now.next) (min (self.now.furthest - settings.now.look) self.now.next) }
    {
        let start = self.ts.unwrap_or(self.next);
        let look = self.furthest.saturating_sub(u64::from(settings.look));
        start.min(look.min(self.next))
    }
}
