// A source in memory.
use crate::calls::Calls;
use crate::{Failed, Source};
use std::marker::Model;

/// A source in memory, which tells what is left, gives at most `chunk` bytes at once and fails at chosen calls.
/// Contracts see the bytes that are left, the chunk and the calls.
#[derive(Drop)]
pub struct MemSource {
    bytes: Vec<u8>,
    at: usize,
    chunk: usize,
    calls: Calls,
}

impl Model for MemSource {
    ghost use Rattle.std.specs.Prelude.{drop, ◌≤◌, ◌<◌, vec_len};
    ghost use Rattle.rl_io.specs.Memory.{LeftBytes};

    ghost Value = { LeftBytes };

    ghost view = { λ s. record { left = drop s.at s.bytes.items; chunk = s.chunk; calls = s.calls } };

    ghost invariant = { λ s. (s.at ≤ vec_len s.bytes) × (0 < s.chunk) };
}

impl MemSource {
    ghost use Rattle.std.specs.Prelude.{◌≡◌, ◌<◌};
    ghost use Rattle.rl_io.specs.Memory.{no_calls};

    /// A source of these bytes whose calls, numbered from 1, fail exactly at the numbers in `fails`.
    pub fn new(bytes: Vec<u8>, chunk: usize, fails: Vec<u64>) -> MemSource
        requires { 0 < chunk }
        ensures { result ≡ record { left = bytes.items; chunk = chunk; calls = no_calls fails.items } }
    {
        MemSource {
            bytes,
            at: 0,
            chunk,
            calls: Calls::new(fails),
        }
    }
}

impl Source for MemSource {
    ghost use Rattle.std.specs.Prelude.{◌≡◌, ◌≤◌, ◌<◌, min, length, IfOk, OnErr, IsSome, Some};
    ghost use Rattle.rl_io.specs.Outside.{HasCause, Moves, EndsAt};
    ghost use Rattle.rl_io.specs.Memory.{CountsCall};

    ghost left = { λ s. Some s.left };

    ghost faults = { λ s. s.calls.faults };

    fn read(&mut self, into: &mut [u8]) -> Result<usize, Failed>
        ensures bound { IfOk result (λ n. n ≤ length into.old) }
        ensures bytes { IfOk result (λ n. Moves (Some self.old.left) (Some self.new.left) n into.old into.new) }
        ensures end { IfOk result (λ n. 0 < length into.old → EndsAt (Some self.old.left) n) }
        ensures failed { OnErr result (self.new.left ≡ self.old.left) }
        ensures told { IsSome (Some self.old.left) → IsSome (Some self.new.left) }
        ensures cause { HasCause self.old.calls.faults self.new.calls.faults (result ≡ Err (record {})) }

        // It fails exactly at the calls that were chosen, and else gives all that fits up to the chunk.
        ensures calls { CountsCall self.old.calls self.new.calls (result ≡ Err (record {})) }
        ensures count { IfOk result (λ n. n ≡ min self.old.chunk (min (length into.old) (length self.old.left))) }
        ensures chunk { self.new.chunk ≡ self.old.chunk }
    {
        if self.calls.next_fails() {
            return Err(Failed);
        }
        let n = self.chunk.min(into.len()).min(self.bytes.len() - self.at);
        into[..n].copy_from_slice(&self.bytes[self.at..self.at + n]);
        self.at += n;
        Ok(n)
    }
}
