// A window over an input.
ghost use Rattle.std.specs.Prelude.{◌≡◌, ◌+◌, ◌*◌, ◌/◌, ◌<◌, ◌≤◌, ◌^◌, IfOk, length, min, vec_len, vec_capacity, ◌++◌, drop};
ghost use Rattle.rl_window.specs.WindowValue.{IsWidth};

use rl_types::Memory;
use std::alloc::Global;
use std::marker::Model;

/// The bytes of an input that may still be read: those from a character on, as far as they have come. A window has room
/// for a number of bytes that is reserved at its start (this profile). A character has the same number of bytes
/// everywhere.
#[derive(Debug, Drop)]
pub struct Window {
    width: u32,
    base: u64,
    bytes: Vec<u8>,
    capacity: usize,
}

impl Model for Window {
    ghost use Rattle.rl_window.specs.WindowValue.{WindowValue};

    ghost Value = { WindowValue };

    ghost use Rattle.rl_window.specs.WindowInside.{window_value, IsWindow};

    ghost view = { window_value };

    ghost invariant = { IsWindow };
}

// Appends bytes for which room is reserved.
fn append(bytes: &mut Vec<u8>, more: &[u8])
    requires { vec_len bytes.old + length more.now ≤ vec_capacity bytes.old }
    ensures items { bytes.new.items ≡ bytes.old.items ++ more.now }
    ensures room { vec_capacity bytes.old ≤ vec_capacity bytes.new }
{
    match bytes.extend_from_slice(more) {
        Ok(()) => {}
        Err(_) => unreachable!(),
    }
}

// Drops bytes at the front.
fn drop_front(bytes: &mut Vec<u8>, count: usize)
    requires { count ≤ vec_len bytes.old }
    ensures items { bytes.new.items ≡ drop count bytes.old.items }
    ensures room { vec_capacity bytes.old ≤ vec_capacity bytes.new }
{
    bytes.drain(..count);
}

// How many of the whole characters of so many bytes are dropped, where as many are asked for.
fn dropped_of(asked: u64, held: usize, width: u32) -> u64
    requires { IsWidth width }
    ensures value { result ≡ min asked (held / width) }
    ensures fits { width * result ≤ held }
{
    asked.min(held as u64 / u64::from(width))
}

impl Window {
    ghost use Rattle.rl_window.specs.WindowValue.{empty_window, end_of, taken, pushed, dropped, Fits};

    /// A window at the start of an input, with room for `capacity` bytes, over characters of `width` bytes each.
    /// `Memory` is the only error, and comes exactly where that room can't be reserved.
    pub fn new(alloc: Global, capacity: usize, width: u32) -> Result<Window, Memory>
        requires { IsWidth width }
        ensures { IfOk result (λ w. w ≡ empty_window capacity width) }
    {
        let bytes = Vec::with_capacity(alloc, capacity).map_err(|_| Memory)?;
        Ok(Window {
            width,
            base: 0,
            bytes,
            capacity,
        })
    }

    /// A window at the start of an input, with no room, over characters of one byte. It takes no memory.
    pub fn without_room(alloc: Global) -> Window
        ensures { result ≡ empty_window 0 1 }
    {
        Window {
            width: 1,
            base: 0,
            bytes: Vec::new(alloc),
            capacity: 0,
        }
    }

    /// Appends as many bytes of the piece as there is room for, and answers how many; the last of them may stand within
    /// a character. It takes no memory.
    pub fn push(&mut self, piece: &[u8]) -> usize
        requires { end_of self.old + length piece.now < 2 ^ 63 }
        ensures count { result ≡ taken self.old piece.now }
        ensures value { self.new ≡ pushed self.old piece.now }
    {
        let room = self.capacity - self.bytes.len();
        let count = room.min(piece.len());
        append(&mut self.bytes, &piece[..count]);
        count
    }

    /// Drops the whole characters that it holds before the position; `base` grows by their number. It takes no memory.
    pub fn drop_to(&mut self, position: u64)
        ensures { self.new ≡ dropped self.old position }
    {
        let asked = position.saturating_sub(self.base);
        let count = dropped_of(asked, self.bytes.len(), self.width);
        drop_front(&mut self.bytes, self.width as usize * count as usize);
        self.base += count;
    }

    /// The position of its first byte, in characters from the start of the input.
    pub fn base(&self) -> u64
        ensures { result ≡ self.now.base }
    {
        self.base
    }

    /// Its bytes: those of the input from the character `base` on, as far as they were pushed.
    pub fn bytes(&self) -> &[u8]
        ensures value { result.now ≡ self.now.bytes }
        ensures fits { Fits self.now }
    {
        self.bytes.as_slice()
    }
}
