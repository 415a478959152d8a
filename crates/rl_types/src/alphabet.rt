// The alphabets, the widths of their characters, and their keys.
ghost use Rattle.std.specs.Prelude.{◌≡◌, ◌<◌, ◌*◌, ◌-◌, pos, negsuc, nat_lt, nat_le, length, take, if◌then◌else◌, Some, None, IfSome};
ghost use Rattle.rl_types.specs.Alphabet.{number_of};

use crate::Key;

/// The type of the input's characters (the guide's section 3.2). A character is a group of bytes, the low byte first.
#[derive(Clone, Copy, Debug, PartialEq, Eq)]
pub enum Alphabet {
    /// One byte; keys -128 to 127.
    Char,
    /// One byte; keys 0 to 255.
    UnsignedChar,
    /// Two bytes; keys -32,768 to 32,767.
    Short,
    /// Two bytes; keys 0 to 65,535.
    UnsignedShort,
    /// Four bytes; keys -2,147,483,648 to 2,147,483,647.
    Int,
    /// Four bytes; keys 0 to 4,294,967,295.
    UnsignedInt,
}

impl Alphabet {
    ghost use Rattle.std.specs.Prelude.{◌≡◌};
    ghost use Rattle.rl_types.specs.Alphabet.{width_of, key_of, least_key, greatest_key, key_at};

    /// How many bytes a character has: 1, 2 or 4.
    pub fn width(&self) -> u32
        ensures { result ≡ width_of self.now }
    {
        match self {
            Alphabet::Char | Alphabet::UnsignedChar => 1,
            Alphabet::Short | Alphabet::UnsignedShort => 2,
            Alphabet::Int | Alphabet::UnsignedInt => 4,
        }
    }

    /// The least key.
    pub fn least_key(&self) -> i64
        ensures { result ≡ least_key self.now }
    {
        match self {
            Alphabet::Char => -128,
            Alphabet::Short => -32_768,
            Alphabet::Int => -2_147_483_648,
            Alphabet::UnsignedChar | Alphabet::UnsignedShort | Alphabet::UnsignedInt => 0,
        }
    }

    /// The greatest key.
    pub fn greatest_key(&self) -> i64
        ensures { result ≡ greatest_key self.now }
    {
        match self {
            Alphabet::Char => 127,
            Alphabet::UnsignedChar => 255,
            Alphabet::Short => 32_767,
            Alphabet::UnsignedShort => 65_535,
            Alphabet::Int => 2_147_483_647,
            Alphabet::UnsignedInt => 4_294_967_295,
        }
    }

    /// The key of a byte of a literal or a set: under `char` a byte of 128 or more has the key byte - 256 (the guide's
    /// section 3.2), under each wider alphabet the byte itself.
    pub fn key_of(&self, byte: u8) -> Key
        ensures { result ≡ key_of self.now byte }
    {
        match self {
            Alphabet::Char => signed(u32::from(byte), 0x80),
            Alphabet::UnsignedChar
            | Alphabet::Short
            | Alphabet::UnsignedShort
            | Alphabet::Int
            | Alphabet::UnsignedInt => Key(i64::from(byte)),
        }
    }

    /// The key of the character whose bytes stand from `at` on; None exactly where fewer bytes than a character has
    /// stand there.
    pub fn key_at(&self, bytes: &[u8], at: usize) -> Option<Key>
        ensures { result ≡ key_at self.now bytes.now at }
    {
        let behind = bytes.get(at..)?;
        match self {
            Alphabet::Char => Some(signed(one_byte(behind)?, 0x80)),
            Alphabet::UnsignedChar => Some(unsigned(one_byte(behind)?)),
            Alphabet::Short => Some(signed(two_bytes(behind)?, 0x8000)),
            Alphabet::UnsignedShort => Some(unsigned(two_bytes(behind)?)),
            Alphabet::Int => Some(signed(four_bytes(behind)?, 0x8000_0000)),
            Alphabet::UnsignedInt => Some(unsigned(four_bytes(behind)?)),
        }
    }
}

// The key of a character's number under a signed alphabet: the upper half of the numbers has the keys below 0.
fn signed(number: u32, half: u32) -> Key
    requires { number < 2 * half }
    ensures { result ≡ record { 0 = if nat_lt number half then pos number else negsuc (2 * half - 1 - number) } }
{
    if number < half {
        Key(i64::from(number))
    } else {
        Key(i64::from(number) - 2 * i64::from(half))
    }
}

// The key of a character's number under an unsigned alphabet.
fn unsigned(number: u32) -> Key
    ensures { result ≡ record { 0 = pos number } }
{
    Key(i64::from(number))
}

// The number of the first byte.
fn one_byte(bytes: &[u8]) -> Option<u32>
    ensures value { result ≡ (if nat_le 1 (length bytes.now) then Some (number_of (take 1 bytes.now)) else None) }
    ensures bound { IfSome result (λ n. n < 256) }
{
    let (byte, _) = bytes.split_first()?;
    Some(u32::from(*byte))
}

// The number of the first two bytes, the low byte first.
fn two_bytes(bytes: &[u8]) -> Option<u32>
    ensures value { result ≡ (if nat_le 2 (length bytes.now) then Some (number_of (take 2 bytes.now)) else None) }
    ensures bound { IfSome result (λ n. n < 65536) }
{
    let (low, behind) = bytes.split_first()?;
    let (high, _) = behind.split_first()?;
    Some(u32::from(*low) + 256 * u32::from(*high))
}

// The number of the first four bytes, the low byte first.
fn four_bytes(bytes: &[u8]) -> Option<u32>
    ensures { result ≡ (if nat_le 4 (length bytes.now) then Some (number_of (take 4 bytes.now)) else None) }
{
    let (first, behind) = bytes.split_first()?;
    let (second, behind) = behind.split_first()?;
    let (third, behind) = behind.split_first()?;
    let (fourth, _) = behind.split_first()?;
    Some(
        u32::from(*first)
            + 256 * (u32::from(*second) + 256 * (u32::from(*third) + 256 * u32::from(*fourth))),
    )
}
