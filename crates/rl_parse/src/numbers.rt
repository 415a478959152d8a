// The numbers that integers write.
ghost use Rattle.std.specs.Prelude.{◌≡◌, ◌<◌, ◌≤◌, ◌^◌};
ghost use Rattle.std.specs.Char.{digit_value};
ghost use Rattle.std.specs.Str.Parse.{digits_value};
ghost use Rattle.rl_grammar.specs.Literals.{number};

fn digit_value(byte: u8) -> u64
    ensures value { result ≡ digit_value byte }
    ensures bound { result ≤ 36 }
{
    match byte {
        b'0'..=b'9' => u64::from(byte - b'0'),
        b'A'..=b'Z' => u64::from(byte - b'A') + 10,
        b'a'..=b'z' => u64::from(byte - b'a') + 10,
        _ => 36,
    }
}

fn digits(radix: u64, text: &[u8]) -> u64
    requires radix { 1 ≤ radix }
    requires fits { digits_value radix text.now < 2 ^ 63 }
    ensures { result ≡ digits_value radix text.now }
{
    let mut value: u64 = 0;
    for at in 0..text.len() {
        value = value * radix + digit_value(text[at]);
    }
    value
}

/// The number that an integer writes.
pub fn number(text: &[u8]) -> u64
    requires { number text.now < 2 ^ 63 }
    ensures { result ≡ number text.now }
{
    match text {
        [] => 0,
        [b'0', b'x', rest @ ..] => digits(16, rest),
        _ => digits(10, text),
    }
}
