// Names and texts, which contracts see as their bytes.
ghost use Rattle.std.specs.Prelude.{◌≡◌};

use std::marker::Model;

/// The bytes of a name.
#[derive(Debug, Drop)]
pub struct Name {
    bytes: Vec<u8>,
}

impl Model for Name {
    ghost use Rattle.std.specs.Prelude.{ℕ, List};
    ghost use Rattle.std.specs.Coded.{coded_ℕ, coded_list};

    ghost Value = { List ℕ };

    ghost coded = { coded_list coded_ℕ };

    ghost view = { λ n. n.bytes.items };
}

impl Name {
    /// The name of these bytes.
    pub fn new(bytes: Vec<u8>) -> Name
        ensures { result ≡ bytes.items }
    {
        Name { bytes }
    }

    /// Its bytes.
    pub fn bytes(&self) -> &[u8]
        ensures { result.now ≡ self.now }
    {
        self.bytes.as_slice()
    }
}

/// The bytes of an action's code, or of another text in C.
#[derive(Debug, Drop)]
pub struct Code {
    bytes: Vec<u8>,
}

impl Model for Code {
    ghost use Rattle.std.specs.Prelude.{ℕ, List};
    ghost use Rattle.std.specs.Coded.{coded_ℕ, coded_list};

    ghost Value = { List ℕ };

    ghost coded = { coded_list coded_ℕ };

    ghost view = { λ c. c.bytes.items };
}

impl Code {
    /// The code of these bytes.
    pub fn new(bytes: Vec<u8>) -> Code
        ensures { result ≡ bytes.items }
    {
        Code { bytes }
    }

    /// Its bytes.
    pub fn bytes(&self) -> &[u8]
        ensures { result.now ≡ self.now }
    {
        self.bytes.as_slice()
    }
}

/// A String that contracts see as its bytes.
#[derive(Debug, Drop)]
pub struct Text {
    string: String,
}

impl Model for Text {
    ghost use Rattle.std.specs.Prelude.{ℕ, List, string_bytes};
    ghost use Rattle.std.specs.Coded.{coded_ℕ, coded_list};

    ghost Value = { List ℕ };

    ghost coded = { coded_list coded_ℕ };

    ghost view = { λ t. string_bytes t.string };
}

impl Text {
    ghost use Rattle.std.specs.Prelude.{◌≡◌, string_bytes};

    /// The text of a String.
    pub fn new(string: String) -> Text
        ensures { result ≡ string_bytes string }
    {
        Text { string }
    }

    /// It as a `str`.
    pub fn as_str(&self) -> &str
        ensures { result.now ≡ self.now }
    {
        self.string.as_str()
    }
}
