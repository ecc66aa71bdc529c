ghost use Rattle.std.specs.Prelude.{◌≡◌, ◌<◌, ◌↔◌, IsTrue, IfOk, All};

use crate::no_memory::NoMemory;
use std::alloc::Global;
use std::marker::Model;

/// A text, whose model is the list of its bytes.
#[derive(Debug, Drop)]
pub struct Text {
    text: String,
}

impl Model for Text {
    ghost use Rattle.std.specs.Prelude.{List, ℕ, string_bytes};

    ghost Value = { List ℕ };

    ghost view = { λ t. string_bytes t.text };
}

impl Text {
    /// A copy of the text. The only error is `NoMemory`.
    pub fn from_str(alloc: Global, text: &str) -> Result<Text, NoMemory>
        ensures { IfOk result (λ t. t ≡ text.now) }
    {
        Ok(Text {
            text: String::from_str(alloc, text)?,
        })
    }

    /// A copy of bytes that are ASCII. The only error is `NoMemory`.
    pub fn from_ascii(alloc: Global, bytes: &[u8]) -> Result<Text, NoMemory>
        requires { All (λ b. b < 128) bytes.now }
        ensures { IfOk result (λ t. t ≡ bytes.now) }
    {
        match str::from_utf8(bytes) {
            Ok(text) => Text::from_str(alloc, text),
            Err(_) => unreachable!(),
        }
    }

    pub fn as_str(&self) -> &str
        ensures { result.now ≡ self.now }
    {
        self.text.as_str()
    }

    /// Whether both have the same bytes.
    pub fn is(&self, other: &str) -> bool
        ensures { IsTrue result ↔ (self.now ≡ other.now) }
    {
        self.as_str() == other
    }

    pub fn try_clone(&self, alloc: Global) -> Result<Text, NoMemory>
        ensures { IfOk result (λ t. t ≡ self.now) }
    {
        Text::from_str(alloc, self.as_str())
    }
}
