//! Text that grows at its end.
ghost use Rattle.std.specs.Prelude.{◌≡◌, ◌++◌, [], true, OnOk, string_bytes, encode_utf8_all};
ghost use Rattle.std.specs.Fmt.{decimal};
ghost use Rattle.lt_syntax.specs.Signs.{are_ascii};

use lt_hol::{Memory, Name};
use std::alloc::Global;
use std::marker::Model;

/// Text that grows at its end, which contracts see as its list of characters.
#[derive(Debug, Drop)]
pub struct Text {
    text: String,
}

impl Model for Text {
    ghost use Rattle.std.specs.Prelude.{List, ℕ, string_bytes};
    ghost use Rattle.std.specs.Coded.{coded_list, coded_ℕ};
    ghost use Rattle.std.specs.Str.{chars};

    ghost Value = { List ℕ };

    ghost coded = { coded_list coded_ℕ };

    ghost view = { λ t. chars (string_bytes t.text) };
}

impl Text {
    /// The empty text.
    pub fn new(alloc: Global) -> Text
        ensures { result ≡ [] }
    {
        Text {
            text: String::new(alloc),
        }
    }

    /// Adds signs, words and spaces, which are ASCII.
    pub fn signs(&mut self, signs: &str) -> Result<(), Memory>
        requires { are_ascii signs.now ≡ true }
        ensures { OnOk result (self.new ≡ self.old ++ signs.now) }
    {
        self.text.push_str(signs)?;
        Ok(())
    }

    /// Adds a name.
    pub fn name(&mut self, name: &Name) -> Result<(), Memory>
        ensures { OnOk result (self.new ≡ self.old ++ name.now) }
    {
        self.text.push_str(name.text())?;
        Ok(())
    }

    /// Adds a number in decimal.
    pub fn number(&mut self, n: usize) -> Result<(), Memory>
        ensures { OnOk result (self.new ≡ self.old ++ decimal n) }
    {
        write!(self.text, "{n}")?;
        Ok(())
    }

    /// The text as a string.
    pub fn finish(self) -> String
        ensures { string_bytes result ≡ encode_utf8_all self }
    {
        let Text { text } = self;
        text
    }
}
