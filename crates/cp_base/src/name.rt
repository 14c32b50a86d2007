// Names, which are text.
ghost use Rattle.std.specs.Prelude.{◌≡◌, [], ◌++◌, OnOk, OnErr};

use sqlite_items::Items;
use std::alloc::{AllocError, Global};
use std::convert::AsStr;
use std::marker::Model;

/// A name, which contracts see as the list of its bytes in UTF-8.
#[derive(Debug, Drop)]
pub struct Name {
    text: String,
}

/// A list of names.
pub type Names = Items<Name>;

impl Model for Name {
    ghost use Rattle.std.specs.Prelude.{List, ℕ, string_bytes};

    ghost Value = { List ℕ };

    ghost view = { λ n. string_bytes n.text };
}

impl AsStr for Name {
    ghost text = { λ name. name };

    fn as_str(&self) -> &str {
        self.text.as_str()
    }
}

impl Name {
    pub fn new(alloc: Global) -> Name
        ensures { result ≡ [] }
    {
        Name {
            text: String::new(alloc),
        }
    }

    /// Appends the piece, or changes nothing.
    pub fn push_all(&mut self, piece: &str) -> Result<(), AllocError>
        ensures ok { OnOk result (self.new ≡ self.old ++ piece.now) }
        ensures err { OnErr result (self.new ≡ self.old) }
    {
        self.text.push_str(piece)
    }

    pub fn as_slice(&self) -> &str
        ensures { result.now ≡ self.now }
    {
        self.text.as_str()
    }
}
