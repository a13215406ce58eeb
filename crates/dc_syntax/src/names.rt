//! A name, and the names of a program in order.
ghost use Rattle.dc_syntax.specs.Names.{has_name, place_of, with_name};
ghost use Rattle.std.specs.Prelude.{not, ◌≡◌, ℕ, ◌<◌, List, [], ◌∷◌, ◌++◌, map, length, true, false, IsAscii, IfOk, OnOk, OnErr, IfSome};
ghost use Rattle.std.specs.String.{string_bytes};

use indexmap::IndexSet;
use std::alloc::{AllocError, Global};
use std::marker::Model;

/// The text of ASCII bytes.
pub fn ascii_text(alloc: Global, bytes: &[u8]) -> Result<String, AllocError>
    requires { IsAscii bytes.now }
    ensures { IfOk result (λ t. string_bytes t ≡ bytes.now) }
{
    let bytes = Vec::from_slice(alloc, bytes)?;
    Ok(String::from_utf8(bytes).unwrap())
}

/// The name of a procedure, which contracts see as its bytes.
#[derive(Debug, Drop)]
pub struct Name {
    text: String,
}

impl Model for Name {
    ghost use Rattle.std.specs.Prelude.{List, ℕ};
    ghost use Rattle.std.specs.String.{string_bytes};

    ghost Value = { List ℕ };

    ghost view = { λ n. string_bytes n.text };
}

impl Name {
    pub fn new(text: String) -> Name
        ensures { result ≡ string_bytes text }
    {
        Name { text }
    }

    pub fn as_str(&self) -> &str
        ensures { result.now ≡ self.now }
    {
        self.text.as_str()
    }

    pub fn as_bytes(&self) -> &[u8]
        ensures { result.now ≡ self.now }
    {
        self.text.as_bytes()
    }

    pub fn into_string(self) -> String
        ensures { string_bytes result ≡ self }
    {
        let Name { text } = self;
        text
    }
}

/// Different names in the order of their insertion, which contracts see as the list of their bytes.
#[derive(Debug)]
pub struct Names {
    set: IndexSet<String>,
}

impl Model for Names {
    ghost use Rattle.std.specs.Prelude.{List, ℕ, map};
    ghost use Rattle.std.specs.String.{string_bytes};

    ghost Value = { List (List ℕ) };

    ghost view = { λ n. map string_bytes n.set.keys };
}

// Written by hand: a derived one would repeat the steps of the set's drop wherever a `Proc` is dropped.
impl Drop for Names {
    fn drop(self) {
        let Names { set: _set } = self;
    }
}

impl Names {
    pub fn new(alloc: Global) -> Names
        ensures { result ≡ [] }
    {
        Names {
            set: IndexSet::new(alloc),
        }
    }

    /// The names of a set; it takes no memory.
    pub fn from_set(set: IndexSet<String>) -> Names
        ensures { result ≡ map string_bytes set.keys }
    {
        Names { set }
    }

    /// The set of the names; it takes no memory.
    pub fn into_set(self) -> IndexSet<String>
        ensures { map string_bytes result.keys ≡ self }
    {
        let Names { set } = self;
        set
    }

    pub fn len(&self) -> usize
        ensures { result ≡ length self.now }
    {
        self.set.len()
    }

    pub fn as_slice(&self) -> &[String]
        ensures { map string_bytes result.now ≡ self.now }
    {
        self.set.as_slice()
    }

    /// The place of a name.
    pub fn place(&self, name: &str) -> Option<usize>
        ensures { result ≡ place_of self.now name.now }
    {
        self.set.get_index_of(name)
    }

    /// Puts a new name last, and says whether it is new. After want of memory the names are as before.
    pub fn insert(&mut self, name: String) -> Result<bool, AllocError>
        ensures added { IfOk result (λ added. added ≡ not (has_name self.old (string_bytes name))) }
        ensures names { OnOk result (self.new ≡ with_name self.old (string_bytes name)) }
        ensures err { OnErr result (self.new ≡ self.old) }
    {
        let added = self.set.insert(name)?;
        Ok(added)
    }
}
