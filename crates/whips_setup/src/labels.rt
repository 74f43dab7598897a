//! Names of sources, relations, columns, views and sessions.
ghost use Rattle.std.specs.Prelude.{◌≡◌, string_bytes};

use std::marker::Model;

/// A name, seen as its bytes.
#[derive(Drop)]
pub struct Name {
    text: String,
}

impl Model for Name {
    ghost use Rattle.std.specs.Prelude.{ℕ, List, string_bytes};

    ghost Value = { List ℕ };

    ghost view = { λ n. string_bytes n.text };
}

impl Name {
    /// The name of this text.
    pub fn of(text: String) -> Name
        ensures { result ≡ string_bytes text }
    {
        Name { text }
    }

    /// The name as a text.
    pub fn as_str(&self) -> &str
        ensures { result.now ≡ self.now }
    {
        self.text.as_str()
    }
}

/// Names, seen as their list.
#[derive(Drop)]
pub struct Names {
    items: Vec<Name>,
}

impl Model for Names {
    ghost use Rattle.std.specs.Prelude.{ℕ, List};

    ghost Value = { List (List ℕ) };

    ghost view = { λ n. n.items.items };
}

impl Names {
    /// These names.
    pub fn of(items: Vec<Name>) -> Names
        ensures { result ≡ items.items }
    {
        Names { items }
    }

    /// The names as a slice.
    pub fn as_slice(&self) -> &[Name]
        ensures { result.now ≡ self.now }
    {
        &self.items
    }
}

/// Lists of names, seen as their list.
#[derive(Drop)]
pub struct NameLists {
    items: Vec<Names>,
}

impl Model for NameLists {
    ghost use Rattle.std.specs.Prelude.{ℕ, List};

    ghost Value = { List (List (List ℕ)) };

    ghost view = { λ n. n.items.items };
}

impl NameLists {
    /// These lists.
    pub fn of(items: Vec<Names>) -> NameLists
        ensures { result ≡ items.items }
    {
        NameLists { items }
    }

    /// The lists as a slice.
    pub fn as_slice(&self) -> &[Names]
        ensures { result.now ≡ self.now }
    {
        &self.items
    }
}

/// The names in a script, each by its place.
#[derive(Drop)]
pub struct Labels {
    /// The name of each source.
    pub sources: Names,
    /// The name of each relation.
    pub relations: Names,
    /// The names of the columns, by relation and column.
    pub columns: NameLists,
    /// The name of each view.
    pub views: Names,
    /// The name of each session.
    pub sessions: Names,
}
