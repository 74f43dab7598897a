//! All relations by number.
ghost use Rattle.std.specs.Prelude.{◌≡◌, ◌<◌, ◌==◌, length, slice_get, Some};
ghost use Rattle.whips_states.specs.States.{AreSoundTables};

use std::marker::Model;
use whips_rel::Relation;

/// All relations by number, seen as the list of their tables.
#[derive(Drop)]
pub struct Db {
    relations: Vec<Relation>,
}

impl Model for Db {
    ghost use Rattle.std.specs.Prelude.{List};
    ghost use Rattle.whips_model.specs.Relation.{Table};
    ghost use Rattle.whips_states.specs.States.{AreSoundTables};

    ghost Value = { List Table };

    ghost view = { λ d. d.relations.items };

    ghost invariant = { λ d. AreSoundTables d.relations.items };
}

impl Db {
    /// These relations, by number from 0.
    pub fn of(relations: Vec<Relation>) -> Db
        ensures { result ≡ relations.items }
    {
        for relation in &relations {
            let _sound = relation.schema();
        }
        Db { relations }
    }

    /// The number of relations.
    pub fn len(&self) -> usize
        ensures { result ≡ length self.now }
    {
        self.relations.len()
    }

    /// Whether there is no relation.
    pub fn is_empty(&self) -> bool
        ensures { result ≡ (length self.now == 0) }
    {
        self.relations.is_empty()
    }

    /// All relations by number. Each has rows of its width in the order of their keys.
    pub fn relations(&self) -> &[Relation]
        ensures relations { result.now ≡ self.now }
        ensures sound { AreSoundTables self.now }
    {
        &self.relations
    }

    /// The relation of this number.
    pub fn relation(&self, rel: u32) -> &Relation
        requires { rel < length self.now }
        ensures { slice_get self.now rel ≡ Some result.now }
    {
        &self.relations[rel as usize]
    }
}
