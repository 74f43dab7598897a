//! The changes of a transaction.
use std::marker::Model;
use whips_rel::{Change, Rows};

/// The changes of a transaction, seen as their list: for each view the rows afterwards and the net
/// changes that lead there.
#[derive(Drop)]
pub struct Changes {
    /// For each view the rows afterwards and the net changes.
    pub views: Vec<(Rows, Vec<Change>)>,
}

impl Model for Changes {
    ghost use Rattle.std.specs.Prelude.{map};
    ghost use Rattle.whips_store.specs.Stores.{ChangeLists};

    ghost Value = { ChangeLists };

    ghost view = { λ c. map (λ view. (view.0, view.1.items)) c.views.items };
}
