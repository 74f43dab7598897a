//! Made scripts: a shop of orders and items, whose updates and whose schedule a picker makes of one start number.
#![tactic(auto)]

ghost use Rattle.std.specs.Prelude.{◌≡◌, [], ◌∷◌};
ghost use Rattle.whips_gen.specs.Bounds.{ViewsAreSmall, MadeRunsAreNeverFull};
ghost use Rattle.whips_gen.specs.Made.{made_script, work_of, updates_made};
ghost use Rattle.whips_gen.specs.Shop.{shop, shop_tables};
ghost use Rattle.whips_gen.specs.Worked.{one_order, eight_updates};

mod made;
mod picks;
mod shop;

pub use made::{MadeScript, make};

/// Worked: the one update that start number 0 gives is an order. Of the first eight of start number 29 one takes an item
/// out, and one an order.
pub fn worked_updates()
    ensures one { updates_made 1 0 shop_tables ≡ one_order }
    ensures eight { updates_made 8 29 shop_tables ≡ eight_updates }
    ensures script { made_script 0 1
        ≡ record { setup = shop; work = (one_order ∷ []) ∷ [] ∷ []; sessions = 2 } }
{}

/// Law: with orders of numbers below 64, each view has at most 64 rows. So the rows of two versions together fit the 128
/// slots of a view.
pub fn views_are_small()
    ensures { ViewsAreSmall }
{}

/// Law: whatever the schedule, a run of a made script is never full.
pub fn made_runs_are_never_full()
    ensures { MadeRunsAreNeverFull }
{}
