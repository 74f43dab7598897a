//! Views over several relations: which parts make a view, its value on relations, which updates concern it, and what a
//! transaction gives it and takes from it.
#![tactic(auto)]

mod checks;
mod concern;
mod db;
mod error;
mod net;
mod view;

pub use db::Db;
pub use error::ViewErr;
pub use view::ViewDef;
pub use whips_model::{Cmp, ColRef, Cond, Kind};
pub use whips_value::{Conds, Equalities, Outs, ViewParts};
