//! Why parts make no view.
ghost use Rattle.std.specs.Prelude.{◌≡◌};
ghost use Rattle.whips_view.specs.declared.error.ViewErr.TheVariants.{NoMemory as OutOfMemory};

use whips_model::ColRef;
use whips_rel::NoMemory;

/// Why parts make no view.
#[derive(Clone, Copy, Debug, PartialEq, Eq)]
pub enum ViewErr {
    /// A list has too few or too many elements, or the numbers of relations and of homes differ.
    Limit,
    /// There is no relation of this number.
    NoRelation(u32),
    /// The relation of this number stands twice.
    TwiceUsed(u32),
    /// There is no such column.
    NoColumn(ColRef),
    /// An equality or a condition joins a number and a text.
    Kinds,
    /// The relation of this number has this key column, which isn't among the out columns.
    KeyMissing(u32, u32),
    /// There was no memory for the view.
    NoMemory,
}

impl From<NoMemory> for ViewErr {
    ghost from_gives = { λ _ e. e ≡ OutOfMemory };

    fn from(_error: NoMemory) -> ViewErr {
        ViewErr::NoMemory
    }
}
