//! Plain data that every crate above shares, and the definitions over it: tuples of codes, relations as tables in the
//! order of their keys, and the value of a view of selections, projections and joins.
#![tactic(auto)]

ghost use Rattle.whips_model.specs.Keys.{ValueIsKeyed};

/// What a column holds.
#[derive(Clone, Copy, Debug, PartialEq, Eq)]
pub enum Kind {
    /// A whole number, which is its own code.
    Number,
    /// A text. Its code is its place in the sorted list of texts, so the order of codes is the order of bytes.
    Text,
}

/// A column of one of a view's relations.
#[derive(Clone, Copy, Debug, PartialEq, Eq)]
pub struct ColRef {
    /// The place of the relation in the view's list of relations, from 0.
    pub part: u32,
    /// The place of the column in that relation, from 0.
    pub col: u32,
}

/// How one code compares to another.
#[derive(Clone, Copy, Debug, PartialEq, Eq)]
pub enum Cmp {
    /// Equal.
    Eq,
    /// Not equal.
    Ne,
    /// Less.
    Lt,
    /// Less or equal.
    Le,
    /// Greater.
    Gt,
    /// Greater or equal.
    Ge,
}

/// A condition of a view: a column compares so to a constant.
#[derive(Clone, Copy, Debug, PartialEq, Eq)]
pub struct Cond {
    /// The column.
    pub at: ColRef,
    /// How its code compares to `code`.
    pub cmp: Cmp,
    /// The code of the constant.
    pub code: u64,
    /// The kind of the constant.
    pub kind: Kind,
}

/// Law: where each relation is in the order of its key, and a view's rows have the keys of all its relations, the rows
/// of the view come in the order of these keys, and no key comes twice.
pub fn value_is_keyed()
    ensures { ValueIsKeyed }
{}
