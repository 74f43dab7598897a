//! The rule of a board, and the kinds of step that keep it.
use crate::law::Law;
use crate::view::{Origin, View};
use atomic_table::{Join, Play, Seat, Split, Table, TableRule};
use std::alloc::Global;
use std::marker::PhantomData;

/// There is one lawful history, the pen's. The words are those after it, and it explains the log of each eye.
pub struct Rule<L>(PhantomData<L>);

impl<L: Law> TableRule<u8, View<L>, Origin<L>> for Rule<L> {
    ghost use Rattle.std.specs.Prelude.{ℕ};
    ghost use Rattle.whips_board.specs.Rule.{holds, first_view};

    ghost holds = { holds ℕ L.allows };

    ghost first = { first_view };
}

/// The words of a board. It has no slots.
pub type Words<L> = Table<u8, View<L>, Origin<L>, Rule<L>, Global>;

/// What a pen, an eye and a note step with. It has no bytes.
pub type Token<L> = Seat<u8, View<L>>;

/// A pen's store.
pub struct Stored;

impl<L: Law> Play<u8, View<L>> for Stored {
    ghost use Rattle.whips_board.specs.Rule.{Stores};

    ghost then = { Stores };
}

/// An eye's load.
pub struct LoadedByEye;

impl<L: Law> Play<u8, View<L>> for LoadedByEye {
    ghost use Rattle.whips_board.specs.Rule.{Loads};

    ghost then = { Loads L.allows };
}

/// A pen's load when the board is closed.
pub struct LoadedAtClose;

impl<L: Law> Play<u8, View<L>> for LoadedAtClose {
    ghost use Rattle.whips_board.specs.Rule.{ReadsLast};

    ghost then = { ReadsLast };
}

/// A note is split from the pen.
pub struct NoteSplit;

impl<L> Split<View<L>> for NoteSplit {
    ghost use Rattle.whips_board.specs.Rule.{note_of};

    ghost left = { λ view. view };

    ghost right = { note_of };
}

/// The first eye is split from the pen.
pub struct FirstEyeSplit;

impl<L> Split<View<L>> for FirstEyeSplit {
    ghost use Rattle.whips_board.specs.Rule.{new_eye};

    ghost left = { λ view. view };

    ghost right = { new_eye };
}

/// An eye is split from another.
pub struct EyeSplit;

impl<L> Split<View<L>> for EyeSplit {
    ghost left = { λ view. view };

    ghost right = { λ view. view };
}

/// A note is joined to an eye.
pub struct NoteJoin;

impl<L> Join<View<L>> for NoteJoin {
    ghost use Rattle.whips_board.specs.Rule.{after_learn};
    ghost use Rattle.whips_board.specs.declared.view.View.TheVariants.{Spent};

    ghost both = { after_learn };

    ghost spent = { Spent };
}

/// An eye is joined to the pen when the board is closed.
pub struct EyeJoin;

impl<L> Join<View<L>> for EyeJoin {
    ghost use Rattle.whips_board.specs.Rule.{after_close};
    ghost use Rattle.whips_board.specs.declared.view.View.TheVariants.{Spent};

    ghost both = { after_close };

    ghost spent = { Spent };
}
