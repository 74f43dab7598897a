//! A reader's side of a board.
ghost use Rattle.std.specs.Prelude.{◌≡◌, ◌<◌, ◌≤◌, ◌++◌, length};
ghost use Rattle.whips_setup.specs.Refusals.{IsSetup};
ghost use Rattle.whips_slot_words.specs.Words.{view_shape, header_place, column_place, IsSlotOf};
ghost use Rattle.whips_slot_words.specs.Loads.{loads_of, words_at};
ghost use Rattle.whips_slot_words.specs.StoreLaws.{shape_of};
ghost use Rattle.whips_board_look.specs.Looks.{LookState, IsBoardOf};

use crate::loads::load_words;
use crate::shown::shown_by;
use std::marker::Model;
use whips_board::{Board, Eye};
use whips_row_buf::RowBuf;
use whips_setup::Setup;
use whips_slots::{SlotLaw, taken, view_width, word_place};
use whips_store::Look;
use whips_vnl::Shown;

/// The most versions that stay readable.
const VERSIONS: usize = 4;

/// The most columns of a view.
const COLUMNS: usize = 16;

/// A look at the board of a setup through an eye. Contracts see the setup, which board it is, and the eye's log.
#[derive(Drop)]
pub struct BoardLook<'b> {
    setup: &'b Setup,
    board: &'b Board<SlotLaw>,
    eye: Eye<SlotLaw>,
}

impl<'b> Model for BoardLook<'b> {
    ghost use Rattle.std.specs.Prelude.{◌≡◌};
    ghost use Rattle.whips_board_look.specs.Looks.{LookState, IsBoardOf};

    ghost Value = { LookState };

    ghost view = { λ l. record { setup = l.setup.now; board = l.board.now; log = l.eye.log } };

    ghost invariant = { λ l. (l.eye.board ≡ l.board.now) × IsBoardOf l.setup.now l.board.now };
}

impl<'b> BoardLook<'b> {
    /// A look through this eye.
    pub fn over(setup: &'b Setup, board: &'b Board<SlotLaw>, eye: Eye<SlotLaw>) -> BoardLook<'b>
        requires board { IsBoardOf setup.now board.now }
        requires eye { eye.board ≡ board.now }
        ensures { result ≡ record { setup = setup.now; board = board.now; log = eye.log } }
    {
        BoardLook { setup, board, eye }
    }

    /// The eye, with its whole log.
    pub fn into_eye(self) -> Eye<SlotLaw>
        ensures { result ≡ record { board = self.entry.board; log = self.entry.log } }
    {
        let BoardLook {
            setup: _,
            board: _,
            eye,
        } = self;
        eye
    }

    /// How many versions stay readable. What a setup keeps is said here.
    fn versions(&self) -> u32
        ensures versions { result ≡ self.now.setup.versions }
        ensures sound { IsSetup self.now.setup }
    {
        let _sound = self.setup.sources();
        self.setup.versions()
    }

    /// How many columns a view has.
    fn width(&self, x: u32) -> u32
        requires { x < length self.now.setup.views }
        ensures width { result ≡ (view_shape (shape_of self.now.setup) x).width }
        ensures most { result ≤ 16 }
    {
        view_width(self.setup, x)
    }

    /// Loads the headers of a slot, in the order of its entries.
    fn load_headers(&mut self, x: u32, i: u32, headers: &mut [u64])
        requires slot { IsSlotOf (shape_of self.old.setup) x i }
        requires count { length headers.old ≡ self.old.setup.versions }
        ensures base { self.new ≡ record self.old { log = self.new.log } }
        ensures count { length headers.new ≡ self.old.setup.versions }
        ensures loaded { loads_of self.new.log ≡ loads_of self.old.log
            ++ words_at (header_place (shape_of self.old.setup) x i) 0 headers.new }
    {
        let _sound = self.setup.sources();
        let first = word_place(self.setup, x, i, 0, 0);
        let step = view_width(self.setup, x) + 1;
        load_words(&mut self.eye, self.board, first, step, headers);
    }

    /// Loads the row of entry `e` of a slot, in the order of its columns.
    fn load_row(&mut self, x: u32, i: u32, e: u32, row: &mut [u64])
        requires slot { IsSlotOf (shape_of self.old.setup) x i }
        requires entry { e < self.old.setup.versions }
        requires count { length row.old ≡ (view_shape (shape_of self.old.setup) x).width }
        ensures base { self.new ≡ record self.old { log = self.new.log } }
        ensures count { length row.new ≡ (view_shape (shape_of self.old.setup) x).width }
        ensures loaded { loads_of self.new.log ≡ loads_of self.old.log
            ++ words_at (column_place (shape_of self.old.setup) x i e) 0 row.new }
    {
        let _sound = self.setup.sources();
        let first = word_place(self.setup, x, i, e, 0) + 1;
        load_words(&mut self.eye, self.board, first, 1, row);
    }
}

impl<'b> Look for BoardLook<'b> {
    ghost use Rattle.whips_slot_words.specs.Loads.{loads_of};
    ghost use Rattle.whips_board_look.specs.Looks.{view_slots, view_columns, look_phase_says, look_row_says, look_phase_stays, look_row_stays, look_phase_is_determined, look_row_is_determined};

    type Base = (Setup, Board<SlotLaw>);

    ghost base = { λ l. (l.setup, l.board) };

    ghost log = { λ l. loads_of l.log };

    ghost versions = { λ b. b.0.versions };

    ghost slots = { λ b. view_slots b.0 };

    ghost columns = { λ b. view_columns b.0 };

    ghost phase_says = { look_phase_says };

    ghost row_says = { look_row_says };

    fn phase(&mut self) -> u64 {
        self.eye.load(self.board, 0)
    }

    fn row(&mut self, x: u32, i: u32, v: u64, into: &mut RowBuf) -> Shown {
        let mut headers = [0; VERSIONS];
        let headers = &mut headers[..self.versions() as usize];
        self.load_headers(x, i, headers);
        match shown_by(v, headers) {
            Shown::Row => {}
            Shown::Nothing => return Shown::Nothing,
            Shown::Past => return Shown::Past,
        }
        let mut row = [0; COLUMNS];
        let row = &mut row[..self.width(x) as usize];
        self.load_row(x, i, taken(v, headers), row);
        into.put(row);
        Shown::Row
    }

    ghost phase_stays = { look_phase_stays };

    ghost row_stays = { look_row_stays };

    ghost phase_is_determined = { look_phase_is_determined };

    ghost row_is_determined = { look_row_is_determined };
}
