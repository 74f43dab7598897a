//! Where each word of a board stands.
ghost use Rattle.std.specs.Prelude.{◌≡◌, ◌<◌, ◌≤◌, suc, length};
ghost use Rattle.whips_setup.specs.Refusals.{IsSetup};
ghost use Rattle.whips_slot_words.specs.Words.{view_shape, slot_size, view_size, view_offset, word_place, IsSlotOf};
ghost use Rattle.whips_slot_words.specs.Slots.{board_size};
ghost use Rattle.whips_slot_words.specs.StoreLaws.{shape_of};

use whips_setup::Setup;

/// How many columns the rows of a view have.
pub fn view_width(setup: &Setup, x: u32) -> u32
    requires { x < length setup.now.views }
    ensures width { result ≡ (view_shape (shape_of setup.now) x).width }
    ensures most { result ≤ 16 }
{
    let _sound = setup.sources();
    setup.view(x).schema().kinds().len() as u32
}

/// How many words a slot of a view has.
fn slot_size(setup: &Setup, x: u32) -> u32
    requires { x < length setup.now.views }
    ensures size { result ≡ slot_size setup.now.versions (view_shape (shape_of setup.now) x) }
    ensures most { result ≤ 68 }
{
    let _sound = setup.sources();
    setup.versions() * (view_width(setup, x) + 1)
}

/// How many words a view has.
fn view_size(setup: &Setup, x: u32) -> u32
    requires { x < length setup.now.views }
    ensures size { result ≡ view_size setup.now.versions (view_shape (shape_of setup.now) x) }
    ensures most { result ≤ 278528 }
{
    let _sound = setup.sources();
    setup.slots(x) * slot_size(setup, x)
}

/// The place of a view's first word.
fn view_place(setup: &Setup, x: u32) -> u32
    requires { x < length setup.now.views }
    ensures { result ≡ suc (view_offset setup.now.versions (shape_of setup.now).views x) }
{
    let _sound = setup.sources();
    let mut place = 1;
    for y in 0..x {
        place += view_size(setup, y);
    }
    place
}

/// The place of word `k` of entry `e` of slot `i` of view `x`. Word 0 of an entry is its header, and the row's words
/// follow.
pub fn word_place(setup: &Setup, x: u32, i: u32, e: u32, k: u32) -> u32
    requires slot { IsSlotOf (shape_of setup.now) x i }
    requires entry { e < setup.now.versions }
    requires word { k ≤ (view_shape (shape_of setup.now) x).width }
    ensures place { result ≡ word_place (shape_of setup.now) x i e k }
    ensures within { result < board_size (shape_of setup.now) }
{
    let _sound = setup.sources();
    view_place(setup, x) + i * slot_size(setup, x) + e * (view_width(setup, x) + 1) + k
}
