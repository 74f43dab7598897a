//! What a reader sees.
ghost use Rattle.std.specs.Prelude.{◌≡◌, ◌<◌, ℕ, length};
ghost use Rattle.whips_vnl.specs.Records.{Seen, shown_of};
ghost use Rattle.whips_store.specs.Stores.{with_seen};

use std::alloc::Global;
use whips_rel::NoMemory;
use whips_row_buf::RowBuf;
use whips_store::{Look, PlainLook, Store};
use whips_vnl::Shown;

/// The phase, and then what slot `i` of the view shows at version `v`. The log says both answers
/// from the place where it was.
fn look_up<L: Look>(look: &mut L, x: u32, i: u32, v: u64, into: &mut RowBuf) -> (u64, Shown)
    requires slot { i < L.slots (L.base look.old) x }
    requires columns { into.old.columns ≡ L.columns (L.base look.old) x }
    requires room { length into.old.rows < into.old.room }
    ensures base { L.base look.new ≡ L.base look.old }
    ensures phase { (at : ℕ)
        × L.phase_says (L.base look.old) (L.log look.new) (length (L.log look.old)) result.0 at }
    ensures row { (at next : ℕ) × (seen : Seen) × (result.1 ≡ shown_of seen)
        × (into.new ≡ with_seen seen into.old)
        × L.row_says (L.base look.old) (L.log look.new) at x i v seen next }
{
    let phase = look.phase();
    let shown = look.row(x, i, v, into);
    (phase, shown)
}

/// The first row of the buffer, as `key=code`.
pub fn row_text(alloc: Global, buf: &RowBuf) -> Result<String, NoMemory> {
    if buf.len() == 0 {
        return Ok(format!(in alloc; "no row")?);
    }
    match buf.row(0) {
        [key, code] => Ok(format!(in alloc; "{key}={code}")?),
        _ => Ok(format!(in alloc; "no pair")?),
    }
}

/// The phase, and what slot `i` of the view shows at version `v`: `key=code`, `-` for nothing, or
/// `past`.
fn slot_text<S: Store>(
    alloc: Global,
    store: &S,
    x: u32,
    i: u32,
    v: u64,
) -> Result<(u64, String), NoMemory> {
    if x >= store.views() || i >= store.slots(x) {
        return Err(NoMemory);
    }
    let mut buf = RowBuf::make(alloc, store.current(x).schema(), 1)?;
    let mut look = PlainLook::over(store);
    let (phase, shown) = look_up(&mut look, x, i, v, &mut buf);
    let text = match shown {
        Shown::Row => row_text(alloc, &buf)?,
        Shown::Nothing => format!(in alloc; "-")?,
        Shown::Past => format!(in alloc; "past")?,
    };
    Ok((phase, text))
}

/// The phase, and behind it what each slot of the view shows at version `v`.
pub fn shown<S: Store>(alloc: Global, store: &S, x: u32, v: u64) -> Result<String, NoMemory> {
    let mut text = String::new(alloc);
    if x >= store.views() {
        return Ok(text);
    }
    for i in 0..store.slots(x) {
        let (phase, slot) = slot_text(alloc, store, x, i, v)?;
        if i == 0 {
            text.push_str(format!(in alloc; "{phase}:")?.as_str())?;
        }
        text.push_str(format!(in alloc; " {}", slot.as_str())?.as_str())?;
    }
    Ok(text)
}
