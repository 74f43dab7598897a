//! What sessions read from a store that stands still during each of their calls, and goes on
//! between them.
#![tactic(auto)]

ghost use Rattle.whips_session_laws.specs.Readers.{OpenedIsReader, ReaderStays, ScanIsReader, StillFetches};

mod still;

pub use still::{fetch_from, start_from};
use whips_store::Store;

/// Law: a session at the committed version is a reader.
pub fn opened_is_reader()
    ensures { OpenedIsReader }
{}

/// Law: a reader stays one while the store goes on.
pub fn reader_stays()
    ensures { ReaderStays }
{}

/// Law: a reader that begins a scan is a reader.
pub fn scan_is_reader()
    ensures { ScanIsReader }
{}

/// Law: a reader that fetches from a store that stands still meanwhile is a reader, and where the
/// fetch is done, its buffer has the view's values at its version.
pub fn still_fetches<S: Store>()
    ensures { StillFetches S.state }
{}
