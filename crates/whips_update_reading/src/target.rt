//! What an update does, and to which relation.
ghost use Rattle.std.specs.Prelude.{◌≡◌};
ghost use Rattle.serde_json.specs.View.{view};
ghost use Rattle.whips_reading.specs.Places.{path_steps};
ghost use Rattle.whips_reading.specs.Reading.{Answers};
ghost use Rattle.whips_update_reading.specs.Updates.{change_in};

use serde_json::Value;
use std::alloc::Global;
use whips_reading::{Code, Path, ReadErr, read_text, refuse};

/// What an update does.
#[derive(Clone, Copy, Debug, PartialEq, Eq)]
pub enum Change {
    /// It puts in a row.
    Insertion,
    /// It takes out a row.
    Deletion,
}

/// What an update does to which relation.
#[derive(Clone, Copy, Debug, PartialEq, Eq)]
pub struct Target {
    /// What it does.
    pub change: Change,
    /// The number of the relation.
    pub relation: u32,
}

/// What an update does.
pub(crate) fn read_change(alloc: Global, path: &Path<'_>, value: &Value) -> Result<Change, ReadErr>
    ensures { Answers (λ c. c) result (change_in (path_steps path.now) (view value.now)) }
{
    let text = read_text(alloc, path, value)?;
    if text == "insert" {
        return Ok(Change::Insertion);
    }
    if text == "delete" {
        return Ok(Change::Deletion);
    }
    Err(refuse(alloc, path, Code::Shape))
}
