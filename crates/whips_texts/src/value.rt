//! Values and their codes.
ghost use Rattle.std.specs.Prelude.{◌≡◌};
ghost use Rattle.serde_json.specs.View.{view};
ghost use Rattle.whips_reading.specs.Places.{path_steps};
ghost use Rattle.whips_reading.specs.Reading.{Answers};
ghost use Rattle.whips_texts.specs.Values.{value_in};

use crate::dict::Dict;
use serde_json::Value;
use std::alloc::Global;
use whips_model::Kind;
use whips_reading::{Code, Path, ReadErr, refuse};

/// The greatest number value.
const GREATEST: u64 = 999_999_999_999;

/// The greatest length of a text value, in bytes.
const LONGEST: usize = 64;

/// The code of a value of this kind.
pub fn read_value(
    alloc: Global,
    texts: &Dict,
    kind: Kind,
    path: &Path<'_>,
    value: &Value,
) -> Result<u64, ReadErr>
    ensures { Answers (λ n. n) result
        (value_in texts.now kind (path_steps path.now) (view value.now)) }
{
    match kind {
        Kind::Number => {
            if let Some(number) = value.as_u64() {
                if number <= GREATEST {
                    return Ok(number);
                }
            }
        }
        Kind::Text => {
            if let Some(text) = value.as_str() {
                if text.len() <= LONGEST {
                    return Ok(texts.rank(text));
                }
            }
        }
    }
    Err(refuse(alloc, path, Code::Value))
}
