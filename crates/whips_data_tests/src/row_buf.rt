//! Buffers of rows.
ghost use Rattle.std.specs.Prelude.{◌≡◌, [], ◌∷◌, IfOk};
ghost use Rattle.whips_model.specs.declared.Kind.TheVariants.{Number};

use std::alloc::Global;
use whips_fixtures::schema;
use whips_rel::{Kind, NoMemory};
use whips_row_buf::RowBuf;

/// A buffer for three rows of two number columns, of which the second is the key.
fn three(alloc: Global) -> Result<RowBuf, NoMemory>
    ensures { IfOk result (λ b. b ≡ record {
      columns = record { kinds = Number ∷ Number ∷ []; key = 1 ∷ [] };
      rows = [];
      room = 3;
    }) }
{
    let schema = schema(alloc, &[Kind::Number, Kind::Number], &[1])?;
    RowBuf::make(alloc, &schema, 3)
}

/// Whether the rows are these.
fn are_rows(buffer: &RowBuf, rows: &[&[u64]]) -> bool {
    (buffer.len() as usize == rows.len())
        && (0..buffer.len()).all(|i| rows.get(i as usize) == Some(&buffer.row(i)))
}

fn is_kept(alloc: Global) -> Result<bool, NoMemory> {
    let mut buffer = three(alloc)?;
    buffer.put(&[1, 8]);
    buffer.put(&[3, 5]);
    buffer.put(&[2, 5]);
    let is_full = (buffer.room() == 3) & are_rows(&buffer, &[&[3, 5], &[2, 5], &[1, 8]]);
    buffer.clear();
    Ok(is_full & are_rows(&buffer, &[]))
}

#[test]
fn rows_come_by_key_and_then_as_they_were_put(rt: HostRuntime) {
    assert!(rt; matches!(is_kept(rt.alloc()), Ok(true)));
}
