//! Rows of two numbers, the first of which is the key.
ghost use Rattle.std.specs.Prelude.{◌≡◌, IfOk};
ghost use Rattle.std.specs.List.{list_all};
ghost use Rattle.whips_rel.specs.Chunks.{joined};
ghost use Rattle.whips_store_tests.specs.Numbers.{are_within};

use std::alloc::Global;
use whips_rel::{Chunk, InsertErr, NoMemory, Rows, Tuple};

/// The greatest number of a row.
const GREATEST: u64 = 999_999_999_999;

/// Puts the row of this key and code in.
fn put(alloc: Global, rows: &mut Rows, key: u64, code: u64) -> Result<(), NoMemory>
    ensures { rows.new.columns ≡ rows.old.columns }
{
    if rows.schema().kinds().len() != 2 {
        return Err(NoMemory);
    }
    match rows.insert(Tuple::from_slice(alloc, &[key, code])?) {
        Ok(()) => Ok(()),
        Err(InsertErr::Present(_)) | Err(InsertErr::NoMemory(_)) => Err(NoMemory),
    }
}

/// Makes the key's row one of this code, or takes it out.
fn set(alloc: Global, rows: &mut Rows, key: u64, code: Option<u64>) -> Result<(), NoMemory>
    ensures { rows.new.columns ≡ rows.old.columns }
{
    rows.delete_if_there(&Tuple::from_slice(alloc, &[key])?)?;
    match code {
        Some(code) => put(alloc, rows, key, code),
        None => Ok(()),
    }
}

/// The rows once each of these keys has the code beside it, or no row.
pub fn edited(alloc: Global, before: &Rows, edits: &[(u64, Option<u64>)]) -> Result<Rows, NoMemory>
    ensures { IfOk result (λ rows. rows.columns ≡ before.now.columns) }
{
    let mut rows = before.copy()?;
    for (key, code) in edits {
        set(alloc, &mut rows, *key, *code)?;
    }
    Ok(rows)
}

/// Whether no number of the rows is above the greatest.
pub fn are_rows_within(rows: &Rows) -> bool
    ensures { result ≡ list_all are_within rows.now.rows }
{
    are_chunks_within(rows.chunks())
}

/// Whether no number of the chunk's rows is above the greatest.
fn is_chunk_within(chunk: &Chunk) -> bool
    ensures { result ≡ list_all are_within chunk.now }
{
    chunk.rows().iter().all(|row| is_row_within(row))
}

/// Whether no number of these chunks' rows is above the greatest.
fn are_chunks_within(chunks: &[Chunk]) -> bool
    ensures { result ≡ list_all are_within (joined chunks.now) }
{
    match chunks {
        [] => true,
        [chunk, chunks @ ..] => is_chunk_within(chunk) && are_chunks_within(chunks),
    }
}

/// Whether no number of the row is above the greatest.
fn is_row_within(row: &Tuple) -> bool
    ensures { result ≡ are_within row.now }
{
    row.codes().iter().all(|code| *code <= GREATEST)
}
