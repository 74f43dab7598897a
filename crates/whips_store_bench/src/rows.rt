//! Rows of three numbers: the keys of two relations, which are equal here, and a code.
ghost use Rattle.std.specs.Prelude.{◌≡◌, length, true};
ghost use Rattle.std.specs.List.{list_all};
ghost use Rattle.whips_store_bench.specs.Numbers.{are_within, brings_within};
ghost use Rattle.whips_store_bench.specs.Later.{IsLater};

use crate::stop::Stop;
use std::alloc::Global;
use whips_net::Draft;
use whips_rel::{Change, Kind, Kinds, NoMemory, Places, Relation, Schema, Tuple};

/// The greatest number of a row.
const GREATEST: u64 = 999_999_999_999;

/// The place of the second relation's key in a row.
const SECOND: [u32; 1] = [1];

/// Two number columns, of which the first is the key.
pub fn pair_schema(alloc: Global) -> Result<Schema, NoMemory> {
    let kinds = Kinds::of(vec![in alloc; Kind::Number, Kind::Number]?);
    Ok(Schema::make(kinds, Places::of(vec![in alloc; 0u32]?)))
}

/// Puts the pair of this key and code in.
pub fn put(alloc: Global, pairs: &mut Relation, key: u64, code: u64) -> Result<(), Stop>
    ensures { pairs.new.columns ≡ pairs.old.columns }
{
    if pairs.schema().kinds().len() != 2 {
        return Err(Stop::Refused);
    }
    pairs.insert(Tuple::from_slice(alloc, &[key, code])?)?;
    Ok(())
}

/// What one transaction changes. Its caller makes it beforehand.
#[derive(Drop)]
pub struct Input {
    /// The key in the second relation of the row that goes.
    gone: Tuple,
    /// The row that comes.
    new: Tuple,
    /// The row that comes in the place of the one with its key.
    other: Tuple,
}

/// The row of this key and code.
fn row(alloc: Global, key: u64, code: u64) -> Result<Tuple, NoMemory> {
    Tuple::from_slice(alloc, &[key, key, code])
}

/// The row with the key `gone` goes, that with the key `new` comes, and that with the key `other` gets the code.
pub fn make_input(
    alloc: Global,
    gone: u64,
    new: u64,
    other: u64,
    code: u64,
) -> Result<Input, NoMemory> {
    Ok(Input {
        gone: Tuple::from_slice(alloc, &[gone])?,
        new: row(alloc, new, code)?,
        other: row(alloc, other, code)?,
    })
}

/// Whether the row is as wide as those of the draft.
fn is_wide(draft: &Draft, row: &Tuple) -> bool
    ensures { result ≡ true → length row.now ≡ length draft.now.columns.kinds }
{
    row.len() == draft.rows().schema().kinds().len()
}

/// Puts the row in, where no row has the key.
fn put_new(draft: &mut Draft, row: &Tuple) -> Result<(), Stop>
    ensures { IsLater draft.old draft.new }
{
    if !is_wide(draft, row) {
        return Err(Stop::Refused);
    }
    draft.put_new(row.copy()?)?;
    Ok(())
}

/// Takes out the row with the key of this one.
fn take_row(draft: &mut Draft, row: &Tuple) -> Result<(), Stop>
    ensures { IsLater draft.old draft.new }
{
    if !is_wide(draft, row) {
        return Err(Stop::Refused);
    }
    draft.remove_like(row)?;
    Ok(())
}

/// Takes out these rows.
fn take_rows(draft: &mut Draft, rows: &[Tuple]) -> Result<(), Stop>
    ensures { IsLater draft.old draft.new }
{
    for row in rows {
        take_row(draft, row)?;
    }
    Ok(())
}

/// Takes out the rows with this key of the second relation.
fn take_second(draft: &mut Draft, key: &Tuple) -> Result<(), Stop>
    ensures { IsLater draft.old draft.new }
{
    draft.index_by(&SECOND)?;
    let rows = draft.rows().rows_with(&SECOND, key)?;
    take_rows(draft, rows.as_slice())
}

/// Puts the row in the place of the one with its key.
fn replace(draft: &mut Draft, row: &Tuple) -> Result<(), Stop>
    ensures { IsLater draft.old draft.new }
{
    take_row(draft, row)?;
    put_new(draft, row)
}

/// Makes the changes of a transaction.
pub fn change_rows(draft: &mut Draft, input: &Input) -> Result<(), Stop>
    ensures { IsLater draft.old draft.new }
{
    take_second(draft, &input.gone)?;
    put_new(draft, &input.new)?;
    replace(draft, &input.other)
}

/// Whether no number of the rows that come is above the greatest.
pub fn are_changes_within(changes: &[Change]) -> bool
    ensures { result ≡ list_all brings_within changes.now }
{
    changes.iter().all(|change| is_change_within(change))
}

/// Whether no number of the row that comes is above the greatest.
fn is_change_within(change: &Change) -> bool
    ensures { result ≡ brings_within change.now }
{
    match change {
        Change::Add(row) | Change::Replace(row) => is_row_within(row),
        Change::Remove(_) => true,
    }
}

/// Whether no number of the row is above the greatest.
fn is_row_within(row: &Tuple) -> bool
    ensures { result ≡ are_within row.now }
{
    row.codes().iter().all(|code| *code <= GREATEST)
}
