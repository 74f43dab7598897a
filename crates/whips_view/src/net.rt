//! What a transaction gives a view and takes from it.
ghost use Rattle.std.specs.Prelude.{◌≡◌, ◌<◌, ◌++◌, [], length, map, fold, filter, IfOk, IfErr, OnOk};
ghost use Rattle.whips_model.specs.Tuples.{at_columns, put_row, without_key, IsKeyed};
ghost use Rattle.whips_model.specs.Search.{IsRowAt, Misses};
ghost use Rattle.whips_states.specs.Concerns.{meets_part};
ghost use Rattle.whips_states.specs.Net.{left_by, found_by, deleted, given_at, taken_at, given, taken};
ghost use Rattle.whips_view.specs.ViewDefs.{keyed};

use crate::ViewDef;
use std::alloc::Global;
use whips_rel::{NoMemory, Schema, Trans, Tuple, TupleBuilder, Update};

/// Where the row with the tuple's key is, or where it would go.
fn place(schema: &Schema, rows: &[Tuple], tuple: &Tuple) -> Result<usize, usize>
    requires { IsKeyed schema.now.key rows.now }
    ensures found { IfOk result (IsRowAt schema.now.key rows.now
        (at_columns schema.now.key tuple.now)) }
    ensures absent { IfErr result (Misses schema.now.key rows.now
        (at_columns schema.now.key tuple.now)) }
{
    rows.binary_search_by(|t| schema.compare_keys(t, tuple))
}

/// Puts the tuple where its key belongs, in the place of a row with that key.
fn put(schema: &Schema, rows: &mut Vec<Tuple>, tuple: Tuple) -> Result<(), NoMemory>
    requires { IsKeyed schema.now.key rows.old.items }
    ensures rows { OnOk result (rows.new.items ≡ put_row schema.now.key tuple rows.old.items) }
    ensures keyed { OnOk result (IsKeyed schema.now.key rows.new.items) }
{
    match place(schema, rows, &tuple) {
        Ok(at) => {
            rows[at] = tuple;
            Ok(())
        }
        Err(at) => {
            rows.insert(at, tuple)?;
            Ok(())
        }
    }
}

/// Takes out the row with the tuple's key.
fn take_out(schema: &Schema, rows: &mut Vec<Tuple>, tuple: &Tuple)
    requires { IsKeyed schema.now.key rows.old.items }
    ensures rows { rows.new.items ≡ without_key schema.now.key
        (at_columns schema.now.key tuple.now) rows.old.items }
    ensures keyed { IsKeyed schema.now.key rows.new.items }
{
    if let Ok(at) = place(schema, rows, tuple) {
        rows.remove(at);
    }
}

/// Does what the update makes of the rows of this relation.
fn leave(
    schema: &Schema,
    relation: u32,
    update: &Update,
    rows: &mut Vec<Tuple>,
) -> Result<(), NoMemory>
    requires { IsKeyed schema.now.key rows.old.items }
    ensures rows { OnOk result (rows.new.items
        ≡ left_by relation schema.now.key rows.old.items update.now) }
    ensures keyed { OnOk result (IsKeyed schema.now.key rows.new.items) }
{
    match update {
        Update::Insert(own, tuple) => {
            if *own == relation {
                put(schema, rows, tuple.copy()?)?;
            }
            Ok(())
        }
        Update::Delete(own, tuple) => {
            if *own == relation {
                take_out(schema, rows, tuple);
            }
            Ok(())
        }
    }
}

/// Undoes what the update made of the rows of this relation.
fn find(
    schema: &Schema,
    relation: u32,
    update: &Update,
    rows: &mut Vec<Tuple>,
) -> Result<(), NoMemory>
    requires { IsKeyed schema.now.key rows.old.items }
    ensures rows { OnOk result (rows.new.items
        ≡ found_by relation schema.now.key update.now rows.old.items) }
    ensures keyed { OnOk result (IsKeyed schema.now.key rows.new.items) }
{
    match update {
        Update::Insert(own, tuple) => {
            if *own == relation {
                take_out(schema, rows, tuple);
            }
            Ok(())
        }
        Update::Delete(own, tuple) => {
            if *own == relation {
                put(schema, rows, tuple.copy()?)?;
            }
            Ok(())
        }
    }
}

/// Does what the updates make of the rows of this relation, one after another.
fn leave_all(
    schema: &Schema,
    relation: u32,
    updates: &[Update],
    rows: &mut Vec<Tuple>,
) -> Result<(), NoMemory>
    requires { IsKeyed schema.now.key rows.old.items }
    ensures { OnOk result (rows.new.items ≡ fold
        (left_by relation schema.now.key) rows.old.items updates.now) }
{
    match updates {
        [] => Ok(()),
        [update, updates @ ..] => {
            leave(schema, relation, update, rows)?;
            leave_all(schema, relation, updates, rows)
        }
    }
}

/// Undoes what the updates made of the rows of this relation, the last one first.
fn find_all(
    schema: &Schema,
    relation: u32,
    updates: &[Update],
    rows: &mut Vec<Tuple>,
) -> Result<(), NoMemory>
    requires { rows.old.items ≡ [] }
    ensures rows { OnOk result (rows.new.items ≡ deleted relation schema.now.key updates.now) }
    ensures keyed { OnOk result (IsKeyed schema.now.key rows.new.items) }
{
    match updates {
        [] => Ok(()),
        [update, updates @ ..] => {
            find_all(schema, relation, updates, rows)?;
            find(schema, relation, update, rows)
        }
    }
}

/// Adds each row that meets the part, beside its part.
fn add_given(
    view: &ViewDef,
    part: u32,
    rows: &[Tuple],
    given: &mut Vec<(u32, Tuple)>,
) -> Result<(), NoMemory>
    ensures { OnOk result (given.new.items ≡ given.old.items
        ++ map (λ x. (part, x)) (filter (meets_part view.now.parts part) rows.now)) }
{
    for row in rows {
        if view.meets(part, row) {
            given.push((part, row.copy()?))?;
        }
    }
    Ok(())
}

/// The codes of the tuple in these columns.
fn codes_at(alloc: Global, columns: &[u32], tuple: &Tuple) -> Result<Tuple, NoMemory>
    ensures { IfOk result (λ k. k ≡ at_columns columns.now tuple.now) }
{
    let mut codes = TupleBuilder::new(alloc);
    for column in columns {
        codes.push(tuple.code_in(*column))?;
    }
    codes.finish()
}

/// Adds the key of each row that meets the part, beside its part.
fn add_taken(
    view: &ViewDef,
    part: u32,
    key: &[u32],
    rows: &[Tuple],
    taken: &mut Vec<(u32, Tuple)>,
) -> Result<(), NoMemory>
    ensures { OnOk result (taken.new.items ≡ taken.old.items
        ++ map (λ x. (part, x)) (map (at_columns key.now)
        (filter (meets_part view.now.parts part) rows.now))) }
{
    for row in rows {
        if view.meets(part, row) {
            taken.push((part, codes_at(view.alloc(), key, row)?))?;
        }
    }
    Ok(())
}

/// Adds what the transaction gives this part.
fn give(
    view: &ViewDef,
    part: u32,
    updates: &[Update],
    given: &mut Vec<(u32, Tuple)>,
) -> Result<(), NoMemory>
    requires { part < length view.now.bases }
    ensures { OnOk result (given.new.items ≡ given.old.items
        ++ map (λ x. (part, x)) (given_at (keyed view.now) updates.now part)) }
{
    let relation = view.parts().relations()[part as usize];
    let mut rows = Vec::new(view.alloc());
    leave_all(view.base(part), relation, updates, &mut rows)?;
    add_given(view, part, &rows, given)
}

/// Adds what the transaction takes from this part.
fn take(
    view: &ViewDef,
    part: u32,
    updates: &[Update],
    taken: &mut Vec<(u32, Tuple)>,
) -> Result<(), NoMemory>
    requires { part < length view.now.bases }
    ensures { OnOk result (taken.new.items ≡ taken.old.items
        ++ map (λ x. (part, x)) (taken_at (keyed view.now) updates.now part)) }
{
    let relation = view.parts().relations()[part as usize];
    let base = view.base(part);
    let mut rows = Vec::new(view.alloc());
    find_all(base, relation, updates, &mut rows)?;
    add_taken(view, part, base.key(), &rows, taken)
}

impl ViewDef {
    /// The keys that the transaction takes from the view, each with its part, by part and then by key: those that an
    /// update of it names and whose first update is a delete of a tuple that meets the view.
    pub fn taken(&self, t: &Trans) -> Result<Vec<(u32, Tuple)>, NoMemory>
        ensures { IfOk result (λ keys. keys.items ≡ taken (keyed self.now) t.now) }
    {
        let mut keys = Vec::new(self.alloc());
        for part in 0..self.width() {
            take(self, part, &t.items, &mut keys)?;
        }
        Ok(keys)
    }

    /// The tuples that the transaction gives the view, each with its part, by part and then by key: those whose key's
    /// last update is their insert, and that meet the view.
    pub fn given(&self, t: &Trans) -> Result<Vec<(u32, Tuple)>, NoMemory>
        ensures { IfOk result (λ tuples. tuples.items ≡ given (keyed self.now) t.now) }
    {
        let mut tuples = Vec::new(self.alloc());
        for part in 0..self.width() {
            give(self, part, &t.items, &mut tuples)?;
        }
        Ok(tuples)
    }
}
