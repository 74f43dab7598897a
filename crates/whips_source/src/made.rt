//! Relations after valid updates.
ghost use Rattle.std.specs.Prelude.{◌≡◌, None, length, OnOk};
ghost use Rattle.whips_model.specs.Tuples.{at_columns, row_at};
ghost use Rattle.whips_states.specs.States.{with_row, without_row, updated, applied, IsValid, AreValid};

use whips_rel::{InsertErr, NoMemory, Relation, Tuple, Update};

/// Puts the tuple in. Its key isn't there.
fn insert_row(relation: &mut Relation, tuple: &Tuple) -> Result<(), NoMemory>
    requires width { length tuple.now ≡ length relation.old.columns.kinds }
    requires absent { row_at relation.old.columns.key
        (at_columns relation.old.columns.key tuple.now) relation.old.rows ≡ None }
    ensures { OnOk result (relation.new ≡ with_row tuple.now relation.old) }
{
    match relation.insert(tuple.copy()?) {
        Ok(()) => Ok(()),
        Err(InsertErr::Present(_)) | Err(InsertErr::NoMemory(_)) => Err(NoMemory),
    }
}

/// Takes the row with the tuple's key out.
fn delete_row(relation: &mut Relation, tuple: &Tuple) -> Result<(), NoMemory>
    requires width { length tuple.now ≡ length relation.old.columns.kinds }
    ensures { OnOk result (relation.new ≡ without_row tuple.now relation.old) }
{
    let key = relation.schema().key_of(tuple)?;
    relation.delete_if_there(&key)?;
    Ok(())
}

/// Makes the update in the relations.
fn make_update(relations: &mut Vec<Relation>, update: &Update) -> Result<(), NoMemory>
    requires { IsValid relations.old.items update.now }
    ensures { OnOk result (relations.new.items ≡ updated relations.old.items update.now) }
{
    let relation = &mut relations[update.relation() as usize];
    match update {
        Update::Insert(_, tuple) => insert_row(relation, tuple),
        Update::Delete(_, tuple) => delete_row(relation, tuple),
    }
}

/// Makes the updates in the relations, one after another.
pub(crate) fn make_all(relations: &mut Vec<Relation>, updates: &[Update]) -> Result<(), NoMemory>
    requires { AreValid relations.old.items updates.now }
    ensures { OnOk result (relations.new.items ≡ applied relations.old.items updates.now) }
{
    for update in updates {
        make_update(relations, update)?;
    }
    Ok(())
}
