//! Updates and transactions of a source.
ghost use Rattle.std.specs.Prelude.{◌≡◌, ◌+◌, ◌<◌, ◌≤◌, [], IfOk, OnOk, length};
ghost use Rattle.serde_json.specs.View.{view};
ghost use Rattle.whips_states.specs.States.{updated};
ghost use Rattle.whips_reading.specs.Places.{path_steps};
ghost use Rattle.whips_reading.specs.Reading.{Answers};
ghost use Rattle.whips_update_reading.specs.Updates.{IsScopeOf, IsMadeIn, target_in, update_of, update_at, update_added, updates_added, all_added, entry_added, with_transaction, transaction_added, transactions_added};

use crate::row::{delete_row, insert_row};
use crate::target::{Change, Target, read_change};
use serde_json::Value;
use std::alloc::Global;
use std::marker::Model;
use whips_reading::{Code, Path, ReadErr, elements, in_element, is_text, list_of, refuse, triple};
use whips_rel::{NoMemory, Relation, Trans, Update};
use whips_relation_reading::{RelationForm, read_relation_name};
use whips_texts::Dict;

/// What the updates of a source are read with.
#[derive(Drop)]
pub struct Scope<'a> {
    /// Where memory comes from.
    pub alloc: Global,
    /// The texts of the script.
    pub texts: &'a Dict,
    /// The relations of the source.
    pub relations: &'a [RelationForm],
    /// The number of the first of them among the relations of all sources.
    pub first: usize,
}

impl<'a> Model for Scope<'a> {
    ghost use Rattle.whips_update_reading.specs.Updates.{Scope as ScopeData};

    ghost Value = { ScopeData };

    ghost view = { λ s. record { texts = s.texts.now; relations = s.relations.now; first = s.first } };
}

/// The relations of all sources so far after the updates made, the updates made of the transaction that is read, and
/// the transactions of the source before it.
#[derive(Drop)]
pub struct Work {
    pub(crate) tables: Vec<Relation>,
    pub(crate) made: Vec<Update>,
    pub(crate) transactions: Vec<Trans>,
}

impl Model for Work {
    ghost use Rattle.whips_update_reading.specs.Updates.{Work as WorkData};

    ghost Value = { WorkData };

    ghost view = { λ w. record { tables = w.tables.items; made = w.made.items; transactions = w.transactions.items } };
}

/// Makes the update in its relation.
fn make_update(
    scope: &Scope<'_>,
    relation: &mut Relation,
    target: Target,
    path: &Path<'_>,
    values: &Value,
) -> Result<Update, ReadErr>
    ensures update { Answers (λ u. u) result
        (update_of scope.now.texts relation.old target.relation target.change
        (path_steps path.now) (view values.now)) }
    ensures made { IfOk result (λ u. IsMadeIn target.relation relation.old u relation.new) }
{
    match target.change {
        Change::Insertion => {
            let row = insert_row(scope.alloc, scope.texts, relation, path, values)?;
            Ok(Update::Insert(target.relation, row))
        }
        Change::Deletion => {
            let row = delete_row(scope.alloc, scope.texts, relation, path, values)?;
            Ok(Update::Delete(target.relation, row))
        }
    }
}

/// Makes the update in the relation with its number.
fn update_at(
    scope: &Scope<'_>,
    tables: &mut Vec<Relation>,
    target: Target,
    path: &Path<'_>,
    values: &Value,
) -> Result<Update, ReadErr>
    requires { target.relation < length tables.old.items }
    ensures update { Answers (λ u. u) result
        (update_at scope.now.texts tables.old.items target.relation target.change
        (path_steps path.now) (view values.now)) }
    ensures made { IfOk result (λ u. tables.new.items ≡ updated tables.old.items u) }
    ensures count { length tables.new.items ≡ length tables.old.items }
{
    make_update(
        scope,
        &mut tables[target.relation as usize],
        target,
        path,
        values,
    )
}

/// What an update does to which relation, by its first two elements.
fn read_target(
    scope: &Scope<'_>,
    path: &Path<'_>,
    change: &Value,
    name: &Value,
) -> Result<Target, ReadErr>
    requires { scope.now.first + length scope.now.relations ≤ 32 }
    ensures target { Answers (λ t. t) result
        (target_in scope.now (path_steps path.now) (view change.now) (view name.now)) }
    ensures there { IfOk result (λ t. t.relation < scope.now.first + length scope.now.relations) }
{
    let change = read_change(scope.alloc, &in_element(&*path, 0), change)?;
    let place = read_relation_name(scope.alloc, scope.relations, &in_element(&*path, 1), name)?;
    Ok(Target {
        change,
        relation: (scope.first + place) as u32,
    })
}

/// Makes an update.
fn read_update(
    scope: &Scope<'_>,
    work: &mut Work,
    path: &Path<'_>,
    value: &Value,
) -> Result<(), ReadErr>
    requires { IsScopeOf scope.now work.old.tables }
    ensures read { Answers (λ _. work.new) result
        (update_added scope.now work.old (path_steps path.now) (view value.now)) }
    ensures count { length work.new.tables ≡ length work.old.tables }
{
    let (change, name, values) = triple(scope.alloc, path, value)?;
    let target = read_target(scope, &*path, change, name)?;
    let update = update_at(scope, &mut work.tables, target, path, values)?;
    work.made.push(update)?;
    Ok(())
}

/// Makes 1 to 16 updates.
fn read_updates(
    scope: &Scope<'_>,
    work: &mut Work,
    path: &Path<'_>,
    value: &Value,
) -> Result<(), ReadErr>
    requires { IsScopeOf scope.now work.old.tables }
    ensures read { Answers (λ _. work.new) result
        (updates_added scope.now work.old (path_steps path.now) (view value.now)) }
    ensures count { OnOk result (length work.new.tables ≡ length work.old.tables) }
{
    let items = elements(scope.alloc, path, value, 1, 16)?;
    for (i, item) in items.iter().enumerate() {
        read_update(scope, work, &in_element(&*path, i), item)?;
    }
    Ok(())
}

/// Makes the updates of a list of `all` and a list of updates.
fn read_all(
    scope: &Scope<'_>,
    work: &mut Work,
    path: &Path<'_>,
    word: &Value,
    list: &Value,
) -> Result<(), ReadErr>
    requires { IsScopeOf scope.now work.old.tables }
    ensures read { Answers (λ _. work.new) result
        (all_added scope.now work.old (path_steps path.now) (view word.now) (view list.now)) }
    ensures count { OnOk result (length work.new.tables ≡ length work.old.tables) }
{
    if is_text(word, "all") {
        return read_updates(scope, work, &in_element(&*path, 1), list);
    }
    Err(refuse(scope.alloc, path, Code::Shape))
}

/// Makes the updates of an entry: several, or one.
fn read_entry(
    scope: &Scope<'_>,
    work: &mut Work,
    path: &Path<'_>,
    value: &Value,
) -> Result<(), ReadErr>
    requires { IsScopeOf scope.now work.old.tables }
    ensures read { Answers (λ _. work.new) result
        (entry_added scope.now work.old (path_steps path.now) (view value.now)) }
    ensures count { OnOk result (length work.new.tables ≡ length work.old.tables) }
{
    match list_of(scope.alloc, path, value)? {
        [word, list] => read_all(scope, work, path, word, list),
        _ => read_update(scope, work, path, value),
    }
}

impl Work {
    /// Ends the transaction whose updates were made.
    fn end_transaction(&mut self, alloc: Global) -> Result<(), NoMemory>
        ensures { OnOk result (self.new ≡ with_transaction self.old) }
    {
        let items = std::mem::replace(&mut self.made, Vec::new(alloc));
        self.transactions.push(Trans { items })?;
        Ok(())
    }
}

/// Makes a transaction.
fn read_transaction(
    scope: &Scope<'_>,
    work: &mut Work,
    path: &Path<'_>,
    value: &Value,
) -> Result<(), ReadErr>
    requires { IsScopeOf scope.now work.old.tables }
    ensures read { Answers (λ _. work.new) result
        (transaction_added scope.now work.old (path_steps path.now) (view value.now)) }
    ensures count { OnOk result (length work.new.tables ≡ length work.old.tables) }
{
    read_entry(scope, work, path, value)?;
    work.end_transaction(scope.alloc)?;
    Ok(())
}

/// Makes up to 4,096 transactions.
pub(crate) fn read_transactions(
    scope: &Scope<'_>,
    work: &mut Work,
    path: &Path<'_>,
    value: &Value,
) -> Result<(), ReadErr>
    requires { IsScopeOf scope.now work.old.tables }
    ensures read { Answers (λ _. work.new) result
        (transactions_added scope.now work.old (path_steps path.now) (view value.now)) }
    ensures count { OnOk result (length work.new.tables ≡ length work.old.tables) }
{
    let items = elements(scope.alloc, path, value, 0, 4096)?;
    for (i, item) in items.iter().enumerate() {
        read_transaction(scope, work, &in_element(&*path, i), item)?;
    }
    Ok(())
}
