//! Relations with their initial rows.
ghost use Rattle.std.specs.Prelude.{◌≡◌, ◌+◌, ◌<◌, ◌≤◌, IfOk, IfSome, OnOk, Some, None, length};
ghost use Rattle.serde_json.specs.View.{view};
ghost use Rattle.whips_model.specs.Tuples.{AreColumns};
ghost use Rattle.whips_reading.specs.declared.place.Member.TheVariants as member;
ghost use Rattle.whips_reading.specs.Places.{path_steps};
ghost use Rattle.whips_reading.specs.Reading.{Answers, within_or};
ghost use Rattle.whips_reading.specs.Names.{is_among, place_of, fresh_name, named};
ghost use Rattle.whips_relation_reading.specs.Rows.{rows_in};
ghost use Rattle.whips_relation_reading.specs.Relations.{relation_names, new_name, no_rows, empty_relation, relation_in, relation_added, relations_added};

use crate::columns::{NamedColumns, read_columns};
use crate::key::read_key;
use crate::rows::read_rows;
use serde_json::Value;
use std::alloc::Global;
use std::marker::Model;
use whips_reading::{
    Code, Member, ObjectForm, Path, ReadErr, Text, elements, in_element, in_member, object,
    optional, read_fresh_name, read_text, refuse, required,
};
use whips_rel::{Kinds, NoMemory, Places, Relation, Schema};
use whips_texts::Dict;

/// A relation with its name and the names of its columns.
#[derive(Drop)]
pub struct RelationForm {
    /// Its name.
    pub name: Text,
    /// The names of its columns.
    pub columns: Vec<Text>,
    /// Its columns, its key and its initial rows.
    pub relation: Relation,
}

impl Model for RelationForm {
    ghost use Rattle.whips_relation_reading.specs.Relations.{RelationForm as RelationData};

    ghost Value = { RelationData };

    ghost view = { λ r. record { name = r.name; columns = r.columns.items; table = r.relation } };
}

impl RelationForm {
    /// The name of the relation.
    pub fn name(&self) -> &Text
        ensures { result.now ≡ self.now.name }
    {
        &self.name
    }

    /// The names of its columns.
    pub fn columns(&self) -> &[Text]
        ensures { result.now ≡ self.now.columns }
    {
        &self.columns
    }

    /// The relation with its initial rows.
    pub fn relation(&self) -> &Relation
        ensures { result.now ≡ self.now.table }
    {
        &self.relation
    }
}

/// Whether one of the relations has this name.
fn is_taken(relations: &[RelationForm], name: &str) -> bool
    ensures { result ≡ is_among (relation_names relations.now) name.now }
{
    match relations {
        [] => false,
        [first, rest @ ..] => first.name().as_str() == name || is_taken(rest, name),
    }
}

/// The place of the relation with this name.
fn place_of(relations: &[RelationForm], name: &str) -> Option<usize>
    ensures place { result ≡ place_of (relation_names relations.now) name.now }
    ensures there { IfSome result (λ i. i < length relations.now) }
{
    match relations {
        [] => None,
        [first, rest @ ..] => {
            if first.name().as_str() == name {
                return Some(0);
            }
            match place_of(rest, name) {
                None => None,
                Some(place) => Some(place + 1),
            }
        }
    }
}

/// The place of the relation, one of these, that a name names.
pub fn read_relation_name(
    alloc: Global,
    relations: &[RelationForm],
    path: &Path<'_>,
    value: &Value,
) -> Result<usize, ReadErr>
    ensures place { Answers (λ i. i) result
        (named (relation_names relations.now) (path_steps path.now) (view value.now)) }
    ensures there { IfOk result (λ i. i < length relations.now) }
{
    let name = read_text(alloc, path, value)?;
    match place_of(relations, name) {
        Some(place) => Ok(place),
        None => Err(refuse(alloc, path, Code::Name)),
    }
}

/// A name that none of the relations has.
fn read_free_name<'a>(
    alloc: Global,
    relations: &[RelationForm],
    path: &Path<'_>,
    value: &'a Value,
) -> Result<&'a str, ReadErr>
    ensures { Answers (λ t. t.now) result
        (fresh_name (relation_names relations.now) (path_steps path.now) (view value.now)) }
{
    let name = read_fresh_name(alloc, &[], &*path, value)?;
    if is_taken(relations, name) {
        return Err(refuse(alloc, path, Code::Name));
    }
    Ok(name)
}

/// The name of a relation, which none of these has.
fn read_new_name(
    alloc: Global,
    relations: &[RelationForm],
    path: &Path<'_>,
    value: &Value,
) -> Result<Text, ReadErr>
    ensures { Answers (λ t. t) result
        (new_name relations.now (path_steps path.now) (view value.now)) }
{
    object(alloc, ObjectForm::Relation, path, value)?;
    let name = required(alloc, path, value, Member::Name)?;
    let name = read_free_name(alloc, relations, &in_member(&*path, Member::Name), name)?;
    Ok(Text::of(alloc, name)?)
}

/// The relation with these columns and no rows, and the names of the columns.
fn make_empty(
    alloc: Global,
    columns: NamedColumns,
    key: Vec<u32>,
) -> Result<(Vec<Text>, Relation), NoMemory>
    requires { AreColumns columns.kinds key.items }
    ensures names { IfOk result (λ r. r.0.items ≡ columns.names) }
    ensures relation { IfOk result (λ r. r.1 ≡ no_rows columns key.items) }
{
    let NamedColumns { names, kinds } = columns;
    let schema = Schema::make(Kinds::of(kinds), Places::of(key));
    Ok((names, Relation::new(alloc, schema)?))
}

/// The columns and the key of a relation, as a relation with no rows, and the names of the columns.
fn read_empty(
    alloc: Global,
    path: &Path<'_>,
    value: &Value,
) -> Result<(Vec<Text>, Relation), ReadErr>
    ensures { Answers (λ r. (r.0.items, r.1)) result
        (empty_relation (path_steps path.now) (view value.now)) }
{
    let columns = required(alloc, path, value, Member::Columns)?;
    let columns = read_columns(alloc, &in_member(&*path, Member::Columns), columns)?;
    let key = required(alloc, path, value, Member::Key)?;
    let key = read_key(alloc, &columns.names, &in_member(&*path, Member::Key), key)?;
    Ok(make_empty(alloc, columns, key)?)
}

/// Adds the rows of a relation, of which there are none where the member is left out.
fn read_rows_member(
    alloc: Global,
    texts: &Dict,
    relation: &mut Relation,
    path: &Path<'_>,
    value: &Value,
) -> Result<(), ReadErr>
    ensures { Answers (λ _. relation.new) result
        (within_or relation.old member.Rows (rows_in texts.now relation.old)
        (path_steps path.now) (view value.now)) }
{
    match optional(value, Member::Rows) {
        Some(rows) => read_rows(
            alloc,
            texts,
            relation,
            &in_member(&*path, Member::Rows),
            rows,
        ),
        None => Ok(()),
    }
}

/// A relation whose name none of these has.
fn read_relation(
    alloc: Global,
    texts: &Dict,
    relations: &[RelationForm],
    path: &Path<'_>,
    value: &Value,
) -> Result<RelationForm, ReadErr>
    ensures { Answers (λ r. r) result
        (relation_in texts.now relations.now (path_steps path.now) (view value.now)) }
{
    let name = read_new_name(alloc, relations, path, value)?;
    let (columns, mut relation) = read_empty(alloc, path, value)?;
    read_rows_member(alloc, texts, &mut relation, path, value)?;
    Ok(RelationForm {
        name,
        columns,
        relation,
    })
}

/// Adds a relation.
fn add_relation(
    alloc: Global,
    texts: &Dict,
    relations: &mut Vec<RelationForm>,
    path: &Path<'_>,
    value: &Value,
) -> Result<(), ReadErr>
    ensures read { Answers (λ _. relations.new.items) result
        (relation_added texts.now relations.old.items (path_steps path.now) (view value.now)) }
    ensures one { OnOk result (length relations.new.items ≡ length relations.old.items + 1) }
{
    let relation = read_relation(alloc, texts, relations, path, value)?;
    relations.push(relation)?;
    Ok(())
}

/// Adds the 1 to 4 relations of a source behind those of the sources before it.
pub fn read_relations(
    alloc: Global,
    texts: &Dict,
    relations: &mut Vec<RelationForm>,
    path: &Path<'_>,
    value: &Value,
) -> Result<(), ReadErr>
    ensures read { Answers (λ _. relations.new.items) result
        (relations_added texts.now relations.old.items (path_steps path.now) (view value.now)) }
    ensures behind { OnOk result (length relations.old.items ≤ length relations.new.items) }
    ensures few { OnOk result (length relations.new.items ≤ length relations.old.items + 4) }
{
    let items = elements(alloc, path, value, 1, 4)?;
    for (i, item) in items.iter().enumerate() {
        add_relation(alloc, texts, relations, &in_element(&*path, i), item)?;
    }
    Ok(())
}
