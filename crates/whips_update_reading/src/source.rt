//! The sources of a script.
ghost use Rattle.std.specs.Prelude.{◌≡◌, ◌+◌, ◌<◌, ◌≤◌, ◌++◌, IfOk, OnOk, map, length};
ghost use Rattle.serde_json.specs.View.{view};
ghost use Rattle.whips_reading.specs.declared.place.Member.TheVariants as member;
ghost use Rattle.whips_reading.specs.Places.{path_steps};
ghost use Rattle.whips_reading.specs.Reading.{Answers, within_or};
ghost use Rattle.whips_update_reading.specs.Updates.{IsScopeOf, transactions_added};
ghost use Rattle.whips_update_reading.specs.Sources.{AreSources, no_sources, with_homes, new_source_name, begun, source_work, with_source, source_added, sources_in};

use crate::update::{Scope, Work, read_transactions};
use serde_json::Value;
use std::alloc::Global;
use std::marker::Model;
use whips_reading::{
    Member, ObjectForm, Path, ReadErr, Text, elements, in_element, in_member, object, optional,
    read_fresh_name, required,
};
use whips_rel::{NoMemory, Relation, Trans};
use whips_relation_reading::{RelationForm, read_relations};
use whips_texts::Dict;

/// Sources.
#[derive(Drop)]
pub struct Sources {
    /// The name of each source.
    pub names: Vec<Text>,
    /// The source of each relation.
    pub homes: Vec<u32>,
    /// The relations of all sources with their initial rows.
    pub relations: Vec<RelationForm>,
    /// The same relations after all transactions.
    pub tables: Vec<Relation>,
    /// The transactions of each source.
    pub transactions: Vec<Vec<Trans>>,
}

impl Model for Sources {
    ghost use Rattle.std.specs.Prelude.{map};
    ghost use Rattle.whips_update_reading.specs.Sources.{Sources as SourcesData};

    ghost Value = { SourcesData };

    ghost view = { λ s. record {
      names = s.names.items;
      homes = s.homes.items;
      relations = s.relations.items;
      tables = s.tables.items;
      transactions = map (λ list. list.items) s.transactions.items;
    } };
}

impl Sources {
    /// No source yet.
    fn new(alloc: Global) -> Sources
        ensures { result ≡ no_sources }
    {
        Sources {
            names: Vec::new(alloc),
            homes: Vec::new(alloc),
            relations: Vec::new(alloc),
            tables: Vec::new(alloc),
            transactions: Vec::new(alloc),
        }
    }

    /// Adds the homes of the relations that stand last, which are those of the next source.
    fn add_homes(&mut self, alloc: Global) -> Result<(), NoMemory>
        requires few { length self.old.names < 8 }
        requires more { length self.old.homes ≤ length self.old.relations }
        ensures { OnOk result (self.new ≡ with_homes self.old) }
    {
        let home = self.names.len() as u32;
        let homes = vec![in alloc; home; self.relations.len() - self.homes.len()]?;
        self.homes.extend_from_slice(&homes)?;
        Ok(())
    }

    /// Ends a source, whose relations stand last.
    fn add(&mut self, alloc: Global, name: Text, work: Work) -> Result<(), NoMemory>
        requires few { length self.old.names < 8 }
        requires more { length self.old.homes ≤ length self.old.relations }
        ensures { OnOk result (self.new ≡ with_source self.old name work) }
    {
        self.add_homes(alloc)?;
        let Work {
            tables,
            transactions,
            made: _,
        } = work;
        self.names.push(name)?;
        self.tables = tables;
        self.transactions.push(transactions)?;
        Ok(())
    }
}

/// The name of a source, which none of these has.
fn read_source_name(
    alloc: Global,
    taken: &[Text],
    path: &Path<'_>,
    value: &Value,
) -> Result<Text, ReadErr>
    ensures { Answers (λ t. t) result
        (new_source_name taken.now (path_steps path.now) (view value.now)) }
{
    object(alloc, ObjectForm::Source, path, value)?;
    let name = required(alloc, path, value, Member::Name)?;
    let name = read_fresh_name(alloc, taken, &in_member(&*path, Member::Name), name)?;
    Ok(Text::of(alloc, name)?)
}

/// Puts copies of the relations behind these.
fn add_tables(tables: &mut Vec<Relation>, relations: &[RelationForm]) -> Result<(), NoMemory>
    ensures { OnOk result (tables.new.items
        ≡ tables.old.items ++ map (λ r. r.table) relations.now) }
{
    for relation in relations {
        tables.push(relation.relation().copy()?)?;
    }
    Ok(())
}

/// The relations of all sources so far before the first update of this source.
fn begin(scope: &Scope<'_>, tables: &mut Vec<Relation>) -> Result<Work, NoMemory>
    ensures { IfOk result (λ w. w ≡ begun scope.now tables.old.items) }
{
    let mut tables = std::mem::replace(tables, Vec::new(scope.alloc));
    add_tables(&mut tables, scope.relations)?;
    Ok(Work {
        tables,
        made: Vec::new(scope.alloc),
        transactions: Vec::new(scope.alloc),
    })
}

/// Makes the transactions of a source, of which there are none where the member is left out.
fn read_updates_member(
    scope: &Scope<'_>,
    work: &mut Work,
    path: &Path<'_>,
    value: &Value,
) -> Result<(), ReadErr>
    requires { IsScopeOf scope.now work.old.tables }
    ensures read { Answers (λ _. work.new) result
        (within_or work.old member.Updates (transactions_added scope.now work.old)
        (path_steps path.now) (view value.now)) }
    ensures count { OnOk result (length work.new.tables ≡ length work.old.tables) }
{
    match optional(value, Member::Updates) {
        Some(list) => read_transactions(scope, work, &in_member(&*path, Member::Updates), list),
        None => Ok(()),
    }
}

/// Makes the transactions of a source on the relations of the sources before it and its own.
fn read_work(
    scope: &Scope<'_>,
    tables: &mut Vec<Relation>,
    path: &Path<'_>,
    value: &Value,
) -> Result<Work, ReadErr>
    requires first { scope.now.first ≡ length tables.old.items }
    requires few { scope.now.first + length scope.now.relations ≤ 32 }
    ensures read { Answers (λ w. w) result
        (source_work scope.now tables.old.items (path_steps path.now) (view value.now)) }
    ensures count { IfOk result (λ w. length w.tables
        ≡ scope.now.first + length scope.now.relations) }
{
    let mut work = begin(scope, tables)?;
    read_updates_member(scope, &mut work, path, value)?;
    Ok(work)
}

/// Adds a source.
fn read_source(
    alloc: Global,
    texts: &Dict,
    sources: &mut Sources,
    path: &Path<'_>,
    value: &Value,
) -> Result<(), ReadErr>
    requires sources { AreSources sources.old }
    requires few { length sources.old.names < 8 }
    ensures read { Answers (λ _. sources.new) result
        (source_added texts.now sources.old (path_steps path.now) (view value.now)) }
    ensures sources { OnOk result (AreSources sources.new) }
    ensures one { OnOk result (length sources.new.names ≡ length sources.old.names + 1) }
{
    let name = read_source_name(alloc, &sources.names, path, value)?;
    let first = sources.relations.len();
    let list = required(alloc, path, value, Member::Relations)?;
    let place = in_member(&*path, Member::Relations);
    read_relations(alloc, texts, &mut sources.relations, &place, list)?;
    let scope = Scope {
        alloc,
        texts,
        relations: &sources.relations[first..],
        first,
    };
    let work = read_work(&scope, &mut sources.tables, path, value)?;
    sources.add(alloc, name, work)?;
    Ok(())
}

/// Adds the sources.
fn add_sources(
    alloc: Global,
    texts: &Dict,
    sources: &mut Sources,
    path: &Path<'_>,
    value: &Value,
) -> Result<(), ReadErr>
    requires { sources.old ≡ no_sources }
    ensures read { Answers (λ _. sources.new) result
        (sources_in texts.now (path_steps path.now) (view value.now)) }
    ensures sources { OnOk result (AreSources sources.new) }
    ensures few { OnOk result (length sources.new.names ≤ 8) }
{
    let items = elements(alloc, path, value, 1, 8)?;
    for (i, item) in items.iter().enumerate() {
        read_source(alloc, texts, sources, &in_element(&*path, i), item)?;
    }
    Ok(())
}

/// The 1 to 8 sources of a script, each with its relations and its transactions.
pub fn read_sources(
    alloc: Global,
    texts: &Dict,
    path: &Path<'_>,
    value: &Value,
) -> Result<Sources, ReadErr>
    ensures read { Answers (λ s. s) result
        (sources_in texts.now (path_steps path.now) (view value.now)) }
    ensures sources { IfOk result (λ s. AreSources s) }
    ensures few { IfOk result (λ s. length s.names ≤ 8) }
{
    let mut sources = Sources::new(alloc);
    add_sources(alloc, texts, &mut sources, path, value)?;
    Ok(sources)
}
