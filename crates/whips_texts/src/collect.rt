//! Collecting the texts of a document.
ghost use Rattle.std.specs.Prelude.{◌≡◌, IfOk, OnOk};
ghost use Rattle.serde_json.specs.View.{view};
ghost use Rattle.whips_texts.specs.Dictionary.{with_source_relations, with_source_updates, with_document_sources, with_document_views, with_value, with_values, with_rows, with_relation, with_relations, with_update, with_updates, with_transaction, with_transactions, with_source, with_sources, with_condition, with_conditions, with_view, with_views, texts_of};

use crate::dict::{Dict, TextSet};
use serde_json::Value;
use std::alloc::Global;
use whips_reading::{Member, elements_of, optional};
use whips_rel::NoMemory;

/// Adds the text that a value is.
fn add_value<'a>(texts: &mut TextSet<'a>, value: &'a Value) -> Result<(), NoMemory>
    ensures { OnOk result (texts.new ≡ with_value texts.old (view value.now)) }
{
    match value.as_str() {
        Some(text) => texts.add(text),
        None => Ok(()),
    }
}

/// Adds the texts of a list of values.
fn add_values<'a>(texts: &mut TextSet<'a>, list: &'a Value) -> Result<(), NoMemory>
    ensures { OnOk result (texts.new ≡ with_values texts.old (view list.now)) }
{
    let Some(items) = elements_of(list) else {
        return Ok(());
    };
    for value in items {
        add_value(texts, value)?;
    }
    Ok(())
}

/// Adds the texts of rows.
fn add_rows<'a>(texts: &mut TextSet<'a>, list: &'a Value) -> Result<(), NoMemory>
    ensures { OnOk result (texts.new ≡ with_rows texts.old (view list.now)) }
{
    let Some(items) = elements_of(list) else {
        return Ok(());
    };
    for row in items {
        add_values(texts, row)?;
    }
    Ok(())
}

/// Adds the texts of a relation.
fn add_relation<'a>(texts: &mut TextSet<'a>, relation: &'a Value) -> Result<(), NoMemory>
    ensures { OnOk result (texts.new ≡ with_relation texts.old (view relation.now)) }
{
    match optional(relation, Member::Rows) {
        Some(list) => add_rows(texts, list),
        None => Ok(()),
    }
}

/// Adds the texts of relations.
fn add_relations<'a>(texts: &mut TextSet<'a>, list: &'a Value) -> Result<(), NoMemory>
    ensures { OnOk result (texts.new ≡ with_relations texts.old (view list.now)) }
{
    let Some(items) = elements_of(list) else {
        return Ok(());
    };
    for relation in items {
        add_relation(texts, relation)?;
    }
    Ok(())
}

/// Adds the texts of an update's values.
fn add_update<'a>(texts: &mut TextSet<'a>, update: &'a Value) -> Result<(), NoMemory>
    ensures { OnOk result (texts.new ≡ with_update texts.old (view update.now)) }
{
    match elements_of(update) {
        Some([_, _, values]) => add_values(texts, values),
        _ => Ok(()),
    }
}

/// Adds the texts of updates.
fn add_updates<'a>(texts: &mut TextSet<'a>, list: &'a Value) -> Result<(), NoMemory>
    ensures { OnOk result (texts.new ≡ with_updates texts.old (view list.now)) }
{
    let Some(items) = elements_of(list) else {
        return Ok(());
    };
    for update in items {
        add_update(texts, update)?;
    }
    Ok(())
}

/// Adds the texts of a transaction.
fn add_transaction<'a>(texts: &mut TextSet<'a>, transaction: &'a Value) -> Result<(), NoMemory>
    ensures { OnOk result (texts.new ≡ with_transaction texts.old (view transaction.now)) }
{
    match elements_of(transaction) {
        Some([_, updates]) => add_updates(texts, updates),
        Some([_, _, values]) => add_values(texts, values),
        _ => Ok(()),
    }
}

/// Adds the texts of transactions.
fn add_transactions<'a>(texts: &mut TextSet<'a>, list: &'a Value) -> Result<(), NoMemory>
    ensures { OnOk result (texts.new ≡ with_transactions texts.old (view list.now)) }
{
    let Some(items) = elements_of(list) else {
        return Ok(());
    };
    for transaction in items {
        add_transaction(texts, transaction)?;
    }
    Ok(())
}

/// Adds the texts of a source's relations.
fn add_source_relations<'a>(texts: &mut TextSet<'a>, source: &'a Value) -> Result<(), NoMemory>
    ensures { OnOk result (texts.new ≡ with_source_relations texts.old (view source.now)) }
{
    match optional(source, Member::Relations) {
        Some(list) => add_relations(texts, list),
        None => Ok(()),
    }
}

/// Adds the texts of a source's transactions.
fn add_source_updates<'a>(texts: &mut TextSet<'a>, source: &'a Value) -> Result<(), NoMemory>
    ensures { OnOk result (texts.new ≡ with_source_updates texts.old (view source.now)) }
{
    match optional(source, Member::Updates) {
        Some(list) => add_transactions(texts, list),
        None => Ok(()),
    }
}

/// Adds the texts of a source.
fn add_source<'a>(texts: &mut TextSet<'a>, source: &'a Value) -> Result<(), NoMemory>
    ensures { OnOk result (texts.new ≡ with_source texts.old (view source.now)) }
{
    add_source_relations(texts, source)?;
    add_source_updates(texts, source)
}

/// Adds the texts of sources.
fn add_sources<'a>(texts: &mut TextSet<'a>, list: &'a Value) -> Result<(), NoMemory>
    ensures { OnOk result (texts.new ≡ with_sources texts.old (view list.now)) }
{
    let Some(items) = elements_of(list) else {
        return Ok(());
    };
    for source in items {
        add_source(texts, source)?;
    }
    Ok(())
}

/// Adds the text of a condition's constant.
fn add_condition<'a>(texts: &mut TextSet<'a>, condition: &'a Value) -> Result<(), NoMemory>
    ensures { OnOk result (texts.new ≡ with_condition texts.old (view condition.now)) }
{
    match elements_of(condition) {
        Some([_, _, value]) => add_value(texts, value),
        _ => Ok(()),
    }
}

/// Adds the texts of conditions.
fn add_conditions<'a>(texts: &mut TextSet<'a>, list: &'a Value) -> Result<(), NoMemory>
    ensures { OnOk result (texts.new ≡ with_conditions texts.old (view list.now)) }
{
    let Some(items) = elements_of(list) else {
        return Ok(());
    };
    for condition in items {
        add_condition(texts, condition)?;
    }
    Ok(())
}

/// Adds the texts of a view.
fn add_view<'a>(texts: &mut TextSet<'a>, definition: &'a Value) -> Result<(), NoMemory>
    ensures { OnOk result (texts.new ≡ with_view texts.old (view definition.now)) }
{
    match optional(definition, Member::Where) {
        Some(list) => add_conditions(texts, list),
        None => Ok(()),
    }
}

/// Adds the texts of views.
fn add_views<'a>(texts: &mut TextSet<'a>, list: &'a Value) -> Result<(), NoMemory>
    ensures { OnOk result (texts.new ≡ with_views texts.old (view list.now)) }
{
    let Some(items) = elements_of(list) else {
        return Ok(());
    };
    for definition in items {
        add_view(texts, definition)?;
    }
    Ok(())
}

/// Adds the texts of a document's sources.
fn add_document_sources<'a>(texts: &mut TextSet<'a>, document: &'a Value) -> Result<(), NoMemory>
    ensures { OnOk result (texts.new ≡ with_document_sources texts.old (view document.now)) }
{
    match optional(document, Member::Sources) {
        Some(list) => add_sources(texts, list),
        None => Ok(()),
    }
}

/// Adds the texts of a document's views.
fn add_document_views<'a>(texts: &mut TextSet<'a>, document: &'a Value) -> Result<(), NoMemory>
    ensures { OnOk result (texts.new ≡ with_document_views texts.old (view document.now)) }
{
    match optional(document, Member::Views) {
        Some(list) => add_views(texts, list),
        None => Ok(()),
    }
}

/// The texts of a document.
pub fn collect_texts(alloc: Global, document: &Value) -> Result<Dict, NoMemory>
    ensures { IfOk result (λ d. d ≡ texts_of (view document.now)) }
{
    let mut texts = TextSet::new(alloc);
    add_document_sources(&mut texts, document)?;
    add_document_views(&mut texts, document)?;
    Dict::of(alloc, &texts)
}
