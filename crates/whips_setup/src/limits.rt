//! The checks of a setup's making.
ghost use Rattle.std.specs.Prelude.{◌≡◌, true, ◌<◌, ◌≤◌, ◌+◌, ◌^◌, length, nat_lt, slice_get, drop};
ghost use Rattle.std.specs.List.{AllByRecursion, list_all};
ghost use Rattle.whips_rel.specs.Chunks.{joined};
ghost use Rattle.whips_view.specs.ViewDefs.{is_within, IsWellFormed};
ghost use Rattle.whips_view.specs.Refusals.{is_same_kind};
ghost use Rattle.whips_setup.specs.Limits.{relations_at, have_relations, are_distinct, is_schema, are_same_kinds, are_same_places, are_same_columns, has_numbers_within, is_initial, are_initial, is_source, is_over, are_bases, has_bases, are_sources_within, are_views_within};

use whips_model::Kind;
use whips_rel::{Chunk, Relation, Schema, Tuple};
use whips_view::ViewDef;

/// The most sources.
const MAX_SOURCES: usize = 8;
/// The most views.
const MAX_VIEWS: usize = 8;
/// The most slots of a view.
const MAX_SLOTS: usize = 4_096;
/// The most columns of a relation.
const MAX_COLUMNS: usize = 8;
/// The most relations of a source.
const MAX_RELATIONS: usize = 4;
/// The most rows of an initial relation.
const MAX_ROWS: usize = 4_096;
/// The greatest number in a row.
const GREATEST: u64 = 999_999_999_999;

/// Whether `n` is 1 to `most`.
fn is_counted(n: usize, most: usize) -> bool
    ensures { result ≡ is_within 1 most n }
{
    1 <= n && n <= most
}

/// Whether each home is below the number of sources.
fn are_sources(homes: &[u32], sources: u32) -> bool
    ensures { result ≡ list_all (λ home. nat_lt home sources) homes.now }
{
    for home in homes {
        if *home >= sources {
            return false;
        }
    }
    true
}

/// How many relations the source has.
fn relations_at(homes: &[u32], source: u32) -> usize
    ensures count { result ≡ relations_at source homes.now }
    ensures bound { result ≤ length homes.now }
{
    match homes {
        [] => 0,
        [home, homes @ ..] => {
            let rest = relations_at(homes, source);
            if *home == source { 1 + rest } else { rest }
        }
    }
}

/// Whether each of the first sources has 1 to 4 relations.
fn have_relations(homes: &[u32], sources: u32) -> bool
    ensures { result ≡ have_relations sources homes.now }
{
    if sources == 0 {
        return true;
    }
    let last = sources - 1;
    is_counted(relations_at(homes, last), MAX_RELATIONS) && have_relations(homes, last)
}

/// Whether no column stands twice.
fn are_distinct(columns: &[u32]) -> bool
    ensures { result ≡ are_distinct columns.now }
{
    match columns {
        [] => true,
        [column, columns @ ..] => !columns.contains(column) && are_distinct(columns),
    }
}

/// Whether there are 1 to 8 columns, and a key that names none of them twice.
fn is_schema(schema: &Schema) -> bool
    ensures { result ≡ is_schema schema.now }
{
    is_counted(schema.kinds().len(), MAX_COLUMNS)
        && 1 <= schema.key().len()
        && are_distinct(schema.key())
}

/// Whether the kinds are the same.
fn is_same_kind(kind: Kind, other: Kind) -> bool
    ensures { result ≡ is_same_kind kind other }
{
    match kind {
        Kind::Number => match other {
            Kind::Number => true,
            Kind::Text => false,
        },
        Kind::Text => match other {
            Kind::Number => false,
            Kind::Text => true,
        },
    }
}

/// Whether the lists of kinds are the same.
fn are_same_kinds(kinds: &[Kind], others: &[Kind]) -> bool
    ensures { result ≡ are_same_kinds kinds.now others.now }
{
    match kinds {
        [] => others.is_empty(),
        [kind, kinds @ ..] => match others {
            [] => false,
            [other, others @ ..] => is_same_kind(*kind, *other) && are_same_kinds(kinds, others),
        },
    }
}

/// Whether the lists of places are the same.
fn are_same_places(places: &[u32], others: &[u32]) -> bool
    ensures { result ≡ are_same_places places.now others.now }
{
    match places {
        [] => others.is_empty(),
        [place, places @ ..] => match others {
            [] => false,
            [other, others @ ..] => *place == *other && are_same_places(places, others),
        },
    }
}

/// Whether the schemas have the same kinds and the same key.
fn are_same_columns(schema: &Schema, other: &Schema) -> bool
    ensures { result ≡ are_same_columns schema.now other.now }
{
    are_same_kinds(schema.kinds(), other.kinds()) && are_same_places(schema.key(), other.key())
}

/// Whether each number among the codes is at most the greatest.
pub(crate) fn has_numbers_within(kinds: &[Kind], codes: &[u64]) -> bool
    ensures { result ≡ has_numbers_within kinds.now codes.now }
{
    match kinds {
        [] => true,
        [kind, kinds @ ..] => match codes {
            [] => true,
            [code, codes @ ..] => match *kind {
                Kind::Number => *code <= GREATEST && has_numbers_within(kinds, codes),
                Kind::Text => has_numbers_within(kinds, codes),
            },
        },
    }
}

/// Whether the rows have no number above the greatest.
fn have_numbers_within(kinds: &[Kind], rows: &[Tuple]) -> bool
    ensures { result ≡ list_all (has_numbers_within kinds.now) rows.now }
{
    for row in rows {
        if !has_numbers_within(kinds, row.codes()) {
            return false;
        }
    }
    true
}

/// Whether the rows of all chunks have no number above the greatest.
fn all_within(kinds: &[Kind], chunks: &[Chunk]) -> bool
    ensures { result ≡ list_all (has_numbers_within kinds.now) (joined chunks.now) }
{
    match chunks {
        [] => true,
        [chunk, chunks @ ..] => {
            have_numbers_within(kinds, chunk.rows()) && all_within(kinds, chunks)
        }
    }
}

/// Whether the relation is over this schema, and within its limits.
fn is_initial(schema: &Schema, relation: &Relation) -> bool
    ensures { result ≡ is_initial schema.now relation.now }
{
    is_schema(schema)
        && are_same_columns(relation.schema(), schema)
        && relation.len() <= MAX_ROWS
        && all_within(relation.schema().kinds(), relation.chunks())
}

/// Whether the relations are over these schemas, one each, and within their limits.
fn are_initial(schemas: &[Schema], relations: &[Relation]) -> bool
    ensures { result ≡ are_initial schemas.now relations.now }
{
    match schemas {
        [] => relations.is_empty(),
        [schema, schemas @ ..] => match relations {
            [] => false,
            [relation, relations @ ..] => {
                is_initial(schema, relation) && are_initial(schemas, relations)
            }
        },
    }
}

/// Whether the relation is there, at this source.
pub(crate) fn is_source(source: u32, homes: &[u32], relation: u32) -> bool
    ensures { result ≡ is_source source (slice_get homes.now relation) }
{
    match homes.get(relation as usize) {
        Some(home) => *home == source,
        None => false,
    }
}

/// Whether the relation is there, over this schema.
fn is_over(schema: &Schema, relations: &[Relation], relation: u32) -> bool
    ensures { result ≡ is_over schema.now (slice_get relations.now relation) }
{
    match relations.get(relation as usize) {
        Some(relation) => are_same_columns(relation.schema(), schema),
        None => false,
    }
}

/// Whether the view's relations from this part on are there, at these sources and over the schemas of the view.
fn are_bases(
    at: &[u32],
    initial: &[Relation],
    view: &ViewDef,
    part: u32,
    relations: &[u32],
    homes: &[u32],
) -> bool
    requires parts { part + length relations.now ≡ length view.now.bases }
    requires bound { length view.now.bases < 2 ^ 32 }
    ensures { result ≡ are_bases at.now initial.now relations.now homes.now
        (drop part view.now.bases) }
{
    match relations {
        [] => true,
        [relation, relations @ ..] => match homes {
            [] => false,
            [home, homes @ ..] => {
                let base = view.base(part);
                if !is_source(*home, at, *relation) {
                    return false;
                }
                if !is_over(base, initial, *relation) {
                    return false;
                }
                are_bases(at, initial, view, part + 1, relations, homes)
            }
        },
    }
}

/// Whether the view is over these relations, which are at these sources. That it is well formed is said here.
fn has_bases(at: &[u32], initial: &[Relation], view: &ViewDef) -> bool
    ensures answer { result ≡ has_bases at.now initial.now view.now }
    ensures sound { IsWellFormed view.now }
{
    let parts = view.parts();
    are_bases(at, initial, view, 0, parts.relations(), parts.homes())
}

/// Whether each view is over these relations.
fn have_bases(at: &[u32], initial: &[Relation], views: &[ViewDef]) -> bool
    ensures answer { result ≡ list_all (has_bases at.now initial.now) views.now }
    ensures sound { result ≡ true → AllByRecursion IsWellFormed views.now }
{
    match views {
        [] => true,
        [view, views @ ..] => has_bases(at, initial, view) && have_bases(at, initial, views),
    }
}

/// Whether each number of slots is 1 to 4,096.
fn are_slots(slots: &[u32]) -> bool
    ensures { result ≡ list_all (is_within 1 4096) slots.now }
{
    match slots {
        [] => true,
        [slots_of_view, slots @ ..] => {
            is_counted(*slots_of_view as usize, MAX_SLOTS) && are_slots(slots)
        }
    }
}

/// Whether there are 1 to 8 sources, each relation is over its schema and at one of them, and each of them has 1 to 4
/// relations.
pub(crate) fn are_sources_within(
    sources: u32,
    homes: &[u32],
    schemas: &[Schema],
    initial: &[Relation],
) -> bool
    ensures { result ≡ are_sources_within sources homes.now schemas.now initial.now }
{
    is_counted(sources as usize, MAX_SOURCES)
        && homes.len() == schemas.len()
        && are_sources(homes, sources)
        && have_relations(homes, sources)
        && are_initial(schemas, initial)
}

/// Whether there are 1 to 8 views over these relations, each with 1 to 4,096 slots.
pub(crate) fn are_views_within(
    homes: &[u32],
    initial: &[Relation],
    views: &[ViewDef],
    slots: &[u32],
) -> bool
    ensures answer { result ≡ are_views_within homes.now initial.now views.now slots.now }
    ensures sound { result ≡ true → AllByRecursion IsWellFormed views.now }
{
    is_counted(views.len(), MAX_VIEWS)
        && slots.len() == views.len()
        && are_slots(slots)
        && have_bases(homes, initial, views)
}
