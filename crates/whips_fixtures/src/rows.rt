//! Schemas, and relations of pairs.
ghost use Rattle.std.specs.Prelude.{◌≡◌, length, IfOk};
ghost use Rattle.whips_model.specs.Tuples.{AreColumns};
ghost use Rattle.whips_fixtures.specs.Pairs.{pair_columns, no_pairs, three_columns};

use std::alloc::Global;
use whips_rel::{InsertErr, Kind, Kinds, NoMemory, Places, Relation, Schema, Tuple};

/// Columns of these kinds with the key at these places.
pub fn schema(alloc: Global, kinds: &[Kind], key: &[u32]) -> Result<Schema, NoMemory>
    requires { AreColumns kinds.now key.now }
    ensures { IfOk result (λ s. s ≡ record { kinds = kinds.now; key = key.now }) }
{
    let kinds = Kinds::of(Vec::from_slice(alloc, kinds)?);
    Ok(Schema::make(kinds, Places::of(Vec::from_slice(alloc, key)?)))
}

/// Two number columns, of which the first is the key.
pub fn pair_schema(alloc: Global) -> Result<Schema, NoMemory>
    ensures { IfOk result (λ s. s ≡ pair_columns) }
{
    schema(alloc, &[Kind::Number, Kind::Number], &[0])
}

/// The schemas of three relations of pairs.
pub fn pair_schemas(alloc: Global) -> Result<Vec<Schema>, NoMemory>
    ensures { IfOk result (λ s. s.items ≡ three_columns) }
{
    let mut schemas = Vec::new(alloc);
    schemas.push(pair_schema(alloc)?)?;
    schemas.push(pair_schema(alloc)?)?;
    schemas.push(pair_schema(alloc)?)?;
    Ok(schemas)
}

/// The relation of no pair.
pub fn no_pairs(alloc: Global) -> Result<Relation, NoMemory>
    ensures { IfOk result (λ r. r ≡ no_pairs) }
{
    Relation::new(alloc, pair_schema(alloc)?)
}

/// Puts a pair in.
fn put(alloc: Global, relation: &mut Relation, pair: (u64, u64)) -> Result<(), NoMemory>
    requires { relation.old.columns ≡ pair_columns }
    ensures { relation.new.columns ≡ pair_columns }
{
    match relation.insert(Tuple::from_slice(alloc, &[pair.0, pair.1])?) {
        Ok(()) => Ok(()),
        Err(InsertErr::Present(_)) | Err(InsertErr::NoMemory(_)) => Err(NoMemory),
    }
}

/// The relation of these pairs, no two of which have one key.
pub fn pairs(alloc: Global, rows: &[(u64, u64)]) -> Result<Relation, NoMemory>
    ensures { IfOk result (λ r. r.columns ≡ pair_columns) }
{
    let mut relation = no_pairs(alloc)?;
    for row in rows {
        put(alloc, &mut relation, *row)?;
    }
    Ok(relation)
}

/// The relations of these pairs.
pub fn relations(alloc: Global, rows: &[&[(u64, u64)]]) -> Result<Vec<Relation>, NoMemory>
    ensures { IfOk result (λ v. length v.items ≡ length rows.now) }
{
    let mut relations = Vec::new(alloc);
    for list in rows {
        relations.push(pairs(alloc, list)?)?;
    }
    Ok(relations)
}

/// Whether the rows have these codes, row by row.
pub fn are_rows(rows: &[Tuple], codes: &[&[u64]]) -> bool {
    rows.len() == codes.len()
        && rows
            .iter()
            .zip(codes)
            .all(|(row, wanted)| row.codes() == *wanted)
}
