//! The checks of a view's making, each with its refusal.
ghost use Rattle.std.specs.Prelude.{◌≡◌, ◌<◌, ◌+◌, ◌^◌, true, false, length, map, is_some, Option, None, Some, IfErr, OnOk};
ghost use Rattle.std.specs.List.{list_any, list_all};
ghost use Rattle.std.specs.Option.{option_or};
ghost use Rattle.whips_view.specs.declared.error.ViewErr.{ViewErr};
ghost use Rattle.whips_view.specs.ViewDefs.{kind_of, is_within};
ghost use Rattle.whips_view.specs.Refusals.{limit_refusal, relation_refusal, twice_refusal, column_refusal, equality_columns, has_kind, joins_one_kind, tests_own_kind, is_column, key_refusal_at, key_refusal};

use crate::{ViewErr, ViewParts};
use whips_model::{ColRef, Cond, Kind};
use whips_rel::Schema;

/// The most relations of a view.
const MAX_RELATIONS: usize = 4;
/// The most equalities of a view, and the most conditions.
const MAX_TESTS: usize = 16;
/// The most out columns of a view.
const MAX_OUT: usize = 16;

/// Whether a list of `n` elements has 1 to `most`.
fn is_listed(n: usize, most: usize) -> bool
    ensures { result ≡ is_within 1 most n }
{
    1 <= n && n <= most
}

/// That each list has as many elements as it may.
pub fn check_limits(parts: &ViewParts) -> Result<(), ViewErr>
    ensures ok { OnOk result (limit_refusal parts.now ≡ None) }
    ensures refused { IfErr result (λ e. limit_refusal parts.now ≡ Some e) }
{
    if is_listed(parts.relations().len(), MAX_RELATIONS)
        && parts.homes().len() == parts.relations().len()
        && parts.equal().len() <= MAX_TESTS
        && parts.conds().len() <= MAX_TESTS
        && is_listed(parts.out().len(), MAX_OUT)
    {
        return Ok(());
    }
    Err(ViewErr::Limit)
}

/// That each relation has a schema.
pub fn check_relations(schemas: &[Schema], relations: &[u32]) -> Result<(), ViewErr>
    ensures ok { OnOk result (relation_refusal (length schemas.now) relations.now ≡ None) }
    ensures refused { IfErr result (λ e. relation_refusal (length schemas.now) relations.now
        ≡ Some e) }
{
    match relations {
        [] => Ok(()),
        [relation, relations @ ..] => {
            if *relation as usize >= schemas.len() {
                return Err(ViewErr::NoRelation(*relation));
            }
            check_relations(schemas, relations)
        }
    }
}

/// That no relation stands twice.
pub fn check_once(relations: &[u32]) -> Result<(), ViewErr>
    ensures ok { OnOk result (twice_refusal relations.now ≡ None) }
    ensures refused { IfErr result (λ e. twice_refusal relations.now ≡ Some e) }
{
    match relations {
        [] => Ok(()),
        [relation, relations @ ..] => {
            if relations.contains(relation) {
                return Err(ViewErr::TwiceUsed(*relation));
            }
            check_once(relations)
        }
    }
}

/// That each list has as many elements as it may, and that each relation has a schema and stands once.
pub fn check_lists(schemas: &[Schema], parts: &ViewParts) -> Result<(), ViewErr>
    ensures limits { OnOk result (limit_refusal parts.now ≡ None) }
    ensures relations { OnOk result (relation_refusal
        (length schemas.now) parts.now.relations ≡ None) }
    ensures once { OnOk result (twice_refusal parts.now.relations ≡ None) }
    ensures refused { IfErr result (λ e. (rest : Option ViewErr)
        → option_or (limit_refusal parts.now)
        (option_or (relation_refusal (length schemas.now) parts.now.relations)
        (option_or (twice_refusal parts.now.relations) rest)) ≡ Some e) }
{
    check_limits(parts)?;
    check_relations(schemas, parts.relations())?;
    check_once(parts.relations())
}

/// The kind of the column, where it is there.
pub fn kind_at(bases: &[Schema], at: ColRef) -> Option<Kind>
    ensures { result ≡ kind_of bases.now at }
{
    match bases.get(at.part as usize) {
        Some(base) => base.kinds().get(at.col as usize).copied(),
        None => None,
    }
}

/// That the column is there.
fn check_column(bases: &[Schema], at: ColRef) -> Result<(), ViewErr>
    ensures ok { OnOk result (is_some (kind_of bases.now at) ≡ true) }
    ensures refused { IfErr result (λ e. (is_some (kind_of bases.now at) ≡ false)
        × (e ≡ ViewErr.NoColumn at)) }
{
    if kind_at(bases, at).is_some() {
        return Ok(());
    }
    Err(ViewErr::NoColumn(at))
}

/// That both columns of each equality are there.
pub fn check_equal(bases: &[Schema], equal: &[(ColRef, ColRef)]) -> Result<(), ViewErr>
    ensures ok { OnOk result (column_refusal bases.now (equality_columns equal.now) ≡ None) }
    ensures refused { IfErr result (λ e. column_refusal bases.now (equality_columns equal.now)
        ≡ Some e) }
{
    match equal {
        [] => Ok(()),
        [pair, equal @ ..] => {
            check_column(bases, pair.0)?;
            check_column(bases, pair.1)?;
            check_equal(bases, equal)
        }
    }
}

/// That the column of each condition is there.
pub fn check_conds(bases: &[Schema], conds: &[Cond]) -> Result<(), ViewErr>
    ensures ok { OnOk result (column_refusal bases.now (map (λ c. c.at) conds.now) ≡ None) }
    ensures refused { IfErr result (λ e. column_refusal bases.now (map (λ c. c.at) conds.now)
        ≡ Some e) }
{
    match conds {
        [] => Ok(()),
        [cond, conds @ ..] => {
            check_column(bases, cond.at)?;
            check_conds(bases, conds)
        }
    }
}

/// That each out column is there.
pub fn check_out(bases: &[Schema], out: &[ColRef]) -> Result<(), ViewErr>
    ensures ok { OnOk result (column_refusal bases.now out.now ≡ None) }
    ensures refused { IfErr result (λ e. column_refusal bases.now out.now ≡ Some e) }
{
    match out {
        [] => Ok(()),
        [at, out @ ..] => {
            check_column(bases, *at)?;
            check_out(bases, out)
        }
    }
}

/// Whether the column has this kind.
fn is_of_kind(own: Option<Kind>, kind: Kind) -> bool
    ensures { result ≡ has_kind own kind }
{
    match own {
        None => false,
        Some(Kind::Number) => match kind {
            Kind::Number => true,
            Kind::Text => false,
        },
        Some(Kind::Text) => match kind {
            Kind::Number => false,
            Kind::Text => true,
        },
    }
}

/// Whether each equality joins columns of one kind.
pub fn join_one_kind(bases: &[Schema], equal: &[(ColRef, ColRef)]) -> bool
    ensures { result ≡ list_all (joins_one_kind bases.now) equal.now }
{
    match equal {
        [] => true,
        [pair, equal @ ..] => match kind_at(bases, pair.1) {
            None => false,
            Some(kind) => {
                is_of_kind(kind_at(bases, pair.0), kind) && join_one_kind(bases, equal)
            }
        },
    }
}

/// Whether the constant of each condition has the kind of its column.
pub fn test_own_kind(bases: &[Schema], conds: &[Cond]) -> bool
    ensures { result ≡ list_all (tests_own_kind bases.now) conds.now }
{
    match conds {
        [] => true,
        [cond, conds @ ..] => {
            is_of_kind(kind_at(bases, cond.at), cond.kind) && test_own_kind(bases, conds)
        }
    }
}

/// Whether the column is among the out columns.
fn has_column(out: &[ColRef], part: u32, column: u32) -> bool
    ensures { result ≡ list_any (is_column part column) out.now }
{
    out.iter().any(|at| at.part == part && at.col == column)
}

/// That each of the key columns of this relation is among the out columns.
fn check_key(out: &[ColRef], part: u32, relation: u32, key: &[u32]) -> Result<(), ViewErr>
    ensures ok { OnOk result (key_refusal_at out.now part relation key.now ≡ None) }
    ensures refused { IfErr result (λ e. key_refusal_at out.now part relation key.now ≡ Some e) }
{
    match key {
        [] => Ok(()),
        [column, key @ ..] => {
            if !has_column(out, part, *column) {
                return Err(ViewErr::KeyMissing(relation, *column));
            }
            check_key(out, part, relation, key)
        }
    }
}

/// That each key column of the relations from this part on is among the out columns.
pub fn check_keys(
    out: &[ColRef],
    part: u32,
    relations: &[u32],
    bases: &[Schema],
) -> Result<(), ViewErr>
    requires { part + length relations.now < 2 ^ 32 }
    ensures ok { OnOk result (key_refusal out.now part relations.now bases.now ≡ None) }
    ensures refused { IfErr result (λ e. key_refusal out.now part relations.now bases.now
        ≡ Some e) }
{
    match relations {
        [] => Ok(()),
        [relation, relations @ ..] => match bases {
            [] => Ok(()),
            [base, bases @ ..] => {
                check_key(out, part, *relation, base.key())?;
                check_keys(out, part + 1, relations, bases)
            }
        },
    }
}
