//! Sources.
ghost use Rattle.std.specs.Prelude.{◌≡◌, ◌+◌, ◌<◌, ◌^◌, ◌++◌, [], IfOk, OnOk, string_bytes, map, length, nat_lt, slice_index_or};
ghost use Rattle.serde_json.specs.View.{items_of};
ghost use Rattle.serde_json.specs.Written.{compact_text, items_text};
ghost use Rattle.whips_lists.specs.Lists.{map_with_place};
ghost use Rattle.whips_setup.specs.Workloads.{IsWorkload};
ghost use Rattle.whips_script_writing.specs.Objects.{list_data};
ghost use Rattle.whips_script_writing.specs.Relations.{relation_data, relations_of, source_data};

use crate::labels::Labels;
use crate::relation::push_relation;
use crate::text::{push_comma, push_member, push_plain, push_quoted};
use crate::update::push_transactions;
use std::alloc::{AllocError, Global};
use whips_reading::{Member, Text};
use whips_rel::Trans;
use whips_relation_reading::RelationForm;
use whips_setup::{Setup, Workload};

/// The relations of a script, and the source of each.
#[derive(Drop)]
struct Homed<'a> {
    homes: &'a [u32],
    relations: &'a [RelationForm],
}

/// The relations of source y, behind a comma where something stands before, and the end of their list.
fn push_relations_from(
    out: &mut String,
    labels: &Labels<'_>,
    y: usize,
    homed: &Homed<'_>,
    later: bool,
) -> Result<(), AllocError>
    ensures { OnOk result (string_bytes out.new ≡ string_bytes out.old
        ++ items_text later (items_of (map (relation_data labels.now)
        (relations_of y homed.now.homes.now homed.now.relations.now)))) }
{
    match homed.homes {
        [] => out.push(']'),
        [home, homes @ ..] => match homed.relations {
            [] => out.push(']'),
            [first, relations @ ..] => {
                let rest = Homed { homes, relations };
                if *home as usize == y {
                    push_comma(out, later)?;
                    push_relation(out, labels, first)?;
                    push_relations_from(out, labels, y, &rest, true)
                } else {
                    push_relations_from(out, labels, y, &rest, later)
                }
            }
        },
    }
}

/// The transactions of the source, of which there are none where it isn't there.
pub(crate) fn transactions_of<'a>(setup: &Setup, work: &'a Workload, y: usize) -> &'a [Trans]
    requires { IsWorkload setup.now work.now }
    ensures { result.now ≡ slice_index_or work.now y [] }
{
    if y < setup.sources() as usize {
        work.updates(y as u32)
    } else {
        &[]
    }
}

/// A source with its relations and its transactions.
#[derive(Drop)]
pub(crate) struct SourceForm<'a> {
    pub(crate) name: &'a str,
    pub(crate) homes: &'a [u32],
    pub(crate) relations: &'a [RelationForm],
    pub(crate) work: &'a [Trans],
}

/// A list of the relations of source y.
fn push_relations(
    out: &mut String,
    labels: &Labels<'_>,
    y: usize,
    source: &SourceForm<'_>,
) -> Result<(), AllocError>
    ensures { OnOk result (string_bytes out.new ≡ string_bytes out.old
        ++ compact_text (list_data (map (relation_data labels.now)
        (relations_of y source.now.homes.now source.now.relations.now)))) }
{
    let homed = Homed {
        homes: source.homes,
        relations: source.relations,
    };
    out.push('[')?;
    push_relations_from(out, labels, y, &homed, false)
}

/// Source y.
pub(crate) fn push_source(
    out: &mut String,
    labels: &Labels<'_>,
    y: usize,
    source: &SourceForm<'_>,
) -> Result<(), AllocError>
    ensures { OnOk result (string_bytes out.new ≡ string_bytes out.old
        ++ compact_text (source_data labels.now source.now.relations.now
        (relations_of y source.now.homes.now source.now.relations.now)
        source.now.name.now source.now.work.now)) }
{
    push_plain(out, "{")?;
    push_member(out, false, Member::Name)?;
    push_quoted(out, source.name)?;
    push_member(out, true, Member::Relations)?;
    push_relations(out, labels, y, source)?;
    push_member(out, true, Member::Updates)?;
    push_transactions(out, labels, source.relations, source.work)?;
    push_plain(out, "}")
}

/// The source of each relation.
pub(crate) fn homes_of(alloc: Global, setup: &Setup) -> Result<Vec<u32>, AllocError>
    ensures { IfOk result (λ homes. homes.items ≡ setup.now.homes) }
{
    let _sound = setup.sources();
    let mut homes = Vec::new(alloc);
    for r in 0..setup.relations() {
        homes.push(setup.home(r))?;
    }
    Ok(homes)
}
