//! Scripts.
ghost use Rattle.std.specs.Prelude.{◌≡◌, true, ◌+◌, ◌<◌, ◌^◌, ◌∷◌, ◌++◌, [], IfOk, OnOk, string_bytes, length, nat_lt, slice_get, slice_index_or};
ghost use Rattle.serde_json.specs.View.{items_of};
ghost use Rattle.serde_json.specs.Written.{compact_text, items_text, members_text};
ghost use Rattle.whips_lists.specs.Lists.{map_with_place};
ghost use Rattle.whips_reading.specs.declared.place.Member.TheVariants as member;
ghost use Rattle.whips_script_writing.specs.Objects.{list_data, text_list, members_data};
ghost use Rattle.whips_script_writing.specs.Views.{view_in};
ghost use Rattle.whips_script_writing.specs.Scripts.{schedule_data, source_at, view_at, with_versions, canonical};

use crate::labels::Labels;
use crate::schedule::push_plan;
use crate::source::{SourceForm, homes_of, push_source, transactions_of};
use crate::text::{push_comma, push_member, push_number, push_plain, push_texts};
use crate::view::{NamedView, push_view};
use std::alloc::{AllocError, Global};
use whips_reading::Member;
use whips_rel::NoMemory;
use whips_script_reading::{Script, Text};

/// Source y of a script, with its name.
fn push_source_at(
    out: &mut String,
    script: &Script,
    homes: &[u32],
    y: usize,
    name: &str,
) -> Result<(), AllocError>
    requires { homes.now ≡ script.now.script.setup.homes }
    ensures { OnOk result (string_bytes out.new ≡ string_bytes out.old
        ++ compact_text (source_at script.now y name.now)) }
{
    let source = SourceForm {
        name,
        homes,
        relations: script.relations(),
        work: transactions_of(script.setup(), script.work(), y),
    };
    push_source(out, &Labels::of(script), y, &source)
}

/// Sources, of which the first is y, each behind a comma where something stands before, and the end of their list.
fn push_sources_from(
    out: &mut String,
    script: &Script,
    homes: &[u32],
    y: usize,
    names: &[Text],
) -> Result<(), AllocError>
    requires homes { homes.now ≡ script.now.script.setup.homes }
    requires room { y + length names.now < 2 ^ 64 }
    ensures { OnOk result (string_bytes out.new ≡ string_bytes out.old
        ++ items_text (nat_lt 0 y) (items_of (map_with_place (source_at script.now) y names.now))) }
{
    match names {
        [] => out.push(']'),
        [first, rest @ ..] => {
            push_comma(out, 0 < y)?;
            push_source_at(out, script, homes, y, first.as_str())?;
            push_sources_from(out, script, homes, y + 1, rest)
        }
    }
}

/// A list of the sources.
fn push_sources(out: &mut String, script: &Script) -> Result<(), AllocError>
    ensures { OnOk result (string_bytes out.new ≡ string_bytes out.old
        ++ compact_text (list_data (map_with_place (source_at script.now) 0
        script.now.labels.sources))) }
{
    let homes = homes_of(*out.allocator(), script.setup())?;
    out.push('[')?;
    push_sources_from(out, script, &homes, 0, script.sources())
}

/// View x of a script, with its name.
fn push_view_at(out: &mut String, script: &Script, x: usize, name: &str) -> Result<(), AllocError>
    ensures { OnOk result (string_bytes out.new ≡ string_bytes out.old
        ++ compact_text (view_at script.now x name.now)) }
{
    let setup = script.setup();
    if x < setup.views() as usize {
        let form = NamedView {
            relations: script.relations(),
            name,
            view: setup.view(x as u32),
            slots: setup.slots(x as u32),
        };
        push_view(out, &Labels::of(script), &form)
    } else {
        out.push_str("null")
    }
}

/// Views, of which the first is x, each behind a comma where something stands before, and the end of their list.
fn push_views_from(
    out: &mut String,
    script: &Script,
    x: usize,
    names: &[Text],
) -> Result<(), AllocError>
    requires { x + length names.now < 2 ^ 64 }
    ensures { OnOk result (string_bytes out.new ≡ string_bytes out.old
        ++ items_text (nat_lt 0 x) (items_of (map_with_place (view_at script.now) x names.now))) }
{
    match names {
        [] => out.push(']'),
        [first, rest @ ..] => {
            push_comma(out, 0 < x)?;
            push_view_at(out, script, x, first.as_str())?;
            push_views_from(out, script, x + 1, rest)
        }
    }
}

/// A list of the views.
fn push_views(out: &mut String, script: &Script) -> Result<(), AllocError>
    ensures { OnOk result (string_bytes out.new ≡ string_bytes out.old
        ++ compact_text (list_data (map_with_place (view_at script.now) 0
        script.now.labels.views))) }
{
    out.push('[')?;
    push_views_from(out, script, 0, script.views())
}

/// The views and the end of the document, behind other members.
fn push_last(out: &mut String, script: &Script) -> Result<(), AllocError>
    ensures { OnOk result (string_bytes out.new ≡ string_bytes out.old ++ members_text true
        (members_data ((
          member.Views,
          list_data (map_with_place (view_at script.now) 0
              script.now.labels.views),
        ) ∷ []))) }
{
    push_member(out, true, Member::Views)?;
    push_views(out, script)?;
    out.push('}')
}

/// How many versions stay readable, where it isn't the default, the views and the end of the document, behind other
/// members.
fn push_versions_and_views(out: &mut String, script: &Script) -> Result<(), AllocError>
    ensures { OnOk result (string_bytes out.new ≡ string_bytes out.old ++ members_text true
        (members_data (with_versions script.now.script.setup.versions ((
          member.Views,
          list_data
              (map_with_place (view_at script.now) 0 script.now.labels.views),
        ) ∷ [])))) }
{
    let n = script.setup().versions();
    if n == 2 {
        push_last(out, script)
    } else {
        push_member(out, true, Member::Versions)?;
        push_number(out, n as u64)?;
        push_last(out, script)
    }
}

/// The schedule.
fn push_schedule(out: &mut String, script: &Script) -> Result<(), AllocError>
    ensures { OnOk result (string_bytes out.new ≡ string_bytes out.old
        ++ compact_text (schedule_data script.now.labels script.now.plan)) }
{
    push_plan(out, &Labels::of(script), script.plan())
}

/// The names of the sessions.
fn push_sessions(out: &mut String, script: &Script) -> Result<(), AllocError>
    ensures { OnOk result (string_bytes out.new ≡ string_bytes out.old
        ++ compact_text (text_list script.now.labels.sessions)) }
{
    push_texts(out, script.sessions())
}

/// The canonical text of a script.
fn push_script(out: &mut String, script: &Script) -> Result<(), AllocError>
    ensures { OnOk result (string_bytes out.new ≡ string_bytes out.old ++ canonical script.now) }
{
    push_plain(out, "{")?;
    push_member(out, false, Member::Schedule)?;
    push_schedule(out, script)?;
    push_member(out, true, Member::Sessions)?;
    push_sessions(out, script)?;
    push_member(out, true, Member::Sources)?;
    push_sources(out, script)?;
    push_versions_and_views(out, script)
}

/// The canonical text of a script: the compact JSON text of its data, with every member written but for `versions` where
/// it is 2, members in the order of their bytes, and initial rows in the order of their keys.
pub fn canonical_text(alloc: Global, script: &Script) -> Result<String, NoMemory>
    ensures { IfOk result (λ text. string_bytes text ≡ canonical script.now) }
{
    let mut out = String::new(alloc);
    push_script(&mut out, script)?;
    Ok(out)
}
