//! The sessions of a script.
ghost use Rattle.std.specs.Prelude.{◌≡◌, ◌≤◌, ◌<◌, ◌+◌, ◌^◌, [], IfOk, OnOk, map, length};
ghost use Rattle.serde_json.specs.View.{view};
ghost use Rattle.whips_reading.specs.Places.{path_steps};
ghost use Rattle.whips_reading.specs.Reading.{Answers, in_turn};
ghost use Rattle.whips_plan_reading.specs.Sessions.{session_added, sessions_in, sessions_of};

use serde_json::Value;
use std::alloc::Global;
use whips_reading::{
    Code, Member, Path, ReadErr, Text, elements, in_element, in_member, optional, read_fresh_name,
    refuse,
};

/// Adds a session by its name, which is a new one and not `end`.
fn add_session(
    alloc: Global,
    sessions: &mut Vec<Text>,
    path: &Path<'_>,
    value: &Value,
) -> Result<(), ReadErr>
    ensures made { Answers (λ _. sessions.new.items) result
        (session_added sessions.old.items (path_steps path.now) (view value.now)) }
    ensures count { OnOk result (length sessions.new.items ≡ length sessions.old.items + 1) }
{
    let name = read_fresh_name(alloc, sessions, path, value)?;
    if name == "end" {
        return Err(refuse(alloc, path, Code::Name));
    }
    sessions.push(Text::of(alloc, name)?)?;
    Ok(())
}

/// Adds sessions, of which the first is element number `i` of the list.
fn add_sessions_from(
    alloc: Global,
    sessions: &mut Vec<Text>,
    path: &Path<'_>,
    i: usize,
    items: &[Value],
) -> Result<(), ReadErr>
    requires end { i + length items.now < 2 ^ 64 }
    ensures made { Answers (λ _. sessions.new.items) result (in_turn session_added
        (path_steps path.now) i sessions.old.items (map view items.now)) }
    ensures count { OnOk result (length sessions.new.items
        ≡ length sessions.old.items + length items.now) }
{
    match items {
        [] => Ok(()),
        [item, rest @ ..] => {
            add_session(alloc, sessions, &in_element(&*path, i), item)?;
            add_sessions_from(alloc, sessions, &*path, i + 1, rest)
        }
    }
}

/// Adds up to 8 sessions.
fn add_sessions(
    alloc: Global,
    sessions: &mut Vec<Text>,
    path: &Path<'_>,
    value: &Value,
) -> Result<(), ReadErr>
    requires { sessions.old.items ≡ [] }
    ensures made { Answers (λ _. sessions.new.items) result
        (sessions_in (path_steps path.now) (view value.now)) }
    ensures few { OnOk result (length sessions.new.items ≤ 8) }
{
    let items = elements(alloc, path, value, 0, 8)?;
    add_sessions_from(alloc, sessions, path, 0, items)
}

/// The names of the sessions of a document, of which there are none where the member is left out.
pub fn read_sessions(alloc: Global, path: &Path<'_>, document: &Value) -> Result<Vec<Text>, ReadErr>
    ensures made { Answers (λ s. s.items) result
        (sessions_of (path_steps path.now) (view document.now)) }
    ensures few { IfOk result (λ s. length s.items ≤ 8) }
{
    let mut sessions = Vec::new(alloc);
    if let Some(list) = optional(document, Member::Sessions) {
        add_sessions(
            alloc,
            &mut sessions,
            &in_member(path, Member::Sessions),
            list,
        )?;
    }
    Ok(sessions)
}
