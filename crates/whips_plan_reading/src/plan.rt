//! The sessions of a script and its schedule.
ghost use Rattle.std.specs.Prelude.{◌≡◌, ◌≤◌, IfOk, length};
ghost use Rattle.serde_json.specs.View.{view};
ghost use Rattle.whips_reading.specs.Places.{path_steps};
ghost use Rattle.whips_reading.specs.Reading.{Answers};
ghost use Rattle.whips_plan_reading.specs.Plans.{plan_in};

use crate::names::Names;
use crate::schedule::read_schedule;
use crate::sessions::read_sessions;
use serde_json::Value;
use std::alloc::Global;
use std::marker::Model;
use whips_reading::{Path, ReadErr, Text};
use whips_setup::Plan;

/// The sessions of a script and its schedule.
#[derive(Drop)]
pub struct PlanForm {
    /// The names of the sessions.
    pub sessions: Vec<Text>,
    /// The schedule.
    pub plan: Plan,
}

impl Model for PlanForm {
    ghost use Rattle.whips_plan_reading.specs.Plans.{PlanForm as PlanData};

    ghost Value = { PlanData };

    ghost view = { λ p. record { sessions = p.sessions.items; plan = p.plan } };
}

/// The sessions of a document and its schedule, whose events are of sources and views of these names.
pub fn read_plan(
    alloc: Global,
    sources: &[Text],
    views: &[Text],
    path: &Path<'_>,
    document: &Value,
) -> Result<PlanForm, ReadErr>
    requires sources { length sources.now ≤ 8 }
    requires views { length views.now ≤ 8 }
    ensures made { Answers (λ p. p) result
        (plan_in sources.now views.now (path_steps path.now) (view document.now)) }
    ensures few { IfOk result (λ p. length p.sessions ≤ 8) }
{
    let sessions = read_sessions(alloc, &*path, document)?;
    let names = Names::of(sources, views, &sessions);
    let plan = read_schedule(alloc, &names, &*path, document)?;
    Ok(PlanForm { sessions, plan })
}
