//! A script.
ghost use Rattle.std.specs.Prelude.{◌≡◌, ◌≤◌, [], true, IfOk, length, map};
ghost use Rattle.serde_json.specs.View.{view};
ghost use Rattle.whips_view.specs.ViewDefs.{is_within};
ghost use Rattle.whips_setup.specs.Refusals.{IsSetup};
ghost use Rattle.whips_setup.specs.Workloads.{IsWorkload};
ghost use Rattle.whips_reading.specs.Places.{path_steps};
ghost use Rattle.whips_reading.specs.Reading.{Answers};
ghost use Rattle.whips_script_reading.specs.Script.{labels_of, named_script, versions_in, sources_of, views_of, parts_in, setup_in, work_is_valid, script_of_parts, script_of};

use crate::views::{Ground, Views, schemas_of, tables_of};
use serde_json::Value;
use std::alloc::Global;
use std::marker::Model;
use whips_plan_reading::{PlanForm, read_plan};
use whips_reading::{
    Code, Member, ObjectForm, Path, ReadErr, Text, in_member, object, optional, read_document,
    read_number, refuse, required,
};
use whips_rel::Trans;
use whips_relation_reading::RelationForm;
use whips_setup::{BatchErr, Plan, Setup, SetupErr, Workload};
use whips_texts::{Dict, collect_texts};
use whips_update_reading::{Sources, read_sources};
use whips_view_reading::Basis;

/// How many versions stay readable where the script doesn't say.
const DEFAULT_VERSIONS: u32 = 2;

/// A script: sources with relations, their transactions, views, sessions and a schedule.
#[derive(Drop)]
pub struct Script {
    sources: Vec<Text>,
    setup: Setup,
    work: Workload,
    views: Vec<Text>,
    sessions: Vec<Text>,
    texts: Dict,
    relations: Vec<RelationForm>,
    plan: Plan,
}

impl Model for Script {
    ghost use Rattle.whips_script_reading.specs.Script.{NamedScript, labels_of, named_script};
    ghost use Rattle.whips_setup.specs.Workloads.{IsWorkload};

    ghost Value = { NamedScript };

    ghost view = { λ s. named_script s.setup s.work
        (labels_of s.sources.items s.views.items s.sessions.items s.texts) s.relations.items s.plan };

    ghost invariant = { λ s. IsWorkload s.setup s.work };
}

impl Script {
    /// The names of its sources.
    pub fn sources(&self) -> &[Text]
        ensures { result.now ≡ self.now.labels.sources }
    {
        &self.sources
    }

    /// The names of its views.
    pub fn views(&self) -> &[Text]
        ensures { result.now ≡ self.now.labels.views }
    {
        &self.views
    }

    /// The names of its sessions.
    pub fn sessions(&self) -> &[Text]
        ensures { result.now ≡ self.now.labels.sessions }
    {
        &self.sessions
    }

    /// The setup, the transactions and the plan, with the names of the sources, the views and the sessions, and
    /// the texts.
    pub fn into_parts(self) -> ScriptParts
        ensures parts { self ≡ named_script result.setup result.work
            (labels_of result.sources.items result.views.items result.sessions.items result.texts)
            self.relations result.plan }
        ensures setup { IsSetup result.setup }
        ensures work { IsWorkload result.setup result.work }
    {
        let _sound = self.setup.sources();
        ScriptParts {
            sources: self.sources,
            setup: self.setup,
            work: self.work,
            views: self.views,
            sessions: self.sessions,
            texts: self.texts,
            plan: self.plan,
        }
    }
}

/// What a script is made of. `Script::into_parts` says that the transactions are valid for the setup.
#[derive(Drop)]
pub struct ScriptParts {
    /// The names of the sources.
    pub sources: Vec<Text>,
    /// The sources with their relations, and the views over them with their slots.
    pub setup: Setup,
    /// The transactions of each source.
    pub work: Workload,
    /// The names of the views.
    pub views: Vec<Text>,
    /// The names of the sessions.
    pub sessions: Vec<Text>,
    /// The texts, by code.
    pub texts: Dict,
    /// Which events a run takes before it is drained.
    pub plan: Plan,
}

/// The parts of a document.
#[derive(Drop)]
struct Parts {
    versions: u32,
    sources: Sources,
    views: Views,
    plan: PlanForm,
}

impl Model for Parts {
    ghost use Rattle.whips_script_reading.specs.Script.{Parts as PartsData};

    ghost Value = { PartsData };

    ghost view = { λ p. record {
      versions = p.versions;
      sources = p.sources;
      views = p.views;
      plan = p.plan;
    } };
}

/// How many versions stay readable, 2 to 4.
fn read_versions(alloc: Global, path: &Path<'_>, document: &Value) -> Result<u32, ReadErr>
    ensures read { Answers (λ n. n) result
        (versions_in (path_steps path.now) (view document.now)) }
    ensures within { IfOk result (λ n. is_within 2 4 n ≡ true) }
{
    match optional(document, Member::Versions) {
        Some(number) => {
            let place = in_member(path, Member::Versions);
            Ok(read_number(alloc, &place, number, 2, 4)? as u32)
        }
        None => Ok(DEFAULT_VERSIONS),
    }
}

/// The sources of a document.
fn read_all_sources(
    alloc: Global,
    texts: &Dict,
    path: &Path<'_>,
    document: &Value,
) -> Result<Sources, ReadErr>
    ensures read { Answers (λ s. s) result
        (sources_of texts.now (path_steps path.now) (view document.now)) }
    ensures few { IfOk result (λ s. length s.names ≤ 8) }
    ensures relations { IfOk result (λ s. length s.relations ≤ 32) }
{
    let list = required(alloc, path, document, Member::Sources)?;
    read_sources(alloc, texts, &in_member(&*path, Member::Sources), list)
}

/// The views of a document over its sources.
fn read_all_views(
    alloc: Global,
    texts: &Dict,
    sources: &Sources,
    path: &Path<'_>,
    document: &Value,
) -> Result<Views, ReadErr>
    requires { length sources.now.relations ≤ 32 }
    ensures read { Answers (λ v. v) result
        (views_of texts.now sources.now (path_steps path.now) (view document.now)) }
    ensures few { IfOk result (λ v. length v.names ≤ 8) }
{
    let list = required(alloc, path, document, Member::Views)?;
    let basis = Basis {
        relations: &sources.relations,
        homes: &sources.homes,
        texts,
    };
    let ground = Ground::of(alloc, &basis)?;
    ground.read_views(&in_member(&*path, Member::Views), list)
}

/// The parts of a document.
fn read_parts(
    alloc: Global,
    texts: &Dict,
    path: &Path<'_>,
    document: &Value,
) -> Result<Parts, ReadErr>
    ensures read { Answers (λ p. p) result
        (parts_in texts.now (path_steps path.now) (view document.now)) }
    ensures few { IfOk result (λ p. length p.sources.names ≤ 8) }
    ensures versions { IfOk result (λ p. is_within 2 4 p.versions ≡ true) }
{
    object(alloc, ObjectForm::Document, path, document)?;
    let versions = read_versions(alloc, path, document)?;
    let sources = read_all_sources(alloc, texts, path, document)?;
    let views = read_all_views(alloc, texts, &sources, path, document)?;
    let plan = read_plan(alloc, &sources.names, &views.names, path, document)?;
    Ok(Parts {
        versions,
        sources,
        views,
        plan,
    })
}

/// The setup of the sources with these views, of which this many versions stay readable, and the names of the views.
fn make_setup(
    alloc: Global,
    path: &Path<'_>,
    versions: u32,
    sources: &Sources,
    views: Views,
) -> Result<(Vec<Text>, Setup), ReadErr>
    requires few { length sources.now.names ≤ 8 }
    requires versions { is_within 2 4 versions ≡ true }
    ensures made { Answers (λ p. p.1) result
        (setup_in versions sources.now views (path_steps path.now)) }
    ensures names { IfOk result (λ p. p.0.items ≡ views.names) }
{
    let schemas = schemas_of(alloc, &sources.relations)?;
    let initial = tables_of(alloc, &sources.relations)?;
    let homes = Vec::from_slice(alloc, &sources.homes)?;
    let count = sources.names.len() as u32;
    let Views {
        names,
        views,
        slots,
    } = views;
    let setup = match Setup::make(schemas, homes, initial, views, slots, count) {
        Ok(setup) => setup,
        Err(SetupErr::NoMemory) => return Err(ReadErr::NoMemory),
        Err(_) => return Err(refuse(alloc, path, Code::Unbuilt)),
    };
    match setup.with_versions(versions) {
        Ok(setup) => Ok((names, setup)),
        Err(_) => unreachable!(),
    }
}

/// The workload of these transactions.
fn make_work(
    alloc: Global,
    path: &Path<'_>,
    setup: &Setup,
    work: Vec<Vec<Trans>>,
) -> Result<Workload, ReadErr>
    ensures valid { Answers (λ _. tt) result
        (work_is_valid setup.now (map (λ ts. ts.items) work.items) (path_steps path.now)) }
    ensures made { IfOk result (λ w. (w ≡ map (λ ts. ts.items) work.items)
        × IsWorkload setup.now w) }
{
    match Workload::batched(setup, work) {
        Ok(work) => Ok(work),
        Err(BatchErr::NoMemory) => Err(ReadErr::NoMemory),
        Err(_) => Err(refuse(alloc, path, Code::Unbuilt)),
    }
}

/// The script that the parts of a document make, with its texts.
fn make_script(alloc: Global, texts: Dict, path: &Path<'_>, parts: Parts) -> Result<Script, ReadErr>
    requires few { length parts.sources.names ≤ 8 }
    requires versions { is_within 2 4 parts.versions ≡ true }
    ensures { Answers (λ s. s) result (script_of_parts texts (path_steps path.now) parts) }
{
    let Parts {
        versions,
        sources,
        views,
        plan,
    } = parts;
    let (views, setup) = make_setup(alloc, path, versions, &sources, views)?;
    let Sources {
        names,
        relations,
        transactions,
        homes: _,
        tables: _,
    } = sources;
    let work = make_work(alloc, path, &setup, transactions)?;
    let PlanForm { sessions, plan } = plan;
    Ok(Script {
        sources: names,
        setup,
        work,
        views,
        sessions,
        texts,
        relations,
        plan,
    })
}

/// The place of the whole document.
fn document_path<'a>() -> Path<'a>
    ensures { path_steps result ≡ [] }
{
    Path::Document
}

/// The script that the bytes are, or the refusal that comes first in them: its code, and the place where it stands.
pub fn read_script(alloc: Global, bytes: &[u8]) -> Result<Script, ReadErr>
    ensures { Answers (λ s. s) result (script_of bytes.now) }
{
    let document = read_document(alloc, bytes)?;
    let texts = collect_texts(alloc, &document)?;
    let path = document_path();
    let parts = read_parts(alloc, &texts, &path, &document)?;
    make_script(alloc, texts, &path, parts)
}

/// What a script is made of, lent.
impl Script {
    /// The texts, by code.
    pub fn texts(&self) -> &Dict
        ensures { result.now ≡ self.now.labels.texts }
    {
        &self.texts
    }

    /// The relations with the names of their columns.
    pub fn relations(&self) -> &[RelationForm]
        ensures { result.now ≡ self.now.relations }
    {
        &self.relations
    }

    /// The sources with their relations, and the views over them with their slots.
    pub fn setup(&self) -> &Setup
        ensures { result.now ≡ self.now.script.setup }
    {
        &self.setup
    }

    /// The transactions of each source.
    pub fn work(&self) -> &Workload
        ensures work { result.now ≡ self.now.script.work }
        ensures valid { IsWorkload self.now.script.setup self.now.script.work }
    {
        &self.work
    }

    /// Which events are done before the run is drained.
    pub fn plan(&self) -> &Plan
        ensures { result.now ≡ self.now.plan }
    {
        &self.plan
    }
}
