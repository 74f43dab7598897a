//! A setup, and its making.
ghost use Rattle.std.specs.Prelude.{◌≡◌, ◌≢◌, ◌<◌, ◌≤◌, ◌+◌, ◌^◌, ◌++◌, [], ◌∷◌, true, false, length, slice_get, IfOk, IfErr, OnOk, None, Some, IfSome};
ghost use Rattle.std.specs.List.{AllByRecursion, list_all};
ghost use Rattle.whips_view.specs.ViewDefs.{View, is_within, HasBases};
ghost use Rattle.whips_setup.specs.Setups.{setup_of, view_value, view_values};
ghost use Rattle.whips_setup.specs.Refusals.{slots_refusal, setup_refusal, IsSetup};

use crate::SetupErr;
use crate::limits::{are_sources_within, are_views_within};
use std::alloc::Global;
use std::marker::Model;
use whips_rel::{NoMemory, Relation, Rows, Schema};
use whips_view::{Db, ViewDef};

/// The number of versions that stay readable, if none is said.
const VERSIONS: u32 = 2;

/// Sources with their relations, and views over them with their slots. It is always valid: within all limits, with a
/// slot for each initial row of each view.
#[derive(Drop)]
pub struct Setup {
    sources: u32,
    homes: Vec<u32>,
    initial: Db,
    views: Vec<ViewDef>,
    slots: Vec<u32>,
    versions: u32,
    values: Vec<Rows>,
}

impl Model for Setup {
    ghost use Rattle.whips_setup.specs.Setups.{SetupData};

    ghost Value = { SetupData };

    ghost use Rattle.std.specs.Prelude.{◌≡◌};
    ghost use Rattle.whips_setup.specs.Setups.{view_values};
    ghost use Rattle.whips_setup.specs.Refusals.{IsSetup};

    ghost view = { λ s. record {
      sources = s.sources;
      homes = s.homes.items;
      initial = s.initial;
      views = s.views.items;
      slots = s.slots.items;
      versions = s.versions;
    } };

    ghost invariant = { λ s. IsSetup (record {
      sources = s.sources;
      homes = s.homes.items;
      initial = s.initial;
      views = s.views.items;
      slots = s.slots.items;
      versions = s.versions;
    }) × (s.values.items ≡ view_values s.initial s.views.items) };
}

impl Setup {
    /// The setup of this many sources, of relations that are given by their schemas, the source of each and its initial
    /// rows, and of views with the number of slots of each. Two versions stay readable.
    ///
    /// `Limit` comes where there aren't 1 to 8 sources with 1 to 4 relations each; where there isn't one schema, home and
    /// initial relation for each relation; where a schema hasn't 1 to 8 columns and a key of one or more of them, none
    /// twice; where an initial relation has another schema, more than 4,096 tuples or a number above 999,999,999,999; where
    /// there aren't 1 to 8 views with 1 to 4,096 slots each; and where a view names a relation that isn't there, or with
    /// another home or schema. Otherwise `Slots` names the first view that has more initial rows than slots.
    pub fn make(
        schemas: Vec<Schema>,
        homes: Vec<u32>,
        initial: Vec<Relation>,
        views: Vec<ViewDef>,
        slots: Vec<u32>,
        sources: u32,
    ) -> Result<Setup, SetupErr>
        ensures made { IfOk result (λ s. (s
            ≡ setup_of sources homes.items initial.items views.items slots.items)
            × (setup_refusal schemas.items s ≡ None)) }
        ensures refused { IfErr result (λ e. e ≢ SetupErr.NoMemory
            → setup_refusal schemas.items
            (setup_of sources homes.items initial.items views.items slots.items) ≡ Some e) }
    {
        if !are_sources_within(sources, &homes, &schemas, &initial) {
            return Err(SetupErr::Limit);
        }
        if !are_views_within(&homes, &initial, &views, &slots) {
            return Err(SetupErr::Limit);
        }
        let initial = Db::of(initial);
        let mut values = Vec::new(*views.allocator());
        add_values(0, &initial, &views, &slots, &mut values)?;
        Ok(Setup {
            sources,
            homes,
            initial,
            views,
            slots,
            versions: VERSIONS,
            values,
        })
    }

    /// The number of sources. What every setup keeps is said here.
    pub fn sources(&self) -> u32
        ensures sources { result ≡ self.now.sources }
        ensures sound { IsSetup self.now }
    {
        self.sources
    }

    /// The number of relations.
    pub fn relations(&self) -> u32
        ensures { result ≡ length self.now.initial }
    {
        self.initial.len() as u32
    }

    /// The number of views.
    pub fn views(&self) -> u32
        ensures { result ≡ length self.now.views }
    {
        self.views.len() as u32
    }

    /// The number of versions that stay readable.
    pub fn versions(&self) -> u32
        ensures { result ≡ self.now.versions }
    {
        self.versions
    }

    /// The source of the relation.
    pub fn home(&self, rel: u32) -> u32
        requires { rel < length self.now.initial }
        ensures { slice_get self.now.homes rel ≡ Some result }
    {
        self.homes[rel as usize]
    }

    /// The schema of the relation.
    pub fn schema(&self, rel: u32) -> &Schema
        requires { rel < length self.now.initial }
        ensures { IfSome (slice_get self.now.initial rel) (λ table. table.columns ≡ result.now) }
    {
        self.initial.relation(rel).schema()
    }

    /// The relation with its initial rows.
    pub fn initial(&self, rel: u32) -> &Relation
        requires { rel < length self.now.initial }
        ensures { slice_get self.now.initial rel ≡ Some result.now }
    {
        self.initial.relation(rel)
    }

    /// The view of this number.
    pub fn view(&self, x: u32) -> &ViewDef
        requires { x < length self.now.views }
        ensures { slice_get self.now.views x ≡ Some result.now }
    {
        &self.views[x as usize]
    }

    /// The rows of the view of this number on the initial relations.
    pub fn value(&self, x: u32) -> &Rows
        requires { x < length self.now.views }
        ensures { (view : View) → slice_get self.now.views x ≡ Some view
            → result.now ≡ view_value self.now.initial view }
    {
        &self.values[x as usize]
    }

    /// The number of slots of the view of this number.
    pub fn slots(&self, x: u32) -> u32
        requires { x < length self.now.views }
        ensures { slice_get self.now.slots x ≡ Some result }
    {
        self.slots[x as usize]
    }

    /// The setup in which `n` versions stay readable, 2 to 4.
    pub fn with_versions(self, n: u32) -> Result<Setup, SetupErr>
        ensures made { IfOk result (λ s. (is_within 2 4 n ≡ true)
            × (s ≡ record self { versions = n })) }
        ensures limit { IfErr result (λ e. (is_within 2 4 n ≡ false) × (e ≡ SetupErr.Limit)) }
    {
        if !(2 <= n && n <= 4) {
            return Err(SetupErr::Limit);
        }
        let mut setup = self;
        setup.versions = n;
        Ok(setup)
    }

    /// The same setup again. The tuples of its relations are shared.
    pub fn copy(&self) -> Result<Setup, NoMemory>
        ensures { IfOk result (λ s. s ≡ self.now) }
    {
        let mut views = Vec::with_capacity(*self.views.allocator(), self.views.len())?;
        for view in &self.views {
            views.push(view.copy()?)?;
        }
        let values = copy_relations(*self.views.allocator(), &self.values)?;
        Ok(Setup {
            sources: self.sources,
            homes: Vec::from_slice(*self.homes.allocator(), &self.homes)?,
            initial: Db::of(self.initial_relations()?),
            views,
            slots: Vec::from_slice(*self.slots.allocator(), &self.slots)?,
            versions: self.versions,
            values,
        })
    }

    /// The source of each relation.
    pub(crate) fn homes(&self) -> &[u32]
        ensures homes { result.now ≡ self.now.homes }
        ensures each { length self.now.homes ≡ length self.now.initial }
    {
        &self.homes
    }

    /// The relations with their initial rows, lent.
    pub(crate) fn initial_rows(&self) -> &[Relation]
        ensures { result.now ≡ self.now.initial }
    {
        self.initial.relations()
    }

    /// The relations with their initial rows.
    pub(crate) fn initial_relations(&self) -> Result<Vec<Relation>, NoMemory>
        ensures { IfOk result (λ relations. relations.items ≡ self.now.initial) }
    {
        copy_relations(*self.homes.allocator(), self.initial_rows())
    }
}

/// The same relations again, shared.
fn copy_relations(alloc: Global, relations: &[Relation]) -> Result<Vec<Relation>, NoMemory>
    ensures { IfOk result (λ copies. copies.items ≡ relations.now) }
{
    let mut copies = Vec::with_capacity(alloc, relations.len())?;
    for relation in relations {
        copies.push(relation.copy()?)?;
    }
    Ok(copies)
}

/// Puts the rows at the end.
fn add_value(values: &mut Vec<Rows>, rows: Rows) -> Result<(), NoMemory>
    ensures { OnOk result (values.new.items ≡ values.old.items ++ rows ∷ []) }
{
    Ok(values.push(rows)?)
}

/// Puts the rows of each view on these relations at the end, where none has more of them than slots. The first view is
/// number `x`.
fn add_values(
    x: u32,
    initial: &Db,
    views: &[ViewDef],
    slots: &[u32],
    values: &mut Vec<Rows>,
) -> Result<(), SetupErr>
    requires numbers { x + length views.now < 2 ^ 32 }
    requires bases { AllByRecursion (λ view. HasBases view initial.now) views.now }
    requires slots { length slots.now ≡ length views.now }
    ensures ok { OnOk result ((slots_refusal x initial.now views.now slots.now ≡ None)
        × (values.new.items ≡ values.old.items ++ view_values initial.now views.now)) }
    ensures refused { IfErr result (λ e. e ≢ SetupErr.NoMemory
        → slots_refusal x initial.now views.now slots.now ≡ Some e) }
{
    match views {
        [] => Ok(()),
        [view, views @ ..] => match slots {
            [] => Ok(()),
            [most, slots @ ..] => {
                let rows = view.value(initial)?;
                if rows.len() > *most as usize {
                    return Err(SetupErr::Slots(x));
                }
                add_value(values, rows)?;
                add_values(x + 1, initial, views, slots, values)
            }
        },
    }
}
