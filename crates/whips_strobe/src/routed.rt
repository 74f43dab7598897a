//! A view with the sources that its queries ask.
ghost use Rattle.std.specs.Prelude.{◌≡◌, ◌<◌, ◌≤◌, length, slice_get, Some, IfOk};
ghost use Rattle.whips_steps.specs.Steps.{home, asked_sources};
ghost use Rattle.whips_view.specs.ViewDefs.{View, keyed};
ghost use Rattle.whips_strobe.specs.Routes.{routes_of};

use std::alloc::Global;
use std::marker::Model;
use whips_query::steps;
use whips_rel::{NoMemory, Places, Schema};
use whips_view::ViewDef;

/// A view, and as such it is seen, with the sources that a query from each of its parts asks, in order. They are found once
/// and for all. Behind them stand those of a query that began at none of the parts.
#[derive(Drop)]
pub struct RoutedView {
    view: ViewDef,
    routes: Vec<Places>,
}

impl Model for RoutedView {
    ghost use Rattle.std.specs.Prelude.{◌≡◌};
    ghost use Rattle.whips_view.specs.ViewDefs.{View};
    ghost use Rattle.whips_strobe.specs.Routes.{routes_of};

    ghost Value = { View };

    ghost view = { λ r. r.view };

    ghost invariant = { λ r. r.routes.items ≡ routes_of r.view };
}

/// The number of the view's relations.
fn width_of(view: &ViewDef) -> u32
    ensures width { result ≡ length view.now.bases }
    ensures few { result ≤ 4 }
{
    view.parts().relations().len() as u32
}

/// The sources that a query from this origin asks, in order.
fn route(alloc: Global, view: &ViewDef, origin: u32) -> Result<Places, NoMemory>
    ensures { IfOk result (λ sources. sources ≡ asked_sources (keyed view.now) origin) }
{
    let steps = steps(alloc, view, origin)?;
    let mut sources = Vec::with_capacity(alloc, steps.len())?;
    for step in &steps {
        sources.push(step.source)?;
    }
    Ok(Places::of(sources))
}

/// The sources by origin.
fn all_routes(alloc: Global, view: &ViewDef) -> Result<Vec<Places>, NoMemory>
    ensures { IfOk result (λ routes. routes.items ≡ routes_of view.now) }
{
    let mut routes = Vec::new(alloc);
    for origin in 0..width_of(view) + 1 {
        routes.push(route(alloc, view, origin)?)?;
    }
    Ok(routes)
}

impl RoutedView {
    /// The view with its sources.
    pub fn of(alloc: Global, view: ViewDef) -> Result<RoutedView, NoMemory>
        ensures { IfOk result (λ r. r ≡ view) }
    {
        let routes = all_routes(alloc, &view)?;
        Ok(RoutedView { view, routes })
    }

    /// The view alone.
    pub fn plain(&self) -> &ViewDef
        ensures { result.now ≡ self.now }
    {
        &self.view
    }

    /// The number of its relations.
    pub fn width(&self) -> u32
        ensures width { result ≡ length self.now.bases }
        ensures few { result ≤ 4 }
    {
        width_of(&self.view)
    }

    /// The schema of the relation at this part.
    pub fn base(&self, part: u32) -> &Schema
        requires { part < length self.now.bases }
        ensures { slice_get self.now.bases part ≡ Some result.now }
    {
        self.view.base(part)
    }

    /// The source of the relation at this part.
    pub fn home(&self, part: u32) -> u32
        requires { part < length self.now.bases }
        ensures { result ≡ home (keyed self.now) part }
    {
        self.view.parts().homes()[part as usize]
    }

    /// The sources that a query from this origin asks, in order.
    pub fn sources(&self, origin: u32) -> &[u32]
        ensures sources { result.now ≡ asked_sources (keyed self.now) origin }
        ensures few { length result.now ≤ 4 }
    {
        let place = self.width().min(origin);
        self.routes[place as usize].as_slice()
    }

    /// The allocator of its lists.
    pub fn alloc(&self) -> Global {
        *self.routes.allocator()
    }
}
