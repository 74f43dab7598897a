//! The views of a store at version 0.
ghost use Rattle.std.specs.Prelude.{◌≡◌, IfOk};
ghost use Rattle.std.specs.List.{AllByRecursion};
ghost use Rattle.whips_store.specs.First.{views_at_first};
ghost use Rattle.whips_plain.specs.Plain.{HasFewSlots};

use std::alloc::Global;
use whips_plain_store::PlainView;
use whips_rel::NoMemory;
use whips_setup::Setup;

/// The views with their values on the initial relations and the setup's slots.
pub(crate) fn first_views(alloc: Global, setup: &Setup) -> Result<Vec<PlainView>, NoMemory>
    ensures made { IfOk result (λ views. views.items
        ≡ views_at_first setup.now.initial setup.now.views setup.now.slots) }
    ensures slots { IfOk result (λ views. AllByRecursion HasFewSlots views.items) }
{
    let _sound = setup.sources();
    let mut views = Vec::new(alloc);
    for x in 0..setup.views() {
        let rows = setup.value(x).copy()?;
        views.push(PlainView::make(alloc, rows, setup.slots(x) as usize)?)?;
    }
    Ok(views)
}
