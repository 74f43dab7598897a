//! Choices with pending keys are struck.
ghost use Rattle.std.specs.Prelude.{◌≡◌, ◌<◌, [], length, IfOk, slice_index_or};
ghost use Rattle.std.specs.List.{list_any, AllByRecursion};
ghost use Rattle.whips_choices.specs.Partials.{slot};
ghost use Rattle.whips_steps.specs.Answers.{has_key_at, unstruck, IsWhole};
ghost use Rattle.whips_view.specs.ViewDefs.{keyed};
ghost use Rattle.whips_view.specs.Widths.{widths_of};
ghost use Rattle.whips_open_queries.specs.Deletions.{pending_at};
ghost use Rattle.whips_strobe.specs.Strikes.{is_struck_at, HasWidths};

use crate::routed::RoutedView;
use whips_open_queries::Queries;
use whips_query::{Partial, Partials};
use whips_rel::NoMemory;

/// Whether the key of the tuple at the part, where there is one, is pending for the query at place `i`.
fn is_struck_at(
    view: &RoutedView,
    queries: &Queries,
    i: usize,
    partial: &Partial,
    part: u32,
) -> Result<bool, NoMemory>
    requires place { i < length queries.now }
    requires part { part < length view.now.bases }
    requires wide { HasWidths (widths_of view.now) partial.now }
    ensures { IfOk result (λ b. b ≡ is_struck_at
        (pending_at queries.now i)
        part
        (slice_index_or (keyed view.now).keys part [])
        (slot partial.now part)) }
{
    match partial.get(part) {
        None => Ok(false),
        Some(tuple) => {
            let key = view.base(part).key_of(tuple)?;
            Ok(queries.is_pending(i, &(part, key)))
        }
    }
}

/// Whether the partial choice has a key that is pending for the query at place `i`.
fn is_struck(
    view: &RoutedView,
    queries: &Queries,
    i: usize,
    partial: &Partial,
) -> Result<bool, NoMemory>
    requires place { i < length queries.now }
    requires width { length partial.now ≡ length view.now.bases }
    requires wide { HasWidths (widths_of view.now) partial.now }
    ensures { IfOk result (λ b.
        b ≡ list_any (has_key_at (keyed view.now) partial.now) (pending_at queries.now i)) }
{
    for part in 0..view.width() {
        if is_struck_at(view, queries, i, partial, part)? {
            return Ok(true);
        }
    }
    Ok(false)
}

/// The partial choices that have no key that is pending for the query at place `i`. Each choice takes one look-up for each
/// part, however many keys are pending.
pub fn unstruck(
    view: &RoutedView,
    queries: &Queries,
    i: usize,
    partials: &Partials,
) -> Result<Partials, NoMemory>
    requires place { i < length queries.now }
    requires whole { AllByRecursion (IsWhole (length view.now.bases)) partials.now }
    requires wide { AllByRecursion (HasWidths (widths_of view.now)) partials.now }
    ensures { IfOk result (λ ps.
        ps ≡ unstruck (keyed view.now) (pending_at queries.now i) partials.now) }
{
    let mut left = Partials::new(view.alloc());
    for place in 0..partials.len() {
        let struck = is_struck(view, queries, i, partials.at(place))?;
        if !struck {
            left.push(partials, place)?;
        }
    }
    Ok(left)
}
