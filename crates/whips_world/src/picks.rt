//! What a turn of a picker may pick, counted and chosen without a list of it: the events of the core that can be done, and
//! then those of each session.
ghost use Rattle.std.specs.Prelude.{◌≡◌, ◌+◌, ◌≤◌, map, min, slice_get, length, OnSome, if◌then◌else◌};
ghost use Rattle.std.specs.List.{flat_map};
ghost use Rattle.whips_pick.specs.Picks.{next_state};
ghost use Rattle.whips_flow.specs.Facts.{Facts};
ghost use Rattle.whips_runs.specs.Picks.{picked_choice};
ghost use Rattle.whips_lists.specs.Lists.{places_from};
ghost use Rattle.whips_world.specs.Readers.{session_of};
ghost use Rattle.whips_world.specs.Picks.{choices_behind, session_choices, choices_here};

use crate::readers::{Reader, is_closed_at, is_open_at, is_scanning_at};
use whips_core::Core;
use whips_flow::Event;
use whips_pick::Picker;
use whips_source::Site;
use whips_store::Store;

/// A pick is of at most so many.
const MOST_CHOICES: u64 = 65_536;

/// No scan is picked once so many were begun.
const MOST_SCANS: u32 = 1000;

/// How many slots a picked fetch visits.
const SLOTS: u32 = 64;

/// How many scans a session may begin.
fn count_scans(views: u32, may_scan: bool) -> u64
    ensures { result ≡ if may_scan then views else 0 }
{
    if may_scan { u64::from(views) } else { 0 }
}

/// How many events a turn may pick of the session, where there are so many views, and whether it may begin a scan.
fn count_of(readers: &[Reader], s: u32, views: u32, may_scan: bool) -> u64
    ensures count { result
        ≡ length (session_choices may_scan views s (slice_get (map session_of readers.now) s)) }
    ensures few { result ≤ views + 2 }
{
    if is_closed_at(readers, s) {
        return 1;
    }
    if !is_open_at(readers, s) {
        return 0;
    }
    let scans = count_scans(views, may_scan);
    if is_scanning_at(readers, s) {
        return scans + 2;
    }
    scans + 1
}

/// The event at this place, from 0, among those of an open session that aren't scans.
fn behind_scans(s: u32, is_scanning: bool, place: u64) -> Option<Event>
    ensures { result ≡ slice_get (choices_behind is_scanning s) place }
{
    match (is_scanning, place) {
        (true, 0) => Some(Event::SessionFetch(s, SLOTS)),
        (true, 1) | (false, 0) => Some(Event::SessionClose(s)),
        _ => None,
    }
}

/// The event at this place, from 0, among those that a turn may pick of the session.
fn choice_of(readers: &[Reader], s: u32, views: u32, may_scan: bool, place: u64) -> Option<Event>
    ensures { result ≡ slice_get
        (session_choices may_scan views s (slice_get (map session_of readers.now) s)) place }
{
    if is_closed_at(readers, s) {
        return if place == 0 {
            Some(Event::SessionOpen(s))
        } else {
            None
        };
    }
    if !is_open_at(readers, s) {
        return None;
    }
    let scans = count_scans(views, may_scan);
    if place < scans {
        return Some(Event::SessionScan(s, place as u32));
    }
    behind_scans(s, is_scanning_at(readers, s), place - scans)
}

/// How many events a turn may pick of all sessions and `first` others, or the most that a pick is of.
pub(crate) fn count_choices(readers: &[Reader], views: u32, may_scan: bool, first: u64) -> u32
    ensures { result ≡ min 65536 (first + length (flat_map (λ s. session_choices may_scan views s
        (slice_get (map session_of readers.now) s)) (places_from 0 (length readers.now)))) }
{
    let mut count = first;
    for s in 0..readers.len() {
        if count >= MOST_CHOICES {
            return MOST_CHOICES as u32;
        }
        count += count_of(readers, s as u32, views, may_scan);
    }
    count.min(MOST_CHOICES) as u32
}

/// The event at this place, from 0, among those that a turn may pick of all sessions.
pub(crate) fn choice_at(readers: &[Reader], views: u32, may_scan: bool, place: u32) -> Option<Event>
    ensures { result ≡ slice_get (flat_map (λ s. session_choices may_scan views s
        (slice_get (map session_of readers.now) s)) (places_from 0 (length readers.now))) place }
{
    let mut left = u64::from(place);
    for s in 0..readers.len() {
        let count = count_of(readers, s as u32, views, may_scan);
        if left < count {
            return choice_of(readers, s as u32, views, may_scan, left);
        }
        left -= count;
    }
    None
}

/// The event of a turn, once so many scans were begun: the one that the picker picks among those that may be picked, where
/// there is one.
pub(crate) fn pick<T: Site, S: Store>(
    core: &Core<T, S>,
    readers: &[Reader],
    picker: &mut Picker,
    scans: u32,
) -> Option<Event>
    ensures event { (f : Facts) → length f.slots ≡ length core.now.setup.views
        → length f.transactions ≡ core.now.setup.sources
        → result ≡ picked_choice (next_state picker.old) (choices_here f core.now readers.now scans) }
    ensures moved { OnSome result (picker.new ≡ next_state picker.old) }
{
    let may_scan = scans < MOST_SCANS;
    let views = core.setup().views();
    let enabled = core.enabled_count() as u64;
    let count = count_choices(readers, views, may_scan, enabled);
    if count == 0 {
        return None;
    }
    let place = picker.pick(count);
    if u64::from(place) < enabled {
        core.enabled_at(place as usize)
    } else {
        choice_at(readers, views, may_scan, place - enabled as u32)
    }
}
