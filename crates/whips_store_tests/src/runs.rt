//! Runs, with what each slot shows worked by hand.
use crate::looks::shown;
use crate::start::store;
use crate::transactions::{Edits, begin, change_all, commit, publish};
use std::alloc::Global;
use whips_plain::Plain;
use whips_rel::{NoMemory, Tuple};
use whips_setup::SetupErr;
use whips_store::{Store, StoreErr};

/// The code of the key in the current rows of the view.
fn current(alloc: Global, store: &Plain, x: u32, key: u64) -> Result<Option<u64>, NoMemory> {
    if x >= store.views() {
        return Err(NoMemory);
    }
    let key = Tuple::from_slice(alloc, &[key])?;
    match store.current(x).get(&key) {
        Some(row) => Ok(row.codes().get(1).copied()),
        None => Ok(None),
    }
}

/// Whether the view shows this at the version.
fn shows(alloc: Global, store: &Plain, look: (u32, u64, &str)) -> Result<bool, NoMemory> {
    let (x, v, wanted) = look;
    Ok(shown(alloc, store, x, v)?.as_str() == wanted)
}

/// Whether each of these views shows this at the version.
fn all_show(alloc: Global, store: &Plain, looks: &[(u32, u64, &str)]) -> Result<bool, NoMemory> {
    let mut all = true;
    for look in looks {
        all &= shows(alloc, store, *look)?;
    }
    Ok(all)
}

/// Whether each of these views has this code now in the row of the key.
fn all_have(
    alloc: Global,
    store: &Plain,
    rows: &[(u32, u64, Option<u64>)],
) -> Result<bool, NoMemory> {
    let mut all = true;
    for (x, key, code) in rows {
        all &= current(alloc, store, *x, *key)? == *code;
    }
    Ok(all)
}

/// A store with too few slots for a transaction on both views, and how it is refused.
#[derive(Clone, Copy)]
struct Short {
    slots: [u32; 2],
    view: u32,
    before: &'static [(u32, u64, &'static str)],
}

/// Whether the transaction is refused, and the store is as before.
fn is_refused(alloc: Global, store: &mut Plain, short: Short) -> Result<bool, SetupErr> {
    let come: Edits = &[(1, None), (3, Some(5))];
    let full = StoreErr::Full {
        view: short.view,
        need: 3,
        have: 2,
    };
    let refused = commit(alloc, store, come, come)? == Err(full);
    Ok(refused & (store.left() == 0) & (store.phase() == 0) & all_show(alloc, store, short.before)?)
}

/// The store of so many slots is too small in this view.
const SHORT: [Short; 2] = [
    Short {
        slots: [4, 2],
        view: 1,
        before: &[(0, 0, "0: 1=5 2=5 - -"), (1, 0, "0: 1=5 2=5")],
    },
    Short {
        slots: [2, 2],
        view: 0,
        before: &[(0, 0, "0: 1=5 2=5"), (1, 0, "0: 1=5 2=5")],
    },
];

fn refuses(alloc: Global, short: Short) -> Result<bool, SetupErr> {
    let mut store = store(alloc, &short.slots, 2)?;
    is_refused(alloc, &mut store, short)
}

#[test]
fn a_view_that_is_short_of_slots_is_named(rt: HostRuntime) {
    for short in SHORT {
        assert!(rt;
            matches!(refuses(rt.alloc(), short), Ok(true)),
            "view {}",
            short.view
        );
    }
}

/// Whether a transaction on both views begins, and shows nothing of its changes before it is committed.
fn is_hidden(alloc: Global, store: &mut Plain) -> Result<bool, NoMemory> {
    let begun = begin(alloc, store, &[(1, None), (3, Some(5))], &[(2, Some(9))])? == Ok(());
    let left = store.left() == 3;
    change_all(store);
    Ok(
        begun
            & left
            & (store.left() == 0)
            & all_show(alloc, store, &[(0, 0, "1: 1=5 2=5 - -")])?
            & all_have(alloc, store, &[(0, 1, Some(5)), (1, 2, Some(5))])?,
    )
}

/// Whether both views show it once it is committed, and the version before as it was.
fn is_shown(alloc: Global, store: &mut Plain) -> Result<bool, NoMemory> {
    publish(store);
    let looks = [
        (0, 0, "2: 1=5 2=5 - -"),
        (0, 1, "2: - 2=5 3=5 -"),
        (1, 0, "2: 1=5 2=5 -"),
        (1, 1, "2: 1=5 2=9 -"),
    ];
    let rows = [(0, 1, None), (0, 3, Some(5)), (1, 2, Some(9))];
    Ok(
        (store.phase() == 2)
            & (store.versions() == 2)
            & all_show(alloc, store, &looks)?
            & all_have(alloc, store, &rows)?,
    )
}

/// Whether a transaction on both views is hidden until it is committed.
fn is_made(alloc: Global, store: &mut Plain) -> Result<bool, SetupErr> {
    let hidden = is_hidden(alloc, store)?;
    Ok(hidden & is_shown(alloc, store)?)
}

fn both_change(alloc: Global) -> Result<bool, SetupErr> {
    let mut store = store(alloc, &[4, 3], 2)?;
    is_made(alloc, &mut store)
}

#[test]
fn both_views_change_in_one_transaction(rt: HostRuntime) {
    assert!(rt; matches!(both_change(rt.alloc()), Ok(true)));
}

/// A transaction on the first view, and what is seen after it.
#[derive(Clone, Copy)]
struct Step {
    /// The key, and its code afterwards.
    edit: (u64, Option<u64>),
    /// How many slots are needed, where there are too few.
    full: Option<u64>,
    /// What its slots show at each of these versions.
    looks: &'static [(u32, u64, &'static str)],
}

/// Whether the transaction is committed or refused, and the slots show what they are to show.
fn follows(alloc: Global, store: &mut Plain, step: Step) -> Result<bool, NoMemory> {
    let wanted = match step.full {
        None => Ok(()),
        Some(need) => Err(StoreErr::Full {
            view: 0,
            need,
            have: need.saturating_sub(1),
        }),
    };
    let ended = commit(alloc, store, &[step.edit], &[])? == wanted;
    Ok(ended & all_show(alloc, store, step.looks)?)
}

/// The first of these steps that goes another way.
fn first_wrong(
    alloc: Global,
    store: &mut Plain,
    steps: &[Step],
) -> Result<Option<usize>, SetupErr> {
    for (i, step) in steps.iter().enumerate() {
        if !follows(alloc, store, *step)? {
            return Ok(Some(i));
        }
    }
    Ok(None)
}

/// The same in a new store, of which three versions stay readable.
fn first_wrong_of(
    alloc: Global,
    slots: &[u32; 2],
    steps: &[Step],
) -> Result<Option<usize>, SetupErr> {
    let mut store = store(alloc, slots, 3)?;
    first_wrong(alloc, &mut store, steps)
}

/// A key that went keeps its slot, while a version shows it.
const KEPT: [Step; 3] = [
    Step {
        edit: (1, None),
        full: None,
        looks: &[(0, 0, "2: 1=5 2=5"), (0, 1, "2: - 2=5")],
    },
    Step {
        edit: (3, Some(5)),
        full: Some(3),
        looks: &[(0, 0, "2: 1=5 2=5"), (0, 1, "2: - 2=5")],
    },
    Step {
        edit: (1, Some(7)),
        full: None,
        looks: &[
            (0, 0, "4: 1=5 2=5"),
            (0, 1, "4: - 2=5"),
            (0, 2, "4: 1=7 2=5"),
        ],
    },
];

/// A slot is used again once no version shows its row.
const USED_AGAIN: [Step; 3] = [
    Step {
        edit: (1, None),
        full: None,
        looks: &[(0, 0, "2: 1=5 2=5 -"), (0, 1, "2: - 2=5 -")],
    },
    Step {
        edit: (3, Some(5)),
        full: None,
        looks: &[(0, 0, "4: 1=5 2=5 -"), (0, 2, "4: - 2=5 3=5")],
    },
    Step {
        edit: (4, Some(5)),
        full: None,
        looks: &[(0, 1, "6: - 2=5 -"), (0, 3, "6: 4=5 2=5 3=5")],
    },
];

#[test]
fn with_three_versions_slots_are_kept_longer(rt: HostRuntime) {
    let kept = first_wrong_of(rt.alloc(), &[2, 2], &KEPT);
    assert!(rt; kept == Ok(None), "step {kept:?}");
    let used = first_wrong_of(rt.alloc(), &[3, 2], &USED_AGAIN);
    assert!(rt; used == Ok(None), "step {used:?}");
}
