//! Workloads, and what they are refused for.
ghost use Rattle.std.specs.Prelude.{◌≡◌, length, IfOk};

use std::alloc::Global;
use whips_fixtures::{Parts, SetupParts, Step, minus, plus, setup, transactions, updates};
use whips_model::ColRef;
use whips_rel::Trans;
use whips_setup::{BatchErr, Setup, SetupErr, WorkErr, Workload};

const fn at(part: u32, col: u32) -> ColRef {
    ColRef { part, col }
}

/// Two relations of the pairs (1, 5) and (2, 5), the first at source 0 and the second at source 1.
fn shops(alloc: Global) -> Result<Setup, SetupErr> {
    let view = Parts {
        relations: &[0, 1],
        homes: &[0, 1],
        equal: &[],
        conds: &[],
        out: &[at(0, 0), at(1, 0)],
    };
    setup(
        alloc,
        SetupParts {
            sources: 2,
            homes: &[0, 1],
            rows: &[&[(1, 5), (2, 5)], &[(1, 5), (2, 5)]],
            views: &[view],
            slots: &[4],
        },
    )
}

/// One transaction of these updates at source 0, and none at source 1.
fn batched(alloc: Global, setup: &Setup, steps: &[Step]) -> Result<Workload, BatchErr>
    ensures { IfOk result (λ work. length work ≡ 2) }
{
    Workload::batched(setup, transactions(alloc, &[&[steps], &[]])?)
}

/// Whether each of these ends as is wanted, and which number doesn't.
fn first_wrong(
    alloc: Global,
    setup: &Setup,
    cases: &[([Step; 2], Option<BatchErr>)],
) -> Option<usize> {
    for (i, (steps, wanted)) in cases.iter().enumerate() {
        if batched(alloc, setup, steps).err() != *wanted {
            return Some(i);
        }
    }
    None
}

/// The first of these transactions that doesn't end as it is to end.
fn wrong_transaction(alloc: Global, setup: &Setup) -> Option<usize> {
    let cases = [
        ([minus(0, (1, 5)), plus(0, (1, 6))], None),
        (
            [plus(0, (3, 5)), plus(0, (3, 6))],
            Some(BatchErr::Present(0, 1, 2)),
        ),
        (
            [minus(0, (1, 5)), minus(0, (1, 5))],
            Some(BatchErr::Absent(0, 1, 2)),
        ),
        (
            [minus(0, (1, 6)), plus(0, (3, 5))],
            Some(BatchErr::Absent(0, 1, 1)),
        ),
        (
            [plus(1, (3, 5)), plus(0, (1, 5))],
            Some(BatchErr::Foreign(0, 1, 1)),
        ),
        (
            [plus(0, (1, 5)), plus(1, (3, 5))],
            Some(BatchErr::Present(0, 1, 1)),
        ),
        (
            [plus(0, (1, 5)), plus(0, (3, 1_000_000_000_000))],
            Some(BatchErr::Limit),
        ),
    ];
    first_wrong(alloc, setup, &cases)
}

/// No updates of source 0, and these of source 1.
fn made(alloc: Global, setup: &Setup, steps: &[Step]) -> Result<Workload, WorkErr> {
    Workload::make(alloc, setup, updates(alloc, &[&[], steps])?)
}

/// Whether each of these ends as is wanted, and which number doesn't.
fn first_wrong_list(
    alloc: Global,
    setup: &Setup,
    cases: &[([Step; 2], Option<WorkErr>)],
) -> Option<usize> {
    for (i, (steps, wanted)) in cases.iter().enumerate() {
        if made(alloc, setup, steps).err() != *wanted {
            return Some(i);
        }
    }
    None
}

/// The first of these lists that doesn't end as it is to end.
fn wrong_list(alloc: Global, setup: &Setup) -> Option<usize> {
    let cases = [
        ([plus(1, (3, 5)), minus(1, (1, 5))], None),
        (
            [plus(1, (3, 5)), plus(1, (3, 6))],
            Some(WorkErr::Present(1, 2)),
        ),
        (
            [minus(1, (3, 5)), plus(1, (3, 6))],
            Some(WorkErr::Absent(1, 1)),
        ),
        (
            [plus(1, (3, 5)), plus(0, (3, 5))],
            Some(WorkErr::Foreign(1, 2)),
        ),
    ];
    first_wrong_list(alloc, setup, &cases)
}

/// Whether the first of two sources has no transaction and the second two.
fn are_two(parts: &[Vec<Trans>]) -> bool {
    match parts {
        [none, both] => none.is_empty() & (both.len() == 2),
        _ => false,
    }
}

fn makes_two(alloc: Global, setup: &Setup) -> Result<bool, WorkErr> {
    let parts = made(alloc, setup, &[plus(1, (3, 5)), minus(1, (1, 5))])?.parts();
    Ok(are_two(&parts))
}

/// Whether source 0 has one transaction of two updates.
fn has_pair(work: &Workload) -> bool
    requires { length work.now ≡ 2 }
{
    match work.updates(0).as_slice() {
        [only] => only.items.len() == 2,
        _ => false,
    }
}

fn batches_pair(alloc: Global, setup: &Setup) -> Result<bool, BatchErr> {
    let work = batched(alloc, setup, &[minus(0, (1, 5)), plus(0, (1, 6))])?;
    Ok(has_pair(&work))
}

/// Which transaction and which list goes another way, and whether workloads are made.
#[derive(Clone, Copy, Debug, PartialEq)]
struct Found {
    transaction: Option<usize>,
    list: Option<usize>,
    makes: bool,
    batches: bool,
}

fn checks(alloc: Global, setup: &Setup) -> Found {
    Found {
        transaction: wrong_transaction(alloc, setup),
        list: wrong_list(alloc, setup),
        makes: makes_two(alloc, setup) == Ok(true),
        batches: batches_pair(alloc, setup) == Ok(true),
    }
}

fn shops_check(alloc: Global) -> Result<Found, SetupErr> {
    let setup = shops(alloc)?;
    Ok(checks(alloc, &setup))
}

#[test]
fn workloads_are_made_and_refused(rt: HostRuntime) {
    let found = shops_check(rt.alloc());
    let wanted = Found {
        transaction: None,
        list: None,
        makes: true,
        batches: true,
    };
    assert!(rt; found == Ok(wanted), "{found:?}");
}
