//! Transactions and lists that come to a merge of two views, and what it hands out.
ghost use Rattle.std.specs.Prelude.{◌≡◌, ◌≢◌, ◌<◌, length, IfOk, IfSome, OnOk};
ghost use Rattle.std.specs.List.{All, AllPairs};
ghost use Rattle.whips_merge_tests.specs.Cuts.{HasCuts};

use std::alloc::Global;
use whips_actions::{ActionList, Actions};
use whips_fixtures::{Parts, SetupParts, setup};
use whips_merge::{Merge, Transaction};
use whips_model::ColRef;
use whips_rel::NoMemory;
use whips_setup::{Cut, Setup, SetupErr};

/// The view of the keys of one relation, which is at the source of the same number.
fn keys_of(relation: &[u32; 1]) -> Parts<'_> {
    Parts {
        relations: relation,
        homes: relation,
        equal: &[],
        conds: &[],
        out: &[ColRef { part: 0, col: 0 }],
    }
}

/// Two relations at two sources, and a view of each.
fn two_views(alloc: Global) -> Result<Setup, SetupErr>
    ensures sources { IfOk result (λ s. s.sources ≡ 2) }
    ensures views { IfOk result (λ s. length s.views ≡ 2) }
{
    setup(
        alloc,
        SetupParts {
            sources: 2,
            homes: &[0, 1],
            rows: &[&[], &[]],
            views: &[keys_of(&[0]), keys_of(&[1])],
            slots: &[4, 4],
        },
    )
}

/// A merge of two views to which nothing has come.
fn new(alloc: Global) -> Result<Merge, SetupErr>
    ensures views { IfOk result (λ m. length m.lists ≡ 2) }
    ensures last { IfOk result (λ m. m.merge.table.last_announced ≡ 0) }
    ensures cuts { IfOk result (λ m. HasCuts 2 m) }
{
    let setup = two_views(alloc)?;
    Ok(Merge::new(alloc, &setup)?)
}

/// The views that a transaction concerns.
#[derive(Clone, Copy)]
enum Views {
    First,
    Second,
    Both,
}

/// What a merge is told, and what it is asked for.
#[derive(Clone, Copy)]
enum Step {
    /// A transaction is announced: its number, its source, its place there and the views.
    Rel(u64, u32, u64, Views),
    /// A list comes, of this view and up to this number.
    Act(u32, u64),
    /// Whether a transaction waits.
    Waits(bool),
    /// The next transaction is to be this one: its rows, the view and the number of each of its lists, and the cut.
    Next(&'static [u64], &'static [(u32, u64)], [u64; 2]),
    /// No transaction is to wait.
    None,
}

/// A transaction is announced that concerns these views, of which the number is above the last one.
fn rel(
    merge: &mut Merge,
    number: u64,
    source: u32,
    place: u64,
    concerned: &[u32],
) -> Result<(), NoMemory>
    requires above { merge.old.merge.table.last_announced < number }
    requires some { 0 < length concerned.now }
    requires there { All (λ x. x < length merge.old.lists) concerned.now }
    requires once { AllPairs (λ x y. x ≢ y) concerned.now }
    requires views { length merge.old.lists ≡ 2 }
    requires cuts { HasCuts 2 merge.old }
    ensures last { OnOk result (merge.new.merge.table.last_announced ≡ number) }
    ensures views { OnOk result (length merge.new.lists ≡ 2) }
    ensures cuts { OnOk result (HasCuts 2 merge.new) }
{
    merge.rel(number, source, place, concerned)?;
    Ok(())
}

/// A transaction is announced, of which the number is above the last one.
fn announce(
    merge: &mut Merge,
    number: u64,
    source: u32,
    place: u64,
    views: Views,
) -> Result<(), NoMemory>
    requires above { merge.old.merge.table.last_announced < number }
    requires views { length merge.old.lists ≡ 2 }
    requires cuts { HasCuts 2 merge.old }
    ensures last { OnOk result (merge.new.merge.table.last_announced ≡ number) }
    ensures views { OnOk result (length merge.new.lists ≡ 2) }
    ensures cuts { OnOk result (HasCuts 2 merge.new) }
{
    match views {
        Views::First => rel(merge, number, source, place, &[0]),
        Views::Second => rel(merge, number, source, place, &[1]),
        Views::Both => rel(merge, number, source, place, &[0, 1]),
    }
}

/// A list of the view comes.
fn act(alloc: Global, merge: &mut Merge, view: u32, upto: u64) -> Result<(), NoMemory>
    requires views { length merge.old.lists ≡ 2 }
    requires cuts { HasCuts 2 merge.old }
    ensures last { OnOk result (merge.new.merge.table.last_announced
        ≡ merge.old.merge.table.last_announced) }
    ensures views { OnOk result (length merge.new.lists ≡ 2) }
    ensures cuts { OnOk result (HasCuts 2 merge.new) }
{
    if view > 1 {
        return Err(NoMemory);
    }
    merge.act(ActionList {
        view,
        upto,
        actions: Actions::new(alloc),
    })?;
    Ok(())
}

/// The next transaction, if one waits.
fn next(merge: &mut Merge) -> Option<Transaction>
    requires views { length merge.old.lists ≡ 2 }
    requires cuts { HasCuts 2 merge.old }
    ensures last { merge.new.merge.table.last_announced ≡ merge.old.merge.table.last_announced }
    ensures views { length merge.new.lists ≡ 2 }
    ensures cuts { HasCuts 2 merge.new }
    ensures cut { IfSome result (λ t. length t.cut ≡ 2) }
{
    merge.next()
}

/// Whether the lists are of these views and up to these numbers.
fn are_lists(lists: &[ActionList], wanted: &[(u32, u64)]) -> bool {
    lists.len() == wanted.len()
        && lists.iter().zip(wanted).all(|(list, (view, upto))| (list.view == *view)
            & (list.upto == *upto))
}

fn counts(cut: &Cut) -> [u64; 2]
    requires { length cut.now ≡ 2 }
{
    [cut.count(0), cut.count(1)]
}

/// Whether it is this transaction.
fn is_taken(t: &Transaction, rows: &[u64], lists: &[(u32, u64)], cut: [u64; 2]) -> bool
    requires { length t.now.cut ≡ 2 }
{
    (t.rows.as_slice() == rows) & are_lists(t.lists.as_slice(), lists) & (counts(&t.cut) == cut)
}

/// Whether the oldest transaction that waits is that of these rows.
fn is_first(merge: &Merge, rows: &[u64]) -> bool {
    match merge.first() {
        Some(transaction) => transaction.rows.as_slice() == rows,
        None => false,
    }
}

/// Whether the step goes as it is to go. `last` is the last number that was announced.
fn goes(alloc: Global, merge: &mut Merge, last: &mut u64, step: Step) -> Result<bool, NoMemory>
    requires last { merge.old.merge.table.last_announced ≡ last.old }
    requires views { length merge.old.lists ≡ 2 }
    requires cuts { HasCuts 2 merge.old }
    ensures last { OnOk result (merge.new.merge.table.last_announced ≡ last.new) }
    ensures views { OnOk result (length merge.new.lists ≡ 2) }
    ensures cuts { OnOk result (HasCuts 2 merge.new) }
{
    match step {
        Step::Rel(number, source, place, views) => {
            if number <= *last {
                return Err(NoMemory);
            }
            announce(merge, number, source, place, views)?;
            *last = number;
            Ok(true)
        }
        Step::Act(view, upto) => {
            act(alloc, merge, view, upto)?;
            Ok(true)
        }
        Step::Waits(wanted) => Ok(merge.waits() == wanted),
        Step::None => Ok(next(merge).is_none()),
        Step::Next(rows, lists, cut) => {
            let is_shown = is_first(merge, rows);
            match next(merge) {
                Some(transaction) => Ok(is_shown & is_taken(&transaction, rows, lists, cut)),
                None => Ok(false),
            }
        }
    }
}

/// Whether each step goes as it is to go, on a merge to which nothing has come.
fn all_go(alloc: Global, merge: &mut Merge, steps: &[Step]) -> Result<bool, SetupErr>
    requires last { merge.old.merge.table.last_announced ≡ 0 }
    requires views { length merge.old.lists ≡ 2 }
    requires cuts { HasCuts 2 merge.old }
{
    let mut last = 0;
    for step in steps {
        if !goes(alloc, merge, &mut last, *step)? {
            return Ok(false);
        }
    }
    Ok(true)
}

/// Whether the run goes as it is to go.
fn run_goes(alloc: Global, steps: &[Step]) -> Result<bool, SetupErr> {
    let mut merge = new(alloc)?;
    all_go(alloc, &mut merge, steps)
}

/// A second transaction of a source waits for the first.
const SECOND_WAITS: &[Step] = &[
    Step::Rel(1, 0, 1, Views::First),
    Step::Rel(2, 0, 2, Views::Second),
    Step::Act(1, 2),
    Step::Waits(false),
    Step::Act(0, 2),
    Step::Waits(true),
    Step::Next(&[1], &[(0, 2)], [1, 0]),
    Step::Next(&[2], &[(1, 2)], [2, 0]),
    Step::None,
];

/// A transaction of another source may overtake.
const OVERTAKES: &[Step] = &[
    Step::Rel(1, 0, 1, Views::First),
    Step::Rel(2, 1, 1, Views::Second),
    Step::Act(1, 2),
    Step::Next(&[2], &[(1, 2)], [0, 1]),
    Step::Act(0, 1),
    Step::Next(&[1], &[(0, 1)], [1, 1]),
];

/// Rows of one list leave together.
const TOGETHER: &[Step] = &[
    Step::Rel(1, 0, 1, Views::Both),
    Step::Rel(2, 1, 1, Views::First),
    Step::Act(0, 2),
    Step::None,
    Step::Act(1, 1),
    Step::Next(&[1, 2], &[(0, 2), (1, 1)], [1, 1]),
    Step::None,
];

/// A list waits for its row.
const WAITS_FOR_ROW: &[Step] = &[
    Step::Act(0, 1),
    Step::None,
    Step::Rel(1, 0, 1, Views::First),
    Step::Next(&[1], &[(0, 1)], [1, 0]),
];

/// The cut takes the greatest place of each source, also where an earlier row of it leaves later.
const CUT_RISES: &[Step] = &[
    Step::Rel(1, 1, 1, Views::First),
    Step::Rel(2, 0, 1, Views::Second),
    Step::Rel(3, 0, 2, Views::Second),
    Step::Act(1, 3),
    Step::Next(&[2, 3], &[(1, 3)], [2, 0]),
    Step::Act(0, 1),
    Step::Next(&[1], &[(0, 1)], [2, 1]),
    Step::Waits(false),
];

#[test]
fn transactions_leave_with_their_lists_and_cuts(rt: HostRuntime) {
    let runs = [SECOND_WAITS, OVERTAKES, TOGETHER, WAITS_FOR_ROW, CUT_RISES];
    for (i, run) in runs.iter().enumerate() {
        assert!(rt; matches!(run_goes(rt.alloc(), run), Ok(true)), "run {i}");
    }
}
