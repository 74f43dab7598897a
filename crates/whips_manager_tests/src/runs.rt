//! The worked runs: what a manager is told, and what leaves it, worked out by hand.
ghost use Rattle.whips_manager_tests.specs.Runs.{IsOfPairs};

use crate::feed::feed;
use crate::messages::Change::{Delete, Insert, Replace};
use crate::messages::Found::{InBoth, InLeft, InRight};
use crate::messages::Message::{self, Reply, Update};
use crate::views::{three, two};
use std::alloc::Global;
use whips_rel::NoMemory;
use whips_view::{ViewDef, ViewErr};

/// What a manager is told, and what is written down of it.
#[derive(Clone, Copy)]
struct Run {
    messages: &'static [Message],
    leaves: &'static str,
}

/// Two insertions find each other's tuple. One list covers both, and the row comes once.
const RACED: Run = Run {
    messages: &[
        Update(Insert(0, (1, 5))),
        Update(Insert(1, (7, 5))),
        Reply(1, (1, 5), InRight(&[7])),
        Reply(2, (7, 5), InLeft(&[1])),
    ],
    leaves: "ask 2 from 0 step 1 of 1; open 1\n\
        ask 3 from 1 step 1 of 1; open 2\n\
        open 1\n\
        list 2: put put, rows [1, 7, 5]; open 0\n",
};

/// An answer is taken before the deletion of what it found. The row comes, and goes with the deletion's own list.
const ANSWERED_BEFORE: Run = Run {
    messages: &[
        Update(Insert(0, (1, 5))),
        Reply(1, (1, 5), InRight(&[7])),
        Update(Delete(1, (7, 5))),
    ],
    leaves: "ask 2 from 0 step 1 of 1; open 1\n\
        list 1: put, rows [1, 7, 5]; open 0\n\
        list 2: delete 1, rows; open 0\n",
};

/// An answer is taken after the deletion, and finds nothing.
const ANSWERED_AFTER: Run = Run {
    messages: &[
        Update(Insert(0, (1, 5))),
        Update(Delete(1, (7, 5))),
        Reply(1, (1, 5), InRight(&[])),
    ],
    leaves: "ask 2 from 0 step 1 of 1; open 1\n\
        open 1\n\
        list 2: delete 1 put, rows; open 0\n",
};

/// An answer finds nothing.
const FOUND_NOTHING: Run = Run {
    messages: &[Update(Insert(0, (1, 5))), Reply(1, (1, 5), InRight(&[]))],
    leaves: "ask 2 from 0 step 1 of 1; open 1\n\
        list 1: put, rows; open 0\n",
};

/// A key is deleted and inserted again while a query is open, which finds the new tuple. This is struck, and the row comes
/// by the insertion's own query.
const TWO_LIVES: Run = Run {
    messages: &[
        Update(Insert(0, (1, 5))),
        Update(Delete(1, (7, 6))),
        Update(Insert(1, (7, 5))),
        Reply(1, (1, 5), InRight(&[7])),
        Reply(3, (7, 5), InLeft(&[1])),
    ],
    leaves: "ask 2 from 0 step 1 of 1; open 1\n\
        open 1\n\
        ask 3 from 1 step 1 of 1; open 2\n\
        open 1\n\
        list 3: delete 1 put put, rows [1, 7, 5]; open 0\n",
};

/// A transaction replaces a tuple.
const REPLACED: Run = Run {
    messages: &[
        Update(Replace(0, (1, 6), (1, 5))),
        Reply(1, (1, 5), InRight(&[7])),
    ],
    leaves: "ask 2 from 0 step 1 of 1; open 1\n\
        list 1: delete 0 put, rows [1, 7, 5]; open 0\n",
};

/// A transaction replaces a tuple while a query is open, which finds the new tuple.
const RACED_TRANSACTION: Run = Run {
    messages: &[
        Update(Insert(0, (1, 5))),
        Update(Replace(1, (7, 5), (8, 5))),
        Reply(1, (1, 5), InRight(&[8])),
        Reply(2, (8, 5), InLeft(&[1])),
    ],
    leaves: "ask 2 from 0 step 1 of 1; open 1\n\
        ask 3 from 1 step 1 of 1; open 2\n\
        open 1\n\
        list 2: delete 1 put put, rows [1, 8, 5]; open 0\n",
};

/// Replies of another transaction, of another origin and of a later step don't fit. One with tuples that no source has
/// does, and is used as it says.
const STRANGE: Run = Run {
    messages: &[
        Update(Insert(0, (1, 5))),
        Reply(2, (1, 5), InRight(&[77])),
        Reply(1, (1, 5), InLeft(&[77])),
        Reply(1, (1, 5), InBoth(&[77], &[])),
        Reply(1, (1, 5), InRight(&[77, 78])),
    ],
    leaves: "ask 2 from 0 step 1 of 1; open 1\n\
        refused; open 1\n\
        refused; open 1\n\
        refused; open 1\n\
        list 1: put, rows [1, 77, 5] [1, 78, 5]; open 0\n",
};

/// A tuple is deleted while the second step of a query that found it is open. What that step finds is struck.
const DELETED_LATER: Run = Run {
    messages: &[
        Update(Insert(0, (1, 5))),
        Reply(1, (1, 5), InRight(&[7])),
        Update(Delete(1, (7, 5))),
        Reply(1, (1, 5), InBoth(&[7], &[9])),
    ],
    leaves: "ask 2 from 0 step 1 of 1; open 1\n\
        ask 5 from 0 step 2 of 1; open 1\n\
        open 1\n\
        list 2: delete 1 put, rows; open 0\n",
};

/// Whether what leaves is what the run says.
fn leaves(alloc: Global, view: &ViewDef, run: Run) -> Result<bool, NoMemory>
    requires { IsOfPairs view.now }
{
    let text = feed(alloc, view, run.messages)?;
    Ok(text.as_str() == run.leaves)
}

/// The first of these runs that goes another way.
fn first_wrong(alloc: Global, view: &ViewDef, runs: &[Run]) -> Result<Option<usize>, ViewErr>
    requires { IsOfPairs view.now }
{
    for (i, run) in runs.iter().enumerate() {
        if !leaves(alloc, view, *run)? {
            return Ok(Some(i));
        }
    }
    Ok(None)
}

/// The runs of two relations.
const OF_TWO: [Run; 8] = [
    RACED,
    ANSWERED_BEFORE,
    ANSWERED_AFTER,
    FOUND_NOTHING,
    TWO_LIVES,
    REPLACED,
    RACED_TRANSACTION,
    STRANGE,
];

fn wrong_of_two(alloc: Global) -> Result<Option<usize>, ViewErr> {
    let view = two(alloc)?;
    first_wrong(alloc, &view, &OF_TWO)
}

fn wrong_of_three(alloc: Global) -> Result<Option<usize>, ViewErr> {
    let view = three(alloc)?;
    first_wrong(alloc, &view, &[DELETED_LATER])
}

#[test]
fn runs_of_two_and_three_relations(rt: HostRuntime) {
    for wrong in [wrong_of_two(rt.alloc()), wrong_of_three(rt.alloc())] {
        assert!(rt; wrong == Ok(None), "run {wrong:?}");
    }
}
