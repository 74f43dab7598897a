//! Open queries and the deletions that are pending for them.
ghost use Rattle.std.specs.Prelude.{◌≡◌, [], ◌∷◌, length, IfOk};

use std::alloc::Global;
use whips_open_queries::Queries;
use whips_query::Partials;
use whips_rel::{NoMemory, Tuple, Tuples};

/// One query of transaction 1 from part 2, with nothing found yet.
fn one_open(alloc: Global) -> Result<Queries, NoMemory>
    ensures { IfOk result (λ q. q ≡ record {
      transaction = 1;
      origin = 2;
      step = 1;
      seeds = [];
      partials = [];
      pending = [];
    } ∷ []) }
{
    let mut queries = Queries::new(alloc);
    queries.begin(1, 2, Tuples::new(alloc), Partials::new(alloc))?;
    Ok(queries)
}

/// The same after the deletion of the key 7 of part 0.
fn one_pending(alloc: Global) -> Result<Queries, NoMemory>
    ensures { IfOk result (λ q. q ≡ record {
      transaction = 1;
      origin = 2;
      step = 1;
      seeds = [];
      partials = [];
      pending = (0, 7 ∷ []) ∷ [];
    } ∷ []) }
{
    let mut queries = one_open(alloc)?;
    queries.note_deletion(0, &Tuple::from_slice(alloc, &[7])?)?;
    Ok(queries)
}

/// Whether its one query is this one, by each call.
fn is_named(queries: &Queries) -> bool
    requires { length queries.now ≡ 1 }
{
    (queries.len() == 1)
        & (queries.place_of(1, 2) == Some(0))
        & queries.place_of(1, 3).is_none()
        & (queries.transaction(0) == 1)
        & (queries.origin(0) == 2)
        & (queries.step(0) == 1)
        & has_one_pending(queries)
}

/// Whether the key 7 of part 0 is pending for its query, which found nothing.
fn has_one_pending(queries: &Queries) -> bool
    requires { length queries.now ≡ 1 }
{
    let is_seven = match queries.pending(0) {
        [(part, key)] => (*part == 0) & (key.codes() == [7].as_slice()),
        _ => false,
    };
    is_seven & (queries.partials(0).len() == 0)
}

fn finds_pending(alloc: Global) -> Result<bool, NoMemory> {
    let queries = one_pending(alloc)?;
    Ok(is_named(&queries))
}

#[test]
fn a_query_is_found_by_its_name(rt: HostRuntime) {
    assert!(rt; matches!(finds_pending(rt.alloc()), Ok(true)));
}

/// The same with a later query, of transaction 3 from part 1.
fn two_open(alloc: Global) -> Result<Queries, NoMemory>
    ensures { IfOk result (λ q. length q ≡ 2) }
{
    let mut queries = one_pending(alloc)?;
    queries.begin(3, 1, Tuples::new(alloc), Partials::new(alloc))?;
    Ok(queries)
}

/// Whether the key 7 of this part is pending for these of the two queries.
fn is_pending_for(
    alloc: Global,
    queries: &Queries,
    part: u32,
    wanted: [bool; 2],
) -> Result<bool, NoMemory>
    requires { length queries.now ≡ 2 }
{
    let entry = (part, Tuple::from_slice(alloc, &[7])?);
    Ok((queries.is_pending(0, &entry) == wanted[0]) & (queries.is_pending(1, &entry) == wanted[1]))
}

fn first_is_pending(alloc: Global) -> Result<bool, NoMemory> {
    let queries = two_open(alloc)?;
    Ok(
        (queries.len() == 2)
            & is_pending_for(alloc, &queries, 0, [true, false])?
            & is_pending_for(alloc, &queries, 1, [false, false])?,
    )
}

#[test]
fn a_deletion_is_pending_for_the_queries_before_it(rt: HostRuntime) {
    assert!(rt; matches!(first_is_pending(rt.alloc()), Ok(true)));
}

fn moves_on(alloc: Global) -> Result<bool, NoMemory> {
    let mut queries = one_open(alloc)?;
    queries.move_on(0, Partials::new(alloc));
    let step = queries.step(0);
    queries.close(0);
    Ok((step == 2) & queries.is_empty())
}

#[test]
fn a_query_moves_on_and_is_closed(rt: HostRuntime) {
    assert!(rt; matches!(moves_on(rt.alloc()), Ok(true)));
}
