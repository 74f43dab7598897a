//! Open queries in the order of their names, and the deletions that came since the oldest of them began.
ghost use Rattle.std.specs.Prelude.{◌≡◌, ◌<◌, ◌+◌, ◌^◌, ◌==◌, [], ◌∷◌, ◌++◌, length, map, take, drop, remove, slice_get, Some, OnOk, OnErr, IfSome};
ghost use Rattle.std.specs.List.{AllByRecursion, list_any};
ghost use Rattle.std.specs.Option.{option_map};
ghost use Rattle.whips_model.specs.Tuples.{codes_cmp};
ghost use Rattle.whips_lists.specs.Lists.{changed_at};
ghost use Rattle.whips_managers.specs.Managers.{with_pending, moved_on};
ghost use Rattle.whips_open_queries.specs.Names.{name_codes, IsNamedBelow, AreInOrder, place_named};
ghost use Rattle.whips_open_queries.specs.Deletions.{is_entry, pending_at};

use std::alloc::Global;
use std::cmp::Ordering;
use std::collections::{HashMap, VecDeque};
use std::marker::Model;
use whips_query::Partials;
use whips_rel::{NoMemory, Tuple, Tuples};

/// A query that isn't answered in full.
#[derive(Drop)]
struct OpenQuery {
    transaction: u64,
    origin: u32,
    step: u32,
    seeds: Tuples,
    partials: Partials,
    since: usize,
}

/// The open queries of a manager in the order of their names, seen as their list. The keys that were deleted since the
/// oldest one began stand in one list, and a query's pending deletions are the part of it behind the query's own place. Each
/// key has the place where it stands last, so that a look-up tells whether it is pending for a query.
#[derive(Drop)]
pub struct Queries {
    items: VecDeque<OpenQuery>,
    deleted: Vec<(u32, Tuple)>,
    last: HashMap<(u32, Tuple), usize>,
}

impl Model for Queries {
    ghost use Rattle.std.specs.Prelude.{List, map};
    ghost use Rattle.whips_managers.specs.Managers.{Query};
    ghost use Rattle.whips_open_queries.specs.OpenQueries.{query_of, AreOver};
    ghost use Rattle.whips_open_queries.specs.Deletions.{ArePlaced};

    ghost Value = { List Query };

    ghost view = { λ q. map (query_of q.deleted.items) q.items.items };

    ghost invariant = { λ q.
        AreOver q.deleted.items q.items.items × ArePlaced q.deleted.items q.last.entries };
}

/// How the query's name compares to this one.
fn compare(query: &OpenQuery, transaction: u64, origin: u32) -> Ordering
    ensures { result ≡ codes_cmp
        (query.now.transaction ∷ query.now.origin ∷ []) (transaction ∷ origin ∷ []) }
{
    match query.transaction.cmp(&transaction) {
        Ordering::Equal => query.origin.cmp(&origin),
        order => order,
    }
}

impl Queries {
    /// No open query.
    pub fn new(alloc: Global) -> Queries
        ensures { result ≡ [] }
    {
        Queries {
            items: VecDeque::new(alloc),
            deleted: Vec::new(alloc),
            last: HashMap::new(alloc),
        }
    }

    /// The number of open queries.
    pub fn len(&self) -> usize
        ensures { result ≡ length self.now }
    {
        self.items.len()
    }

    /// Whether no query is open.
    pub fn is_empty(&self) -> bool
        ensures { result ≡ (length self.now == 0) }
    {
        self.items.is_empty()
    }

    /// The place of the query with this name. Names rise along the queries.
    pub fn place_of(&self, transaction: u64, origin: u32) -> Option<usize>
        ensures place { result ≡ place_named transaction origin self.now }
        ensures in_order { AreInOrder self.now }
    {
        self.items
            .binary_search_by(|query| compare(query, transaction, origin))
            .ok()
    }

    /// The number of the transaction whose query it is.
    pub fn transaction(&self, i: usize) -> u64
        requires { i < length self.now }
        ensures { IfSome (slice_get self.now i) (λ q. result ≡ q.transaction) }
    {
        self.items[i].transaction
    }

    /// The part where the query began.
    pub fn origin(&self, i: usize) -> u32
        requires { i < length self.now }
        ensures { IfSome (slice_get self.now i) (λ q. result ≡ q.origin) }
    {
        self.items[i].origin
    }

    /// The step that the query is asked at, counted from 1.
    pub fn step(&self, i: usize) -> u32
        requires { i < length self.now }
        ensures { IfSome (slice_get self.now i) (λ q. result ≡ q.step) }
    {
        self.items[i].step
    }

    /// What was found before the query's step.
    pub fn partials(&self, i: usize) -> &Partials
        requires { i < length self.now }
        ensures { IfSome (slice_get self.now i) (λ q. result.now ≡ q.partials) }
    {
        &self.items[i].partials
    }

    /// The keys, each with its part, that were deleted since the query began.
    pub fn pending(&self, i: usize) -> &[(u32, Tuple)]
        requires { i < length self.now }
        ensures { IfSome (slice_get self.now i) (λ q. result.now ≡ q.pending) }
    {
        let since = self.items[i].since;
        &self.deleted[since..]
    }

    /// Whether the key was deleted at its part since the query began. It takes one look-up, however many keys are pending.
    pub fn is_pending(&self, i: usize, entry: &(u32, Tuple)) -> bool
        requires { i < length self.now }
        ensures { result ≡ list_any (is_entry entry.now) (pending_at self.now i) }
    {
        let since = self.items[i].since;
        match self.last.get(entry) {
            Some(place) => since <= *place,
            None => false,
        }
    }

    /// Begins a query with these tuples at its origin. Its name is above those of all others.
    pub fn begin(
        &mut self,
        transaction: u64,
        origin: u32,
        seeds: Tuples,
        partials: Partials,
    ) -> Result<(), NoMemory>
        requires { AllByRecursion (IsNamedBelow (transaction ∷ origin ∷ [])) self.old }
        ensures ok { OnOk result (self.new ≡ self.old ++ record {
          transaction = transaction;
          origin = origin;
          step = 1;
          seeds = seeds;
          partials = partials;
          pending = [];
        } ∷ []) }
        ensures err { OnErr result (self.new ≡ self.old) }
    {
        let since = self.deleted.len();
        self.items.push_back(OpenQuery {
            transaction,
            origin,
            step: 1,
            seeds,
            partials,
            since,
        })?;
        Ok(())
    }

    /// Notes that the key of the part was deleted: it is pending for each query that is open now.
    pub fn note_deletion(&mut self, part: u32, key: &Tuple) -> Result<(), NoMemory>
        ensures ok { OnOk result (self.new ≡ map (with_pending part key.now) self.old) }
        ensures err { OnErr result (self.new ≡ self.old) }
    {
        if self.items.is_empty() {
            return Ok(());
        }
        let own = key.copy()?;
        let listed = key.copy()?;
        let place = self.deleted.len();
        self.deleted.push((part, listed))?;
        if let Err(_) = self.last.insert((part, own), place) {
            let _listed = self.deleted.pop();
            return Err(NoMemory);
        }
        Ok(())
    }

    /// Puts the query at its next step, with what was found up to there.
    pub fn move_on(&mut self, i: usize, partials: Partials)
        requires place { i < length self.old }
        requires step { IfSome (slice_get self.old i) (λ q. q.step + 1 < 2 ^ 32) }
        ensures { self.new ≡ changed_at i (λ q. moved_on q partials) self.old }
    {
        let query = &mut self.items[i];
        query.step += 1;
        query.partials = partials;
    }

    /// Takes out the query. Once none is open, the deletions are dropped.
    pub fn close(&mut self, i: usize)
        requires { i < length self.old }
        ensures { self.new ≡ remove self.old i }
    {
        let _query = self.items.remove(i);
        if self.items.is_empty() {
            self.deleted.clear();
            self.last.clear();
        }
    }
}
