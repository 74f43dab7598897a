//! What a manager keeps: the number of the last transaction, its actions and its open queries.
ghost use Rattle.std.specs.Prelude.{◌≡◌, ◌↔◌, IsTrue, ◌<◌, ◌+◌, ◌-◌, ◌^◌, ◌∷◌, ◌++◌, [], length, map, drop, remove, slice_get, slice_index, slice_index_or, IfOk, OnOk, IfSome};
ghost use Rattle.std.specs.List.{AllByRecursion};
ghost use Rattle.whips_model.specs.Tuples.{IsKeyed};
ghost use Rattle.whips_lists.specs.Lists.{changed_at, places_from};
ghost use Rattle.whips_states.specs.Net.{given_at};
ghost use Rattle.whips_steps.specs.Answers.{IsWhole, AllDifferInKey, unstruck};
ghost use Rattle.whips_view.specs.ViewDefs.{keyed, row_columns};
ghost use Rattle.whips_managers.specs.Managers.{new_manager, with_deletion, with_deletions, put_of, with_given, with_all_given, with_transaction, moved_on, with_reply, without_list};
ghost use Rattle.whips_view.specs.Widths.{widths_of};
ghost use Rattle.whips_managers.specs.Messages.{ask_of, asks_after, is_open, AllCanAsk, Fits};
ghost use Rattle.whips_open_queries.specs.Names.{IsNamedBelow, AreInOrder};
ghost use Rattle.whips_strobe.specs.Parts.{tuples_at};
ghost use Rattle.whips_strobe.specs.Strikes.{HasWidths};
ghost use Rattle.whips_strobe.specs.Outs.{sent_by, all_sent_by, list_by};

use crate::fits::fit_step;
use crate::routed::RoutedView;
use crate::strike::unstruck;
use std::alloc::Global;
use std::marker::Model;
use whips_actions::{Action, ActionList, Actions};
use whips_open_queries::Queries;
use whips_query::{Ask, Partials, Reply, project};
use whips_rel::{NoMemory, Trans, Tuple, Tuples};

/// The number of the last transaction taken, the action list and the open queries.
#[derive(Drop)]
pub struct State {
    pub last: u64,
    pub actions: Actions,
    pub queries: Queries,
}

impl Model for State {
    ghost use Rattle.whips_managers.specs.Managers.{ManagerState};

    ghost Value = { ManagerState };

    ghost view = { λ s. record { last = s.last; actions = s.actions; queries = s.queries } };
}

impl State {
    /// Nothing taken yet.
    pub fn new(alloc: Global) -> State
        ensures { result ≡ new_manager 0 }
    {
        State {
            last: 0,
            actions: Actions::new(alloc),
            queries: Queries::new(alloc),
        }
    }

    /// The number of open queries.
    pub fn open_queries(&self) -> usize
        ensures { result ≡ length self.now.queries }
    {
        self.queries.len()
    }

    /// Whether the query with this name is open at this step. Names rise along the open queries.
    pub fn is_open(&self, transaction: u64, origin: u32, step: u32) -> bool
        ensures { result ≡ is_open self.now transaction origin step }
    {
        match self.queries.place_of(transaction, origin) {
            Some(i) => self.queries.step(i) == step,
            None => false,
        }
    }

    /// Whether the reply fits: the query with its name is open at its step, each of its partial choices is filled exactly
    /// at the origin and at the parts of the steps up to that one, and any two of them differ in the key of a filled part.
    pub fn fits(&self, view: &RoutedView, r: &Reply) -> bool
        ensures { IsTrue result ↔ Fits
            (keyed view.now) (widths_of view.now) self.now
            r.now.update r.now.origin r.now.step r.now.partials }
    {
        self.is_open(r.update, r.origin, r.step)
            && fit_step(view, r.origin, r.step, r.partials.as_slice())
    }

    /// The deletion of a key of a part goes to the open queries and into the action list.
    fn delete(&mut self, part: u32, key: &Tuple) -> Result<(), NoMemory>
        ensures { OnOk result (self.new ≡ with_deletion self.old (part, key.now)) }
    {
        self.queries.note_deletion(part, key)?;
        self.actions.push(Action::KeyDelete(part, key.copy()?))
    }

    /// The deletion of these keys, each with its part.
    pub fn delete_all(&mut self, keys: &[(u32, Tuple)]) -> Result<(), NoMemory>
        ensures { OnOk result (self.new ≡ with_deletions self.old keys.now) }
    {
        for entry in keys {
            self.delete(entry.0, &entry.1)?;
        }
        Ok(())
    }

    /// The rows of whole choices come.
    fn put_rows(&mut self, view: &RoutedView, partials: &Partials) -> Result<(), NoMemory>
        requires whole { AllByRecursion (IsWhole (length view.now.bases)) partials.now }
        requires keys { AllDifferInKey (map (λ b. b.key) view.now.bases) partials.now }
        ensures { OnOk result (self.new ≡ record self.old {
          actions = self.old.actions
              ++ put_of (keyed view.now) (row_columns view.now) partials.now ∷ [];
        }) }
    {
        let rows = project(view.alloc(), view.plain(), partials)?;
        self.actions.push(Action::Put(rows))
    }

    /// The insertion of tuples at one part: together they begin one query, or are put where no other source is to be
    /// asked.
    fn insert(
        &mut self,
        view: &RoutedView,
        number: u64,
        part: u32,
        seeds: Tuples,
    ) -> Result<(), NoMemory>
        requires part { part < length view.now.bases }
        requires keyed { IsKeyed (slice_index_or (keyed view.now).keys part []) seeds }
        requires below { AllByRecursion (IsNamedBelow (number ∷ part ∷ [])) self.old.queries }
        ensures { OnOk result (self.new
            ≡ with_given (keyed view.now) (row_columns view.now) self.old number part seeds) }
    {
        if seeds.len() == 0 {
            return Ok(());
        }
        let partials = Partials::seed(view.alloc(), view.plain(), part, seeds.as_slice())?;
        self.last = number;
        if view.sources(part).is_empty() {
            return self.put_rows(view, &partials);
        }
        self.queries.begin(number, part, seeds, partials)
    }

    /// The insertion of what a transaction gives each part.
    fn insert_all(&mut self, view: &RoutedView, number: u64, t: &Trans) -> Result<(), NoMemory>
        requires { AllByRecursion (λ q. q.transaction < number) self.old.queries }
        ensures { OnOk result (self.new ≡ with_all_given
            (keyed view.now) (row_columns view.now) self.old number
            (given_at (keyed view.now) t.now) (places_from 0 (length view.now.bases))) }
    {
        let given = view.plain().given(t)?;
        for part in 0..view.width() {
            let seeds = tuples_at(view.alloc(), &given, part)?;
            self.insert(view, number, part, seeds)?;
        }
        Ok(())
    }

    /// Takes the transaction: first the deletion of each key that it takes from the view, then at each part the insertion
    /// of the tuples that it gives the view there.
    pub fn take_transaction(
        &mut self,
        view: &RoutedView,
        number: u64,
        t: &Trans,
    ) -> Result<(), NoMemory>
        requires { AllByRecursion (λ q. q.transaction < number) self.old.queries }
        ensures { OnOk result (self.new
            ≡ with_transaction (keyed view.now) (row_columns view.now) self.old number t.now) }
    {
        let taken = view.plain().taken(t)?;
        self.last = number;
        self.delete_all(&taken)?;
        self.insert_all(view, number, t)
    }

    /// What the query at place `i` asks at its step, and the source that is asked.
    fn ask(&self, view: &RoutedView, number: u32, i: usize) -> Result<(u32, Ask), NoMemory>
        requires { i < length self.now.queries }
        ensures { IfOk result (λ sent. IfSome (slice_get self.now.queries i) (λ q.
            sent ≡ sent_by number (ask_of (keyed view.now) q))) }
    {
        let origin = self.queries.origin(i);
        let step = self.queries.step(i);
        let ask = Ask {
            view: number,
            update: self.queries.transaction(i),
            origin,
            step,
            partials: copied(view.alloc(), self.queries.partials(i))?,
        };
        Ok((source_of(view.sources(origin), step), ask))
    }

    /// What the queries from place `first` on ask.
    pub fn asks_from(
        &self,
        view: &RoutedView,
        number: u32,
        first: usize,
    ) -> Result<Vec<(u32, Ask)>, NoMemory>
        ensures { IfOk result (λ asks. asks.items
            ≡ all_sent_by number (map (ask_of (keyed view.now)) (drop first self.now.queries))) }
    {
        let mut asks = Vec::new(view.alloc());
        for i in first..self.queries.len() {
            asks.push(self.ask(view, number, i)?)?;
        }
        Ok(asks)
    }

    /// The query at place `i` goes on to its next step, which it asks.
    fn advance(
        &mut self,
        view: &RoutedView,
        number: u32,
        i: usize,
        partials: Partials,
    ) -> Result<(u32, Ask), NoMemory>
        requires place { i < length self.old.queries }
        requires step { IfSome (slice_get self.old.queries i) (λ q. q.step + 1 < 2 ^ 32) }
        ensures state { OnOk result (self.new ≡ record self.old {
          queries = changed_at i (λ q. moved_on q partials) self.old.queries;
        }) }
        ensures ask { IfOk result (λ sent. IfSome (slice_get self.old.queries i) (λ q.
            sent ≡ sent_by number (ask_of (keyed view.now) (moved_on q partials)))) }
    {
        self.queries.move_on(i, partials);
        let sent = self.ask(view, number, i)?;
        Ok(sent)
    }

    /// The query at place `i` is closed: the choices that have a pending key are struck, and the rows of the others are
    /// put.
    fn finish(&mut self, view: &RoutedView, i: usize, partials: &Partials) -> Result<(), NoMemory>
        requires place { i < length self.old.queries }
        requires whole { AllByRecursion (IsWhole (length view.now.bases)) partials.now }
        requires wide { AllByRecursion (HasWidths (widths_of view.now)) partials.now }
        requires keys { AllDifferInKey (map (λ b. b.key) view.now.bases) partials.now }
        ensures { OnOk result (IfSome (slice_get self.old.queries i) (λ q.
            self.new ≡ record self.old {
              actions = self.old.actions
                  ++ put_of (keyed view.now) (row_columns view.now)
                  (unstruck (keyed view.now) q.pending partials.now) ∷ [];
              queries = remove self.old.queries i;
            })) }
    {
        let left = unstruck(view, &self.queries, i, partials)?;
        self.put_rows(view, &left)?;
        self.queries.close(i);
        Ok(())
    }

    /// Takes the reply: its query is asked at its next step, or after the last step it is closed and its rows are put.
    pub fn take_reply(&mut self, view: &RoutedView, r: Reply) -> Result<Vec<(u32, Ask)>, NoMemory>
        requires fits { Fits
            (keyed view.now) (widths_of view.now) self.old r.update r.origin r.step r.partials }
        requires queries { AllCanAsk (keyed view.now) (widths_of view.now) self.old.queries }
        ensures state { OnOk result (self.new ≡ with_reply
            (keyed view.now) (row_columns view.now) self.old r.update r.origin r.partials) }
        ensures asks { IfOk result (λ asks. asks.items ≡ all_sent_by r.view
            (asks_after (keyed view.now) self.old.queries r.update r.origin r.partials)) }
        ensures in_order { OnOk result (AreInOrder self.old.queries) }
    {
        let mut asks = Vec::new(view.alloc());
        let i = match self.queries.place_of(r.update, r.origin) {
            Some(i) => i,
            None => return Ok(asks),
        };
        if (r.step as usize) < view.sources(r.origin).len() {
            let sent = self.advance(view, r.view, i, r.partials)?;
            asks.push(sent)?;
            return Ok(asks);
        }
        self.finish(view, i, &r.partials)?;
        Ok(asks)
    }

    /// The whole action list where no query is open, which is then empty.
    pub fn hand_out(&mut self, number: u32) -> Option<ActionList>
        ensures list { result ≡ list_by number self.old }
        ensures left { self.new ≡ without_list self.old }
    {
        if !self.queries.is_empty() {
            return None;
        }
        Some(ActionList {
            view: number,
            upto: self.last,
            actions: self.actions.take(),
        })
    }
}

/// The same partial choices again. Their tuples are shared.
fn copied(alloc: Global, partials: &Partials) -> Result<Partials, NoMemory>
    ensures { IfOk result (λ ps. ps ≡ partials.now) }
{
    let mut copy = Partials::new(alloc);
    for i in 0..partials.len() {
        copy.push(partials, i)?;
    }
    Ok(copy)
}

/// The source of the step, counted from 1, or 0 where there is none.
fn source_of(sources: &[u32], step: u32) -> u32
    ensures { result ≡ slice_index sources.now (step - 1) }
{
    let place = step.saturating_sub(1) as usize;
    sources.get(place).copied().unwrap_or(0)
}

/// The tuples of the part.
fn tuples_at(alloc: Global, entries: &[(u32, Tuple)], part: u32) -> Result<Tuples, NoMemory>
    ensures { IfOk result (λ ts. ts ≡ tuples_at part entries.now) }
{
    let mut tuples = Tuples::new(alloc);
    for entry in entries {
        if entry.0 == part {
            tuples.push(entry.1.copy()?)?;
        }
    }
    Ok(tuples)
}
