//! The versions of a row.
ghost use Rattle.std.specs.Prelude.{◌≡◌, ◌≢◌, ℕ, ◌-◌, ◌<◌, ◌≤◌, length, true, take, ◌∷◌};
ghost use Rattle.std.specs.Option.{option_copied};
ghost use Rattle.whips_vnl.specs.Records.{IsRecord, IsBelow, is_fitting, leading_steps, seen_after, seen_past, step_for, step_of, steps_after, steps_or_none, visible};

use std::marker::Model;
use whips_rel::{Change, Tuple};

/// What a step did to the row.
#[derive(Clone, Copy, Debug, PartialEq, Eq)]
pub enum Op {
    /// The row came.
    Added,
    /// The row came in the place of another with its key.
    Replaced,
    /// The row went.
    Removed,
}

/// What the row has been since one version.
#[derive(Drop)]
pub struct Vstep {
    /// The version.
    pub vn: u64,
    /// What was done to the row at that version.
    pub op: Op,
    /// The row since then; `None` exactly for `Removed`.
    pub row: Option<Tuple>,
}

/// The kept steps of one row, newest first. Seen as the list of the steps before the first `None`.
///
/// A record has a step at least, and its versions fall from step to step.
#[derive(Drop)]
pub struct Vrec {
    /// The steps, newest first.
    pub steps: [Option<Vstep>; 4],
}

impl Model for Vrec {
    ghost use Rattle.std.specs.Prelude.{List};
    ghost use Rattle.whips_vnl.specs.declared.record.Vstep.{Vstep};

    ghost Value = { List Vstep };

    ghost use Rattle.whips_vnl.specs.Records.{leading_steps, IsRecord};

    ghost view = { λ r. leading_steps r.steps };

    ghost invariant = { λ r. IsRecord (leading_steps r.steps) };
}

/// What a record shows at a version.
#[derive(Clone, Copy, Debug, PartialEq, Eq)]
pub enum Shown {
    /// A row.
    Row,
    /// No row.
    Nothing,
    /// What was there at so old a version isn't kept any more.
    Past,
}

/// The newest step with a version at most `v`.
fn find_step(steps: &[Option<Vstep>], v: u64) -> Option<&Vstep>
    ensures { option_copied result ≡ step_for v (leading_steps steps.now) }
{
    match steps {
        [] => None,
        [None, ..] => None,
        [Some(step), older @ ..] => {
            if step.vn <= v {
                Some(step)
            } else {
                find_step(older, v)
            }
        }
    }
}

/// The number of steps before the first `None`, of at most four places.
fn count_steps(steps: &[Option<Vstep>]) -> usize
    requires { length steps.now ≤ 4 }
    ensures count { result ≡ length (leading_steps steps.now) }
    ensures bound { result ≤ length steps.now }
{
    match steps {
        [] => 0,
        [None, ..] => 0,
        [Some(_), older @ ..] => 1 + count_steps(older),
    }
}

impl Vrec {
    /// The number of steps that are kept.
    pub fn len(&self) -> usize
        ensures count { result ≡ length self.now }
        ensures sound { IsRecord self.now }
    {
        count_steps(&self.steps)
    }

    /// The newest step with a version at most `v`, whose row is what the record shows there.
    pub fn step_at(&self, v: u64) -> Option<&Vstep>
        ensures step { option_copied result ≡ step_for v self.now }
        ensures sound { IsRecord self.now }
    {
        find_step(&self.steps, v)
    }
}

impl Vrec {
    fn into_steps(self) -> [Option<Vstep>; 4]
        ensures { leading_steps result ≡ self }
    {
        let Vrec { steps } = self;
        steps
    }
}

/// The places of a record, none of them filled where there is no record.
fn places_of(rec: Option<Vrec>) -> [Option<Vstep>; 4]
    ensures { leading_steps result ≡ steps_or_none rec }
{
    match rec {
        Some(rec) => rec.into_steps(),
        None => [None, None, None, None],
    }
}

/// The step that a change makes at version `vn`.
fn step_made(change: Change, vn: u64) -> Vstep
    ensures { result ≡ step_of vn change }
{
    match change {
        Change::Add(row) => Vstep {
            vn,
            op: Op::Added,
            row: Some(row),
        },
        Change::Replace(row) => Vstep {
            vn,
            op: Op::Replaced,
            row: Some(row),
        },
        Change::Remove(_) => Vstep {
            vn,
            op: Op::Removed,
            row: None,
        },
    }
}

/// The new step and the older ones, of all the newest `n`.
fn steps_kept(step: Vstep, mut older: [Option<Vstep>; 4], n: u32) -> [Option<Vstep>; 4]
    requires least { 2 ≤ n }
    requires most { n ≤ 4 }
    ensures { leading_steps result ≡ take n (step ∷ leading_steps older) }
{
    let first = older[0].take();
    let second = if n > 2 { older[1].take() } else { None };
    let third = if n > 3 { older[2].take() } else { None };
    [Some(step), first, second, third]
}

/// The record after a change at version `vn`, where `n` versions are kept; no record is there yet
/// for `None`.
///
/// The new step comes first, and of all steps the newest `n` are kept.
pub fn changed(rec: Option<Vrec>, change: Change, vn: u64, n: u32) -> Vrec
    requires least { 2 ≤ n }
    requires most { n ≤ 4 }
    requires kept { length (steps_or_none rec) ≤ n }
    requires version { 1 ≤ vn }
    requires newer { IsBelow vn (steps_or_none rec) }
    requires fitting { is_fitting change (visible n (vn - 1) (steps_or_none rec)) ≡ true }
    ensures steps { result ≡ steps_after n vn change (steps_or_none rec) }
    ensures new { visible n vn result ≡ seen_after change }
    ensures before { visible n (vn - 1) result ≡ visible n (vn - 1) (steps_or_none rec) }
    ensures earlier { (v : ℕ) → v < vn → visible n v result ≢ seen_past
        → visible n v result ≡ visible n v (steps_or_none rec) }
{
    Vrec {
        steps: steps_kept(step_made(change, vn), places_of(rec), n),
    }
}
