//! The integrator.
ghost use Rattle.std.specs.Prelude.{◌≡◌, ◌<◌, ◌^◌, suc, if◌then◌else◌, [], ◌∷◌, ◌++◌, length, List, slice_index, slice_set, IfOk, OnOk, OnErr};
ghost use Rattle.whips_states.specs.Concerns.{concerns};
ghost use Rattle.whips_flow.specs.State.{NumberedTransaction};
ghost use Rattle.whips_order.specs.Numbering.{Counts, counts_of, numbering_after, forward_of, concerned_views};
ghost use Rattle.whips_order.specs.declared.message.Forward.TheVariants.{Numbered};

use crate::{Forward, Message};
use std::alloc::Global;
use std::marker::Model;
use whips_rel::{NoMemory, Places, Trans};
use whips_setup::Setup;
use whips_view::ViewDef;

/// The integrator, seen as the counts of the transactions that it has numbered.
#[derive(Drop)]
pub struct Integrator {
    total: u64,
    places: Vec<u64>,
}

impl Model for Integrator {
    ghost use Rattle.whips_order.specs.Numbering.{Counts};

    ghost Value = { Counts };

    ghost view = { λ i. record { total = i.total; places = i.places.items } };
}

/// The count after one more. Where it has no room for one more, there is no memory.
fn next(count: u64) -> Result<u64, NoMemory>
    ensures next { IfOk result (λ n. n ≡ suc count) }
    ensures full { OnErr result (suc count ≡ 2 ^ 64) }
{
    match count.checked_add(1) {
        Some(next) => Ok(next),
        None => Err(NoMemory),
    }
}

/// Adds the view's number, where the transaction concerns the view.
fn add_concerned(
    view: &ViewDef,
    x: u32,
    update: &Trans,
    concerned: &mut Vec<u32>,
) -> Result<(), NoMemory>
    ensures { OnOk result (concerned.new.items ≡ concerned.old.items
        ++ (if concerns view.now.parts update.now then x ∷ [] else [])) }
{
    if view.touches(update) {
        concerned.push(x)?;
    }
    Ok(())
}

/// The numbers of the views that the transaction concerns, in order.
fn concerned_by(alloc: Global, setup: &Setup, update: &Trans) -> Result<Places, NoMemory>
    ensures { IfOk result (λ places. places ≡ concerned_views setup.now.views update.now) }
{
    let mut concerned = Vec::new(alloc);
    for x in 0..setup.views() {
        add_concerned(setup.view(x), x, update, &mut concerned)?;
    }
    Ok(Places::of(concerned))
}

impl Integrator {
    /// An integrator that has numbered no transaction.
    pub fn new(alloc: Global, setup: &Setup) -> Result<Integrator, NoMemory>
        ensures { IfOk result (λ i. i ≡ counts_of setup.now.sources []) }
    {
        Ok(Integrator {
            total: 0,
            places: vec![in alloc; 0u64; setup.sources() as usize]?,
        })
    }

    /// Numbers the next transaction of the source.
    fn number(&mut self, setup: &Setup, source: u32, update: Trans) -> Result<Forward, NoMemory>
        requires { source < length self.old.places }
        ensures forwarded { IfOk result (λ f. f ≡ Numbered
            (suc self.old.total)
            (suc (slice_index self.old.places source))
            update
            (concerned_views setup.now.views update)) }
        ensures counted { OnOk result (self.new ≡ record {
          total = suc self.old.total;
          places = slice_set self.old.places source (suc (slice_index self.old.places source));
        }) }
        ensures err { OnErr result (self.new ≡ self.old) }
    {
        let concerned = concerned_by(*self.places.allocator(), setup, &update)?;
        let number = next(self.total)?;
        let place = next(self.places[source as usize])?;
        self.total = number;
        self.places[source as usize] = place;
        Ok(Forward::Numbered {
            number,
            place,
            update,
            concerned,
        })
    }

    /// Takes the next message of a source of the setup for which the integrator was made. A transaction gets the next
    /// number and the source's next place, whatever numbering the integrator has the counts of, and is handed on with
    /// the views that it concerns. A reply is handed on as it is.
    pub fn take(&mut self, setup: &Setup, source: u32, m: Message) -> Result<Forward, NoMemory>
        requires sources { length self.old.places ≡ setup.now.sources }
        requires there { source < setup.now.sources }
        ensures forwarded { (numbering : List NumberedTransaction)
            → self.old ≡ counts_of setup.now.sources numbering
            → IfOk result (λ f. f ≡ forward_of setup.now.views numbering source m) }
        ensures counted { (numbering : List NumberedTransaction)
            → self.old ≡ counts_of setup.now.sources numbering
            → OnOk result
            (self.new ≡ counts_of setup.now.sources (numbering_after source m numbering)) }
        ensures sources { length self.new.places ≡ length self.old.places }
        ensures err { OnErr result (self.new ≡ self.old) }
    {
        match m {
            Message::Update(update) => self.number(setup, source, update),
            Message::Reply(reply) => Ok(Forward::Reply(reply)),
        }
    }
}
