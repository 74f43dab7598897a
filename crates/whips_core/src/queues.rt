//! The parts of a core, with the queues between them.
ghost use Rattle.std.specs.Prelude.{◌≡◌, ◌++◌, ◌∷◌, [], Some, None, length, slice_get, is_some, true, IfOk, OnOk, IfSome};
ghost use Rattle.std.specs.Prelude.{map, replicate};
ghost use Rattle.whips_lists.specs.Lists.{map_with_place};
ghost use Rattle.whips_contents.specs.Contents.{new_loaded_manager};
ghost use Rattle.std.specs.Option.{option_and_then, option_map};
ghost use Rattle.whips_managers.specs.Managers.{without_list};
ghost use Rattle.whips_strobe.specs.Outs.{all_sent_by, list_by};
ghost use Rattle.whips_lists.specs.Lists.{front, without_front, changed_at};
ghost use Rattle.whips_source.specs.Asks.{IsAskTo};
ghost use Rattle.whips_contents.specs.Contents.{LoadedSource, LoadedManager, ManagerInput, numbered_transaction};
ghost use Rattle.whips_contents.specs.Events.{source_after_commit, source_after_oldest_ask, oldest_ask_to, with_ask_of, without_oldest_message, all_asked, with_input, all_with_input, state_after_input, asks_after_input, list_or_none, manager_after_input, announced, without_oldest_list, has_transaction_left};
ghost use Rattle.whips_core.specs.Queues.{input_of};
ghost use Rattle.whips_core_laws.specs.Calls.{FitsInput};

use std::alloc::Global;
use std::collections::VecDeque;
use std::marker::Model;
use whips_actions::ActionList;
use whips_order::Message;
use whips_query::{Ask, Reply};
use whips_rel::{NoMemory, Places, Trans, Tuple, Update};
use whips_setup::Setup;
use whips_source::Site;
use whips_strobe::{Manager, Out};

/// A numbered transaction: its number, its source and its place there.
#[derive(Drop)]
pub struct Numbered {
    /// Its number among the transactions of all sources, from 1.
    pub number: u64,
    /// Its source.
    pub source: u32,
    /// Its place among the transactions of its source, from 1.
    pub place: u64,
}

impl Model for Numbered {
    ghost use Rattle.whips_flow.specs.State.{NumberedTransaction};

    ghost Value = { NumberedTransaction };

    ghost view = { λ n. record { number = n.number; source = n.source; place = n.place } };
}

impl Numbered {
    /// The same again.
    pub(crate) fn copy(&self) -> Numbered
        ensures { result ≡ self.now }
    {
        Numbered {
            number: self.number,
            source: self.source,
            place: self.place,
        }
    }
}

/// What a manager takes.
#[derive(Drop)]
pub enum Input {
    /// A transaction.
    Numbered(Numbered, Trans),
    /// The reply to an ask.
    Answered(Reply),
}

/// What the merge takes of a transaction.
#[derive(Drop)]
pub struct Announced {
    pub transaction: Numbered,
    pub concerned: Places,
}

impl Model for Announced {
    ghost use Rattle.whips_contents.specs.Contents.{Announcement};

    ghost Value = { Announcement };

    ghost view = { λ a. record { transaction = a.transaction; concerned = a.concerned } };
}

/// Asks on their way, oldest first.
#[derive(Drop)]
pub struct Asks {
    pub items: VecDeque<Ask>,
}

impl Model for Asks {
    ghost use Rattle.std.specs.Prelude.{List};
    ghost use Rattle.whips_query.specs.declared.asks.Ask.{Ask};

    ghost Value = { List Ask };

    ghost view = { λ a. a.items.items };
}

/// A source, its messages on their way, and the asks of each view on their way to it.
#[derive(Drop)]
pub struct SourceQueues<T: Site> {
    pub site: T,
    pub messages: VecDeque<Message>,
    pub asks: Vec<Asks>,
}

impl<T: Site> Model for SourceQueues<T> {
    ghost use Rattle.whips_contents.specs.Contents.{LoadedSource};

    ghost Value = { LoadedSource };

    ghost view = { λ s. record { site = T.state s.site; messages = s.messages.items; asks = s.asks.items } };
}

/// The manager of a view, its messages and its lists on their way.
#[derive(Drop)]
pub struct ManagerQueues {
    pub manager: Manager,
    pub messages: VecDeque<Input>,
    pub lists: VecDeque<ActionList>,
}

impl Model for ManagerQueues {
    ghost use Rattle.std.specs.Prelude.{map, replicate};
    ghost use Rattle.whips_lists.specs.Lists.{map_with_place};
    ghost use Rattle.whips_contents.specs.Contents.{new_loaded_manager};
    ghost use Rattle.whips_contents.specs.Contents.{LoadedManager};
    ghost use Rattle.whips_core.specs.Queues.{input_of};
    ghost use Rattle.whips_core_laws.specs.Calls.{FitsInput};

    ghost Value = { LoadedManager };

    ghost view = { λ d. record {
      manager = d.manager;
      messages = map input_of d.messages.items;
      lists = d.lists.items;
    } };
}

/// The transaction again. Its tuples are shared.
fn copy_update(update: &Update) -> Result<Update, NoMemory>
    ensures { IfOk result (λ u. u ≡ update.now) }
{
    match update {
        Update::Insert(relation, tuple) => Ok(Update::Insert(*relation, tuple.copy()?)),
        Update::Delete(relation, tuple) => Ok(Update::Delete(*relation, tuple.copy()?)),
    }
}

/// The transaction again. Its tuples are shared.
fn copy_of(t: &Trans) -> Result<Trans, NoMemory>
    ensures { IfOk result (λ c. c ≡ t.now) }
{
    let mut items = Vec::new(*t.items.allocator());
    for update in &t.items {
        items.push(copy_update(update)?)?;
    }
    Ok(Trans { items })
}

impl Asks {
    /// Takes the oldest ask out.
    fn pop(&mut self) -> Option<Ask>
        ensures ask { result ≡ front self.old }
        ensures left { self.new ≡ without_front self.old }
    {
        self.items.pop_front()
    }

    /// Puts the ask behind the others.
    fn push(&mut self, ask: Ask) -> Result<(), NoMemory>
        ensures { OnOk result (self.new ≡ self.old ++ ask ∷ []) }
    {
        self.items.push_back(ask)?;
        Ok(())
    }
}

/// Takes the oldest ask of the view out.
fn pop_ask(asks: &mut [Asks], x: u32) -> Option<Ask>
    ensures ask { result ≡ option_and_then front (slice_get asks.old x) }
    ensures left { asks.new ≡ changed_at x without_front asks.old }
{
    let at = x as usize;
    if at < asks.len() {
        asks[at].pop()
    } else {
        None
    }
}

/// Puts the ask behind the others of the view.
fn push_ask(asks: &mut [Asks], x: u32, ask: Ask) -> Result<(), NoMemory>
    ensures { OnOk result (asks.new ≡ changed_at x (λ q. q ++ ask ∷ []) asks.old) }
{
    let at = x as usize;
    if at < asks.len() {
        asks[at].push(ask)?;
    }
    Ok(())
}

/// A queue of asks for each view, all of them empty.
fn no_asks(alloc: Global, views: u32) -> Result<Vec<Asks>, NoMemory>
    ensures { IfOk result (λ q. q.items ≡ replicate views []) }
{
    let mut asks = Vec::with_capacity(alloc, views as usize)?;
    for view in 0..views {
        asks.push(Asks {
            items: VecDeque::new(alloc),
        })?;
    }
    Ok(asks)
}

impl<T: Site + Drop> SourceQueues<T> {
    /// The source with empty queues, one of asks for each of so many views.
    pub fn new(alloc: Global, views: u32, site: T) -> Result<SourceQueues<T>, NoMemory>
        ensures { IfOk result (λ s. s
            ≡ record { site = T.state site; messages = []; asks = replicate views [] }) }
    {
        let asks = no_asks(alloc, views)?;
        Ok(SourceQueues {
            site,
            messages: VecDeque::new(alloc),
            asks,
        })
    }
}

impl<T: Site> SourceQueues<T> {
    /// The source alone.
    pub fn into_site(self) -> T
        ensures { T.state result ≡ self.site }
    {
        let SourceQueues { site, .. } = self;
        site
    }
}

impl<T: Site> SourceQueues<T> {
    ghost use Rattle.whips_source.specs.Asks.{IsAskTo};
    ghost use Rattle.whips_contents.specs.Events.{source_after_commit, source_after_oldest_ask, oldest_ask_to, with_ask_of, without_oldest_message};

    /// Makes the next transaction and sends it.
    pub(crate) fn commit(&mut self) -> Result<(), NoMemory>
        ensures { OnOk result (self.new ≡ source_after_commit self.old) }
    {
        if let Some(t) = self.site.commit()? {
            self.messages.push_back(Message::Update(t))?;
        }
        Ok(())
    }

    /// Answers the oldest ask of the view behind all that it sent before.
    pub(crate) fn answer(&mut self, x: u32) -> Result<(), NoMemory>
        requires some { is_some (oldest_ask_to x self.old) ≡ true }
        requires fits { IfSome (oldest_ask_to x self.old)
            (IsAskTo self.old.site.views self.old.site.source) }
        ensures { OnOk result (self.new ≡ source_after_oldest_ask x self.old) }
    {
        if let Some(ask) = pop_ask(&mut self.asks, x) {
            let reply = self.site.answer(&ask)?;
            self.messages.push_back(Message::Reply(reply))?;
        }
        Ok(())
    }

    /// Takes an ask of the view.
    fn ask(&mut self, x: u32, ask: Ask) -> Result<(), NoMemory>
        ensures { OnOk result (self.new ≡ with_ask_of x ask self.old) }
    {
        push_ask(&mut self.asks, x, ask)
    }

    /// Takes the oldest message out.
    fn pop(&mut self) -> Option<Message>
        ensures message { result ≡ front self.old.messages }
        ensures left { self.new ≡ without_oldest_message self.old }
    {
        self.messages.pop_front()
    }
}

/// The source makes its next transaction and sends it.
pub(crate) fn commit_at<T: Site>(sources: &mut [SourceQueues<T>], y: u32) -> Result<(), NoMemory>
    ensures { OnOk result (sources.new ≡ changed_at y source_after_commit sources.old) }
{
    let at = y as usize;
    if at < sources.len() {
        sources[at].commit()?;
    }
    Ok(())
}

/// The source answers the oldest ask of the view.
pub(crate) fn answer_at<T: Site>(
    sources: &mut [SourceQueues<T>],
    y: u32,
    x: u32,
) -> Result<(), NoMemory>
    requires some { (z : LoadedSource) → slice_get sources.old y ≡ Some z
        → is_some (oldest_ask_to x z) ≡ true }
    requires fits { (z : LoadedSource) → slice_get sources.old y ≡ Some z
        → IfSome (oldest_ask_to x z) (IsAskTo z.site.views z.site.source) }
    ensures { OnOk result (sources.new ≡ changed_at y (source_after_oldest_ask x) sources.old) }
{
    let at = y as usize;
    if at < sources.len() {
        sources[at].answer(x)?;
    }
    Ok(())
}

/// Takes the oldest message of the source out.
pub(crate) fn pop_at<T: Site>(sources: &mut [SourceQueues<T>], y: u32) -> Option<Message>
    ensures message { result ≡ option_and_then (λ s. front s.messages) (slice_get sources.old y) }
    ensures left { sources.new ≡ changed_at y without_oldest_message sources.old }
{
    let at = y as usize;
    if at < sources.len() {
        sources[at].pop()
    } else {
        None
    }
}

/// Puts the ask among those of the view at the source.
fn ask_at<T: Site>(
    sources: &mut [SourceQueues<T>],
    y: u32,
    x: u32,
    ask: Ask,
) -> Result<(), NoMemory>
    ensures { OnOk result (sources.new ≡ changed_at y (with_ask_of x ask) sources.old) }
{
    let at = y as usize;
    if at < sources.len() {
        sources[at].ask(x, ask)?;
    }
    Ok(())
}

/// Puts each ask among those of the view at the source that it asks.
pub(crate) fn ask_all<T: Site>(
    sources: &mut [SourceQueues<T>],
    x: u32,
    asks: Vec<(u32, Ask)>,
) -> Result<(), NoMemory>
    ensures { OnOk result (sources.new ≡ all_asked x sources.old asks.items) }
{
    for (y, ask) in asks {
        ask_at(sources, y, x, ask)?;
    }
    Ok(())
}

/// The managers of the setup's views, to which nothing has come.
pub(crate) fn managers_of(alloc: Global, setup: &Setup) -> Result<Vec<ManagerQueues>, NoMemory>
    ensures { IfOk result (λ m. m.items ≡ map_with_place new_loaded_manager 0 setup.now.views) }
{
    let count = setup.views();
    let mut managers = Vec::with_capacity(alloc, count as usize)?;
    for x in 0..count {
        managers.push(ManagerQueues {
            manager: Manager::new(alloc, x, setup.view(x))?,
            messages: VecDeque::new(alloc),
            lists: VecDeque::new(alloc),
        })?;
    }
    Ok(managers)
}

impl ManagerQueues {
    /// Takes a message.
    fn send(&mut self, input: Input) -> Result<(), NoMemory>
        ensures { OnOk result (self.new ≡ with_input (input_of input) self.old) }
    {
        self.messages.push_back(input)?;
        Ok(())
    }

    /// Takes the oldest list out.
    fn pop_list(&mut self) -> Option<ActionList>
        ensures list { result ≡ front self.old.lists }
        ensures left { self.new ≡ without_oldest_list self.old }
    {
        self.lists.pop_front()
    }

    /// The manager takes its oldest message; its list leaves, and what it asks is handed out.
    pub(crate) fn manage(&mut self, alloc: Global) -> Result<Vec<(u32, Ask)>, NoMemory>
        requires { IfSome (front self.old.messages) (FitsInput self.old.manager) }
        ensures ok { OnOk result (IfSome (front self.old.messages) (λ i. self.new
            ≡ manager_after_input i self.old)) }
        ensures asks { IfOk result (λ asks. IfSome (front self.old.messages) (λ i. asks.items
            ≡ all_sent_by self.old.manager.number (asks_after_input self.old.manager i))) }
    {
        let Some(input) = pop_input(&mut self.messages) else {
            return Ok(Vec::new(alloc));
        };
        let Out { asks, list } = take_input(&mut self.manager, input)?;
        push_list(&mut self.lists, list)?;
        Ok(asks)
    }
}

/// Takes the oldest message out.
fn pop_input(inputs: &mut VecDeque<Input>) -> Option<Input>
    ensures input { option_map input_of result ≡ front (map input_of inputs.old.items) }
    ensures left { map input_of inputs.new.items ≡ without_front (map input_of inputs.old.items) }
{
    inputs.pop_front()
}

/// The manager takes the message.
fn take_input(manager: &mut Manager, input: Input) -> Result<Out, NoMemory>
    requires { FitsInput manager.old (input_of input) }
    ensures ok { OnOk result (manager.new
        ≡ record manager.old {
          state = without_list (state_after_input manager.old
              (input_of input));
        }) }
    ensures asks { IfOk result (λ out. out.asks.items
        ≡ all_sent_by manager.old.number (asks_after_input manager.old (input_of input))) }
    ensures list { IfOk result (λ out. out.list
        ≡ list_by manager.old.number (state_after_input manager.old (input_of input))) }
{
    match input {
        Input::Numbered(n, t) => manager.update(n.number, &t),
        Input::Answered(r) => manager.reply(r),
    }
}

/// Puts the list, where there is one, behind the others.
fn push_list(lists: &mut VecDeque<ActionList>, list: Option<ActionList>) -> Result<(), NoMemory>
    ensures { OnOk result (lists.new.items ≡ lists.old.items ++ list_or_none list) }
{
    if let Some(list) = list {
        lists.push_back(list)?;
    }
    Ok(())
}

/// Puts the message behind the others of the view's manager.
pub(crate) fn send_at(managers: &mut [ManagerQueues], x: u32, input: Input) -> Result<(), NoMemory>
    ensures { OnOk result (managers.new ≡ changed_at x (with_input (input_of input)) managers.old) }
{
    let at = x as usize;
    if at < managers.len() {
        managers[at].send(input)?;
    }
    Ok(())
}

/// Puts the transaction behind the other messages of the managers of these views.
pub(crate) fn send_all(
    managers: &mut [ManagerQueues],
    n: &Numbered,
    t: &Trans,
    concerned: &[u32],
) -> Result<(), NoMemory>
    ensures { OnOk result (managers.new
        ≡ all_with_input (numbered_transaction n.now t.now) managers.old concerned.now) }
{
    for x in concerned {
        send_at(managers, *x, Input::Numbered(n.copy(), copy_of(t)?))?;
    }
    Ok(())
}

/// The manager of the view takes its oldest message, and what it asks is handed out.
pub(crate) fn manage_at(
    alloc: Global,
    managers: &mut [ManagerQueues],
    x: u32,
) -> Result<Vec<(u32, Ask)>, NoMemory>
    requires { (m : LoadedManager) → slice_get managers.old x ≡ Some m
        → IfSome (front m.messages) (FitsInput m.manager) }
    ensures ok { OnOk result ((m : LoadedManager) (i : ManagerInput) → slice_get managers.old x
        ≡ Some m → front m.messages ≡ Some i → managers.new
        ≡ changed_at x (manager_after_input i) managers.old) }
    ensures asks { IfOk result (λ asks. (m : LoadedManager) (i : ManagerInput)
        → slice_get managers.old x ≡ Some m → front m.messages ≡ Some i → asks.items
        ≡ all_sent_by m.manager.number (asks_after_input m.manager i)) }
{
    let at = x as usize;
    if at < managers.len() {
        let asks = managers[at].manage(alloc)?;
        return Ok(asks);
    }
    Ok(Vec::new(alloc))
}

/// Announces the transaction, where it concerns some view.
pub(crate) fn announce(
    queue: &mut VecDeque<Announced>,
    transaction: Numbered,
    concerned: Places,
) -> Result<(), NoMemory>
    ensures { OnOk result (queue.new.items ≡ queue.old.items ++ announced transaction concerned) }
{
    if concerned.as_slice().len() > 0 {
        queue.push_back(Announced {
            transaction,
            concerned,
        })?;
    }
    Ok(())
}

/// Takes the oldest list of the view's manager out.
pub(crate) fn pop_list_at(managers: &mut [ManagerQueues], x: u32) -> Option<ActionList>
    ensures list { result ≡ option_and_then (λ m. front m.lists) (slice_get managers.old x) }
    ensures left { managers.new ≡ changed_at x without_oldest_list managers.old }
{
    let at = x as usize;
    if at < managers.len() {
        managers[at].pop_list()
    } else {
        None
    }
}

/// Whether the source has a transaction left.
pub(crate) fn can_commit<T: Site>(sources: &[SourceQueues<T>], y: u32) -> bool
    ensures { result ≡ has_transaction_left (slice_get sources.now y) }
{
    match sources.get(y as usize) {
        Some(source) => source.site.left() > 0,
        None => false,
    }
}

/// Whether an ask of the view is on its way to the source.
pub(crate) fn has_ask<T: Site>(sources: &[SourceQueues<T>], y: u32, x: u32) -> bool
    ensures { result ≡ is_some (option_and_then (oldest_ask_to x) (slice_get sources.now y)) }
{
    match sources.get(y as usize) {
        Some(source) => match source.asks.get(x as usize) {
            Some(asks) => asks.items.front().is_some(),
            None => false,
        },
        None => false,
    }
}

/// Whether a message of the source is on its way.
pub(crate) fn has_message<T: Site>(sources: &[SourceQueues<T>], y: u32) -> bool
    ensures { result ≡ is_some (option_and_then (λ s. front s.messages) (slice_get sources.now y)) }
{
    match sources.get(y as usize) {
        Some(source) => source.messages.front().is_some(),
        None => false,
    }
}

/// Whether a message to the view's manager is on its way.
pub(crate) fn has_input(managers: &[ManagerQueues], x: u32) -> bool
    ensures { result
        ≡ is_some (option_and_then (λ m. front m.messages) (slice_get managers.now x)) }
{
    match managers.get(x as usize) {
        Some(manager) => manager.messages.front().is_some(),
        None => false,
    }
}

/// Whether a list of the view's manager is on its way.
pub(crate) fn has_list(managers: &[ManagerQueues], x: u32) -> bool
    ensures { result ≡ is_some (option_and_then (λ m. front m.lists) (slice_get managers.now x)) }
{
    match managers.get(x as usize) {
        Some(manager) => manager.lists.front().is_some(),
        None => false,
    }
}
