//! Messages of two sources, taken one after another.
ghost use Rattle.std.specs.Prelude.{◌≡◌, ◌<◌, length, IfOk, OnOk};

use std::alloc::Global;
use whips_fixtures::{Parts, SetupParts, plus, setup, transaction};
use whips_model::ColRef;
use whips_order::{Forward, Integrator, Message};
use whips_query::{Partials, Reply};
use whips_rel::NoMemory;
use whips_setup::{Setup, SetupErr};

/// Two relations at two sources, and the view of the keys of the second.
fn two_sources(alloc: Global) -> Result<Setup, SetupErr>
    ensures { IfOk result (λ s. s.sources ≡ 2) }
{
    let view = Parts {
        relations: &[1],
        homes: &[1],
        equal: &[],
        conds: &[],
        out: &[ColRef { part: 0, col: 0 }],
    };
    setup(
        alloc,
        SetupParts {
            sources: 2,
            homes: &[0, 1],
            rows: &[&[], &[]],
            views: &[view],
            slots: &[4],
        },
    )
}

/// What a source sends.
#[derive(Clone, Copy)]
enum Sent {
    /// A transaction that puts the pair (key, 5) into the relation of the source's number.
    Insert(u64),
    /// A reply.
    Reply,
}

/// The message of this source.
fn message(alloc: Global, source: u32, sent: Sent) -> Result<Message, NoMemory> {
    match sent {
        Sent::Insert(key) => Ok(Message::Update(transaction(alloc, &[plus(source, (key, 5))])?)),
        Sent::Reply => Ok(Message::Reply(Reply {
            view: 0,
            update: 1,
            origin: 0,
            step: 1,
            partials: Partials::new(alloc),
        })),
    }
}

/// What is handed on of a message: its number, its place and the views that it concerns, or `reply`.
fn forwarded(alloc: Global, forward: &Forward) -> Result<String, NoMemory> {
    match forward {
        Forward::Numbered {
            number,
            place,
            update: _,
            concerned,
        } => Ok(format!(in alloc; "{number} at {place} for {:?}", concerned.as_slice())?),
        Forward::Reply(_) => Ok(String::from_str(alloc, "reply")?),
    }
}

/// The integrator takes the message of this source, and what it hands on is told.
fn told(
    alloc: Global,
    setup: &Setup,
    integrator: &mut Integrator,
    source: u32,
    sent: Sent,
) -> Result<String, NoMemory>
    requires sources { length integrator.old.places ≡ setup.now.sources }
    ensures sources { length integrator.new.places ≡ setup.now.sources }
{
    if source >= setup.sources() {
        return Err(NoMemory);
    }
    let forward = integrator.take(setup, source, message(alloc, source, sent)?)?;
    forwarded(alloc, &forward)
}

/// The messages in order, each with its source and what is handed on.
const MESSAGES: [(u32, Sent, &str); 4] = [
    (1, Sent::Insert(7), "1 at 1 for [0]"),
    (1, Sent::Reply, "reply"),
    (0, Sent::Insert(7), "2 at 1 for []"),
    (1, Sent::Insert(8), "3 at 2 for [0]"),
];

/// Whether what is handed on is as wanted.
fn is_told(
    alloc: Global,
    setup: &Setup,
    integrator: &mut Integrator,
    message: (u32, Sent, &str),
) -> Result<bool, NoMemory>
    requires sources { length integrator.old.places ≡ setup.now.sources }
    ensures sources { length integrator.new.places ≡ setup.now.sources }
{
    let (source, sent, wanted) = message;
    let text = told(alloc, setup, integrator, source, sent)?;
    Ok(text.as_str() == wanted)
}

/// How many of the messages are handed on as wanted.
fn count_told(alloc: Global, setup: &Setup, integrator: &mut Integrator) -> Result<u32, NoMemory>
    requires sources { length integrator.old.places ≡ setup.now.sources }
{
    let mut count: u32 = 0;
    for message in MESSAGES {
        if is_told(alloc, setup, integrator, message)? {
            count = count.saturating_add(1);
        }
    }
    Ok(count)
}

/// The same of a new integrator.
fn count_of_new(alloc: Global, setup: &Setup) -> Result<u32, NoMemory> {
    let mut integrator = Integrator::new(alloc, setup)?;
    count_told(alloc, setup, &mut integrator)
}

/// The same for two sources.
fn count_of_two_sources(alloc: Global) -> Result<u32, SetupErr> {
    let setup = two_sources(alloc)?;
    match count_of_new(alloc, &setup) {
        Ok(count) => Ok(count),
        Err(_) => Err(SetupErr::NoMemory),
    }
}

#[test]
fn messages_in_one_order(rt: HostRuntime) {
    assert!(rt; matches!(count_of_two_sources(rt.alloc()), Ok(4)));
}
