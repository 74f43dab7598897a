//! Setups and what they are refused for; cuts, plans and labels.
ghost use Rattle.std.specs.Prelude.{◌≡◌, length, IfOk};

use std::alloc::Global;
use whips_fixtures::{Parts, SetupParts, setup, words};
use whips_model::ColRef;
use whips_rel::NoMemory;
use whips_setup::{Cut, Event, Events, Labels, Name, NameLists, Names, Plan, Setup, SetupErr};

const fn at(part: u32, col: u32) -> ColRef {
    ColRef { part, col }
}

/// Two relations at these homes, of which the second has this code, and the view of the keys of their pairs of rows,
/// which takes the second to be at source 1.
fn product<'a>(
    alloc: Global,
    homes: &'a [u32],
    code: u64,
    slots: &'a [u32],
    sources: u32,
) -> Result<Setup, SetupErr>
    ensures views { IfOk result (λ s. length s.views ≡ 1) }
{
    let view = Parts {
        relations: &[0, 1],
        homes: &[0, 1],
        equal: &[],
        conds: &[],
        out: &[at(0, 0), at(1, 0)],
    };
    let first = [(1, 5), (2, 5)];
    let second = [(1, code), (2, code)];
    setup(
        alloc,
        SetupParts {
            sources,
            homes,
            rows: &[&first, &second],
            views: &[view],
            slots,
        },
    )
}

#[test]
fn refused_setups(rt: HostRuntime) {
    let limit = Some(SetupErr::Limit);
    let cases: [(&[u32], u64, &[u32], u32, Option<SetupErr>); 10] = [
        (&[0, 1], 999_999_999_999, &[4], 2, None),
        (&[0, 1], 1_000_000_000_000, &[4], 2, limit),
        (&[0, 1], 5, &[4], 3, limit),
        (&[0, 2], 5, &[4], 2, limit),
        (&[0, 0], 5, &[4], 1, limit),
        (&[0], 5, &[4], 1, limit),
        (&[0, 1], 5, &[4, 4], 2, limit),
        (&[0, 1], 5, &[4_097], 2, limit),
        (&[0, 1], 5, &[3], 2, Some(SetupErr::Slots(0))),
        (&[0, 2], 5, &[3], 2, limit),
    ];
    for (homes, code, slots, sources, wanted) in cases {
        let found = product(rt.alloc(), homes, code, slots, sources).err();
        assert!(rt;
            found == wanted,
            "homes {homes:?}, code {code}, slots {slots:?}"
        );
    }
}

/// Whether it has the two sources, relations and the view that it was made of, and four versions.
fn is_product(setup: &Setup) -> bool
    requires { length setup.now.views ≡ 1 }
{
    let counts = (setup.sources() == 2)
        & (setup.relations() == 2)
        & (setup.views() == 1)
        & (setup.versions() == 4);
    counts
        & (setup.slots(0) == 4)
        & (setup.view(0).parts().homes() == [0, 1].as_slice())
        & is_second_there(setup)
}

/// Whether its second relation is at source 1, has two rows and its first column as the key.
fn is_second_there(setup: &Setup) -> bool {
    setup.relations() == 2
        && (setup.home(1) == 1)
            & (setup.schema(1).key() == [0].as_slice())
            & (setup.initial(1).len() == 2)
}

/// Whether a copy with four versions is such a setup, and one with five is refused.
fn has_versions(setup: &Setup) -> Result<bool, SetupErr>
    requires { length setup.now.views ≡ 1 }
{
    let four = setup.copy()?.with_versions(4)?;
    let five = setup.copy()?.with_versions(5).err();
    Ok(is_product(&four) & (setup.versions() == 2) & (five == Some(SetupErr::Limit)))
}

fn is_made(alloc: Global) -> Result<bool, SetupErr> {
    let made = product(alloc, &[0, 1], 7, &[4], 2)?;
    has_versions(&made)
}

#[test]
fn parts_of_a_setup(rt: HostRuntime) {
    assert!(rt; matches!(is_made(rt.alloc()), Ok(true)));
}

fn counts(alloc: Global) -> Result<bool, NoMemory> {
    let cut = Cut::of(words(alloc, &[3, 4])?).copy()?;
    Ok((cut.count(0) == 3) & (cut.count(1) == 4))
}

#[test]
fn a_cut_counts_each_source(rt: HostRuntime) {
    assert!(rt; matches!(counts(rt.alloc()), Ok(true)));
}

fn has_two(plan: &Plan) -> bool {
    match plan {
        Plan::Listed(events) => events.as_slice() == [Event::Rel, Event::Begin].as_slice(),
        _ => false,
    }
}

fn lists_two(alloc: Global) -> Result<bool, NoMemory> {
    let events = Vec::from_slice(alloc, &[Event::Rel, Event::Begin])?;
    Ok(has_two(&Plan::Listed(Events::of(events))))
}

#[test]
fn a_plan_lists_events(rt: HostRuntime) {
    assert!(rt; matches!(lists_two(rt.alloc()), Ok(true)));
}

/// The name of one source, and no other.
fn labels(alloc: Global) -> Result<Labels, NoMemory> {
    let mut sources = Vec::new(alloc);
    sources.push(Name::of(String::from_str(alloc, "shop")?))?;
    Ok(Labels {
        sources: Names::of(sources),
        relations: Names::of(Vec::new(alloc)),
        columns: NameLists::of(Vec::new(alloc)),
        views: Names::of(Vec::new(alloc)),
        sessions: Names::of(Vec::new(alloc)),
    })
}

fn is_shop(labels: &Labels) -> bool {
    match labels.sources.as_slice() {
        [name] => (name.as_str() == "shop") & labels.columns.as_slice().is_empty(),
        _ => false,
    }
}

fn names_shop(alloc: Global) -> Result<bool, NoMemory> {
    let labels = labels(alloc)?;
    Ok(is_shop(&labels))
}

#[test]
fn labels_are_names(rt: HostRuntime) {
    assert!(rt; matches!(names_shop(rt.alloc()), Ok(true)));
}
