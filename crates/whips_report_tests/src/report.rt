//! The lines of records, and a sink that writes them.
ghost use Rattle.std.specs.Prelude.{◌≡◌, [], ◌∷◌, length, IfOk};
ghost use Rattle.whips_model.specs.declared.Kind.TheVariants.{Number, Text as TextKind};

use std::alloc::Global;
use whips_fixtures::{Parts, at, numbers, schema, view_over, words};
use whips_io::MemSink;
use whips_reading::Text;
use whips_rel::{InsertErr, Kind, NoMemory, Relation, Schema, Tuple};
use whips_report::{Labels, LineSink, Rec, RecordErr, RecordSink, cut_counts, push_lines};
use whips_row_buf::RowBuf;
use whips_setup::{Cut, Event, Setup, SetupErr};
use whips_view::ViewDef;

/// These names.
fn names(alloc: Global, items: &[&str]) -> Result<Vec<Text>, NoMemory> {
    let mut names = Vec::new(alloc);
    for item in items {
        names.push(Text::of(alloc, item)?)?;
    }
    Ok(names)
}

/// A number, which is the key, and a text.
fn columns(alloc: Global) -> Result<Schema, NoMemory>
    ensures { IfOk result (λ s. s
        ≡ record { kinds = Number ∷ TextKind ∷ []; key = 0 ∷ [] }) }
{
    schema(alloc, &[Kind::Number, Kind::Text], &[0])
}

/// These columns alone.
fn schemas(alloc: Global) -> Result<Vec<Schema>, NoMemory> {
    let mut schemas = Vec::new(alloc);
    schemas.push(columns(alloc)?)?;
    Ok(schemas)
}

/// A relation with no row.
fn relations(alloc: Global) -> Result<Vec<Relation>, NoMemory> {
    let mut relations = Vec::new(alloc);
    relations.push(Relation::new(alloc, columns(alloc)?)?)?;
    Ok(relations)
}

/// The relation as a view.
fn views(alloc: Global) -> Result<Vec<ViewDef>, NoMemory> {
    let schemas = schemas(alloc)?;
    let mut views = Vec::new(alloc);
    let parts = Parts {
        relations: &[0],
        homes: &[0],
        equal: &[],
        conds: &[],
        out: &[at(0, 0), at(0, 1)],
    };
    match view_over(alloc, &schemas, parts) {
        Ok(view) => views.push(view)?,
        Err(_) => return Err(NoMemory),
    }
    Ok(views)
}

/// A source with a relation, and a view of it.
fn setup(alloc: Global) -> Result<Setup, SetupErr> {
    let schemas = schemas(alloc)?;
    let relations = relations(alloc)?;
    let views = views(alloc)?;
    let homes = numbers(alloc, &[0])?;
    let slots = numbers(alloc, &[4])?;
    Setup::make(schemas, homes, relations, views, slots, 1)
}

/// Puts a row in.
fn put(alloc: Global, rows: &mut Relation, number: u64, code: u64) -> Result<(), NoMemory>
    requires { length rows.old.columns.kinds ≡ 2 }
    ensures { length rows.new.columns.kinds ≡ 2 }
{
    match rows.insert(Tuple::from_slice(alloc, &[number, code])?) {
        Ok(()) => Ok(()),
        Err(InsertErr::Present(_)) | Err(InsertErr::NoMemory(_)) => Err(NoMemory),
    }
}

/// Two rows.
fn rows(alloc: Global) -> Result<Relation, NoMemory> {
    let mut rows = Relation::new(alloc, columns(alloc)?)?;
    put(alloc, &mut rows, 7, 1)?;
    put(alloc, &mut rows, 3, 0)?;
    Ok(rows)
}

/// A row that was read.
fn buffer(alloc: Global) -> Result<RowBuf, NoMemory> {
    let mut buffer = RowBuf::make(alloc, &columns(alloc)?, 1)?;
    buffer.put(&[3, 1]);
    Ok(buffer)
}

/// What records speak of.
#[derive(Drop)]
struct Held {
    sources: Vec<Text>,
    views: Vec<Text>,
    sessions: Vec<Text>,
    texts: Vec<Text>,
    setup: Setup,
}

/// A source, a view, a session and two texts.
fn make_held(alloc: Global) -> Result<Held, SetupErr> {
    Ok(Held {
        sources: names(alloc, &["A"])?,
        views: names(alloc, &["V"])?,
        sessions: names(alloc, &["s"])?,
        texts: names(alloc, &["one \"1\"", "two"])?,
        setup: setup(alloc)?,
    })
}

/// The names in it.
fn labels(held: &Held) -> Labels<'_> {
    Labels::new(&held.sources, &held.views, &held.sessions, &held.texts)
}

/// Whether these are the lines of the record.
fn has_lines(alloc: Global, held: &Held, rec: &Rec, lines: &str) -> Result<bool, NoMemory> {
    let mut text = String::new(alloc);
    push_lines(&mut text, rec, &labels(held), &held.setup)?;
    Ok(text.as_str() == lines)
}

/// Whether each record has its lines.
fn have_lines(alloc: Global, held: &Held, cases: &[(Rec, &str)]) -> Result<bool, NoMemory> {
    let mut all = true;
    for (rec, lines) in cases {
        all &= has_lines(alloc, held, rec, lines)?;
    }
    Ok(all)
}

/// Whether records with no rows have their lines, also where names are missing.
fn have_one_line(alloc: Global, held: &Held) -> Result<bool, NoMemory> {
    let cut = cut_counts(alloc, &Cut::of(words(alloc, &[3])?), 1)?;
    let cases = [
        (
            Rec::Version {
                number: 2,
                cut: &cut,
                rows: &[5],
            },
            "version 2 cut A=3 rows V=5\n",
        ),
        (
            Rec::Skip {
                at: 4,
                event: Event::SessionFetch(0, 9),
            },
            "skip 4 fetch s 9\n",
        ),
        (
            Rec::Skip {
                at: 1,
                event: Event::Answer(0, 1),
            },
            "skip 1 answer A \n",
        ),
        (
            Rec::Opened {
                s: 0,
                v: 2,
                phase: 5,
            },
            "open s version 2 phase 5\n",
        ),
        (
            Rec::More {
                s: 0,
                x: 0,
                v: 2,
                phase: 5,
                slots: 3,
            },
            "more s V version 2 phase 5 slots 3\n",
        ),
        (
            Rec::Expired {
                s: 0,
                x: 0,
                v: 1,
                phase: 6,
            },
            "expired s V version 1 phase 6\n",
        ),
        (
            Rec::Full {
                view: 0,
                need: 7,
                slots: 4,
            },
            "full V need 7 slots 4\n",
        ),
        (Rec::Final { counts: &[3] }, "final A=3\n"),
    ];
    have_lines(alloc, held, &cases)
}

/// Whether rows stand below their record.
fn have_rows(
    alloc: Global,
    held: &Held,
    rows: &Relation,
    buffer: &RowBuf,
) -> Result<bool, NoMemory> {
    let cases = [
        (
            Rec::View { x: 0, rows },
            "view V rows 2\nrow [3,\"one \\\"1\\\"\"]\nrow [7,\"two\"]\n",
        ),
        (
            Rec::Read {
                s: 0,
                x: 0,
                v: 2,
                phase: 4,
                rows: buffer,
            },
            "read s V version 2 phase 4 rows 1\nrow [3,\"two\"]\n",
        ),
    ];
    have_lines(alloc, held, &cases)
}

/// Tells a sink two records.
fn tell<K: RecordSink>(sink: &mut K) -> Result<(), RecordErr> {
    sink.push(&Rec::Final { counts: &[3] })?;
    sink.push(&Rec::Opened {
        s: 0,
        v: 0,
        phase: 0,
    })
}

/// An output in pieces of up to 20 bytes, whose write of this number fails.
fn output(alloc: Global, failing: u64) -> Result<MemSink, NoMemory> {
    let fails = words(alloc, &[failing])?;
    match MemSink::new(alloc, 20, fails) {
        Ok(sink) => Ok(sink),
        Err(_) => Err(NoMemory),
    }
}

/// Whether the records are written to the output, and end so.
fn are_written(alloc: Global, held: &Held, output: &mut MemSink) -> Result<(), RecordErr> {
    let names = labels(held);
    let mut sink = LineSink::new(output, &names, &held.setup, alloc);
    tell(&mut sink)
}

/// Whether all is written, and a part of it where the write of the second record's rest fails.
fn is_written(alloc: Global, held: &Held) -> Result<bool, NoMemory> {
    let mut whole = output(alloc, 0)?;
    let mut part = output(alloc, 3)?;
    let all = are_written(alloc, held, &mut whole).is_ok()
        & (whole.written() == b"final A=3\nopen s version 0 phase 0\n".as_slice());
    let some = matches!(are_written(alloc, held, &mut part), Err(RecordErr::Failed))
        & (part.written() == b"final A=3\nopen s version 0 pha".as_slice());
    Ok(all & some)
}

/// Whether all of these hold.
fn hold(alloc: Global, held: &Held) -> Result<bool, NoMemory> {
    let rows = rows(alloc)?;
    let buffer = buffer(alloc)?;
    Ok(
        have_one_line(alloc, held)?
            & have_rows(alloc, held, &rows, &buffer)?
            & is_written(alloc, held)?,
    )
}

#[test]
fn records_are_written_line_by_line(rt: HostRuntime) {
    let alloc = rt.alloc();
    let held = make_held(alloc);
    assert!(rt;
        match &held {
            Ok(held) => matches!(hold(alloc, held), Ok(true)),
            Err(_) => false,
        }
    );
}
