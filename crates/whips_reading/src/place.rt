//! Places in a document, and refusals.
ghost use Rattle.std.specs.Prelude.{◌≡◌, ◌++◌, [], OnOk, IfOk, codes, string_bytes, flat_map};
ghost use Rattle.whips_reading.specs.Places.{code_word, member_name, path_steps, in_member, in_element, step_text, first_text, place_text};
ghost use Rattle.whips_reading.specs.Reading.{Refuses};

use std::alloc::{AllocError, AllocFailed, Global};
use std::fmt::Write;
use std::marker::Model;
use whips_rel::NoMemory;

/// Why a document is refused, in the order in which the codes are tried at one place.
#[derive(Clone, Copy, Debug, PartialEq, Eq)]
pub enum Code {
    /// It has no reading as JSON.
    Syntax,
    /// A part isn't of its form, or is missing.
    Shape,
    /// A part is outside its limits.
    Limit,
    /// A name isn't of its form, is given again, or names nothing.
    Name,
    /// A value isn't one, or isn't of its kind.
    Value,
    /// A key is given again, or is missing.
    Key,
    /// An insert's key is there.
    Present,
    /// A delete's key isn't there.
    Absent,
    /// An event isn't one, or names nothing.
    BadEvent,
    /// A form that isn't built yet.
    Unbuilt,
}

impl Code {
    /// The word of the code, as it is printed.
    pub fn word(self) -> &'static str
        ensures { result.now ≡ code_word self }
    {
        match self {
            Code::Syntax => "Syntax",
            Code::Shape => "Shape",
            Code::Limit => "Limit",
            Code::Name => "Name",
            Code::Value => "Value",
            Code::Key => "Key",
            Code::Present => "Present",
            Code::Absent => "Absent",
            Code::BadEvent => "BadEvent",
            Code::Unbuilt => "Unbuilt",
        }
    }
}

/// The members of a script's objects.
#[derive(Clone, Copy, Debug, PartialEq, Eq)]
pub enum Member {
    Versions,
    Sources,
    Views,
    Sessions,
    Schedule,
    Name,
    Relations,
    Updates,
    Columns,
    Key,
    Rows,
    Equal,
    Where,
    Out,
    Slots,
    Events,
    Start,
    Steps,
}

impl Member {
    /// The name of the member in the document.
    pub fn name(self) -> &'static str
        ensures { result.now ≡ member_name self }
    {
        match self {
            Member::Versions => "versions",
            Member::Sources => "sources",
            Member::Views => "views",
            Member::Sessions => "sessions",
            Member::Schedule => "schedule",
            Member::Name => "name",
            Member::Relations => "relations",
            Member::Updates => "updates",
            Member::Columns => "columns",
            Member::Key => "key",
            Member::Rows => "rows",
            Member::Equal => "equal",
            Member::Where => "where",
            Member::Out => "out",
            Member::Slots => "slots",
            Member::Events => "events",
            Member::Start => "start",
            Member::Steps => "steps",
        }
    }
}

/// A step into a part of a document.
#[derive(Clone, Copy, Debug, PartialEq, Eq)]
pub enum Step {
    /// To the member of an object.
    Member(Member),
    /// To the element of a list with this number, from 0.
    Element(usize),
}

/// The place of a part on the way into a document.
#[derive(Clone, Copy)]
pub enum Path<'a> {
    /// The whole document.
    Document,
    /// A part of the part at another place.
    In(&'a Path<'a>, Step),
}

/// The one refusal of a document.
#[derive(Drop)]
pub struct Refusal {
    code: Code,
    place: Vec<Step>,
}

impl Model for Refusal {
    ghost use Rattle.whips_reading.specs.Places.{Refusal as RefusalData};

    ghost Value = { RefusalData };

    ghost view = { λ r. record { code = r.code; place = r.place.items } };
}

/// Why a part of a document wasn't read.
#[derive(Drop)]
pub enum ReadErr {
    /// It is refused.
    Refused(Refusal),
    /// There was no memory for it.
    NoMemory,
}

impl From<AllocError> for ReadErr {
    ghost use Rattle.std.specs.Prelude.{◌≡◌};
    ghost use Rattle.whips_reading.specs.declared.place.ReadErr.TheVariants.{NoMemory as OutOfMemory};

    ghost from_gives = { λ _ e. e ≡ OutOfMemory };

    fn from(_error: AllocError) -> ReadErr {
        ReadErr::NoMemory
    }
}

impl<T: Drop> From<AllocFailed<T>> for ReadErr {
    ghost use Rattle.std.specs.Prelude.{◌≡◌};
    ghost use Rattle.whips_reading.specs.declared.place.ReadErr.TheVariants.{NoMemory as OutOfMemory};

    ghost from_gives = { λ _ e. e ≡ OutOfMemory };

    fn from(_error: AllocFailed<T>) -> ReadErr {
        ReadErr::NoMemory
    }
}

impl From<NoMemory> for ReadErr {
    ghost use Rattle.std.specs.Prelude.{◌≡◌};
    ghost use Rattle.whips_reading.specs.declared.place.ReadErr.TheVariants.{NoMemory as OutOfMemory};

    ghost from_gives = { λ _ e. e ≡ OutOfMemory };

    fn from(_error: NoMemory) -> ReadErr {
        ReadErr::NoMemory
    }
}

/// Puts the steps to this place behind these.
fn add_steps(steps: &mut Vec<Step>, path: &Path<'_>) -> Result<(), NoMemory>
    ensures { OnOk result (steps.new.items ≡ steps.old.items ++ path_steps path.now) }
{
    match path {
        Path::Document => Ok(()),
        Path::In(parent, step) => {
            add_steps(steps, parent)?;
            steps.push(*step)?;
            Ok(())
        }
    }
}

/// The refusal of the part at this place, or want of memory for it.
pub fn refuse(alloc: Global, path: &Path<'_>, code: Code) -> ReadErr
    ensures { Refuses result code (path_steps path.now) }
{
    let mut place = Vec::new(alloc);
    match add_steps(&mut place, path) {
        Ok(()) => ReadErr::Refused(Refusal { code, place }),
        Err(_) => ReadErr::NoMemory,
    }
}

/// The refusal of the whole document, or want of memory for it.
pub fn refuse_document(alloc: Global, code: Code) -> ReadErr
    ensures { Refuses result code [] }
{
    refuse(alloc, &Path::Document, code)
}

/// Puts a member's name behind the text.
fn push_name(text: &mut String, member: Member) -> Result<(), AllocError>
    ensures { OnOk result (string_bytes text.new ≡ string_bytes text.old ++ member_name member) }
{
    text.push_str(member.name())?;
    Ok(())
}

/// Puts a number in brackets behind the text.
fn push_number(text: &mut String, number: usize) -> Result<(), AllocError>
    ensures { OnOk result (string_bytes text.new ≡ string_bytes text.old ++ step_text (Step.Element number)) }
{
    write!(text, "[{number}]")
}

/// Puts a step behind the text.
fn push_step(text: &mut String, step: Step) -> Result<(), AllocError>
    ensures { OnOk result (string_bytes text.new ≡ string_bytes text.old ++ step_text step) }
{
    match step {
        Step::Member(member) => {
            text.push_str(".")?;
            push_name(text, member)
        }
        Step::Element(number) => push_number(text, number),
    }
}

/// Puts the first step behind the text.
fn push_first(text: &mut String, step: Step) -> Result<(), AllocError>
    ensures { OnOk result (string_bytes text.new ≡ string_bytes text.old ++ first_text step) }
{
    match step {
        Step::Member(member) => push_name(text, member),
        Step::Element(number) => push_number(text, number),
    }
}

/// Puts these steps behind the text.
fn push_steps(text: &mut String, steps: &[Step]) -> Result<(), AllocError>
    ensures { OnOk result (string_bytes text.new ≡ string_bytes text.old ++ flat_map step_text steps.now) }
{
    match steps {
        [] => Ok(()),
        [step, rest @ ..] => {
            push_step(text, *step)?;
            push_steps(text, rest)
        }
    }
}

/// Puts a place behind the text.
fn push_place(text: &mut String, place: &[Step]) -> Result<(), AllocError>
    ensures { OnOk result (string_bytes text.new ≡ string_bytes text.old ++ place_text place.now) }
{
    match place {
        [] => {
            text.push_str("document")?;
            Ok(())
        }
        [step, rest @ ..] => {
            push_first(text, *step)?;
            push_steps(text, rest)
        }
    }
}

impl Refusal {
    /// The code.
    pub fn code(&self) -> Code
        ensures { result ≡ self.now.code }
    {
        self.code
    }

    /// The place as text.
    pub fn place_text(&self, alloc: Global) -> Result<String, NoMemory>
        ensures { IfOk result (λ s. string_bytes s ≡ place_text self.now.place) }
    {
        let mut text = String::new(alloc);
        push_place(&mut text, &self.place)?;
        Ok(text)
    }
}

/// The place of a member of the object at this place.
pub fn in_member<'a>(path: &'a Path<'a>, member: Member) -> Path<'a>
    ensures { path_steps result ≡ in_member (path_steps path.now) member }
{
    Path::In(path, Step::Member(member))
}

/// The place of an element of the list at this place.
pub fn in_element<'a>(path: &'a Path<'a>, i: usize) -> Path<'a>
    ensures { path_steps result ≡ in_element (path_steps path.now) i }
{
    Path::In(path, Step::Element(i))
}
