//! Laws of what a Strobe manager asks: which step an ask names, what it is filled with, and which replies fit.
#![tactic(auto)]

ghost use Rattle.whips_ask_laws.specs.Begun.{AfterTransaction};
ghost use Rattle.whips_ask_laws.specs.Laws.{
  AskNamesStep,
  AskIsFree,
  TransactionAsks,
  ReplyAsks,
  AnswerFits,
  LastIsWhole,
  SeedsAreWhole,
  ReplyToFirst,
  BasesAreSoundParts,
};

/// Law: after a transaction the action list has a key delete for each key that it takes, and then what is put at once; each
/// earlier query has these keys among its pending deletions; behind them stand the queries that begin, and each of these is
/// asked at its first step.
pub fn after_transaction()
    ensures { AfterTransaction }
{}

/// Law: the ask of a query that can be asked names one of the steps of its origin, at that step's source, and can be
/// answered there: the step's parts are parts of the view, none stands twice, and no partial choice is filled at one.
pub fn ask_names_step()
    ensures step { AskNamesStep }
    ensures free { AskIsFree }
{}

/// Law: after a transaction whose tuples have their relations' widths, and after a reply that fits, each open query can
/// be asked.
pub fn asks_stay()
    ensures transaction { TransactionAsks }
    ensures reply { ReplyAsks }
{}

/// Law: the answer to the ask of an open query fits, on whichever rows of their widths the source holds then. Relations with
/// the columns that the view was made with have such rows.
pub fn answer_fits()
    ensures answer { AnswerFits }
    ensures sound { BasesAreSoundParts }
{}

/// Law: the choices whose rows a manager puts are whole, and any two of them differ in a key.
pub fn puts_are_whole()
    ensures last { LastIsWhole }
    ensures seeds { SeedsAreWhole }
{}

/// Law: a reply goes to the first query with its name.
pub fn reply_to_first()
    ensures { ReplyToFirst }
{}
