//! Parts of a script that were read are written as the data that they were read from, and the compact text of plain data is
//! read as that data.
#![tactic(auto)]

ghost use Rattle.whips_canonical_laws.specs.Plain.{CompactTextsAreRead};
ghost use Rattle.whips_canonical_laws.specs.Laws.{ValuesAreWritten, RowsAreWritten, ColumnsAreWritten, KeysAreWritten, RelationRowsAreRead, RelationsAreRead, ViewRelationsAreWritten, OutIsWritten, EqualitiesAreWritten, ConditionsAreWritten, ViewsAreRead, SessionsAreWritten, NumbersAreWritten, PickedAreRead};

/// Law: the compact text of plain data that isn't nested too deep is read as that data.
pub fn compact_texts_are_read()
    ensures { CompactTextsAreRead }
{}

/// Law: a value that was read is written as the value that it was.
pub fn values_are_written()
    ensures { ValuesAreWritten }
{}

/// Law: a list of values that was read is written as the list that it was.
pub fn rows_are_written()
    ensures { RowsAreWritten }
{}

/// Law: columns that were read are written as they were.
pub fn columns_are_written()
    ensures { ColumnsAreWritten }
{}

/// Law: a key that was read is written as it was.
pub fn keys_are_written()
    ensures { KeysAreWritten }
{}

/// Law: the rows of a relation, written in the order of their keys, are read as the same relation.
pub fn relation_rows_are_read()
    ensures { RelationRowsAreRead }
{}

/// Law: a relation, written with every member, is read as the same relation.
pub fn relations_are_read()
    ensures { RelationsAreRead }
{}

/// Law: the relations of a view that were read are written as they were.
pub fn view_relations_are_written()
    ensures { ViewRelationsAreWritten }
{}

/// Law: the out columns of a view that were read are written as they were.
pub fn out_is_written()
    ensures { OutIsWritten }
{}

/// Law: the equalities of a view that were read are written as they were.
pub fn equalities_are_written()
    ensures { EqualitiesAreWritten }
{}

/// Law: the conditions of a view that were read are written as they were.
pub fn conditions_are_written()
    ensures { ConditionsAreWritten }
{}

/// Law: a view, written with every member, is read as the same view.
pub fn views_are_read()
    ensures { ViewsAreRead }
{}

/// Law: sessions that were read are written as they were.
pub fn sessions_are_written()
    ensures { SessionsAreWritten }
{}

/// Law: a number that was read is written as the number that it was.
pub fn numbers_are_written()
    ensures { NumbersAreWritten }
{}

/// Law: a schedule with a start and a number of steps that was read is read again as the same.
pub fn picked_are_read()
    ensures { PickedAreRead }
{}
