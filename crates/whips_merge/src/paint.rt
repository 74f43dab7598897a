//! Painting the table, and taking rows out of it.
ghost use Rattle.std.specs.Prelude.{◌≡◌, ◌<◌, ◌≤◌, false, length, map, fold, IfOk, OnOk};
ghost use Rattle.std.specs.Option.{option_map};
ghost use Rattle.whips_flow.specs.Painted.{painted_rows};
ghost use Rattle.whips_flow.specs.Settling.{due_lists, later_lists, rows_after_lists};
ghost use Rattle.whips_paint.specs.Table.{with_rows, ready_numbers, ready_rows, rows_left};

use crate::lists::Queue;
use whips_paint::{Row, Table};
use whips_rel::NoMemory;

/// Paints each list of a view whose rows have come; says whether there was one.
fn paint_view(table: &mut Table, x: u32, waiting: &mut Queue) -> bool
    requires there { x < table.old.views }
    ensures table { table.new ≡ with_rows table.old (fold (painted_rows x) table.old.table.rows
        (due_lists table.old.table.last_announced waiting.old)) }
    ensures waiting { waiting.new ≡ later_lists table.old.table.last_announced waiting.old }
    ensures none { result ≡ false → table.new ≡ table.old }
{
    let last = table.told();
    let mut is_painted = false;
    while let Some(upto) = waiting.pop_due(last) {
        table.paint(x, upto);
        is_painted = true;
    }
    is_painted
}

/// Paints each list whose rows have come, view by view; says whether there was one.
pub(crate) fn paint_all(table: &mut Table, waiting: &mut Vec<Queue>) -> bool
    requires there { length waiting.old.items ≡ table.old.views }
    requires few { table.old.views ≤ 8 }
    ensures table { table.new ≡ with_rows table.old (rows_after_lists
        table.old.table.last_announced 0 waiting.old.items table.old.table.rows) }
    ensures waiting { waiting.new.items
        ≡ map (later_lists table.old.table.last_announced) waiting.old.items }
    ensures none { result ≡ false → table.new ≡ table.old }
{
    let mut is_painted = false;
    for x in 0..waiting.len() {
        let here = paint_view(table, x as u32, &mut waiting[x]);
        is_painted = is_painted | here;
    }
    is_painted
}

/// Takes the rows that go with the lowest ready one out of the table; none where no row is ready.
pub(crate) fn take_ready(table: &mut Table) -> Result<Option<Vec<Row>>, NoMemory>
    ensures taken { IfOk result (λ taken.
        option_map (λ v. v.items) taken ≡ ready_rows table.old.table.rows) }
    ensures table { OnOk result (table.new ≡ with_rows table.old
        (rows_left (ready_numbers table.old.table.rows) table.old.table.rows)) }
{
    match table.take_ready_rows() {
        Ok(rows) => Ok(rows),
        Err(_) => Err(NoMemory),
    }
}
