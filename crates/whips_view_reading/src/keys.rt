//! Whether a view shows the keys of its relations.
ghost use Rattle.std.specs.Prelude.{◌≡◌, ◌≤◌, ◌+◌, length};
ghost use Rattle.std.specs.List.{list_all};
ghost use Rattle.whips_view_reading.specs.Views.{is_among_columns, are_keys_out};

use whips_model::ColRef;
use whips_relation_reading::RelationForm;

/// Whether the column of this part is among these.
fn is_among_columns(out: &[ColRef], part: u32, col: u32) -> bool
    ensures { result ≡ is_among_columns out.now part col }
{
    match out {
        [] => false,
        [first, rest @ ..] => {
            (first.part == part && first.col == col) || is_among_columns(rest, part, col)
        }
    }
}

/// Whether each of these key columns of this part is among the out columns.
fn is_key_out(out: &[ColRef], part: u32, key: &[u32]) -> bool
    ensures { result ≡ list_all (is_among_columns out.now part) key.now }
{
    match key {
        [] => true,
        [first, rest @ ..] => is_among_columns(out, part, *first) && is_key_out(out, part, rest),
    }
}

/// Whether the key columns of these relations, of which the first is at this part of the view, are all among its out
/// columns.
pub(crate) fn are_keys_out(
    out: &[ColRef],
    relations: &[RelationForm],
    part: u32,
    numbers: &[u32],
) -> bool
    requires { part + length numbers.now ≤ 4 }
    ensures { result ≡ are_keys_out out.now relations.now part numbers.now }
{
    match numbers {
        [] => true,
        [number, rest @ ..] => {
            let key = match relations.get(*number as usize) {
                Some(relation) => relation.relation.schema().key(),
                None => &[],
            };
            is_key_out(out, part, key) && are_keys_out(out, relations, part + 1, rest)
        }
    }
}
