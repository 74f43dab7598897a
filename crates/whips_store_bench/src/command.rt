//! The command: its two words.
ghost use Rattle.std.specs.Prelude.{◌≤◌, IfSome};

/// The most rows, and the most transactions.
const MOST: u32 = 4_096;

/// The size of a run.
#[derive(Clone, Copy)]
pub struct Size {
    /// The number of rows at the start, 1 to 4,096.
    pub rows: u32,
    /// The number of transactions, up to 4,096.
    pub transactions: u32,
}

/// The number that the word says, if it is in these bounds.
fn number(word: &String, least: u32) -> Option<u32>
    ensures { IfSome result (λ n. (least ≤ n) × (n ≤ MOST)) }
{
    match word.as_str().parse::<u32>() {
        Ok(n) if least <= n && n <= MOST => Some(n),
        _ => None,
    }
}

/// The size that the two words say.
pub fn read_size(words: &[String]) -> Option<Size>
    ensures { IfSome result (λ size. (1 ≤ size.rows) × (size.rows ≤ MOST)
        × (size.transactions ≤ MOST)) }
{
    match words {
        [rows, transactions] => Some(Size {
            rows: number(rows, 1)?,
            transactions: number(transactions, 0)?,
        }),
        _ => None,
    }
}
