//! The buffer.
ghost use Rattle.std.specs.Prelude.{◌≡◌, ◌<◌, ◌≤◌, [], length, vec_capacity, IfOk, Some, slice_get, insert};
ghost use Rattle.std.specs.List.{AllByRecursion};
ghost use Rattle.whips_row_buf.specs.Buffers.{Buffer, IsBuffer, put_behind};

use crate::line::{Line, is_up_to};
use std::alloc::Global;
use std::marker::Model;
use whips_rel::{NoMemory, Schema};

/// Rows in the order of their keys, and among rows with one key in the order in which they were put.
///
/// Seen as the columns, the rows and the room. All memory is taken when it is made.
#[derive(Drop)]
pub struct RowBuf {
    schema: Schema,
    room: u32,
    rows: Vec<Line>,
    spare: Vec<Line>,
}

impl Model for RowBuf {
    ghost use Rattle.std.specs.Prelude.{◌≡◌, ◌<◌, ◌≤◌, ◌+◌, ◌^◌, length, vec_capacity};
    ghost use Rattle.std.specs.List.{AllByRecursion};
    ghost use Rattle.whips_row_buf.specs.Buffers.{Buffer, IsBuffer};

    ghost Value = { Buffer };

    ghost view = { λ b. record { columns = b.schema; rows = b.rows.items; room = b.room } };

    ghost invariant = { λ b. IsBuffer (record { columns = b.schema; rows = b.rows.items; room = b.room })
        × (length b.rows.items + length b.spare.items ≡ b.room)
        × AllByRecursion (λ t. length t ≡ length b.schema.kinds) b.spare.items
        × (b.room ≤ vec_capacity b.rows) × (b.room ≤ vec_capacity b.spare) × (b.room < 2 ^ 32) };
}

/// This many rows of this width.
fn spare_lines(alloc: Global, room: u32, width: usize) -> Result<Vec<Line>, NoMemory>
    ensures { IfOk result (λ s. (length s.items ≡ room)
        × AllByRecursion (λ t. length t ≡ width) s.items × (room ≤ vec_capacity s)) }
{
    let mut spare = Vec::with_capacity(alloc, room as usize)?;
    for _ in 0..room {
        spare.push(Line::make(alloc, width)?)?;
    }
    Ok(spare)
}

impl RowBuf {
    /// An empty buffer for this many rows of the schema.
    pub fn make(alloc: Global, schema: &Schema, room: u32) -> Result<RowBuf, NoMemory>
        ensures { IfOk result (λ b. b ≡ record { columns = schema.now; rows = []; room = room }) }
    {
        let spare = spare_lines(alloc, room, schema.kinds().len())?;
        Ok(RowBuf {
            schema: schema.copy()?,
            room,
            rows: Vec::with_capacity(alloc, room as usize)?,
            spare,
        })
    }

    /// The number of rows. What every buffer keeps is said here.
    pub fn len(&self) -> u32
        ensures len { result ≡ length self.now.rows }
        ensures sound { IsBuffer self.now }
    {
        self.rows.len() as u32
    }

    /// The number of rows that it can hold.
    pub fn room(&self) -> u32
        ensures { result ≡ self.now.room }
    {
        self.room
    }

    /// The codes of the row at place `i`, from 0.
    pub fn row(&self, i: u32) -> &[u64]
        requires { i < length self.now.rows }
        ensures { slice_get self.now.rows i ≡ Some result.now }
    {
        self.rows[i as usize].codes()
    }
}

impl RowBuf {
    /// Where a row of these codes goes.
    fn place(&self, codes: &[u64]) -> usize
        ensures bound { result ≤ length self.now.rows }
        ensures place { insert self.now.rows result codes.now
            ≡ put_behind self.now.columns.key codes.now self.now.rows }
    {
        let key = self.schema.key();
        self.rows
            .partition_point(|line| is_up_to(key, line.codes(), codes))
    }

    /// Takes all rows out.
    pub fn clear(&mut self)
        ensures { self.new ≡ record self.old { rows = [] } }
    {
        let _kept = self.spare.append(&mut self.rows);
    }

    /// Puts a row of these codes where its key belongs, behind the rows with the same key.
    pub fn put(&mut self, codes: &[u64])
        requires room { length self.old.rows < self.old.room }
        requires width { length codes.now ≡ length self.old.columns.kinds }
        ensures { self.new
            ≡ record self.old { rows = put_behind self.old.columns.key codes.now self.old.rows } }
    {
        let at = self.place(codes);
        if let Some(mut line) = self.spare.pop() {
            line.set(codes);
            let _put = self.rows.insert(at, line);
        }
    }
}
