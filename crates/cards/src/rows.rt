// A memory as rows: each a mark of two bytes, and then a block.
ghost use Rattle.std.specs.Prelude.{◌≡◌, length};
ghost use Rattle.refusal.specs.Tells.{told};
ghost use Rattle.cards.specs.Calls.{get_answer, get_buffer, put_answer, strike_answer};
ghost use Rattle.cards.specs.Rows.{mark_kind, row_count, rows, put_memory, strike_memory};

use crate::{BLOCK_LEN, Kind, judge_call, judge_place};
use refusal::Refusal;

// The bytes of a mark, and those of a row.
const MARK_LEN: usize = 2;

const ROW_LEN: usize = MARK_LEN + BLOCK_LEN;

// How many whole rows a memory has.
pub fn row_count(mem: &[u8]) -> usize
    ensures { result ≡ row_count mem.now }
{
    mem.len() / ROW_LEN
}

// What a mark means; marks are fixed byte strings.
fn read_mark(mark: &[u8]) -> Kind
    requires { length mark.now ≡ 2 }
    ensures { result ≡ mark_kind mark.now }
{
    match mark {
        b"\xD1\x05" => Kind::Block,
        b"\x00\x00" => Kind::Blank,
        _ => Kind::Lost,
    }
}

// Answers what a row holds, and copies its block, or zeros.
pub fn get_row(mem: &[u8], row: usize, buf: &mut [u8]) -> Result<Kind, Refusal>
    ensures answer { told result ≡ get_answer (rows mem.now) row (length buf.old) }
    ensures buffer { buf.new ≡ get_buffer (rows mem.now) row buf.old }
{
    judge_call(buf.len(), row, row_count(mem))?;
    let at = row * ROW_LEN;
    let kind = read_mark(&mem[at..at + MARK_LEN]);
    match kind {
        Kind::Block => buf.copy_from_slice(&mem[at + MARK_LEN..at + ROW_LEN]),
        Kind::Blank | Kind::Lost => buf.fill(0),
    }
    Ok(kind)
}

// Writes a block to a row, behind the mark that says so.
pub fn put_row(mem: &mut [u8], row: usize, block: &[u8]) -> Result<(), Refusal>
    ensures answer { told result ≡ put_answer (rows mem.old) row (length block.now) }
    ensures memory { mem.new ≡ put_memory mem.old row block.now }
{
    judge_call(block.len(), row, row_count(mem))?;
    let at = row * ROW_LEN;
    mem[at..at + MARK_LEN].copy_from_slice(b"\xD1\x05");
    mem[at + MARK_LEN..at + ROW_LEN].copy_from_slice(block);
    Ok(())
}

// Marks a row as lost, and leaves its block bytes.
pub fn strike_row(mem: &mut [u8], row: usize) -> Result<(), Refusal>
    ensures answer { told result ≡ strike_answer (rows mem.old) row }
    ensures memory { mem.new ≡ strike_memory mem.old row }
{
    judge_place(row, row_count(mem))?;
    let at = row * ROW_LEN;
    mem[at..at + MARK_LEN].copy_from_slice(b"\xEE\xEE");
    Ok(())
}
