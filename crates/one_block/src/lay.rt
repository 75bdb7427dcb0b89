// Records laid out as the pages of one block, their MAP entries behind them.
ghost use Rattle.std.specs.Prelude.{◌≡◌, ◌+◌, ◌-◌, ◌≤◌, [], length, map, IsTrue, ◌↔◌, IsOk, OnOk, OnErr};
ghost use Rattle.std.specs.Result.{result_ok};
ghost use Rattle.pages.specs.declared.page_type.PageType.TheVariants.{Data};
ghost use Rattle.one_block.specs.Laying.{laid, fits, with_page, filled, laid_out};

use crate::laying::Laying;
use bits::Layout;
use block::{BLOCK_LEN, FIELD_LEN};
use pages::{ENTRY_LEN, Entry, MAX_FREE, PageType};
use std::error::Error;
use std::fmt;

// The records do not fit one block.
#[derive(Clone, Copy, Debug)]
pub struct DoesNotFit;

impl fmt::Display for DoesNotFit {
    fn fmt<W: fmt::Write>(&self, f: &mut fmt::Formatter<W>) -> fmt::Result {
        f.write_str("these records do not fit one block")
    }
}

impl Error for DoesNotFit {}

// Lays the records out, and Filler behind them. Never inlined: `main` would hold the block a third time.
#[inline(never)]
pub fn lay(records: &[Vec<u8>]) -> Result<[u8; BLOCK_LEN], DoesNotFit>
    ensures { result_ok result ≡ laid_out (map (λ v. v.items) records.now) }
{
    let mut laying = Laying {
        block: [0; BLOCK_LEN],
        front: 0,
        back: FIELD_LEN,
    };
    for record in records {
        laying.add(record)?;
    }
    laying.fill();
    Ok(laying.block)
}

#[tactic(auto, unfolding(crate::specs::Laying::with_page))]
impl Laying {
    // How many bytes are free.
    fn room(&self) -> usize
        ensures { result ≡ self.now.back - self.now.front }
    {
        self.back - self.front
    }

    // Lays a page of the whole record, if it fits.
    fn add(&mut self, bytes: &[u8]) -> Result<(), DoesNotFit>
        ensures fits { IsOk result ↔ IsTrue (fits (laid self.old) bytes.now) }
        ensures page { OnOk result
            (laid self.new ≡ with_page (laid self.old) Data bytes.now (length bytes.now) (length bytes.now)) }
        ensures none { OnErr result (self.new ≡ self.old) }
    {
        let count = bytes.len();
        let room = self.room();
        if room <= MAX_FREE || count == 0 || count > room - ENTRY_LEN {
            return Err(DoesNotFit);
        }
        self.block[self.front..self.front + count].copy_from_slice(bytes);
        self.enter(PageType::Data, count, count);
        Ok(())
    }

    // Lays a Filler page over what is left, if one can start there.
    fn fill(&mut self)
        ensures { laid self.new ≡ filled (laid self.old) }
    {
        let room = self.room();
        if room > MAX_FREE {
            self.enter(PageType::Filler, room - ENTRY_LEN, 0);
        }
    }

    // Writes the entry of a page that has just been laid; it is the last one if no other page can start.
    fn enter(&mut self, kind: PageType, count: usize, total: usize)
        requires room { self.old.front + count + 8 ≤ self.old.back }
        requires small { total ≤ 8208 }
        ensures { laid self.new ≡ with_page (laid self.old) kind [] count total }
    {
        self.front += count;
        self.back -= ENTRY_LEN;
        let entry = Entry {
            kind,
            last: self.room() <= MAX_FREE,
            count: count as u16,
            total: total as u32,
            ..Entry::default()
        };
        self.block[self.back..self.back + ENTRY_LEN].copy_from_slice(&entry.to_bytes());
    }
}
