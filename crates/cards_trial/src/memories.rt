// The cards over memories that are tried: marks of every kind, and bytes behind the rows.
ghost use Rattle.std.specs.Prelude.{◌+◌, ◌≤◌, length};

use crate::lent::{put_into, strike_in};
use crate::model::{Held, Model, block};
use crate::trial::run;
use cards::{FourTrackCard, StripCard};
use std::io;

// The trials here are never inlined: `main` would hold their memories while it runs the others.

// The byte that no card should write over: it stands behind the rows.
const BEHIND: u8 = 0xA5;

// Whether all bytes from an index on are as they were.
fn is_kept(mem: &[u8], from: usize) -> bool {
    mem.iter().skip(from).all(|byte| *byte == BEHIND)
}

// Writes bytes over a part of a memory.
fn lay(mem: &mut [u8], at: usize, bytes: &[u8])
    requires { at + length bytes.now ≤ length mem.old }
{
    mem[at..at + bytes.len()].copy_from_slice(bytes);
}

// The strip card on three rows and 100 bytes: a blank row, a row whose mark differs from a block's in one byte, a
// row with a block.
#[inline(never)]
pub fn strip(rt: &HostRuntime) -> io::Result<()> {
    let mut mem = [BEHIND; 24874];
    lay(&mut mem, 0, b"\x00\x00");
    lay(&mut mem, 8258, b"\xD1\x04");
    lay(&mut mem, 16516, b"\xD1\x05");
    lay(&mut mem, 16518, &block(9));
    let held = [Held::Blank, Held::Lost, Held::Block(9)];
    let model = Model::new(&held);
    run(rt, "strip", StripCard::new(&mut mem), model)?;
    let kept = is_kept(&mem, 24774);
    println!(rt; "strip: bytes behind the rows kept: {kept}")
}

fn without_rows(rt: &HostRuntime, name: &str, mem: &mut [u8]) -> io::Result<()> {
    let model = Model::new(&[]);
    run(rt, name, StripCard::new(mem), model)?;
    let kept = is_kept(mem, 0);
    println!(rt; "{name}: kept: {kept}")
}

// Strip cards with no place: no memory, and one that is a byte short of a row.
pub fn no_rows(rt: &HostRuntime) -> io::Result<()> {
    without_rows(rt, "no memory", &mut [])?;
    without_rows(rt, "short memory", &mut [BEHIND; 8257])
}

// The four-track card on memories of 3, 2, 4 and 2 rows: rows and bytes behind the second row stay.
#[inline(never)]
pub fn four_track(rt: &HostRuntime) -> io::Result<()> {
    let mut first = [BEHIND; 24779];
    let mut second = [0; 16516];
    let mut third = [BEHIND; 33032];
    let mut fourth = [0; 24773];
    lay(&mut fourth, 16516, &[BEHIND; 8257]);
    let mut model = Model::new(&[Held::Blank; 8]);
    for place in [0, 2, 4, 6] {
        model.hold(place, Held::Lost);
    }
    let card = FourTrackCard::new(&mut first, &mut second, &mut third, &mut fourth);
    run(rt, "four tracks", card, model)?;
    let kept = is_kept(&first, 16516) && is_kept(&third, 16516) && is_kept(&fourth, 16516);
    println!(rt; "four tracks: what lies behind the shortest memory's rows kept: {kept}")
}

// Whether a row is a mark and then a block.
fn is_row(row: &[u8], mark: &[u8], body: &[u8]) -> bool {
    row.starts_with(mark) && row.ends_with(body)
}

// What lies in two rows and 84 bytes after a put and a strike: the mark is struck, the block bytes stay.
#[inline(never)]
pub fn memory(rt: &HostRuntime) -> io::Result<()> {
    let mut mem = [BEHIND; 16600];
    let body = block(77);
    put_into(&mut mem, 1, &body);
    let put = is_row(&mem[8258..16516], b"\xD1\x05", &body);
    strike_in(&mut mem, 1);
    let struck = is_row(&mem[8258..16516], b"\xEE\xEE", &body);
    let mut rest = mem.iter().take(8258).chain(mem.iter().skip(16516));
    let kept = rest.all(|byte| *byte == BEHIND);
    println!(rt; "memory: put {put}, struck {struck}, the rest kept {kept}")
}
