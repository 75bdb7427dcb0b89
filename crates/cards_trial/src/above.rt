// What stands above a card and is tried: skip cards on it, their lists, and runs of its places.
use crate::model::{Held, Model, all_are, block, block_byte};
use crate::script::say;
use crate::trial::{Trial, put_each, run};
use cards::{BLOCK_LEN, Card, FourTrackCard, StripCard};
use refusal::Refusal;
use runs::{get_run, put_copies, put_run, put_run_down};
use skip::{SkipCard, judge_list};
use std::{array, io};

// A skip card on any card, with a list that is judged first: it starts with what the model below has left.
fn skip_on<C: Card + Drop>(
    rt: &HostRuntime,
    name: &str,
    card: C,
    list: &[usize],
    below: &Model,
) -> io::Result<()> {
    if let Err(e) = judge_list(&card, list) {
        return println!(rt; "{name}: {e}");
    }
    let left = below.without(list);
    run(rt, name, SkipCard::new(card, list), left)
}

// A skip card on a skip card. It judges as above and not by it, since it hands the card on.
fn skip_twice<C: Card + Drop>(rt: &HostRuntime, card: C, below: &Model) -> io::Result<()> {
    let name = "skip on skip";
    let list = [0, 3, 4];
    if let Err(e) = judge_list(&card, &list) {
        return println!(rt; "{name}: {e}");
    }
    let left = below.without(&list);
    skip_on(rt, name, SkipCard::new(card, &list), &[1, 4], &left)
}

// Skip cards on a four-track card of 8 places, each with another block: one, and one on another.
pub fn skips(rt: &HostRuntime) -> io::Result<()> {
    let mut first = [0; 16516];
    let mut second = [0; 16516];
    let mut third = [0; 16516];
    let mut fourth = [0; 16516];
    let mut model = Model::new(&[Held::Blank; 8]);
    let mut tracks = FourTrackCard::new(&mut first, &mut second, &mut third, &mut fourth);
    put_each(&mut tracks, &mut model);
    skip_on(rt, "skip on four tracks", tracks, &[0, 3, 4], &model)?;
    let mut tracks = FourTrackCard::new(&mut first, &mut second, &mut third, &mut fourth);
    put_each(&mut tracks, &mut model);
    skip_twice(rt, tracks, &model)
}

fn judge<C: Card>(rt: &HostRuntime, card: &C, list: &[usize]) -> io::Result<()> {
    print!(rt; "  {list:?}: ")?;
    say(rt, judge_list(card, list).map(|()| None))
}

// Lists of bad places for a card of three places.
pub fn lists(rt: &HostRuntime) -> io::Result<()> {
    let mut mem = [0; 24774];
    let card = StripCard::new(&mut mem);
    println!(rt; "lists for 3 places:")?;
    judge(rt, &card, &[])?;
    judge(rt, &card, &[0, 1, 2])?;
    judge(rt, &card, &[2])?;
    judge(rt, &card, &[3])?;
    judge(rt, &card, &[0, 1, 1])?;
    judge(rt, &card, &[0, 2, 1])?;
    judge(rt, &card, &[1, 0, 9])?;
    print!(rt; "  65 entries: ")?;
    say(rt, judge_list(&card, &[0; 65]).map(|()| None))
}

// A work area with the blocks of two seeds.
fn blocks_of(first: u8, second: u8) -> [u8; 2 * BLOCK_LEN] {
    array::from_fn(|index| {
        let seed = if index < BLOCK_LEN { first } else { second };
        block_byte(seed, index % BLOCK_LEN)
    })
}

// Runs of places on a card of four places, from and to a work area of two blocks.
fn runs_on<C: Card + Drop>(rt: &HostRuntime, card: C) -> io::Result<()> {
    // what the places hold once the copies are put
    let model = Model::new(&[Held::Block(10); 4]);
    let mut trial = Trial::new(card, model);
    let mut work = blocks_of(10, 20);
    let copied = put_copies(&mut trial.card, 0, 4, &block(10));
    trial.compare(copied == Ok(()));
    trial.compare_all();
    let up = put_run(&mut trial.card, 1, &work);
    trial.compare(up == Ok(()));
    trial.model.hold(2, Held::Block(20));
    trial.compare_all();
    let down = put_run_down(&mut trial.card, 2, &work);
    trial.compare(down == Ok(()));
    trial.model.hold(2, Held::Block(10));
    trial.model.hold(3, Held::Block(20));
    trial.compare_all();
    refused_runs(&mut trial, &work);
    let got = get_run(&trial.card, 3, &mut work);
    trial.compare(got == Ok(()));
    let (first, second) = work.split_at(BLOCK_LEN);
    trial.compare(first == block(20).as_slice() && all_are(0, second));
    trial.report(rt, "runs")
}

// Runs that pass the last place of four, and a body of two blocks.
fn refused_runs<C: Card>(trial: &mut Trial<C>, work: &[u8]) {
    let up = put_run(&mut trial.card, 3, work);
    trial.compare(up == Err(Refusal::NoSuchPlace(4)));
    let down = put_run_down(&mut trial.card, 7, work);
    trial.compare(down == Err(Refusal::NoSuchPlace(7)));
    let copied = put_copies(&mut trial.card, 0, 1, work);
    trial.compare(copied == Err(Refusal::WrongLength(work.len())));
    trial.compare_all();
}

pub fn runs(rt: &HostRuntime) -> io::Result<()> {
    let mut mem = [0; 33032];
    runs_on(rt, StripCard::new(&mut mem))
}
