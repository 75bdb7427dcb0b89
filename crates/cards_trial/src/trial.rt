// A card that is tried beside its model: what a step does to both, and how the two are compared.
use crate::model::{Held, Model, all_are, block, block_byte};
use crate::script::{SCRIPT, Step, say};
use cards::{BLOCK_LEN, Card, Kind};
use refusal::Refusal;
use std::io;

// What an untouched buffer holds.
const UNTOUCHED: u8 = 0x5A;

// More bytes than the script puts or gets.
const LONG_LEN: usize = 8300;

#[derive(Drop)]
pub struct Trial<C> {
    pub card: C,
    pub model: Model,
    // how many comparisons were made, and how many failed
    made: u32,
    failed: u32,
}

// Puts another block at each place of a card and of its model.
pub fn put_each<C: Card>(card: &mut C, model: &mut Model) {
    // By number: a card is no slice, and the model is written to on the way.
    for place in 0..model.places() {
        let seed = block_byte(100, place);
        model.hold(place, Held::Block(seed));
        let _ = card.put(place, &block(seed));
    }
}

impl<C: Card> Trial<C> {
    pub fn new(card: C, model: Model) -> Trial<C> {
        Trial {
            card,
            model,
            made: 0,
            failed: 0,
        }
    }

    pub fn compare(&mut self, agrees: bool) {
        self.made = self.made.wrapping_add(1);
        if !agrees {
            self.failed = self.failed.wrapping_add(1);
        }
    }

    // Compares what a place holds. A refused get leaves the buffer as it was.
    fn compare_place(&mut self, place: usize) {
        let mut buf = [UNTOUCHED; BLOCK_LEN];
        let answer = self.card.get(place, &mut buf);
        match self.model.at(place) {
            Some(held) => {
                self.compare(answer == Ok(Kind::from(held)));
                self.compare(buf == held.bytes());
            }
            None => {
                self.compare(answer == Err(Refusal::NoSuchPlace(place)));
                self.compare(all_are(UNTOUCHED, &buf));
            }
        }
    }

    // Compares the number of places, what each of them holds, and the first place that is lacking.
    pub fn compare_all(&mut self) {
        let places = self.model.places();
        let agrees = self.card.places() == places;
        self.compare(agrees);
        // By number: the places of a card are no slice.
        for place in 0..places {
            self.compare_place(place);
        }
        self.compare_place(places);
    }

    fn put(&mut self, place: usize, seed: u8) -> Result<(), Refusal> {
        let expected = self.model.judge(place, BLOCK_LEN);
        let answer = self.card.put(place, &block(seed));
        self.compare(answer == expected);
        self.model.hold(place, Held::Block(seed));
        answer
    }

    fn strike(&mut self, place: usize) -> Result<(), Refusal> {
        let expected = self.model.judge(place, BLOCK_LEN);
        let answer = self.card.strike(place);
        self.compare(answer == expected);
        self.model.hold(place, Held::Lost);
        answer
    }

    fn get(&mut self, place: usize) -> Result<Kind, Refusal> {
        self.compare_place(place);
        self.card.get(place, &mut [UNTOUCHED; BLOCK_LEN])
    }

    fn misput(&mut self, place: usize, len: usize) -> Result<(), Refusal> {
        let buf = [UNTOUCHED; LONG_LEN];
        let expected = self.model.judge(place, len);
        let answer = self.card.put(place, &buf[..len.min(LONG_LEN)]);
        self.compare(answer == expected);
        answer
    }

    fn misget(&mut self, place: usize, len: usize) -> Result<Kind, Refusal> {
        let mut buf = [UNTOUCHED; LONG_LEN];
        let answer = self.card.get(place, &mut buf[..len.min(LONG_LEN)]);
        self.compare(answer == Err(Refusal::WrongLength(len)));
        self.compare(all_are(UNTOUCHED, &buf));
        answer
    }

    // Does a step on the card and on the model.
    fn act(&mut self, step: Step) -> Result<Option<Kind>, Refusal> {
        match step {
            Step::Put { place, seed } => self.put(place, seed).map(|()| None),
            Step::Strike { place } => self.strike(place).map(|()| None),
            Step::Get { place } => self.get(place).map(Some),
            Step::Misput { place, len } => self.misput(place, len).map(|()| None),
            Step::Misget { place, len } => self.misget(place, len).map(Some),
        }
    }

    // Runs the script, and compares everything before it and after each step.
    pub fn run(&mut self, rt: &HostRuntime, name: &str) -> io::Result<()> {
        let places = self.card.places();
        println!(rt; "{name}: {places} places")?;
        self.compare_all();
        for step in SCRIPT {
            print!(rt; "  {step}: ")?;
            let answer = self.act(step);
            say(rt, answer)?;
            self.compare_all();
        }
        self.report(rt, name)
    }

    pub fn report(&self, rt: &HostRuntime, name: &str) -> io::Result<()> {
        let made = self.made;
        let failed = self.failed;
        println!(rt; "{name}: {made} comparisons, {failed} differ")
    }
}

// Runs the script on a card that should hold what its model holds.
pub fn run<C: Card + Drop>(rt: &HostRuntime, name: &str, card: C, model: Model) -> io::Result<()> {
    Trial::new(card, model).run(rt, name)
}
