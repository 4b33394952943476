// An exchange with memory for its log and its work, and the messages of an honest console. Calls are made from a list, and answer by
// number and place: those of the refusal or of the cause of a no.
use crate::honest::{Mask, Message, messages};
use exchange::exchange::{Exchange, Verdict};
use exchange_steps::log::Record;
use messages::challenge::Challenge;
use refusals::refusal::Refusal;
use relation::Relation;
use schemes::hash::Hash;
use std::process::Abort;

#[derive(Drop)]
pub struct Desk<R> {
    exchange: Exchange<R, Hash>,
    pub honest: [Message; 4],
    pub records: [Record; 3],
    pub bytes: [u8; 460],
    // how much of the memory is lent to judge
    lent: Lent,
}

#[derive(Clone, Copy)]
pub struct Lent {
    pub records: usize,
    pub bytes: usize,
    pub work: usize,
}

// How a message differs from the honest one.
#[derive(Clone, Copy)]
pub enum Change {
    Nothing,
    // the last byte is cut off
    Cut,
    // a zero stands behind the message
    Extended,
    // in one place these bits are turned
    Turned(usize, u8),
}

#[derive(Clone, Copy)]
pub enum Call {
    // line, and the commitments message
    Open(usize, Change),
    // line and byte
    Dice(usize, u8),
    // line, and the answer to the challenge with this number
    Judge(usize, usize, Change),
    Clear(usize),
    // no call of the exchange: memory for the judges that follow
    Lend(Lent),
}

const ALL: Lent = Lent {
    records: 3,
    bytes: 460,
    work: 18,
};

// Log memory that nothing was written to.
pub const UNUSED: Record = Record {
    commitments: [9; 384],
    challenge: Challenge::Three,
    start: 9,
    len: 9,
};

fn changed(message: Message, change: Change) -> Message {
    let Message { mut bytes, mut len } = message;
    match change {
        Change::Nothing => {}
        Change::Cut => len = len.saturating_sub(1),
        Change::Extended => len = len.saturating_add(1),
        Change::Turned(place, bits) => {
            if let Some(byte) = bytes.get_mut(place) {
                *byte ^= bits;
            }
        }
    }
    Message { bytes, len }
}

fn refused(refusal: Refusal) -> (u8, usize) {
    let place = match refusal {
        Refusal::Unreadable(fault) => fault.place,
        _ => 0,
    };
    (refusal.number(), place)
}

fn done(answer: Result<(), Refusal>) -> (u8, usize) {
    answer.map_or_else(refused, |()| (0, 0))
}

// The challenge's number, if one is thrown.
fn thrown(answer: Result<Challenge, Refusal>) -> (u8, usize) {
    answer.map_or_else(refused, |challenge| (challenge.number(), 0))
}

fn judged(answer: Result<Verdict, Refusal>) -> (u8, usize) {
    match answer {
        Ok(Ok(())) => (0, 0),
        Ok(Err(cause)) => (cause.number(), cause.place()),
        Err(refusal) => refused(refusal),
    }
}

impl<R: Relation + Drop> Desk<R> {
    pub fn new(relation: R, key: &[R::Entry], mask: &Mask) -> Result<Desk<R>, Refusal> {
        let honest = messages(&relation, key, mask)?;
        let exchange = Exchange::new(relation, Hash::new())?;
        Ok(Desk {
            exchange,
            honest,
            records: [UNUSED; 3],
            bytes: [9; 460],
            lent: ALL,
        })
    }

    pub fn answer(&mut self, call: Call) -> (u8, usize) {
        match call {
            Call::Open(line, change) => self.open(line, change),
            Call::Dice(line, byte) => thrown(self.exchange.dice(line, byte)),
            Call::Judge(line, number, change) => self.judge(line, number, change),
            Call::Clear(line) => done(self.exchange.clear(line)),
            Call::Lend(lent) => {
                self.lent = lent;
                (0, 0)
            }
        }
    }

    fn open(&mut self, line: usize, change: Change) -> (u8, usize) {
        let message = changed(self.honest[0], change);
        done(self.exchange.open(line, message.content()))
    }

    // A work area of which not exactly the part that was lent is zeros afterwards is answered by (255, 0).
    fn judge(&mut self, line: usize, number: usize, change: Change) -> (u8, usize) {
        let message = changed(self.honest[number.min(3)], change);
        let work_len = self.lent.work.min(18);
        let mut work = [9; 18];
        let verdict = self.exchange.judge(
            &mut self.records[0..self.lent.records.min(3)],
            &mut self.bytes[0..self.lent.bytes.min(460)],
            line,
            message.content(),
            &mut work[0..work_len],
        );
        let lent_zeroed = work[0..work_len].iter().all(|entry| *entry == 0);
        let rest_zeroed = work[work_len..18].iter().any(|entry| *entry == 0);
        if !lent_zeroed || rest_zeroed {
            return (255, 0);
        }
        judged(verdict)
    }

    pub fn nothing_logged(&self) -> bool {
        self.bytes == [9; 460] && self.records == [UNUSED; 3]
    }

    // Makes the calls, and holds the answers to those given.
    pub fn check_calls(&mut self, rt: &impl Abort, calls: &[(Call, (u8, usize))]) {
        for &(call, answer) in calls {
            assert_eq!(rt; self.answer(call), answer);
        }
    }
}
