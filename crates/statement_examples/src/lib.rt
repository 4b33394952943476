// Statements of each kind, run on examples.
#![tactic(auto)]

use refusals::refusal::Refusal;
use relation::Relation;

#[cfg(test)]
mod noise;
#[cfg(test)]
mod short;
#[cfg(test)]
mod weight;

// The refusal's number, or 0.
pub fn number<T: Drop>(answer: Result<T, Refusal>) -> u8 {
    match answer {
        Ok(_) => 0,
        Err(refusal) => refusal.number(),
    }
}

// What splitting the key says, and the layers and the free part that it leaves; they hold nines before.
pub fn split<R: Relation + Drop, const LAYERS: usize, const FREE: usize>(
    made: Result<R, Refusal>,
    key: &[R::Entry],
) -> (u8, [u16; LAYERS], [u16; FREE]) {
    let mut layers = [9; LAYERS];
    let mut free = [9; FREE];
    let answer = made.and_then(|relation| relation.split(key, &mut layers, &mut free));
    (number(answer), layers, free)
}

// What gathering says, and the key that it leaves; it holds `before` before.
pub fn gather<R: Relation + Drop, const KEY: usize>(
    made: Result<R, Refusal>,
    layers: &[u16],
    free: &[u16],
    before: R::Entry,
) -> (u8, [R::Entry; KEY]) {
    let mut key = [before; KEY];
    let answer = made.and_then(|relation| relation.gather(layers, free, &mut key));
    (number(answer), key)
}

// What the image says, and the residues that it leaves; they hold nines before.
pub fn image<R: Relation + Drop, const ROWS: usize>(
    made: Result<R, Refusal>,
    layers: &[u16],
    free: &[u16],
) -> (u8, [u16; ROWS]) {
    let mut out = [9; ROWS];
    let answer = made.and_then(|relation| relation.image(layers, free, &mut out));
    (number(answer), out)
}
