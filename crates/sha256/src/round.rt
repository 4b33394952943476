// The working variables, and their rounds.
ghost use Rattle.std.specs.Prelude.{◌≡◌};
ghost use Rattle.sha256.specs.Block.{first_sum, second_sum, round as round_of, rounds, loaded, added as added_to};

use crate::word::{big_sigma, ch, maj};
use std::array;

// FIPS 180-4 names them a to h.
#[derive(Clone, Copy)]
pub struct Working {
    a: u32,
    b: u32,
    c: u32,
    d: u32,
    e: u32,
    f: u32,
    g: u32,
    h: u32,
}

fn first_sum(v: Working, k: u32, w: u32) -> u32
    ensures { result ≡ first_sum v k w }
{
    v.h.wrapping_add(big_sigma::<6, 11, 25>(v.e))
        .wrapping_add(ch(v.e, v.f, v.g))
        .wrapping_add(k)
        .wrapping_add(w)
}

fn second_sum(v: Working) -> u32
    ensures { result ≡ second_sum v }
{
    big_sigma::<2, 13, 22>(v.a).wrapping_add(maj(v.a, v.b, v.c))
}

#[tactic(auto, using(crate::proofs::Rounds::round_is))]
fn round(v: Working, k: u32, w: u32) -> Working
    ensures { result ≡ round_of v k w }
{
    let first = first_sum(v, k, w);
    let second = second_sum(v);
    Working {
        a: first.wrapping_add(second),
        b: v.a,
        c: v.b,
        d: v.c,
        e: v.d.wrapping_add(first),
        f: v.e,
        g: v.f,
        h: v.g,
    }
}

// Written out, so that no working variable moves from round to round.
pub fn sixteen_rounds(v: Working, k: &[u32; 16], w: &[u32; 16]) -> Working
    ensures { result ≡ rounds v k.now w.now }
{
    let v = round(v, k[0], w[0]);
    let v = round(v, k[1], w[1]);
    let v = round(v, k[2], w[2]);
    let v = round(v, k[3], w[3]);
    let v = round(v, k[4], w[4]);
    let v = round(v, k[5], w[5]);
    let v = round(v, k[6], w[6]);
    let v = round(v, k[7], w[7]);
    let v = round(v, k[8], w[8]);
    let v = round(v, k[9], w[9]);
    let v = round(v, k[10], w[10]);
    let v = round(v, k[11], w[11]);
    let v = round(v, k[12], w[12]);
    let v = round(v, k[13], w[13]);
    let v = round(v, k[14], w[14]);
    round(v, k[15], w[15])
}

impl From<[u32; 8]> for Working {
    ghost from_gives = { λ hash v. v ≡ loaded hash };

    fn from(hash: [u32; 8]) -> Working {
        let [a, b, c, d, e, f, g, h] = hash;
        Working {
            a,
            b,
            c,
            d,
            e,
            f,
            g,
            h,
        }
    }
}

pub fn added(hash: [u32; 8], v: Working) -> [u32; 8]
    ensures { result ≡ added_to hash v }
{
    let words = [v.a, v.b, v.c, v.d, v.e, v.f, v.g, v.h];
    array::from_fn(|i| hash[i].wrapping_add(words[i]))
}
