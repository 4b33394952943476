// Runs the three moves once for a statement of each kind, without lines: a mask, its commitments, and for each challenge the answer
// and the verdict, also for a forged answer.
use crate::drawing::fill;
use crate::keys::{noise_given, short_given, weight_given};
use crate::text::front;
use console_moves::answering::answer;
use console_moves::committing::commit;
use exchange_moves::judging::{Verdict, judge};
use masks::draw::draw;
use masks::mask::MaskMut;
use messages::challenge::Challenge;
use messages::fields::Triple;
use noise_statement::noise::Noise;
use refusals::refusal::Refusal;
use relation::Relation;
use schemes::hash::Hash;
use short_statement::short::Short;
use weight_statement::weight::Weight;

pub fn run(rt: &HostRuntime) -> anyhow::Result<()> {
    println!(rt; "the three moves, once for each kind of statement")?;
    show_moves(
        rt,
        "weight",
        &Weight::new(weight_given(5))?,
        &[1, 0, 0, 1],
        &mut [0; 4],
        &mut [0; 4],
        &mut [],
    )?;
    show_moves(
        rt,
        "short",
        &Short::new(short_given())?,
        &[5, -3],
        &mut [0; 18],
        &mut [0; 18],
        &mut [],
    )?;
    show_moves(
        rt,
        "noise",
        &Noise::new(noise_given())?,
        &[1, 1],
        &mut [0; 4],
        &mut [0; 4],
        &mut [0; 2],
    )
}

fn show_moves<R: Relation>(
    rt: &HostRuntime,
    name: &str,
    statement: &R,
    key: &[R::Entry],
    permutations: &mut [u16],
    layers: &mut [u16],
    free: &mut [u16],
) -> anyhow::Result<()> {
    let mut random = [0u8; 256];
    fill(&mut random);
    let mut scheme = Hash::new();
    let mut coins = [0u8; 96];
    let mut places = MaskMut {
        permutations,
        layers,
        free,
        coins: &mut coins,
    };
    draw(statement, &scheme, &random, &mut places)?;
    let mask = places.as_mask();
    let mut commitments = [0u8; 105];
    let len = commit(
        statement,
        &mut scheme,
        key,
        mask,
        &mut [0; 20],
        &mut commitments,
    )?;
    let start = hex::encode(rt.alloc(), &commitments[0..8])?;
    println!(rt; "  {name}: commitments message of {len} bytes, {start}…")?;
    for challenge in [Challenge::One, Challenge::Two, Challenge::Three] {
        let mut message = [0u8; 160];
        let len = answer(
            statement,
            &scheme,
            key,
            mask,
            challenge.number(),
            &mut [0; 20],
            &mut message,
        )?;
        show_verdicts(rt, statement, &commitments, challenge, len, &mut message)?;
    }
    Ok(())
}

// Judges an answer, the same answer with a byte of its first field changed, and cut off by a byte.
fn show_verdicts<R: Relation>(
    rt: &HostRuntime,
    statement: &R,
    commitments: &[u8; 105],
    challenge: Challenge,
    len: usize,
    message: &mut [u8; 160],
) -> anyhow::Result<()> {
    let number = challenge.number();
    let start = hex::encode(rt.alloc(), &message[0..8])?;
    println!(rt; "    challenge {number}: answer of {len} bytes, {start}…")?;
    show_verdict(
        rt,
        "the answer",
        judged(statement, commitments, challenge, front(message, len)),
    )?;
    message[4] = 255 - message[4];
    show_verdict(
        rt,
        "with a changed number",
        judged(statement, commitments, challenge, front(message, len)),
    )?;
    message[4] = 255 - message[4];
    show_verdict(
        rt,
        "cut off by a byte",
        judged(
            statement,
            commitments,
            challenge,
            front(message, len.saturating_sub(1)),
        ),
    )
}

fn judged<R: Relation>(
    statement: &R,
    commitments: &[u8; 105],
    challenge: Challenge,
    message: &[u8],
) -> Result<Verdict, Refusal> {
    let commitments = Triple {
        one: &commitments[3..35],
        two: &commitments[38..70],
        three: &commitments[73..105],
    };
    judge(
        statement,
        &mut Hash::new(),
        commitments,
        challenge,
        message,
        &mut [0; 20],
    )
}

fn show_verdict(
    rt: &HostRuntime,
    what: &str,
    verdict: Result<Verdict, Refusal>,
) -> anyhow::Result<()> {
    match verdict {
        Ok(Ok(())) => println!(rt; "      {what}: yes")?,
        Ok(Err(cause)) => println!(rt; "      {what}: no, {cause}")?,
        Err(refusal) => println!(rt; "      {what}: refused by {refusal}")?,
    }
    Ok(())
}
