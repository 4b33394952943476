// Committing to a message that is given in parts.
ghost use Rattle.std.specs.Prelude.{◌≡◌, ◌-◌, ◌≤◌, ltb, length, if◌then◌else◌, Some, None, MatchResult, nat_lt};
ghost use Rattle.refusals.specs.Answers.{Answered};
ghost use Rattle.vectors.specs.Lists.{same};
ghost use Rattle.vectors.specs.Words.{bytes};
ghost use Rattle.commitment.specs.Meaning.{Fresh, Fed, feed_fault};
ghost use Rattle.vectors.specs.Parts.{content};
ghost use Rattle.commitment.specs.Messages.{message, commit_fault, open_fault};

use crate::part::Part;
use crate::scheme::Scheme;
use refusals::refusal::Refusal;
use vectors::encoding::write_words;

// The room that a part leaves, if it fits.
#[tactic(auto, using(vectors::proofs::Words::length_bytes))]
fn room_behind(part: &Part, room: usize) -> Option<usize>
    ensures { result ≡ (if ltb room (length (content part.now)) then None else Some (room - length (content part.now))) }
{
    match part {
        Part::Bytes(bytes) => room.checked_sub(bytes.len()),
        Part::Words(words) => room.checked_sub(words.len().checked_mul(2)?),
    }
}

// Says whether the message is longer than `limit`.
fn passes(parts: &[Part], limit: usize) -> bool
    ensures { result ≡ nat_lt limit (length (message parts.now)) }
{
    parts
        .iter()
        .try_fold(limit, |room, part| room_behind(part, room))
        .is_none()
}

// Feeds numbers as two bytes each, the high byte first.
#[tactic(auto, using(vectors::proofs::Words::length_bytes))]
pub fn feed_words<S: Scheme>(scheme: &mut S, words: &[u16]) -> Result<(), Refusal>
    ensures outcome { Answered (feed_fault (S.Scheme.state scheme.old) (length (bytes words.now))) result (λ _. Fed (S.Scheme.state scheme.old) (bytes words.now) (S.Scheme.state scheme.new)) (scheme.new ≡ scheme.old) }
    ensures kept { S.Scheme.meaning scheme.new ≡ S.Scheme.meaning scheme.old }
{
    if words.len() > scheme.room() / 2 {
        return Err(Refusal::MessageLimit);
    }
    let mut buffer = [0u8; 128];
    for piece in words.chunks(64) {
        write_words(piece, &mut buffer, 0);
        scheme.feed(&buffer[..2 * piece.len()])?;
    }
    Ok(())
}

fn feed_part<S: Scheme>(scheme: &mut S, part: &Part) -> Result<(), Refusal>
    ensures outcome { Answered (feed_fault (S.Scheme.state scheme.old) (length (content part.now))) result (λ _. Fed (S.Scheme.state scheme.old) (content part.now) (S.Scheme.state scheme.new)) (scheme.new ≡ scheme.old) }
    ensures kept { S.Scheme.meaning scheme.new ≡ S.Scheme.meaning scheme.old }
{
    match part {
        Part::Bytes(bytes) => scheme.feed(bytes),
        Part::Words(words) => feed_words(scheme, words),
    }
}

// Nothing is refused, since the room suffices; the Result is that of each feeding, handed on.
fn feed_parts<S: Scheme>(scheme: &mut S, parts: &[Part]) -> Result<(), Refusal>
    requires { length (message parts.now) ≤ (S.Scheme.state scheme.old).room }
    ensures outcome { MatchResult result (λ _. Fed (S.Scheme.state scheme.old) (message parts.now) (S.Scheme.state scheme.new)) (λ _. ⊥) }
    ensures kept { S.Scheme.meaning scheme.new ≡ S.Scheme.meaning scheme.old }
{
    for part in parts {
        feed_part(scheme, part)?;
    }
    Ok(())
}

// Commits to the message that the parts make up, in one go.
pub fn commit<S: Scheme>(
    scheme: &mut S,
    coins: &[u8],
    parts: &[Part],
    out: &mut [u8],
) -> Result<(), Refusal>
    ensures outcome { Answered (commit_fault (S.Scheme.meaning scheme.old) coins.now (message parts.now) out.old) result (λ _. (out.new ≡ (S.Scheme.meaning scheme.old).value coins.now (message parts.now)) × Fresh (S.Scheme.meaning scheme.old) (S.Scheme.state scheme.new)) ((out.new ≡ out.old) × (scheme.new ≡ scheme.old)) }
    ensures kept { S.Scheme.meaning scheme.new ≡ S.Scheme.meaning scheme.old }
{
    let width = scheme.width();
    if coins.len() != width {
        return Err(Refusal::CoinsLength);
    }
    if out.len() != width {
        return Err(Refusal::CommitmentLength);
    }
    if passes(parts, scheme.limit()) {
        return Err(Refusal::MessageLimit);
    }
    scheme.start(coins)?;
    feed_parts(scheme, parts)?;
    scheme.finish(out)
}

fn opens_within<S: Scheme>(
    scheme: &mut S,
    commitment: &[u8],
    coins: &[u8],
    parts: &[Part],
    value: &mut [u8],
) -> Result<bool, Refusal>
    requires { length value.old ≡ (S.Scheme.meaning scheme.old).width }
    ensures outcome { Answered (open_fault (S.Scheme.meaning scheme.old) coins.now (message parts.now)) result (λ b. (b ≡ same commitment.now ((S.Scheme.meaning scheme.old).value coins.now (message parts.now))) × Fresh (S.Scheme.meaning scheme.old) (S.Scheme.state scheme.new)) (scheme.new ≡ scheme.old) }
    ensures kept { S.Scheme.meaning scheme.new ≡ S.Scheme.meaning scheme.old }
{
    commit(scheme, coins, parts, value)?;
    let value: &[u8] = value;
    Ok(commitment == value)
}

// Says whether the coins and the message open the commitment: whether it is their value.
pub fn opens<S: Scheme>(
    scheme: &mut S,
    commitment: &[u8],
    coins: &[u8],
    parts: &[Part],
) -> Result<bool, Refusal>
    ensures outcome { Answered (open_fault (S.Scheme.meaning scheme.old) coins.now (message parts.now)) result (λ b. (b ≡ same commitment.now ((S.Scheme.meaning scheme.old).value coins.now (message parts.now))) × Fresh (S.Scheme.meaning scheme.old) (S.Scheme.state scheme.new)) (scheme.new ≡ scheme.old) }
    ensures kept { S.Scheme.meaning scheme.new ≡ S.Scheme.meaning scheme.old }
{
    let mut buffer = [0u8; 128];
    let width = scheme.width();
    opens_within(scheme, commitment, coins, parts, &mut buffer[..width])
}
