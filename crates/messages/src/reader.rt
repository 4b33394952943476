// Reading a message field by field.
ghost use Rattle.std.specs.Prelude.{◌≡◌, ◌+◌, ◌<◌, ◌≤◌, [], length, drop, Some, MatchResult};
ghost use Rattle.messages.specs.Reading.{reading_fault};
ghost use Rattle.messages.specs.Steps.{Taken, Wrong, Next, long_slots, long_fields};
ghost use Rattle.messages.specs.Contents.{commitment_slots, commitment_fields, answer_slots, answer_fields, asked, Handed};
ghost use Rattle.messages.specs.declared.challenge.Challenge.TheVariants.{One};

use crate::challenge::Challenge;
use crate::fields::{Answer, Commitments, Field, LongAnswer, Sizes};
use refusals::fault::{Fault, FaultKind};

// Reads the field that these bytes begin with, which must have this tag and this length.
fn read_front<'a>(bytes: &'a [u8], offset: usize, tag: u8, size: usize) -> Result<Field<'a>, Fault>
    ensures { MatchResult result (λ f. Taken (record { tag = tag; size = size }) offset bytes.now f) (λ fault. Wrong (record { tag = tag; size = size }) offset bytes.now fault) }
{
    let fault = |kind| Err(Fault {
        kind,
        place: offset,
    });
    let [found, high, low, rest @ ..] = bytes else {
        return fault(FaultKind::CutOff);
    };
    let stated = *high as usize * 256 + *low as usize;
    if rest.len() < stated {
        return fault(FaultKind::CutOff);
    }
    if *found != tag {
        return fault(FaultKind::WrongTag);
    }
    if stated != size {
        return fault(FaultKind::WrongLength);
    }
    Ok(Field {
        content: &rest[0..size],
        offset,
    })
}

// Reads a message's fields one after another; the next one begins at the offset.
#[derive(Drop)]
struct FieldReader<'a> {
    message: &'a [u8],
    offset: usize,
    ghost within: { offset ≤ length message.now },
}

impl<'a> FieldReader<'a> {
    // Reads the next field, which must have this tag and this length.
    fn field(&mut self, tag: u8, size: usize) -> Result<Field<'a>, Fault>
        ensures { MatchResult result (λ f. Next (record { tag = tag; size = size }) self.old.message.now self.old.offset self.new.message.now self.new.offset f) (λ fault. Wrong (record { tag = tag; size = size }) self.old.offset (drop self.old.offset self.old.message.now) fault) }
    {
        let field = read_front(&self.message[self.offset..], self.offset, tag, size)?;
        self.offset += 3 + size;
        Ok(field)
    }

    // Behind the last field nothing may be left.
    fn end(self) -> Result<(), Fault>
        ensures { MatchResult result (λ _. length self.entry.message.now ≤ self.entry.offset) (λ fault. reading_fault [] self.entry.offset self.entry.message.now ≡ Some fault) }
    {
        if self.message.len() > self.offset {
            return Err(Fault {
                kind: FaultKind::LeftOver,
                place: self.offset,
            });
        }
        Ok(())
    }
}

// Reads a commitments message.
pub fn read_commitments<'a>(message: &'a [u8], width: usize) -> Result<Commitments<'a>, Fault>
    ensures { MatchResult result (λ c. Handed (commitment_slots width) message.now (commitment_fields c)) (λ fault. reading_fault (commitment_slots width) 0 message.now ≡ Some fault) }
{
    let mut reader = FieldReader { message, offset: 0 };
    let first = reader.field(1, width)?;
    let second = reader.field(2, width)?;
    let third = reader.field(3, width)?;
    reader.end()?;
    Ok(Commitments {
        first,
        second,
        third,
    })
}

// Reads the answer to challenge 1.
fn read_first<'a>(message: &'a [u8], sizes: Sizes) -> Result<Answer<'a>, Fault>
    ensures { MatchResult result (λ a. (asked a ≡ One) × Handed (answer_slots One sizes) message.now (answer_fields a)) (λ fault. reading_fault (answer_slots One sizes) 0 message.now ≡ Some fault) }
{
    let mut reader = FieldReader { message, offset: 0 };
    let permuted_key = reader.field(11, sizes.layers)?;
    let permuted_mask = reader.field(12, sizes.layers)?;
    let coins_2 = reader.field(13, sizes.width)?;
    let coins_3 = reader.field(14, sizes.width)?;
    reader.end()?;
    Ok(Answer::First {
        permuted_key,
        permuted_mask,
        coins_2,
        coins_3,
    })
}

// Reads an answer to challenge 2 or 3, by the tag of its first field.
fn read_long<'a>(message: &'a [u8], tag: u8, sizes: Sizes) -> Result<LongAnswer<'a>, Fault>
    requires { tag + 4 < 256 }
    ensures { MatchResult result (λ a. Handed (long_slots tag sizes) message.now (long_fields a)) (λ fault. reading_fault (long_slots tag sizes) 0 message.now ≡ Some fault) }
{
    let mut reader = FieldReader { message, offset: 0 };
    let permutations = reader.field(tag, sizes.layers)?;
    let layers = reader.field(tag + 1, sizes.layers)?;
    let free = reader.field(tag + 2, sizes.free)?;
    let lower_coins = reader.field(tag + 3, sizes.width)?;
    let upper_coins = reader.field(tag + 4, sizes.width)?;
    reader.end()?;
    Ok(LongAnswer {
        permutations,
        layers,
        free,
        lower_coins,
        upper_coins,
    })
}

// Reads the answer to a challenge.
pub fn read_answer<'a>(
    message: &'a [u8],
    challenge: Challenge,
    sizes: Sizes,
) -> Result<Answer<'a>, Fault>
    ensures { MatchResult result (λ a. (asked a ≡ challenge) × Handed (answer_slots challenge sizes) message.now (answer_fields a)) (λ fault. reading_fault (answer_slots challenge sizes) 0 message.now ≡ Some fault) }
{
    match challenge {
        Challenge::One => read_first(message, sizes),
        Challenge::Two => {
            let long = read_long(message, 21, sizes)?;
            Ok(Answer::Second {
                permutations: long.permutations,
                masked_key: long.layers,
                masked_free: long.free,
                coins_1: long.lower_coins,
                coins_3: long.upper_coins,
            })
        }
        Challenge::Three => {
            let long = read_long(message, 31, sizes)?;
            Ok(Answer::Third {
                permutations: long.permutations,
                mask: long.layers,
                free: long.free,
                coins_1: long.lower_coins,
                coins_2: long.upper_coins,
            })
        }
    }
}
