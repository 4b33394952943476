// Parts of a message, as a reader hands them out.
ghost use Rattle.std.specs.Prelude.{◌≡◌};
ghost use Rattle.messages.specs.Contents.{commitment_fields, field_contents, triple_contents};

// A field's content, and the offset of its tag in the message.
#[derive(Clone, Copy)]
pub struct Field<'a> {
    pub content: &'a [u8],
    pub offset: usize,
}

// The three commitments of a commitments message.
#[derive(Clone, Copy)]
pub struct Commitments<'a> {
    pub first: Field<'a>,
    pub second: Field<'a>,
    pub third: Field<'a>,
}

impl<'a> Commitments<'a> {
    pub fn contents(&self) -> Triple<'a>
        ensures { triple_contents result ≡ field_contents (commitment_fields self.now) }
    {
        Triple {
            one: self.first.content,
            two: self.second.content,
            three: self.third.content,
        }
    }
}

// The contents of three commitments.
#[derive(Clone, Copy)]
pub struct Triple<'a> {
    pub one: &'a [u8],
    pub two: &'a [u8],
    pub three: &'a [u8],
}

// The answer to a challenge; the fields borrow from the message.
#[derive(Clone, Copy)]
pub enum Answer<'a> {
    First {
        permuted_key: Field<'a>,
        permuted_mask: Field<'a>,
        coins_2: Field<'a>,
        coins_3: Field<'a>,
    },
    Second {
        permutations: Field<'a>,
        masked_key: Field<'a>,
        masked_free: Field<'a>,
        coins_1: Field<'a>,
        coins_3: Field<'a>,
    },
    Third {
        permutations: Field<'a>,
        mask: Field<'a>,
        free: Field<'a>,
        coins_1: Field<'a>,
        coins_2: Field<'a>,
    },
}

// The fields of an answer to challenge 2 or 3: both have the same parts, and coins of two commitments.
#[derive(Clone, Copy)]
pub(crate) struct LongAnswer<'a> {
    pub(crate) permutations: Field<'a>,
    pub(crate) layers: Field<'a>,
    pub(crate) free: Field<'a>,
    pub(crate) lower_coins: Field<'a>,
    pub(crate) upper_coins: Field<'a>,
}

// The lengths of contents in bytes: of all layers, of a free part, and of coins and commitments.
#[derive(Clone, Copy)]
pub struct Sizes {
    pub layers: usize,
    pub free: usize,
    pub width: usize,
}
