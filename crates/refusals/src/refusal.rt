// Why a call refuses.
ghost use Rattle.std.specs.Prelude.{◌≡◌};
ghost use Rattle.refusals.specs.Numbers.{number};
ghost use Rattle.refusals.specs.declared.refusal.Refusal.TheVariants.{Unreadable};

use crate::fault::Fault;
use std::error::Error;
use std::fmt;

// A call that refuses names one of these; docs/SPECIFICATION.md has the condition of each.
#[derive(Clone, Copy, PartialEq, Eq, Debug)]
pub enum Refusal {
    // the statement
    SizeOutOfRange,
    ModulusOutOfRange,
    BoundOutOfRange,
    StatementLength,
    EntryNotBelowModulus,
    // calls of a relation
    RelationArgument,
    KeyLength,
    KeyEntryOutOfRange,
    KeyWeight,
    KeyImage,
    NoExtractedKey,
    // the console
    NoSuchConsoleLine,
    ConsoleLineInUse,
    MaskPartLength,
    MaskContent,
    LoadsUsedUp,
    LineMemoryShort,
    SlipNotCarried,
    RoomShort,
    ChallengeOutOfRange,
    // the exchange
    NoSuchExchangeLine,
    ExchangeLineInUse,
    LineNotOpened,
    DiceByte,
    LineNotChallenged,
    LogFull,
    LineAlreadyFree,
    // commitment schemes, and making a side
    LabelLength,
    CoinsLength,
    CommitmentLength,
    MessageLimit,
    SchemeLimit,
    // extraction from the log
    NoSuchEntry,
    CommitmentsDiffer,
    EntryChallenges,
    ExtractionMemoryShort,
    EntryAltered,
    // masks
    RandomBytesRunOut,
    // a message that the reader does not take
    Unreadable(Fault),
}

impl Refusal {
    pub fn number(self) -> u8
        ensures { result ≡ number self }
    {
        match self {
            Refusal::SizeOutOfRange => 11,
            Refusal::ModulusOutOfRange => 12,
            Refusal::BoundOutOfRange => 13,
            Refusal::StatementLength => 14,
            Refusal::EntryNotBelowModulus => 15,
            Refusal::RelationArgument => 16,
            Refusal::KeyLength => 21,
            Refusal::KeyEntryOutOfRange => 22,
            Refusal::KeyWeight => 23,
            Refusal::KeyImage => 24,
            Refusal::NoExtractedKey => 25,
            Refusal::NoSuchConsoleLine => 30,
            Refusal::ConsoleLineInUse => 31,
            Refusal::MaskPartLength => 32,
            Refusal::MaskContent => 33,
            Refusal::LoadsUsedUp => 34,
            Refusal::LineMemoryShort => 35,
            Refusal::SlipNotCarried => 36,
            Refusal::RoomShort => 37,
            Refusal::ChallengeOutOfRange => 38,
            Refusal::NoSuchExchangeLine => 40,
            Refusal::ExchangeLineInUse => 41,
            Refusal::LineNotOpened => 42,
            Refusal::DiceByte => 43,
            Refusal::LineNotChallenged => 44,
            Refusal::LogFull => 45,
            Refusal::LineAlreadyFree => 46,
            Refusal::LabelLength => 52,
            Refusal::CoinsLength => 53,
            Refusal::CommitmentLength => 54,
            Refusal::MessageLimit => 55,
            Refusal::SchemeLimit => 56,
            Refusal::NoSuchEntry => 61,
            Refusal::CommitmentsDiffer => 62,
            Refusal::EntryChallenges => 63,
            Refusal::ExtractionMemoryShort => 64,
            Refusal::EntryAltered => 65,
            Refusal::RandomBytesRunOut => 71,
            Refusal::Unreadable(fault) => fault.kind.number(),
        }
    }
}

impl From<Fault> for Refusal {
    ghost from_gives = { λ fault refusal. refusal ≡ Unreadable fault };

    fn from(fault: Fault) -> Refusal {
        Refusal::Unreadable(fault)
    }
}

fn words(refusal: Refusal) -> &'static str {
    match refusal {
        Refusal::SizeOutOfRange =>
            "the statement's rows, columns or their product are out of range",
        Refusal::ModulusOutOfRange => "the modulus is out of range",
        Refusal::BoundOutOfRange => "the statement's bound is out of range",
        Refusal::StatementLength => "the matrix or the target has the wrong length",
        Refusal::EntryNotBelowModulus =>
            "an entry of the matrix or the target is not below the modulus",
        Refusal::RelationArgument =>
            "an argument has the wrong length, is no layer's number or holds a number not below the modulus",
        Refusal::KeyLength => "the key has the wrong length",
        Refusal::KeyEntryOutOfRange => "an entry of the key is out of range",
        Refusal::KeyWeight => "the key gives the wrong number of ones",
        Refusal::KeyImage => "the key's image is not the target",
        Refusal::NoExtractedKey => "a layer lacks its shape or the image is not the target",
        Refusal::NoSuchConsoleLine => "the console has no such line",
        Refusal::ConsoleLineInUse => "the console's line is not free",
        Refusal::MaskPartLength => "a part of the mask has the wrong length",
        Refusal::MaskContent =>
            "the mask has a list that is no permutation or a number not below the modulus",
        Refusal::LoadsUsedUp => "all 65,535 loads of the console are done",
        Refusal::LineMemoryShort => "the memory is smaller than the lines need",
        Refusal::SlipNotCarried => "the line does not carry this slip in this state",
        Refusal::RoomShort => "the work area or the output is too short",
        Refusal::ChallengeOutOfRange => "the challenge is not 1, 2 or 3",
        Refusal::NoSuchExchangeLine => "the exchange has no such line",
        Refusal::ExchangeLineInUse => "the exchange's line is not free",
        Refusal::LineNotOpened => "the line is not opened",
        Refusal::DiceByte => "the byte 255 gives no challenge",
        Refusal::LineNotChallenged => "the line is not challenged",
        Refusal::LogFull => "the log cannot take the record or the answer's bytes",
        Refusal::LineAlreadyFree => "the line is free already",
        Refusal::LabelLength => "the label is longer than 16 bytes or than the scheme's limit",
        Refusal::CoinsLength => "the coins have the wrong length",
        Refusal::CommitmentLength => "the output for the commitment has the wrong length",
        Refusal::MessageLimit => "the message passes the scheme's limit",
        Refusal::SchemeLimit => "the scheme's limit is too small for the relation's messages",
        Refusal::NoSuchEntry => "the log has no such entry, or its record lies beyond the memory",
        Refusal::CommitmentsDiffer => "the entries have different commitments",
        Refusal::EntryChallenges => "the entries' challenges are not 1, 2 and 3",
        Refusal::ExtractionMemoryShort =>
            "the work area, the key's memory or the messages' memory is too short",
        Refusal::EntryAltered => "an entry's answer is cut off or no longer accepted",
        Refusal::RandomBytesRunOut => "the random bytes run out",
        Refusal::Unreadable(_) => "the message is not readable",
    }
}

impl fmt::Display for Refusal {
    fn fmt<W: fmt::Write>(&self, f: &mut fmt::Formatter<W>) -> fmt::Result {
        if let Refusal::Unreadable(fault) = *self {
            return write!(f, "{fault}");
        }
        let number = self.number();
        let words = words(*self);
        write!(f, "{number}: {words}")
    }
}

impl Error for Refusal {}
