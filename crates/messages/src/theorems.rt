// Reading and writing undo each other; each function stands for the theorem that its contract names.
ghost use Rattle.messages.specs.Theorems.{ReadsBack, WrittenSo, AnswersRead};

use crate::challenge::Challenge;
use crate::fields::Sizes;

// What is written is read without a fault, and gives the contents back.
pub fn reading_undoes_writing()
    ensures { ReadsBack }
{}

// A message that is read without a fault is the writing of its contents.
pub fn readable_messages_are_written()
    ensures { WrittenSo }
{}

// Both, of the answers to a challenge.
pub fn answers_read(challenge: Challenge, sizes: Sizes)
    ensures { AnswersRead challenge sizes }
{}
