// An exchange and its calls. The log's memory is lent to judge: plain records, and beside them the bytes of the answers, as two slices
// that the log's reader is lent too.
ghost use Rattle.std.specs.Prelude.{◌≡◌, ℕ, ◌+◌, ◌<◌, ◌≤◌, List, length, None, Err, MatchResult, slice_index_or};
ghost use Rattle.refusals.specs.Answers.{Answered, Ends};
ghost use Rattle.vectors.specs.Over.{zeros};
ghost use Rattle.commitment.specs.Meaning.{Fresh};
ghost use Rattle.moves.specs.Sizes.{limit_fault, work_fault};
ghost use Rattle.exchange_moves.specs.Verdicts.{Leaves, YesTo};
ghost use Rattle.refusals.specs.declared.refusal.Refusal.TheVariants.{NoSuchExchangeLine};
ghost use Rattle.exchange_steps.specs.declared.lines.LineState.TheVariants.{Free};
ghost use Rattle.exchange_steps.specs.State.{line_at, row_at, commitments_in, with_entry};
ghost use Rattle.exchange_steps.specs.Steps.{thrown as thrown_by, log_full, open_step, dice_step, judge_step, clear_step};
ghost use Rattle.exchange.specs.Told.{state_of, IsNew, Keeps, told_judge, IfJudged, IfChallenged, Ready, RowJudged};

use commitment::scheme::Scheme;
pub use exchange_moves::judging::Verdict;
use exchange_moves::judging::judge;
use exchange_steps::lines::LineState;
use exchange_steps::log::Record;
use messages::challenge::Challenge;
use messages::fields::Triple;
use messages::reader::read_commitments;
use openings::limits::{check_limit, work_size};
use refusals::cause::Cause;
use refusals::refusal::Refusal;
use relation::Relation;
use vectors::parts::{copy_part, copy_three};
use vectors::zeroing::ZeroOnDrop;

// A relation, a scheme, the states of lines 0 to 3, for each line a row of commitments as the log keeps them (beside the states, which
// hold no arrays), and how many entries and answer bytes of the lent log are used.
#[derive(Drop)]
pub struct Exchange<R, S> {
    relation: R,
    scheme: S,
    lines: [LineState; 4],
    table: [[u8; 384]; 4],
    entries: usize,
    used: usize,
}

fn thrown(byte: u8) -> Challenge
    ensures { result ≡ thrown_by byte }
{
    match byte % 3 {
        0 => Challenge::One,
        1 => Challenge::Two,
        _ => Challenge::Three,
    }
}

// Why an answer is turned down, judged against the commitments at the start of a row. The scheme and the work area suffice.
fn judge_row<R: Relation, S: Scheme>(
    relation: &R,
    scheme: &mut S,
    row: &[u8; 384],
    challenge: Challenge,
    message: &[u8],
    work: &mut [u16],
) -> Option<Cause>
    requires limit { limit_fault (R.Relation.meaning relation.now) (S.Scheme.meaning scheme.old) ≡ None }
    requires room { work_fault (R.Relation.meaning relation.now) (length work.old) ≡ None }
    ensures outcome { RowJudged (R.Relation.meaning relation.now) (S.Scheme.meaning scheme.old) row.now challenge message.now (Fresh (S.Scheme.meaning scheme.old) (S.Scheme.state scheme.new)) (scheme.new ≡ scheme.old) result }
    ensures kept { S.Scheme.meaning scheme.new ≡ S.Scheme.meaning scheme.old }
{
    let width = scheme.width();
    let commitments = Triple {
        one: &row[0..width],
        two: &row[width..2 * width],
        three: &row[2 * width..3 * width],
    };
    let judged = judge(relation, scheme, commitments, challenge, message, work);
    judged.unwrap().err()
}

impl<R: Relation + Drop, S: Scheme + Drop> Exchange<R, S> {
    // An exchange with free lines and an empty log. Refuses a scheme whose limit is too small for the relation's messages.
    pub fn new(relation: R, scheme: S) -> Result<Exchange<R, S>, Refusal>
        ensures { Answered (limit_fault (R.Relation.meaning relation) (S.Scheme.meaning scheme)) result (λ exchange. IsNew exchange relation scheme) (Unit {0}) }
    {
        check_limit(&relation, &scheme)?;
        Ok(Exchange {
            relation,
            scheme,
            lines: [LineState::Free; 4],
            table: [[0; 384]; 4],
            entries: 0,
            used: 0,
        })
    }
}

impl<R: Relation, S: Scheme> Exchange<R, S> {
    // Reads a commitments message onto a free line. The log plays no part: the promise holds for any log.
    pub fn open(&mut self, line: usize, message: &[u8]) -> Result<(), Refusal>
        ensures ends { (records : List Record) (bytes : List ℕ) → Ends result (state_of self.new records bytes)
            (open_step (S.Scheme.meaning self.old.scheme).width (state_of self.old records bytes) line message.now) }
        ensures kept { Keeps self.old self.new }
    {
        let LineState::Free = self.line_state(line)? else {
            return Err(Refusal::ExchangeLineInUse);
        };
        let commitments = read_commitments(message, self.scheme.width())?;
        copy_three(
            &mut self.table[line],
            0,
            commitments.first.content,
            commitments.second.content,
            commitments.third.content,
        );
        self.lines[line] = LineState::Opened;
        Ok(())
    }

    // Throws the challenge of an opened line: the byte modulo 3, plus 1.
    pub fn dice(&mut self, line: usize, byte: u8) -> Result<Challenge, Refusal>
        ensures ends { (records : List Record) (bytes : List ℕ) → Ends result (state_of self.new records bytes)
            (dice_step (state_of self.old records bytes) line byte) }
        ensures kept { Keeps self.old self.new }
    {
        let LineState::Opened = self.line_state(line)? else {
            return Err(Refusal::LineNotOpened);
        };
        if byte == 255 {
            return Err(Refusal::DiceByte);
        }
        let challenge = thrown(byte);
        self.lines[line] = LineState::Challenged(challenge);
        Ok(challenge)
    }

    // Judges the answer on a challenged line, logs a yes, and frees the line. The whole work area is zeros afterwards.
    pub fn judge(
        &mut self,
        records: &mut [Record],
        bytes: &mut [u8],
        line: usize,
        message: &[u8],
        work: &mut [u16],
    ) -> Result<Verdict, Refusal>
        ensures ends { Ends (told_judge result) (state_of self.new records.new bytes.new)
            (judge_step (R.Relation.meaning self.old.relation) (S.Scheme.meaning self.old.scheme) (state_of self.old records.old bytes.old) line message.now (length work.old)) }
        ensures decides { let s = state_of self.old records.old bytes.old in
            IfJudged result (λ why. IfChallenged (line_at s line) (λ challenge. YesTo (R.Relation.meaning self.old.relation) (S.Scheme.meaning self.old.scheme) (commitments_in (S.Scheme.meaning self.old.scheme).width (row_at s line)) challenge message.now why)) (Unit {0}) }
        ensures kept { self.new.relation ≡ self.old.relation }
        ensures meaning { S.Scheme.meaning self.new.scheme ≡ S.Scheme.meaning self.old.scheme }
        ensures scheme { IfJudged result (λ why. Leaves why (Fresh (S.Scheme.meaning self.old.scheme) (S.Scheme.state self.new.scheme)) (self.new.scheme ≡ self.old.scheme)) (self.new.scheme ≡ self.old.scheme) }
        ensures zeroed { work.new ≡ zeros (length work.old) }
    {
        let guard = ZeroOnDrop { area: work };
        let challenge = self.challenge_to_judge(records, bytes, line, message, guard.area.len())?;
        // a copy: of a borrowed row a proof only sees what the table holds later
        let row = self.table[line];
        let verdict = judge_row(
            &self.relation,
            &mut self.scheme,
            &row,
            challenge,
            message,
            guard.area,
        );
        self.lines[line] = LineState::Free;
        if let Some(cause) = verdict {
            return Ok(Err(cause));
        }
        self.append(records, bytes, line, challenge, message);
        Ok(Ok(()))
    }

    // The challenge of the line, or why nothing is judged there. `room` is the length of the work area.
    fn challenge_to_judge(
        &self,
        records: &[Record],
        bytes: &[u8],
        line: usize,
        message: &[u8],
        room: usize,
    ) -> Result<Challenge, Refusal>
        ensures { let s = state_of self.now records.now bytes.now in MatchResult result
            (λ challenge. Ready (R.Relation.meaning self.now.relation) (S.Scheme.meaning self.now.scheme) s line message.now room challenge)
            (λ refusal. judge_step (R.Relation.meaning self.now.relation) (S.Scheme.meaning self.now.scheme) s line message.now room ≡ (Err refusal, s)) }
    {
        let LineState::Challenged(challenge) = self.line_state(line)? else {
            return Err(Refusal::LineNotChallenged);
        };
        if self.log_is_full(records, bytes, message) {
            return Err(Refusal::LogFull);
        }
        check_limit(&self.relation, &self.scheme)?;
        if room < work_size(&self.relation) {
            return Err(Refusal::RoomShort);
        }
        Ok(challenge)
    }

    // Says whether the log cannot take a record or the message's bytes.
    fn log_is_full(&self, records: &[Record], bytes: &[u8], message: &[u8]) -> bool
        ensures { result ≡ log_full (state_of self.now records.now bytes.now) message.now }
    {
        self.entries >= records.len()
            || self.used > bytes.len()
            || bytes.len() - self.used < message.len()
    }

    // Adds the answer on a line to the log.
    fn append(
        &mut self,
        records: &mut [Record],
        bytes: &mut [u8],
        line: usize,
        challenge: Challenge,
        message: &[u8],
    )
        requires line_in_range { line < 4 }
        requires record_left { self.old.entries < length records.old }
        requires bytes_left { self.old.used + length message.now ≤ length bytes.old }
        ensures grown { let s = state_of self.old records.old bytes.old in state_of self.new records.new bytes.new ≡ with_entry s (row_at s line) challenge message.now }
        ensures kept { Keeps self.old self.new }
    {
        let start = self.used;
        let len = message.len();
        records[self.entries] = Record {
            commitments: self.table[line],
            challenge,
            start,
            len,
        };
        copy_part(bytes, start, message);
        self.entries += 1;
        self.used = start + len;
    }

    // Frees a line.
    pub fn clear(&mut self, line: usize) -> Result<(), Refusal>
        ensures ends { (records : List Record) (bytes : List ℕ) → Ends result (state_of self.new records bytes)
            (clear_step (state_of self.old records bytes) line) }
        ensures kept { Keeps self.old self.new }
    {
        if let LineState::Free = self.line_state(line)? {
            return Err(Refusal::LineAlreadyFree);
        }
        self.lines[line] = LineState::Free;
        Ok(())
    }

    // The state of a line, if there is such a line.
    fn line_state(&self, line: usize) -> Result<LineState, Refusal>
        ensures { MatchResult result (λ state. (line < 4) × (state ≡ slice_index_or self.now.lines line Free)) (λ refusal. (3 < line) × (refusal ≡ NoSuchExchangeLine)) }
    {
        self.lines
            .get(line)
            .copied()
            .ok_or(Refusal::NoSuchExchangeLine)
    }
}
