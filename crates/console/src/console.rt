// A console and its four calls. The lines' memory is lent to each call: numbers (permutations, R, v, line after line) and, apart
// from them, coins. They are two parameters: commit borrows both as they are and the other calls to be written, so that one struct
// for them would be two.
ghost use Rattle.std.specs.Prelude.{◌≡◌, ◌+◌, ◌*◌, ◌<◌, ◌≤◌, length};
ghost use Rattle.refusals.specs.Answers.{Answered, Ends};
ghost use Rattle.vectors.specs.Over.{zeros};
ghost use Rattle.commitment.specs.Meaning.{Fresh};
ghost use Rattle.masks.specs.Held.{mask_in};
ghost use Rattle.moves.specs.Sizes.{limit_fault};
ghost use Rattle.console_steps.specs.State.{mask_size, coins_size, cleared};
ghost use Rattle.console_steps.specs.Steps.{load_fault, load_step, carry_fault, commit_step, answer_step, burn_step};
ghost use Rattle.console.specs.Told.{state_of, IsNew, Keeps, any_slip, told_load, told_commit, told_answer, told_burn, Leaves};

use crate::memory::{coins_size, is_short, mask_on, mask_size};
use crate::slips::{AnySlip, CommittedSlip, LoadedSlip};
use commitment::scheme::Scheme;
use console_moves::answering::answer;
use console_moves::committing::commit;
use console_steps::lines::Line;
use masks::mask::Mask;
use openings::limits::check_limit;
use refusals::refusal::Refusal;
use relation::Relation;
use vectors::parts::{copy_part, copy_three, fill_part};
use vectors::zeroing::ZeroOnDrop;

// A relation, a scheme, the states of lines 0 to 3, and how many loads were done.
#[derive(Drop)]
pub struct Console<R, S> {
    relation: R,
    scheme: S,
    lines: [Line; 4],
    loads: u16,
}

impl<R: Relation + Drop, S: Scheme + Drop> Console<R, S> {
    // A console with free lines and no loads. Refuses a scheme whose limit is too small for the relation's messages.
    pub fn new(relation: R, scheme: S) -> Result<Console<R, S>, Refusal>
        ensures { Answered (limit_fault (R.Relation.meaning relation) (S.Scheme.meaning scheme)) result (λ console. IsNew console relation scheme) (Unit {0}) }
    {
        check_limit(&relation, &scheme)?;
        Ok(Console {
            relation,
            scheme,
            lines: [Line::Free; 4],
            loads: 0,
        })
    }
}

impl<R: Relation, S: Scheme> Console<R, S> {
    // Copies a mask onto a free line.
    pub fn load(
        &mut self,
        numbers: &mut [u16],
        coins: &mut [u8],
        line: usize,
        mask: Mask,
    ) -> Result<LoadedSlip, Refusal>
        ensures ends { Ends (told_load result) (state_of self.new numbers.new coins.new)
            (load_step (R.Relation.meaning self.old.relation) (S.Scheme.meaning self.old.scheme) (state_of self.old numbers.old coins.old) line (mask_in mask.entry)) }
        ensures kept { Keeps self.old self.new }
    {
        let count = self.load_number(numbers, coins, line, mask)?;
        copy_three(
            numbers,
            line * mask_size(&self.relation),
            mask.permutations,
            mask.layers,
            mask.free,
        );
        copy_part(coins, line * coins_size(&self.scheme), mask.coins);
        self.loads = count;
        self.lines[line] = Line::Loaded(count);
        Ok(LoadedSlip { line, count })
    }

    // The number of a load of this mask onto this line, or why it is refused.
    fn load_number(
        &self,
        numbers: &[u16],
        coins: &[u8],
        line: usize,
        mask: Mask,
    ) -> Result<u16, Refusal>
        ensures { Answered (load_fault (R.Relation.meaning self.now.relation) (S.Scheme.meaning self.now.scheme) (state_of self.now numbers.now coins.now) line (mask_in mask.entry)) result
            (λ count. count ≡ self.now.loads + 1) (Unit {0}) }
    {
        if is_short(&self.relation, &self.scheme, numbers, coins) {
            return Err(Refusal::LineMemoryShort);
        }
        if line > 3 {
            return Err(Refusal::NoSuchConsoleLine);
        }
        if self.lines[line] != Line::Free {
            return Err(Refusal::ConsoleLineInUse);
        }
        mask.check(&self.relation, &self.scheme)?;
        self.loads.checked_add(1).ok_or(Refusal::LoadsUsedUp)
    }

    // Writes the commitments message of the slip's mask at the start of the output, and says how long it is.
    pub fn commit(
        &mut self,
        numbers: &[u16],
        coins: &[u8],
        slip: LoadedSlip,
        key: &[R::Entry],
        work: &mut [u16],
        out: &mut [u8],
    ) -> Result<(CommittedSlip, usize), (LoadedSlip, Refusal)>
        ensures ends { Ends (told_commit result) (state_of self.new numbers.now coins.now, out.new)
            (commit_step (R.Relation.meaning self.old.relation) (S.Scheme.meaning self.old.scheme) (state_of self.old numbers.now coins.now) slip.line slip.count key.now (length work.old) out.old) }
        ensures kept { self.new.relation ≡ self.old.relation }
        ensures meaning { S.Scheme.meaning self.new.scheme ≡ S.Scheme.meaning self.old.scheme }
        ensures scheme { Leaves result (Fresh (S.Scheme.meaning self.old.scheme) (S.Scheme.state self.new.scheme)) (self.new.scheme ≡ self.old.scheme) }
        ensures zeroed { work.new ≡ zeros (length work.old) }
    {
        let guard = ZeroOnDrop { area: work };
        let state = Line::Loaded(slip.count);
        if let Err(refusal) = self.check_slip(numbers, coins, slip.line, state) {
            return Err((slip, refusal));
        }
        let mask = mask_on(&self.relation, &self.scheme, numbers, coins, slip.line);
        match commit(&self.relation, &mut self.scheme, key, mask, guard.area, out) {
            Ok(size) => {
                let LoadedSlip { line, count } = slip;
                self.lines[line] = Line::Committed(count);
                Ok((CommittedSlip { line, count }, size))
            }
            Err(refusal) => Err((slip, refusal)),
        }
    }

    // Writes the answer to the challenge with this number, zeroes the slip's mask and frees its line. Every number may be passed; those
    // of no challenge are refused.
    pub fn answer(
        &mut self,
        numbers: &mut [u16],
        coins: &mut [u8],
        slip: CommittedSlip,
        key: &[R::Entry],
        challenge: u8,
        work: &mut [u16],
        out: &mut [u8],
    ) -> Result<usize, (CommittedSlip, Refusal)>
        ensures ends { Ends (told_answer result) (state_of self.new numbers.new coins.new, out.new)
            (answer_step (R.Relation.meaning self.old.relation) (S.Scheme.meaning self.old.scheme) (state_of self.old numbers.old coins.old) slip.line slip.count key.now challenge (length work.old) out.old) }
        ensures kept { Keeps self.old self.new }
        ensures zeroed { work.new ≡ zeros (length work.old) }
    {
        let guard = ZeroOnDrop { area: work };
        let state = Line::Committed(slip.count);
        if let Err(refusal) = self.check_slip(numbers, coins, slip.line, state) {
            return Err((slip, refusal));
        }
        let mask = mask_on(&self.relation, &self.scheme, numbers, coins, slip.line);
        match answer(
            &self.relation,
            &self.scheme,
            key,
            mask,
            challenge,
            guard.area,
            out,
        ) {
            Ok(size) => {
                let CommittedSlip { line, count: _ } = slip;
                self.clear(numbers, coins, line);
                Ok(size)
            }
            Err(refusal) => Err((slip, refusal)),
        }
    }

    // Zeroes the slip's mask and frees its line.
    pub fn burn(
        &mut self,
        numbers: &mut [u16],
        coins: &mut [u8],
        slip: AnySlip,
    ) -> Result<(), (AnySlip, Refusal)>
        ensures ends { Ends (told_burn result) (state_of self.new numbers.new coins.new)
            (burn_step (R.Relation.meaning self.old.relation) (S.Scheme.meaning self.old.scheme) (state_of self.old numbers.old coins.old) (any_slip slip)) }
        ensures kept { Keeps self.old self.new }
    {
        let line = slip.line();
        if let Err(refusal) = self.check_slip(numbers, coins, line, slip.state()) {
            return Err((slip, refusal));
        }
        slip.spend();
        self.clear(numbers, coins, line);
        Ok(())
    }

    // Refuses short memory, and a line that is not in this state. Callers pair the refusal with their slip by hand: a closure for
    // `map_err` would take the slip, which is needed on both ways.
    fn check_slip(
        &self,
        numbers: &[u16],
        coins: &[u8],
        line: usize,
        state: Line,
    ) -> Result<(), Refusal>
        ensures { Answered (carry_fault (R.Relation.meaning self.now.relation) (S.Scheme.meaning self.now.scheme) (state_of self.now numbers.now coins.now) line state) result (λ _. Unit {0}) (Unit {0}) }
    {
        if is_short(&self.relation, &self.scheme, numbers, coins) {
            return Err(Refusal::LineMemoryShort);
        }
        if line > 3 || self.lines[line] != state {
            return Err(Refusal::SlipNotCarried);
        }
        Ok(())
    }

    // Zeroes the line's mask and frees the line.
    #[tactic(auto, using(crate::proofs::Room::row_fits))]
    fn clear(&mut self, numbers: &mut [u16], coins: &mut [u8], line: usize)
        requires line_in_range { line < 4 }
        requires numbers_suffice { 4 * mask_size (R.Relation.meaning self.old.relation) (S.Scheme.meaning self.old.scheme) ≤ length numbers.old }
        requires coins_suffice { 4 * coins_size (R.Relation.meaning self.old.relation) (S.Scheme.meaning self.old.scheme) ≤ length coins.old }
        ensures ends { state_of self.new numbers.new coins.new ≡ cleared (R.Relation.meaning self.old.relation) (S.Scheme.meaning self.old.scheme) (state_of self.old numbers.old coins.old) line }
        ensures kept { Keeps self.old self.new }
    {
        let mask_len = mask_size(&self.relation);
        let coins_len = coins_size(&self.scheme);
        fill_part(numbers, line * mask_len, mask_len, 0);
        fill_part(coins, line * coins_len, coins_len, 0);
        self.lines[line] = Line::Free;
    }
}
