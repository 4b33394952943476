// What is checked of every statement, and of the arguments of every call.
ghost use Rattle.std.specs.Prelude.{◌≡◌, ◌&&◌, length, nat_eq};
ghost use Rattle.refusals.specs.Answers.{Answered};
ghost use Rattle.relation_laws.specs.Statements.{statement_fault, within as within_range};
ghost use Rattle.vectors.specs.Residues.{below};
ghost use Rattle.statements.specs.Given.{statement};

use crate::given::Given;
use refusals::refusal::Refusal;
use vectors::modular::all_below;

// Both ends are included.
pub fn within(low: usize, high: usize, number: usize) -> bool
    ensures { result ≡ within_range low high number }
{
    low <= number && number <= high
}

// Refuses what no kind of statement may have; the ranges of modulus and bound are those of the kind.
pub fn check(given: &Given, modulus_in: bool, bound_in: bool) -> Result<(), Refusal>
    ensures { Answered (statement_fault modulus_in bound_in (statement given.now)) result (λ _. Unit {0}) (Unit {0}) }
{
    let rows = given.rows;
    let columns = given.columns;
    if rows < 1 || rows > 128 || columns < 1 || columns > 256 || rows * columns > 16384 {
        return Err(Refusal::SizeOutOfRange);
    }
    if !modulus_in {
        return Err(Refusal::ModulusOutOfRange);
    }
    if !bound_in {
        return Err(Refusal::BoundOutOfRange);
    }
    if given.matrix.len() != rows * columns || given.target.len() != rows {
        return Err(Refusal::StatementLength);
    }
    if !all_below(given.matrix, given.modulus) || !all_below(given.target, given.modulus) {
        return Err(Refusal::EntryNotBelowModulus);
    }
    Ok(())
}

// Says whether layers and a free part have these lengths and hold residues only.
pub fn whole(
    layers: &[u16],
    layers_len: usize,
    free: &[u16],
    free_len: usize,
    modulus: usize,
) -> bool
    ensures { result ≡ (nat_eq (length layers.now) layers_len && (nat_eq (length free.now) free_len && (below modulus layers.now && below modulus free.now))) }
{
    layers.len() == layers_len
        && free.len() == free_len
        && all_below(layers, modulus)
        && all_below(free, modulus)
}
