// What the statements of every kind have in common: their numbers, their target, and products by their matrix.
ghost use Rattle.std.specs.Prelude.{◌≡◌, ◌&&◌, cond, true, length, Some, None, nat_eq};
ghost use Rattle.refusals.specs.Answers.{Answered};
ghost use Rattle.vectors.specs.Lists.{same};
ghost use Rattle.vectors.specs.Residues.{below};
ghost use Rattle.relation_laws.specs.Products.{product};
ghost use Rattle.relation_laws.specs.Statements.{statement_fault};
ghost use Rattle.statements.specs.Given.{statement};
ghost use Rattle.statements.specs.Made.{Dimensions, Divisor, Lengths, in_range};

use crate::checks::{check, whole, within};
use crate::given::Given;
use crate::products::{multiply, product_is};
use refusals::refusal::Refusal;
use std::ops::RangeInclusive;

// A statement in which no fault was found.
#[derive(Clone, Copy)]
pub struct Checked<'a> {
    given: Given<'a>,
    ghost dimensions: { Dimensions given },
    ghost modulus: { Divisor given },
    ghost lengths: { Lengths given },
    ghost residues: { below given.modulus given.target.now ≡ true },
}

impl<'a> Checked<'a> {
    // Takes the statement, or refuses it; the ranges of modulus and bound are those of the kind.
    pub fn new(
        given: Given<'a>,
        moduli: RangeInclusive<u16>,
        bounds: RangeInclusive<usize>,
    ) -> Result<Checked<'a>, Refusal>
        ensures { Answered (statement_fault (in_range moduli given.entry.modulus) (in_range bounds given.entry.bound) (statement given.entry)) result (λ checked. checked.given ≡ given.entry) (Unit {0}) }
    {
        let modulus_in = within(
            *moduli.start() as usize,
            *moduli.end() as usize,
            given.modulus,
        );
        let bound_in = within(*bounds.start(), *bounds.end(), given.bound);
        check(&given, modulus_in, bound_in)?;
        Ok(Checked { given })
    }

    pub fn modulus(&self) -> u16
        ensures { result ≡ self.now.given.modulus }
    {
        self.given.modulus as u16
    }

    pub fn rows(&self) -> usize
        ensures { result ≡ self.now.given.rows }
    {
        self.given.rows
    }

    pub fn columns(&self) -> usize
        ensures { result ≡ self.now.given.columns }
    {
        self.given.columns
    }

    pub fn bound(&self) -> usize
        ensures { result ≡ self.now.given.bound }
    {
        self.given.bound
    }

    pub fn target(&self) -> &'a [u16]
        ensures { result.now ≡ self.now.given.target.now }
    {
        self.given.target
    }

    // Writes the target, where the slice has one place for each row.
    pub fn write_target(&self, out: &mut [u16]) -> Result<(), Refusal>
        ensures { Answered (cond (nat_eq (length out.old) self.now.given.rows) None (Some 16)) result (λ _. out.new ≡ self.now.given.target.now) (out.new ≡ out.old) }
    {
        if out.len() != self.rows() {
            return Err(Refusal::RelationArgument);
        }
        out.copy_from_slice(self.target());
        Ok(())
    }

    // Says whether layers and a free part have these lengths and hold residues only.
    pub fn whole(&self, layers: &[u16], layers_len: usize, free: &[u16], free_len: usize) -> bool
        ensures { result ≡ (nat_eq (length layers.now) layers_len && (nat_eq (length free.now) free_len && (below self.now.given.modulus layers.now && below self.now.given.modulus free.now))) }
    {
        whole(layers, layers_len, free, free_len, self.given.modulus)
    }

    // Writes the matrix times the vector, one entry for each row.
    pub fn multiply(&self, vector: &[u16], out: &mut [u16])
        requires columns { length vector.now ≡ self.now.given.columns }
        requires rows { length out.old ≡ self.now.given.rows }
        ensures residues { below self.now.given.modulus out.new ≡ true }
        ensures product { out.new ≡ product self.now.given.modulus self.now.given.columns self.now.given.rows self.now.given.matrix.now vector.now }
    {
        multiply(
            self.given.matrix,
            self.columns(),
            vector,
            self.modulus(),
            out,
        );
    }

    // Says whether the matrix times the vector is the target.
    pub fn has_product(&self, vector: &[u16]) -> bool
        requires { length vector.now ≡ self.now.given.columns }
        ensures { result ≡ same (product self.now.given.modulus self.now.given.columns self.now.given.rows self.now.given.matrix.now vector.now) self.now.given.target.now }
    {
        self.multiplies_to(vector, self.target())
    }

    // Says whether the matrix times the vector is this list. It stops at the first row that differs.
    pub fn multiplies_to(&self, vector: &[u16], list: &[u16]) -> bool
        requires columns { length vector.now ≡ self.now.given.columns }
        requires rows { length list.now ≡ self.now.given.rows }
        ensures { result ≡ same (product self.now.given.modulus self.now.given.columns self.now.given.rows self.now.given.matrix.now vector.now) list.now }
    {
        product_is(
            self.given.matrix,
            self.columns(),
            vector,
            self.modulus(),
            list,
        )
    }
}
