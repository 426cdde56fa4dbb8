//! Hash families.

ghost use Rattle.std.specs.Prelude.{◌≡◌, ◌+◌, ◌*◌, ◌<◌, ◌≤◌, ◌↔◌, length, IfOk, IfErr, IsErrOf, IsTrue, true, false};
ghost use Rattle.hh_stream.specs.Ranges.{in_range};
ghost use Rattle.hh_countmin.specs.Faults.{IsDrawFault, IsPartsFault};
ghost use Rattle.hh_countmin.specs.Family.{max_depth, max_width, modulus, IsFamily, AreCoefficients, IsRow, coefficients_of, fingerprint_of, ArePowers, cell_of, cell_of_fingerprint, drawn_family, factor_of, addend_of, rows_of_words};
ghost use Rattle.rand_core.specs.Steps.{first_words};
ghost use Rattle.rand_pcg.specs.Pcg.{pcg64};

use crate::fault::TableFault;
use crate::modulus::{MODULUS, multiply_add, reduce, remainder};
use hh_stream::{Key, in_range};
use rand_core::SeedableRng;
use rand_core::utils::NextWord;
use rand_pcg::Pcg64;
use std::alloc::{AllocError, Global};
use std::marker::Model;

/// The most rows of a family.
pub const MAX_DEPTH: u64 = 16;

/// The most cells in a row of a table.
pub const MAX_WIDTH: u64 = 65_536;

/// A hash family: for each of its 1 to 16 rows, a function from keys to the cells of a row.
///
/// A key has one fingerprint, its bytes read as the digits of a number to the base `z`, each raised
/// by one, modulo [`MODULUS`]; a row with the coefficients (a, b) takes the fingerprint f to the
/// cell `(a * f + b) mod MODULUS mod width`.
#[derive(Debug, Drop)]
pub struct Family {
    z: u64,
    // z to the powers 0 to 8
    powers: [u64; 9],
    rows: Vec<(u64, u64)>,
}

impl Model for Family {
    ghost use Rattle.hh_countmin.specs.Family.{Coefficients, IsFamily, ArePowers};

    ghost Value = { Coefficients };

    ghost view = { λ family. record { z = family.z; rows = family.rows.items } };

    ghost invariant = { λ family.
        IsFamily (record { z = family.z; rows = family.rows.items })
        × ArePowers family.z family.powers };
}

impl Family {
    /// The family of a seed: the words of `Pcg64`, seeded by `seed_from_u64`, make z and then the
    /// coefficients a and b of each row. The error is the first of `BadDepth` and `Memory` that
    /// holds.
    pub fn draw(alloc: Global, seed: u64, depth: u64) -> Result<Family, TableFault>
        ensures drawn { IfOk result (λ family. family ≡ drawn_family seed depth) }
        ensures bad_depth { IsErrOf result TableFault.BadDepth
            ↔ (in_range depth max_depth ≡ false) }
        ensures faults { IfErr result IsDrawFault }
    {
        if !in_range(depth, MAX_DEPTH) {
            return Err(TableFault::BadDepth);
        }
        Ok(Family::of_seed(alloc, seed, depth)?)
    }

    /// [`draw`](Family::draw) for a depth from 1 to [`MAX_DEPTH`], where only memory can be
    /// refused.
    pub fn of_seed(alloc: Global, seed: u64, depth: u64) -> Result<Family, AllocError>
        requires { in_range depth max_depth ≡ true }
        ensures { IfOk result (λ family. family ≡ drawn_family seed depth) }
    {
        let mut generator = Pcg64::seed_from_u64(seed);
        let z = factor(generator.next_word());
        let rows = draw_rows(alloc, &mut generator, depth)?;
        Ok(Family {
            z,
            powers: powers_of(z),
            rows,
        })
    }

    /// The family with these coefficients: `z`, and a pair (a, b) for each row. `z` and each a are
    /// 1 or more, and all are below [`MODULUS`]. The error is the first of `BadDepth`,
    /// `BadCoefficient` and `Memory` that holds.
    pub fn from_parts(alloc: Global, z: u64, rows: &[(u64, u64)]) -> Result<Family, TableFault>
        ensures parts { IfOk result (λ family. family ≡ record { z = z; rows = rows.now }) }
        ensures in_range { IfOk result IsFamily }
        ensures bad_depth { IsErrOf result TableFault.BadDepth
            ↔ (in_range (length rows.now) max_depth ≡ false) }
        ensures bad_coefficient { IsErrOf result TableFault.BadCoefficient
            ↔ ((in_range (length rows.now) max_depth ≡ true)
            × ¬ (AreCoefficients z rows.now)) }
        ensures faults { IfErr result IsPartsFault }
    {
        if !in_range(rows.len() as u64, MAX_DEPTH) {
            return Err(TableFault::BadDepth);
        }
        if !Family::are_coefficients(z, rows) {
            return Err(TableFault::BadCoefficient);
        }
        let rows = Vec::from_slice(alloc, rows)?;
        Ok(Family::from_rows(z, rows))
    }

    /// Whether the coefficients are in their ranges: `z` and the first of each pair are 1 or more,
    /// and all are below [`MODULUS`].
    pub fn are_coefficients(z: u64, rows: &[(u64, u64)]) -> bool
        ensures { IsTrue result ↔ AreCoefficients z rows.now }
    {
        1 <= z
            && z < MODULUS
            && rows
                .iter()
                .all(|row| 1 <= row.0 && row.0 < MODULUS && row.1 < MODULUS)
    }

    /// [`from_parts`](Family::from_parts) of 1 to [`MAX_DEPTH`] rows and coefficients in their
    /// ranges, which takes no memory.
    pub fn from_rows(z: u64, rows: Vec<(u64, u64)>) -> Family
        requires { IsFamily (record { z = z; rows = rows.items }) }
        ensures { result ≡ record { z = z; rows = rows.items } }
    {
        Family {
            z,
            powers: powers_of(z),
            rows,
        }
    }

    /// An equal family.
    pub fn copy(&self) -> Result<Family, AllocError>
        ensures { IfOk result (λ family. family ≡ self.now) }
    {
        Ok(Family {
            z: self.z,
            powers: self.powers,
            rows: Vec::from_slice(*self.rows.allocator(), &self.rows)?,
        })
    }

    /// How many rows there are.
    pub fn depth(&self) -> u64
        ensures depth { result ≡ length self.now.rows }
        ensures family { IsFamily self.now }
    {
        self.rows.len() as u64
    }

    /// The multiplier of the fingerprint.
    pub fn z(&self) -> u64
        ensures { result ≡ self.now.z }
    {
        self.z
    }

    /// The coefficients (a, b) of row `r`.
    pub fn row(&self, r: u64) -> (u64, u64)
        requires { r < length self.now.rows }
        ensures row { result ≡ coefficients_of self.now r }
        ensures in_range { IsRow result }
    {
        self.rows[r as usize]
    }

    /// The fingerprint of a key, which the cells in all rows are computed from.
    pub fn fingerprint(&self, key: &Key) -> u64
        ensures fingerprint { result ≡ fingerprint_of self.now.z key.now }
        ensures below { result < modulus }
    {
        self.fingerprint_of(key.bytes())
    }

    // The fingerprint of the key with these bytes.
    pub(crate) fn fingerprint_of(&self, key: &[u8]) -> u64
        ensures fingerprint { result ≡ fingerprint_of self.now.z key.now }
        ensures below { result < modulus }
    {
        let (first, mut rest) = key.split_at(key.len().min(8));
        let mut fingerprint = self.digits(first);
        while !rest.is_empty() {
            let (bytes, after) = rest.split_at(rest.len().min(8));
            let power = self.powers[bytes.len()];
            fingerprint = multiply_add(fingerprint, power, self.digits(bytes));
            rest = after;
        }
        fingerprint
    }

    // The fingerprint of up to 8 bytes: none waits for the one before it, and there is one
    // reduction.
    #[inline]
    fn digits(&self, bytes: &[u8]) -> u64
        requires few { length bytes.now ≤ 8 }
        ensures digits { result ≡ fingerprint_of self.now.z bytes.now }
        ensures below { result < modulus }
    {
        let mut sum = 0;
        for i in 0..bytes.len() {
            let power = self.powers[bytes.len() - 1 - i];
            sum += u128::from(power) * (u128::from(bytes[i]) + 1);
        }
        reduce(sum)
    }

    /// The cell of a key in row `r` of a table of this width.
    pub fn cell(&self, r: u64, key: &Key, width: u64) -> u64
        requires row { r < length self.now.rows }
        requires width { in_range width max_width ≡ true }
        ensures cell { result ≡ cell_of self.now r key.now width }
        ensures within { result < width }
    {
        self.cell_of_fingerprint(r, self.fingerprint(key), width)
    }

    /// The cell of a key with this fingerprint. Where a key's cells in all rows are wanted, the
    /// fingerprint is computed once.
    #[inline]
    pub fn cell_of_fingerprint(&self, r: u64, fingerprint: u64, width: u64) -> u64
        requires row { r < length self.now.rows }
        requires width { in_range width max_width ≡ true }
        requires fingerprint { fingerprint < modulus }
        ensures cell { result ≡ cell_of_fingerprint (coefficients_of self.now r) fingerprint width }
        ensures within { result < width }
    {
        let (a, b) = self.row(r);
        remainder(multiply_add(a, fingerprint, b), width)
    }
}

impl PartialEq for Family {
    ghost use Rattle.hh_countmin.specs.Family.{same_family};
    ghost use Rattle.hh_countmin.specs.FamilyEq.{same_family_equiv};
    ghost use Rattle.std.specs.Cmp.{partial_equiv_from_equiv};

    ghost eq = { same_family };

    ghost laws = { partial_equiv_from_equiv same_family_equiv };

    fn eq(&self, other: &Family) -> bool {
        self.z == other.z && self.rows.as_slice() == other.rows.as_slice()
    }
}

impl Eq for Family {
    ghost use Rattle.hh_countmin.specs.FamilyEq.{same_family_equiv};

    ghost laws = { same_family_equiv };
}

// z to the powers 0 to 8.
fn powers_of(z: u64) -> [u64; 9]
    requires { z < modulus }
    ensures { ArePowers z result }
{
    let mut powers = [1; 9];
    for i in 1..9 {
        powers[i] = multiply_add(powers[i - 1], z, 0);
    }
    powers
}

// A coefficient that is not 0.
fn factor(word: u64) -> u64
    ensures { result ≡ factor_of word }
{
    1 + word % (MODULUS - 1)
}

// The next row that the words make.
fn draw_row(generator: &mut Pcg64) -> (u64, u64)
    ensures row { result
        ≡ (factor_of (pcg64 generator.old).0, addend_of (pcg64 (pcg64 generator.old).1).0) }
    ensures after { generator.new ≡ (pcg64 (pcg64 generator.old).1).1 }
{
    let a = factor(generator.next_word());
    let b = generator.next_word() % MODULUS;
    (a, b)
}

fn draw_rows(
    alloc: Global,
    generator: &mut Pcg64,
    depth: u64,
) -> Result<Vec<(u64, u64)>, AllocError>
    ensures { IfOk result
        (λ rows. rows.items ≡ rows_of_words (first_words pcg64 (2 * depth) generator.old)) }
{
    let mut rows = Vec::new(alloc);
    for _ in 0..depth {
        rows.push(draw_row(generator))?;
    }
    Ok(rows)
}
