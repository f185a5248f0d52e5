// Ten rows of remainders, made from the table, by which a long walk takes eight bytes at a time.
ghost use Rattle.std.specs.Prelude.{ℕ, get_or, ◌+◌, ◌*◌, ◌≤◌, ◌<◌, ◌≡◌};
ghost use Rattle.crc.specs.Crc.{byte_step, walk_from};
ghost use Rattle.crc.specs.Rows.{rows_at, row_of, AreRows, eight_steps};

use crate::Reading;
use std::array;

// Row j has the remainder of each byte times x^(8 j), so row 2 is the table.
#[derive(Drop)]
pub struct Rows<'a> {
    rows: &'a [[u16; 256]; 10],
    ghost made: { AreRows 10 rows.now },
}

// The row in which the last byte of eight is looked up, each byte before it a row further up. By the new reading bytes go in times x^16, so two
// rows further up.
fn last_row(reading: Reading) -> usize
    ensures { result ≡ row_of reading }
{
    match reading {
        Reading::Bare => 0,
        Reading::Augmented => 2,
    }
}

// Makes the row after: a step with 0 leads from each entry to the next row's. By a loop, since an array's `map` makes the rows too slowly.
fn next_row(row: &[u16; 256], next: &mut [u16; 256])
    ensures { (b : ℕ) → b < 256 → get_or next.new b 0 ≡ byte_step Reading.Bare (get_or row.now b 0) 0 }
{
    for (b, &r) in row.iter().enumerate() {
        next[b] = crate::step(Reading::Bare, r, 0);
    }
}

impl<'a> Rows<'a> {
    // Row 0 has the bytes themselves. They are made in the caller's array, since one that is handed out is copied.
    pub fn new(rows: &'a mut [[u16; 256]; 10]) -> Self {
        rows[0] = array::from_fn(|b| b as u16);
        for j in 1..10 {
            let (before, from) = rows.split_at_mut(j);
            next_row(&before[j - 1], &mut from[0]);
        }
        Rows { rows }
    }

    // The remainder of b times x^(8 j).
    fn at(&self, j: usize, b: u8) -> u16
        requires { j < 10 }
        ensures { result ≡ rows_at (256 * j + b) }
    {
        self.rows[j][usize::from(b)]
    }

    // Eight bytes at once: their remainders are looked up apart, and what waits for r comes last.
    fn step_eight(&self, reading: Reading, r: u16, eight: &[u8; 8]) -> u16
        ensures steps { result ≡ eight_steps reading r (get_or eight.now 0 0) (get_or eight.now 1 0) (get_or eight.now 2 0) (get_or eight.now 3 0) (get_or eight.now 4 0) (get_or eight.now 5 0) (get_or eight.now 6 0) (get_or eight.now 7 0) }
        ensures walked { result ≡ walk_from reading r eight.now }
    {
        let last = last_row(reading);
        let mut bytes = 0;
        for (i, b) in eight.iter().enumerate() {
            bytes ^= self.at(last + 7 - i, *b);
        }
        let shifted = self.at(9, (r / 256) as u8) ^ self.at(8, (r % 256) as u8);
        bytes ^ shifted
    }

    // The CRC by a reading goes on over s from the value r. The last bytes, fewer than eight, go one by one.
    pub fn walk(&self, reading: Reading, r: u16, s: &[u8]) -> u16
        ensures { result ≡ walk_from reading r s.now }
    {
        let mut crc = r;
        let mut rest = s;
        while let Some((eight, more)) = rest.split_first_chunk::<8>() {
            crc = self.step_eight(reading, crc, eight);
            rest = more;
        }
        crate::walk_by_ones(reading, crc, rest)
    }
}
