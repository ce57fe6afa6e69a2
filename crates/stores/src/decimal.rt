// A store that keeps each number as six decimal digits in lent memory. docs/STORES.md has the rules.
ghost use Rattle.std.specs.Prelude.{◌≡◌, ℕ, ◌+◌, ◌*◌, ◌/◌, ◌%◌, ◌<◌, ◌≤◌, min, [], ◌∷◌, length, slice_index, slice_set};
ghost use Rattle.stores.specs.Stores.{Sound, write_of, written_of};
ghost use Rattle.stores.specs.Zeros.{zeros, cleared};
ghost use Rattle.stores.specs.declared.decimal.TheConstants.{TOP};
ghost use Rattle.stores.specs.Decimals.{value_at, put_at, count_of, decimals, Digits, unused, bytes_written};

use crate::limits::counted;
use crate::store::Store;
use reader::types::Refusal;

// The largest number that six digits spell.
const TOP: u32 = 999_999;

// The numbers stand in the first bytes, six to each; all of these are digits, and so no number is above the top.
// FlatStore is a type of its own: what both could share are the tests of i, and each promise on the memory differs.
// That a call leaves the same memory, and the rest of it as it was, is a clause of its own, since no type says what is
// left behind a `&mut`.
#[derive(Drop)]
pub struct DecimalStore<'a> {
    bytes: &'a mut [u8],
    ghost digits: { Digits bytes.now },
    ghost fits: { Sound (decimals bytes.now) TOP },
}

// How many numbers this many bytes hold.
fn count_in(bytes: usize) -> usize
    ensures { result ≡ min 4096 (bytes / 6) }
{
    counted(bytes / 6)
}

// Sets the bytes that numbers use to 0.
fn clear(bytes: &mut [u8])
    ensures digits { Digits bytes.new }
    ensures fits { Sound (decimals bytes.new) TOP }
    ensures zero { decimals bytes.new ≡ zeros (count_of bytes.old) }
    ensures memory { bytes.new ≡ cleared (6 * count_of bytes.old) bytes.old }
{
    let n = 6 * count_in(bytes.len());
    bytes[..n].fill(0);
}

// The number whose six digits begin at `at`.
fn number_at(bytes: &[u8], at: usize) -> u32
    requires { (at + 6 ≤ length bytes.now) × (((k : ℕ) → k < at + 6 → at ≤ k → slice_index bytes.now k ≤ 9)) }
    ensures { result ≡ value_at bytes.now at }
{
    let mut number = 0;
    for digit in &bytes[at..at + 6] {
        number = 10 * number + u32::from(*digit);
    }
    number
}

// The six digits of v, the highest first. Each is a division by a constant; a map over the places would divide by a
// variable. `u8::from` takes no `u32`, and `try_from` would fail in no case.
fn digits_of(v: u32) -> [u8; 6]
    requires { v ≤ TOP }
    ensures { result ≡ v / 100000 ∷ v / 10000 % 10 ∷ v / 1000 % 10 ∷ v / 100 % 10 ∷ v / 10 % 10 ∷ v % 10 ∷ [] }
{
    [
        (v / 100_000) as u8,
        (v / 10_000 % 10) as u8,
        (v / 1_000 % 10) as u8,
        (v / 100 % 10) as u8,
        (v / 10 % 10) as u8,
        (v % 10) as u8,
    ]
}

impl<'a> DecimalStore<'a> {
    // A store over these bytes. All its numbers are 0.
    pub fn new(bytes: &'a mut [u8]) -> DecimalStore<'a>
        ensures zero { decimals result.bytes.now ≡ zeros (count_of bytes.old) }
        ensures memory { result.bytes.now ≡ cleared (6 * count_of bytes.old) bytes.old }
        ensures lent { result.bytes.ghost_name ≡ bytes.entry.ghost_name }
    {
        clear(bytes);
        DecimalStore { bytes }
    }

    // Lets the memory go again, as it is.
    pub fn close(self)
        ensures { self.exit.0.now ≡ self.entry.bytes.now }
    {
        let DecimalStore { bytes: _ } = self;
    }

    // Number i.
    fn get(&self, i: usize) -> u32
        requires { i < length (decimals self.now.bytes.now) }
        ensures { result ≡ slice_index (decimals self.now.bytes.now) i }
    {
        number_at(self.bytes, 6 * i)
    }

    // Puts v at i.
    fn put(&mut self, i: usize, v: u32)
        requires { (i < length (decimals self.old.bytes.now)) × (v ≤ TOP) }
        ensures numbers { decimals self.new.bytes.now ≡ slice_set (decimals self.old.bytes.now) i v }
        ensures memory { self.new.bytes.now ≡ put_at self.old.bytes.now (6 * i) v }
        ensures rest { unused self.new.bytes.now ≡ unused self.old.bytes.now }
        ensures lent { self.new.bytes.ghost_name ≡ self.old.bytes.ghost_name }
    {
        let at = 6 * i;
        self.bytes[at..at + 6].copy_from_slice(&digits_of(v));
    }
}

impl<'a> Store for DecimalStore<'a> {
    ghost numbers = { λ s. decimals s.bytes.now };

    ghost limit = { λ _. TOP };

    fn count(&self) -> usize {
        count_in(self.bytes.len())
    }

    fn top(&self) -> u32 {
        TOP
    }

    fn read(&self, i: usize) -> Result<u32, Refusal> {
        if i >= self.count() {
            return Err(Refusal::NoRegister);
        }
        Ok(self.get(i))
    }

    // The clauses past those of every store say that the memory is the same, and which of its bytes change.
    fn write(&mut self, i: usize, v: u32) -> Result<(), Refusal>
        ensures answer { result ≡ write_of (decimals self.old.bytes.now) TOP i v }
        ensures written { decimals self.new.bytes.now ≡ written_of (decimals self.old.bytes.now) TOP i v }
        ensures memory { self.new.bytes.now ≡ bytes_written self.old.bytes.now i v }
        ensures rest { unused self.new.bytes.now ≡ unused self.old.bytes.now }
        ensures lent { self.new.bytes.ghost_name ≡ self.old.bytes.ghost_name }
    {
        if i >= self.count() {
            return Err(Refusal::NoRegister);
        }
        if v > TOP {
            return Err(Refusal::OverTop);
        }
        self.put(i, v);
        Ok(())
    }
}
