// Numbers as a script writes them.
ghost use Rattle.std.specs.Prelude.{◌≡◌, ◌<◌, min, true, length, MatchOption};
ghost use Rattle.std.specs.Str.{all_ascii_digits};
ghost use Rattle.reader.specs.Text.{value};

// The number that a word of digits writes. Numbers above the largest usize count as that one. `parse` would take a `+` too,
// and has one kind of answer for no number and for one that is too large.
pub fn number(word: &str) -> Option<usize>
    ensures { MatchOption result
        (all_ascii_digits word.now ≡ true → length word.now ≡ 0)
        (λ n. (0 < length word.now) × (all_ascii_digits word.now ≡ true) × (n ≡ min (value word.now) 18446744073709551615)) }
{
    let digits = word.as_bytes();
    if digits.is_empty() {
        return None;
    }
    let mut n: usize = 0;
    for digit in digits {
        if !digit.is_ascii_digit() {
            return None;
        }
        n = n
            .saturating_mul(10)
            .saturating_add(usize::from(*digit - b'0'));
    }
    Some(n)
}

// A number as one of steps. Those that do not fit count as the largest that does; all these are too many for a tick.
pub fn steps(number: usize) -> u32
    ensures { result ≡ min number 4294967295 }
{
    u32::try_from(number).unwrap_or(u32::MAX)
}
