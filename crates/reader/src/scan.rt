// Words and numbers of a text.
ghost use Rattle.std.specs.Prelude.{◌≡◌, ◌<◌, ◌≤◌, IfSome};
ghost use Rattle.format.specs.Faults.{name_form, natural_of, minutes_of};

// Whether a word has the form of a name.
pub(crate) fn is_name(word: &[u8]) -> bool
    ensures { result ≡ name_form word.now }
{
    (1..=8).contains(&word.len()) && word.iter().all(|b| b.is_ascii_lowercase())
}

// The number that one to `most` digits write, with no zero in front of others. `parse` would take a plus sign and such zeros.
pub(crate) fn natural(word: &[u8], most: usize) -> Option<u32>
    requires few { most ≤ 5 }
    ensures value { result ≡ natural_of most word.now }
    ensures small { IfSome result (λ n. n < 100000) }
{
    if matches!(word, [] | [b'0', _, ..]) || word.len() > most {
        return None;
    }
    let mut value = 0;
    for byte in word {
        value = 10 * value + char::from(*byte).to_digit(10)?;
    }
    Some(value)
}

// The minutes that a word writes, with a minus sign before them or none. `parse` would take what is no minutes here, as above.
pub(crate) fn minutes(word: &[u8]) -> Option<i32>
    ensures { result ≡ minutes_of word.now }
{
    match word {
        [b'-', digits @ ..] => match natural(digits, 5)? {
            0 => None,
            n => Some(-(n as i32)),
        },
        _ => Some(natural(word, 5)? as i32),
    }
}
