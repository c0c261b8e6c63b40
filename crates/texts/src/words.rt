// Words that stand for numbers and for registers.
ghost use Rattle.std.specs.Prelude.{◌≡◌, ◌&&◌};
ghost use Rattle.texts.specs.Words.{is_digit, is_leading_digit, number_word, number_of, register_word, register_of, WritesTheNumberOrNone};

// Whether two characters are digits, and the first is no zero.
fn are_two_digits(tens: u8, ones: u8) -> bool
    ensures no_leading_zero { result ≡ (is_leading_digit tens && is_digit ones) }
{
    tens != b'0' && tens.is_ascii_digit() && ones.is_ascii_digit()
}

// The number that a word of one or two digits stands for.
pub fn number(word: &[u8]) -> Option<u8>
    ensures the_number_of_the_word { result ≡ number_of word.now }
    ensures writes_that_number_or_none { WritesTheNumberOrNone number_word word.now result }
{
    match word {
        [d] if d.is_ascii_digit() => Some(*d - b'0'),
        [t, d] if are_two_digits(*t, *d) => Some((*t - b'0') * 10 + (*d - b'0')),
        _ => None,
    }
}

// The register that a word of r and one or two digits stands for.
pub fn register(word: &[u8]) -> Option<u8>
    ensures the_register_of_the_word { result ≡ register_of word.now }
    ensures writes_that_register_or_none { WritesTheNumberOrNone register_word word.now result }
{
    match word {
        [b'r', d] if d.is_ascii_digit() => Some(*d - b'0'),
        [b'r', t, d] if are_two_digits(*t, *d) => Some((*t - b'0') * 10 + (*d - b'0')),
        _ => None,
    }
}
