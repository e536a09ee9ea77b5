//! Numbers that words spell.

ghost use Rattle.std.specs.Prelude.{◌≡◌};
ghost use Rattle.std.specs.Char.{is_ascii_digit};
ghost use Rattle.std.specs.List.{list_all};
ghost use Rattle.command_line.specs.Number.{number_in};

fn are_digits(word: &str) -> bool
    ensures { result ≡ list_all is_ascii_digit word.now }
{
    word.as_bytes().iter().all(|byte| byte.is_ascii_digit())
}

/// The number that a word spells in one to `digits` decimal digits, if it is from `least` to `most`.
pub fn number_in(word: &str, digits: usize, least: u64, most: u64) -> Option<u64>
    ensures { result ≡ number_in digits least most word.now }
{
    if !are_digits(word) || word.is_empty() || word.len() > digits {
        return None;
    }
    match word.parse::<u64>() {
        Ok(number) if least <= number && number <= most => Some(number),
        _ => None,
    }
}
