ghost use Rattle.std.specs.Prelude.{◌≡◌, ◌≤◌, IfSome};
ghost use Rattle.std.specs.Char.{is_ascii_digit};
ghost use Rattle.std.specs.List.{list_all};
ghost use Rattle.command_words.specs.Asked.{is_digits, number_in, within};

/// The number that the text spells in decimal: at most so many digits, and a number from 1 to `most`.
pub fn number_in(text: &str, digits: usize, most: u32) -> Option<u32>
    requires { digits ≤ 9 }
    ensures value { result ≡ number_in digits most text.now }
    ensures range { IfSome result (λ n. (1 ≤ n) × (n ≤ most)) }
{
    if !is_digits(text, digits) {
        return None;
    }
    match text.parse::<u32>() {
        Ok(number) => within(most, number),
        Err(_) => None,
    }
}

fn is_digits(text: &str, most: usize) -> bool
    ensures { result ≡ is_digits most text.now }
{
    all_digits(text.as_bytes()) && 1 <= text.len() && text.len() <= most
}

fn all_digits(text: &[u8]) -> bool
    ensures { result ≡ list_all is_ascii_digit text.now }
{
    text.iter().all(|b| b.is_ascii_digit())
}

fn within(most: u32, number: u32) -> Option<u32>
    ensures value { result ≡ within most number }
    ensures range { IfSome result (λ n. (1 ≤ n) × (n ≤ most)) }
{
    if 1 <= number && number <= most {
        Some(number)
    } else {
        None
    }
}
