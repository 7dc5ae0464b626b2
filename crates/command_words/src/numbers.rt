//! The numbers of a command.

ghost use Rattle.std.specs.Prelude.{◌≡◌, ℕ, IfSome, IsNone};
ghost use Rattle.std.specs.Char.{is_ascii_digit};
ghost use Rattle.std.specs.List.{list_all};
ghost use Rattle.command_words.specs.Words.{IsNumberUpTo};
ghost use Rattle.script_text.specs.Words.{natural_of};

/// The most digits of a number, leading zeros among them.
const MOST_DIGITS: usize = 20;

/// The number from 1 to `most` that a word is.
pub(crate) fn number_up_to(word: &str, most: u64) -> Option<u64>
    ensures some { IfSome result (IsNumberUpTo most word.now) }
    ensures none { IsNone result → (n : ℕ) → IsNumberUpTo most word.now n → ⊥ }
{
    let n = number_in(word)?;
    if n == 0 || n > most {
        return None;
    }
    Some(n)
}

/// The number that a word is: one to twenty digits with a value below 2^64.
#[tactic(auto, using(crate::proofs::Digits::digits_are), unfolding(script_text::specs::Words::natural_of))]
fn number_in(word: &str) -> Option<u64>
    ensures { result ≡ natural_of word.now }
{
    // `parse` takes a sign, and any number of leading zeros.
    if word.len() > MOST_DIGITS || !are_digits(word.as_bytes()) {
        return None;
    }
    word.parse::<u64>().ok()
}

fn are_digits(word: &[u8]) -> bool
    ensures { result ≡ list_all is_ascii_digit word.now }
{
    word.iter().all(|b| b.is_ascii_digit())
}
