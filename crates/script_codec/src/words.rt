//! The words of a line, and numbers.

ghost use Rattle.std.specs.Prelude.{◌≡◌, ◌↔◌, IsTrue, ◌++◌, ◌∷◌, [], ℕ, List, IfSome, IfNone, MatchOption};
ghost use Rattle.std.specs.List.{list_all};
ghost use Rattle.std.specs.Char.{is_ascii_digit};
ghost use Rattle.script_model.specs.Words.{IsNumber, Lacks, IsPlain};
ghost use Rattle.script_model.specs.Lines.{IsRange, words_of};

/// What stands before the first of such bytes, and after it.
pub fn cut(text: &[u8], byte: u8) -> Option<(&[u8], &[u8])>
    ensures found { IfSome result (λ parts. (text.now ≡ parts.0.now ++ byte ∷ parts.1.now) × Lacks byte parts.0.now) }
    ensures none { IfNone result (Lacks byte text.now) }
{
    for (i, b) in text.iter().enumerate() {
        if *b == byte {
            return Some((&text[..i], &text[i + 1..]));
        }
    }
    None
}

/// The first word, and what follows its blank.
pub fn cut_word(text: &[u8]) -> Option<(&[u8], &[u8])>
    ensures { MatchOption result (words_of text.now ≡ text.now ∷ []) (λ parts. words_of text.now ≡ parts.0.now ∷ words_of parts.1.now) }
{
    cut(text, b' ')
}

/// Whether the text is digits alone.
fn is_all_digits(text: &[u8]) -> bool
    ensures { result ≡ list_all is_ascii_digit text.now }
{
    text.iter().all(|b| b.is_ascii_digit())
}

/// Whether the text is digits alone, without a leading zero.
fn is_plain(text: &[u8]) -> bool
    ensures { IsTrue result ↔ IsPlain text.now }
{
    if text.is_empty() {
        return false;
    }
    if text[0] == b'0' && text.len() > 1 {
        return false;
    }
    is_all_digits(text)
}

/// The number that the text spells, and none where it spells none: decimal digits alone, without a sign or a leading zero,
/// of a number below 2^64.
pub fn number(text: &[u8]) -> Option<u64>
    ensures { MatchOption result ((n : ℕ) → IsNumber text.now n → ⊥) (λ n. IsNumber text.now n) }
{
    if !is_plain(text) {
        return None;
    }
    match std::str::from_utf8(text) {
        Err(_) => None,
        Ok(text) => text.parse().ok(),
    }
}

/// The offset and the length.
pub fn range(text: &[u8]) -> Option<(u64, u64)>
    ensures { MatchOption result ((at n : ℕ) → IsRange (words_of text.now) at n → ⊥) (λ x. IsRange (words_of text.now) x.0 x.1) }
{
    let Some((offset, length)) = cut_word(text) else {
        return None;
    };
    let Some(at) = number(offset) else {
        return None;
    };
    let Some(count) = number(length) else {
        return None;
    };
    Some((at, count))
}
