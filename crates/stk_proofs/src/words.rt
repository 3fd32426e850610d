// The words of a text, one after the other.
ghost use Rattle.std.specs.Prelude.{◌≡◌, ◌≤◌, ◌<◌, ◌⊎◌, ◌∷◌, [], true, false, take, drop, length, MatchOption};
ghost use Rattle.stk_proofs.specs.Words.{is_blank, begins_word, words_of, stretches, uncommented};
ghost use Rattle.stk_proofs.specs.FirstWord.{front_word, behind_word, behind_line};

/// Whether a byte is a space, a tab, a newline or a carriage return.
fn is_blank(byte: u8) -> bool
    ensures { result ≡ is_blank byte }
{
    byte == b' ' || byte == b'\t' || byte == b'\n' || byte == b'\r'
}

/// What comes behind the first newline.
fn behind_line(text: &[u8]) -> &[u8]
    ensures behind { result.now ≡ behind_line text.now }
    ensures within { length result.now ≤ length text.now }
{
    let mut rest = text;
    while let Some((first, behind)) = rest.split_first() {
        rest = behind;
        if *first == b'\n' {
            return rest;
        }
    }
    rest
}

/// The text from its first word on, where it is at the start of a line or a blank is in front of it.
fn from_word(text: &[u8]) -> &[u8]
    ensures words { stretches (uncommented false false result.now) ≡ words_of text.now }
    ensures begins { length result.now ≡ 0 ⊎ (begins_word result.now ≡ true) }
    ensures within { length result.now ≤ length text.now }
{
    let mut rest = text;
    let mut starts = true;
    while let Some((first, behind)) = rest.split_first() {
        if starts && *first == b'c' {
            rest = behind_line(behind);
        } else if is_blank(*first) {
            starts = *first == b'\n';
            rest = behind;
        } else {
            return rest;
        }
    }
    rest
}

/// How many bytes stand before the first blank.
fn word_length(text: &[u8]) -> usize
    ensures within { result ≤ length text.now }
    ensures front { take result text.now ≡ front_word text.now }
    ensures behind { drop result text.now ≡ behind_word text.now }
{
    for (i, byte) in text.iter().enumerate() {
        if is_blank(*byte) {
            return i;
        }
    }
    text.len()
}

/// The first word of a text and what comes behind it; `None` exactly where the text has no words. What comes behind is
/// empty or begins with a blank, so its words are the others.
pub(crate) fn next_word(text: &[u8]) -> Option<(&[u8], &[u8])>
    ensures words { MatchOption result (words_of text.now ≡ []) (λ p. words_of text.now ≡ p.0.now ∷ words_of p.1.now) }
    ensures shorter { MatchOption result (0 ≤ length text.now) (λ p. length p.1.now < length text.now) }
{
    let start = from_word(text);
    if start.is_empty() {
        return None;
    }
    Some(start.split_at(word_length(start)))
}
