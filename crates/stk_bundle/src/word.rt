// The first words of lines.
ghost use Rattle.std.specs.Prelude.{◌≡◌, MatchOption};
ghost use Rattle.stk_bundle.specs.declared.word.Word.{Word as Named};
ghost use Rattle.stk_bundle.specs.Words.{word_text};

/// The first word of a line.
#[derive(Clone, Copy, Debug, PartialEq, Eq)]
pub(crate) enum Word {
    Stack,
    Source,
    Without,
    Function,
    Unstable,
    Hit,
    Need,
    Open,
    Tried,
    Clauses,
    Steps,
    Left,
    End,
}

/// The first word that a text is; `None` exactly where it is none.
pub(crate) fn word_in(text: &[u8]) -> Option<Word>
    ensures { MatchOption result ((word : Named) → text.now ≡ word_text word → ⊥) (λ word. text.now ≡ word_text word) }
{
    match text {
        b"stack" => Some(Word::Stack),
        b"source" => Some(Word::Source),
        b"without" => Some(Word::Without),
        b"function" => Some(Word::Function),
        b"unstable" => Some(Word::Unstable),
        b"hit" => Some(Word::Hit),
        b"need" => Some(Word::Need),
        b"open" => Some(Word::Open),
        b"tried" => Some(Word::Tried),
        b"cnf" => Some(Word::Clauses),
        b"lrat" => Some(Word::Steps),
        b"left" => Some(Word::Left),
        b"end" => Some(Word::End),
        _ => None,
    }
}
