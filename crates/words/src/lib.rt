// The words behind the program's name: what they ask for.
#![tactic(auto)]

ghost use Rattle.std.specs.Prelude.{◌≡◌, true, [], ◌∷◌, ◌+◌, ◌-◌, ◌*◌, map};
ghost use Rattle.rules.specs.Words.{is_digit, digits_only, is_number, value_of, asks, is_asked};
ghost use Rattle.words.specs.Words.{capped, capped_word, read_as, unnamed_of, word_is, asked_by, AsksFirst};

// What is asked for.
#[derive(Clone, Copy, PartialEq, Eq, Debug)]
pub enum Question {
    Fold,
    Boards(u64),
    Values(u64),
    Margin(u64, u64, u64, u64),
    Unfold,
    Gap,
    Nothing,
}

// One word: the name of a question, a number, or neither.
#[derive(Clone, Copy, PartialEq, Eq, Debug)]
pub enum Word {
    Boards,
    Values,
    Margin,
    Unfold,
    Gap,
    Number(u64),
    Other,
}

// ---- one word, by its bytes

// Whether it is a number: one or more digits.
fn is_number(w: &[u8]) -> bool
    ensures { result ≡ is_number w.now }
{
    !w.is_empty() && w.iter().all(|d| d.is_ascii_digit())
}

// One digit more behind those that are v. Nothing wraps: beyond 64 bits it is the largest number.
fn with_digit(v: u64, d: u8) -> u64
    requires { is_digit d ≡ true }
    ensures { result ≡ capped (v * 10 + (d - 48)) }
{
    v.saturating_mul(10).saturating_add(u64::from(d - b'0'))
}

// The number that digits are.
fn value_of(w: &[u8]) -> u64
    requires { digits_only w.now ≡ true }
    ensures { result ≡ capped (value_of w.now) }
{
    let mut v = 0;
    for d in w {
        v = with_digit(v, *d);
    }
    v
}

// A word that is no question's name.
fn unnamed(w: &[u8]) -> Word
    ensures { word_is result ≡ capped_word (unnamed_of w.now) }
{
    if is_number(w) {
        return Word::Number(value_of(w));
    }
    Word::Other
}

// A word, read. A `match` on byte strings would tell the proof no more than their lengths.
#[tactic(auto, using(crate::specs::WordLaws::read_row))]
pub fn word_of(w: &[u8]) -> Word
    ensures { word_is result ≡ read_as w.now }
{
    if w == b"boards".as_slice() {
        return Word::Boards;
    }
    if w == b"values".as_slice() {
        return Word::Values;
    }
    if w == b"margin".as_slice() {
        return Word::Margin;
    }
    if w == b"unfold".as_slice() {
        return Word::Unfold;
    }
    if w == b"gap".as_slice() {
        return Word::Gap;
    }
    unnamed(w)
}

// ---- all of them: words that are no question, too few or too many, ask nothing

// One word.
fn ask_one(a: Word) -> Question
    ensures { asked_by result ≡ asks (word_is a ∷ []) }
{
    match a {
        Word::Unfold => Question::Unfold,
        Word::Gap => Question::Gap,
        _ => Question::Nothing,
    }
}

// A name and a number.
fn ask_two(a: Word, b: Word) -> Question
    ensures { asked_by result ≡ asks (word_is a ∷ word_is b ∷ []) }
{
    match (a, b) {
        (Word::Boards, Word::Number(q)) => Question::Boards(q),
        (Word::Values, Word::Number(q)) => Question::Values(q),
        _ => Question::Nothing,
    }
}

// A name and four numbers.
fn ask_five(a: Word, b: Word, c: Word, d: Word, e: Word) -> Question
    ensures { asked_by result ≡ asks (word_is a ∷ word_is b ∷ word_is c ∷ word_is d ∷ word_is e ∷ []) }
{
    match (a, b, c, d, e) {
        (Word::Margin, Word::Number(i), Word::Number(j), Word::Number(n), Word::Number(q)) =>
            Question::Margin(i, j, n, q),
        _ => Question::Nothing,
    }
}

// What words ask: all of them, or, of more than five, the first six at least.
pub fn question_of(words: &[Word]) -> Question
    ensures { AsksFirst (map word_is words.now) result }
{
    match *words {
        [] => Question::Fold,
        [a] => ask_one(a),
        [a, b] => ask_two(a, b),
        [a, b, c, d, e] => ask_five(a, b, c, d, e),
        _ => Question::Nothing,
    }
}

// Whether anything is asked.
pub fn is_asked(q: Question) -> bool
    ensures { result ≡ is_asked (asked_by q) }
{
    !matches!(q, Question::Nothing)
}
