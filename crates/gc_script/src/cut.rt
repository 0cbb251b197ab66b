//! Cutting a text into lines, and a line into words, in one pass: a word ends at the first space or newline, and a
//! space says that its line goes on. What stays true is that the words so far, and then those of what is behind them,
//! are the line's.

ghost use Rattle.std.specs.Prelude.{◌≡◌, ◌<◌, ◌≤◌, ◌∷◌, ◌++◌, [], true, map, take, length, MatchOption, IfSome};
ghost use Rattle.gc_script.specs.Text.{lines_of, words_of, bytes_before, first_line, after_line, word_end, words_from, after_from};

use arrayvec::ArrayVec;

/// How many words of a line are looked at: one more than a line may have.
const MOST_WORDS: usize = 7;

/// The words of a line, as far as they are looked at: a line with more than six is refused for their number.
pub(crate) type Words<'a> = ArrayVec<&'a [u8], MOST_WORDS>;

/// A word, whether a space ends it, so that its line goes on, and the text behind what ends it.
#[derive(Clone, Copy)]
struct Cut<'a> {
    word: &'a [u8],
    goes_on: bool,
    behind: &'a [u8],
}

/// Cuts off the first line. None exactly where there is no line.
pub(crate) fn split_line(bytes: &[u8]) -> Option<(&[u8], &[u8])>
    ensures lines { MatchOption result (lines_of bytes.now ≡ [])
        (λ cut. lines_of bytes.now ≡ cut.0.now ∷ lines_of cut.1.now) }
    ensures shorter { MatchOption result (bytes.now ≡ []) (λ cut. length cut.1.now < length bytes.now) }
{
    if bytes.is_empty() {
        return None;
    }
    let end = line_end(bytes);
    if end < bytes.len() {
        Some((&bytes[..end], &bytes[end + 1..]))
    } else {
        Some((bytes, &[]))
    }
}

/// How many bytes stand before the first newline, or all of them.
fn line_end(text: &[u8]) -> usize
    ensures before { result ≡ bytes_before 10 text.now }
    ensures within { result ≤ length text.now }
{
    for (at, byte) in text.iter().enumerate() {
        if *byte == b'\n' {
            return at;
        }
    }
    text.len()
}

/// Cuts off the first line, and cuts it into words on the way: each byte is passed once. None exactly where there
/// is no line.
pub(crate) fn cut_line(text: &[u8]) -> Option<(Words<'_>, &[u8])>
    ensures lines { MatchOption result (lines_of text.now ≡ [])
        (λ cut. lines_of text.now ≡ first_line text.now ∷ lines_of cut.1.now) }
    ensures words { IfSome result (λ cut. map (λ word. word.now) cut.0.items ≡ take 7 (words_of (first_line text.now))) }
    ensures shorter { MatchOption result (text.now ≡ []) (λ cut. length cut.1.now < length text.now) }
{
    if text.is_empty() {
        return None;
    }
    Some(cut_words(text))
}

/// The words of the first line, and the text behind that line.
fn cut_words(text: &[u8]) -> (Words<'_>, &[u8])
    ensures words { map (λ word. word.now) result.0.items ≡ take 7 (words_of (first_line text.now)) }
    ensures rest { result.1.now ≡ after_line text.now }
{
    let mut words = ArrayVec::new();
    let mut cut = cut_word(text);
    while cut.goes_on {
        append_word(&mut words, cut.word);
        cut = cut_word(cut.behind);
    }
    append_word(&mut words, cut.word);
    (words, cut.behind)
}

/// Appends a word, where it is one of the first seven.
fn append_word<'a>(words: &mut Words<'a>, word: &'a [u8])
    ensures { map (λ word. word.now) words.new.items ≡ take 7 (map (λ word. word.now) words.old.items ++ word.now ∷ []) }
{
    if !words.is_full() {
        words.push(word);
    }
}

/// Cuts off the first word.
fn cut_word(text: &[u8]) -> Cut<'_>
    ensures words { words_of (first_line text.now) ≡ words_from result.word.now result.goes_on result.behind.now }
    ensures after { after_from result.goes_on result.behind.now ≡ after_line text.now }
    ensures shorter { result.goes_on ≡ true → length result.behind.now < length text.now }
{
    let end = word_end(text);
    if end == text.len() {
        return Cut {
            word: text,
            goes_on: false,
            behind: &[],
        };
    }
    Cut {
        word: &text[..end],
        goes_on: text[end] == b' ',
        behind: &text[end + 1..],
    }
}

/// How many bytes stand before the first newline or space, or all of them.
fn word_end(text: &[u8]) -> usize
    ensures end { result ≡ word_end text.now }
    ensures within { result ≤ length text.now }
{
    for (at, byte) in text.iter().enumerate() {
        if *byte == b'\n' || *byte == b' ' {
            return at;
        }
    }
    text.len()
}
