// Lines whose form is data: one reader and one printer for every form.
#![tactic(auto)]

ghost use Rattle.std.specs.Prelude.{◌≡◌, true, false, ◌∷◌, [], take, get_or, Some};
ghost use Rattle.text.specs.Printed.{printed, behind, page, with_text};
ghost use Rattle.text.specs.Decimal.{decimal_of};
ghost use Rattle.forms.specs.Forms.{kind_of, is_literal, choice_length, behind_choice, literals, split, number_words, maybe_words, pair_words, bytes_words, which_word, words_of, listed, is_read, read_form, Stored};
ghost use Rattle.text.specs.Hexadecimal.{bytes_text};
ghost use Rattle.forms.specs.Texts.{Value, word_at, maybe_text, pair_text, value_text, text, width, value_in, values_in, part};

use text::Printer;

// What a byte of a form stands for: itself, or a value.
#[derive(Clone, Copy)]
pub enum Kind {
    Literal,
    Number,
    Maybe,
    Pair,
    Bytes,
    Choice,
}

#[tactic(auto, unfolding(crate::specs::Forms::kind_of))]
fn kind_of(b: u8) -> Kind
    ensures { result ≡ kind_of b }
{
    match b {
        b'#' => Kind::Number,
        b'*' => Kind::Maybe,
        b':' => Kind::Pair,
        b'%' => Kind::Bytes,
        b'(' => Kind::Choice,
        _ => Kind::Literal,
    }
}

fn is_literal(kind: Kind) -> bool
    ensures { result ≡ is_literal kind }
{
    matches!(kind, Kind::Literal)
}

// The numbers that a value is handed out as.
#[derive(Clone, Copy)]
pub enum Words {
    One(u64),
    Two(u64, u64),
    Three(u64, u64, u64),
}

// ---- reading

fn number_words(value: &[u8]) -> Option<Words>
    ensures { result ≡ number_words (decimal_of value.now) }
{
    Some(Words::One(text::read_decimal(value)?))
}

#[tactic(auto, unfolding(crate::specs::Forms::maybe_words))]
fn maybe_words(value: &[u8]) -> Option<Words>
    ensures { result ≡ maybe_words value.now }
{
    if text::is_word(value, b"none") {
        return Some(Words::Two(0, 0));
    }
    Some(Words::Two(1, text::read_decimal(value)?))
}

#[tactic(auto, unfolding(crate::specs::Forms::pair_words))]
fn pair_words(value: &[u8]) -> Option<Words>
    ensures { result ≡ pair_words value.now }
{
    if text::is_word(value, b"none") {
        return Some(Words::Three(0, 0, 0));
    }
    let n = text::length_before(value, b':');
    if value.len() <= n {
        return None;
    }
    let first = text::read_decimal(&value[..n])?;
    let second = text::read_decimal(&value[n + 1..])?;
    Some(Words::Three(1, first, second))
}

// Where the digits stand in the line; nowhere for `-`.
fn bytes_words(value: &[u8], start: usize, end: usize) -> Option<Words>
    ensures { result ≡ bytes_words value.now start end }
{
    if text::is_word(value, b"-") {
        return Some(Words::Two(start as u64, start as u64));
    }
    if value.is_empty() || !text::is_hexadecimal(value) {
        return None;
    }
    Some(Words::Two(start as u64, end as u64))
}

// Which of the words between slashes a value is. By `split` and `position`, byte by byte, lines with choices are read a fifth slower.
fn choice_words(choice: &[u8], value: &[u8]) -> Option<Words>
    ensures { result ≡ which_word 0 (split choice.now) value.now }
{
    let mut k: u64 = 0;
    let mut w: usize = 0;
    loop {
        let n = text::length_before(&choice[w..], b'/');
        let e = w + n;
        if text::is_word(value, &choice[w..e]) {
            return Some(Words::One(k));
        }
        if choice.len() <= e {
            return None;
        }
        w = e + 1;
        k += 1;
    }
}

#[tactic(auto, unfolding(crate::specs::Forms::words_of))]
fn value_words(kind: Kind, choice: &[u8], value: &[u8], start: usize, end: usize) -> Option<Words>
    ensures { result ≡ words_of kind choice.now value.now start end }
{
    match kind {
        Kind::Literal => None,
        Kind::Number => number_words(value),
        Kind::Maybe => maybe_words(value),
        Kind::Pair => pair_words(value),
        Kind::Bytes => bytes_words(value, start, end),
        Kind::Choice => choice_words(choice, value),
    }
}

#[tactic(auto, using(text::proofs::Printing::one_set, text::proofs::Printing::one_place))]
fn put_words(w: Words, got: &mut [u64], n: usize) -> usize
    ensures bytes { got.new ≡ printed got.old n (listed (Some w)) }
    ensures place { result ≡ behind got.old n (listed (Some w)) }
{
    match w {
        Words::One(a) => text::store(a, got, n),
        Words::Two(a, b) => {
            let m = text::store(a, got, n);
            text::store(b, got, m)
        }
        Words::Three(a, b, c) => {
            let m = text::store(a, got, n);
            let m = text::store(b, got, m);
            text::store(c, got, m)
        }
    }
}

// How much of the form behind a mark is its words.
fn choice_length(kind: Kind, form: &[u8]) -> usize
    ensures { result ≡ choice_length kind form.now }
{
    match kind {
        Kind::Choice => text::length_before(form, b')'),
        _ => 0,
    }
}

// Where the form goes on: behind the `)` of a choice that ends at c.
fn behind_choice(kind: Kind, c: usize, size: usize) -> usize
    ensures { result ≡ behind_choice kind c size }
{
    match kind {
        Kind::Choice if c < size => c + 1,
        _ => c,
    }
}

// Reads a line by a form: whether it is of that form, and then its values' words.
// The form and the line go on by different lengths, so each has a place of its own and no iterator.
pub fn read_form(form: &[u8], line: &[u8], got: &mut [u64]) -> bool
    ensures good { result ≡ is_read (read_form form.now line.now) }
    ensures words { Stored form.now line.now got.old got.new }
{
    let mut f: usize = 0;
    let mut i: usize = 0;
    let mut n: usize = 0;
    while f < form.len() {
        let b = form[f];
        let g = f + 1;
        let kind = kind_of(b);
        if is_literal(kind) {
            if line.len() <= i || line[i] != b {
                return false;
            }
            i += 1;
            f = g;
            continue;
        }
        let e = i + text::length_before(&line[i..], b' ');
        let c = g + choice_length(kind, &form[g..]);
        let Some(words) = value_words(kind, &form[g..c], &line[i..e], i, e) else {
            return false;
        };
        n = put_words(words, got, n);
        i = e;
        f = behind_choice(kind, c, form.len());
    }
    i == line.len()
}

// ---- printing: what the buffer has no room for is left out

// A number of those lent; 0 behind them.
pub fn word_at(words: &[u64], n: usize) -> u64
    ensures { result ≡ get_or words.now n 0 }
{
    words.get(n).copied().unwrap_or(0)
}

fn put_maybe(given: u64, v: u64, printer: &mut Printer<'_>)
    ensures { page printer.new ≡ with_text (page printer.old) (maybe_text given v) }
{
    match given {
        0 => printer.put_text(b"none"),
        _ => printer.put_decimal(v),
    }
}

#[tactic(auto, using(text::proofs::Printing::with_texts))]
fn put_pair(given: u64, a: u64, b: u64, printer: &mut Printer<'_>)
    ensures { page printer.new ≡ with_text (page printer.old) (pair_text given a b) }
{
    if given == 0 {
        printer.put_text(b"none");
    } else {
        printer.put_decimal(a);
        printer.put_byte(b':');
        printer.put_decimal(b);
    }
}

// Bytes of a source from a place up to another.
#[tactic(auto, using(crate::proofs::Print::part_within))]
fn put_part(source: &[u8], start: u64, end: u64, printer: &mut Printer<'_>)
    ensures { page printer.new ≡ with_text (page printer.old) (bytes_text (part source.now start end)) }
{
    let end = source.len().min(end as usize);
    let start = end.min(start as usize);
    printer.put_bytes(&source[start..end]);
}

// A word of a choice by its place; nothing where there is none.
fn put_choice(choice: &[u8], k: u64, printer: &mut Printer<'_>)
    ensures { page printer.new ≡ with_text (page printer.old) (word_at choice.now k) }
{
    let word = choice.split(|b| *b == b'/').nth(k as usize);
    printer.put_text(word.unwrap_or(b""));
}

#[tactic(auto, unfolding(crate::specs::Texts::value_text, crate::specs::Texts::value_in))]
fn put_value(kind: Kind, choice: &[u8], words: &[u64], source: &[u8], printer: &mut Printer<'_>)
    ensures { page printer.new ≡ with_text (page printer.old) (value_text choice.now (value_in (part source.now) kind words.now)) }
{
    let a = word_at(words, 0);
    let b = word_at(words, 1);
    match kind {
        Kind::Literal => printer.put_text(b"none"),
        Kind::Number => printer.put_decimal(a),
        Kind::Maybe => put_maybe(a, b, printer),
        Kind::Pair => put_pair(a, b, word_at(words, 2), printer),
        Kind::Bytes => put_part(source, a, b, printer),
        Kind::Choice => put_choice(choice, a, printer),
    }
}

// How many words a value is handed out as.
fn width_of(kind: Kind) -> usize
    ensures { result ≡ width kind }
{
    match kind {
        Kind::Literal => 0,
        Kind::Number => 1,
        Kind::Maybe => 2,
        Kind::Pair => 3,
        Kind::Bytes => 2,
        Kind::Choice => 1,
    }
}

// The bytes of a form up to its first mark, printed; answers how many they are.
fn put_literals(form: &[u8], printer: &mut Printer<'_>) -> usize
    ensures bytes { page printer.new ≡ with_text (page printer.old) (take (literals form.now) form.now) }
    ensures count { result ≡ literals form.now }
{
    let n = form
        .iter()
        .position(|b| !is_literal(kind_of(*b)))
        .unwrap_or(form.len());
    printer.put_text(&form[..n]);
    n
}

// Prints a line by a form: the values that words stand for, bytes from a source.
// As in read_form, the form and the words go on by different lengths.
pub fn put_form(form: &[u8], words: &[u64], source: &[u8], printer: &mut Printer<'_>)
    ensures { page printer.new ≡ with_text (page printer.old) (text form.now (values_in source.now form.now words.now)) }
{
    let mut f: usize = 0;
    let mut n: usize = 0;
    loop {
        f += put_literals(&form[f..], printer);
        if form.len() <= f {
            return;
        }
        let g = f + 1;
        let kind = kind_of(form[f]);
        let c = g + choice_length(kind, &form[g..]);
        put_value(kind, &form[g..c], &words[n..], source, printer);
        n = words.len().min(n + width_of(kind));
        f = behind_choice(kind, c, form.len());
    }
}
