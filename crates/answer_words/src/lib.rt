// The words of an answer: a reply to a pass, held to the next words of a list of answers. harness/README.md has the list's form.
#![tactic(auto)]

pub mod places;

ghost use Rattle.std.specs.Prelude.{◌≡◌, ◌<◌, option_copied};
ghost use Rattle.definition.specs.Sizes.{max_passes};
ghost use Rattle.whole_session.specs.Numbers.{numbers_at};
ghost use Rattle.answer_words.specs.Words.{next_word, next_words, double_words, color_words, attachment_words, attachments_words, line_words, rest_words, withheld, numbers_of, next_reply};

use definition::sizes::{COUNT_BYTES, MAX_CLEARS, ROW_BYTES, ROW_NUMBERS, SURFACE_NUMBERS};
use definition::{Attachment, Color};
use encoding::{bits_of_f32, bits_of_f64, u32_at};
use render_pass::Reply;

// Bytes of a word.
pub const WORD_BYTES: usize = 4;

// Where the records of a lent list start: behind its count.
const RECORDS: u32 = COUNT_BYTES as u32;

// The most surfaces of a lent list: the clears have the most room.
const MAX_LENT: u32 = MAX_CLEARS as u32;

// The numbers of a surface.
const SURFACE: u32 = SURFACE_NUMBERS as u32;

// What is left of an answer whose next word is this one.
#[tactic(auto, unfolding(crate::specs::Words::next_word))]
fn word(list: &[u8], w: u32) -> Option<&[u8]>
    ensures { option_copied result ≡ next_word list.now w }
{
    if (list.len() < WORD_BYTES) | (u32_at(list, 0) != w) {
        return None;
    }
    Some(&list[WORD_BYTES..])
}

// The next words are these.
pub fn words<'a>(list: &'a [u8], expected: &[u32]) -> Option<&'a [u8]>
    ensures { option_copied result ≡ next_words list.now expected.now }
{
    let mut rest = list;
    for &w in expected {
        rest = word(rest, w)?;
    }
    Some(rest)
}

// The next words are n numbers that stand in bytes from a place on.
pub fn numbers<'a>(list: &'a [u8], b: &[u8], from: u32, n: u32) -> Option<&'a [u8]>
    ensures { option_copied result ≡ next_words list.now (numbers_at b.now from n) }
{
    let mut rest = list;
    for i in 0..n {
        rest = word(rest, u32_at(b, from as usize + WORD_BYTES * i as usize))?;
    }
    Some(rest)
}

// The next two words are the pattern of an f64, the low half first.
#[tactic(auto, unfolding(crate::specs::Words::double_words))]
fn double(list: &[u8], x: f64) -> Option<&[u8]>
    ensures { option_copied result ≡ next_words list.now (double_words x) }
{
    let bits = bits_of_f64(x);
    let low = bits % 0x1_0000_0000;
    let high = bits / 0x1_0000_0000;
    words(list, &[low as u32, high as u32])
}

// The next eight words are a colour.
#[tactic(auto, unfolding(crate::specs::Words::color_words), using(crate::proofs::Laws::words_append))]
fn color(list: &[u8], c: Color) -> Option<&[u8]>
    ensures { option_copied result ≡ next_words list.now (color_words c) }
{
    let red = double(list, c.red)?;
    let green = double(red, c.green)?;
    let blue = double(green, c.blue)?;
    double(blue, c.alpha)
}

// The next fourteen words are an attachment.
#[tactic(auto, unfolding(crate::specs::Words::attachment_words), using(crate::proofs::Laws::words_append))]
fn attachment(list: &[u8], a: Attachment) -> Option<&[u8]>
    ensures { option_copied result ≡ next_words list.now (attachment_words a) }
{
    let rest = words(list, &[a.view, a.usage, a.ops, a.stencil_ops])?;
    let rest = color(rest, a.color)?;
    words(rest, &[bits_of_f32(a.depth), a.stencil])
}

// The next words are attachments.
fn attachments<'a>(list: &'a [u8], records: &[Attachment]) -> Option<&'a [u8]>
    ensures { option_copied result ≡ next_words list.now (attachments_words records.now) }
{
    let mut rest = list;
    for a in records {
        rest = attachment(rest, *a)?;
    }
    Some(rest)
}

// The next words are the line of pass k: by its reply and the length of the discard list.
#[tactic(auto, unfolding(crate::specs::Words::line_words))]
fn line<'a>(list: &'a [u8], k: u32, r: &Reply, discards: u32) -> Option<&'a [u8]>
    ensures { option_copied result ≡ next_words list.now (line_words k r.now discards) }
{
    words(
        list,
        &[
            k, r.number, r.place, r.earlier, r.width, r.height, r.samples, r.clears, discards,
        ],
    )
}

// The next words are what follows the line: flags, divergent aspect, attachments.
#[tactic(auto, unfolding(crate::specs::Words::rest_words), using(crate::proofs::Laws::words_append))]
fn rest<'a>(list: &'a [u8], r: &Reply) -> Option<&'a [u8]>
    ensures { option_copied result ≡ next_words list.now (rest_words r.now) }
{
    let list = words(
        list,
        &[r.depth_read_only, r.stencil_read_only, r.divergent, r.count],
    )?;
    let records: &[Attachment] = &r.attachments;
    let count = (r.count as usize).min(records.len());
    attachments(list, &records[..count])
}

// Document 01 withholds these numbers from the comparison.
fn is_withheld(number: u32) -> bool
    ensures { result ≡ withheld number }
{
    matches!(number, 5 | 48..=50)
}

// The numbers of so many surfaces; none of more than any list has room for.
fn numbers_of(surfaces: u32) -> u32
    ensures { result ≡ numbers_of surfaces }
{
    if surfaces > MAX_LENT {
        0
    } else {
        SURFACE * surfaces
    }
}

// The next words are those of pass k: its line by the reply and by the rows, what follows, the clears and the discards.
#[tactic(auto, unfolding(crate::specs::Words::next_reply), using(crate::proofs::Laws::words_append))]
pub fn reply<'a>(
    list: &'a [u8],
    k: u32,
    r: &Reply,
    rows: &[u8],
    clears: &[u8],
    discards: &[u8],
) -> Option<&'a [u8]>
    requires { k < max_passes }
    ensures { option_copied result ≡ next_reply list.now k r.now rows.now clears.now discards.now }
{
    if is_withheld(r.number) {
        return word(list, 1);
    }
    let held = u32_at(discards, 0);
    let start = word(list, 0)?;
    numbers(start, rows, ROW_BYTES as u32 * k, ROW_NUMBERS as u32)?;
    let after = rest(line(start, k, r, held)?, r)?;
    let cleared = numbers(after, clears, RECORDS, numbers_of(r.clears))?;
    numbers(cleared, discards, RECORDS, numbers_of(held))
}
