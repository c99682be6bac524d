// Words that are read on past a difference: where in the list they end, and whether every word so far is the one that was answered.
ghost use Rattle.std.specs.Prelude.{◌≡◌, ◌<◌, drop};
ghost use Rattle.definition.specs.Sizes.{max_passes};
ghost use Rattle.whole_session.specs.Numbers.{numbers_at};
ghost use Rattle.answer_words.specs.Words.{line_words, rest_words};
ghost use Rattle.answer_words.specs.Places.{next_word, next_words, next_reply, past};

use crate::{RECORDS, WORD_BYTES, is_withheld, numbers_of};
use definition::Attachment;
use definition::sizes::{ROW_BYTES, ROW_NUMBERS};
use encoding::u32_at;
use render_pass::Reply;

// The words of a line.
const LINE: usize = 9;

// The words between the line and the attachments.
const FRONT: usize = 4;

// The words of an attachment.
const ATTACHMENT: usize = 14;

// A place in the list, and whether every word so far is the one that was answered.
#[derive(Clone, Copy)]
pub struct Place {
    pub at: usize,
    pub same: bool,
}

// The next word is this one.
pub fn word(list: &[u8], p: Place, w: u32) -> Place
    ensures { result ≡ next_word list.now p w }
{
    let at = p.at;
    if list.len().saturating_sub(at) < WORD_BYTES {
        return Place { at, same: false };
    }
    Place {
        at: at + WORD_BYTES,
        same: p.same & (u32_at(list, at) == w),
    }
}

// The next words are n numbers that stand in bytes from a place on.
pub fn numbers(list: &[u8], p: Place, b: &[u8], from: u32, n: u32) -> Place
    ensures { result ≡ next_words list.now p (numbers_at b.now from n) }
{
    let mut q = p;
    for i in 0..n {
        q = word(list, q, u32_at(b, from as usize + WORD_BYTES * i as usize));
    }
    q
}

// What is left of the list.
fn left(list: &[u8], p: Place) -> &[u8]
    ensures { result.now ≡ drop p.at list.now }
{
    &list[p.at.min(list.len())..]
}

// The place n words on, or where the list ends: whether these are the next ones is handed in.
fn past(list: &[u8], p: Place, n: usize, are_next: bool) -> Place
    ensures { result ≡ past list.now p n are_next }
{
    let words = list.len().saturating_sub(p.at) / WORD_BYTES;
    Place {
        at: p.at + WORD_BYTES * n.min(words),
        same: p.same & are_next,
    }
}

// The next words are the line of pass k.
fn line(list: &[u8], p: Place, k: u32, r: &Reply, discards: u32) -> Place
    ensures { result ≡ next_words list.now p (line_words k r.now discards) }
{
    let next = crate::line(left(list, p), k, r, discards);
    past(list, p, LINE, next.is_some())
}

// The next words are what follows the line.
fn rest(list: &[u8], p: Place, r: &Reply) -> Place
    ensures { result ≡ next_words list.now p (rest_words r.now) }
{
    let next = crate::rest(left(list, p), r);
    let records: &[Attachment] = &r.attachments;
    let count = (r.count as usize).min(records.len());
    past(list, p, FRONT + ATTACHMENT * count, next.is_some())
}

// The next words are those of pass k: its line by the reply and by the rows, what follows, the clears and the discards.
pub fn reply(
    list: &[u8],
    p: Place,
    k: u32,
    r: Reply,
    rows: &[u8],
    clears: &[u8],
    discards: &[u8],
) -> Place
    requires { k < max_passes }
    ensures { result ≡ next_reply list.now p k r rows.now clears.now discards.now }
{
    if is_withheld(r.number) {
        return word(list, p, 1);
    }
    let held = u32_at(discards, 0);
    let start = word(list, p, 0);
    let by_row = numbers(list, start, rows, ROW_BYTES as u32 * k, ROW_NUMBERS as u32);
    let by_reply = line(list, start, k, &r, held);
    let both = Place {
        at: by_reply.at,
        same: by_row.same & by_reply.same,
    };
    let after = rest(list, both, &r);
    let cleared = numbers(list, after, clears, RECORDS, numbers_of(r.clears));
    numbers(list, cleared, discards, RECORDS, numbers_of(held))
}
