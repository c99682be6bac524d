// What `deskcheck` prints, as bytes: a text that grows at its end, in a buffer that is lent. What stands behind the text stays.
ghost use Rattle.std.specs.Prelude.{◌∷◌, ◌+◌, ◌≤◌, ◌<◌, length};
ghost use Rattle.report.specs.Text as T;
ghost use Rattle.report.specs.Appended.{Appended};

use definition::sizes::ROW_NUMBERS;
use itoa::Buffer;

// The most digits of a u32.
const MAX_DIGITS: usize = 10;

// The most bytes of a row's line: of each number its digits, and the space or newline behind them.
pub const LINE_BYTES: usize = ROW_NUMBERS * (MAX_DIGITS + 1);

// A text in a buffer: it ends at `end`.
#[derive(Drop)]
pub struct Text<'a> {
    pub buffer: &'a mut [u8],
    pub end: usize,
}

impl Text<'_> {
    // Bytes.
    fn push(&mut self, bytes: &[u8])
        requires { self.old.end + length bytes.now ≤ length self.old.buffer.now }
        ensures { Appended self.old bytes.now self.new }
    {
        let end = self.end + bytes.len();
        self.buffer[self.end..end].copy_from_slice(bytes);
        self.end = end;
    }

    // A number, as a text that says it. Of `write!` it is not known that it does not fail where there is room.
    fn push_decimal(&mut self, n: u32)
        requires { self.old.end + T.max_digits ≤ length self.old.buffer.now }
        ensures appended { Appended self.old (T.decimal n) self.new }
        ensures at_most_ten { self.new.end ≤ self.old.end + T.max_digits }
        ensures says { T.Says n (T.decimal n) }
    {
        self.push(Buffer::new().format(n).as_bytes());
    }

    // A space and a number.
    fn push_next(&mut self, n: u32)
        requires { self.old.end + T.number_bytes ≤ length self.old.buffer.now }
        ensures appended { Appended self.old (T.space ∷ T.decimal n) self.new }
        ensures at_most_eleven { self.new.end ≤ self.old.end + T.number_bytes }
    {
        self.push(b" ");
        self.push_decimal(n);
    }

    // The numbers of a row, with spaces between: one byte less than a line at most.
    fn push_row(&mut self, numbers: &[u32; ROW_NUMBERS])
        requires { self.old.end + T.line_bytes ≤ length self.old.buffer.now }
        ensures appended { Appended self.old (T.joined numbers.now) self.new }
        ensures below_a_line { self.new.end < self.old.end + T.line_bytes }
    {
        self.push_decimal(numbers[0]);
        for n in &numbers[1..] {
            self.push_next(*n);
        }
    }

    // The line of a row.
    pub fn push_line(&mut self, numbers: &[u32; ROW_NUMBERS])
        requires { self.old.end + T.line_bytes ≤ length self.old.buffer.now }
        ensures appended { Appended self.old (T.line_text numbers.now) self.new }
        ensures at_most_a_line { self.new.end ≤ self.old.end + T.line_bytes }
    {
        self.push_row(numbers);
        self.push(b"\n");
    }

    // The line of a refused session.
    pub fn push_refusal(&mut self, number: u32)
        requires { self.old.end + T.refusal_bytes ≤ length self.old.buffer.now }
        ensures appended { Appended self.old (T.refusal_text number) self.new }
        ensures at_most_that_line { self.new.end ≤ self.old.end + T.refusal_bytes }
    {
        self.push(b"session ");
        self.push_decimal(number);
        self.push(b"\n");
    }
}
