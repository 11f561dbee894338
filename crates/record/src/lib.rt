// The printed record, byte by byte into a lent buffer. What does not fit is not written, but counted: a position may pass the buffer's end.
// Document 01, "Sheets and the printed record".
#![tactic(auto)]

ghost use Rattle.std.specs.Prelude.{◌≡◌, [], ◌∷◌};
ghost use Rattle.rules.specs.Runs.{decimal, line, start_of, end_of, bad_of};
ghost use Rattle.record.specs.Lines.{laid, past, step_of};

pub fn put(out: &mut [u8], at: usize, x: u8) -> usize
    ensures position { result ≡ past at (x ∷ []) }
    ensures bytes { out.new ≡ laid out.old at (x ∷ []) }
{
    rows::put_byte(out, at, x);
    at.saturating_add(1)
}

// In decimal; the digits before the last are those of a tenth.
pub fn put_number(out: &mut [u8], at: usize, n: u32) -> usize
    ensures position { result ≡ past at (decimal n) }
    ensures bytes { out.new ≡ laid out.old at (decimal n) }
{
    if n < 10 {
        return put(out, at, b'0' + n as u8);
    }
    let last = put_number(out, at, n / 10);
    put(out, last, b'0' + (n % 10) as u8)
}

// A line of numbers, with single blanks between them.
pub fn put_line(out: &mut [u8], at: usize, numbers: &[u32]) -> usize
    ensures position { result ≡ past at (line numbers.now) }
    ensures bytes { out.new ≡ laid out.old at (line numbers.now) }
{
    let Some((first, rest)) = numbers.split_first() else {
        return put(out, at, b'\n');
    };
    let mut p = put_number(out, at, *first);
    for n in rest {
        let next = put(out, p, b' ');
        p = put_number(out, next, *n);
    }
    put(out, p, b'\n')
}

pub fn put_word(out: &mut [u8], at: usize, word: &[u8]) -> usize
    ensures position { result ≡ past at word.now }
    ensures bytes { out.new ≡ laid out.old at word.now }
{
    let mut p = at;
    for x in word {
        p = put(out, p, *x);
    }
    p
}

pub fn put_start(out: &mut [u8], mask: u8) -> usize
    ensures position { result ≡ past 0 (start_of mask) }
    ensures bytes { out.new ≡ laid out.old 0 (start_of mask) }
{
    let at = put_word(out, 0, b"start ");
    put_line(out, at, &[mask as u32])
}

// (All are numbers here: a line of the record is one of numbers.)
pub fn put_step(
    out: &mut [u8],
    at: usize,
    number: u32,
    answer: u8,
    event: u8,
    who: u8,
    count: u16,
    desk: u8,
    last: u32,
) -> usize
    ensures position { result ≡ past at (step_of number answer event who count desk last) }
    ensures bytes { out.new ≡ laid out.old at (step_of number answer event who count desk last) }
{
    let numbers = [
        number,
        answer as u32,
        event as u32,
        who as u32,
        count as u32,
        desk as u32,
        last,
    ];
    put_line(out, at, &numbers)
}

pub fn put_end(
    out: &mut [u8],
    at: usize,
    sent: u32,
    delivered: u32,
    dropped: u32,
    waiting: u32,
) -> usize
    ensures position { result ≡ past at (end_of sent delivered dropped waiting) }
    ensures bytes { out.new ≡ laid out.old at (end_of sent delivered dropped waiting) }
{
    let next = put_word(out, at, b"end ");
    put_line(out, next, &[sent, delivered, dropped, waiting])
}

pub fn put_bad(out: &mut [u8]) -> usize
    ensures position { result ≡ past 0 bad_of }
    ensures bytes { out.new ≡ laid out.old 0 bad_of }
{
    let at = put_word(out, 0, b"bad ");
    put_line(out, at, &[rules::Refusal::BadSheet as u32])
}
