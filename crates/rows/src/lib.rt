// Numbers high byte first and rows of equal width in a lent slice. Every function is total: past the end a slice reads zero, and a
// write that does not fit wholly writes nothing. Document 01, "The world" and "Sheets and the printed record".
#![tactic(auto)]

ghost use Rattle.std.specs.Prelude.{◌≡◌, [], ◌∷◌, ◌+◌, ◌≤◌, min, leb, length, get_or, drop, ◌==◌};
ghost use Rattle.std.specs.List.{list_all};
ghost use Rattle.rows.specs.Bytes.{placed, bytes_of, be16, fields_of, sum, field_bytes, fields_bytes, u16_at, u32_at, zeros};
ghost use Rattle.rows.specs.Tests.{all_zero};

// Room for n bytes at `at`; the sum itself could pass the largest usize.
pub fn has_room(len: usize, at: usize, n: usize) -> bool
    ensures { result ≡ leb (at + n) len }
{
    at.checked_add(n).is_some_and(|end| end <= len)
}

pub fn smaller(a: usize, b: usize) -> usize
    ensures { result ≡ min a b }
{
    a.min(b)
}

pub fn byte_at(s: &[u8], at: usize) -> u8
    ensures { result ≡ get_or s.now at 0 }
{
    s.get(at).copied().unwrap_or(0)
}

// Bytes where there is room for them, and the position past them. By a range, and not by `get_mut`: what is written through that is not known afterwards.
fn lay(s: &mut [u8], at: usize, bytes: &[u8]) -> usize
    requires { at + length bytes.now ≤ length s.old }
    ensures { (result ≡ at + length bytes.now) × (s.new ≡ placed s.old at bytes.now) }
{
    let end = at + bytes.len();
    s[at..end].copy_from_slice(bytes);
    end
}

// Zeros, likewise.
fn wipe(s: &mut [u8], at: usize, n: usize) -> usize
    requires { at + n ≤ length s.old }
    ensures { (result ≡ at + n) × (s.new ≡ placed s.old at (zeros n)) }
{
    s[at..at + n].fill(0);
    at + n
}

fn put_bytes(s: &mut [u8], at: usize, bytes: &[u8])
    ensures { s.new ≡ placed s.old at bytes.now }
{
    if has_room(s.len(), at, bytes.len()) {
        lay(s, at, bytes);
    }
}

pub fn put_byte(s: &mut [u8], at: usize, x: u8)
    ensures { s.new ≡ placed s.old at (x ∷ []) }
{
    put_bytes(s, at, &[x]);
}

pub fn put_u16(s: &mut [u8], at: usize, x: u16)
    ensures { s.new ≡ placed s.old at (be16 x) }
{
    put_bytes(s, at, &x.to_be_bytes());
}

pub fn clear(s: &mut [u8], at: usize, n: usize)
    ensures { s.new ≡ placed s.old at (zeros n) }
{
    if has_room(s.len(), at, n) {
        wipe(s, at, n);
    }
}

// A number in a row, in as many bytes as its name says, or unused room.
#[derive(Clone, Copy)]
pub enum Field {
    Flag(bool),
    Byte(u8),
    U16(u16),
    U32(u32),
    Zeros(u8),
}

impl Field {
    fn width(self) -> usize
        ensures { result ≡ length (field_bytes self) }
    {
        match self {
            Field::Flag(_) | Field::Byte(_) => 1,
            Field::U16(_) => 2,
            Field::U32(_) => 4,
            Field::Zeros(n) => n as usize,
        }
    }
}

// A field where there is room for it, and the position past it.
fn put_field(s: &mut [u8], at: usize, field: Field) -> usize
    requires { at + length (field_bytes field) ≤ length s.old }
    ensures { (result ≡ at + length (field_bytes field)) × (s.new ≡ placed s.old at (field_bytes field)) }
{
    match field {
        Field::Flag(x) => lay(s, at, &[x as u8]),
        Field::Byte(x) => lay(s, at, &[x]),
        Field::U16(x) => lay(s, at, &x.to_be_bytes()),
        Field::U32(x) => lay(s, at, &x.to_be_bytes()),
        Field::Zeros(n) => wipe(s, at, n as usize),
    }
}

// Room for all of them at `at`.
fn row_fits(len: usize, at: usize, fields: &[Field]) -> bool
    ensures { result ≡ leb (at + length (fields_bytes fields.now)) len }
{
    let mut end = at;
    for field in fields {
        let width = field.width();
        if !has_room(len, end, width) {
            return false;
        }
        end += width;
    }
    end <= len
}

// A row: fields one after another. Whether all fit is asked once, so that none of them asks.
pub fn put_row(s: &mut [u8], at: usize, fields: &[Field])
    ensures { s.new ≡ placed s.old at (fields_bytes fields.now) }
{
    if !row_fits(s.len(), at, fields) {
        return;
    }
    let mut p = at;
    for field in fields {
        p = put_field(s, p, *field);
    }
}

// From the last byte to the first: what is left of the number is then one division away.
fn put_number(s: &mut [u8], at: usize, n: usize, x: u32)
    ensures { s.new ≡ placed s.old at (bytes_of n x) }
{
    if !has_room(s.len(), at, n) {
        return;
    }
    let mut rest = x;
    for i in (0..n).rev() {
        s[at + i] = (rest % 256) as u8;
        rest /= 256;
    }
}

// Room for all of them at `at`; the sum of the widths itself could pass the largest usize.
fn widths_fit(len: usize, at: usize, widths: &[u8]) -> bool
    ensures { result ≡ leb (at + sum widths.now) len }
{
    let mut end = at;
    for width in widths {
        let w = *width as usize;
        if !has_room(len, end, w) {
            return false;
        }
        end += w;
    }
    end <= len
}

// A row: numbers one after another, each in its width. Those that are lacking are zero, so that a last width without a number is unused room.
pub fn put_fields(s: &mut [u8], at: usize, widths: &[u8], xs: &[u32])
    ensures { s.new ≡ placed s.old at (fields_of widths.now xs.now) }
{
    if !widths_fit(s.len(), at, widths) {
        return;
    }
    let mut p = at;
    for (i, width) in widths.iter().enumerate() {
        let w = *width as usize;
        let x = xs.get(i).copied().unwrap_or(0);
        put_number(s, p, w, x);
        p += w;
    }
}

// What stands at `at` and after it.
fn rest_at(s: &[u8], at: usize) -> &[u8]
    ensures { result.now ≡ drop at s.now }
{
    &s[at.min(s.len())..]
}

pub fn read_u16(s: &[u8], at: usize) -> u16
    ensures { result ≡ u16_at s.now at }
{
    let rest = rest_at(s, at);
    let high = byte_at(rest, 0);
    let low = byte_at(rest, 1);
    u16::from_be_bytes([high, low])
}

pub fn read_u32(s: &[u8], at: usize) -> u32
    ensures { result ≡ u32_at s.now at }
{
    let rest = rest_at(s, at);
    let high = read_u16(rest, 0) as u32;
    let low = read_u16(rest, 2) as u32;
    high * 65536 + low
}

// Eight bytes in one test: byte by byte takes several times as long, and a world has many that must be zero.
fn only_zeros(s: &[u8]) -> bool
    ensures { result ≡ list_all (λ x. x == 0) s.now }
{
    let (eights, rest) = s.as_chunks::<8>();
    eights.iter().all(|eight| u64::from_ne_bytes(*eight) == 0) && rest.iter().all(|x| *x == 0)
}

pub fn is_zero(s: &[u8], at: usize, n: usize) -> bool
    ensures { result ≡ all_zero s.now at n }
{
    let rest = rest_at(s, at);
    only_zeros(&rest[..n.min(rest.len())])
}
