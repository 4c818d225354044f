// The journal's records as they are read: the mark, and the fields as a part of the caller's bytes.
#![tactic(auto)]

ghost use Rattle.std.specs.Prelude.{◌≡◌, ◌+◌, ◌≤◌, ◌<◌, length};
ghost use Rattle.marks.specs.Marks.{named, size, read, fields, word, long, ending};

use refusals::Refusal;

#[derive(Clone, Copy)]
pub enum Mark {
    Vt,
    Rt,
    Bk,
    Op,
    Pv,
    Pc,
}

// What stands at the start of some bytes.
#[derive(Clone, Copy)]
pub enum Record {
    Whole(Mark),
    Cut,
    Unknown,
}

// Why a loop over records ends: the bytes end in a record or after one, a record is refused, or a record ends the turn.
#[derive(Clone, Copy)]
pub enum End {
    Cut,
    Refused(Refusal),
    Left,
}

// The two bytes go as one number, so that one look tells the mark.
fn name(mark: u32) -> Option<Mark>
    ensures { result ≡ named mark }
{
    match mark {
        0x7456 => Some(Mark::Vt),
        0x7452 => Some(Mark::Rt),
        0x6b42 => Some(Mark::Bk),
        0x704f => Some(Mark::Op),
        0x7650 => Some(Mark::Pv),
        0x6350 => Some(Mark::Pc),
        _ => None,
    }
}

// How many bytes the fields of a mark take.
pub fn size(mark: Mark) -> usize
    ensures { result ≡ size mark }
{
    match mark {
        Mark::Vt => 12,
        Mark::Rt => 8,
        Mark::Bk => 8,
        Mark::Op => 12,
        Mark::Pv => 20,
        Mark::Pc => 20,
    }
}

// An unknown mark is judged at its two bytes, all else when the record is whole.
pub fn read(bytes: &[u8]) -> Record
    ensures { result ≡ read bytes.now }
{
    if bytes.len() < 2 {
        return Record::Cut;
    }
    let Some(mark) = name(u32::from(bytes[0]) + 256 * u32::from(bytes[1])) else {
        return Record::Unknown;
    };
    if bytes.len() < 2 + size(mark) {
        return Record::Cut;
    }
    Record::Whole(mark)
}

// The fields of a whole record.
pub fn fields<'a>(bytes: &'a [u8], mark: Mark) -> &'a [u8]
    requires { 2 + size mark ≤ length bytes.now }
    ensures { result.now ≡ fields mark bytes.now }
{
    &bytes[2..2 + size(mark)]
}

// Four bytes of the fields as a number, the lowest first.
pub fn word(fields: &[u8], at: usize) -> u32
    requires { at + 4 ≤ length fields.now }
    ensures { (result ≡ word fields.now at) × (result < 4294967296) }
{
    u32::from_le_bytes(fields[at..at + 4].try_into().unwrap())
}

// Eight bytes of the fields as a number, the lowest first.
pub fn long(fields: &[u8], at: usize) -> u64
    requires { at + 8 ≤ length fields.now }
    ensures { result ≡ long fields.now at }
{
    u64::from_le_bytes(fields[at..at + 8].try_into().unwrap())
}

// Why no record is whole at the start of some bytes.
pub fn ending(bytes: &[u8]) -> End
    ensures { result ≡ ending bytes.now }
{
    match read(bytes) {
        Record::Unknown => End::Refused(Refusal::UnknownMark),
        Record::Cut => End::Cut,
        Record::Whole(_) => End::Left,
    }
}
