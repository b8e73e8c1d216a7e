// The numbers in a record.
ghost use Rattle.std.specs.Prelude.{◌≡◌, ◌+◌, ◌<◌, ◌≤◌, length};
ghost use Rattle.meaning.specs.Records.{word as word_at, number as number_in, read_node};
ghost use Rattle.meaning.specs.Refusals.{too_many};

// How many values a byte has.
pub const BYTE: usize = 256;
// "length of the whole record (two bytes, little-endian), kind (two bytes)"
pub const HEAD_BYTES: usize = 4;

pub const KIND_AT: usize = 2;
// "parent (2), label (1), value (2)", or value (4)
pub const NODE_LABEL_AT: usize = 2;

pub const NODE_VALUE_AT: usize = 3;

// "two bytes, little-endian"
pub fn word(l: &[u8], at: usize) -> usize
    requires { at + 1 < length l.now }
    ensures { (result ≡ word_at l.now at) × (result < 65536) }
{
    usize::from(u16::from_le_bytes([l[at], l[at + 1]]))
}

// 7: "this key, node or line is one too many (its 4 head bytes decide)"
pub fn too_many(l: &[u8], kind: usize, limit: usize, count: usize) -> bool
    ensures { result ≡ too_many kind limit count l.now }
{
    if l.len() < HEAD_BYTES {
        return false;
    }
    word(l, KIND_AT) == kind && limit <= count
}

// The number that so many bytes say, the lowest first.
pub fn number(l: &[u8]) -> usize
    requires { length l.now ≤ 4 }
    ensures { (result ≡ number_in l.now) × (result < 4294967296) }
{
    let mut n = 0;
    for i in (0..l.len()).rev() {
        n = BYTE * n + usize::from(l[i]);
    }
    n
}

pub fn node_parent(body: &[u8]) -> usize
    requires { 3 ≤ length body.now }
    ensures { (result ≡ (read_node body.now).parent) × (result < 65536) }
{
    word(body, 0)
}

pub fn node_label(body: &[u8]) -> usize
    requires { 3 ≤ length body.now }
    ensures { (result ≡ (read_node body.now).label) × (result < 256) }
{
    usize::from(body[NODE_LABEL_AT])
}

// "a four-byte value as kind 5": what is left of the body is the value.
pub fn node_value(body: &[u8]) -> usize
    requires { (3 ≤ length body.now) × (length body.now ≤ 7) }
    ensures { (result ≡ (read_node body.now).value) × (result < 4294967296) }
{
    number(&body[NODE_VALUE_AT..])
}
