// The segments of a campaign's case, one behind the other: four bytes of length (little-endian), and as many bytes; UNREAD stands for a name that
// cannot be read, and has none.
ghost use Rattle.std.specs.Prelude.{◌<◌, length, IfSome};

const UNREAD: u32 = 4294967295;

// The bytes of a segment, none where its name cannot be read; and what stands behind it.
#[derive(Clone, Copy, Debug)]
pub struct Segment<'a> {
    pub bytes: Option<&'a [u8]>,
    pub rest: &'a [u8],
}

// The first segment, if one is left. It ends no later than all of them.
pub fn first_segment(framed: &[u8]) -> Option<Segment<'_>>
    ensures { IfSome result (λ segment. length segment.rest.now < length framed.now) }
{
    let (head, behind) = framed.split_first_chunk::<4>()?;
    let size = u32::from_le_bytes(*head);
    if size == UNREAD {
        return Some(Segment {
            bytes: None,
            rest: behind,
        });
    }
    let (bytes, rest) = behind.split_at(behind.len().min(size as usize));
    Some(Segment {
        bytes: Some(bytes),
        rest,
    })
}
