#![tactic(auto)]
// Numbers as bytes, big-endian, two or four each; and back. What a row of them means is another's.
ghost use Rattle.std.specs.Prelude.{◌≡◌, ℕ, ◌+◌, ◌*◌, ◌≤◌, length, take, drop, replicate};
ghost use Rattle.spelling.specs.Bytes.{numeral, bytes, spell, put};

// How a number stands in a row of bytes: a u16 in two, a u32 in four. (At a place and not in a part of its own: a frame's layout is places of one output.)
pub trait Spelled {
    ghost width: { ℕ };

    ghost number: { Self → ℕ };

    // The number at a place.
    fn at(s: &[u8], at: usize) -> Self
        requires { at + width ≤ length s.now }
        ensures { number result ≡ numeral (take width (drop at s.now)) };

    // Of any number so many bytes, the lowest, put in at a place. (A usize for both: any number may be asked for in two bytes, and so it was.)
    fn put(out: &mut [u8], at: usize, x: usize)
        requires { at + width ≤ length out.old }
        ensures { out.new ≡ put at (bytes width x) width out.old };
}

impl Spelled for u16 {
    ghost width = { 2 };

    ghost number = { λ x. x };

    fn at(s: &[u8], at: usize) -> u16 {
        u16::from_be_bytes([s[at], s[at + 1]])
    }

    fn put(out: &mut [u8], at: usize, x: usize) {
        let low = (x % 65536) as u16;
        out[at..at + 2].copy_from_slice(&low.to_be_bytes());
    }
}

impl Spelled for u32 {
    ghost width = { 4 };

    ghost number = { λ x. x };

    fn at(s: &[u8], at: usize) -> u32 {
        u32::from_be_bytes([s[at], s[at + 1], s[at + 2], s[at + 3]])
    }

    fn put(out: &mut [u8], at: usize, x: usize) {
        let low = (x % 4294967296) as u32;
        out[at..at + 4].copy_from_slice(&low.to_be_bytes());
    }
}

// Numbers of four bytes each, put in one after the other from a place on.
pub fn put_fours(out: &mut [u8], at: usize, ns: &[u32])
    requires { at + 4 * length ns.now ≤ length out.old }
    ensures { out.new ≡ put at (spell (replicate (length ns.now) 4) ns.now) (4 * length ns.now) out.old }
{
    for (k, x) in ns.iter().enumerate() {
        put_one(out, at, k, *x);
    }
}

// The one at place k of a row of them. (By itself, so that an edit can leave one out and the row's proof is the same.)
fn put_one(out: &mut [u8], at: usize, k: usize, x: u32)
    requires { at + 4 * k + 4 ≤ length out.old }
    ensures { out.new ≡ put (at + 4 * k) (bytes 4 x) 4 out.old }
{
    u32::put(out, at + 4 * k, x as usize);
}
