// A mesh file's bytes as numbers, and what is asked of the header (refusals 1 to 3).
#![tactic(auto)]

ghost use Rattle.std.specs.Prelude.{◌≡◌, ◌+◌, ◌*◌, ◌≤◌, ◌<◌, length};
ghost use Rattle.layout.specs.Bytes.{u16_at, u32_at, i32_at};
ghost use Rattle.layout.specs.Layout.{vertices, tets, length_right, counts_right, layout_right};

// ---- little-endian numbers

// The 16-bit number at `at`.
pub fn u16_at(s: &[u8], at: usize) -> u16
    requires { at + 2 ≤ length s.now }
    ensures { result ≡ u16_at s.now at }
{
    u16::from_le_bytes([s[at], s[at + 1]])
}

// The 32-bit number at `at`.
pub fn u32_at(s: &[u8], at: usize) -> u32
    requires { at + 4 ≤ length s.now }
    ensures { result ≡ u32_at s.now at }
{
    u32::from_le_bytes([s[at], s[at + 1], s[at + 2], s[at + 3]])
}

// The signed 32-bit number at `at`.
#[tactic(auto, unfolding(crate::specs::Bytes::i32_at, crate::specs::Bytes::signed32))]
pub fn i32_at(s: &[u8], at: usize) -> i64
    requires { at + 4 ≤ length s.now }
    ensures { result ≡ i32_at s.now at }
{
    i64::from(u32_at(s, at).cast_signed())
}

// ---- the header

// Not refusal 1.
#[tactic(auto, unfolding(crate::specs::Layout::length_right))]
pub fn length_right(file: &[u8]) -> bool
    ensures { result ≡ length_right file.now }
{
    let length = file.len();
    24 <= length && length <= 26648 && u32_at(file, 16) as usize == length
}

// Not refusal 2.
#[tactic(auto, unfolding(crate::specs::Layout::counts_right))]
pub fn counts_right(file: &[u8]) -> bool
    requires { 24 ≤ length file.now }
    ensures { result ≡ counts_right file.now }
{
    u32_at(file, 0) <= 512 && u32_at(file, 8) <= 2048
}

// Not refusal 3.
#[tactic(auto, unfolding(crate::specs::Layout::layout_right))]
pub fn layout_right(file: &[u8]) -> bool
    requires { (24 ≤ length file.now) × ((vertices file.now ≤ 512) × (tets file.now ≤ 2048)) }
    ensures { result ≡ layout_right file.now }
{
    let n = u32_at(file, 0);
    let t = u32_at(file, 8);
    u32_at(file, 4) == 24
        && u32_at(file, 12) == 24 + 12 * n
        && u32_at(file, 16) == 24 + 12 * n + 10 * t
        && u32_at(file, 20) == 0
}
