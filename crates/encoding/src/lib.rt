// Makes the bytes of a mesh file from lists of coordinates, vertex numbers and parts: what `decoding` reads, written.
#![tactic(auto)]

ghost use Rattle.std.specs.Prelude.{◌≡◌, ◌+◌, ◌*◌, ◌/◌, ◌%◌, ◌≤◌, ◌<◌, length};
ghost use Rattle.base.specs.Laid.{Laid};
ghost use Rattle.encoding.specs.File.{u16_bytes, u32_bytes, bits_of, file_size, header_bytes, tet_bytes, coord_bytes, tets_bytes, file_of};
ghost use Rattle.encoding.specs.between.Measured.{Measured};

// ---- little-endian numbers into a slice

#[tactic(auto, unfolding(crate::specs::File::u16_bytes))]
fn put_u16(out: &mut [u8], at: usize, x: u16)
    requires { at + 2 ≤ length out.old }
    ensures { Laid at (u16_bytes x) out.old out.new }
{
    out[at..at + 2].copy_from_slice(&x.to_le_bytes());
}

#[tactic(auto, unfolding(crate::specs::File::u32_bytes, crate::specs::File::u16_bytes))]
fn put_u32(out: &mut [u8], at: usize, x: u32)
    requires { at + 4 ≤ length out.old }
    ensures { Laid at (u32_bytes x) out.old out.new }
{
    out[at..at + 4].copy_from_slice(&x.to_le_bytes());
}

// ---- the three parts

fn put_header(out: &mut [u8], n: usize, t: usize)
    requires { (file_size n t ≤ 26648) × (24 ≤ length out.old) }
    ensures { Laid 0 (header_bytes n t) out.old out.new }
{
    put_u32(out, 0, n as u32);
    put_u32(out, 4, 24);
    put_u32(out, 8, t as u32);
    put_u32(out, 12, (24 + 12 * n) as u32);
    put_u32(out, 16, (24 + 12 * n + 10 * t) as u32);
    put_u32(out, 20, 0);
}

fn put_points(out: &mut [u8], coordinates: &[i32])
    requires { 24 + 4 * length coordinates.now ≤ length out.old }
    ensures { Laid 24 (coord_bytes coordinates.now) out.old out.new }
{
    for (k, z) in coordinates.iter().enumerate() {
        put_u32(out, 24 + 4 * k, z.cast_unsigned());
    }
}

// Tetrahedron `j`.
fn put_tet(out: &mut [u8], at: usize, numbers: &[u16], parts: &[u16], j: usize)
    requires { (at + 10 ≤ length out.old) × ((4 * j + 4 ≤ length numbers.now) × (j < length parts.now)) }
    ensures { Laid at (tet_bytes numbers.now parts.now j) out.old out.new }
{
    put_u16(out, at, numbers[4 * j]);
    put_u16(out, at + 2, numbers[4 * j + 1]);
    put_u16(out, at + 4, numbers[4 * j + 2]);
    put_u16(out, at + 6, numbers[4 * j + 3]);
    put_u16(out, at + 8, parts[j]);
}

fn put_tets(out: &mut [u8], from: usize, numbers: &[u16], parts: &[u16])
    requires { (from + 10 * length parts.now ≤ length out.old) × (length numbers.now ≡ 4 * length parts.now) }
    ensures { Laid from (tets_bytes numbers.now parts.now) out.old out.new }
{
    for j in 0..parts.len() {
        put_tet(out, from + 10 * j, numbers, parts, j);
    }
}

// Fills a slice of the file's length with the file that the lists make.
pub fn put_file(out: &mut [u8], coordinates: &[i32], numbers: &[u16], parts: &[u16])
    requires { Measured coordinates.now numbers.now parts.now (length out.old) }
    ensures { out.new ≡ file_of coordinates.now numbers.now parts.now }
{
    let n = coordinates.len() / 3;
    put_header(out, n, parts.len());
    put_points(out, coordinates);
    put_tets(out, 24 + 12 * n, numbers, parts);
}
