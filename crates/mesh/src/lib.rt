// What a mesh file says of its own work: from the front of a binary STL file and the file's length to the ticks that its
// export wants. It must not know the desk, nor what is asked with the work.
#![tactic(auto)]

ghost use Rattle.std.specs.Prelude.{◌≡◌, ◌≤◌, ◌<◌, ◌^◌, length};
ghost use Rattle.mesh.specs.Bands.{work_of};
ghost use Rattle.mesh.specs.Meshes.{front_bytes, triangles_of, mesh_of};

use answers::Refusal;

// The front of the file: a header that says nothing of the work, and the triangle count behind it.
const HEADER: usize = 80;

const FRONT: usize = 84;

// The bytes of each triangle behind the front.
const TRIANGLE: u64 = 50;

// The triangle count, in four bytes, the lowest first.
fn triangles(head: &[u8]) -> u64
    requires { front_bytes ≤ length head.now }
    ensures { (result ≡ triangles_of head.now) × (result < 2 ^ 32) }
{
    u64::from(u32::from_le_bytes([
        head[HEADER],
        head[HEADER + 1],
        head[HEADER + 2],
        head[HEADER + 3],
    ]))
}

// The work of the band that the count lies in.
#[tactic(auto, unfolding(crate::specs::Bands::work_in))]
fn work(count: u64) -> u32
    ensures { result ≡ work_of count }
{
    match count {
        0..=9999 => 4,
        10000..=99999 => 16,
        100000..=999999 => 120,
        1000000..=9999999 => 900,
        10000000..=99999999 => 8000,
        _ => 65536,
    }
}

// What the front of a file of so many bytes says: the ticks that its export wants, or why it cannot be asked with, by lines 15,
// 16 and 17; what is lent behind the front is not looked at.
#[tactic(auto, unfolding(crate::specs::Meshes::mesh_of, answers::specs::Answers::first_of))]
pub fn read(head: &[u8], size: u64) -> Result<u32, Refusal>
    ensures { result ≡ mesh_of head.now size }
{
    Refusal::ShortFront.when(head.len() < FRONT)?;
    let count = triangles(head);
    Refusal::LengthOff.when(size != FRONT as u64 + TRIANGLE * count)?;
    Refusal::NoTriangles.when(count == 0)?;
    Ok(work(count))
}
