// Writing a map file.
ghost use Rattle.std.specs.Prelude.{◌≡◌, length};
ghost use Rattle.mesh.specs.Mesh.{InRange};
ghost use Rattle.format.specs.Format.{trailer};
ghost use Rattle.format.specs.Entry.{write_check, write_answer, write_out};

use crate::{MARK, TRAILER};
use maps::check_map;
use mesh::{Refusal, Sizes};
use octets::{four_bytes, put};

// The trailer.
fn trailer(s: Sizes) -> [u8; 12]
    requires { InRange s }
    ensures { result ≡ trailer s }
{
    let distance = four_bytes(s.nodes() + TRAILER);
    [
        s.w as u8,
        s.h as u8,
        s.d as u8,
        0,
        distance[0],
        distance[1],
        distance[2],
        distance[3],
        MARK[0],
        MARK[1],
        MARK[2],
        MARK[3],
    ]
}

// The map, and the room.
#[tactic(auto, using(mesh::proofs::Answers::map_granted), unfolding(format::specs::Entry::write_check))]
fn check_write(s: Sizes, cells: &[u8], room: usize) -> Result<(), Refusal>
    ensures { result ≡ write_check s cells.now room }
{
    check_map(s, cells)?;
    if s.nodes() + TRAILER > room {
        return Err(Refusal::NoRoom);
    }
    Ok(())
}

// Writes a map file without notes to the front of the lent bytes; its length. Refusals 1, 2, 4, 3.
#[tactic(auto, using(format::proofs::Refusals::write_says, crate::proofs::Stored::write_stored), unfolding(format::specs::Entry::write_answer))]
pub fn write_map(s: Sizes, cells: &[u8], out: &mut [u8]) -> Result<usize, Refusal>
    ensures { (result ≡ write_answer s cells.now (length out.old))
        × (out.new ≡ write_out s cells.now out.old) }
{
    check_write(s, cells, out.len())?;
    let n = s.nodes();
    put(cells, out, 0);
    put(&trailer(s), out, n);
    Ok(n + TRAILER)
}
