// The calls on map files.
ghost use Rattle.std.specs.Prelude.{◌≡◌, length};
ghost use Rattle.mesh.specs.Mesh.{sizes};
ghost use Rattle.format.specs.Promise.{Bytes};
ghost use Rattle.format.specs.Entry.{read_answer, read_out, write_answer, write_out};
ghost use Rattle.answers.specs.Fields.{counted_fields, map_fields};

use answers::{CountedAnswer, MapAnswer, counted_fields, map_fields, sizes_of};

// Reads a map file. Refusals: 11, 1, 11, 3, 4. Its contract also passes on what the type says: a file has bytes.
#[unsafe(no_mangle)]
pub extern "C" fn dk_read_map(file: &[u8], cells: &mut [u8]) -> MapAnswer
    ensures value { result ≡ map_fields (read_answer file.now (length cells.old)) }
    ensures cells_after { cells.new ≡ read_out file.now cells.old }
    ensures bytes { Bytes file.now }
{
    let a = mapfile::reader::read_map(file, cells);
    map_fields(a)
}

// Writes a map file; its length. Refusals: 1, 2, 4, 3.
#[unsafe(no_mangle)]
pub extern "C" fn dk_write_map(
    w: u32,
    h: u32,
    d: u32,
    cells: &[u8],
    out: &mut [u8],
) -> CountedAnswer
    ensures value { result ≡ counted_fields (write_answer (sizes w h d) cells.now (length out.old)) }
    ensures out_after { out.new ≡ write_out (sizes w h d) cells.now out.old }
{
    let a = mapfile::writer::write_map(sizes_of(w, h, d), cells, out);
    counted_fields(a)
}
