// The bytes that the program `rings` prints, piece by piece: series k of what is ready for the input.
#![tactic(auto)]

ghost use Rattle.std.specs.Prelude.{◌≡◌, length};
ghost use Rattle.base_print.specs.Buffer.{Prints};
ghost use Rattle.curve_ordinates.specs.Wood.{wood_of};
ghost use Rattle.spec_rings.specs.Ready;
ghost use Rattle.spec_rings.specs.Rings.{header_line};
ghost use Rattle.rings_read.specs.Machine.{Front};
ghost use Rattle.rings_pieces.specs.Piece.{piece_of, PieceAsks};

use base_outcome::limits;
use curve_ordinates::Wood;

// The bytes of the first line.
pub const HEADER_BYTES: usize = 36;

// The first line of the table.
pub fn put_header(out: &mut [u8]) -> usize
    ensures { Prints (length header_line) header_line out.old out.new result }
{
    base_print::put_text(out, 0, b"series,year,width_mm,curve_mm,index\n")
}

// The bytes of series k at the front of the buffer, and how many they are. The lists are those that judging the input has left; the
// widths of the series start at `start`. The input itself is asked for by the contract alone.
pub fn put_piece(
    input: &[u8],
    wood: Wood,
    breaks: &[i32],
    degrees: &[i32],
    orders: &[i32],
    coefs: &[i32],
    n: usize,
    names: &[u8],
    years: &[i32],
    counts: &[u32],
    widths: &[i32],
    k: usize,
    start: usize,
    out: &mut [u8],
) -> usize
    requires { PieceAsks input.now (wood_of wood) breaks.now degrees.now orders.now coefs.now n names.now years.now
        counts.now widths.now k start out.old }
    ensures { Front (piece_of (Ready.ready input.now) k) result out.new }
{
    let at = k * limits::NAME_COLUMNS;
    let behind = at + limits::NAME_COLUMNS;
    let end = start + counts[k] as usize;
    rings_text::put_series(
        wood,
        breaks,
        degrees,
        orders,
        coefs,
        &names[at..behind],
        years[k],
        &widths[start..end],
        out,
    )
}
