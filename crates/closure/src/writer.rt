// The writer of the pieces (specs/Closures.antt).
ghost use Rattle.std.specs.Prelude.{◌≡◌, ℕ, ◌+◌, ◌<◌, ◌≤◌, length};
ghost use Rattle.words.specs.Laid.{over};
ghost use Rattle.part.specs.Record.{observers};
ghost use Rattle.relations.specs.Sets.{in_rows};
ghost use Rattle.closure.specs.Closures.{block, pieces};
ghost use Rattle.closure.specs.Pieces.{piece_by};

use relations::event::Roles;
use relations::silent::{closure_of, step_rows};
use screening::Screened;
use words::copy::lay;
use words::le;

// How many bytes are written for a state.
pub const PIECE: usize = 136;

// The piece of s, from place at on, where a step leads from each state to those in its row.
fn put_piece(out: &mut [u8], at: usize, rows: &[u64; 64], s: usize)
    requires s_bound { s < 64 }
    requires has_room { at + 136 ≤ length out.old }
    ensures { out.new ≡ over out.old at (piece_by (in_rows rows.now) 64 s) }
{
    let closure = closure_of(rows, s);
    le::put::<8>(out, at, closure.set);
    lay(&closure.visits, out, at + 8);
    lay(&closure.distances, out, at + 72);
}

// The block of observer o, from place at on.
fn put_block(out: &mut [u8], at: usize, accepted: Screened, o: usize)
    requires o_bound { o < observers accepted.record.bytes.now }
    requires has_room { at + length (block accepted.record.bytes.now o) ≤ length out.old }
    ensures { out.new ≡ over out.old at (block accepted.entry.record.bytes.now o) }
{
    let b = accepted.record;
    let roles = Roles::of(b, b.observer(o));
    let rows = step_rows(b, roles.silent_events);
    for s in 0..b.states() {
        put_piece(out, at + s * PIECE, &rows, s);
    }
}

// How many bytes are written for an observer.
pub fn block_size(accepted: Screened) -> usize
    ensures by_index { (o : ℕ) → length (block accepted.entry.record.bytes.now o) ≡ result }
    ensures upper_bound { result ≤ 8704 }
{
    accepted.record.states() * PIECE
}

// The blocks of all observers, from the start of out on.
pub fn put_pieces(out: &mut [u8], accepted: Screened)
    requires { length (pieces accepted.record.bytes.now) ≤ length out.old }
    ensures { out.new ≡ over out.old 0 (pieces accepted.entry.record.bytes.now) }
{
    let size = block_size(accepted);
    for o in 0..accepted.record.observers() {
        put_block(out, o * size, accepted, o);
    }
}
