// Bytes put at a place of a buffer. The buffer and the place are two parameters: a part of the buffer would do, but the contracts speak of
// all of it; and so is the room that each of them asks for.
ghost use Rattle.std.specs.Prelude.{◌≡◌, ◌+◌, ◌*◌, ◌≤◌, ◌++◌, length};
ghost use Rattle.std.specs.List.{flat_map};
ghost use Rattle.writer.specs.Stages.{put, ends_bytes, head_bytes};

use decision::kind::Kind;
use file::layout::Layout;
use routing::ends::Ends;

fn put_bytes(out: &mut [u8], at: usize, bytes: &[u8])
    requires { at + length bytes.now ≤ length out.old }
    ensures { out.new ≡ put at bytes.now out.old }
{
    let to = at + bytes.len();
    out[at..to].copy_from_slice(bytes);
}

#[tactic(auto, using(crate::proofs::Puts::put_put))]
fn put_ends(out: &mut [u8], at: usize, ends: Ends)
    requires { at + 8 ≤ length out.old }
    ensures { out.new ≡ put at (ends_bytes ends) out.old }
{
    put_bytes(out, at, &ends.low.to_be_bytes());
    put_bytes(out, at + 4, &ends.high.to_be_bytes());
}

pub fn put_row(out: &mut [u8], at: usize, row: &[Ends])
    requires { at + 8 * length row.now ≤ length out.old }
    ensures { out.new ≡ put at (flat_map ends_bytes row.now) out.old }
{
    for (k, pair) in row.iter().enumerate() {
        put_ends(out, at + 8 * k, *pair);
    }
}

// The header of a file with decisions of the kind with a code, which is a number here as it is in the file.
fn head(layout: Layout, code: u8) -> [u8; 16]
    ensures { result ≡ head_bytes layout.fields layout.rules code }
{
    let [high, low] = layout.rules.to_be_bytes();
    let [a, b, c, d] = (layout.rows() as u32).to_be_bytes();
    let [e, f, g, h] = (layout.decisions() as u32).to_be_bytes();
    [
        1,
        layout.fields,
        code,
        0,
        high,
        low,
        0,
        0,
        a,
        b,
        c,
        d,
        e,
        f,
        g,
        h,
    ]
}

// The header, with the code of a kind as in `head`, and the widths.
pub fn put_front(out: &mut [u8], widths: &[u8], layout: Layout, code: u8)
    requires { 16 + length widths.now ≤ length out.old }
    ensures { out.new ≡ put 0 (head_bytes layout.fields layout.rules code ++ widths.now) out.old }
{
    put_bytes(out, 0, &head(layout, code));
    put_bytes(out, 16, widths);
}

pub fn put_decision<K: Kind>(out: &mut [u8], at: usize, decision: K)
    requires { at + K.SIZE ≤ length out.old }
    ensures after { out.new ≡ put at (K.written decision) out.old }
    ensures kept { K.reading (K.written decision) ≡ decision }
{
    let to = at + usize::from(K::SIZE);
    decision.write(&mut out[at..to]);
}
