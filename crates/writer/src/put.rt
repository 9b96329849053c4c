// Writing numbers and records at a place of lent bytes. Each function answers the place after what it wrote.
ghost use Rattle.std.specs.Prelude.{◌≡◌, ℕ, ◌+◌, ◌*◌, ◌^◌, ◌<◌, ◌≤◌, List, [], ◌∷◌, ◌++◌, length};
ghost use Rattle.std.specs.List.{flat_map};
ghost use Rattle.packs.specs.Bytes.{le};
ghost use Rattle.packs.specs.Record.{a_record};
ghost use Rattle.marker.specs.Records.{chain_record, total_record};
ghost use Rattle.marker.specs.Reader.{FormFits};
ghost use Rattle.packs.specs.Job.{vertex_bytes, level_bytes};
ghost use Rattle.marker.specs.Wrote.{Wrote};
ghost use Rattle.writer.specs.Put.{job_records};

use lines::level::Level;
use lines::line::Line;
use lines::vertex::Vertex;

// Writes a part.
fn put(bytes: &mut [u8], at: usize, part: &[u8]) -> usize
    requires { at + length part.now ≤ length bytes.old }
    ensures { Wrote at bytes.old bytes.new part.now result }
{
    let end = at + part.len();
    bytes[at..end].copy_from_slice(part);
    end
}

// Writes a 16-bit number.
fn put_u16(bytes: &mut [u8], at: usize, n: u16) -> usize
    requires { at + 2 ≤ length bytes.old }
    ensures { Wrote at bytes.old bytes.new (le 2 n) result }
{
    put(bytes, at, &n.to_le_bytes())
}

// Writes a 32-bit number.
fn put_u32(bytes: &mut [u8], at: usize, n: u32) -> usize
    requires { at + 4 ≤ length bytes.old }
    ensures { Wrote at bytes.old bytes.new (le 4 n) result }
{
    put(bytes, at, &n.to_le_bytes())
}

// Writes a 64-bit number.
fn put_u64(bytes: &mut [u8], at: usize, n: u64) -> usize
    requires { at + 8 ≤ length bytes.old }
    ensures { Wrote at bytes.old bytes.new (le 8 n) result }
{
    put(bytes, at, &n.to_le_bytes())
}

// Writes a header: a body length and a kind.
fn put_header(bytes: &mut [u8], at: usize, size: u32, kind: u16) -> usize
    requires { at + 6 ≤ length bytes.old }
    ensures { Wrote at bytes.old bytes.new (le 4 size ++ le 2 kind) result }
{
    let at = put_u32(bytes, at, size);
    put_u16(bytes, at, kind)
}

// What the body of a record holds many of, each as bytes of one width.
trait Item: Copy {
    const WIDTH: usize;

    ghost WIDTH: { ℕ };

    ghost to_bytes: { Self → List ℕ };

    // Writes the item.
    fn put(self, bytes: &mut [u8], at: usize) -> usize
        requires { at + WIDTH ≤ length bytes.old }
        ensures wrote { Wrote at bytes.old bytes.new (to_bytes self) result }
        ensures end { result ≡ at + WIDTH };
}

// A vertex.
impl Item for Vertex {
    const WIDTH: usize = 4;

    ghost WIDTH = { 4 };

    ghost to_bytes = { vertex_bytes };

    fn put(self, bytes: &mut [u8], at: usize) -> usize {
        let at = put_u16(bytes, at, self.x.cast_unsigned());
        put_u16(bytes, at, self.y.cast_unsigned())
    }
}

// A level.
impl Item for Level {
    const WIDTH: usize = 8;

    ghost WIDTH = { 8 };

    ghost to_bytes = { level_bytes };

    fn put(self, bytes: &mut [u8], at: usize) -> usize {
        let at = put_u32(bytes, at, self.tolerance);
        put_u32(bytes, at, self.weight)
    }
}

// The number of a chain's vertex.
impl Item for u16 {
    const WIDTH: usize = 2;

    ghost WIDTH = { 2 };

    ghost to_bytes = { le 2 };

    fn put(self, bytes: &mut [u8], at: usize) -> usize {
        put_u16(bytes, at, self)
    }
}

// Writes items.
fn put_items<T: Item>(bytes: &mut [u8], at: usize, items: &[T]) -> usize
    requires { at + T.Item.WIDTH * length items.now ≤ length bytes.old }
    ensures wrote { Wrote at bytes.old bytes.new (flat_map T.Item.to_bytes items.now) result }
    ensures end { result ≡ at + T.Item.WIDTH * length items.now }
{
    let mut end = at;
    for item in items {
        end = item.put(bytes, end);
    }
    end
}

// Writes the record of a kind that holds items, as many as its length can tell.
fn put_record<T: Item>(bytes: &mut [u8], at: usize, kind: u16, items: &[T]) -> usize
    requires room { at + 6 + T.Item.WIDTH * length items.now ≤ length bytes.old }
    requires few { T.Item.WIDTH * length items.now < 2 ^ 32 }
    ensures wrote { Wrote at bytes.old bytes.new (a_record kind (flat_map T.Item.to_bytes items.now)) result }
    ensures end { result ≡ at + 6 + T.Item.WIDTH * length items.now }
{
    let at = put_header(bytes, at, (T::WIDTH * items.len()) as u32, kind);
    put_items(bytes, at, items)
}

// Writes the record of a measure and a price.
fn put_number_record(bytes: &mut [u8], at: usize, measure: u8, price: u8) -> usize
    requires { at + 8 ≤ length bytes.old }
    ensures wrote { Wrote at bytes.old bytes.new (a_record 1 (measure ∷ (price ∷ []))) result }
    ensures end { result ≡ at + 8 }
{
    let at = put_header(bytes, at, 2, 1);
    put(bytes, at, &[measure, price])
}

// Writes the records of a job.
pub(crate) fn put_job(
    bytes: &mut [u8],
    measure: u8,
    price: u8,
    line: &Line,
    levels: &[Level],
) -> usize
    requires room { 20 + 4 * length line.now.vertices.now + 8 * length levels.now ≤ length bytes.old }
    requires few { length levels.now ≤ 8 }
    ensures wrote { Wrote 0 bytes.old bytes.new (job_records measure price line.now.vertices.now levels.now) result }
    ensures end { result ≡ 20 + 4 * length line.now.vertices.now + 8 * length levels.now }
{
    let at = put_number_record(bytes, 0, measure, price);
    let at = put_record(bytes, at, 2, line.vertices());
    put_record(bytes, at, 3, levels)
}

// Writes the record of a chain, which has no more vertices than a line.
pub(crate) fn put_chain_record(bytes: &mut [u8], at: usize, chain: &[u16]) -> usize
    requires room { at + 6 + 2 * length chain.now ≤ length bytes.old }
    requires few { length chain.now ≤ 256 }
    ensures wrote { Wrote at bytes.old bytes.new (chain_record chain.now) result }
    ensures end { result ≡ at + 6 + 2 * length chain.now }
{
    put_record(bytes, at, 4, chain)
}

// Writes the record of a total.
pub(crate) fn put_total_record(bytes: &mut [u8], at: usize, total: (u32, u64)) -> usize
    requires { at + 18 ≤ length bytes.old }
    ensures wrote { Wrote at bytes.old bytes.new (total_record total) result }
    ensures end { result ≡ at + 18 }
    ensures narrow { FormFits total }
{
    let (first, second) = total;
    let at = put_header(bytes, at, 12, 5);
    let at = put_u32(bytes, at, first);
    put_u64(bytes, at, second)
}
