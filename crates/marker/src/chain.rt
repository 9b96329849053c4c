// Chains as they lie in the body of a record: numbers of 16 bits each.
ghost use Rattle.std.specs.Prelude.{◌≡◌, ◌+◌, ◌<◌, ◌≤◌, length, Decides};
ghost use Rattle.families.specs.Chain.{Has, has};
ghost use Rattle.packs.specs.Bytes.{little};
ghost use Rattle.marker.specs.Records.{numbers};
ghost use Rattle.marker.specs.Judge.{in_order, disorder, missing};
ghost use Rattle.marker.specs.Chain.{numbers_of};
ghost use Rattle.marker.specs.Wrote.{Wrote};

// A chain: the numbers in the body of a record, two bytes each.
#[derive(Clone, Copy)]
pub(crate) struct Chain<'a> {
    pub(crate) numbers: &'a [[u8; 2]],
}

// The number that two bytes write.
fn number_16(bytes: &[u8; 2]) -> u16
    ensures { result ≡ little bytes.now }
{
    u16::from_le_bytes(*bytes)
}

// The same, as wide as a count. A function of its own, for `map` takes it and its contract gives `little` and the bound.
pub(crate) fn number(bytes: &[u8; 2]) -> usize
    ensures value { result ≡ little bytes.now }
    ensures bound { result < 65536 }
{
    usize::from(number_16(bytes))
}

impl<'a> Chain<'a> {
    // The chain in the body of a record.
    pub(crate) fn of(body: &'a [u8]) -> Chain<'a>
        ensures { numbers_of result ≡ numbers body.now }
    {
        Chain {
            numbers: body.as_chunks().0,
        }
    }

    // Puts the chain's numbers at a place, and answers the place after them.
    pub(crate) fn put(&self, numbers: &mut [u16], at: usize) -> usize
        requires { at + length (numbers_of self.now) ≤ length numbers.old }
        ensures { Wrote at numbers.old numbers.new (numbers_of self.now) result }
    {
        for (i, bytes) in self.numbers.iter().enumerate() {
            numbers[at + i] = number_16(bytes);
        }
        at + self.numbers.len()
    }

    // Whether the chain has the vertex v.
    pub(crate) fn has_vertex(&self, v: usize) -> bool
        ensures value { result ≡ has (numbers_of self.now) v }
        ensures found_exactly { Decides result (Has (numbers_of self.now) v) }
    {
        self.numbers.iter().map(number).any(|x| v == x)
    }

    // The lowest position that is out of order in a chain of a line of n vertices.
    // A loop, for each step needs the number before: `try_fold` is no shorter, and no lemma says what it gives over a list.
    pub(crate) fn first_disorder(&self, n: usize) -> Option<usize>
        ensures { result ≡ disorder n (numbers_of self.now) }
    {
        let numbers = self.numbers;
        let mut low = 0;
        for (i, bytes) in numbers.iter().enumerate() {
            let v = number(bytes);
            if !in_order(n, numbers.len(), i, low, v) {
                return Some(i);
            }
            low = v + 1;
        }
        None
    }

    // The first position whose vertex the finer chain has not.
    pub(crate) fn first_missing(&self, finer: Chain) -> Option<usize>
        ensures { result ≡ missing (numbers_of finer.entry) (numbers_of self.now) }
    {
        self.numbers
            .iter()
            .map(number)
            .position(|v| !finer.has_vertex(v))
    }
}

// Whether the number v may stand at position i of so many: the first is 0, the last is n - 1, and none is below `low`.
fn in_order(n: usize, count: usize, i: usize, low: usize, v: usize) -> bool
    requires { (i < count) × (v < 65536) }
    ensures { result ≡ in_order n count i low v }
{
    v >= low && (i != 0 || v == 0) && (i + 1 != count || v + 1 == n)
}
