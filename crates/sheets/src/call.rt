// Calls that are tried on a sheet, and what they answer.
use arrayvec::ArrayVec;
use lines::fault::Fault;
use lines::vertex::Vertex;
use search::room::Room;

// A call on a sheet. A draw holds the vertices of its line, and how much of each memory it is lent.
#[derive(Clone, Copy, Debug)]
pub enum Call<'a> {
    Pin(usize),
    Release(usize),
    Retune(usize, u32),
    Draw(&'a [Vertex], Room),
}

// What a draw tells: the total, and the stay of each vertex.
#[derive(Drop)]
pub struct Drawn<P> {
    pub total: P,
    pub stays: ArrayVec<u8, 256>,
}

// What an accepted call tells.
#[derive(Drop)]
pub enum Outcome<P> {
    Done,
    Drew(Drawn<P>),
}

// What a call answers.
pub type Answer<P> = Result<Outcome<P>, Fault>;
