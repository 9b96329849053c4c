// The whole path from the bytes of a job pack and edits to what they answer.
ghost use Rattle.std.specs.Prelude.{◌≡◌, ◌≤◌, [], ◌∷◌, length, take, is_ok, IfOk};
ghost use Rattle.std.specs.List.{list_all};
ghost use Rattle.packs.specs.Kind.{measure_largest};
ghost use Rattle.marker.specs.Pack.{measure_says};
ghost use Rattle.sheets.specs.Settings.{opened};
ghost use Rattle.edits.specs.Perform.{performed_numbered, Gives, EachLeastPriced};
ghost use Rattle.edits.specs.Job.{answers_of, Edits, edit_room, draw_room};
ghost use Rattle.edits.specs.declared.script.Edit.TheVariants.{Draw};

use crate::perform::Desk;
use crate::script::Edit;
use crate::watch::{Unwatched, Watch};
use drawings::drawing::DrawError;
use packs::job::Job;
use packs::place::Place;
use packs::reader::read_job;
use search::room::Room;
use sheets::call::Answer;
use std::alloc::Global;

// The memory that a single draw is lent.
const DRAW_ROOM: Room = Room {
    grades: 1_600,
    prices: 4_000,
    stays: 40,
};

// What the edits of a job answer: its number of levels, and an answer to each, with totals by their forms.
#[derive(Drop)]
pub struct Edited {
    pub levels: usize,
    pub answers: Vec<Answer<(u32, u64)>>,
}

impl Edited {
    // Whether no edit was refused.
    pub fn all_accepted(&self) -> bool
        ensures { result ≡ list_all is_ok (answers_of self.now) }
    {
        self.answers.iter().all(|answer| answer.is_ok())
    }
}

// Tries edits on a sheet that is opened with a job, which lies in a place.
fn edit_placed<W: Watch>(
    heap: Global,
    place: &Place,
    job: Job,
    edits: &[Edit],
    room: Room,
    watch: &mut W,
) -> Result<Edited, DrawError>
    requires { (job.vertices ≤ 256) × (job.levels ≤ 8) }
    ensures level_count { IfOk result (λ e. e.levels ≡ job.levels) }
    ensures told { Gives answers_of (performed_numbered job.measure job.price (take job.vertices place.now.vertices) (take job.levels place.now.levels) room edits.now) result }
    ensures each_least { IfOk result (λ e. EachLeastPriced job.price (opened (length (take job.vertices place.now.vertices)) (take job.levels place.now.levels) (measure_largest job.measure) (measure_says job.measure)) (take job.vertices place.now.vertices) edits.now (answers_of e)) }
{
    let n = job.vertices;
    let m = job.levels;
    let desk = Desk {
        heap,
        line: &place.vertices[0..n],
        levels: &place.levels[0..m],
        edits,
        room,
    };
    Ok(Edited {
        levels: m,
        answers: desk.perform_numbered(job.measure, job.price, watch)?,
    })
}

// Opens a sheet with the job of a pack and tries edits on it in so much memory; or answers the reader's fault, or that memory ran out.
fn edit_within<W: Watch>(
    heap: Global,
    bytes: &[u8],
    edits: &[Edit],
    room: Room,
    watch: &mut W,
) -> Result<Edited, DrawError>
    ensures { Edits bytes.now edits.now room result }
{
    let mut place = Place::blank();
    let job = read_job(bytes, &mut place)?;
    edit_placed(heap, &place, job, edits, room, watch)
}

// Opens a sheet with the job of a pack and tries edits on it, in memory for 256 vertices and 8 levels; or answers the reader's fault, or that
// memory ran out.
pub fn edit_job(heap: Global, bytes: &[u8], edits: &[Edit]) -> Result<Edited, DrawError>
    ensures { Edits bytes.now edits.now edit_room result }
{
    edit_job_watched(heap, bytes, edits, &mut Unwatched)
}

// The same, and the watch is told after each edit how many are performed.
pub fn edit_job_watched<W: Watch>(
    heap: Global,
    bytes: &[u8],
    edits: &[Edit],
    watch: &mut W,
) -> Result<Edited, DrawError>
    ensures { Edits bytes.now edits.now edit_room result }
{
    edit_within(heap, bytes, edits, Room::FULL, watch)
}

// Opens a sheet with the job of a pack and draws its line, in memory for a line of 40 vertices.
pub fn draw_job(heap: Global, bytes: &[u8]) -> Result<Edited, DrawError>
    ensures { Edits bytes.now (Draw ∷ []) draw_room result }
{
    edit_within(heap, bytes, &[Edit::Draw], DRAW_ROOM, &mut Unwatched)
}
