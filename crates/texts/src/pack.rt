// From the text of a job to its pack.
ghost use Rattle.std.specs.Prelude.{◌≡◌, Ok, IfOk, IfErr, MatchResult};
ghost use Rattle.packs.specs.Job.{LawfulContent, encoded, job_in};
ghost use Rattle.texts.specs.Error.{Blamed};
ghost use Rattle.texts.specs.Pack.{said_content, pack_said, SaysLawfully, NamesFirst, GivesJobBack};
ghost use Rattle.texts.specs.Text.{job_text, short_text};
ghost use Rattle.texts.specs.Draft.{job_said};

use crate::draft::read_lines;
use crate::error::TextError;
use drawings::memory::filled;
use lines::level::Level;
use lines::line::Line;
use lines::vertex::Vertex;
use packs::kind::{MeasureKind, PriceKind};
use std::alloc::{AllocError, Global};
use words::lines;
use writer::job::write_job;

// A job that a text says.
#[derive(Drop)]
struct SaidJob {
    measure: MeasureKind,
    price: PriceKind,
    vertices: Vec<Vertex>,
    levels: Vec<Level>,
}

impl SaidJob {
    // Reads a job off a text, or answers the first line that is at fault, or that memory ran out.
    fn read(heap: Global, text: &[u8]) -> Result<SaidJob, TextError>
        ensures { MatchResult result (λ job. job_said text.now ≡ Ok (said_content job)) (Blamed (job_said text.now)) }
    {
        let lines = lines(heap, text)?;
        let draft = read_lines(heap, &lines)?;
        let (measure, price) = draft.finish(lines.len() + 1)?;
        let levels = draft.levels(heap)?;
        Ok(SaidJob {
            measure,
            price,
            vertices: draft.vertices,
            levels,
        })
    }

    // The pack of the job, if it is lawful, in memory of exactly its length. Neither call can refuse.
    fn write(&self, heap: Global) -> Result<Vec<u8>, AllocError>
        requires { LawfulContent (said_content self.now) }
        ensures bytes { IfOk result (λ pack. pack.items ≡ encoded (said_content self.now)) }
        ensures reads_back { IfOk result (λ pack. job_in pack.items ≡ Ok (said_content self.now)) }
    {
        let mut line = Line::built_in();
        line.make(&self.vertices).unwrap();
        let mut pack = filled(heap, 20 + 4 * line.count() + 8 * self.levels.len(), 0u8)?;
        let measure = self.measure.into();
        let price = self.price.into();
        write_job(measure, price, &line, &self.levels, pack.as_mut_slice()).unwrap();
        Ok(pack)
    }
}

// Makes the pack of the job that a text says, or answers the first line that is at fault, or that memory ran out.
#[tactic(auto, using(crate::proofs::FirstFault::names_first, crate::proofs::GivesBack::gives_job_back, crate::proofs::GivesBack::gives_short_job_back))]
pub fn pack_text(heap: Global, text: &[u8]) -> Result<Vec<u8>, TextError>
    ensures answer { MatchResult result (λ pack. pack_said text.now ≡ Ok pack.items) (Blamed (pack_said text.now)) }
    ensures names_the_first_fault { IfErr result (NamesFirst text.now) }
    ensures lawful { IfOk result (λ pack. SaysLawfully text.now pack.items) }
    ensures gives_job_back { GivesJobBack job_text text.now result }
    ensures gives_short_job_back { GivesJobBack short_text text.now result }
{
    let job = SaidJob::read(heap, text)?;
    Ok(job.write(heap)?)
}
