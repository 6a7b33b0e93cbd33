// The walk, the throw and the sweep (document 01, "Walk, throw and call machine").
// `next_frame`, `walk`, `raise` and `resume` refuse with 28 first. The functions that they call take any architecture number: any but
// 1 stands for 2 there, only lookup compares it with the chunk's.
// `step` has the frame step in place, `walk` the walk, `search` the throw, `cleanup` the sweep; here stand the types, and a throw with
// the calls after it.
#![tactic(auto)]

ghost use Rattle.std.specs.Prelude.{◌≡◌};
ghost use Rattle.failure.specs.Outcome.{outcome};
ghost use Rattle.mem.specs.Given.{lent_by};
ghost use Rattle.model.specs.Call.{Throws, Sweeps};
ghost use Rattle.unwind.specs.Answers.{raise_told, cleaned, is_landing, call_number, resume_handed, unwound_by, unwound_handed};

use crate::cleanup::resume;
use crate::search::raise;
use arch::Regs;
use failure::Failure;
use lookup::Record;
use mem::Memory;
use model::Unwinding;
use rows::Row;

pub mod cleanup;
pub mod search;
mod step;
pub mod walk;

// The most frames that a walk gives.
pub const MAX_FRAMES: usize = 1024;

// The caller of a frame is interrupted: never; only the first frame can be.
const NEXT_INTERRUPTED: bool = false;

// The most frames that one call of walk gives.
pub const BATCH_FRAMES: usize = 16;

// A frame: its registers, its number, and whether it was interrupted.
#[derive(Clone, Copy)]
pub struct Frame {
    pub regs: Regs,
    pub number: usize,
    pub interrupted: bool,
}

// A throw: the registers of frame 0, the pc of the throw, whether the frame was interrupted there, and the exception.
#[derive(Clone, Copy)]
pub struct Throw {
    pub regs: Regs,
    pub pc: usize,
    pub interrupted: bool,
    pub exception: usize,
}

// A frame step: past the frame its record, and its caller; none where the walk ends, or a refusal, and the frame's own, which is handed
// back as well.
#[derive(Clone, Copy)]
pub struct Stepped {
    pub frame: Frame,
    pub answer: Result<Option<Record>, Failure>,
}

// Frames of a walk, the innermost first: the start of each one's record, its pc and its sp. What stands past the count is 0. C reads
// it, and no library has a heap: three arrays and one count.
#[repr(C)]
#[derive(Clone, Copy)]
pub struct Frames {
    pub count: usize,
    pub starts: [usize; 16],
    pub pcs: [usize; 16],
    pub sps: [usize; 16],
}

// How a call of walk comes to its end: there may be more frames, or the walk ends.
#[derive(Clone, Copy, Debug, PartialEq, Eq)]
pub enum WalkAnswer {
    More,
    End,
}

// Up to 16 frames of a walk. If there may be more, the frame that the walk goes on from; else, and for a refusal, the one that came in,
// which is handed back as well; so it is no `Result`.
#[derive(Clone, Copy)]
pub struct Batch {
    pub frame: Frame,
    pub frames: Frames,
    pub answer: Result<WalkAnswer, Failure>,
}

// What a throw comes to: 6 with the chosen frame's number and sp, 3, or 5.
#[derive(Clone, Copy, Debug, PartialEq, Eq)]
pub enum RaiseAnswer {
    Chosen(usize, usize),
    Stopped,
    Ended,
}

// A throw, and the unwinding at frame 0, which a refusal has too; so it is no `Result`.
#[derive(Clone, Copy)]
pub struct Raised {
    pub unwinding: Unwinding,
    pub answer: Result<RaiseAnswer, Failure>,
}

// What a sweep call comes to: the landing of the frame with this number, 2, or finished.
#[derive(Clone, Copy, Debug, PartialEq, Eq)]
pub enum ResumeAnswer {
    Install(usize),
    Fatal,
    Finished,
}

// A sweep call: for a landing the file at the pad and the unwinding past the frame; else, and for a refusal, those that came in,
// which are handed back as well; so it is no `Result`.
#[derive(Clone, Copy)]
pub struct Resumed {
    pub regs: Regs,
    pub unwinding: Unwinding,
    pub answer: Result<ResumeAnswer, Failure>,
}

// A throw, and one of the calls after it.
#[derive(Clone, Copy)]
pub struct Unwound {
    pub raised: Result<RaiseAnswer, Failure>,
    pub resumed: Resumed,
}

// A frame that the walk is past: its record and its row, none where no row was found or asked for.
#[derive(Clone, Copy)]
struct Met {
    record: Record,
    row: Option<Row>,
}

// A throw and the calls after it.

// The answer is a landing.
fn lands(answer: Result<ResumeAnswer, Failure>) -> bool
    ensures { result ≡ is_landing (outcome answer) }
{
    matches!(answer, Ok(ResumeAnswer::Install(_)))
}

// Call number n of resume, counted from 0, each with what the one before it handed back. After an answer that is no landing every
// later one is the same.
fn resume_nth(memory: &Memory<'_>, arch: u8, unwinding: Unwinding, n: usize) -> Resumed
    ensures { resume_handed result ≡ call_number n (lent_by memory.now) arch unwinding }
{
    let mut u = unwinding;
    for _ in 0..n {
        let resumed = resume(memory, arch, u);
        if !lands(resumed.answer) {
            return resumed;
        }
        u = resumed.unwinding;
    }
    resume(memory, arch, u)
}

// raise, then n + 1 calls of resume: the answers of the throw and of the last call. At a machine's throw they are those that document
// 01's demand 3 asks of regular calls, also over another stack that has the live slots of the machine's.
pub fn unwind(memory: &Memory<'_>, arch: u8, throw: Throw, n: usize) -> Unwound
    ensures { (unwound_handed result ≡ unwound_by n (lent_by memory.now)
        arch throw.regs.r throw.pc throw.interrupted throw.exception)
        × Throws (lent_by memory.now)
        arch throw.regs.r throw.pc throw.interrupted (raise_told result.raised)
        × Sweeps (lent_by memory.now)
        arch throw.regs.r throw.pc throw.interrupted n (cleaned result.resumed) }
{
    let raised = raise(memory, arch, throw);
    Unwound {
        raised: raised.answer,
        resumed: resume_nth(memory, arch, raised.unwinding, n),
    }
}
