// The walk: one frame at a time, and many at once.
ghost use Rattle.std.specs.Prelude.{◌≡◌};
ghost use Rattle.failure.specs.Outcome.{outcome};
ghost use Rattle.mem.specs.Given.{lent_by};
ghost use Rattle.model.specs.FrameStep as Walk;
ghost use Rattle.model.specs.Unwinding as Spec;
ghost use Rattle.unwind.specs.Answers.{frame_with, frame_at, staying, stepped, step_handed};
ghost use Rattle.unwind.specs.Batches.{given_as, given, no_frames, walk_from, walked_by, batch_handed, walking};

use crate::step::meet;
use crate::{BATCH_FRAMES, Batch, Frame, Frames, NEXT_INTERRUPTED, Stepped, WalkAnswer};
use arch::{COLUMNS, PC_COLUMN, Regs, sp_column};
use failure::Failure;
use frame::require_accepted;
use lookup::Record;
use mem::Memory;

// A refusal and the end of the walk hand back the frame that came in.
fn stayed(answer: Result<Option<Record>, Failure>, frame: Frame) -> Stepped
    ensures { step_handed result ≡ staying (outcome answer) (frame_at frame) }
{
    Stepped { frame, answer }
}

// The frame step, for any architecture number.
fn step_from(memory: &Memory<'_>, arch: u8, frame: Frame) -> Stepped
    ensures { step_handed result ≡ stepped (frame_at frame) (Walk.frame_step arch (lent_by memory.now) (frame_at frame)) }
{
    let mut file = frame.regs.r;
    match meet(
        memory,
        arch,
        frame.number,
        frame.interrupted,
        false,
        &mut file,
    ) {
        Ok(Some(met)) => Stepped {
            frame: Frame {
                regs: Regs { r: file },
                number: frame.number + 1,
                interrupted: NEXT_INTERRUPTED,
            },
            answer: Ok(Some(met.record)),
        },
        Ok(None) => stayed(Ok(None), frame),
        Err(failure) => stayed(Err(failure), frame),
    }
}

// The frame step in what is lent.
pub fn next_frame(memory: &Memory<'_>, arch: u8, frame: Frame) -> Stepped
    ensures { step_handed result ≡ stepped (frame_at frame) (Spec.next_frame (lent_by memory.now) arch (frame_at frame)) }
{
    if let Err(failure) = require_accepted(memory, arch) {
        return stayed(Err(failure), frame);
    }
    step_from(memory, arch, frame)
}

// A frame of a walk, by its parts as in `step`: the start of its record, none where the walk ends.
fn pass(
    memory: &Memory<'_>,
    arch: u8,
    number: usize,
    interrupted: bool,
    file: &mut [usize; COLUMNS],
) -> Result<Option<usize>, Failure>
    ensures { given_as (lent_by memory.now) (frame_with number interrupted file.old) file.new result ≡
        given arch (lent_by memory.now) (frame_with number interrupted file.old) }
{
    match meet(memory, arch, number, interrupted, false, file)? {
        Some(met) => Ok(Some(met.record.start)),
        None => Ok(None),
    }
}

// Up to 16 frames, for any architecture number.
fn walk_from(memory: &Memory<'_>, arch: u8, frame: Frame) -> Batch
    ensures { batch_handed result ≡ walked_by (frame_at frame)
        (walk_from 16 arch (lent_by memory.now) (frame_at frame) no_frames) }
{
    let k = sp_column(arch);
    let mut frames = NO_FRAMES;
    let mut file = frame.regs.r;
    let mut at = frame.number;
    let mut first = frame.interrupted;
    for count in 0..BATCH_FRAMES {
        let pc = file[PC_COLUMN];
        let sp = file[k];
        match pass(memory, arch, at, first, &mut file) {
            Ok(Some(start)) => {
                frames.starts[count] = start;
                frames.pcs[count] = pc;
                frames.sps[count] = sp;
                at += 1;
                first = NEXT_INTERRUPTED;
            }
            Ok(None) => {
                frames.count = count;
                return Batch {
                    frame,
                    frames,
                    answer: Ok(WalkAnswer::End),
                };
            }
            Err(failure) => {
                frames.count = count;
                return Batch {
                    frame,
                    frames,
                    answer: Err(failure),
                };
            }
        }
    }
    frames.count = BATCH_FRAMES;
    Batch {
        frame: Frame {
            regs: Regs { r: file },
            number: at,
            interrupted: first,
        },
        frames,
        answer: Ok(WalkAnswer::More),
    }
}

// No frames.
const NO_FRAMES: Frames = Frames {
    count: 0,
    starts: [0; 16],
    pcs: [0; 16],
    sps: [0; 16],
};

// Up to 16 frames of a walk, in what is lent.
pub fn walk(memory: &Memory<'_>, arch: u8, frame: Frame) -> Batch
    ensures { batch_handed result ≡ walked_by (frame_at frame) (walking (lent_by memory.now) arch (frame_at frame)) }
{
    if let Err(failure) = require_accepted(memory, arch) {
        return Batch {
            frame,
            frames: NO_FRAMES,
            answer: Err(failure),
        };
    }
    walk_from(memory, arch, frame)
}
