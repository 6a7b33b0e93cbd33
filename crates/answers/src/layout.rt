// How the structs of the C interface stand in memory, told by a value of each that a function returns: every number in it is the
// offset at which it stands in that struct, a byte the offset modulo 256. A bool is the flag that came in, but `chosen` the other.
ghost use Rattle.std.specs.Prelude.{◌≡◌, ◌≤◌};
ghost use Rattle.answers.specs.Offsets as Spec;

use crate::{
    Batch, Changed, Decided, Ended, File, Function, Number, Raised, Read, Resumed, RowFound,
    Stepped,
};
use arch::Regs;
use lookup::Record;
use model::Unwinding;
use state::State;
use unwind::Frames;

// How many structs cross, this one among them.
pub const STRUCTS: usize = 18;

// A value of each struct that a function returns; and the sizes and alignments of all structs, in the order of `specs/Layout.antt`.
#[repr(C)]
#[derive(Clone, Copy)]
pub struct Layout {
    pub number: Number,
    pub file: File,
    pub function: Function,
    pub read: Read,
    pub changed: Changed,
    pub ended: Ended,
    pub row: RowFound,
    pub decided: Decided,
    pub stepped: Stepped,
    pub batch: Batch,
    pub raised: Raised,
    pub resumed: Resumed,
    pub sizes: [usize; STRUCTS],
    pub alignments: [usize; STRUCTS],
}

// A register file that comes first.
const REGS_AT_0: Regs = Regs {
    r: [
        0, 8, 16, 24, 32, 40, 48, 56, 64, 72, 80, 88, 96, 104, 112, 120, 128, 136, 144, 152, 160,
        168, 176, 184, 192, 200, 208, 216, 224, 232, 240, 248, 256, 264, 272, 280, 288, 296, 304,
        312, 320,
    ],
};

// A register file after another.
const REGS_AT_328: Regs = Regs {
    r: [
        328, 336, 344, 352, 360, 368, 376, 384, 392, 400, 408, 416, 424, 432, 440, 448, 456, 464,
        472, 480, 488, 496, 504, 512, 520, 528, 536, 544, 552, 560, 568, 576, 584, 592, 600, 608,
        616, 624, 632, 640, 648,
    ],
};

// A record after a status.
const RECORD_AT_8: Record = Record {
    start: 8,
    end: 16,
    frame: 24,
    handlers: 32,
    program: 40,
    limit: 48,
    version: 56,
};

// A record after a register file.
const RECORD_AT_328: Record = Record {
    start: 328,
    end: 336,
    frame: 344,
    handlers: 352,
    program: 360,
    limit: 368,
    version: 120,
};

// Frames after a register file.
const FRAMES_AT_328: Frames = Frames {
    count: 328,
    starts: [
        336, 344, 352, 360, 368, 376, 384, 392, 400, 408, 416, 424, 432, 440, 448, 456,
    ],
    pcs: [
        464, 472, 480, 488, 496, 504, 512, 520, 528, 536, 544, 552, 560, 568, 576, 584,
    ],
    sps: [
        592, 600, 608, 616, 624, 632, 640, 648, 656, 664, 672, 680, 688, 696, 704, 712,
    ],
};

// The arrays of a state after a status.
const SAVED_REGS: [u16; 32] = [
    24, 26, 28, 30, 32, 34, 36, 38, 40, 42, 44, 46, 48, 50, 52, 54, 56, 58, 60, 62, 64, 66, 68, 70,
    72, 74, 76, 78, 80, 82, 84, 86,
];

const SAVED_SLOTS: [u16; 32] = [
    88, 90, 92, 94, 96, 98, 100, 102, 104, 106, 108, 110, 112, 114, 116, 118, 120, 122, 124, 126,
    128, 130, 132, 134, 136, 138, 140, 142, 144, 146, 148, 150,
];

// A number.
fn number_told() -> Number
    ensures { result ≡ Spec.number }
{
    Number {
        status: 0,
        value: 8,
    }
}

// A register file with its status.
fn file_told() -> File
    ensures { result ≡ Spec.file }
{
    File {
        regs: REGS_AT_0,
        status: 328,
    }
}

// The record of a pc.
fn function_told() -> Function
    ensures { result ≡ Spec.function }
{
    Function {
        status: 0,
        found: RECORD_AT_8,
    }
}

// A number of what is lent.
fn read_told() -> Read
    ensures { result ≡ Spec.read }
{
    Read {
        status: 0,
        value: 8,
        next: 16,
    }
}

// A state after a status.
fn state_told(flag: bool) -> State
    ensures { result ≡ Spec.state_at 8 flag }
{
    State {
        cfa_fp: flag,
        cfa_units: 12,
        count: 16,
        regs: SAVED_REGS,
        slots: SAVED_SLOTS,
    }
}

// A state with its status.
fn changed_told(flag: bool) -> Changed
    ensures { result ≡ Spec.changed flag }
{
    Changed {
        status: 0,
        state: state_told(flag),
    }
}

// A run.
fn ended_told(flag: bool) -> Ended
    ensures { result ≡ Spec.ended flag }
{
    Ended {
        status: 0,
        state: state_told(flag),
        after: 152,
    }
}

// A row.
fn row_told() -> RowFound
    ensures { result ≡ Spec.row }
{
    RowFound {
        status: 0,
        pad: 8,
        action: 16,
    }
}

// A reason.
fn decided_told() -> Decided
    ensures { result ≡ Spec.decided }
{
    Decided {
        regs: REGS_AT_0,
        status: 328,
        reason: 332,
    }
}

// A frame step.
fn stepped_told(flag: bool) -> Stepped
    ensures { result ≡ Spec.stepped flag }
{
    Stepped {
        regs: REGS_AT_0,
        function: RECORD_AT_328,
        number: 384,
        interrupted: flag,
        status: 396,
    }
}

// Frames of a walk.
fn batch_told(flag: bool) -> Batch
    ensures { result ≡ Spec.batch flag }
{
    Batch {
        regs: REGS_AT_0,
        frames: FRAMES_AT_328,
        number: 720,
        interrupted: flag,
        status: 732,
    }
}

// An unwinding that stands at a place, as its register file does.
fn unwinding_at(at: usize, regs: Regs, flag: bool) -> Unwinding
    requires bound { at ≤ 328 }
    requires file { regs ≡ (Spec.unwinding_at at flag).regs }
    ensures { result ≡ Spec.unwinding_at at flag }
{
    Unwinding {
        regs,
        number: at + 328,
        exception: at + 336,
        chosen_number: at + 344,
        chosen_sp: at + 352,
        interrupted: flag,
        chosen: !flag,
    }
}

// A throw.
fn raised_told(flag: bool) -> Raised
    ensures { result ≡ Spec.raised flag }
{
    Raised {
        unwinding: unwinding_at(0, REGS_AT_0, flag),
        number: 368,
        sp: 376,
        status: 384,
        reason: 388,
    }
}

// A sweep call.
fn resumed_told(flag: bool) -> Resumed
    ensures { result ≡ Spec.resumed flag }
{
    Resumed {
        regs: REGS_AT_0,
        unwinding: unwinding_at(328, REGS_AT_328, flag),
        number: 696,
        status: 704,
        reason: 708,
    }
}

// All of them.
pub fn layout_told(flag: bool) -> Layout
    ensures { result ≡ Spec.layout flag }
{
    Layout {
        number: number_told(),
        file: file_told(),
        function: function_told(),
        read: read_told(),
        changed: changed_told(flag),
        ended: ended_told(flag),
        row: row_told(),
        decided: decided_told(),
        stepped: stepped_told(flag),
        batch: batch_told(flag),
        raised: raised_told(flag),
        resumed: resumed_told(flag),
        sizes: [
            328, 56, 144, 368, 392, 16, 336, 64, 24, 152, 160, 24, 336, 400, 736, 392, 712, 3640,
        ],
        alignments: [8, 8, 8, 8, 8, 8, 8, 8, 8, 8, 8, 8, 8, 8, 8, 8, 8, 8],
    }
}
