// The operations of the recorded lists, by their numbers.
#[derive(Clone, Copy, Debug, PartialEq, Eq)]
pub enum Operation {
    Uleb,
    Get,
    Set,
    Fp,
    Sp,
    SetSp,
    Strip,
    Lookup,
    Run,
    Save,
    Restore,
    Apply,
    Step,
    Handler,
    Handler2,
    Personality,
    Slot,
}

// A number of no operation.
#[derive(Clone, Copy, Debug, PartialEq, Eq)]
pub struct UnknownOperation(pub usize);

impl TryFrom<usize> for Operation {
    type Error = UnknownOperation;

    fn try_from(number: usize) -> Result<Self, UnknownOperation> {
        match number {
            1 => Ok(Operation::Uleb),
            2 => Ok(Operation::Get),
            3 => Ok(Operation::Set),
            4 => Ok(Operation::Fp),
            5 => Ok(Operation::Sp),
            6 => Ok(Operation::SetSp),
            7 => Ok(Operation::Strip),
            8 => Ok(Operation::Lookup),
            9 => Ok(Operation::Run),
            10 => Ok(Operation::Save),
            11 => Ok(Operation::Restore),
            12 => Ok(Operation::Apply),
            13 => Ok(Operation::Step),
            14 => Ok(Operation::Handler),
            15 => Ok(Operation::Handler2),
            16 => Ok(Operation::Personality),
            17 => Ok(Operation::Slot),
            _ => Err(UnknownOperation(number)),
        }
    }
}
