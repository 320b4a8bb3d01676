// Why a call refuses, by cause, with the paper's number for each.
ghost use Rattle.std.specs.Prelude.{◌≡◌};
ghost use Rattle.tasks.specs.Refusals.{refusal_number};

#[derive(Clone, Copy, Debug, PartialEq, Eq)]
pub enum Refusal {
    // The bytes end before a number is complete.
    Incomplete = 1,
    // A second byte is 0 or above 127.
    SecondByte = 2,
    FieldCount = 3,
    Policy = 4,
    Processors = 5,
    TaskCount = 6,
    // A task breaks 1 ≤ C ≤ D ≤ P ≤ 200, or an entry after the nth is not 0.
    Task = 7,
    // Bytes after the last task.
    LaterBytes = 8,
    // A work space with no slot.
    NoSlot = 9,
    ShortTrace = 10,
    // A mask's bit for no task, or for one that may not be released.
    Mask = 11,
    ShortOutput = 12,
    // A state that is not proper.
    Improper = 13,
    // A file of states that is empty, or whose length is not that of whole states.
    FileLength = 14,
    // A number that is no mark's.
    MarkNumber = 15,
    // A mark that was never set.
    MarkUnset = 16,
}

impl Refusal {
    // Its number in the paper.
    pub fn number(self) -> u8
        ensures { result ≡ refusal_number self }
    {
        self as u8
    }
}
